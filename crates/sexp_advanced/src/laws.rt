//! Laws of reading and writing: one answer, what is written is read, first faults stay, and atoms
//! are those of the grammar. Functions without a body, whose contracts are facts about the
//! definitions; they touch nothing. Begin with `written_is_read`; the grammar stands in
//! `specs/Grammar`.

ghost use Rattle.std.specs.Prelude.{◌≡◌, ◌↔◌, ◌≤◌, [], ◌++◌, ℕ, List, length, Result};
ghost use Rattle.sexp_canonical.specs.{View.tree_of, Spelling.{most_depth, depth}};
ghost use Rattle.sexp_canonical.specs.declared.tree.Sexp.{Sexp};
ghost use Rattle.sexp_advanced.specs.Bytes.{is_space_byte, without_front};
ghost use Rattle.sexp_advanced.specs.Reading.{ReadsAdvanced, IsExpression, IsFirstAdvFault};
ghost use Rattle.sexp_advanced.specs.{Writing.{advanced_of, EndsToken}, Octets.IsOfOctets};
ghost use Rattle.sexp_advanced.specs.{Signs.{sign, IsDelimited}, Grammar.IsSpelled};
ghost use Rattle.sexp_advanced.specs.declared.{pieces.Form.Form, signs.Sign.Sign};
ghost use Rattle.sexp_advanced.specs.declared.fault.AdvFault.{AdvFault};

/// What is to be answered for some bytes is determined: where an expression is read there is no
/// fault, and the first fault is one.
pub fn one_answer()
    ensures { (bytes : List ℕ) (a b : Result (Sexp × ℕ) AdvFault) → ReadsAdvanced bytes a
        → ReadsAdvanced bytes b → a ≡ b }
{}

/// What is written reads as the same expression, whatever blanks stand before it, and whatever
/// stands behind it that doesn't go on a token: wherever at most 64 lists are open at one place,
/// and atoms hold bytes, as each in memory does.
pub fn written_is_read()
    ensures { (tree : Sexp) (blanks more : List ℕ)
        → without_front is_space_byte blanks ≡ [] → IsOfOctets (tree_of tree)
        → depth (tree_of tree) ≤ most_depth → EndsToken more → ReadsAdvanced (blanks
        ++ (advanced_of tree ++ more)) (Ok (tree, length (blanks ++ advanced_of tree))) }
{}

/// What stands behind an expression doesn't matter, but for a byte that goes on a token at its end.
pub fn what_follows_does_not_matter()
    ensures { (text y z : List ℕ) (tree : Sexp)
        → (EndsToken y → EndsToken z) → IsExpression (text ++ y) tree (length text)
        → IsExpression (text ++ z) tree (length text) }
{}

/// A fault is the first from the left: it stays, whatever follows the text, but for a text that is
/// cut off.
pub fn first_faults_stay()
    ensures { (text more : List ℕ) (fault : AdvFault) → (fault ≡ AdvFault.Short → ⊥)
        → IsFirstAdvFault text fault → IsFirstAdvFault (text ++ more) fault }
{}

/// The atoms between two marks are those of the grammar: the spellings of their bytes one after
/// another, each a pair of hexadecimal digits, or in a quoted text a byte that stands for itself or
/// an escape, and the closing mark.
pub fn atoms_are_spelled()
    ensures { (form : Form) (text bytes rest : List ℕ)
        → IsDelimited form text (sign (Sign.Atom bytes) rest) ↔ IsSpelled form text bytes rest }
{}
