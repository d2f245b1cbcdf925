//! Laws of the canonical form: no spelling begins another, one answer, and lists and lengths are
//! what they seem. Functions without a body, whose contracts are facts about the definitions; they
//! touch nothing. Begin with `no_spelling_begins_another`.

ghost use Rattle.std.specs.Prelude.{◌≡◌, ◌↔◌, ◌+◌, ◌^◌, ◌<◌, ◌≤◌, [], ◌∷◌, ◌++◌, ℕ, List, length};
ghost use Rattle.std.specs.{Prelude.{All, Result}, Fmt.decimal, List.flat_map};
ghost use Rattle.sexp_canonical.specs.Tree.{Tree, Row, branch, row, list_of, items_of};
ghost use Rattle.sexp_canonical.specs.Spelling.{left_paren, right_paren, numeral, spelling};
ghost use Rattle.sexp_canonical.specs.{Spelling.{spelling_of, depth}, Reading.ReadsCanonical};
ghost use Rattle.sexp_canonical.specs.declared.{tree.Sexp.Sexp, fault.SexpFault.SexpFault};

/// No spelling begins another, and none is that of two expressions: a spelling with anything after
/// it is taken apart in one way.
pub fn no_spelling_begins_another()
    ensures { (a b : Sexp) (x y : List ℕ) → spelling_of a ++ x ≡ spelling_of b ++ y
        → (a ≡ b) × (x ≡ y) }
{}

/// What is to be answered for some bytes is determined: where an expression is read there is no
/// fault, and the first fault is one.
pub fn one_answer()
    ensures { (bytes : List ℕ) (a b : Result (Sexp × ℕ) SexpFault) → ReadsCanonical bytes a
        → ReadsCanonical bytes b → a ≡ b }
{}

/// Each list is that of its items and of no others. It is spelled by them, one after another, and
/// it is one list deeper than the deepest of them.
pub fn lists_are_their_items()
    ensures made { (items : Row) → list_of (items_of items) ≡ branch items }
    ensures one { (items : List Tree) → items_of (row items) ≡ items }
    ensures spelled { (items : List Tree)
        → spelling (list_of items) ≡ left_paren ∷ flat_map spelling items ++ right_paren ∷ [] }
    ensures deep { (items : List Tree) (n : ℕ) → (depth (list_of items) ≤ n + 1)
        ↔ All (λ t. depth t ≤ n) items }
{}

/// A length is written as std writes numbers, no two numbers alike, and a number below a power of
/// ten in no more digits than the power.
pub fn numerals_are_decimal()
    ensures decimal { (n : ℕ) → n < 2 ^ 64 → decimal n ≡ numeral n }
    ensures one { (m n : ℕ) → numeral m ≡ numeral n → m ≡ n }
    ensures short { (k n : ℕ) → n < 10 ^ (k + 1) → length (numeral n) ≤ k + 1 }
{}
