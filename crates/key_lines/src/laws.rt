//! Laws of key files: one answer at most, and another key that was put in is read again. Functions
//! without a body, whose contracts are facts about the definitions; they touch nothing. Begin with
//! `Answers` of `specs/KeyFile` and `Canon` of `specs/Canon`.

ghost use Rattle.std.specs.Prelude.{◌≡◌, ◌≤◌, false, Some, ℕ, List, length, Option, Result};
ghost use Rattle.sexp_canonical.specs.View.{tree_of};
ghost use Rattle.sexp_canonical.specs.Spelling.{most_bytes, most_depth, spelling_of, depth};
ghost use Rattle.sexp_canonical.specs.declared.tree.Sexp.{Sexp};
ghost use Rattle.sexp_advanced.specs.{declared.fault.AdvFault.AdvFault, Octets.IsOfOctets};
ghost use Rattle.key_lines.specs.KeyFile.{KeyFile, IsKeyFile, IsFault, Answers, with_key};
ghost use Rattle.key_lines.specs.Canon.{is_canonical, Canon};
ghost use Rattle.key_lines.specs.declared.fault.LinesFault.{LinesFault};

/// A law: a file has one answer at most, a key or a fault, and no fault hides a key. So it stands
/// for one canonical file at most. Its fault is never a lack of memory.
pub fn one_answer()
    ensures one { (file : List ℕ) (a b : Result KeyFile LinesFault) → Answers file a
        → Answers file b → a ≡ b }
    ensures canon { (file : List ℕ) (a b : Option (List ℕ)) → Canon file a → Canon file b → a ≡ b }
    ensures memory { (file : List ℕ) → (IsFault file LinesFault.NoMemory → ⊥)
        × (IsFault file (LinesFault.BadKey AdvFault.NoMemory) → ⊥) }
{
    sexp_advanced::one_answer();
}

/// A law: a file in which another key was put has that key between the same bytes, and stands for
/// the canonical spelling of that key. The key is within the limits, and its atoms hold bytes, as
/// each in memory does.
pub fn other_key_is_read()
    ensures key { (file : List ℕ) (key : KeyFile) (tree : Sexp)
        → IsKeyFile file key → IsOfOctets (tree_of tree) → depth (tree_of tree) ≤ most_depth
        → length (spelling_of tree) ≤ most_bytes → IsKeyFile (with_key key tree)
        (record { before = key.before; tree = tree; after = key.after }) }
    ensures canon { (file : List ℕ) (key : KeyFile) (tree : Sexp)
        → is_canonical file ≡ false → IsKeyFile file key → IsOfOctets (tree_of tree)
        → depth (tree_of tree) ≤ most_depth → length (spelling_of tree) ≤ most_bytes
        → Canon (with_key key tree) (Some (spelling_of tree)) }
{
    sexp_advanced::written_is_read();
}
