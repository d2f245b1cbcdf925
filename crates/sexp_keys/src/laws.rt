//! A law: an expression is one key or has one first fault, and a key's expression is that key. A
//! function without a body, whose contract is a fact about `specs/Key` and `specs/Faults`; it
//! touches nothing.

ghost use Rattle.std.specs.Prelude.{◌≡◌, Result};
ghost use Rattle.sexp_canonical.specs.Tree.{Tree};
ghost use Rattle.sexp_keys.specs.{Key.{Key, IsFormed, IsKey, key_tree}, Faults.ReadsKey};
ghost use Rattle.sexp_keys.specs.declared.fault.KeyFault.{KeyFault};

/// A law: an expression has one answer at most. It is one key, or has one first fault, and not
/// both. The expression of each key is that key.
pub fn one_answer()
    ensures one { (tree : Tree) (a b : Result Key KeyFault) → ReadsKey tree a → ReadsKey tree b
        → a ≡ b }
    ensures again { (key : Key) → IsFormed key → IsKey (key_tree key) key }
{}
