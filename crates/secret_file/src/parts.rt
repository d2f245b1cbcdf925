//! The parts of a list, from its front, and arrays of a given length. Pure, over slices; only
//! `front_of` takes memory, for the expression that it reads. Begin with `split_atom`; the clauses
//! need no definitions.

ghost use Rattle.std.specs.Prelude.{◌≡◌, ◌≤◌, ℕ, List, [], ◌∷◌, ◌++◌, length, take, IfOk, IfErr};
ghost use Rattle.std.specs.Prelude.{IfSome, IfNone};
ghost use Rattle.sexp_canonical.specs.{Tree.{Tree, leaf}, View.{tree_of, trees}};
ghost use Rattle.sexp_canonical.specs.{Spelling.{IsReadable, spelling_of}, declared.tree.Sexp.Sexp};
ghost use Rattle.sexp_canonical.specs.declared.fault.SexpFault.{SexpFault};
ghost use Rattle.sexp_keys.specs.declared.fault.KeyFault.{KeyFault};

use sexp_canonical::{Sexp, SexpFault, read};
use sexp_keys::KeyFault;
use std::alloc::Global;

/// The atom at the front of these, and what is behind it.
pub(crate) fn split_atom(lists: &[Sexp]) -> Option<(&[u8], &[Sexp])>
    ensures found { IfSome result
        (λ found. trees lists.now ≡ leaf found.0.now ∷ trees found.1.now) }
    ensures none { IfNone result
        ((bytes : List ℕ) (behind : List Tree) → trees lists.now ≡ leaf bytes ∷ behind → ⊥) }
{
    let Some((Sexp::Atom(bytes), behind)) = lists.split_first() else {
        return None;
    };
    Some((bytes.as_slice(), behind))
}

/// What is behind the atom of this name.
pub(crate) fn behind_name<'a>(name: &[u8], lists: &'a [Sexp]) -> Option<&'a [Sexp]>
    ensures found { IfSome result (λ behind. trees lists.now ≡ leaf name.now ∷ trees behind.now) }
    ensures none { IfNone result
        ((behind : List Tree) → trees lists.now ≡ leaf name.now ∷ behind → ⊥) }
{
    let (bytes, behind) = split_atom(lists)?;
    (bytes == name).then_some(behind)
}

/// The first of these, and what is behind it.
pub(crate) fn split_tree(lists: &[Sexp]) -> Option<(&Sexp, &[Sexp])>
    ensures found { IfSome result
        (λ found. trees lists.now ≡ tree_of found.0.now ∷ trees found.1.now) }
    ensures none { IfNone result
        ((first : Tree) (behind : List Tree) → trees lists.now ≡ first ∷ behind → ⊥) }
{
    lists.split_first()
}

/// The atom that these are.
pub(crate) fn only_atom(lists: &[Sexp]) -> Option<&[u8]>
    ensures found { IfSome result (λ bytes. trees lists.now ≡ leaf bytes.now ∷ []) }
    ensures none { IfNone result ((bytes : List ℕ) → trees lists.now ≡ leaf bytes ∷ [] → ⊥) }
{
    match lists {
        [Sexp::Atom(bytes)] => Some(bytes.as_slice()),
        _ => None,
    }
}

/// The bytes, where they are as many.
pub(crate) fn array_of<const N: usize>(bytes: &[u8]) -> Option<[u8; N]>
    ensures found { IfSome result (λ array. (bytes.now ≡ array) × (length array ≡ N)) }
    ensures none { IfNone result (length bytes.now ≡ N → ⊥) }
{
    match bytes.as_array() {
        Some(array) => Some(*array),
        None => None,
    }
}

/// Both of two.
pub(crate) fn both(mut items: Vec<Sexp>) -> Option<(Sexp, Sexp)>
    ensures found { IfSome result (λ two. trees items.items ≡ tree_of two.0 ∷ tree_of two.1 ∷ []) }
    ensures none { IfNone result
        ((first second : Tree) → trees items.items ≡ first ∷ second ∷ [] → ⊥) }
{
    let second = items.pop()?;
    let first = items.pop()?;
    if !items.is_empty() {
        return None;
    }
    Some((first, second))
}

/// The only one of these.
pub(crate) fn only(mut items: Vec<Sexp>) -> Option<Sexp>
    ensures found { IfSome result (λ tree. trees items.items ≡ tree_of tree ∷ []) }
    ensures none { IfNone result ((tree : Tree) → trees items.items ≡ tree ∷ [] → ⊥) }
{
    let tree = items.pop()?;
    if !items.is_empty() {
        return None;
    }
    Some(tree)
}

/// The expression at the front of the bytes, where one is read there, and how many bytes it has.
pub(crate) fn front_of(alloc: Global, bytes: &[u8]) -> Result<Option<(Sexp, usize)>, KeyFault>
    ensures found { IfOk result (λ read.
        IfSome read (λ r. (r.1 ≤ length bytes.now) × IsReadable (take r.1 bytes.now) r.0)) }
    ensures again { IfOk result
        (λ read. (tree : Sexp) (more : List ℕ) → IsReadable (spelling_of tree) tree
        → bytes.now ≡ spelling_of tree ++ more → read ≡ Some (tree, length (spelling_of tree))) }
    ensures fault { IfErr result (λ fault. fault ≡ KeyFault.NoMemory) }
{
    match read(alloc, bytes) {
        Ok(read) => Ok(Some(read)),
        Err(fault) => not_read(fault),
    }
}

fn not_read(fault: SexpFault) -> Result<Option<(Sexp, usize)>, KeyFault>
    ensures none { IfOk result (λ read. (read ≡ None) × (fault ≡ SexpFault.NoMemory → ⊥)) }
    ensures fault { IfErr result (λ fault. fault ≡ KeyFault.NoMemory) }
{
    match fault {
        SexpFault::NoMemory => Err(KeyFault::NoMemory),
        _ => Ok(None),
    }
}
