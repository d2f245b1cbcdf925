//! The length of a canonical form that isn't written. Pure, without memory, on a stack of one call
//! for each open list within the limit. Begin with `spelled_len`; `IsReadable` of `specs/Spelling`
//! has the limits.

ghost use Rattle.std.specs.{Prelude.{◌≡◌, ◌-◌, ◌≤◌, length, SomeIff}, List.flat_map};
ghost use Rattle.sexp_canonical.specs.{Tree.{leaf, row}, View.trees};
ghost use Rattle.sexp_canonical.specs.Spelling.{most_bytes, most_depth, spelling, spelling_of};
ghost use Rattle.sexp_canonical.specs.Spelling.{depths, IsReadable};

use crate::tree::Sexp;
use crate::{MAX_BYTES, MAX_DEPTH};
use itoa::Buffer;
use std::slice;

/// How many bytes the canonical form of an expression has, where it is within the limits of one
/// that is read. It isn't written for that, and no memory is taken.
pub fn spelled_len(tree: &Sexp) -> Option<usize>
    ensures { SomeIff result (IsReadable (spelling_of tree.now) tree.now)
        (length (spelling_of tree.now)) }
{
    items_len(slice::from_ref(tree))
}

/// How many bytes the canonical forms of these expressions have together, where all are within the
/// limits of one.
pub fn items_len(items: &[Sexp]) -> Option<usize>
    ensures { SomeIff result ((depths (row (trees items.now)) ≤ most_depth)
        × (length (flat_map spelling (trees items.now)) ≤ most_bytes))
        (length (flat_map spelling (trees items.now))) }
{
    let left = room_behind(items, MAX_DEPTH, MAX_BYTES)?;
    Some(MAX_BYTES - left)
}

/// How many bytes the canonical form of an atom of these bytes has.
pub fn atom_len(bytes: &[u8]) -> usize
    ensures { result ≡ length (spelling (leaf bytes.now)) }
{
    let mut buffer = Buffer::new();
    buffer.format(bytes.len()).len() + 1 + bytes.len()
}

// What is left of the room behind the canonical forms of these expressions, where they have room,
// and open so many lists at most. It calls itself once for each list that is open at one place.
fn room_behind(items: &[Sexp], levels: usize, room: usize) -> Option<usize>
    ensures { SomeIff result ((depths (row (trees items.now)) ≤ levels)
        × (length (flat_map spelling (trees items.now)) ≤ room)) (room
        - length (flat_map spelling (trees items.now))) }
{
    let mut left = room;
    let mut rest = items;
    while let Some((item, others)) = rest.split_first() {
        left = match item {
            Sexp::Atom(bytes) => left.checked_sub(atom_len(bytes.as_slice()))?,
            Sexp::List(inner) => {
                let deeper = levels.checked_sub(1)?;
                room_behind(inner.as_slice(), deeper, left.checked_sub(2)?)?
            }
        };
        rest = others;
    }
    Some(left)
}
