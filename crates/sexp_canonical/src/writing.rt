//! Writing the canonical form of an expression, of an atom or of several. It appends to its
//! caller's text, and takes memory for the lists that are begun, and no stack. Begin with `append`;
//! `spelling_of` of `specs/Spelling` is the text.

ghost use Rattle.std.specs.Prelude.{◌≡◌, ◌+◌, ◌*◌, ◌<◌, ◌≤◌, [], ◌∷◌, ◌++◌, IfOk, OnOk};
ghost use Rattle.std.specs.List.{flat_map};
ghost use Rattle.sexp_canonical.specs.{Tree.{leaf, list_of, node_count}, View.{tree_of, trees}};
ghost use Rattle.sexp_canonical.specs.Spelling.{right_paren, spelling, spelling_of};
ghost use Rattle.sexp_canonical.specs.Writing.{rest_of, steps_of, begun_lists};

use crate::bytes::Bytes;
use crate::tree::Sexp;
use itoa::Buffer;
use std::alloc::{AllocError, Global};

/// The canonical form of an expression of any depth and size. The depth takes memory, and no stack.
pub fn write(alloc: Global, tree: &Sexp) -> Result<Vec<u8>, AllocError>
    ensures { IfOk result (λ text. text.items ≡ spelling_of tree.now) }
{
    let mut text = Bytes::new(alloc);
    append(&mut text, tree)?;
    Ok(text.into_vec())
}

/// Appends the canonical form of an expression to a text. Where the memory isn't enough, a part of
/// it may stand there.
pub fn append(text: &mut Bytes, tree: &Sexp) -> Result<(), AllocError>
    ensures { OnOk result (text.new ≡ text.old ++ spelling_of tree.now) }
{
    // What is left of each list that is begun, the innermost last.
    let mut begun: Vec<&[Sexp]> = Vec::new(*text.0.allocator());
    begin(text, &mut begun, tree)?;
    while let Some(items) = begun.pop() {
        go_on(text, &mut begun, items)?;
    }
    Ok(())
}

/// Appends the canonical form of an atom of these bytes, or a part of it where the memory isn't
/// enough.
pub fn append_atom(text: &mut Bytes, bytes: &[u8]) -> Result<(), AllocError>
    ensures { OnOk result (text.new ≡ text.old ++ spelling (leaf bytes.now)) }
{
    let mut buffer = Buffer::new();
    text.extend_from_slice(buffer.format(bytes.len()).as_bytes())?;
    text.extend_from_slice(b":")?;
    text.extend_from_slice(bytes)?;
    Ok(())
}

/// Appends the canonical forms of these expressions, one after another, or a part of them where the
/// memory isn't enough.
pub fn append_all(text: &mut Bytes, items: &[Sexp]) -> Result<(), AllocError>
    ensures { OnOk result (text.new ≡ text.old ++ flat_map spelling (trees items.now)) }
{
    for tree in items {
        append(text, tree)?;
    }
    Ok(())
}

/// Appends the canonical form of the list of these expressions, or a part of it where the memory
/// isn't enough.
pub fn append_list(text: &mut Bytes, items: &[Sexp]) -> Result<(), AllocError>
    ensures { OnOk result (text.new ≡ text.old ++ spelling (list_of (trees items.now))) }
{
    text.extend_from_slice(b"(")?;
    append_all(text, items)?;
    text.extend_from_slice(b")")?;
    Ok(())
}

// Writes the next item of a list, or the end of the list where none is left.
fn go_on<'a>(
    text: &mut Bytes,
    begun: &mut Vec<&'a [Sexp]>,
    items: &'a [Sexp],
) -> Result<(), AllocError>
    ensures written { OnOk result
        (text.new ++ rest_of (begun_lists begun.new.items) ≡ text.old ++ (flat_map spelling
        (trees items.now) ++ right_paren ∷ rest_of (begun_lists begun.old.items))) }
    ensures steps { OnOk result (steps_of (begun_lists begun.new.items)
        ≤ steps_of (begun_lists begun.old.items) + 2 * node_count (trees items.now)) }
{
    let Some((item, others)) = items.split_first() else {
        text.extend_from_slice(b")")?;
        return Ok(());
    };
    begun.push(others)?;
    begin(text, begun, item)?;
    Ok(())
}

// Writes an atom, or the beginning of a list, whose items are then left to be written.
fn begin<'a>(
    text: &mut Bytes,
    begun: &mut Vec<&'a [Sexp]>,
    tree: &'a Sexp,
) -> Result<(), AllocError>
    ensures written { OnOk result (text.new ++ rest_of (begun_lists begun.new.items)
        ≡ text.old ++ (spelling_of tree.now ++ rest_of (begun_lists begun.old.items))) }
    ensures steps { OnOk result (steps_of (begun_lists begun.new.items)
        < steps_of (begun_lists begun.old.items) + 2 * node_count (tree_of tree.now ∷ [])) }
{
    match tree {
        Sexp::Atom(bytes) => {
            append_atom(text, bytes.as_slice())?;
            Ok(())
        }
        Sexp::List(items) => {
            text.extend_from_slice(b"(")?;
            begun.push(items.as_slice())?;
            Ok(())
        }
    }
}
