//! Writing the advanced form, on one line. It takes memory for the text, which is handed out, and
//! for the lists that are begun, and calls itself nowhere. Begin with `write_advanced`;
//! `advanced_of` of `specs/Writing` is the text.

ghost use Rattle.std.specs.Prelude.{◌≡◌, ◌+◌, ◌-◌, ◌*◌, ◌<◌, ◌≤◌, [], ◌∷◌, ◌++◌, length, IfOk};
ghost use Rattle.std.specs.Prelude.{OnOk};
ghost use Rattle.sexp_canonical.specs.{Tree.{leaf, row}, View.{tree_of, trees}};
ghost use Rattle.sexp_canonical.specs.{Spelling.{most_depth, depth}, Writing.begun_lists};
ghost use Rattle.sexp_advanced.specs.Reading.{ReadsAdvanced};
ghost use Rattle.sexp_advanced.specs.Writing.{advanced, advanced_of, is_token, are_token_bytes};
ghost use Rattle.sexp_advanced.specs.Writing.{hex_pairs, hex_glyph};
ghost use Rattle.sexp_advanced.specs.Octets.{AreOctets, IsOfOctets, AreOfOctets};
ghost use Rattle.sexp_advanced.specs.Left.{next_tree, text_left, spaced_text, list_steps};
ghost use Rattle.sexp_advanced.specs.Left.{steps_left, AreLeftOfOctets};

use crate::bytes::{is_token_byte, is_token_start};
use sexp_canonical::{Bytes, Sexp};
use std::alloc::{AllocError, Global};

/// The advanced form of an expression of any depth and size, in one line: an atom that is a token
/// as it stands, any other in upper-case hexadecimal, one blank between two items. The depth takes
/// memory, and no stack.
pub fn write_advanced(alloc: Global, tree: &Sexp) -> Result<Vec<u8>, AllocError>
    ensures written { IfOk result (λ text. text.items ≡ advanced_of tree.now) }

    // What is written reads as the same expression, with the whole length, where no more lists are
    // open than reading takes.
    ensures again { IfOk result (λ text. depth (tree_of tree.now) ≤ most_depth
        → ReadsAdvanced text.items (Ok (tree.now, length text.items))) }

    // The atoms hold bytes, as the law `written_is_read` wants for more text behind it.
    ensures octets { IfOk result (λ text. IsOfOctets (tree_of tree.now)) }
{
    let mut text = Bytes::new(alloc);
    append_tree(&mut text, tree)?;
    Ok(text.into_vec())
}

fn append_tree(text: &mut Bytes, tree: &Sexp) -> Result<(), AllocError>
    ensures written { OnOk result (text.new ≡ text.old ++ advanced_of tree.now) }
    ensures octets { OnOk result (IsOfOctets (tree_of tree.now)) }
{
    // What is left of each list that is begun, the innermost last.
    let mut begun: Vec<&[Sexp]> = Vec::new(*text.0.allocator());
    let mut next = Some(tree);
    loop {
        next = match next {
            Some(item) => begin(text, &mut begun, item)?,
            None => {
                let Some(items) = begun.pop() else {
                    return Ok(());
                };
                go_on(text, &mut begun, items)?
            }
        };
    }
}

// Writes an atom, or the beginning of a list, and gives the item that comes next at once.
fn begin<'a>(
    text: &mut Bytes,
    begun: &mut Vec<&'a [Sexp]>,
    tree: &'a Sexp,
) -> Result<Option<&'a Sexp>, AllocError>
    ensures written { IfOk result
        (λ next. text.new ++ text_left (next_tree next) (begun_lists begun.new.items)
        ≡ text.old ++ text_left (Some (tree_of tree.now)) (begun_lists begun.old.items)) }
    ensures steps { IfOk result (λ next. steps_left (next_tree next) (begun_lists begun.new.items)
        < steps_left (Some (tree_of tree.now)) (begun_lists begun.old.items)) }
    ensures octets { IfOk result
        (λ next. AreLeftOfOctets (next_tree next) (begun_lists begun.new.items)
        → AreLeftOfOctets (Some (tree_of tree.now)) (begun_lists begun.old.items)) }
{
    match tree {
        Sexp::Atom(bytes) => {
            append_atom(text, bytes.as_slice())?;
            Ok(None)
        }
        Sexp::List(items) => {
            text.extend_from_slice(b"(")?;
            let Some((first, others)) = items.as_slice().split_first() else {
                text.extend_from_slice(b")")?;
                return Ok(None);
            };
            begun.push(others)?;
            Ok(Some(first))
        }
    }
}

// Writes the end of a list of which nothing is left, or the blank before its next item, and gives
// that item.
fn go_on<'a>(
    text: &mut Bytes,
    begun: &mut Vec<&'a [Sexp]>,
    items: &'a [Sexp],
) -> Result<Option<&'a Sexp>, AllocError>
    ensures written { IfOk result
        (λ next. text.new ++ text_left (next_tree next) (begun_lists begun.new.items) ≡ text.old
        ++ (spaced_text (trees items.now) ++ text_left None (begun_lists begun.old.items))) }
    ensures steps { IfOk result (λ next. steps_left (next_tree next) (begun_lists begun.new.items)
        < list_steps (trees items.now) + steps_left None (begun_lists begun.old.items)) }
    ensures octets { IfOk result (λ next. AreLeftOfOctets (next_tree next)
        (begun_lists begun.new.items) → AreOfOctets (row (trees items.now))
        × AreLeftOfOctets None (begun_lists begun.old.items)) }
{
    let Some((first, others)) = items.split_first() else {
        text.extend_from_slice(b")")?;
        return Ok(None);
    };
    text.extend_from_slice(b" ")?;
    begun.push(others)?;
    Ok(Some(first))
}

fn append_atom(text: &mut Bytes, bytes: &[u8]) -> Result<(), AllocError>
    ensures written { OnOk result (text.new ≡ text.old ++ advanced (leaf bytes.now)) }
    ensures octets { AreOctets bytes.now }
{
    if is_token(bytes) {
        text.extend_from_slice(bytes)?;
    } else {
        append_hex(text, bytes)?;
    }
    Ok(())
}

fn append_hex(text: &mut Bytes, bytes: &[u8]) -> Result<(), AllocError>
    ensures { OnOk result (text.new ≡ text.old ++ (35 ∷ hex_pairs bytes.now ++ 35 ∷ [])) }
{
    text.extend_from_slice(b"#")?;
    append_pairs(text, bytes)?;
    text.extend_from_slice(b"#")?;
    Ok(())
}

fn append_pairs(text: &mut Bytes, bytes: &[u8]) -> Result<(), AllocError>
    ensures { OnOk result (text.new ≡ text.old ++ hex_pairs bytes.now) }
{
    let mut rest = bytes;
    while let Some((byte, others)) = rest.split_first() {
        text.extend_from_slice(&[hex_glyph(*byte / 16), hex_glyph(*byte % 16)])?;
        rest = others;
    }
    Ok(())
}

fn hex_glyph(value: u8) -> u8
    requires { value < 16 }
    ensures { result ≡ hex_glyph value }
{
    if value < 10 {
        b'0' + value
    } else {
        b'A' + (value - 10)
    }
}

// Whether an atom of these bytes is written as a token.
fn is_token(bytes: &[u8]) -> bool
    ensures { result ≡ is_token bytes.now }
{
    match bytes.split_first() {
        Some((first, others)) => is_token_start(*first) && are_token_bytes(others),
        None => false,
    }
}

fn are_token_bytes(bytes: &[u8]) -> bool
    ensures { result ≡ are_token_bytes bytes.now }
{
    let mut rest = bytes;
    while let Some((byte, others)) = rest.split_first() {
        if !is_token_byte(*byte) {
            return false;
        }
        rest = others;
    }
    true
}
