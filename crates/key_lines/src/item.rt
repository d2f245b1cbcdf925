//! The `Key` item within a file: where its first line stands, its value over all its lines, and
//! what comes behind. Only the value is copied, into bytes that are overwritten. Begin with
//! `cut_at_key`; definitions begin in `specs/KeyItem`.

ghost use Rattle.std.specs.Prelude.{◌≡◌, ◌≤◌, true, false, length, IfOk, MatchOption};
ghost use Rattle.std.specs.List.{concat, suffix_len};
ghost use Rattle.assuan_text.specs.Blanks.{is_blank};
ghost use Rattle.key_lines.specs.Lines.{lines_of};
ghost use Rattle.key_lines.specs.KeyItem.{has_key, before_key, from_key, value_of, after_item};
ghost use Rattle.key_lines.specs.KeyItem.{piece_of, without_first_blank, without_last_blanks};

use crate::forms::{line_form, value_in};
use crate::lines::{line_text, next_line};
use assuan_text::is_blank;
use sexp_canonical::Bytes;
use std::alloc::{AllocError, Global};

/// The file cut before the first line of its `Key` item.
pub(crate) fn cut_at_key(file: &[u8]) -> Option<(&[u8], &[u8])>
    ensures { MatchOption result (has_key file.now ≡ false) (λ parts. (has_key file.now ≡ true)
        × (parts.0.now ≡ before_key file.now) × (lines_of parts.1.now ≡ from_key file.now)) }
{
    let mut rest = file;
    while let Some((line, after)) = next_line(rest) {
        if line_form(line).is_key() {
            return Some((&file[..file.len() - rest.len()], rest));
        }
        rest = after;
    }
    None
}

/// The value of the item at the front of the bytes, and what comes after its lines.
pub(crate) fn item_at(alloc: Global, bytes: &[u8]) -> Result<(Bytes, &[u8]), AllocError>
    ensures value { IfOk result (λ parts. parts.0 ≡ value_of (lines_of bytes.now)) }
    ensures after { IfOk result (λ parts. parts.1.now ≡ concat (after_item (lines_of bytes.now))) }
{
    let mut value = Bytes::new(alloc);
    let Some((line, after)) = next_line(bytes) else {
        return Ok((value, bytes));
    };
    value.extend_from_slice(piece_of(value_in(line_text(line))))?;
    let mut rest = after;
    while let Some((line, after)) = next_line(rest) {
        if !line_form(line).goes_on() {
            return Ok((value, rest));
        }
        value.extend_from_slice(piece_of(line_text(line)))?;
        rest = after;
    }
    Ok((value, rest))
}

/// What the text has of a value: GnuPG's writer puts one blank before each piece, also where it
/// cuts a word, and its reader takes no blank before a line's end for a part of it.
fn piece_of(text: &[u8]) -> &[u8]
    ensures { result.now ≡ piece_of text.now }
{
    without_last_blanks(without_first_blank(text))
}

fn without_first_blank(text: &[u8]) -> &[u8]
    ensures { result.now ≡ without_first_blank text.now }
{
    match text {
        [first, rest @ ..] if is_blank(*first) => rest,
        _ => text,
    }
}

fn without_last_blanks(text: &[u8]) -> &[u8]
    ensures { result.now ≡ without_last_blanks text.now }
{
    &text[..text.len() - last_blanks_len(text)]
}

// How many blanks and tabs stand at the end.
fn last_blanks_len(text: &[u8]) -> usize
    ensures value { result ≡ suffix_len is_blank text.now }
    ensures within { result ≤ length text.now }
{
    text.iter()
        .rev()
        .take_while(|byte| is_blank(**byte))
        .count()
}
