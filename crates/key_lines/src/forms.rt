//! What one line of a key file is: a comment, more of an item, or the beginning of one (GnuPG's
//! notes on the format of private keys, keyformat.txt). Pure, over slices. Begin with `line_form`,
//! and with its namesake in `specs/Items`.

ghost use Rattle.std.specs.Prelude.{◌≡◌, true, false, slice_index, MatchOption};
ghost use Rattle.std.specs.{Char.is_ascii_alphabetic, List.list_all};
ghost use Rattle.assuan_text.specs.Blanks.{is_blank};
ghost use Rattle.key_lines.specs.Items.{is_name_byte, is_name, begins_item, name_in, names_key};
ghost use Rattle.key_lines.specs.Items.{value_in, line_form, form_of_text, is_key, goes_on};

use crate::lines::{len_before, line_text};
use assuan_text::{is_blank, is_idle};

/// The longest name of an item, in bytes.
const MAX_NAME_LEN: usize = 60;

const KEY: &[u8] = b"Key";

/// What a line is.
#[derive(Clone, Copy, PartialEq, Eq)]
pub(crate) enum LineForm {
    /// A blank line, or one that begins with `#`.
    Comment,
    /// It goes on with the item of the line before it.
    GoesOn,
    /// It begins an item of another name than `Key`.
    Item,
    /// It begins an item of the name `Key`.
    Key,
    /// It is none of these.
    NoForm,
}

impl LineForm {
    pub(crate) fn is_key(self) -> bool
        ensures { result ≡ is_key self }
    {
        matches!(self, LineForm::Key)
    }

    pub(crate) fn goes_on(self) -> bool
        ensures { result ≡ goes_on self }
    {
        matches!(self, LineForm::GoesOn)
    }
}

/// What the line is, by its text.
pub(crate) fn line_form(line: &[u8]) -> LineForm
    ensures { result ≡ line_form line.now }
{
    form_of_text(line_text(line))
}

fn form_of_text(text: &[u8]) -> LineForm
    ensures { result ≡ form_of_text text.now }
{
    if is_idle(text) {
        return LineForm::Comment;
    }
    if begins_blank(text) {
        return LineForm::GoesOn;
    }
    match name_in(text) {
        Some(name) if name.eq_ignore_ascii_case(KEY) => LineForm::Key,
        Some(_) => LineForm::Item,
        None => LineForm::NoForm,
    }
}

fn begins_blank(text: &[u8]) -> bool
    ensures { result ≡ is_blank (slice_index text.now 0) }
{
    match text {
        [first, ..] => is_blank(*first),
        [] => false,
    }
}

// The name of the item that the text begins.
fn name_in(text: &[u8]) -> Option<&[u8]>
    ensures { MatchOption result (begins_item text.now ≡ false) (λ name.
        (begins_item text.now ≡ true) × (name.now ≡ name_in text.now)) }
{
    let (name, rest) = text.split_at(len_before(b':', text));
    if rest.is_empty() {
        return None;
    }
    if is_name(name) { Some(name) } else { None }
}

fn is_name(name: &[u8]) -> bool
    ensures { result ≡ is_name name.now }
{
    name.len() <= MAX_NAME_LEN && begins_with_letter(name) && all_name_bytes(name)
}

fn begins_with_letter(name: &[u8]) -> bool
    ensures { result ≡ is_ascii_alphabetic (slice_index name.now 0) }
{
    match name {
        [first, ..] => first.is_ascii_alphabetic(),
        [] => false,
    }
}

fn all_name_bytes(name: &[u8]) -> bool
    ensures { result ≡ list_all is_name_byte name.now }
{
    name.iter().all(|byte| is_name_byte(*byte))
}

fn is_name_byte(byte: u8) -> bool
    ensures { result ≡ is_name_byte byte }
{
    byte.is_ascii_alphanumeric() || byte == b'-'
}

/// The value behind the colon of a text that begins an item.
pub(crate) fn value_in(text: &[u8]) -> &[u8]
    ensures { result.now ≡ value_in text.now }
{
    let (_, rest) = text.split_at(len_before(b':', text));
    match rest {
        [_, value @ ..] => value,
        [] => rest,
    }
}
