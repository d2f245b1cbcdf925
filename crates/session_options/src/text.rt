//! The text of an OPTION line, as a name and a value, and which values can be kept as words. Pure,
//! over slices and without memory. Begin with `name_and_value`; definitions begin in `specs/Text`.

ghost use Rattle.std.specs.Prelude.{◌≡◌, ◌≤◌, ◌↔◌, true, false, length, IsSome, IfSome};
ghost use Rattle.std.specs.List.{position_or_len};
ghost use Rattle.assuan_text.specs.Blanks.{without_blanks};
ghost use Rattle.session_options.specs.Text.{ends_name, without, name_of, option_value, ends_line};
ghost use Rattle.session_options.specs.Text.{has_line_end, can_be_kept};

use crate::Word;
use arrayvec::ArrayVec;
use assuan_text::{is_blank, without_blanks};

/// The same bytes once more, without taking memory.
pub fn copied<const N: usize>(bytes: &ArrayVec<u8, N>) -> ArrayVec<u8, N>
    ensures { result ≡ bytes.now }
{
    let mut copy = ArrayVec::new();
    copy.try_extend_from_slice(bytes).unwrap();
    copy
}

/// The name of an option, up to the first blank, tab or `=`, and its value, as OPTION gives them;
/// two dashes may stand before both.
pub fn name_and_value(text: &[u8]) -> (&[u8], &[u8])
    ensures name { result.0.now ≡ name_of text.now }
    ensures value { result.1.now ≡ option_value text.now }
{
    let text = without(b"--", text);
    let (name, rest) = text.split_at(name_len(text));
    let value = without(b"=", without_blanks(rest));
    (name, without_blanks(value))
}

/// How many bytes stand before the first blank, tab or `=`.
fn name_len(text: &[u8]) -> usize
    ensures place { result ≡ position_or_len ends_name text.now }
    ensures within { result ≤ length text.now }
{
    text.iter().take_while(|byte| !ends_name(**byte)).count()
}

fn ends_name(byte: u8) -> bool
    ensures { result ≡ ends_name byte }
{
    is_blank(byte) || byte == b'='
}

/// The bytes after the mark, where they begin with it.
fn without<'a>(mark: &[u8], bytes: &'a [u8]) -> &'a [u8]
    ensures { result.now ≡ without mark.now bytes.now }
{
    bytes.strip_prefix(mark).unwrap_or(bytes)
}

/// The value as a word, if it can be kept: it isn't too long, and has no end of a line.
pub(crate) fn word_of(value: &[u8]) -> Option<Word>
    ensures some { IsSome result ↔ (can_be_kept value.now ≡ true) }
    ensures word { IfSome result
        (λ word. (word.items ≡ value.now) × (has_line_end word.items ≡ false)) }
{
    if has_line_end(value) {
        return None;
    }
    let mut word = Word::new();
    word.try_extend_from_slice(value).ok()?;
    Some(word)
}

fn has_line_end(bytes: &[u8]) -> bool
    ensures { result ≡ has_line_end bytes.now }
{
    bytes.iter().any(|byte| ends_line(*byte))
}

fn ends_line(byte: u8) -> bool
    ensures { result ≡ ends_line byte }
{
    matches!(byte, b'\r' | b'\n')
}
