//! The forms of lines that both sides tell apart: blank ones, comments, and data (Assuan manual,
//! "server responses" and "client requests"). Pure, over slices. Begin with `is_ignored`; each
//! function is its namesake in `specs/Forms`.

ghost use Rattle.std.specs.{Prelude.{◌≡◌, true, false, drop, MatchOption}, List.list_all};
ghost use Rattle.assuan_text.specs.{Blanks.is_blank, Forms.{is_ignored, is_data, is_idle}};

use crate::blanks::{is_blank, without_blanks};

/// Whether the line is no request: behind its blanks and tabs it is empty, or a comment.
pub fn is_ignored(line: &[u8]) -> bool
    ensures { result ≡ is_ignored line.now }
{
    match without_blanks(line) {
        [] => true,
        [first, ..] => *first == b'#',
    }
}

/// Whether the line is a comment, or has nothing but blanks and tabs.
pub fn is_idle(line: &[u8]) -> bool
    ensures { result ≡ is_idle line.now }
{
    line.first() == Some(&b'#') || all_blank(line)
}

fn all_blank(line: &[u8]) -> bool
    ensures { result ≡ list_all is_blank line.now }
{
    line.iter().all(|byte| is_blank(*byte))
}

/// The escaped bytes of a data line. `None` for any other line.
pub fn escaped_part(line: &[u8]) -> Option<&[u8]>
    ensures { MatchOption result (is_data line.now ≡ false)
        (λ escaped. (is_data line.now ≡ true) × (escaped.now ≡ drop 2 line.now)) }
{
    match line {
        [b'D' | b'd'] => Some(b""),
        [b'D' | b'd', b' ', escaped @ ..] => Some(escaped),
        _ => None,
    }
}
