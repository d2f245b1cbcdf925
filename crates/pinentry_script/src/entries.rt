//! The lines of a script: which ones there are, the process number, and the answers in their order.
//! Pure, over slices of the file. Begin with `next_answer`; `entries_of` and `answers_in` of
//! `specs/Entries` say what a file holds.

ghost use Rattle.std.specs.Prelude.{◌≡◌, ◌<◌, ◌∷◌, [], true, false, length, MatchOption, IfSome};
ghost use Rattle.std.specs.{Prelude.{map, drop}, Option.{option_map, is_some}};
ghost use Rattle.std.specs.{List.{position, list_all, before_first}, Char.is_ascii_digit};
ghost use Rattle.assuan_line.specs.Lines.{after_line, pieces_of};
ghost use Rattle.assuan_text.specs.LineEnds.{is_lf, has_lf};
ghost use Rattle.pinentry_script.specs.Entries.{text_behind, behind_blank, is_number, phrases};
ghost use Rattle.pinentry_script.specs.Entries.{entry_in, entry_of, entry_seen, is_script};
ghost use Rattle.pinentry_script.specs.Entries.{entries_of, pid_of, answers_in};
ghost use Rattle.pinentry_script.specs.{Writing.IsShortText, Parsing.IsShortEntry};

use crate::response::Phrase;
use assuan_text::found;

/// The longest line of a script, without its end.
pub const MAX_ENTRY_LEN: usize = 900;

/// The lines of a script that are a word alone.
const PHRASES: [(&[u8], Phrase); 4] = [
    (b"cancel", Phrase::Cancelled),
    (b"timeout", Phrase::TimedOut),
    (b"yes", Phrase::Done),
    (b"no", Phrase::NotConfirmed),
];

/// What a line of a script stands for.
#[derive(Clone, Copy)]
pub(crate) enum Entry<'a> {
    /// The digits of the process number.
    Pid(&'a [u8]),
    /// Ask for the quality of this text first.
    Quality(&'a [u8]),
    /// The passphrase, escaped as it goes over the wire.
    Pin(&'a [u8]),
    Phrase(Phrase),
}

/// Whether each line of the file stands for something, and nothing is behind the last line feed.
#[tactic(auto, using(crate::proofs::Files::script_line, crate::proofs::Files::script_end))]
pub(crate) fn is_script(file: &[u8]) -> bool
    ensures { result ≡ is_script file.now }
{
    let mut rest = file;
    while let Some((line, later)) = next_line(rest) {
        if entry_of(line).is_none() {
            return false;
        }
        rest = later;
    }
    rest.is_empty()
}

/// The digits of the process number: those of the first line that has one, or 0.
#[tactic(auto, using(crate::proofs::Files::entries_line, crate::proofs::Files::entries_end))]
pub(crate) fn pid_of(file: &[u8]) -> &[u8]
    ensures digits { result.now ≡ pid_of (entries_of (pieces_of file.now)) }
    ensures short { IsShortText result.now }
{
    let mut rest = file;
    while let Some((line, later)) = next_line(rest) {
        if let Some(Entry::Pid(digits)) = entry_of(line) {
            return digits;
        }
        rest = later;
    }
    b"0"
}

/// The next answer, and the part of the file behind it.
#[tactic(auto, using(crate::proofs::Files::entries_line, crate::proofs::Files::entries_end))]
pub(crate) fn next_answer(file: &[u8]) -> Option<(Entry<'_>, &[u8])>
    ensures next { MatchOption result (answers_in file.now ≡ []) (λ next.
        (answers_in file.now ≡ entry_seen next.0 ∷ answers_in next.1.now) × IsShortEntry next.0) }
    ensures shorter { IfSome result (λ next. length next.1.now < length file.now) }
{
    let mut rest = file;
    while let Some((line, later)) = next_line(rest) {
        rest = later;
        match entry_of(line) {
            Some(Entry::Pid(_)) | None => {}
            Some(answer) => return Some((answer, rest)),
        }
    }
    None
}

/// The file's first line, and what is behind it. `None` where it has no line feed.
#[tactic(auto, using(crate::proofs::Files::no_line_feed, crate::proofs::Files::split_there))]
fn next_line(file: &[u8]) -> Option<(&[u8], &[u8])>
    ensures line { MatchOption result (has_lf file.now ≡ false) (λ parts. (has_lf file.now ≡ true)
        × (parts.0.now ≡ before_first is_lf file.now) × (parts.1.now ≡ after_line file.now)) }
    ensures whole { IfSome result (λ parts. has_lf parts.0.now ≡ false) }
    ensures shorter { IfSome result (λ parts. length parts.1.now < length file.now) }
{
    let end = line_feed(file)?;
    Some((&file[..end], &file[end + 1..]))
}

fn line_feed(bytes: &[u8]) -> Option<usize>
    ensures { result ≡ position is_lf bytes.now }
{
    bytes.iter().position(|byte| *byte == b'\n')
}

/// What a line of a script stands for. `None` where it is no line of one.
fn entry_of(line: &[u8]) -> Option<Entry<'_>>
    requires { has_lf line.now ≡ false }
    ensures entry { option_map entry_seen result ≡ entry_of line.now }
    ensures short { IfSome result IsShortEntry }
{
    if line.len() > MAX_ENTRY_LEN {
        return None;
    }
    entry_in(line)
}

fn entry_in(line: &[u8]) -> Option<Entry<'_>>
    requires { IsShortText line.now }
    ensures entry { option_map entry_seen result ≡ entry_in line.now }
    ensures short { IfSome result IsShortEntry }
{
    if let Some(digits) = text_behind(b"pid", line) {
        return if is_number(digits) {
            Some(Entry::Pid(digits))
        } else {
            None
        };
    }
    if let Some(text) = text_behind(b"quality", line) {
        return Some(Entry::Quality(text));
    }
    if let Some(text) = text_behind(b"pin", line) {
        return Some(Entry::Pin(text));
    }
    match found(line, &PHRASES) {
        Some(phrase) => Some(Entry::Phrase(phrase)),
        None => None,
    }
}

/// The text behind a word at the front of the line and one blank.
#[tactic(auto, using(crate::proofs::Files::drop_short))]
fn text_behind<'a>(word: &[u8], line: &'a [u8]) -> Option<&'a [u8]>
    requires { IsShortText line.now }
    ensures text { option_map (λ text. text.now) result ≡ text_behind word.now line.now }
    ensures short { IfSome result (λ text. IsShortText text.now) }
{
    match line.strip_prefix(word)? {
        [b' ', text @ ..] => Some(text),
        _ => None,
    }
}

/// Whether these are the digits of a number without zeros in front.
fn is_number(digits: &[u8]) -> bool
    ensures { result ≡ is_number digits.now }
{
    match digits {
        [] => false,
        [b'0', _, ..] => false,
        digits => all_digits(digits),
    }
}

fn all_digits(bytes: &[u8]) -> bool
    ensures { result ≡ list_all is_ascii_digit bytes.now }
{
    bytes.iter().all(|byte| byte.is_ascii_digit())
}
