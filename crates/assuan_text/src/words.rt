//! The words of a line: a command in front, what comes behind it, and one word after another. Pure,
//! over slices. Begin with `command_and_rest`; `words` of `specs/Words` says what a line's words
//! are.

ghost use Rattle.std.specs.Prelude.{◌≡◌, ◌≤◌, ◌<◌, ◌+◌, [], ◌∷◌, length, MatchOption};
ghost use Rattle.std.specs.List.{position_or_len, before_first};
ghost use Rattle.assuan_text.specs.{Blanks.is_blank, Words.{command_of, rest_of, words}};

use crate::blanks::{is_blank, without_blanks};

/// The line's first word, and what comes after it and the blanks behind it.
pub fn command_and_rest(line: &[u8]) -> (&[u8], &[u8])
    ensures command { result.0.now ≡ command_of line.now }
    ensures rest { result.1.now ≡ rest_of line.now }
    ensures shorter { length result.1.now ≤ length line.now }
{
    let line = without_blanks(line);
    let (command, rest) = line.split_at(word_len(line));
    (command, without_blanks(rest))
}

/// The first word of a text, and what comes after it.
pub fn next_word(text: &[u8]) -> Option<(&[u8], &[u8])>
    ensures words { MatchOption result
        (words text.now ≡ []) (λ parts. words text.now ≡ parts.0.now ∷ words parts.1.now) }
    ensures shorter { MatchOption result (words text.now ≡ [])
        (λ parts. (length parts.0.now ≤ length text.now) × (length parts.1.now < length text.now)) }
{
    let text = without_blanks(text);
    if text.is_empty() {
        return None;
    }
    Some(text.split_at(word_len(text)))
}

/// The line up to its first blank or tab.
pub fn first_word(line: &[u8]) -> &[u8]
    ensures { result.now ≡ before_first is_blank line.now }
{
    line.split_at(word_len(line)).0
}

/// How many bytes stand before the first blank or tab.
fn word_len(text: &[u8]) -> usize
    ensures place { result ≡ position_or_len is_blank text.now }
    ensures within { result ≤ length text.now }
{
    text.iter().take_while(|byte| !is_blank(**byte)).count()
}
