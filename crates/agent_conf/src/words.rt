//! The words of the command line as settings. It takes memory for the list alone. Begin with
//! `settings_of`; `specs/Words` has the definitions.

ghost use Rattle.std.specs.Prelude.{◌≡◌, ◌≤◌, ◌+◌, ◌∷◌, [], IfNone, IfOk, IfSome, MatchOption, drop};
ghost use Rattle.std.specs.{Prelude.{false, length, map, string_bytes, true}, List.position_or_len};
ghost use Rattle.agent_conf.specs.Words.{alone, apart, is_equals, settings_of, wants_first};
ghost use Rattle.agent_conf.specs.Words.{wants_value};
ghost use Rattle.agent_conf.specs.Written.{written};

use crate::setting::{Place, Setting};
use crate::settled::after_dashes;
use crate::table::{row_of, takes_value};
use std::alloc::{AllocError, Global};

/// What the words of the command line set, in their order.
pub(crate) fn settings_of(alloc: Global, words: &[String]) -> Result<Vec<Setting<'_>>, AllocError>
    ensures { IfOk result (λ settings. map written settings.items
        ≡ settings_of 1 (map string_bytes words.entry.now)) }
{
    let mut settings = Vec::new(alloc);
    let mut rest = words;
    let mut number = 1;
    while let Some((setting, after, used)) = next_setting(number, rest) {
        settings.push(setting)?;
        number += used;
        rest = after;
    }
    Ok(settings)
}

/// What the first word sets, by the next one where that is its value, the words behind them, and
/// how many they are.
fn next_setting(number: usize, words: &[String]) -> Option<(Setting<'_>, &[String], usize)>
    ensures first { MatchOption result (map string_bytes words.entry.now ≡ [])
        (λ parts. settings_of number (map string_bytes words.entry.now)
        ≡ written parts.0 ∷ settings_of (number + parts.2) (map string_bytes parts.1.now)) }
    ensures shorter { IfSome result
        (λ parts. (length parts.1.now + parts.2 ≡ length words.entry.now) × (1 ≤ parts.2)) }
{
    let (word, rest) = words.split_first()?;
    let word = word.as_bytes();
    match value_behind(word, rest) {
        Some((value, others)) => Some((apart(number, word, value), others, 2)),
        None => Some((alone(number, word), rest, 1)),
    }
}

/// The next word, where it is the value of this one, and the words behind it.
fn value_behind<'a>(word: &[u8], rest: &'a [String]) -> Option<(&'a [u8], &'a [String])>
    ensures none { IfNone result (wants_first word.now (map string_bytes rest.entry.now) ≡ false) }
    ensures parts { IfSome result (λ parts. (wants_value word.now parts.0.now ≡ true)
        × (map string_bytes rest.entry.now ≡ parts.0.now ∷ map string_bytes parts.1.now)) }
    ensures shorter { IfSome result (λ parts. length parts.1.now + 1 ≡ length rest.entry.now) }
{
    let (next, others) = rest.split_first()?;
    let next = next.as_bytes();
    if wants_value(word, next) {
        Some((next, others))
    } else {
        None
    }
}

/// A word by itself: its value comes after the first `=`.
fn alone(number: usize, word: &[u8]) -> Setting<'_>
    ensures { written result ≡ alone number word.entry.now }
{
    let (name, value) = word.split_at(name_len(word));
    Setting {
        place: Place::Words,
        number,
        text: word,
        name,
        value: without_first(value),
    }
}

/// The bytes behind the first one.
fn without_first(bytes: &[u8]) -> &[u8]
    ensures { result.now ≡ drop 1 bytes.now }
{
    match bytes {
        [] => bytes,
        [_, rest @ ..] => rest,
    }
}

/// A word whose value is the next one.
fn apart<'a>(number: usize, word: &'a [u8], next: &'a [u8]) -> Setting<'a>
    ensures { written result ≡ apart number word.entry.now next.entry.now }
{
    Setting {
        place: Place::Words,
        number,
        text: word,
        name: word,
        value: next,
    }
}

/// Whether the next word is the value of this one.
fn wants_value(word: &[u8], next: &[u8]) -> bool
    ensures { result ≡ wants_value word.now next.now }
{
    if word.contains(&b'=') {
        return false;
    }
    match after_dashes(word).and_then(row_of) {
        Some(row) => takes_value(row, next),
        None => false,
    }
}

/// How many bytes stand before the first `=`.
fn name_len(word: &[u8]) -> usize
    ensures place { result ≡ position_or_len is_equals word.now }
    ensures within { result ≤ length word.now }
{
    word.iter().take_while(|byte| **byte != b'=').count()
}
