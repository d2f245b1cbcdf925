//! The options of a command: words that begin with two dashes, in front of its arguments. Pure,
//! over slices. Begin with `arguments` and `last_value`; each function is its namesake over the
//! text's words in `specs/Options`.

ghost use Rattle.std.specs.Prelude.{◌≡◌, ◌≤◌, ◌<◌, ◌+◌, ◌∷◌, true, false, length, drop};
ghost use Rattle.std.specs.{Prelude.MatchOption, List.prefix_len, Option.option_map};
ghost use Rattle.assuan_text.specs.Options.{is_option, options_of, arguments_of, has_option};
ghost use Rattle.assuan_text.specs.Options.{gives_value, names_option, last_option, last_value};
ghost use Rattle.assuan_text.specs.Words.{words};

use crate::words::next_word;

const MARK: &[u8] = b"--";

/// Whether the option is among those of the text.
pub fn has_option(text: &[u8], name: &[u8]) -> bool
    ensures { result ≡ has_option name.now (options_of (words text.now)) }
{
    let mut rest = text;
    while let Some((option, after)) = next_option(rest) {
        if name == option {
            return true;
        }
        rest = after;
    }
    false
}

/// The last option of this name in the text, with a value or without.
pub fn last_option<'a>(text: &'a [u8], name: &[u8]) -> Option<&'a [u8]>
    ensures { option_map (λ option. option.now) result ≡ last_option name.now
        (options_of (words text.now)) }
{
    let mut rest = text;
    let mut latest = None;
    while let Some((option, after)) = next_option(rest) {
        if names_option(name, option) {
            latest = Some(option);
        }
        rest = after;
    }
    latest
}

/// Whether this is the option of that name, with a value or without.
fn names_option(name: &[u8], option: &[u8]) -> bool
    ensures { result ≡ names_option name.now option.now }
{
    match option.strip_prefix(name) {
        Some(value) => value.is_empty() || value.starts_with(b"="),
        None => false,
    }
}

/// What the last option of this name with a value says. The name alone is another option.
pub fn last_value<'a>(text: &'a [u8], name: &[u8]) -> Option<&'a [u8]>
    ensures { option_map (λ value. value.now) result ≡ last_value name.now
        (options_of (words text.now)) }
{
    let mut rest = text;
    let mut latest = None;
    while let Some((option, after)) = next_option(rest) {
        if let Some(value) = value_in(name, option) {
            latest = Some(value);
        }
        rest = after;
    }
    latest
}

/// What the option says, if it is the one of that name with a value.
fn value_in<'a>(name: &[u8], option: &'a [u8]) -> Option<&'a [u8]>
    ensures { MatchOption result
        (gives_value name.now option.now ≡ false) (λ value. (gives_value name.now option.now ≡ true)
        × (value.now ≡ drop (length name.now + 1) option.now)) }
{
    option.strip_prefix(name)?.strip_prefix(b"=")
}

/// What comes after the options of the text.
pub fn arguments(text: &[u8]) -> &[u8]
    ensures arguments { words result.now ≡ arguments_of (words text.now) }
    ensures shorter { length result.now ≤ length text.now }
{
    let rest = after_options(text);
    match next_word(rest) {
        Some((word, after)) if word == MARK => after,
        _ => rest,
    }
}

fn after_options(text: &[u8]) -> &[u8]
    ensures words { words result.now ≡ drop (prefix_len is_option (words text.now))
        (words text.now) }
    ensures shorter { length result.now ≤ length text.now }
{
    let mut rest = text;
    while let Some((_, after)) = next_option(rest) {
        rest = after;
    }
    rest
}

/// The first word of the text, if it is an option, and what comes after it.
fn next_option(text: &[u8]) -> Option<(&[u8], &[u8])>
    ensures words { MatchOption result (prefix_len is_option (words text.now) ≡ 0) (λ parts.
        (words text.now ≡ parts.0.now ∷ words parts.1.now) × (is_option parts.0.now ≡ true)) }
    ensures shorter { MatchOption result (prefix_len is_option (words text.now) ≡ 0)
        (λ parts. length parts.1.now < length text.now) }
{
    let (word, after) = next_word(text)?;
    if is_option(word) {
        Some((word, after))
    } else {
        None
    }
}

fn is_option(word: &[u8]) -> bool
    ensures { result ≡ is_option word.now }
{
    word.starts_with(MARK) && word != MARK
}
