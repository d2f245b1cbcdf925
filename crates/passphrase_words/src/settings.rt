//! The options that a command line begins with, each with its value, which is the next word or
//! stands behind a `=`, and where they end. Pure. Begin with `next_setting` and `check_each`;
//! definitions are in `specs/Parts` and `specs/Spelling`.

ghost use Rattle.std.specs.Prelude.{◌≡◌, ◌∷◌, [], ◌<◌, ◌↔◌, true, false, length, map, None};
ghost use Rattle.std.specs.Prelude.{string_bytes, MatchOption, MatchResult, IsOk, Some};
ghost use Rattle.std.specs.{List.{before_first, after_first, position_or_len}, Option.option_map};
ghost use Rattle.passphrase_words.specs.Faults.{fault_text, wish};
ghost use Rattle.passphrase_words.specs.Parts.{setting_value, settings, rest_of, by_itself};
ghost use Rattle.passphrase_words.specs.{Parts.is_equals, Refusals.{setting_fault, settings_fault}};
ghost use Rattle.passphrase_words.specs.Rules.{fits, are_sound, seconds_given};
ghost use Rattle.passphrase_words.specs.Spelling.{is_set, value_given, takes};

use crate::WordsFault;
use crate::options::{Form, form_of, is_of_form, seconds_of, takes};

/// An option as the words give it.
#[derive(Clone, Copy)]
pub(crate) struct Setting<'a> {
    /// With its dashes.
    pub(crate) name: &'a str,
    /// Where it takes one.
    pub(crate) value: Option<&'a str>,
}

/// The option that the words begin with, and the words behind it and its value.
fn next_setting(words: &[String]) -> Option<(Setting<'_>, &[String])>
    ensures parts { let these = map string_bytes words.entry.now in MatchOption result
        ((settings these ≡ []) × (rest_of these ≡ these))
        (λ parts. (settings these ≡ setting_value parts.0 ∷ settings (map string_bytes parts.1.now))
        × (rest_of these ≡ rest_of (map string_bytes parts.1.now))) }
    ensures shorter { MatchOption result (settings (map string_bytes words.entry.now) ≡ [])
        (λ parts. length parts.1.now < length words.entry.now) }
{
    let (word, rest) = words.split_first()?;
    match takes(word) {
        Some(false) => Some((
            Setting {
                name: word,
                value: None,
            },
            rest,
        )),
        Some(true) => {
            let (value, rest) = rest.split_first()?;
            Some((
                Setting {
                    name: word,
                    value: Some(value),
                },
                rest,
            ))
        }
        None => Some((joined(word)?, rest)),
    }
}

/// The option that a word gives a value behind its first `=`.
fn joined(word: &str) -> Option<Setting<'_>>
    requires { takes word.now ≡ None }
    ensures { option_map setting_value result ≡ by_itself word.entry.now None (takes
        (before_first is_equals word.entry.now)) }
{
    let Some((name, value)) = split_at_equals(word) else {
        return None;
    };
    match takes(name) {
        Some(true) => Some(Setting {
            name,
            value: Some(value),
        }),
        _ => None,
    }
}

/// What is before the first `=`, and what is behind it.
fn split_at_equals(word: &str) -> Option<(&str, &str)>
    ensures { MatchOption result (position_or_len is_equals word.entry.now ≡ length word.entry.now)
        (λ parts. (position_or_len is_equals word.entry.now < length word.entry.now)
        × (parts.0.now ≡ before_first is_equals word.entry.now)
        × (parts.1.now ≡ after_first is_equals word.entry.now)) }
{
    word.split_once('=')
}

/// The words behind the options.
pub(crate) fn rest_of(words: &[String]) -> &[String]
    ensures rest { map string_bytes result.now ≡ rest_of (map string_bytes words.entry.now) }
    ensures all { settings (map string_bytes result.now) ≡ [] }
{
    let mut rest = words;
    while let Some((_, after)) = next_setting(rest) {
        rest = after;
    }
    rest
}

/// Whether the option is given.
pub(crate) fn is_set(words: &[String], name: &str) -> bool
    ensures { result ≡ is_set name.now (settings (map string_bytes words.now)) }
{
    let mut rest = words;
    while let Some((setting, after)) = next_setting(rest) {
        if setting.name == name {
            return true;
        }
        rest = after;
    }
    false
}

/// The value that the option is given.
pub(crate) fn value_given<'a>(words: &'a [String], name: &str) -> Option<&'a str>
    ensures { option_map (λ value. value.now) result
        ≡ value_given name.now (settings (map string_bytes words.entry.now)) }
{
    let mut rest = words;
    while let Some((setting, after)) = next_setting(rest) {
        if setting.name == name {
            return setting.value;
        }
        rest = after;
    }
    None
}

/// The seconds that the option is given.
pub(crate) fn seconds_given(words: &[String], name: &str) -> Option<u32>
    ensures { result ≡ seconds_given name.now (settings (map string_bytes words.now)) }
{
    seconds_of(value_given(words, name)?)
}

/// Each option has a value of its form, and none is given twice.
pub(crate) fn check_each(words: &[String]) -> Result<(), WordsFault<'_>>
    ensures sound { IsOk result ↔ (are_sound (settings (map string_bytes words.entry.now)) ≡ true) }
    ensures told { MatchResult result
        (λ _. settings_fault (settings (map string_bytes words.entry.now)) ≡ None)
        (λ fault. settings_fault (settings (map string_bytes words.entry.now))
        ≡ Some (fault_text fault)) }
{
    let mut rest = words;
    while let Some((setting, after)) = next_setting(rest) {
        if let Err(fault) = check_one(setting, after) {
            return Err(fault);
        }
        rest = after;
    }
    Ok(())
}

/// The option has a value of its form, and isn't among these words.
fn check_one<'a>(setting: Setting<'a>, after: &'a [String]) -> Result<(), WordsFault<'a>>
    ensures sound { IsOk result ↔ ((fits (setting_value setting.entry) ≡ true)
        × (is_set setting.entry.name.now (settings (map string_bytes after.entry.now)) ≡ false)) }
    ensures told { let fault_is = setting_fault (setting_value setting.entry)
        (settings (map string_bytes after.entry.now)) in MatchResult result
        (λ _. fault_is ≡ None) (λ fault. fault_is ≡ Some (fault_text fault)) }
{
    if !fits(&setting) {
        return Err(WordsFault::Wants(setting.name, wish(setting.name)));
    }
    if is_set(after, setting.name) {
        return Err(WordsFault::Twice(setting.name));
    }
    Ok(())
}

fn fits(setting: &Setting<'_>) -> bool
    ensures { result ≡ fits (setting_value setting.now) }
{
    match form_of(setting.name) {
        Some(form) => is_of_form(form, setting.value),
        None => false,
    }
}

/// What the option wants, for a user.
pub(crate) fn wish(name: &str) -> &'static str
    ensures { result.now ≡ wish name.now }
{
    match form_of(name) {
        Some(Form::Seconds) => "a number of seconds, 1 to 2147483647",
        _ if name == "--homedir" => "a folder",
        _ => "a text",
    }
}
