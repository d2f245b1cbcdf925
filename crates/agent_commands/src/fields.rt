//! The fields of the commands on the cache (GnuPG manual, "Agent's Assuan protocol"): cache ids,
//! lifetimes in seconds, modes, passphrases in hexadecimal digits, `--repeat`, and the texts of a
//! prompt. Pure; a passphrase that was spelled is overwritten but for the `Secret` that it becomes.
//! Begin with `specs/Fields`, which defines what each is read as.

ghost use Rattle.std.specs.Prelude.{◌≡◌, ◌≤◌, ◌++◌, length, codes, [], true, MatchOption, Some};
ghost use Rattle.std.specs.Option.{option_and_then, option_map};
ghost use Rattle.{hex.specs.Hex.decode_of, assuan_text.specs.Words.words};
ghost use Rattle.assuan_text.specs.Options.{options_of, last_option, last_value};
ghost use Rattle.assuan_text.specs.declared.TheConstants.{MAX_LINE_LEN};
ghost use Rattle.agent_commands.specs.Fields.{cache_id, is_cache_id, unless_placeholder, text_or};
ghost use Rattle.agent_commands.specs.Fields.{texts, repeats, life, life_of_seconds, cleared_mode};
ghost use Rattle.agent_commands.specs.Fields.{passphrase, given_passphrase};

use crate::Texts;
use assuan_escape::unescape;
use assuan_text::{Text, last_option, last_value, next_word, number_of};
use cache_policy::{CacheId, Life, MAX_ID_LEN, MAX_SECONDS, MAX_SECRET_LEN, Mode, Secret};
use std::marker::Model;
use wiping::wipe;

/// The word that stands for none.
const PLACEHOLDER: &[u8] = b"X";

/// How often a new passphrase can be asked for again at most.
pub const MAX_REPEAT: u64 = 16;

const REPEAT: &[u8] = b"--repeat";

const ENDLESS: &[u8] = b"-1";

const MODE: &[u8] = b"--mode";

const NORMAL: &[u8] = b"normal";

const SSH: &[u8] = b"ssh";

pub(crate) fn cache_id(word: &[u8]) -> Option<CacheId>
    ensures { result ≡ cache_id word.now }
{
    CacheId::of(word)
}

/// Whether the word can be a cache id.
pub(crate) fn is_cache_id(word: &[u8]) -> bool
    ensures { result ≡ is_cache_id word.now }
{
    1 <= word.len() && word.len() <= MAX_ID_LEN
}

/// The id, where it isn't the one that stands for none.
pub(crate) fn unless_placeholder(id: &[u8]) -> Option<CacheId>
    requires { is_cache_id id.now ≡ true }
    ensures { result ≡ unless_placeholder id.now }
{
    if id == PLACEHOLDER {
        None
    } else {
        CacheId::of(id)
    }
}

/// The words for what a prompt says. Contracts see the texts that they mean.
#[derive(Drop)]
pub(crate) struct TextWords<'a> {
    error: &'a [u8],
    prompt: &'a [u8],
    description: &'a [u8],
}

impl<'a> Model for TextWords<'a> {
    ghost use Rattle.std.specs.Prelude.{◌≤◌, length};
    ghost use Rattle.assuan_text.specs.declared.TheConstants.{MAX_LINE_LEN};
    ghost use Rattle.agent_commands.specs.{Fields.texts_by, declared.request.Texts.Texts};

    ghost Value = { Texts };

    ghost view = { λ words. texts_by words.error.now words.prompt.now words.description.now };

    ghost invariant = { λ words. (length words.error.now ≤ MAX_LINE_LEN)
        × (length words.prompt.now ≤ MAX_LINE_LEN)
        × (length words.description.now ≤ MAX_LINE_LEN) };
}

impl<'a> TextWords<'a> {
    /// The first words of the text: `Some(None)` where there is no word, and `None` where there are
    /// one or two.
    pub(crate) fn of(text: &'a [u8]) -> Option<Option<TextWords<'a>>>
        requires { length text.now ≤ MAX_LINE_LEN }
        ensures { result ≡ texts (words text.now) }
    {
        let Some((error, rest)) = next_word(text) else {
            return Some(None);
        };
        let (prompt, rest) = next_word(rest)?;
        let (description, _) = next_word(rest)?;
        Some(Some(TextWords {
            error,
            prompt,
            description,
        }))
    }

    /// What they mean.
    pub(crate) fn texts(&self) -> Texts
        ensures { result ≡ self.now }
    {
        Texts {
            error: text_or(b"", self.error),
            prompt: text_or(b"Passphrase:", self.prompt),
            description: text_or(b"Please enter the passphrase", self.description),
        }
    }
}

/// The text that a word means, or the usual one where it stands for none.
pub(crate) fn text_or(usual: &[u8], word: &[u8]) -> Text
    requires usual { length usual.now ≤ MAX_LINE_LEN }
    requires word { length word.now ≤ MAX_LINE_LEN }
    ensures { result ≡ text_or usual.now word.now }
{
    if word != PLACEHOLDER {
        return unescape(word, true);
    }
    let mut text = Text::new();
    text.try_extend_from_slice(usual).unwrap();
    text
}

/// How often a new passphrase is asked for again, by the options of the text.
pub(crate) fn repeats(text: &[u8]) -> Option<u8>
    ensures { result ≡ repeats (last_option (codes "--repeat") (options_of (words text.now))) }
{
    let Some(option) = last_option(text, REPEAT) else {
        return Some(0);
    };
    if option == REPEAT {
        return Some(1);
    }
    let value = option.get(REPEAT.len() + 1..).unwrap_or(b"");
    if value.len() > 2 {
        return None;
    }
    match number_of(value)? {
        number @ ..=MAX_REPEAT => Some(number as u8),
        _ => None,
    }
}

pub(crate) fn life(word: &[u8]) -> Option<Life>
    ensures { result ≡ life word.now }
{
    if word == ENDLESS {
        return Some(Life::Endless);
    }
    life_of_seconds(number_of(word)?)
}

fn life_of_seconds(seconds: u64) -> Option<Life>
    ensures { result ≡ life_of_seconds seconds }
{
    match seconds {
        0 => Some(Life::Default),
        _ if seconds <= u64::from(MAX_SECONDS) => Some(Life::Seconds(seconds as u32)),
        _ => None,
    }
}

/// The mode of this name.
fn mode_named(name: &[u8]) -> Option<Mode>
    ensures { result ≡ cleared_mode (Some name.now) }
{
    if name == NORMAL {
        Some(Mode::Normal)
    } else if name == SSH {
        Some(Mode::Ssh)
    } else {
        None
    }
}

/// The mode that is cleared, by the options of the text.
pub(crate) fn cleared_mode(text: &[u8]) -> Option<Mode>
    ensures { result ≡ cleared_mode (last_value (codes "--mode") (options_of (words text.now))) }
{
    let Some(name) = last_value(text, MODE) else {
        return Some(Mode::User);
    };
    mode_named(name)
}

/// The passphrase that the first word of the text spells, or none where it comes by an inquiry.
pub(crate) fn given_passphrase(inquire: bool, text: &[u8]) -> Option<Option<Secret>>
    ensures { result ≡ given_passphrase inquire (words text.now) }
{
    match next_word(text) {
        None if inquire => Some(None),
        Some((digits, _)) if !inquire => Some(Some(passphrase(digits)?)),
        _ => None,
    }
}

/// The passphrase that hexadecimal digits spell. Its bytes are left in the passphrase alone.
fn passphrase(digits: &[u8]) -> Option<Secret>
    ensures { result ≡ passphrase (decode_of digits.now) }
{
    let count = digits.len() / 2;
    if count > MAX_SECRET_LEN {
        return None;
    }
    let mut bytes = [0u8; MAX_SECRET_LEN];
    let secret = match hex::decode_to_slice(digits, &mut bytes[..count]) {
        Ok(()) => Secret::of(&bytes[..count]),
        Err(_) => None,
    };
    wipe(&mut bytes);
    secret
}
