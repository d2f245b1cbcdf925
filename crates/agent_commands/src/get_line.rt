//! The arguments and options of a GET_PASSPHRASE, as words of its line: most requests need none of
//! the texts, which are long. Pure. Begin with `GetLine::of`; `get_of` (`specs/Requests`) says what
//! is in form, and `quiet` when the cache alone is asked.

ghost use Rattle.std.specs.{Prelude.{◌≡◌, ◌≤◌, length}, Option.{is_none, option_map}};
ghost use Rattle.assuan_text.specs.declared.TheConstants.{MAX_LINE_LEN};
ghost use Rattle.assuan_text.specs.{Options.{options_of, arguments_of}, Words.words};
ghost use Rattle.session_client.specs.Fields.{in_form};
ghost use Rattle.agent_commands.specs.{Exchanges.quiet_fields, Requests.{get_of, get_passphrase}};

use crate::fields::{TextWords, is_cache_id, repeats, unless_placeholder};
use crate::{CacheCommand, QuietRequest};
use assuan_text::{arguments, has_option, next_word};
use std::marker::Model;

/// What comes after GET_PASSPHRASE, where its fields are in form. It borrows the line: the texts
/// are long, and most requests need none. Contracts see the fields.
#[derive(Drop)]
pub(crate) struct GetLine<'a> {
    /// All that comes after the command, which its options are found in.
    text: &'a [u8],
    repeat: u8,
    id: &'a [u8],
    texts: Option<TextWords<'a>>,
}

impl<'a> Model for GetLine<'a> {
    ghost use Rattle.std.specs.Prelude.{◌≡◌, codes, true};
    ghost use Rattle.assuan_text.specs.{Options.{options_of, has_option}, Words.words};
    ghost use Rattle.agent_commands.specs.Fields.{is_cache_id, unless_placeholder};
    ghost use Rattle.agent_commands.specs.Requests.{GetFields};

    ghost Value = { GetFields };

    ghost view = { λ line. record {
      plain = has_option (codes "--data") (options_of (words line.text.now));
      check = has_option (codes "--check") (options_of (words line.text.now));
      no_ask = has_option (codes "--no-ask") (options_of (words line.text.now));
      repeat = line.repeat;
      quality = has_option (codes "--qualitybar") (options_of (words line.text.now));
      id = unless_placeholder line.id.now;
      texts = line.texts;
    } };

    ghost invariant = { λ line. is_cache_id line.id.now ≡ true };
}

impl<'a> GetLine<'a> {
    /// `None` where a field is missing or out of form.
    pub(crate) fn of(text: &'a [u8]) -> Option<GetLine<'a>>
        requires { length text.now ≤ MAX_LINE_LEN }
        ensures { get_of (options_of (words text.now)) (arguments_of (words text.now))
            ≡ in_form (option_map get_passphrase result) }
    {
        let (id, rest) = next_word(arguments(text))?;
        let repeat = repeats(text)?;
        if !is_cache_id(id) {
            return None;
        }
        let texts = TextWords::of(rest)?;
        Some(GetLine {
            text,
            repeat,
            id,
            texts,
        })
    }

    /// The request, where it asks the cache alone.
    pub(crate) fn quiet(&self) -> Option<QuietRequest>
        ensures { result ≡ quiet_fields self.now }
    {
        if self.texts.is_some() && !has_option(self.text, b"--no-ask") {
            return None;
        }
        Some(QuietRequest {
            plain: has_option(self.text, b"--data"),
            id: unless_placeholder(self.id),
        })
    }

    /// Whether it leaves the cache out.
    pub(crate) fn leaves_cache(&self) -> bool
        ensures { result ≡ is_none self.now.id }
    {
        unless_placeholder(self.id).is_none()
    }

    /// The command, with the texts that a prompt may show.
    pub(crate) fn command(&self) -> CacheCommand
        ensures { result ≡ get_passphrase self.now }
    {
        CacheCommand::GetPassphrase {
            plain: has_option(self.text, b"--data"),
            check: has_option(self.text, b"--check"),
            no_ask: has_option(self.text, b"--no-ask"),
            repeat: self.repeat,
            quality: has_option(self.text, b"--qualitybar"),
            id: unless_placeholder(self.id),
            texts: self.texts.as_ref().map(TextWords::texts),
        }
    }
}
