//! What is written and shown of a key: its name in the cache, status lines, and the descriptions of
//! its prompts. Pure but for `StatusLine::write`, which writes on the connection. Begin with
//! `key_id`, `described` and `StatusLine`; `specs/Lines` defines each text.

ghost use Rattle.std.specs.Prelude.{◌≡◌, length, false};
ghost use Rattle.{assuan_escape.specs.Escapes.hex_text, assuan_server.specs.Written.WritesText};
ghost use Rattle.assuan_text.specs.LineEnds.{has_lf};
ghost use Rattle.key_commands.specs.Lines.{grip_text, described, old_description};
ghost use Rattle.key_commands.specs.Lines.{new_description, delete_description};

use agent_ports::{Grip, Link, WriteFault};
use arrayvec::ArrayVec;
use assuan_escape::upper_hex;
use assuan_server::Conn;
use assuan_text::Text;
use cache_policy::CacheId;
use session_options::Options;
use std::marker::Model;

/// A key's name in the cache: its grip in uppercase hexadecimal digits.
pub(crate) fn key_id(grip: &Grip) -> CacheId
    ensures { result ≡ grip_text grip.now }
{
    let digits = digits_of(grip);
    CacheId::of(&digits).unwrap()
}

/// A nonce as a name in the cache: its uppercase hexadecimal digits.
pub(crate) fn nonce_id(nonce: &[u8; 12]) -> CacheId
    ensures { result ≡ hex_text nonce.now }
{
    let digits = upper_hex(nonce);
    CacheId::of(&digits).unwrap()
}

/// A key's grip in uppercase hexadecimal digits.
pub(crate) fn digits_of(grip: &Grip) -> Text
    ensures digits { result.items ≡ grip_text grip.now }
    ensures len { length result.items ≡ 40 }
    ensures one_line { has_lf result.items ≡ false }
{
    upper_hex(&grip.0)
}

/// What a prompt about a key as it is says: what the client set for this request, or what it
/// usually does.
pub(crate) fn described(options: &Options, usual: Text) -> Text
    ensures { result.items ≡ described options.now.description usual.items }
{
    let Some(own) = options.description() else {
        return usual;
    };
    let mut text = Text::new();
    text.try_extend_from_slice(own).unwrap();
    text
}

/// What the prompt for a key's passphrase usually says.
pub(crate) fn old_description(grip: &Grip) -> Text
    ensures { result.items ≡ old_description grip.now }
{
    let mut text = Text::new();
    text.try_extend_from_slice(b"Please enter the passphrase for key ")
        .unwrap();
    text.try_extend_from_slice(&digits_of(grip)).unwrap();
    text
}

/// What the prompt for a new passphrase of a key says.
pub(crate) fn new_description(grip: &Grip) -> Text
    ensures { result.items ≡ new_description grip.now }
{
    let mut text = Text::new();
    text.try_extend_from_slice(b"Please enter a new passphrase for key ")
        .unwrap();
    text.try_extend_from_slice(&digits_of(grip)).unwrap();
    text
}

/// What the prompt usually says that asks whether a key is deleted.
pub(crate) fn delete_description(grip: &Grip) -> Text
    ensures { result.items ≡ delete_description grip.now }
{
    let mut text = Text::new();
    text.try_extend_from_slice(b"Delete key ").unwrap();
    text.try_extend_from_slice(&digits_of(grip)).unwrap();
    text.try_extend_from_slice(b"?").unwrap();
    text
}

/// What a status line says at most.
pub(crate) const MAX_STATUS_LEN: usize = 60;

/// A status line by its word and what it says. Contracts see the line.
#[derive(Drop)]
pub(crate) struct StatusLine {
    pub(crate) word: &'static [u8],
    pub(crate) text: ArrayVec<u8, MAX_STATUS_LEN>,
}

impl Model for StatusLine {
    ghost use Rattle.std.specs.Prelude.{ℕ, List};
    ghost use Rattle.{assuan_line.specs.Lines.IsLine, assuan_server.specs.Written.status_text};
    ghost use Rattle.assuan_text.specs.LineEnds.{line_of};

    ghost Value = { List ℕ };

    ghost view = { λ line. line_of (status_text line.word.now line.text.items) };

    ghost invariant = { λ line. IsLine (status_text line.word.now line.text.items) };
}

impl StatusLine {
    /// Writes it.
    #[tactic(auto, using(assuan_server::proofs::Saying::said))]
    pub(crate) fn write<L: Link>(&self, conn: &mut Conn<'_, L>) -> Result<(), WriteFault>
        ensures { WritesText self.now conn.old result conn.new }
    {
        conn.status(self.word, &self.text).whole()
    }
}
