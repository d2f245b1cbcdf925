//! A server's connection as the client of a session (`session_client`): an inquiry's outcome
//! becomes a passphrase, or a client error. It writes and reads the connection's link alone. Begin
//! with `ask`, and with `Wishes` of `specs/Clients`, which is its relation.

use crate::Conn;
use agent_ports::Link;
use assuan_line::Line;
use assuan_text::MAX_LINE_LEN;
use cache_policy::Secret;
use itoa::Buffer;
use session_client::{Client, ClientError, MAX_NOTE_LEN};

/// What stands before the word of an inquiry in its line.
const INQUIRE: &[u8] = b"INQUIRE ";

impl<'l, L: Link> Client<Secret> for Conn<'l, L> {
    ghost use Rattle.assuan_server.specs.Clients.{session_lines, connection_views, Wishes};

    ghost lines = { session_lines };

    ghost views = { connection_views };

    ghost wished = { Wishes };

    ghost promise = { λ before word result after going wishes. wishes.left };

    fn tell(&mut self, pid: u32) -> Result<(), ClientError> {
        let mut digits = Buffer::new();
        let params = digits.format(pid).as_bytes();
        self.ask_dropped(b"PINENTRY_LAUNCHED", params, MAX_NOTE_LEN)
    }

    /// A word that doesn't fit its line is none that a client can answer.
    fn ask(&mut self, word: &[u8]) -> Result<Secret, ClientError> {
        if word.len() > MAX_LINE_LEN - INQUIRE.len() || Line::of(word).is_none() {
            return Err(ClientError::Unexpected);
        }
        self.ask_secret(word, b"")
    }
}
