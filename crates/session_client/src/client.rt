//! The client as a command sees it: told of a prompt, or asked for a passphrase. A call reads and
//! writes the client's connection, whatever that is. Begin with `Client::ask` and the promise below
//! it; `LeftBy` of `specs/Asking` says how an answer leaves the connection.

ghost use Rattle.session_client.specs.{Lines.{Lines, Views, IsOpen}, Asking.{TellsClient, LeftBy}};

use crate::ClientError;

/// The most bytes that a client may send back where it is told of a prompt. They are dropped.
pub const MAX_NOTE_LEN: usize = 1000;

/// A session's client, which gives secrets of this type. It is asked only while its connection is
/// open.
pub trait Client<S> {
    ghost use Rattle.std.specs.Prelude.{ℕ, List, Result};
    ghost use Rattle.session_client.specs.declared.client_error.ClientError.{ClientError};

    /// How requests and inquiries stand in the bytes of its link.
    ghost lines: { Lines };

    /// What is seen of its connection.
    ghost views: { Views lines Self };

    /// What it was asked by a word is shown by this relation between itself before, the word, its
    /// answer, and itself after.
    ghost wished: { Self → List ℕ → Result S ClientError → Self → Type 0 };

    /// Tells it that a prompt was opened, in the process of this number (GnuPG manual,
    /// PINENTRY_LAUNCHED).
    fn tell(&mut self, pid: u32) -> Result<(), ClientError>
        requires { IsOpen views self.old }
        ensures { TellsClient views pid result self.old self.new };

    /// Asks it for a passphrase by this word.
    fn ask(&mut self, word: &[u8]) -> Result<S, ClientError>
        requires { IsOpen views self.old }
        ensures { wished self.old word.now result self.new };

    /// How every answer leaves it.
    ghost promise: { (before : Self) (word : List ℕ) (result : Result S ClientError) (after : Self)
        → IsOpen views before
        → wished before word result after → LeftBy views result before after };
}
