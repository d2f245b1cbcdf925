//! The port to the client for whom a prompt is open: it is told of it, as by the inquiry
//! PINENTRY_LAUNCHED (GnuPG manual, `OPTION allow-pinentry-notify`), or asked for a passphrase. A
//! trait and its answers. Begin with `Caller`; `specs/Callers` says what each answer means, and
//! which are client errors.

ghost use Rattle.std.specs.Prelude.{◌≡◌};
ghost use Rattle.agent_ask.specs.Events.{Question, Launched, Wanted};
ghost use Rattle.agent_ask.specs.Callers.{IsHearing, IsNote, heard_by};

use cache_policy::Secret;
use session_client::{ClientError, Gone};

/// What the client was heard to say. It may hold a passphrase, so it isn't printed.
#[derive(Drop)]
pub enum Heard {
    /// It has taken note.
    Fine,
    /// It gave a passphrase.
    Secret(Secret),
    /// It cancelled.
    Cancelled,
    /// It sent more bytes than the limit.
    TooMuch,
    /// It sent a line that belongs to no answer.
    Unexpected,
    /// Its connection was lost.
    Gone(Gone),
}

impl From<ClientError> for Heard {
    ghost use Rattle.std.specs.Prelude.{◌≡◌};
    ghost use Rattle.agent_ask.specs.Callers.{heard_of};

    ghost from_gives = { λ why heard. heard ≡ heard_of why };

    fn from(why: ClientError) -> Heard {
        match why {
            ClientError::Cancelled => Heard::Cancelled,
            ClientError::TooMuch => Heard::TooMuch,
            ClientError::Unexpected => Heard::Unexpected,
            ClientError::Gone(gone) => Heard::Gone(gone),
        }
    }
}

impl Heard {
    /// Whether a client took note that was told of a prompt.
    pub fn noted(self) -> Result<(), ClientError>
        requires { IsNote self }
        ensures { self ≡ heard_by result }
    {
        match self {
            Heard::Fine => Ok(()),
            Heard::Cancelled => Err(ClientError::Cancelled),
            Heard::TooMuch => Err(ClientError::TooMuch),
            Heard::Unexpected => Err(ClientError::Unexpected),
            Heard::Gone(gone) => Err(ClientError::Gone(gone)),
            Heard::Secret(_) => unreachable!(),
        }
    }
}

/// The client for whom a passphrase is asked.
pub trait Caller {
    ghost use Rattle.agent_ask.specs.declared.client.caller.Heard.{Heard};

    /// It can be asked: no answer so far was `Gone`.
    ghost listens: { Self → Type 0 };

    /// A caller shows what it was asked by this relation between itself before a question, the
    /// question, the answer, and itself after.
    ghost heard: { Self → Question → Heard → Self → Type 0 };

    /// Tells it that a prompt was opened, in the process of this number.
    fn launched(&mut self, pid: u32) -> Heard
        requires { listens self.old }
        ensures { heard self.old (Launched pid) result self.new };

    /// The same, as a client error where it didn't take note.
    fn note(&mut self, pid: u32) -> Result<(), ClientError>
        requires { listens self.old }
        ensures { heard self.old (Launched pid) (heard_by result) self.new }
    {
        self.launched(pid).noted()
    }

    /// Asks it for a passphrase by this word.
    fn secret(&mut self, word: &[u8]) -> Heard
        requires { listens self.old }
        ensures { heard self.old (Wanted word.now) result self.new };

    /// What every answer means.
    ghost promise: { (before : Self) (question : Question) (answer : Heard) (after : Self)
        → listens before → heard before question answer after
        → IsHearing question answer (listens after) };
}
