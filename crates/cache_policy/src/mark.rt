//! Marks (log entries), of which a history is made: who took which step, with which reply and when.
//! Plain data, with a secret's bytes; definitions read them, and `Trace` is the form without those
//! bytes. Begin with `Mark`; `policy` of `specs/Policy` says which reply is right.

ghost use Rattle.std.specs.Prelude.{◌≡◌};

use crate::{CacheId, Life, Mode, Secret};
use agent_ports::SessionId;

/// What the passphrase of a prompt is kept under.
#[derive(PartialEq, Eq, Drop)]
pub struct Under {
    /// The id of the entry that it becomes.
    pub id: CacheId,
    /// The mode of that entry.
    pub mode: Mode,
}

impl Under {
    /// The same once more, without taking memory.
    pub fn copy(&self) -> Under
        ensures { result ≡ self.now }
    {
        Under {
            id: self.id.copy(),
            mode: self.mode,
        }
    }
}

/// Whether a request may open a prompt.
#[derive(Clone, Copy, PartialEq, Eq, Hash)]
pub enum Way {
    /// It is answered from the cache alone.
    Quiet,
    /// Where the cache has nothing, it opens a prompt.
    Prompt,
}

/// One step of a session, with the number of its ticket in place of a ticket, and the moment of its
/// first try in place of a wait.
#[derive(Drop)]
pub enum MarkStep {
    /// Asks for a passphrase.
    Ask {
        id: CacheId,
        mode: Mode,
        way: Way,
        /// The moment of the first try, in seconds, where the step stood before.
        since: Option<u64>,
    },
    /// Asks for the seat at the prompt, whatever the cache has.
    Seat {
        under: Option<Under>,
        /// The moment of the first try, in seconds, where the step stood before.
        since: Option<u64>,
    },
    /// Gives a ticket back, and may keep what was typed.
    Close {
        ticket: u64,
        keep: Option<Secret>,
    },
    /// Stores a passphrase.
    Put {
        id: CacheId,
        mode: Mode,
        life: Life,
        secret: Secret,
    },
    /// Forgets what is stored under an id, in the modes that cover the named one.
    Clear {
        id: CacheId,
        mode: Mode,
    },
    /// Forgets everything.
    Flush,
    /// Looks whether a passphrase is there, without using it.
    Peek {
        id: CacheId,
        mode: Mode,
    },
    /// Opens no prompt from now on.
    Stop,
}

/// What a step was answered.
#[derive(Clone, Copy, Debug, PartialEq, Eq, Hash)]
pub enum MarkReply {
    /// The passphrase of the entry with this number.
    Given(u64),
    /// Nothing is cached.
    Empty,
    /// A ticket for the prompt, whose number is the mark's.
    Open,
    /// Done.
    Done,
    /// Whether a passphrase is there.
    Held(bool),
    /// The agent opens no prompt any more.
    Stopping,
    /// The step has stood before a held seat for `MAX_WAIT` seconds.
    Late,
}

/// One step that was made: by whom, which, with which answer and at which moment.
#[derive(Drop)]
pub struct Mark {
    /// The session that took the step.
    pub session: SessionId,
    /// What it asked for.
    pub step: MarkStep,
    /// What it was replied.
    pub reply: MarkReply,
    /// In seconds. It never falls from one mark to the next.
    pub moment: u64,
}
