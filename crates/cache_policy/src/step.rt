//! What a session asks of a desk (cache handle), and what it is replied. Plain data, but that a
//! step or a reply may have a ticket (permit), which can't be dropped. Begin with `Step` and
//! `Reply`; `turn_of` and `mark_step` of `specs/Turns` say how definitions see them.

ghost use Rattle.std.specs.Prelude.{◌≡◌};

use crate::{CacheId, Grant, Life, Mode, Secret, Under, Wait, Way};
use prompt_seat::Ticket;

/// One step of a session, as it is asked of a desk.
pub enum Step {
    /// Asks for a passphrase. Where it opens a prompt, the passphrase can be kept under its id and
    /// mode.
    Ask {
        id: CacheId,
        mode: Mode,
        way: Way,
        /// The wait of its last try, where that was replied Stand.
        wait: Option<Wait>,
    },
    /// Asks for the seat at the prompt, whatever the cache has.
    Seat {
        under: Option<Under>,
        /// The wait of its last try, where that was replied Stand.
        wait: Option<Wait>,
    },
    /// Gives a ticket back, and may keep what was typed.
    Close {
        ticket: Ticket,
        keep: Option<Secret>,
    },
    /// Stores a passphrase.
    Put {
        id: CacheId,
        mode: Mode,
        life: Life,
        secret: Secret,
    },
    /// Forgets what is stored under an id, in the modes that cover the named one.
    Clear {
        id: CacheId,
        mode: Mode,
    },
    /// Forgets everything.
    Flush,
    /// Looks whether a passphrase is there, without using it.
    Peek {
        id: CacheId,
        mode: Mode,
    },
    /// Opens no prompt from now on.
    Stop,
}

impl Step {
    ghost use Rattle.cache_policy.specs.Turns.{asked_step, closes};

    /// Ends the step, and gives its ticket back where it is a Close.
    pub fn into_ticket(self) -> Option<Ticket>
        ensures { result ≡ closes (asked_step self) }
    {
        match self {
            Step::Close { ticket, keep: _ } => Some(ticket),
            Step::Ask {
                id: _,
                mode: _,
                way: _,
                wait: _,
            } => None,
            Step::Seat { under: _, wait: _ } => None,
            Step::Put {
                id: _,
                mode: _,
                life: _,
                secret: _,
            } => None,
            Step::Clear { id: _, mode: _ } => None,
            Step::Flush => None,
            Step::Peek { id: _, mode: _ } => None,
            Step::Stop => None,
        }
    }
}

/// What a step is replied.
pub enum Reply {
    /// The passphrase that is cached.
    Given(Grant),
    /// Nothing is cached.
    Empty,
    /// The ticket for the prompt.
    Open(Ticket),
    /// Another session has the seat. The step is to be tried again with this. A desk waits in place
    /// of this reply.
    Stand(Wait),
    /// The step has stood before a held seat for `MAX_WAIT` seconds.
    Late,
    /// Done.
    Done,
    /// Whether a passphrase is there.
    Held(bool),
    /// The agent opens no prompt any more.
    Stopping,
}

/// There was no memory for a step, which is handed back. Nothing has changed.
pub struct Refused {
    /// The step, to be taken again or ended.
    pub step: Step,
}
