//! What a test's script has other sessions do at the desk (cache handle) in memory. Plain data:
//! `Solo` takes these steps between its own. Begin with `ForeignStep`; `specs/Foreigners` says
//! which step of its session each one is.

use agent_ports::SessionId;
use cache_policy::{CacheId, Life, Mode, Secret, Under, Way};

/// A step that another session takes at a desk.
#[derive(Drop)]
pub struct Foreign {
    /// The session that takes it, which isn't the desk's own.
    pub session: SessionId,
    /// What it asks for.
    pub step: ForeignStep,
}

/// A step that is told before it is taken, and so without a ticket and never tried again. But for
/// `CloseHeld` each is the `Step` of its name.
#[derive(Drop)]
pub enum ForeignStep {
    Ask {
        id: CacheId,
        mode: Mode,
        way: Way,
    },
    Seat {
        under: Option<Under>,
    },
    /// Gives back the ticket that its session has, and may keep what was typed. It is passed over
    /// where that session has none.
    CloseHeld {
        keep: Option<Secret>,
    },
    Put {
        id: CacheId,
        mode: Mode,
        life: Life,
        secret: Secret,
    },
    Clear {
        id: CacheId,
        mode: Mode,
    },
    Flush,
    Peek {
        id: CacheId,
        mode: Mode,
    },
    Stop,
}
