//! A worker's pass (worker's token): its number, its counts, and what it knows at the table of the
//! one run. Plain numbers in memory; the run that it has seen is there for contracts alone. Begin
//! with `CountedPass::keeps`; `IsSeen` of `specs/Passes` says what a pass always knows.

ghost use Rattle.std.specs.Prelude.{◌≡◌, length};
ghost use Rattle.counted_lock.specs.{Logs.is_stopped, Passes.{mine, IsSeen}};

use crate::board::Place;
use std::marker::Model;

/// What one worker takes its turns with. Contracts see the run so far as the pass has seen it, with
/// all its secrets; of that no copy is kept.
///
/// A pass that is lost keeps the lock from being closed.
#[derive(Drop)]
pub struct CountedPass {
    pub(crate) number: u32,
    /// The count of its last session, and one.
    pub(crate) sessions: u64,
    /// How many marks it has seen.
    pub(crate) front: u64,
    /// How many marks it made.
    pub(crate) calls: u64,
    pub(crate) stopped: bool,
    pub(crate) place: Place,
}

impl Model for CountedPass {
    ghost use Rattle.counted_lock.specs.{Claims.own, Passes.AtPass, Keeping.IsPass};

    ghost Value = { AtPass };

    ghost view = { λ pass. record {
      table = pass.place.table_id;
      limits = (own pass.place.me).limits;
      number = pass.number;
      sessions = pass.sessions;
      seen = (own pass.place.me).seen;
    } };

    ghost invariant = { λ pass.
        IsPass pass.number pass.sessions pass.front pass.calls pass.stopped pass.place.me };
}

impl CountedPass {
    /// The pass's number, from 0.
    pub fn number(&self) -> u32
        ensures { result ≡ self.now.number }
    {
        self.number
    }

    /// How many marks it has seen.
    pub fn front(&self) -> u64
        ensures { result ≡ length self.now.seen }
    {
        self.front
    }

    /// How many marks it made.
    pub fn calls(&self) -> u64
        ensures { result ≡ length (mine self.now) }
    {
        self.calls
    }

    /// The count that its next session can have: 0 at first, and then one more than that of its
    /// last.
    pub fn sessions(&self) -> u64
        ensures { result ≡ self.now.sessions }
    {
        self.sessions
    }

    /// Whether the run that it has seen is stopped.
    pub fn stopped(&self) -> bool
        ensures { result ≡ is_stopped self.now.seen }
    {
        self.stopped
    }

    /// A law: what a pass has seen is a legal run, and its own marks are those of sessions that it
    /// had.
    pub fn keeps(&self)
        ensures { IsSeen self.now }
    {
        let _ = &self.number;
    }
}

impl CountedPass {
    ghost use Rattle.counted_lock.specs.{Plays.IsIdle, Claims.own, Keeping.claim_of};

    pub(crate) fn into_place(self) -> Place
        ensures table { result.table_id ≡ self.table }
        ensures idle { IsIdle result.me }
        ensures own { own result.me ≡ claim_of self }
    {
        let CountedPass { place, .. } = self;
        place
    }
}
