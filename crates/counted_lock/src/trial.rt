//! What is noted of a step before the core takes it, so that its mark (log entry) can be counted
//! without a copy of the step. Pure. Begin with `Trial::of`; `IsTrial` and `tally_with` of
//! `specs/Settling` are its two calls.

ghost use Rattle.std.specs.Prelude.{◌≡◌, Ok};
ghost use Rattle.cache_policy.specs.Turns.{mark_step, turn_of};
ghost use Rattle.agent_core.specs.{Recording.reply_of, Tallies.CanCount};
ghost use Rattle.counted_lock.specs.Settling.{IsTrial, tally_with};

use crate::board::Cored;
use agent_ports::SessionId;
use cache_policy::{Reply, Step, Tally};

/// A step that is tried: whose it is, the reading of the clock, the tally before it, and what it
/// adds to that where it makes its mark.
#[derive(Clone, Copy)]
pub(crate) struct Trial {
    pub(crate) session: SessionId,
    pub(crate) reading: u64,
    pub(crate) tally: Tally,
    /// There is no number left for a mark.
    pub(crate) spent: bool,
    pub(crate) stores: bool,
    pub(crate) clears: bool,
    pub(crate) flushes: bool,
}

impl Trial {
    /// What is noted of a step that this core is to take.
    pub(crate) fn of(cored: &Cored, reading: u64, session: SessionId, step: &Step) -> Trial
        ensures session { result.session ≡ session }
        ensures reading { result.reading ≡ reading }
        ensures tally { result.tally ≡ cored.now.tally }
        ensures trial { IsTrial cored.now.core (mark_step session step.now) result }
    {
        Trial {
            session,
            reading,
            tally: cored.tally,
            spent: cored.core.spent(),
            stores: cored.core.stores(session, step),
            clears: matches!(step, Step::Clear { .. }),
            flushes: matches!(step, Step::Flush),
        }
    }

    /// The tally with the mark of the step, which was given this reply.
    pub(crate) fn counted(&self, reply: &Reply) -> Tally
        requires { CanCount self.now.tally }
        ensures { result ≡ tally_with self.now (reply_of (turn_of (Ok reply.now))) }
    {
        let before = &self.tally;
        Tally {
            marks: before.marks + 1,
            given: before.given + u64::from(matches!(reply, Reply::Given(_))),
            empty: before.empty + u64::from(matches!(reply, Reply::Empty)),
            opened: before.opened + u64::from(matches!(reply, Reply::Open(_))),
            stored: before.stored + u64::from(self.stores),
            cleared: before.cleared + u64::from(self.clears),
            flushed: before.flushed + u64::from(self.flushes),
            stopped: before.stopped,
        }
    }
}
