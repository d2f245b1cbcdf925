//! The tally of a run with one mark (log entry) more, for a core that keeps its run. Pure:
//! `counted` of `specs/Tallies` says the same.

ghost use Rattle.std.specs.Prelude.{◌≡◌};
ghost use Rattle.agent_core.specs.Tallies.{counted, CanCount};

use cache_policy::{Mark, MarkReply, MarkStep, Tally};

/// The tally with one mark more.
pub(crate) fn counted(tally: Tally, mark: &Mark, stores: bool) -> Tally
    requires { CanCount tally }
    ensures { result ≡ counted tally mark.now stores }
{
    Tally {
        marks: tally.marks + 1,
        given: tally.given + u64::from(matches!(mark.reply, MarkReply::Given(_))),
        empty: tally.empty + u64::from(matches!(mark.reply, MarkReply::Empty)),
        opened: tally.opened + u64::from(matches!(mark.reply, MarkReply::Open)),
        stored: tally.stored + u64::from(stores),
        cleared: tally.cleared + u64::from(matches!(mark.step, MarkStep::Clear { .. })),
        flushed: tally.flushed + u64::from(matches!(mark.step, MarkStep::Flush)),
        stopped: tally.stopped,
    }
}
