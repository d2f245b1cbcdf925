//! The counts of what was done, by one mark (log entry) after another. Pure. Begin with
//! `Tally::count`; `with_one` of `specs/Tallies` is its result, and the law `a_tally_goes_on` says
//! that this counts a run.

ghost use Rattle.std.specs.Prelude.{◌≡◌, ◌≤◌, ◌+◌, ◌^◌, ℕ, length, false};
ghost use Rattle.cache_policy.specs.{declared.mark.Mark.Mark, Entries.stored};
ghost use Rattle.cache_policy.specs.{Histories.{History, with_mark}, Runs.turn_over};
ghost use Rattle.cache_policy.specs.Seat.{seat, stopped};
ghost use Rattle.cache_policy.specs.Tallies.{with_history, with_one, one_if, nothing_yet, IsSound};
ghost use Rattle.cache_policy.specs.Traces.{trace_step, trace_mark};

use crate::{Limits, MarkReply, Trace, TraceStep};

/// What was done so far: how many marks there are, how many of them were replied Given, Empty and
/// Open, how many entries were stored, and how many steps cleared an id and forgot everything.
#[derive(Clone, Copy, Debug, PartialEq, Eq)]
pub struct Tally {
    /// How many marks there are.
    pub marks: u64,
    /// How many of them were replied Given.
    pub given: u64,
    /// How many of them were replied Empty.
    pub empty: u64,
    /// How many of them were replied Open.
    pub opened: u64,
    /// How many entries were stored.
    pub stored: u64,
    /// How many steps cleared an id.
    pub cleared: u64,
    /// How many steps forgot everything.
    pub flushed: u64,
    /// Whether the agent has stopped opening prompts.
    pub stopped: bool,
}

impl Tally {
    /// Nothing was done.
    pub fn new() -> Tally
        ensures { result ≡ nothing_yet }
    {
        Tally {
            marks: 0,
            given: 0,
            empty: 0,
            opened: 0,
            stored: 0,
            cleared: 0,
            flushed: 0,
            stopped: false,
        }
    }

    /// Counts one mark more, which stored an entry or didn't.
    pub fn count(&mut self, trace: &Trace, stores: bool)
        requires sound { IsSound self.old }
        requires room { self.old.marks ≤ 2 ^ 63 }
        ensures tally { self.new ≡ with_one self.old (trace_mark trace.now) (one_if stores) }
        ensures sound { IsSound self.new }
    {
        self.marks += 1;
        self.given += u64::from(matches!(trace.reply, MarkReply::Given(_)));
        self.empty += u64::from(matches!(trace.reply, MarkReply::Empty));
        self.opened += u64::from(matches!(trace.reply, MarkReply::Open));
        self.stored += u64::from(stores);
        self.cleared += u64::from(matches!(&trace.step, TraceStep::Clear { .. }));
        self.flushed += u64::from(matches!(&trace.step, TraceStep::Flush));
        self.stopped |= matches!(&trace.step, TraceStep::Stop);
    }
}

/// What one mark more makes of a tally, and that a turn-over changes none.
pub fn a_tally_goes_on()
    ensures one { (limits : Limits) (before : Tally) (history : History) (mark : Mark)
        → with_history limits before (with_mark history mark)
        ≡ with_one (with_history limits before history) mark
        (length (stored limits history mark.step mark.moment)) }
    ensures turned_over { (limits : Limits) (tally : Tally) (history : History)
        → tally.stopped ≡ stopped history → with_history limits tally (turn_over history) ≡ tally }
{}
