//! The core and the journal of its marks (log entries), without the bytes of secrets and in room
//! that is taken once. It reads no clock and takes no lock. Begin with `State::step`; `IsKept` of
//! `specs/Keeping` is what every call leaves true.

ghost use Rattle.std.specs.Prelude.{◌≡◌, ◌<◌, ◌≤◌, ◌^◌, [], None, IfOk, IfErr, OnErr, vec_len};
ghost use Rattle.std.specs.Prelude.{vec_capacity};
ghost use Rattle.cache_policy.specs.declared.bounds.TheConstants.{MAX_MARKS as MAX};
ghost use Rattle.cache_policy.specs.{Histories.{History, with_mark}, Legal.IsLegal};
ghost use Rattle.cache_policy.specs.Runs.{last_base, moment_of, next_history, is_spent};
ghost use Rattle.cache_policy.specs.Seat.{stopped};
ghost use Rattle.cache_policy.specs.Tallies.{with_one, one_if, nothing_yet, IsSound};
ghost use Rattle.cache_policy.specs.Traces.{trace_mark};
ghost use Rattle.cache_policy.specs.Turns.{asked_step, mark_step, turn_of, FitsReply};
ghost use Rattle.cache_policy.specs.Turns.{MayWantMemory};
ghost use Rattle.agent_core.specs.Cores.{StandsFor, IsStep};
ghost use Rattle.agent_lock.specs.{Attempts.IfGiven, Counting.{counted, totals, AreSmall}};

use agent_core::Core;
use agent_ports::SessionId;
use cache_policy::{
    Held, Limits, MAX_MARKS, MarkReply, Refused, Reply, Step, Tally, Trace, TraceStep,
};
use std::alloc::{AllocError, Global};

/// How a journal began.
#[derive(Drop)]
pub(crate) struct Start {
    pub(crate) base: u64,
    pub(crate) held: Option<Held>,
    pub(crate) stopped: bool,
}

/// A core, and what was done with it.
#[derive(Drop)]
pub(crate) struct State {
    pub(crate) core: Core,
    pub(crate) start: Start,
    pub(crate) traces: Vec<Trace>,
    /// What was done before the journal began.
    pub(crate) carried: Tally,
    /// What was done in all.
    pub(crate) total: Tally,
}

impl State {
    ghost use Rattle.agent_lock.specs.Journals.{IsJournaled, IsLocked, AtLock};
    ghost use Rattle.agent_lock.specs.Keeping.{IsKept, journal_of, next_start, seen, started};
    ghost use Rattle.agent_lock.specs.Keeping.{carried_to};

    /// Nothing was done. The journal's room is taken here, and used again and again.
    pub(crate) fn new(alloc: Global, limits: Limits) -> Result<State, AllocError>
        ensures kept { IfOk result IsKept }
        ensures nothing { IfOk result
            (λ state. (state.carried ≡ nothing_yet) × (state.traces.items ≡ [])
            × (state.total ≡ nothing_yet) × (state.core.limits ≡ limits)) }
    {
        Ok(State {
            core: Core::new(alloc, limits),
            start: Start {
                base: 0,
                held: None,
                stopped: false,
            },
            traces: Vec::with_capacity(alloc, MAX_MARKS as usize)?,
            carried: Tally::new(),
            total: Tally::new(),
        })
    }

    /// Takes a step, and where it makes a mark adds its trace.
    pub(crate) fn step(
        &mut self,
        reading: u64,
        session: SessionId,
        step: Step,
    ) -> Result<Reply, Refused>
        requires { IsKept self.old }
        ensures kept { IsKept self.new }
        ensures journaled { IsJournaled (seen self.old) session
            (moment_of self.old.core.moment reading) (mark_step session step) (turn_of result)
            (seen self.new) }
        ensures core { (history : History)
            → IsLegal self.old.core.limits history → StandsFor self.old.core history
            → IsStep self.old.core history session (moment_of self.old.core.moment reading)
            (mark_step session step) (turn_of result) self.new.core }
        ensures totals { totals self.new.total
            ≡ counted (is_spent (next_history (seen self.old).journal)) (totals self.old.total)
            (turn_of result) }
        ensures grant { IfGiven (turn_of result)
            (λ grant. grant.moment ≡ moment_of self.old.core.moment reading) }
        ensures fits { FitsReply (asked_step step) (turn_of result) }
        ensures memory { OnErr result (MayWantMemory (asked_step step)) }
        ensures limits { self.new.core.limits ≡ self.old.core.limits }
        ensures back { IfErr result (λ refused. refused.step ≡ step) }
    {
        let spent = self.core.spent();
        let asked = TraceStep::of(session, &step);
        let stores = self.core.stores(session, &step);
        let next = self.next_start();
        let outcome = self.core.step(reading, session, step);
        if spent {
            return outcome;
        }
        match outcome {
            Ok(reply) => match MarkReply::of(&reply) {
                Some(answer) => {
                    let trace = Trace {
                        session,
                        step: asked,
                        reply: answer,
                        moment: self.core.moment(),
                    };
                    self.add(next, trace, stores);
                    Ok(reply)
                }
                None => Ok(reply),
            },
            Err(refused) => Err(refused),
        }
    }

    /// Whether there is no number left for a mark.
    pub(crate) fn spent(&self) -> bool
        requires { IsKept self.now }
        ensures spent { result ≡ is_spent (next_history (seen self.now).journal) }
        ensures small { AreSmall (totals self.now.total) }
    {
        self.core.base();
        self.core.spent()
    }

    /// Whether the core has stopped opening prompts.
    pub(crate) fn stopped(&self) -> bool
        requires { IsKept self.now }
        ensures { result ≡ stopped (seen self.now).journal }
    {
        self.core.stopped()
    }

    /// A law: the journal is legal, and the core stands for it.
    pub(crate) fn keeps(&self)
        requires { IsKept self.now }
        ensures { IsLocked (seen self.now) }
    {}

    /// How the next journal begins, where this one is full.
    fn next_start(&self) -> Option<Start>
        ensures start { result ≡ next_start self.now }
        ensures below { self.now.core.base < last_base }
    {
        let base = self.core.base();
        if self.traces.len() != MAX_MARKS as usize {
            return None;
        }
        Some(Start {
            base: base + MAX_MARKS,
            held: self.core.held(),
            stopped: self.core.stopped(),
        })
    }

    /// Adds a mark's trace, behind those of the journal or as the first of the next one, and counts
    /// it.
    fn add(&mut self, next: Option<Start>, trace: Trace, stores: bool)
        requires room { MAX ≤ vec_capacity self.old.traces }
        requires few { next ≡ None → vec_len self.old.traces < MAX }
        requires sound { IsSound self.old.total }
        requires small { self.old.total.marks ≤ 2 ^ 63 }
        ensures core { self.new.core ≡ self.old.core }
        ensures journal { journal_of self.new.start self.new.traces.items
            ≡ with_mark (started next (journal_of self.old.start self.old.traces.items))
            (trace_mark trace) }
        ensures carried { self.new.carried ≡ carried_to next self.old.carried self.old.total }
        ensures total { self.new.total ≡ with_one self.old.total (trace_mark trace)
            (one_if stores) }
        ensures sound { IsSound self.new.total }
        ensures room { MAX ≤ vec_capacity self.new.traces }
    {
        if let Some(start) = next {
            self.start = start;
            self.carried = self.total;
            self.traces.clear();
        }
        self.total.count(&trace, stores);
        self.traces.push_reserved(trace);
    }
}
