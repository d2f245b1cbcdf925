//! The cache core as others see it: a session's step and a reading of the clock in, the policy's
//! reply out. It works on its own state alone, and reads no clock and takes no lock itself. Begin
//! with `Core::step`; `IsStep` and `StandsFor` of `specs/Cores` say what it does to every history.

ghost use Rattle.std.specs.Prelude.{◌≡◌, ℕ, ◌+◌, ◌<◌, ◌≤◌, ◌↔◌, [], length, false, None, IsTrue};
ghost use Rattle.std.specs.{Prelude.{OnErr, IfErr}, Option.is_some};
ghost use Rattle.cache_policy.specs.{declared.bounds.TheConstants.MAX_MARKS, Entries.stored};
ghost use Rattle.cache_policy.specs.Histories.{History};
ghost use Rattle.cache_policy.specs.Turns.{asked_step, mark_step, turn_of, FitsReply};
ghost use Rattle.cache_policy.specs.{Turns.MayWantMemory, Policy.policy};
ghost use Rattle.cache_policy.specs.{Runs.{last_base, moment_of, next_history}, Legal.IsLegal};
ghost use Rattle.cache_policy.specs.{Seat.seat, Tallies.one_if};
ghost use Rattle.agent_core.specs.{Cores.{StandsFor, IsStep, IsAsBefore}, Adding.comes_to_seat};

use crate::state::{CacheShelf, State};
use agent_ports::SessionId;
use cache_policy::{Held, Life, Limits, Refused, Reply, Step, Under};
use prompt_seat::Seat;
use std::alloc::Global;
use std::marker::Model;

/// The base of a history that can have no mark: an agent that gets there is spent.
const LAST_BASE: u64 = 1 << 62;

/// The cache of an agent, and the seat before its prompt. It keeps the entries that can still be
/// given, and no past.
#[derive(Drop)]
pub struct Core {
    state: State,
}

impl Model for Core {
    ghost use Rattle.agent_core.specs.{Cores.AtCore, States.{IsState, seen}};

    ghost Value = { AtCore };

    ghost view = { λ core. seen core.state };

    ghost invariant = { λ core. IsState core.state };
}

impl Core {
    /// A core without entries, whose seat is free. It takes no memory yet.
    pub fn new(alloc: Global, limits: Limits) -> Core
        ensures limits { result.limits ≡ limits }
        ensures moment { result.moment ≡ 0 }
        ensures stands { StandsFor result
            (record { base = 0; held = None; stopped = false; marks = [] }) }
    {
        Core {
            state: State {
                limits,
                base: 0,
                count: 0,
                moment: 0,
                shelf: CacheShelf::new(alloc),
                seat: Seat::new(),
                under: None,
                stopped: false,
            },
        }
    }

    /// Takes a step of a session, with this reading of the clock. Where the seat is held, it
    /// answers `Stand`, and the step is to be taken again later, with the wait that it was given;
    /// after 60 seconds it is answered `Late`. A step that finds no memory is handed back.
    pub fn step(&mut self, reading: u64, session: SessionId, step: Step) -> Result<Reply, Refused>
        // For every legal history that the core stands for, the reply is the policy's, and the core
        // stands for the history with the mark of this step then.
        ensures step { (history : History) → IsLegal self.old.limits history
            → StandsFor self.old history → IsStep self.old history session
            (moment_of self.old.moment reading) (mark_step session step) (turn_of result) self.new }
        ensures fits { FitsReply (asked_step step) (turn_of result) }
        ensures memory { OnErr result (MayWantMemory (asked_step step)) }
        ensures refused { OnErr result (IsAsBefore self.old self.new) }
        ensures back { IfErr result (λ refused. refused.step ≡ step) }
        ensures limits { self.new.limits ≡ self.old.limits }
    {
        if self.spent() {
            give_up(step);
            return Ok(Reply::Stopping);
        }
        let moment = self.state.moment_at(reading);
        self.state.take_step(moment, session, step)
    }

    /// Whether a step comes to the seat: it opens a prompt where that is free, and has to stand
    /// where it is held. One that has stood for too long does neither.
    pub(crate) fn comes_to_seat(&self, reading: u64, session: SessionId, step: &Step) -> bool
        ensures { (history : History) → IsLegal self.now.limits history → StandsFor self.now history
            → result ≡ comes_to_seat (policy self.now.limits (next_history history)
            (mark_step session step.now) (moment_of self.now.moment reading)) }
    {
        let moment = self.state.moment_at(reading);
        self.state.comes_to_seat(moment, session, step)
    }

    /// Whether a step of a session stores an entry, where it makes its mark.
    pub fn stores(&self, session: SessionId, step: &Step) -> bool
        ensures { (before : History) (moment : ℕ) → seat before ≡ self.now.held
            → length (stored self.now.limits before (mark_step session step.now) moment)
            ≡ one_if result }
    {
        let limits = &self.state.limits;
        match step {
            Step::Put { mode, life, .. } => limits.ttl_of(*mode, *life) != Some(0),
            Step::Close {
                ticket,
                keep: Some(_),
            } if self.state.seat.holder() == Some(ticket.number()) => match &self.state.under {
                Some(under) => limits.ttl_of(under.mode, Life::Default) != Some(0),
                None => false,
            },
            _ => false,
        }
    }

    /// Whether there is no number left for a mark. Each step is then replied `Stopping`, and
    /// changes nothing.
    pub fn spent(&self) -> bool
        ensures { IsTrue result ↔ (self.now.base + self.now.count ≡ last_base) }
    {
        self.state.next_base() == LAST_BASE
    }

    /// The lifetimes that it goes by.
    pub fn limits(&self) -> Limits
        ensures { result ≡ self.now.limits }
    {
        self.state.limits
    }

    /// The moment of the last mark, in seconds.
    pub fn moment(&self) -> u64
        ensures { result ≡ self.now.moment }
    {
        self.state.moment
    }

    /// How many marks the history has.
    pub fn count(&self) -> u64
        ensures value { result ≡ self.now.count }
        ensures few { result ≤ MAX_MARKS }
    {
        self.state.count
    }

    /// The ticket that is out, and what its passphrase is kept under.
    pub fn held(&self) -> Option<Held>
        ensures { result ≡ self.now.held }
    {
        match self.state.seat.holder() {
            Some(ticket) => Some(Held {
                ticket,
                under: self.state.under.as_ref().map(Under::copy),
            }),
            None => None,
        }
    }

    /// Whether a ticket is out.
    pub(crate) fn is_held(&self) -> bool
        ensures { result ≡ is_some self.now.held }
    {
        self.state.seat.holder().is_some()
    }

    /// Whether it has stopped opening prompts.
    pub fn stopped(&self) -> bool
        ensures { result ≡ self.now.stopped }
    {
        self.state.stopped
    }

    /// The number of the first mark of the history.
    pub fn base(&self) -> u64
        ensures value { result ≡ self.now.base }
        ensures below { result < last_base }
    {
        self.state.base
    }
}

/// Ends a step that isn't taken, with its ticket.
pub(crate) fn give_up(step: Step) {
    if let Some(ticket) = step.into_ticket() {
        let _ = Seat::new().give(ticket);
    }
}
