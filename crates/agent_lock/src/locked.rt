//! What the lock guards: the core, its journal and the books of the ledgers. It takes no lock
//! itself, so the full clauses can stand here, where a contract sees all of it. Begin with
//! `Locked::step`; `IsJournaled` of `specs/Journals` says what a step adds.

ghost use Rattle.std.specs.Prelude.{◌≡◌, ℕ, None, [], false, IfOk, IfErr, OnErr};
ghost use Rattle.cache_policy.specs.{Histories.History, Legal.IsLegal};
ghost use Rattle.cache_policy.specs.{Runs.{moment_of, next_history, is_spent}, Seat.stopped};
ghost use Rattle.cache_policy.specs.Tallies.{nothing_yet};
ghost use Rattle.cache_policy.specs.Turns.{asked_step, mark_step, turn_of, FitsReply};
ghost use Rattle.cache_policy.specs.Turns.{MayWantMemory};
ghost use Rattle.agent_core.specs.Cores.{StandsFor, IsStep};
ghost use Rattle.agent_lock.specs.{Attempts.IfGiven, Counting.{counted, no_counts}};
ghost use Rattle.agent_lock.specs.Journals.{IsJournaled, IsLocked, tally_at};

use crate::books::Books;
use crate::state::State;
use crate::{Marks, Pass};
use agent_ports::SessionId;
use cache_policy::{Limits, Refused, Reply, Step, Tally};
use std::alloc::{AllocError, Global};
use std::marker::Model;
use std::sync::ledger::Ledger;

/// What lies under the lock: a core, the journal of what was done with it, and a book for each
/// ledger.
///
/// Contracts see the core, the journal as a history without the bytes of secrets, and the tally of
/// what was done before the journal.
#[derive(Drop)]
pub struct Locked<M: Marks, G: Ledger, E: Ledger, O: Ledger> {
    pub(crate) state: State,
    pub(crate) books: Books<M, G, E, O>,
}

impl<M: Marks, G: Ledger, E: Ledger, O: Ledger> Model for Locked<M, G, E, O> {
    ghost use Rattle.std.specs.Prelude.{◌≡◌};
    ghost use Rattle.agent_lock.specs.{Journals.AtLock, Counting.totals, Keeping.{IsKept, seen}};

    ghost Value = { AtLock };

    ghost view = { λ locked. seen locked.state };

    ghost invariant = { λ locked. IsKept locked.state × (locked.books ≡ totals locked.state.total)
        × (locked.state.core.limits ≡ M.limits) };
}

impl<M: Marks, G: Ledger, E: Ledger, O: Ledger> Locked<M, G, E, O> {
    /// Nothing was done. The journal's room is taken here, and used again after each turn-over.
    pub fn new(alloc: Global, limits: Limits, books: Books<M, G, E, O>) -> Result<Self, AllocError>
        requires limits { limits ≡ M.limits }
        requires books { books ≡ no_counts }
        ensures { IfOk result (λ locked.
            (locked.journal ≡ record { base = 0; held = None; stopped = false; marks = [] })
            × (locked.carried ≡ nothing_yet) × (locked.core.limits ≡ limits)) }
    {
        Ok(Locked {
            state: State::new(alloc, limits)?,
            books,
        })
    }

    /// A law: the journal is legal, and the core stands for it but for the bytes of secrets. Its
    /// lifetimes are those that the ledger's type names.
    pub fn keeps(&self)
        ensures locked { IsLocked self.now }
        ensures limits { self.now.core.limits ≡ M.limits }
    {
        self.state.keeps();
    }

    /// Takes one step of the core, and adds its trace where it makes a mark. The pass counts the
    /// mark, and a reply Given, Empty or Open. A step that finds no memory is handed back.
    pub fn step(
        &mut self,
        pass: &mut Pass<M, G, E, O>,
        reading: u64,
        session: SessionId,
        step: Step,
    ) -> Result<Reply, Refused>
        ensures journaled { IsJournaled self.old session (moment_of self.old.core.moment reading)
            (mark_step session step) (turn_of result) self.new }
        // For every legal history with all its secrets for which the core stands, the step is the
        // core's own, so that a passphrase that is given has the bytes that were stored.
        ensures core { (history : History)
            → IsLegal self.old.core.limits history → StandsFor self.old.core history
            → IsStep self.old.core history session (moment_of self.old.core.moment reading)
            (mark_step session step) (turn_of result) self.new.core }
        ensures counts { pass.new ≡ counted (is_spent (next_history self.old.journal)) pass.old
            (turn_of result) }
        ensures grant { IfGiven (turn_of result)
            (λ grant. grant.moment ≡ moment_of self.old.core.moment reading) }
        ensures fits { FitsReply (asked_step step) (turn_of result) }
        ensures memory { OnErr result (MayWantMemory (asked_step step)) }
        ensures back { IfErr result (λ refused. refused.step ≡ step) }
    {
        let spent = self.state.spent();
        match self.state.step(reading, session, step) {
            Ok(reply) => {
                self.books.count(pass, spent, &reply);
                Ok(reply)
            }
            Err(refused) => Err(refused),
        }
    }

    /// Whether the agent has stopped opening prompts.
    pub fn stopped(&self) -> bool
        ensures { result ≡ stopped self.now.journal }
    {
        self.state.stopped()
    }
}
