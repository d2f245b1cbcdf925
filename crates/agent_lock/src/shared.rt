//! The lock over the core, from its making to its end. Threads share it; its condition is where
//! they wait for the seat (the prompt's lock). Begin with `Shared::new`, which makes all passes
//! (workers' tokens), and `Shared::close`, which wants them all back; the end's facts stand in
//! `specs/Closings`.

ghost use Rattle.std.specs.Prelude.{◌≡◌, ◌<◌, true, false, All, IfOk, vec_len};
ghost use Rattle.cache_policy.specs.Seat.{stopped};
ghost use Rattle.agent_lock.specs.Closings.{IfStopped, IfOpen, AreSums};
ghost use Rattle.agent_lock.specs.{Counting.{no_counts, totals}, Journals.tally_at};

use crate::books::{Books, Shares};
use crate::{Counts, Locked, Marks, Pass};
use cache_policy::{Limits, Tally};
use std::alloc::{AllocError, Global};
use std::sync::ledger::{Blank, Ledger};
use std::sync::{Condvar, Mutex};

/// A new ledger for each of the four counts, with as many parts as there are passes.
#[derive(Drop)]
pub struct Blanks {
    /// For the marks.
    pub calls: Blank,
    /// For the marks that were replied Given.
    pub given: Blank,
    /// For the marks that were replied Empty.
    pub empty: Blank,
    /// For the marks that were replied Open.
    pub opened: Blank,
}

/// The locked value, and where threads wait for the seat.
#[derive(Drop)]
pub struct Shared<M: Marks, G: Ledger, E: Ledger, O: Ledger> {
    pub(crate) lock: Mutex<Locked<M, G, E, O>>,
    pub(crate) changed: Condvar,
}

/// What a look at the end found.
#[derive(Drop)]
pub enum Closing<M: Marks, G: Ledger, E: Ledger, O: Ledger> {
    /// The agent has stopped. This was done.
    Stopped(Tally),
    /// It hasn't, and all goes on with the same passes and journal.
    Open(Shared<M, G, E, O>, Vec<Pass<M, G, E, O>>),
}

impl<M: Marks, G: Ledger, E: Ledger, O: Ledger> Shared<M, G, E, O> {
    /// A core without entries under a lock, and as many passes.
    pub fn new(
        alloc: Global,
        limits: Limits,
        blanks: Blanks,
        passes: u32,
    ) -> Result<(Self, Vec<Pass<M, G, E, O>>), AllocError>
        requires limits { limits ≡ M.limits }
        requires some { 0 < passes }
        requires calls { (blanks.calls.name ≡ M.name) × (blanks.calls.parts ≡ M.parts)
            × (passes ≡ M.parts) }
        requires given { (blanks.given.name ≡ G.name) × (blanks.given.parts ≡ G.parts)
            × (passes ≡ G.parts) }
        requires empty { (blanks.empty.name ≡ E.name) × (blanks.empty.parts ≡ E.parts)
            × (passes ≡ E.parts) }
        requires opened { (blanks.opened.name ≡ O.name) × (blanks.opened.parts ≡ O.parts)
            × (passes ≡ O.parts) }
        ensures all { IfOk result (λ made. vec_len made.1 ≡ passes) }
        ensures new { IfOk result (λ made. All (λ pass. pass ≡ no_counts) made.1.items) }
    {
        let (calls, calls_left) = blanks.calls.open::<M>();
        let (given, given_left) = blanks.given.open::<G>();
        let (empty, empty_left) = blanks.empty.open::<E>();
        let (opened, opened_left) = blanks.opened.open::<O>();
        let mut left = Shares {
            calls: calls_left,
            given: given_left,
            empty: empty_left,
            opened: opened_left,
        };
        let mut all = Vec::new(alloc);
        for _i in 0..passes {
            let pass = Pass {
                counts: Counts {
                    calls: 0,
                    given: 0,
                    empty: 0,
                    opened: 0,
                },
                calls: left.calls.split_off(1, 0),
                given: left.given.split_off(1, 0),
                empty: left.empty.split_off(1, 0),
                opened: left.opened.split_off(1, 0),
            };
            all.push(pass)?;
        }
        let books = Books {
            calls,
            given,
            empty,
            opened,
            left,
        };
        let locked = Locked::new(alloc, limits, books)?;
        Ok((Shared::over(locked), all))
    }

    fn over(locked: Locked<M, G, E, O>) -> Self {
        Shared {
            lock: Mutex::new(locked),
            changed: Condvar::new(),
        }
    }

    /// Closes with all its passes, and gives what was done. Its sums are the passes' own.
    pub fn close(self, passes: Vec<Pass<M, G, E, O>>) -> Tally
        requires { (vec_len passes ≡ M.parts) × (vec_len passes ≡ G.parts)
            × (vec_len passes ≡ E.parts) × (vec_len passes ≡ O.parts) }
        ensures { AreSums (totals result) passes.items }
    {
        let Shared { lock, changed: _ } = self;
        lock.into_inner().close(passes)
    }

    /// Closes as `close` does where the agent has stopped, and else gives all back.
    pub fn close_if_stopped(self, passes: Vec<Pass<M, G, E, O>>) -> Closing<M, G, E, O>
        requires { (vec_len passes ≡ M.parts) × (vec_len passes ≡ G.parts)
            × (vec_len passes ≡ E.parts) × (vec_len passes ≡ O.parts) }
        ensures stopped { IfStopped result
            (λ tally. AreSums (totals tally) passes.items × (tally.stopped ≡ true)) }
        ensures open { IfOpen result (λ back. back ≡ passes.items) }
    {
        let Shared { lock, changed: _ } = self;
        lock.into_inner().close_if_stopped(passes)
    }
}

impl<M: Marks, G: Ledger, E: Ledger, O: Ledger> Locked<M, G, E, O> {
    /// Ends the core once all passes are back, and gives the totals of all its histories.
    pub fn close(self, passes: Vec<Pass<M, G, E, O>>) -> Tally
        requires { (vec_len passes ≡ M.parts) × (vec_len passes ≡ G.parts)
            × (vec_len passes ≡ E.parts) × (vec_len passes ≡ O.parts) }
        ensures tally { result ≡ tally_at self }
        ensures sums { AreSums (totals result) passes.items }
    {
        let Locked { state, books } = self;
        books.close(passes);
        state.total
    }

    /// Closes where the agent has stopped, by the journal, and else locks all up anew.
    pub fn close_if_stopped(self, passes: Vec<Pass<M, G, E, O>>) -> Closing<M, G, E, O>
        requires { (vec_len passes ≡ M.parts) × (vec_len passes ≡ G.parts)
            × (vec_len passes ≡ E.parts) × (vec_len passes ≡ O.parts) }
        ensures stopped { IfStopped result
            (λ tally. (tally ≡ tally_at self) × AreSums (totals tally) passes.items
            × (stopped self.journal ≡ true) × (tally.stopped ≡ true)) }
        ensures open { IfOpen result
            (λ back. (back ≡ passes.items) × (stopped self.journal ≡ false)) }
    {
        if !self.stopped() {
            return Closing::Open(Shared::over(self), passes);
        }
        Closing::Stopped(self.close(passes))
    }
}
