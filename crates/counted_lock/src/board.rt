//! The table that threads share. One word counts the numbers that were drawn, one those that were
//! served, and one the marks (log entries). The slot has the core, but for the time of a turn.
//! Begin with `OneRun`, whose rule `Kept` (`specs/Rule`) ties the words to one legal run.

use agent_core::Core;
use atomic_table::{Seat, Table, TableRule};
use cache_policy::{Limits, Mark, Tally};
use std::alloc::Global;
use std::collections::LinkedList;

/// The word of the numbers that were drawn.
pub(crate) const DRAWN: usize = 0;
/// The word of the numbers that were served.
pub(crate) const SERVING: usize = 1;
/// The word of the marks.
pub(crate) const MARKS: usize = 2;

/// The core, and what the marks of its run come to, but for whether it has stopped.
#[derive(Drop)]
pub struct Cored {
    /// The core.
    pub core: Core,
    /// What the marks come to.
    pub tally: Tally,
}

/// What the table is told once: the lifetimes of the entries, and how many passes there are.
#[derive(Drop)]
pub struct About {
    /// The lifetimes of the entries.
    pub limits: Limits,
    /// How many passes there are.
    pub passes: u32,
}

/// What the pass of this number has seen. No value of it is made.
pub struct Claim {
    /// The lifetimes of the entries.
    pub limits: Limits,
    /// The number of the pass, from 0.
    pub number: u32,
    /// The marks of the run that it has seen.
    pub seen: LinkedList<Mark>,
}

/// Where a turn is: it has no number; it waits for this number; or it has the core. The numbers go
/// beyond those of a word.
pub enum Stage {
    /// It has no number.
    Idle,
    /// It waits for this number.
    Waiting(u64),
    /// It has the core, by this number.
    Working(u64),
}

/// What a place at the table knows. No value of it is made.
pub struct Doing {
    /// Where its turn is.
    pub stage: Stage,
    /// What the passes of this place have seen.
    pub claims: LinkedList<Claim>,
}

/// The rule of the table.
pub struct OneRun;

impl TableRule<Option<Cored>, Doing, About> for OneRun {
    ghost use Rattle.counted_lock.specs.Rule.{Kept, first_doing};

    ghost holds = { Kept };

    ghost first = { first_doing };
}

/// The table.
pub type Board = Table<Option<Cored>, Doing, About, OneRun, Global>;

/// A place at the table.
pub type Place = Seat<Option<Cored>, Doing>;
