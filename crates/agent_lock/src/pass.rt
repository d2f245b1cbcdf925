//! A worker's right to take turns at the lock: a pass (worker's token), with counts of its own.
//! Plain data and shares of the ledgers, which the books alone change. Begin with `Pass`, and with
//! `Marks`, whose type carries the lifetimes that a lock can't show.

ghost use Rattle.std.specs.Prelude.{◌≡◌};
ghost use Rattle.cache_policy.specs.declared.life.Limits.{Limits};

use std::marker::{Brand, Model};
use std::sync::ledger::{Ledger, Share};

/// The ledger of the marks. Its type also names the lifetimes by which they were made, as that of a
/// lock shows nothing of what is under it.
pub trait Marks: Ledger {
    ghost limits: { Limits };
}

// Each use of a brand picks its own ghosts, so these numbers are nobody's.
impl Marks for Brand {
    ghost limits = { record { ttl = 0; max = 0; ttl_ssh = 0; max_ssh = 0 } };
}

/// What one worker's turns came to.
#[derive(Clone, Copy, PartialEq, Eq)]
pub struct Counts {
    /// How many of them made a mark.
    pub calls: u64,
    /// How many of them were replied Given.
    pub given: u64,
    /// How many of them were replied Empty.
    pub empty: u64,
    /// How many of them were replied Open.
    pub opened: u64,
}

/// A worker's right to take turns: one part of each ledger. Contracts see its counts.
#[derive(Drop)]
pub struct Pass<M: Ledger, G: Ledger, E: Ledger, O: Ledger> {
    pub(crate) counts: Counts,
    pub(crate) calls: Share<M>,
    pub(crate) given: Share<G>,
    pub(crate) empty: Share<E>,
    pub(crate) opened: Share<O>,
}

impl<M: Ledger, G: Ledger, E: Ledger, O: Ledger> Model for Pass<M, G, E, O> {
    ghost use Rattle.std.specs.Prelude.{◌≡◌};
    ghost use Rattle.agent_lock.specs.declared.pass.Counts.{Counts};

    ghost Value = { Counts };

    ghost view = { λ pass. pass.counts };

    ghost invariant = { λ pass. record {
      parts : (pass.calls.parts ≡ 1) × (pass.given.parts ≡ 1) × (pass.empty.parts
          ≡ 1) × (pass.opened.parts ≡ 1);
      amounts : (pass.calls.amount ≡ pass.counts.calls) × (pass.given.amount
          ≡ pass.counts.given) × (pass.empty.amount ≡ pass.counts.empty) × (pass.opened.amount
          ≡ pass.counts.opened);
    } };
}

impl<M: Ledger, G: Ledger, E: Ledger, O: Ledger> Pass<M, G, E, O> {
    /// How many marks it made.
    pub fn calls(&self) -> u64
        ensures { result ≡ self.now.calls }
    {
        self.counts.calls
    }

    /// How many of its turns were answered Given.
    pub fn given(&self) -> u64
        ensures { result ≡ self.now.given }
    {
        self.counts.given
    }

    /// How many of its turns were answered Empty.
    pub fn empty(&self) -> u64
        ensures { result ≡ self.now.empty }
    {
        self.counts.empty
    }

    /// How many of its turns were answered Open.
    pub fn opened(&self) -> u64
        ensures { result ≡ self.now.opened }
    {
        self.counts.opened
    }
}
