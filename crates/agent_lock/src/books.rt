//! The totals of four ledgers, which tie what the passes (workers' tokens) counted to what the
//! journal has. It is worked on under the lock alone: counting raises a total and a pass's share of
//! it together. Begin with `Books::count`; at the end `Books::close` has all shares, and so the
//! sums (`specs/Shares`).

ghost use Rattle.std.specs.Prelude.{◌≡◌, [], Ok, vec_len};
ghost use Rattle.cache_policy.specs.Turns.{turn_of};
ghost use Rattle.agent_lock.specs.{Closings.AreSums, Counting.{counted, AreSmall}};
ghost use Rattle.agent_lock.specs.Shares.{AreNone, AreShares};

use crate::Pass;
use cache_policy::Reply;
use std::marker::Model;
use std::sync::ledger::{Book, Ledger, Share};

/// The totals of the four ledgers: of the marks, and of the turns that were answered Given, Empty
/// and Open. Contracts see these.
#[derive(Drop)]
pub struct Books<M: Ledger, G: Ledger, E: Ledger, O: Ledger> {
    pub(crate) calls: Book<M>,
    pub(crate) given: Book<G>,
    pub(crate) empty: Book<E>,
    pub(crate) opened: Book<O>,
    /// What the passes left of each ledger: no part. The shares of the passes are gathered in it.
    pub(crate) left: Shares<M, G, E, O>,
}

impl<M: Ledger, G: Ledger, E: Ledger, O: Ledger> Model for Books<M, G, E, O> {
    ghost use Rattle.agent_lock.specs.declared.pass.Counts.{Counts};

    ghost Value = { Counts };

    ghost use Rattle.agent_lock.specs.Shares.{AreNone};

    ghost view = { λ books. record {
      calls = books.calls.total;
      given = books.given.total;
      empty = books.empty.total;
      opened = books.opened.total;
    } };

    ghost invariant = { λ books. AreNone books.left };
}

impl<M: Ledger, G: Ledger, E: Ledger, O: Ledger> Books<M, G, E, O> {
    /// Counts a turn for a pass. A spent core replies Stopping without a mark.
    pub(crate) fn count(&mut self, pass: &mut Pass<M, G, E, O>, spent: bool, reply: &Reply)
        requires { AreSmall self.old }
        ensures books { self.new ≡ counted spent self.old (turn_of (Ok reply.now)) }
        ensures pass { pass.new ≡ counted spent pass.old (turn_of (Ok reply.now)) }
    {
        match reply {
            Reply::Stand(_) => return,
            Reply::Stopping if spent => return,
            Reply::Given(_) => {
                self.given.audit(&mut pass.given);
                self.given.add(&mut pass.given, 1);
                pass.counts.given += 1;
            }
            Reply::Empty => {
                self.empty.audit(&mut pass.empty);
                self.empty.add(&mut pass.empty, 1);
                pass.counts.empty += 1;
            }
            Reply::Open(_) => {
                self.opened.audit(&mut pass.opened);
                self.opened.add(&mut pass.opened, 1);
                pass.counts.opened += 1;
            }
            Reply::Done | Reply::Held(_) | Reply::Stopping | Reply::Late => {}
        }
        self.calls.audit(&mut pass.calls);
        self.calls.add(&mut pass.calls, 1);
        pass.counts.calls += 1;
    }

    /// Whoever has all passes learns that the totals are the sums of their counts.
    pub(crate) fn close(self, passes: Vec<Pass<M, G, E, O>>)
        requires { (vec_len passes ≡ M.parts) × (vec_len passes ≡ G.parts)
            × (vec_len passes ≡ E.parts) × (vec_len passes ≡ O.parts) }
        ensures { AreSums self passes.items }
    {
        let Books {
            mut calls,
            mut given,
            mut empty,
            mut opened,
            left,
        } = self;
        let mut all = left.gather(passes);
        calls.audit(&mut all.calls);
        given.audit(&mut all.given);
        empty.audit(&mut all.empty);
        opened.audit(&mut all.opened);
    }
}

/// Shares of each ledger.
#[derive(Drop)]
pub(crate) struct Shares<M: Ledger, G: Ledger, E: Ledger, O: Ledger> {
    pub(crate) calls: Share<M>,
    pub(crate) given: Share<G>,
    pub(crate) empty: Share<E>,
    pub(crate) opened: Share<O>,
}

impl<M: Ledger, G: Ledger, E: Ledger, O: Ledger> Shares<M, G, E, O> {
    /// Adds the shares of all passes to none.
    fn gather(self, mut passes: Vec<Pass<M, G, E, O>>) -> Self
        requires { AreNone self }
        ensures { AreShares result [] passes.items }
    {
        let mut all = self;
        while let Some(
            Pass {
                counts: _,
                calls,
                given,
                empty,
                opened,
            },
        ) = passes.pop()
        {
            all.calls.merge(calls);
            all.given.merge(given);
            all.empty.merge(empty);
            all.opened.merge(opened);
        }
        all
    }
}
