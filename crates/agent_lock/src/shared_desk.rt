//! A session's desk (cache handle) over the lock. A turn takes the lock, reads the clock under it,
//! steps the core and wakes who waits; a step that has to stand waits there, a second at most, and
//! is tried again. Begin with `turn`; each try is an `IsAttempt` of `specs/Attempts`.

ghost use Rattle.std.specs.Prelude.{◌≡◌, None, IfErr, refl};
ghost use Rattle.cache_policy.specs.Turns.{asked_step, turn_of, out_after, FitsStep};
ghost use Rattle.agent_core.specs.Openings.{opening_step};
ghost use Rattle.agent_lock.specs.Attempts.{IsAttempt, at_lock, ticket_after};

use crate::{Locked, Marks, Pass, Shared};
use agent_core::{Opening, without_wait};
use agent_ports::{Clock, SessionId};
use cache_policy::{Desk, Refused, Reply, Step, Wait as SeatWait};
use std::marker::Model;
use std::sync::Wait;
use std::sync::ledger::Ledger;
use std::time;
use std::time::Duration;

/// A desk over the lock, for the turns of one session. It shows no run, and the lifetimes that the
/// ledger's type names.
///
/// Contracts see the pass's counts, the session, the ticket that it has, and the clock.
#[derive(Drop)]
pub struct SharedDesk<
    'a,
    W: Wait + time::Clock,
    C: Clock,
    M: Marks,
    G: Ledger,
    E: Ledger,
    O: Ledger,
> {
    rt: &'a W,
    shared: &'a Shared<M, G, E, O>,
    pass: Pass<M, G, E, O>,
    session: SessionId,
    /// The ticket that the session has.
    out: Option<u64>,
    clock: C,
}

impl<'a, W: Wait + time::Clock, C: Clock, M: Marks, G: Ledger, E: Ledger, O: Ledger> Model
    for SharedDesk<'a, W, C, M, G, E, O> {
    ghost use Rattle.agent_core.specs.Openings.{opening_step};
    ghost use Rattle.agent_lock.specs.Attempts.{AtSharedDesk};

    ghost Value = { AtSharedDesk C };

    ghost view = { λ desk.
        record { counts = desk.pass; session = desk.session; out = desk.out; clock = desk.clock } };
}

impl<'a, W: Wait + time::Clock, C: Clock, M: Marks, G: Ledger, E: Ledger, O: Ledger> SharedDesk<
    'a,
    W,
    C,
    M,
    G,
    E,
    O,
> {
    /// The desk of a session that has no ticket, whose turns are counted by this pass.
    pub fn new(
        rt: &'a W,
        shared: &'a Shared<M, G, E, O>,
        pass: Pass<M, G, E, O>,
        session: SessionId,
        clock: C,
    ) -> Self
        ensures { result ≡ record { counts = pass; session = session; out = None; clock = clock } }
    {
        SharedDesk {
            rt,
            shared,
            pass,
            session,
            out: None,
            clock,
        }
    }

    /// The pass, with the counts of these turns.
    pub fn into_pass(self) -> Pass<M, G, E, O>
    where
        C: Drop,
        ensures { result ≡ self.entry.counts }
    {
        let SharedDesk { pass, .. } = self;
        pass
    }

    /// Tries a step once, under the lock.
    fn attempt(&mut self, locked: &mut Locked<M, G, E, O>, step: Step) -> Result<Reply, Refused>
        ensures attempt { IsAttempt (C.readings self.old.clock) (C.readings self.new.clock)
            self.old.counts self.new.counts (asked_step step) (turn_of result) }
        ensures out { self.new.out ≡ out_after self.old.out (asked_step step) (turn_of result) }
        ensures session { self.new.session ≡ self.old.session }
        ensures back { IfErr result (λ refused. refused.step ≡ step) }
    {
        let closes = matches!(&step, Step::Close { .. });
        let reading = self.clock.now();
        let answer = locked.step(&mut self.pass, reading, self.session, step);
        self.out = out_then(self.out, closes, &answer);
        answer
    }

    /// Tries a step once more that had to stand. What it was given for that isn't handed back.
    fn try_again(
        &mut self,
        locked: &mut Locked<M, G, E, O>,
        opening: &Opening,
        stood: SeatWait,
    ) -> Result<Reply, Refused>
        ensures attempt { IsAttempt
            (C.readings self.old.clock) (C.readings self.new.clock) self.old.counts self.new.counts
            (asked_step (opening_step opening.now None)) (turn_of result) }
        ensures out { self.new.out ≡ out_after self.old.out
            (asked_step (opening_step opening.now None)) (turn_of result) }
        ensures session { self.new.session ≡ self.old.session }
        ensures back { IfErr result (λ refused. refused.step ≡ opening_step opening.now None) }
    {
        match self.attempt(locked, opening.step(Some(stood))) {
            Err(Refused { step }) => Err(Refused {
                step: without_wait(step),
            }),
            other => other,
        }
    }
}

/// The ticket that the session has after a turn, whose step is a Close or isn't.
fn out_then(out: Option<u64>, closes: bool, reply: &Result<Reply, Refused>) -> Option<u64>
    ensures { result ≡ ticket_after out closes (turn_of reply.now) }
{
    match reply {
        Err(_) => out,
        Ok(Reply::Open(ticket)) => Some(ticket.number()),
        Ok(_) if closes => None,
        Ok(_) => out,
    }
}

impl<'a, W: Wait + time::Clock, C: Clock, M: Marks, G: Ledger, E: Ledger, O: Ledger> Desk
    for SharedDesk<'a, W, C, M, G, E, O> {
    ghost at = { λ desk. at_lock M.limits desk.session desk.out };

    ghost turned = { λ before asked turn after. IsAttempt (C.readings before.clock)
        (C.readings after.clock) before.counts after.counts asked turn × FitsStep asked turn
        × (after.session ≡ before.session) × (after.out ≡ out_after before.out asked turn) };

    /// Where the reply is Stand, it tries again once another turn was taken, or a second has
    /// passed.
    fn turn(&mut self, step: Step) -> Result<Reply, Refused> {
        let (rt, shared) = (self.rt, self.shared);
        let opening = Opening::of(&step);
        let mut locked = shared.lock.lock(rt);
        let mut stood = match self.attempt(&mut locked, step) {
            Ok(Reply::Stand(stood)) => stood,
            other => {
                drop(locked);
                shared.changed.notify_all();
                return other;
            }
        };
        let Some(opening) = opening else {
            unreachable!()
        };
        for _ in rt.forever() {
            let second = Duration::from_secs(1);
            locked = shared.changed.wait_timeout(rt, locked, second).0;
            match self.try_again(&mut locked, &opening, stood) {
                Ok(Reply::Stand(still)) => stood = still,
                other => {
                    drop(locked);
                    shared.changed.notify_all();
                    return other;
                }
            }
        }
        unreachable!()
    }

    ghost promise = { λ before asked turn after does.
        record { fits = does.1; run = tt; limits = refl; session = does.2; out = does.3 } };
}
