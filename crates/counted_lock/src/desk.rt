//! A session's desk (cache handle) at the counted lock. A turn draws a number, reads the clock and
//! steps the core while it has it, and wakes others where they may go on; a step that has to stand
//! is tried again by a new number. Begin with `turn`, and with `CountedTurn` of `specs/Turns`.

ghost use Rattle.std.specs.Prelude.{◌≡◌, ◌+◌, ◌<◌, ◌≤◌, ◌^◌, ◌-◌, true, None, Some, IfErr};
ghost use Rattle.std.specs.Option.{is_some};
ghost use Rattle.cache_policy.specs.declared.mark.{MarkStep.MarkStep as AskedStep, Mark.Mark};
ghost use Rattle.cache_policy.specs.declared.life.Limits.{Limits};
ghost use Rattle.cache_policy.specs.Turns.{asked_step, mark_step, turn_of, closes, out_after};
ghost use Rattle.cache_policy.specs.{Turns.{since_of, with_since}, Histories.History};
ghost use Rattle.agent_core.specs.Openings.{opening_step};
ghost use Rattle.counted_lock.specs.{Waking.EndsStand, Turns.{CountedTurn, at_counted}};
ghost use Rattle.counted_lock.specs.Trying.{TriesAt};

use crate::{Counted, CountedPass};
use agent_core::{Opening, without_wait};
use agent_ports::{Clock, SessionId};
use cache_policy::{Desk, Refused, Reply, Step, Wait as SeatWait};
use std::marker::Model;
use std::sync::Wait;
use std::time;

/// A desk over the lock, for the turns of one session. Its run is known: it is the one that all
/// passes have marks in, so far as the pass has seen it.
#[derive(Drop)]
pub struct CountedDesk<'a, W: Wait + time::Clock, C: Clock> {
    rt: &'a W,
    counted: &'a Counted,
    pass: CountedPass,
    session: SessionId,
    /// The ticket that the session has.
    out: Option<u64>,
    clock: C,
}

impl<'a, W: Wait + time::Clock, C: Clock> Model for CountedDesk<'a, W, C> {
    ghost use Rattle.std.specs.Prelude.{◌≡◌, ◌+◌};
    ghost use Rattle.counted_lock.specs.Turns.{AtCountedDesk};

    ghost Value = { AtCountedDesk C };

    ghost view = { λ desk.
        record { pass = desk.pass; session = desk.session; out = desk.out; clock = desk.clock } };

    ghost invariant = { λ desk. record {
      own : desk.pass.table ≡ desk.counted.now.table;
      by : desk.session.pass ≡ desk.pass.number;
      last : desk.pass.sessions ≡ desk.session.count + 1;
    } };
}

impl<'a, W: Wait + time::Clock, C: Clock> CountedDesk<'a, W, C> {
    /// A desk for a session that has the pass's number, and a count that no session of the pass had
    /// before.
    pub fn new(
        rt: &'a W,
        counted: &'a Counted,
        mut pass: CountedPass,
        session: SessionId,
        clock: C,
    ) -> Self
        requires own { pass.table ≡ counted.now.table }
        requires by { session.pass ≡ pass.number }
        requires later { pass.sessions ≤ session.count }
        requires numbered { session.count < 2 ^ 64 - 1 }
        ensures { result ≡ record {
          pass = record pass { sessions = session.count + 1 };
          session = session;
          out = None;
          clock = clock;
        } }
    {
        pass.sessions = session.count + 1;
        CountedDesk {
            rt,
            counted,
            pass,
            session,
            out: None,
            clock,
        }
    }

    /// The pass, which has seen these turns.
    pub fn into_pass(self) -> CountedPass
    where
        C: Drop,
        ensures { result ≡ self.entry.pass }
    {
        let CountedDesk { pass, .. } = self;
        pass
    }

    /// Tries a step once, in the monitor.
    fn attempt(&mut self, step: Step) -> Result<Reply, Refused>
        ensures tries { TriesAt C.readings self.old (asked_step step)
            (mark_step self.old.session step) (turn_of result) self.new }
        ensures back { IfErr result (λ refused. refused.step ≡ step) }
    {
        let gives_back = is_close(&step);
        let answer = self.counted.attempt(
            self.rt,
            &mut self.pass,
            &mut self.clock,
            self.session,
            step,
        );
        self.out = out_then(self.out, gives_back, &answer);
        answer
    }

    /// Tries a step once more that had to stand. What it was given for that isn't handed back.
    fn try_again(&mut self, opening: &Opening, stood: SeatWait) -> Result<Reply, Refused>
        requires { stood.session ≡ self.old.session }
        ensures tries { TriesAt C.readings self.old (asked_step (opening_step opening.now None))
            (with_since (Some stood.since) (asked_step (opening_step opening.now None)))
            (turn_of result) self.new }
        ensures back { IfErr result (λ refused. refused.step ≡ opening_step opening.now None) }
    {
        match self.attempt(opening.step(Some(stood))) {
            Err(Refused { step }) => Err(Refused {
                step: without_wait(step),
            }),
            other => other,
        }
    }
}

fn is_close(step: &Step) -> bool
    ensures { result ≡ is_some (closes (asked_step step.now)) }
{
    matches!(step, Step::Close { .. })
}

/// Whether a step may let another go on that stands: it frees the seat, ends the agent, or stores
/// what is asked for.
fn may_end_stands(step: &Step) -> bool
    ensures { (limits : Limits) (history : History) (mark : Mark)
        → mark.step ≡ with_since (since_of mark.step) (asked_step step.now)
        → EndsStand limits history mark → result ≡ true }
{
    matches!(step, Step::Close { .. } | Step::Stop | Step::Put { .. })
}

/// The ticket that the session has after a turn, whose step is a Close or isn't.
fn out_then(out: Option<u64>, gives_back: bool, answer: &Result<Reply, Refused>) -> Option<u64>
    ensures { (asked : AskedStep) → gives_back ≡ is_some (closes asked)
        → result ≡ out_after out asked (turn_of answer.now) }
{
    match answer {
        Err(_) => out,
        Ok(Reply::Open(ticket)) => Some(ticket.number()),
        Ok(_) => { if gives_back { None } else { out } }
    }
}

impl<'a, W: Wait + time::Clock, C: Clock> Desk for CountedDesk<'a, W, C> {
    ghost at = { λ desk. at_counted desk.pass desk.session desk.out };

    ghost turned = { λ before asked turn after. CountedTurn C.readings before asked turn after };

    /// Where the reply is Stand, it draws a new number once a turn may have ended that, or a second
    /// has passed, and tries again.
    fn turn(&mut self, step: Step) -> Result<Reply, Refused> {
        let (rt, counted) = (self.rt, self.counted);
        let monitor = &counted.monitor;
        let opening = Opening::of(&step);
        let wakes = may_end_stands(&step);
        let mut entered = monitor.enter(rt);
        let mut stood = match self.attempt(step)? {
            Reply::Stand(stood) => stood,
            reply => {
                drop(entered);
                if wakes {
                    monitor.wake();
                }
                return Ok(reply);
            }
        };
        let Some(opening) = opening else {
            unreachable!()
        };
        for _ in rt.forever() {
            entered = monitor.wait(rt, entered);
            match self.try_again(&opening, stood)? {
                Reply::Stand(still) => stood = still,
                reply => return Ok(reply),
            }
        }
        unreachable!()
    }

    ghost promise = { λ before asked turn after does. does.is };
}
