//! The desk (cache handle) of a lone session, over a core that keeps its run: that of the agent as
//! a server on standard input and output, and of tests, whose script has others take steps at it.
//! It owns the core, and reads the clock that it was lent once a try; where it would wait it goes
//! on with the script. Begin with `turn`, and with `SoloTurn` of `specs/Solos`.

ghost use Rattle.std.specs.Prelude.{◌≡◌, true, false, None, Some, IsSome, IfSome, IfOk, IfErr};
ghost use Rattle.std.specs.Option.{is_some};
ghost use Rattle.cache_policy.specs.declared.mark.MarkStep.{MarkStep as AskedStep};
ghost use Rattle.cache_policy.specs.{declared.step.Step.Step as AskedOf, Histories.run_of};
ghost use Rattle.cache_policy.specs.Turns.{asked_step, mark_step, turn_of, opens, closes};
ghost use Rattle.cache_policy.specs.Turns.{out_after, with_since};
ghost use Rattle.agent_core.specs.Openings.{opening_step, without_wait};
ghost use Rattle.agent_core.specs.Stepped.{turn_of_stepped, IsSettled, HandsBack};
ghost use Rattle.agent_core.specs.Foreigners.{opened};

use crate::cache_core::give_up;
use crate::foreign::{Foreign, ForeignStep};
use crate::holder::{Holder, told_step};
use crate::known_core::{KnownCore, is_close};
use crate::opening::Opening;
use crate::stepped::{Stepped, without_wait};
use agent_ports::{Clock, LentClock, SessionId};
use cache_policy::{Desk, History, Limits, NoMemory, Refused, Reply, Step, Tally, Wait};
use prompt_seat::{Seat, Ticket};
use std::alloc::Global;
use std::marker::Model;

/// A desk in memory, whose run is known. Other sessions take the steps of a script at it: the first
/// list before the first turn, the next one before the second, and so on.
///
/// While the own step would have to wait for the seat, it takes further lists, and after the last
/// one it takes the ticket back from the session that has it. A step that has waited for 60 seconds
/// is answered. It isn't dropped, but ended by `end`.
pub struct Solo<'a, C: Clock> {
    known: KnownCore,
    clock: LentClock<'a, C>,
    session: SessionId,
    // The number of the ticket that the session has.
    out: Option<u64>,
    // The other session that has a ticket.
    holder: Option<Holder>,
    // The lists of the script that are still to come, the next one last.
    script: Vec<Vec<Foreign>>,
}

impl<'a, C: Clock> Model for Solo<'a, C> {
    ghost use Rattle.agent_core.specs.Solos.{SoloState};

    ghost Value = { SoloState C };

    ghost use Rattle.agent_core.specs.SoloInside.{lists_of, IsSolo};

    ghost view = { λ solo. record {
      limits = solo.known.limits;
      session = solo.session;
      run = solo.known.run;
      out = solo.out;
      holder = solo.holder;
      script = lists_of solo.script.items;
      clock = solo.clock.clock;
      lent = solo.clock.name;
    } };

    ghost invariant = { λ solo. IsSolo solo.session solo.known.run solo.out solo.holder
        (lists_of solo.script.items) };
}

impl<'a, C: Clock> Solo<'a, C> {
    ghost use Rattle.std.specs.{Prelude.{◌∷◌, [], map}, List.AllByRecursion};
    ghost use Rattle.{agent_ports.specs.Leads.Leads, cache_policy.specs.Desks.is_of};
    ghost use Rattle.cache_policy.specs.{Replay.first_history, Runs.joined, Waits.is_session};
    ghost use Rattle.agent_core.specs.{Foreigners.{AllForeign, IsForeign}, Seating.Seated};
    ghost use Rattle.agent_core.specs.Tallies.{tally_of};
    ghost use Rattle.agent_core.specs.Solos.{seen, OwnStep, PlaysStep, PlaysNext, ClosesHolder};
    ghost use Rattle.agent_core.specs.Solos.{Waits};

    /// A desk whose cache is empty. It takes the memory for the marks of its first history.
    pub fn new(
        alloc: Global,
        limits: Limits,
        clock: &'a mut C,
        session: SessionId,
        script: Vec<Vec<Foreign>>,
    ) -> Result<Self, NoMemory>
        requires { AllForeign session (map (λ list. list.items) script.items) }
        ensures { IfOk result (λ solo. solo ≡ record {
          limits = limits;
          session = session;
          run = first_history ∷ [];
          out = None;
          holder = None;
          script = map (λ list. list.items) script.items;
          clock = clock.old;
          lent = clock.entry.ghost_name;
        }) }
    {
        Ok(Solo::over(KnownCore::new(alloc, limits)?, clock, session, script))
    }

    /// As `new`, over a core that already has its memory. It can't fail, so a caller without memory
    /// never lends its clock.
    pub fn over(
        known: KnownCore,
        clock: &'a mut C,
        session: SessionId,
        mut script: Vec<Vec<Foreign>>,
    ) -> Self
        requires fresh { known.run ≡ first_history ∷ [] }
        requires foreign { AllForeign session (map (λ list. list.items) script.items) }
        ensures { result ≡ record {
          limits = known.limits;
          session = session;
          run = first_history ∷ [];
          out = None;
          holder = None;
          script = map (λ list. list.items) script.items;
          clock = clock.old;
          lent = clock.entry.ghost_name;
        } }
    {
        script.reverse();
        Solo {
            known,
            clock: LentClock::new(clock),
            session,
            out: None,
            holder: None,
            script,
        }
    }

    /// The further turns are those of this session, which took none before and isn't in the script.
    pub fn begin_session(&mut self, session: SessionId)
        requires free { self.old.out ≡ None }
        requires foreign { AllForeign session self.old.script }
        requires other { IfSome self.old.holder
            (λ holder. is_session session holder.session ≡ false) }
        requires new { AllByRecursion (λ mark. is_of session mark ≡ false) (joined self.old.run) }
        ensures { self.new ≡ record self.old { session = session } }
    {
        self.session = session;
    }

    /// The run, the present history last.
    pub fn histories(&self) -> &[History]
        ensures { run_of result.now ≡ self.now.run }
    {
        self.known.histories()
    }

    /// What the marks of the run come to.
    pub fn tally(&self) -> Tally
        ensures { result ≡ tally_of self.now.limits self.now.run }
    {
        self.known.tally()
    }

    /// Ends the desk, and gives its clock back. A ticket that another session still has is given up
    /// without a mark.
    pub fn end(self) -> &'a mut C
        ensures clock { result.now ≡ self.entry.clock }
        ensures lent { result.ghost_name ≡ self.entry.lent }
    {
        let Solo {
            known: _,
            clock,
            session: _,
            out: _,
            holder,
            script: _,
        } = self;
        if let Some(Holder { session: _, ticket }) = holder {
            let _ = Seat::new().give(ticket);
        }
        clock.into_clock()
    }

    /// Takes the own step, with one reading of the clock.
    fn attempt(&mut self, step: Step) -> Stepped
        requires free { opens (asked_step step) ≡ true → self.old.out ≡ None }
        requires own { IfSome (closes (asked_step step)) (λ number. self.old.out ≡ Some number) }
        ensures step { OwnStep (seen C.readings self.old) (mark_step self.old.session step)
            (turn_of_stepped result) (seen C.readings self.new) }
        ensures back { HandsBack step result }
        ensures seated { Seated self.new.run self.new.out self.new.holder }
        ensures lent { self.new.lent ≡ self.old.lent }
    {
        let gives_back = is_close(&step);
        let reading = self.clock.now();
        let outcome = self.known.step(reading, self.session, step);
        self.out = out_after(self.out, gives_back, &outcome);
        outcome
    }

    /// Takes a step of another session, with one reading of the clock.
    fn play_step(&mut self, foreign: Foreign)
        requires { IsForeign self.old.session foreign }
        ensures step { PlaysStep (seen C.readings self.old) foreign (seen C.readings self.new) }
        ensures seated { Seated self.new.run self.new.out self.new.holder }
        ensures lent { self.new.lent ≡ self.old.lent }
    {
        let Foreign { session, step } = foreign;
        let Some(step) = told_step(&mut self.holder, session, step) else {
            return;
        };
        let reading = self.clock.now();
        let outcome = self.known.step(reading, session, step);
        if let Some(ticket) = into_ticket(outcome) {
            match self.holder.replace(Holder { session, ticket }) {
                None => {}
                Some(_) => unreachable!(),
            }
        }
    }

    /// Takes the steps of a list.
    fn play(&mut self, list: Vec<Foreign>)
        requires { AllByRecursion (IsForeign self.old.session) list.items }
        ensures steps { Leads PlaysStep (seen C.readings self.old) list.items
            (seen C.readings self.new) }
        ensures lent { self.new.lent ≡ self.old.lent }
    {
        for foreign in list {
            self.play_step(foreign);
        }
    }

    /// Takes the next list of the script, if there is one.
    fn play_next(&mut self) -> bool
        ensures next { PlaysNext (seen C.readings self.old) result (seen C.readings self.new) }
        ensures lent { self.new.lent ≡ self.old.lent }
    {
        match self.script.pop() {
            Some(list) => {
                self.play(list);
                true
            }
            None => false,
        }
    }

    /// Takes the ticket back from the other session that has it, and keeps nothing.
    fn close_holder(&mut self)
        requires held { IsSome self.old.holder }
        ensures closes { ClosesHolder (seen C.readings self.old) (seen C.readings self.new) }
        ensures seated { Seated self.new.run self.new.out self.new.holder }
        ensures lent { self.new.lent ≡ self.old.lent }
    {
        let Some(holder) = &self.holder else {
            unreachable!()
        };
        let session = holder.session;
        let step = ForeignStep::CloseHeld { keep: None };
        self.play_step(Foreign { session, step });
    }

    /// Takes a step again that had to stand: behind each further list, and at last when the ticket
    /// was given back. Each try hands in what the one before was given.
    fn wait(&mut self, opening: Opening, first: Wait) -> Result<Reply, Refused>
        requires own { first.session ≡ self.old.session }
        requires free { self.old.out ≡ None }
        requires held { IsSome self.old.holder }
        ensures waits { Waits
            (with_since (Some first.since) (asked_step (opening_step opening None)))
            (seen C.readings self.old) (turn_of result) (seen C.readings self.new) }
        ensures refused { IfErr result (λ refused. refused.step ≡ opening_step opening None) }
        ensures settled { IsSettled (turn_of result) }
        ensures lent { self.new.lent ≡ self.old.lent }
    {
        let mut wait = first;
        while self.play_next() {
            match self.attempt(opening.step(Some(wait))) {
                Stepped::Stood(_, again) => wait = again,
                outcome => return settled(outcome),
            }
        }
        self.close_holder();
        settled(self.attempt(opening.step(Some(wait))))
    }
}

impl<'a, C: Clock> Desk for Solo<'a, C> {
    ghost use Rattle.agent_core.specs.Solos.{SoloTurn, seen, at_desk};

    ghost at = { λ solo. at_desk (seen C.readings solo) };

    ghost turned = { λ before asked turn after. SoloTurn C.readings before asked turn after };

    fn turn(&mut self, step: Step) -> Result<Reply, Refused> {
        self.play_next();
        match self.attempt(step) {
            Stepped::Stood(opening, wait) => self.wait(opening, wait),
            outcome => settled(outcome),
        }
    }

    ghost promise = { λ before asked turn after does. does.turns.is };
}

/// A step that didn't stand, as its reply.
fn settled(outcome: Stepped) -> Result<Reply, Refused>
    requires { IsSettled (turn_of_stepped outcome) }
    ensures turn { turn_of result ≡ turn_of_stepped outcome }
    ensures back { (asked : AskedOf) → HandsBack asked outcome
        → IfErr result (λ refused. refused.step ≡ without_wait asked) }
{
    match outcome {
        Stepped::Replied(reply) => Ok(reply),
        Stepped::Refused(step) => Err(Refused {
            step: without_wait(step),
        }),
        _ => unreachable!(),
    }
}

/// The number of the ticket that the session has after a step.
fn out_after(out: Option<u64>, gives_back: bool, outcome: &Stepped) -> Option<u64>
    ensures { (asked : AskedStep) → gives_back ≡ is_some (closes asked)
        → result ≡ out_after out asked (turn_of_stepped outcome.now) }
{
    match outcome {
        Stepped::Refused(_) => out,
        Stepped::Replied(Reply::Open(ticket)) => Some(ticket.number()),
        _ => { if gives_back { None } else { out } }
    }
}

/// The ticket that a step was given. What else it came to ends here.
fn into_ticket(outcome: Stepped) -> Option<Ticket>
    ensures { result ≡ opened (turn_of_stepped outcome) }
{
    match outcome {
        Stepped::Replied(reply) => match reply {
            Reply::Open(ticket) => Some(ticket),
            Reply::Given(_) => None,
            Reply::Empty => None,
            Reply::Stand(_) => None,
            Reply::Late => None,
            Reply::Done => None,
            Reply::Held(_) => None,
            Reply::Stopping => None,
        },
        Stepped::Stood(_, _) => None,
        Stepped::Refused(step) => {
            give_up(step);
            None
        }
    }
}
