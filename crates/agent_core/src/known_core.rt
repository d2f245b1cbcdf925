//! A core with its whole run beside it, so that contracts can speak of each mark (log entry) with
//! its secrets. It works on its own memory, and reserves a history's room before the step that
//! needs it: a step that was taken always has its mark. Begin with `KnownCore::step`; `TakesStep`
//! of `specs/Known` says what it does.

ghost use Rattle.std.specs.Prelude.{◌≡◌, ◌+◌, ◌<◌, ◌∷◌, [], true, None, Ok, IsSome, IfSome, OnOk};
ghost use Rattle.std.specs.{Prelude.{OnErr, IfOk, vec_len, vec_capacity}, Option.is_some};
ghost use Rattle.cache_policy.specs.declared.bounds.TheConstants.{MAX_MARKS};
ghost use Rattle.cache_policy.specs.declared.step.Step.{Step as AskedOf};
ghost use Rattle.cache_policy.specs.Histories.{History as OneHistory, run_of};
ghost use Rattle.cache_policy.specs.{Legal.{IsLegal, IsLegalRun}, Policy.policy};
ghost use Rattle.cache_policy.specs.Replay.{first_history};
ghost use Rattle.cache_policy.specs.Runs.{last_base, moment_of, next_history, run_with_mark};
ghost use Rattle.cache_policy.specs.Turns.{Stand, mark_step, turn_of, closes, FitsReply};
ghost use Rattle.agent_ports.specs.declared.session.SessionId.{SessionId as Session};
ghost use Rattle.agent_core.specs.Adding.{CanAdd, begun, added, next_start, HasPlace};
ghost use Rattle.agent_core.specs.Adding.{comes_to_seat, leaves_ticket, needs_room};
ghost use Rattle.agent_core.specs.Cores.{StandsFor, mark_of};
ghost use Rattle.agent_core.specs.Openings.{opening_step, without_wait};
ghost use Rattle.agent_core.specs.Recording.{IsRoom, LastHasRoom, reply_of};
ghost use Rattle.agent_core.specs.Stepped.{turn_of_stepped, HandsBack};

use crate::Core;
use crate::cache_core::give_up;
use crate::opening::Opening;
use crate::stepped::{Stepped, mark_step_of};
use crate::tally::counted;
use agent_ports::SessionId;
use cache_policy::{
    Held, History, Limits, MAX_MARKS, Mark, MarkReply, MarkStep, Marks, NoMemory, Refused, Reply,
    Step, Tally, Wait,
};
use std::alloc::Global;
use std::marker::Model;

/// A core that keeps its run. The room for the marks of a history is reserved when that begins, and
/// not touched.
#[derive(Drop)]
pub struct KnownCore {
    core: Core,
    histories: Vec<History>,
    // The room for the next history, where it had to be reserved already.
    next: Option<Vec<Mark>>,
    // What the marks come to, but for whether the core has stopped.
    tally: Tally,
    alloc: Global,
}

impl Model for KnownCore {
    ghost use Rattle.agent_core.specs.Known.{AtKnown};

    ghost Value = { AtKnown };

    ghost use Rattle.cache_policy.specs.Histories.{run_of};
    ghost use Rattle.agent_core.specs.Keeping.{IsKnown};

    ghost view = { λ known.
        record { limits = known.core.limits; run = run_of known.histories.items } };

    ghost invariant = { λ known. IsKnown known.core known.histories known.next known.tally };
}

/// How the next history begins.
#[derive(Drop)]
pub(crate) struct Start {
    pub(crate) base: u64,
    pub(crate) held: Option<Held>,
    pub(crate) stopped: bool,
}

impl KnownCore {
    ghost use Rattle.agent_core.specs.{Known.{IsOut, next_moment, TakesStep}, Tallies.tally_of};

    /// A core without entries, whose run has one history without marks. It reserves the room for
    /// them.
    pub fn new(alloc: Global, limits: Limits) -> Result<KnownCore, NoMemory>
        ensures { IfOk result
            (λ known. known ≡ record { limits = limits; run = first_history ∷ [] }) }
    {
        let mut histories = Vec::with_capacity(alloc, 1)?;
        let marks = Vec::with_capacity(alloc, MAX_MARKS as usize)?;
        histories.push_reserved(History {
            base: 0,
            held: None,
            stopped: false,
            marks: Marks(marks),
        });
        Ok(KnownCore {
            core: Core::new(alloc, limits),
            histories,
            next: None,
            tally: Tally::new(),
            alloc,
        })
    }

    /// Takes a step of a session, with this reading of the clock.
    pub(crate) fn step(&mut self, reading: u64, session: SessionId, step: Step) -> Stepped
        requires own { IfSome (closes (mark_step session step)) (IsOut self.old.run) }
        ensures takes { TakesStep self.old.limits self.old.run session
            (next_moment self.old.run reading) (mark_step session step)
            (turn_of_stepped result) self.new.run }
        ensures fits { FitsReply (mark_step session step) (turn_of_stepped result) }
        ensures back { HandsBack step result }
        ensures limits { self.new.limits ≡ self.old.limits }
        ensures was_legal { IsLegalRun self.old.limits self.old.run }
        ensures legal { IsLegalRun self.new.limits self.new.run }
    {
        if self.core.spent() {
            give_up(step);
            return Stepped::Replied(Reply::Stopping);
        }
        let needs = needs_room(&self.core, reading, session, &step);
        if room_for(needs, &mut self.histories, &mut self.next, self.alloc).is_err() {
            return Stepped::Refused(step);
        }
        let start = start_after(&self.core);
        let opening = Opening::of(&step);
        let asked = mark_step_of(session, &step);
        let stores = self.core.stores(session, &step);
        match self.core.step(reading, session, step) {
            Ok(reply) => match reply {
                Reply::Stand(wait) => {
                    let_go(asked);
                    stood(opening, wait)
                }
                reply => {
                    let mark = mark_of(&self.core, session, asked, &reply);
                    self.tally = counted(self.tally, &mark, stores);
                    add(&mut self.histories, &mut self.next, start, mark);
                    Stepped::Replied(reply)
                }
            },
            Err(Refused { step }) => {
                let_go(asked);
                Stepped::Refused(step)
            }
        }
    }

    /// The run, the present history last.
    pub fn histories(&self) -> &[History]
        ensures { run_of result.now ≡ self.now.run }
    {
        self.histories.as_slice()
    }

    /// What the marks of the run come to.
    pub fn tally(&self) -> Tally
        ensures { result ≡ tally_of self.now.limits self.now.run }
    {
        let stopped = self.core.stopped();
        Tally {
            stopped,
            ..self.tally
        }
    }
}

/// Ends a step that made no mark.
fn let_go(_asked: MarkStep) {}

/// A step that has to stand is handed back.
fn stood(opening: Option<Opening>, wait: Wait) -> Stepped
    requires { IsSome opening }
    ensures turn { turn_of_stepped result ≡ Stand wait }
    ensures back { (asked : AskedOf) → IfSome opening
        (λ opening. opening_step opening None ≡ without_wait asked) → HandsBack asked result }
{
    match opening {
        Some(opening) => Stepped::Stood(opening, wait),
        None => unreachable!(),
    }
}

/// The mark of a step that was replied.
fn mark_of(core: &Core, session: SessionId, step: MarkStep, reply: &Reply) -> Mark
    ensures { result ≡ mark_of session step (reply_of (turn_of (Ok reply.now))) core.now.moment }
{
    Mark {
        session,
        step,
        reply: MarkReply::of(reply).unwrap_or(MarkReply::Done),
        moment: core.moment(),
    }
}

/// How the next history begins, where this one is full.
fn start_after(core: &Core) -> Option<Start>
    requires { core.now.base < last_base }
    ensures { result ≡ next_start core.now }
{
    if core.count() == MAX_MARKS {
        Some(Start {
            base: core.base() + MAX_MARKS,
            held: core.held(),
            stopped: core.stopped(),
        })
    } else {
        None
    }
}

/// Adds a mark to the last history, or to one that begins so.
fn add(histories: &mut Vec<History>, next: &mut Option<Vec<Mark>>, start: Option<Start>, mark: Mark)
    requires { CanAdd start histories.old next.old }
    ensures run { run_of histories.new.items ≡ added start (run_of histories.old.items) mark }
    ensures last { LastHasRoom histories.new.items }
    ensures room { IsRoom histories.new next.new }
    ensures kept { start ≡ None → next.new ≡ next.old }
{
    match start {
        Some(start) => begin_history(histories, next, start, mark),
        None => add_mark(histories, mark),
    }
}

fn begin_history(
    histories: &mut Vec<History>,
    next: &mut Option<Vec<Mark>>,
    start: Start,
    mark: Mark,
)
    requires some { IsSome next.old }
    requires room { IsRoom histories.old next.old }
    ensures run { run_of histories.new.items ≡ begun start (run_of histories.old.items) mark }
    ensures last { LastHasRoom histories.new.items }
    ensures taken { next.new ≡ None }
{
    let Some(mut marks) = next.take() else {
        unreachable!()
    };
    marks.push_reserved(mark);
    let Start {
        base,
        held,
        stopped,
    } = start;
    histories.push_reserved(History {
        base,
        held,
        stopped,
        marks: Marks(marks),
    });
}

fn add_mark(histories: &mut Vec<History>, mark: Mark)
    requires place { HasPlace (run_of histories.old.items) }
    requires last { LastHasRoom histories.old.items }
    ensures run { run_of histories.new.items ≡ run_with_mark (run_of histories.old.items) mark }
    ensures last { LastHasRoom histories.new.items }
    ensures len { vec_len histories.new ≡ vec_len histories.old }
    ensures capacity { vec_capacity histories.new ≡ vec_capacity histories.old }
{
    let Some(mut last) = histories.pop() else {
        unreachable!()
    };
    last.marks.0.push_reserved(mark);
    histories.push_reserved(last);
}

/// Reserves the room for the next history, where it is needed.
fn room_for(
    needs: bool,
    histories: &mut Vec<History>,
    next: &mut Option<Vec<Mark>>,
    alloc: Global,
) -> Result<(), NoMemory>
    requires { IsRoom histories.old next.old }
    ensures ok { OnOk result (needs ≡ true → IsSome next.new) }
    ensures err { OnErr result (needs ≡ true) }
    ensures items { histories.new.items ≡ histories.old.items }
    ensures room { IsRoom histories.new next.new }
    ensures kept { IsSome next.old → IsSome next.new }
{
    if !needs {
        return Ok(());
    }
    reserve_next(histories, next, alloc)
}

fn reserve_next(
    histories: &mut Vec<History>,
    next: &mut Option<Vec<Mark>>,
    alloc: Global,
) -> Result<(), NoMemory>
    requires { IsRoom histories.old next.old }
    ensures ok { OnOk result (IsSome next.new) }
    ensures items { histories.new.items ≡ histories.old.items }
    ensures room { IsRoom histories.new next.new }
    ensures kept { IsSome next.old → IsSome next.new }
{
    if next.is_none() {
        histories.reserve(1)?;
        *next = Some(Vec::with_capacity(alloc, MAX_MARKS as usize)?);
    }
    Ok(())
}

/// Whether a step begins a history while no ticket is out, or makes the last mark of one and leaves
/// a ticket out: the step after it has the room then. A Close does neither.
fn needs_room(core: &Core, reading: u64, session: SessionId, step: &Step) -> bool
    ensures { (history : OneHistory) → IsLegal core.now.limits history
        → StandsFor core.now history → result ≡ needs_room core.now (mark_step session step.now)
        (comes_to_seat (policy core.now.limits (next_history history) (mark_step session step.now)
        (moment_of core.now.moment reading))) }
{
    if is_close(step) {
        return false;
    }
    let count = core.count();
    if count == MAX_MARKS {
        return !core.is_held();
    }
    if count + 1 < MAX_MARKS {
        return false;
    }
    let comes_to_seat = core.comes_to_seat(reading, session, step);
    leaves_ticket(core.is_held(), comes_to_seat)
}

/// Whether a ticket is out after a step that makes a mark and isn't a Close.
fn leaves_ticket(held: bool, comes_to_seat: bool) -> bool
    ensures { result ≡ leaves_ticket held comes_to_seat }
{
    if held { !comes_to_seat } else { comes_to_seat }
}

pub(crate) fn is_close(step: &Step) -> bool
    ensures { (session : Session) → result ≡ is_some (closes (mark_step session step.now)) }
{
    matches!(step, Step::Close { .. })
}
