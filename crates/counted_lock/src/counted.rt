//! The counted lock: a core at which threads take turns in the order of the numbers that they draw.
//! It is shared by `&self`, and the core is in one turn's hands at a time. Begin with
//! `Counted::new`, which makes all passes (workers' tokens), and `Counted::close`; a desk (cache
//! handle) goes by `attempt`, which is `Tries` of `specs/Trying`.

ghost use Rattle.std.specs.Prelude.{◌≡◌, ◌+◌, ◌<◌, ◌≤◌, ◌^◌, ℕ, List, length, IfOk, IfErr, vec_len};
ghost use Rattle.cache_policy.specs.{declared.mark.Mark.Mark as AnyMark, Tallies.one_if};
ghost use Rattle.cache_policy.specs.Turns.{asked_step, mark_step, turn_of, FitsReply};
ghost use Rattle.counted_lock.specs.{declared.board.About.About as AboutOf, Plays.IsPlace};
ghost use Rattle.counted_lock.specs.Rule.{AllFit, times};
ghost use Rattle.counted_lock.specs.Passes.{HasLooked, AreNewPasses, AreOf, IsClosed, numbered};
ghost use Rattle.counted_lock.specs.{Keeping.PassesFit, Trying.Tries};

use crate::board::{About, Board, Cored, MARKS, Place};
use crate::monitor::Monitor;
use crate::pass::CountedPass;
use crate::plays::{Cut, Glue};
use crate::steps::{enter, leave};
use crate::turn::{Tried, take_turn};
use agent_core::Core;
use agent_ports::{Clock, SessionId};
use cache_policy::{Limits, NoMemory, Refused, Reply, Step, Tally};
use std::alloc::{AllocError, Global};
use std::marker::Model;
use std::sync::Wait;
use std::time;

/// A core at which threads take turns. They are served in the order in which they draw their
/// numbers, and one draws once no other is at its turn.
#[derive(Drop)]
pub struct Counted {
    table: Board,
    pub(crate) monitor: Monitor,
}

impl Model for Counted {
    ghost use Rattle.counted_lock.specs.{Passes.AtCounted, Keeping.IsCounted};

    ghost Value = { AtCounted };

    ghost view = { λ counted. record {
      table = counted.table.shared.table_id;
      limits = counted.table.shared.key.limits;
      passes = counted.table.shared.key.passes;
    } };

    ghost invariant = { λ counted.
        IsCounted counted.table.shared.table_id counted.table.shared.key };
}

impl Counted {
    /// A lock over a core without entries, and all its passes, by their numbers from 0.
    pub fn new(
        alloc: Global,
        limits: Limits,
        passes: u32,
    ) -> Result<(Counted, Vec<CountedPass>), NoMemory>
        requires { (0 < passes) × (passes ≤ 65) }
        ensures about { IfOk result (λ made. (made.0.limits ≡ limits) × (made.0.passes ≡ passes)) }
        ensures all { IfOk result (λ made. vec_len made.1 ≡ passes) }
        ensures new { IfOk result (λ made. AreNewPasses made.0 0 made.1.items) }
        ensures own { IfOk result (λ made. AreOf made.0.table made.1.items) }
    {
        let mut slots = Vec::with_capacity(alloc, 1)?;
        slots.push_reserved(Some(Cored {
            core: Core::new(alloc, limits),
            tally: Tally::new(),
        }));
        let about = About { limits, passes };
        let Ok((table, mut place)) = Board::new(alloc, &[0, 0, 0], slots, &about) else {
            return Err(AllocError);
        };
        let mut all = Vec::with_capacity(alloc, passes as usize)?;
        for number in 0..passes {
            let pass = CountedPass {
                number,
                sessions: 0,
                front: 0,
                calls: 0,
                stopped: false,
                place: table.shared.split_seat::<Cut>(&mut place),
            };
            all.push_reserved(pass);
        }
        Ok((
            Counted {
                table,
                monitor: Monitor::new(),
            },
            all,
        ))
    }

    /// Tries a step once, in the monitor. Where the seat is held it is replied Stand.
    pub(crate) fn attempt<W: Wait + time::Clock, C: Clock>(
        &self,
        rt: &W,
        pass: &mut CountedPass,
        clock: &mut C,
        session: SessionId,
        step: Step,
    ) -> Result<Reply, Refused>
        requires own { pass.old.table ≡ self.now.table }
        requires by { session.pass ≡ pass.old.number }
        requires earlier { session.count < pass.old.sessions }
        ensures tries { Tries session (C.readings clock.old) (C.readings clock.new)
            (mark_step session step) pass.old (turn_of result) pass.new }
        ensures fits { FitsReply (asked_step step) (turn_of result) }
        ensures back { IfErr result (λ refused. refused.step ≡ step) }
    {
        let Tried {
            answer,
            made,
            front,
            stopped,
        } = take_turn(rt, &self.table, &mut pass.place, clock, session, step);
        pass.calls = raised(pass.calls, made);
        pass.front = front;
        pass.stopped = stopped;
        answer
    }

    /// Sees the run so far, and makes no mark. It waits for the turns before its own.
    pub fn look<W: Wait + time::Clock>(&self, rt: &W, pass: &mut CountedPass)
        requires own { pass.old.table ≡ self.now.table }
        ensures looks { HasLooked pass.old pass.new }
    {
        let _here = self.monitor.enter(rt);
        let cored = enter(rt, &self.table, &mut pass.place);
        pass.front = cored.tally.marks;
        pass.stopped = cored.core.stopped();
        leave(&self.table, &mut pass.place, cored);
    }

    /// Closes with all its passes, and gives what was done.
    pub fn close(self, passes: Vec<CountedPass>) -> Tally
        requires all { vec_len passes ≡ self.passes }
        requires own { AreOf self.table passes.items }
        ensures { IsClosed self passes.items result }
    {
        let Counted { table, monitor: _ } = self;
        let place = gather(&table, passes);
        let mut closed = table.close_with(place);
        let marks = closed.word(MARKS);
        let cored = closed.take(0);
        closed.free();
        let Some(cored) = cored else { unreachable!() };
        Tally {
            marks,
            stopped: cored.core.stopped(),
            ..cored.tally
        }
    }
}

/// One mark more, if one was made.
fn raised(calls: u64, made: bool) -> u64
    requires { calls < 2 ^ 63 }
    ensures { result ≡ calls + one_if made }
{
    calls + u64::from(made)
}

/// The places of all passes, as one.
fn gather(board: &Board, mut passes: Vec<CountedPass>) -> Place
    requires some { 0 < vec_len passes }
    requires words { 0 < board.now.shared.table_id.words }
    requires own { AreOf board.now.shared.table_id passes.items }
    ensures own { result.table_id ≡ board.now.shared.table_id }
    ensures place { IsPlace (vec_len passes) result.me }
    ensures numbers { (k : ℕ) → times k result.me.0.claims ≡ length (numbered k passes.items) }
    ensures fits { (about : AboutOf) (log : List AnyMark) → AllFit about log result.me.0.claims
        → PassesFit about log passes.items }
{
    let Some(first) = passes.pop() else {
        unreachable!()
    };
    let mut place = first.into_place();
    while let Some(pass) = passes.pop() {
        board
            .shared
            .join_seat::<Glue>(&mut place, pass.into_place());
    }
    place
}
