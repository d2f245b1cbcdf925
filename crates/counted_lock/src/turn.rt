//! One step at the core, from the table and back to it. It reads the clock while it has the core,
//! so that moments come in the order of turns. Begin with `take_turn`, and with `TakesTurn` of
//! `specs/Taking`.

ghost use Rattle.std.specs.Prelude.{◌≡◌, IfErr};
ghost use Rattle.agent_ports.specs.Readings.{IsRead};
ghost use Rattle.cache_policy.specs.Turns.{asked_step, mark_step, turn_of, FitsReply};
ghost use Rattle.counted_lock.specs.{Plays.{IsIdle, IsOfTable}, Claims.own, Taking.TakesTurn};

use crate::board::{Board, Cored, Place};
use crate::settle::settle;
use crate::steps::{enter, leave};
use crate::trial::Trial;
use agent_ports::{Clock, SessionId};
use cache_policy::{Refused, Reply, Step};
use std::snapshot::Snapshot;
use std::sync::Wait;

/// How a try came out: the answer, whether it made a mark, and how many marks there are then and
/// whether they stop.
pub(crate) struct Tried {
    pub(crate) answer: Result<Reply, Refused>,
    pub(crate) made: bool,
    pub(crate) front: u64,
    pub(crate) stopped: bool,
}

/// Takes the core for one step, and reads the clock while it has it.
pub(crate) fn take_turn<W: Wait, C: Clock>(
    rt: &W,
    board: &Board,
    place: &mut Place,
    clock: &mut C,
    session: SessionId,
    step: Step,
) -> Tried
    requires own { IsOfTable board.now.shared.table_id place.old.table_id }
    requires idle { IsIdle place.old.me }
    requires by { session.pass ≡ (own place.old.me).number }
    ensures own { place.new.table_id ≡ place.old.table_id }
    ensures read { IsRead (C.readings clock.old) (C.readings clock.new).last
        (C.readings clock.new) }
    ensures takes { TakesTurn session (C.readings clock.new).last
        (mark_step session step) place.old.me result place.new.me }
    ensures fits { FitsReply (asked_step step) (turn_of result.answer) }
    ensures back { IfErr result.answer (λ refused. refused.step ≡ step) }
{
    let mut cored = enter(rt, board, place);
    let reading = clock.now();
    let trial = Trial::of(&cored, reading, session, &step);
    let asked = Snapshot::of(&step);
    let answer = cored.core.step(reading, session, step);
    let made = settle(board, place, &cored.core, &trial, &asked, &answer);
    cored.tally = made.unwrap_or(trial.tally);
    let front = cored.tally.marks;
    let stopped = cored.core.stopped();
    leave(board, place, cored);
    Tried {
        answer,
        made: made.is_some(),
        front,
        stopped,
    }
}
