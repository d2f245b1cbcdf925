//! The mark (log entry) of a step that the core has answered, counted on the table exactly where
//! the step made one. It raises the word of the marks, in the turn that has the core. Begin with
//! `Settles` of `specs/Settling`.

ghost use Rattle.std.specs.Prelude.{◌≡◌, [], ◌∷◌, None};
ghost use Rattle.cache_policy.specs.Turns.{mark_step, turn_of};
ghost use Rattle.counted_lock.specs.{Plays.{Works, IsOfTable}, Claims.own};
ghost use Rattle.counted_lock.specs.Settling.{Stepped, Settles};

use crate::board::{Board, Place};
use crate::steps::count;
use crate::trial::Trial;
use agent_core::Core;
use cache_policy::{Refused, Reply, Step, Tally};
use std::marker::Brand;
use std::snapshot::Snapshot;

/// Adds the mark of a step that was answered to the run, exactly where it made one, and then gives
/// the tally with it.
pub(crate) fn settle(
    board: &Board,
    place: &mut Place,
    core: &Core,
    trial: &Trial,
    asked: &Snapshot<Step>,
    answer: &Result<Reply, Refused>,
) -> Option<Tally>
    requires own { IsOfTable board.now.shared.table_id place.old.table_id }
    requires works { Works place.old.me ((0, None) ∷ []) }
    requires by { trial.now.session.pass ≡ (own place.old.me).number }
    requires step { Stepped (own place.old.me).limits (own place.old.me).seen
        (mark_step trial.now.session asked.now.value) (turn_of answer.now) trial.now core.now }
    ensures own { place.new.table_id ≡ place.old.table_id }
    ensures settles { Settles trial.now (mark_step trial.now.session asked.now.value)
        (turn_of answer.now) core.now result place.old.me place.new.me }
{
    match answer {
        Err(_) => None,
        Ok(reply) => match reply {
            Reply::Stand(_) => None,
            _ => {
                if trial.spent {
                    return None;
                }
                let tally = trial.counted(reply);
                count::<Brand>(board, place, trial.session, asked, reply, core.moment());
                Some(tally)
            }
        },
    }
}
