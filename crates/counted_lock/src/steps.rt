//! The steps of a turn on the table. They touch its words and its slot and nothing else: a number
//! is drawn and waited for, the core taken, a mark (log entry) counted, the core given back. Begin
//! with `enter`; `Enters`, `Counts` and `Gives` of `specs/Plays` say what each does.

ghost use Rattle.std.specs.Prelude.{◌≡◌, [], ◌∷◌, ◌++◌, None, Ok};
ghost use Rattle.{cache_policy.specs.Turns.{mark_step, turn_of}, agent_core.specs.Cores.mark_of};
ghost use Rattle.agent_core.specs.Recording.{reply_of};
ghost use Rattle.counted_lock.specs.{Logs.IsLegalLog, Standing.Stands};
ghost use Rattle.counted_lock.specs.Plays.{IsIdle, Works, Enters, Counts, Gives, IsOfTable, number};
ghost use Rattle.counted_lock.specs.Claims.{own};

use crate::board::{Board, Cored, DRAWN, MARKS, Place, SERVING};
use crate::plays::{Count, Draw, Give, Look, Naming};
use agent_ports::SessionId;
use cache_policy::{Reply, Step};
use std::hint;
use std::snapshot::Snapshot;
use std::sync::Wait;

/// Draws a number, waits for it, and takes the core. Who is in the monitor waits no time, since
/// all numbers before are served.
pub(crate) fn enter<W: Wait>(rt: &W, board: &Board, place: &mut Place) -> Cored
    requires own { IsOfTable board.now.shared.table_id place.old.table_id }
    requires idle { IsIdle place.old.me }
    ensures own { place.new.table_id ≡ place.old.table_id }
    ensures enters { Enters place.old.me place.new.me result }
{
    let number = board.shared.fetch_add::<Draw>(place, DRAWN, 1);
    for _ in rt.forever() {
        let serving = board.shared.load::<Look>(place, SERVING);
        if serving == number {
            return board.shared.exchange(place, 0, None).unwrap();
        }
        hint::spin_loop();
    }
    unreachable!()
}

/// Adds the mark of a step to the run.
pub(crate) fn count<J: Naming>(
    board: &Board,
    place: &mut Place,
    session: SessionId,
    asked: &Snapshot<Step>,
    reply: &Reply,
    moment: u64,
)
    requires own { IsOfTable board.now.shared.table_id place.old.table_id }
    requires works { Works place.old.me place.old.me.1 }
    requires named { J.mark ≡ mark_of session (mark_step session asked.now.value)
        (reply_of (turn_of (Ok reply.now))) moment }
    requires by { session.pass ≡ (own place.old.me).number }
    requires legal { IsLegalLog (own place.old.me).limits ((own place.old.me).seen ++ mark_of session
        (mark_step session asked.now.value) (reply_of (turn_of (Ok reply.now))) moment ∷ []) }
    ensures own { place.new.table_id ≡ place.old.table_id }
    ensures counts { Counts (mark_of session (mark_step session asked.now.value)
        (reply_of (turn_of (Ok reply.now))) moment) place.old.me place.new.me }
{
    let _ = session;
    let _ = asked;
    let _ = reply;
    let _ = moment;
    board.shared.fetch_add::<Count<J>>(place, MARKS, 1);
}

/// Gives the core back.
pub(crate) fn leave(board: &Board, place: &mut Place, core: Cored)
    requires own { IsOfTable board.now.shared.table_id place.old.table_id }
    requires works { Works place.old.me ((0, None) ∷ []) }
    requires limits { core.core.limits ≡ (own place.old.me).limits }
    requires stands { Stands core (own place.old.me).seen }
    ensures own { place.new.table_id ≡ place.old.table_id }
    ensures gives { Gives place.old.me place.new.me }
{
    board.shared.exchange(place, 0, Some(core));
    board.shared.fetch_add::<Give>(place, SERVING, 1);
}
