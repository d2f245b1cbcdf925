//! The desk (cache handle): where a session takes its turns at the cache, whatever lock lies under
//! it. A turn may wait there for the seat (the prompt's lock), and so for other sessions. Begin
//! with `Desk::turn`; `IsTurn` of `specs/Desks` is what every desk promises of one.

ghost use Rattle.std.specs.Prelude.{◌≡◌, true, None, Some, IfErr, IfSome};
ghost use Rattle.cache_policy.specs.declared.mark.MarkStep.{MarkStep};
ghost use Rattle.cache_policy.specs.Turns.{Turn, asked_step, turn_of, opens, closes, wait_of};
ghost use Rattle.cache_policy.specs.Desks.{AtDesk, IsTurn};

use crate::{Refused, Reply, Step};

/// Where one session takes its turns, while other sessions take theirs.
pub trait Desk {
    /// The lifetimes, the session, the histories so far where they are known, and the ticket that
    /// the session has.
    ghost at: { Self → AtDesk };

    /// A desk shows its turns by this relation between itself before a turn, the step, the turn,
    /// and itself after.
    ghost turned: { Self → MarkStep → Turn → Self → Type 0 };

    /// Takes one turn. It waits in place of a reply Stand, and a step that has waited too long is
    /// replied Late. A step that finds no memory is handed back.
    fn turn(&mut self, step: Step) -> Result<Reply, Refused>
        // A session that has a ticket gives it back before it wants the prompt again, and gives
        // back no other. The waiting is the desk's.
        requires free { opens (asked_step step) ≡ true → (at self.old).out ≡ None }
        requires own { IfSome (closes (asked_step step))
            (λ number. (at self.old).out ≡ Some number) }
        requires first { wait_of step ≡ None }
        ensures turned { turned self.old (asked_step step) (turn_of result) self.new }
        ensures refused { IfErr result (λ refused. refused.step ≡ step) };

    /// What every turn does.
    ghost promise: { (before : Self) (asked : MarkStep) (turn : Turn) (after : Self)
        → turned before asked turn after → IsTurn (at before) asked turn (at after) };
}
