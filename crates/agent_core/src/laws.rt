//! A law of the desk (cache handle) in memory: a session's turns, one after another, extend its
//! run. A function without a body, whose contract is a fact about `SoloTurn` of `specs/Solos`; it
//! touches nothing.

ghost use Rattle.agent_ports.specs.Leads.{Leads};
ghost use Rattle.cache_policy.specs.Extending.{Taken as TakenTurn, TakesTurn, IsExtended};
ghost use Rattle.std.specs.Prelude.{List};
ghost use Rattle.agent_core.specs.Solos.{SoloState, SoloTurn};

use crate::Solo;
use agent_ports::Clock;
use cache_policy::turns_extend_a_run;

/// What turns do to the run of a desk in memory: the session's marks in it are those of the turns,
/// in their order, and it stays legal.
pub fn turns_extend_a_known_run<C: Clock>()
    ensures { (before after : SoloState C) (turns : List TakenTurn)
        → Leads (TakesTurn (SoloTurn C.readings)) before turns after
        → IsExtended before.limits before.session before.run turns after.run }
{
    turns_extend_a_run::<Solo<'_, C>>();
}
