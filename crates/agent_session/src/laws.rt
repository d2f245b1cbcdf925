//! Laws on whole sessions: what they add to their desk's (cache handle's) run, and how those at a
//! door compare with those at none. Nothing runs; each contract is a fact about the definitions.
//! Begin with `a_session_extends_a_run`.

ghost use Rattle.std.specs.Prelude.{◌≡◌, List, ℕ, None, true};
ghost use Rattle.{cache_policy.specs.Extending.ExtendsDesk, agent_ask.specs.Session.SessionEvents.turns_in};
ghost use Rattle.agent_commands.specs.declared.went.{SessionEnd.SessionEnd as Ends, Went.Went};
ghost use Rattle.key_commands.specs.Events.{Event};
ghost use Rattle.session_options.specs.declared.rules.Rules.{Rules};
ghost use Rattle.agent_origin.specs.DoorSessions.{DoorExchange, ServesDoor, door_command};
ghost use Rattle.agent_origin.specs.{Doors.allowed, PortStates.PortWorld};
ghost use Rattle.agent_origin.specs.{SessionExchanges.SessionExchange, Sessions.Surroundings};
ghost use Rattle.agent_origin.specs.declared.{door.Door.Door, session_state.SessionState.SessionState};
ghost use Rattle.agent_session.specs.Sessions.{ServesRules};

use agent_ask::Prompter;
use cache_policy::{Desk, turns_extend_a_run};

/// What a session does extends its desk's run, where that is known: the session's marks in it are
/// those of the turns among its events, in their order, and it stays legal. So does a session that
/// came in by a door.
pub fn a_session_extends_a_run<D: Desk, P: Prompter>()
    ensures session { (rules : Rules)
        (before after : Surroundings (PortWorld D.turned P.prompted)) (end : Ends)
        → (served : ServesRules D.turned P.prompted rules before end after)
        → ExtendsDesk (D.at before.desk) (turns_in served.events) (D.at after.desk) }
    ensures door { (door : Door) (rules : Rules)
        (before after : Surroundings (PortWorld D.turned P.prompted)) (end : Ends)
        → (served : ServesDoor D.turned P.prompted door rules before end after)
        → ExtendsDesk (D.at before.desk) (turns_in served.events) (D.at after.desk) }
{
    turns_extend_a_run::<D>();
}

/// What is done for a line that is allowed at its session's door, and that isn't the door's own to
/// answer, is what a session without doors does for it. So each law on such requests, as those
/// of what stands after a refusal, is one on this line.
pub fn an_exchange_at_a_door_is_a_sessions()
    ensures { (door : Door) (rules : Rules) (kept now : SessionState) (line : List ℕ)
        (events : List Event) (went : Went) → DoorExchange door rules kept line events now went
        → allowed door line ≡ true → door_command door line ≡ None
        → SessionExchange rules kept line events now went }
{}
