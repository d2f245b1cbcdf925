//! Laws on which error a request is answered: exactly where the cause of a code stands, by its
//! error line. Nothing runs; each contract is a fact about the definitions. Begin with
//! `each_cause_has_its_error`; the causes are `ExactCause` (`specs/Exactly`).

ghost use Rattle.std.specs.{List.AllByRecursion, Prelude.{List, ℕ}};
ghost use Rattle.session_client.specs.declared.code.Code.{Code, TheVariants.LineTooLong};
ghost use Rattle.assuan_server.specs.declared.errors.Origin.TheVariants.{Agent};
ghost use Rattle.agent_commands.specs.Requests.{request_of};
ghost use Rattle.agent_commands.specs.declared.went.SessionEnd.{SessionEnd as Ends};
ghost use Rattle.agent_commands.specs.declared.went.{SessionEnd.TheVariants.TooLong, Went.Went};
ghost use Rattle.agent_commands.specs.declared.went.Went.TheVariants.{End};
ghost use Rattle.agent_origin.specs.{DoorSessions.{DoorExchange, ServesDoor}, PortStates.PortWorld};
ghost use Rattle.agent_origin.specs.{SessionExchanges.SessionExchange, Sessions.Surroundings};
ghost use Rattle.agent_origin.specs.declared.door.Door.{Door};
ghost use Rattle.agent_origin.specs.declared.session_state.SessionState.{SessionState};
ghost use Rattle.key_commands.specs.Events.{Event};
ghost use Rattle.session_options.specs.declared.rules.Rules.{Rules};
ghost use Rattle.agent_session.specs.Completeness.{HasError, Remembers};
ghost use Rattle.agent_session.specs.Exactly.{EndsTooLong, ExactCause, ExactCauseAtDoor};
ghost use Rattle.agent_session.specs.Sessions.{ServesRules};

use agent_ask::Prompter;
use cache_policy::Desk;

/// Where the cause of one of these codes stands in an exchange, the request is answered by the
/// error line of that code, unless memory was wanted: so each of them is answered exactly where its
/// cause stands. A list that is too long for `Bad secret key` is here that of each key to which the
/// file opens, where the cause of that error line names one.
///
/// The same of a line at a door, whether it isn't allowed there, is a request on the trust list, or
/// is one of any session.
pub fn each_cause_has_its_error()
    ensures session { (rules : Rules) (kept now : SessionState) (line : List ℕ)
        (events : List Event) (went : Went) → SessionExchange rules kept line events now went
        → AllByRecursion Remembers events
        → (why : Code) → ExactCause events rules kept (request_of line) why
        → HasError why Agent events }
    ensures door { (door : Door) (rules : Rules) (kept now : SessionState) (line : List ℕ)
        (events : List Event) (went : Went) → DoorExchange door rules kept line events now went
        → AllByRecursion Remembers events
        → (why : Code) → ExactCauseAtDoor door rules kept line events why
        → HasError why Agent events }
{
    key_lines::one_answer();
}

/// A session ends since a line was too long only where its client was told so: by the last exchange
/// whose inquiry that line was to answer, or where the line was to be a request, as the session's
/// own end says.
pub fn a_line_that_ends_a_session_is_answered()
    ensures { (rules : Rules) (kept now : SessionState) (line : List ℕ) (events : List Event)
        → SessionExchange rules kept line events now (End TooLong)
        → HasError LineTooLong Agent events }
{}

/// A session in which a line of its client's was too long, whether that was to be a request or the
/// answer to an inquiry, ends by that, unless a write failed; no other session does. Its client is
/// told `Line too long` exactly where it ends so. The same of a session that came in by a door.
pub fn a_line_that_is_too_long_ends_its_session<D: Desk, P: Prompter>()
    ensures session { (rules : Rules)
        (before after : Surroundings (PortWorld D.turned P.prompted)) (end : Ends)
        → (served : ServesRules D.turned P.prompted rules before end after)
        → EndsTooLong served.events end }
    ensures door { (door : Door) (rules : Rules)
        (before after : Surroundings (PortWorld D.turned P.prompted)) (end : Ends)
        → (served : ServesDoor D.turned P.prompted door rules before end after)
        → EndsTooLong served.events end }
{}
