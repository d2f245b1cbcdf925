//! Laws on how requests are answered: each error line has its cause, and without one there is an
//! answer. Nothing runs; each contract is a fact about the definitions. Begin with
//! `each_error_has_its_cause`; definitions are in `specs/Causes` and `specs/Completeness`.

ghost use Rattle.std.specs.{List.AllByRecursion, Prelude.{List, ℕ}};
ghost use Rattle.{agent_ask.specs.Session.Worlds.{Outside, Does}, agent_ports.specs.Leads.Leads};
ghost use Rattle.{assuan_server.specs.Reading.Supply, agent_commands.specs.Requests.request_of};
ghost use Rattle.agent_commands.specs.{Talks.Session, declared.went.SessionEnd.SessionEnd as Ends};
ghost use Rattle.{agent_commands.specs.declared.went.Went.Went, key_commands.specs.Events.Event};
ghost use Rattle.session_options.specs.declared.rules.Rules.{Rules};
ghost use Rattle.agent_origin.specs.{DoorSessions.ServesDoor, PortStates.PortWorld};
ghost use Rattle.agent_origin.specs.SessionExchanges.{kept_at_start, SessionExchange};
ghost use Rattle.agent_origin.specs.{Sessions.Surroundings, declared.door.Door.Door};
ghost use Rattle.agent_origin.specs.declared.session_state.SessionState.{SessionState};
ghost use Rattle.agent_session.specs.Counting.{CountsFailures, CountsLink};
ghost use Rattle.agent_session.specs.Completeness.{SessionCauses, CausedInSession};
ghost use Rattle.agent_session.specs.Completeness.{FaultlessInSession, IsUncaused, IsAnsweredOk};
ghost use Rattle.agent_session.specs.Completeness.{CausedAtDoor, FaultlessAtDoor, FailuresRise};
ghost use Rattle.agent_session.specs.Completeness.{IsStopped, AnswersAtOnce, Remembers};
ghost use Rattle.agent_session.specs.Completeness.{NoCountRose, AnswersAll};
ghost use Rattle.agent_session.specs.{DoorCauses.IsCausedAtDoor, Sessions.ServesRules};

use agent_ask::Prompter;
use cache_policy::Desk;

/// In each exchange of a session the request has its one answer, unless its own inquiry ended the
/// session or a write failed, and each error line has its cause among the events of that exchange.
/// Of an exchange that a failed write cut this is said of the whole one.
///
/// So in a session that came in by a door: there a line is answered `Forbidden` exactly where it
/// isn't allowed at the door.
pub fn each_error_has_its_cause<D: Desk, P: Prompter>()
    ensures session { (rules : Rules)
        (before after : Surroundings (PortWorld D.turned P.prompted)) (end : Ends)
        → (served : ServesRules D.turned P.prompted rules before end after)
        → Session (CausedInSession rules) (kept_at_start rules) served.events end }
    ensures door { (door : Door) (rules : Rules)
        (before after : Surroundings (PortWorld D.turned P.prompted)) (end : Ends)
        → (served : ServesDoor D.turned P.prompted door rules before end after)
        → Session (CausedAtDoor door rules) (kept_at_start rules) served.events end }
{}

/// A request none of whose errors has a cause in its exchange is answered by OK, unless its own
/// inquiry ended the session or a write failed; a request at a door, too.
pub fn without_a_cause_the_answer_is_ok()
    ensures session { (rules : Rules) (kept now : SessionState) (line : List ℕ)
        (events : List Event) (went : Went) → CausedInSession rules kept line events now went
        → IsUncaused (SessionCauses rules) kept line events → IsAnsweredOk went events }
    ensures door { (door : Door) (rules : Rules) (kept now : SessionState) (line : List ℕ)
        (events : List Event) (went : Went) → CausedAtDoor door rules kept line events now went
        → IsUncaused (IsCausedAtDoor door rules) kept line events → IsAnsweredOk went events }
{}

/// A failure of the keys, of the dice, of the prompter or of the trust file that is among events
/// has raised its count in between. So where it is the cause of an error line, the count rose in
/// that command.
pub fn failures_raise_counts<D: Desk, P: Prompter>()
    ensures { (supply : Supply) (before after : Outside (PortWorld D.turned P.prompted))
        (events : List Event)
        → Leads (Does (PortWorld D.turned P.prompted) supply) before events after
        → FailuresRise P.at events before.ends after.ends }
{}

/// On each end at most as many events failed as its count rose by, as long as that is below its
/// last value: of the calls of the prompter, of the keys and of the trust file, and of the draws.
pub fn each_failure_is_counted<D: Desk, P: Prompter>()
    ensures { (supply : Supply) (before after : Outside (PortWorld D.turned P.prompted))
        (events : List Event)
        → Leads (Does (PortWorld D.turned P.prompted) supply) before events after
        → CountsFailures P.at events before.ends after.ends }
{}

/// Of the reads and of the writes of a session's link at most as many failed as the counts of its
/// two sides rose by, as long as these are below their last values; of a session at a door too.
pub fn failures_at_the_link_are_counted<D: Desk, P: Prompter>()
    ensures session { (rules : Rules)
        (before after : Surroundings (PortWorld D.turned P.prompted)) (end : Ends)
        → (served : ServesRules D.turned P.prompted rules before end after)
        → CountsLink served.events before after }
    ensures door { (door : Door) (rules : Rules)
        (before after : Surroundings (PortWorld D.turned P.prompted)) (end : Ends)
        → (served : ServesDoor D.turned P.prompted door rules before end after)
        → CountsLink served.events before after }
{}

/// A request that asks nobody is answered at once, unless a turn of it found no memory or was
/// replied Stopping: a GET_PASSPHRASE for the cache alone by the live passphrase or No data; a
/// PRESET_PASSPHRASE with its digits, where it is allowed, a CLEAR_PASSPHRASE and a RELOADAGENT by
/// OK.
pub fn requests_without_a_prompt_are_answered<D: Desk, P: Prompter>()
    ensures { (rules : Rules) (kept now : SessionState) (line : List ℕ) (events : List Event)
        (went : Went) (supply : Supply) (before after : Outside (PortWorld D.turned P.prompted))
        → SessionExchange rules kept line events now went
        → Leads (Does (PortWorld D.turned P.prompted) supply) before events after
        → AllByRecursion Remembers events → AllByRecursion (λ event. ¬ IsStopped event) events
        → AnswersAtOnce rules (request_of line) events }
{}

/// Where no count of faults rose and no memory was wanted, a session ends by no fault, and each of
/// its requests is answered, but a last one whose own inquiry ended the session: by no error
/// without a code of its own, by none for want of memory, and by none for want of a pinentry but
/// where the client wants no prompt or the pinentry broke its protocol. So is a session that came in
/// by a door.
pub fn a_session_without_faults_is_answered<D: Desk, P: Prompter>()
    ensures session { (rules : Rules)
        (before after : Surroundings (PortWorld D.turned P.prompted)) (end : Ends)
        → (served : ServesRules D.turned P.prompted rules before end after)
        → NoCountRose D.turned P.prompted P.at before after → AllByRecursion Remembers served.events
        → AnswersAll (FaultlessInSession rules) rules served.events end }
    ensures door { (door : Door) (rules : Rules)
        (before after : Surroundings (PortWorld D.turned P.prompted)) (end : Ends)
        → (served : ServesDoor D.turned P.prompted door rules before end after)
        → NoCountRose D.turned P.prompted P.at before after → AllByRecursion Remembers served.events
        → AnswersAll (FaultlessAtDoor door rules) rules served.events end }
{}
