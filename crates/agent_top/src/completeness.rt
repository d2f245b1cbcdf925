//! Laws on how runs of the agent end, and how their requests are answered: with faults by their
//! causes, without faults well. Nothing runs; each contract is a fact about the definitions. Begin
//! with `a_server_without_faults_is_answered`; definitions are in `specs/Completeness`.

ghost use Rattle.std.specs.{List.AllByRecursion, Prelude.{◌≡◌, List, ℕ, None, true}};
ghost use Rattle.{agent_ask.specs.Session.Worlds.{Outside, Does}, agent_commands.specs.Requests.request_of};
ghost use Rattle.agent_commands.specs.{Talks.Session, declared.went.SessionEnd.SessionEnd as Ends};
ghost use Rattle.agent_commands.specs.declared.went.Went.{Went};
ghost use Rattle.agent_origin.specs.{DoorSessions.{DoorExchange, door_command}, Doors.allowed};
ghost use Rattle.agent_origin.specs.{PortStates.PortWorld, SessionExchanges.kept_at_start};
ghost use Rattle.agent_origin.specs.declared.{door.Door.Door, session_state.SessionState.SessionState};
ghost use Rattle.agent_ports.specs.{Counts.Rose, Leads.Leads, Sides.Side};
ghost use Rattle.agent_ports.specs.declared.session.SessionId.{SessionId};
ghost use Rattle.agent_serve.specs.Serves.{LinkSides, ServesOne};
ghost use Rattle.agent_session.specs.Completeness.{AnswersAll, IsStopped, Remembers, CausedAtDoor};
ghost use Rattle.agent_session.specs.{Completeness.FaultlessAtDoor, Refusals.AnswersAlone};
ghost use Rattle.{assuan_server.specs.Reading.Supply, assuan_text.specs.Words.command_of};
ghost use Rattle.counted_lock.specs.{Passes.AtPass, Turns.CountedTurn};
ghost use Rattle.{key_commands.specs.Events.Event, pinentry_client.specs.Dialogues.PinentryDoes};
ghost use Rattle.session_options.specs.declared.rules.Rules.{Rules};
ghost use Rattle.agent_top.specs.Completeness.{NoLinkFault, NoFault, NoFaultOfOne, SessionEndsWell};
ghost use Rattle.agent_top.specs.Completeness.{IsAnsweredRun, IsCausedRun, DaemonEndsWell};
ghost use Rattle.agent_top.specs.{Completeness.LoadEndsWell, Daemon.RunsDaemon, Load.RunsLoad};
ghost use Rattle.agent_top.specs.Top.{Machine, RunsServer};

use agent_ports::Host;
use agent_serve::ViewedHost;
use pinentry_client::a_pinentry_is_a_prompter;

/// Where no count of its link's faults rose, a session on standard input and output ends with
/// status 0, 6 or 7, or with 1 for want of memory. `run_agent` and `run_server` say of their runs
/// what is supposed here.
pub fn a_server_without_faults_ends_well()
    ensures { (rules : Rules) (before after : Machine) (number : ℕ)
        → RunsServer rules before number after → NoLinkFault before after → SessionEndsWell number }
{}

/// Where no count of the machine rose, each request of the run has its one answer, but a last one
/// whose own inquiry ended the session, unless memory was wanted. Without memory for a session,
/// status 1, nothing was read or written.
pub fn a_server_without_faults_is_answered()
    ensures { (rules : Rules) (before after : Machine)
        (number : ℕ) (runs : RunsServer rules before number after) → NoFault before after
        → IsAnsweredRun rules before number after runs }
{
    a_pinentry_is_a_prompter();
}

/// Each error line of a run has its cause among what was done for its own request, whatever failed.
pub fn each_error_of_a_server_has_its_cause()
    ensures { (rules : Rules) (before after : Machine) (number : ℕ)
        (runs : RunsServer rules before number after) → IsCausedRun runs }
{
    a_pinentry_is_a_prompter();
}

/// Where no call for a link and no write failed, a daemon that ends does so with status 0, or with
/// 1 for want of memory.
pub fn a_daemon_without_faults_ends_well<H: Host>()
    ensures { (path : List ℕ)
        (rules : Rules) (listens listens_now : ℕ) (before after : Side) (number : ℕ)
        → RunsDaemon (⟦<H as ViewedHost>⟧.views path) rules listens before number listens_now after
        → ¬ Rose listens listens_now → ¬ Rose before.faults after.faults → DaemonEndsWell number }
{}

/// Where no count rose that a session of a daemon has to do with, and no memory was wanted, it ends
/// by no fault, and each of its requests has its one answer, but a last one whose own inquiry ended
/// the session. `serve_one` says of its sessions what is supposed here.
pub fn a_session_of_a_daemon_without_faults_is_answered<H: Host>()
    ensures { (path : List ℕ) (rules : Rules) (door : Door) (session : SessionId)
        (before after : LinkSides) (pass now : AtPass) (end : Ends)
        (one : ServesOne (⟦<H as ViewedHost>⟧.views path).parts H.Trust.trust path rules door
        session before pass end after now)
        → NoFaultOfOne one → AllByRecursion Remembers one.served.events
        → AnswersAll (FaultlessAtDoor door rules) rules one.served.events end }
{
    a_pinentry_is_a_prompter();
}

/// Each error line of a session of a daemon has its cause among what was done for its own request,
/// whatever failed.
pub fn each_error_of_a_daemon_has_its_cause<H: Host>()
    ensures { (path : List ℕ) (rules : Rules) (door : Door) (session : SessionId)
        (before after : LinkSides) (pass now : AtPass) (end : Ends)
        (one : ServesOne (⟦<H as ViewedHost>⟧.views path).parts H.Trust.trust path rules door
        session before pass end after now)
        → Session (CausedAtDoor door rules) (kept_at_start rules) one.served.events end }
{
    a_pinentry_is_a_prompter();
}

/// In a session of a daemon a GET_PASSPHRASE for the cache alone, a CLEAR_PASSPHRASE and a
/// RELOADAGENT that are allowed at its door want no memory: the passphrase or No data, or OK, is
/// their answer, unless a turn was replied Stopping.
pub fn a_daemon_wants_no_memory_for_the_cache_alone()
    ensures { (door : Door) (rules : Rules) (kept now : SessionState) (line : List ℕ)
        (events : List Event) (went : Went) (supply : Supply)
        (before after : Outside (PortWorld (CountedTurn (λ readings. readings)) PinentryDoes))
        → DoorExchange door rules kept line events now went → allowed door line ≡ true
        → door_command door line ≡ None
        → Leads (Does (PortWorld (CountedTurn (λ readings. readings)) PinentryDoes) supply)
        before events after → AllByRecursion (λ event. ¬ IsStopped event) events
        → AnswersAlone (request_of line) events }
{}

/// Where no write failed, a load ends with status 0, or with 1 for want of memory.
pub fn a_load_without_faults_ends_well()
    ensures { (number : ℕ) (before after : Side) (result : ℕ) → RunsLoad number before result after
        → ¬ Rose before.faults after.faults → LoadEndsWell result }
{}
