//! Laws on whose a passphrase is: a request stores and is told none but its own. Nothing runs; each
//! contract is a fact about the definitions. Begin with `each_request_stores_its_own`; definitions
//! are in `specs/OwnPassphrases`.

ghost use Rattle.std.specs.Prelude.{◌≡◌, List, ℕ, Some};
ghost use Rattle.{agent_ask.specs.Session.Worlds.{Outside, Does}, agent_ports.specs.Leads.Leads};
ghost use Rattle.{assuan_server.specs.Reading.Supply, agent_commands.specs.Exchanges.LineExchange};
ghost use Rattle.agent_commands.specs.Requests.{request_of};
ghost use Rattle.agent_commands.specs.declared.went.{SessionEnd.SessionEnd as Ends, Went.Went};
ghost use Rattle.key_commands.specs.{Events.Event, declared.request.KeyRequest.KeyRequest};
ghost use Rattle.session_options.specs.{OptionValues.OptionValues, declared.rules.Rules.Rules};
ghost use Rattle.agent_origin.specs.{DoorSessions.{DoorExchange, ServesDoor}, PortStates.PortWorld};
ghost use Rattle.agent_origin.specs.SessionExchanges.{SessionExchange, kept_at_start};
ghost use Rattle.agent_origin.specs.{Sessions.Surroundings, declared.door.Door.Door};
ghost use Rattle.agent_origin.specs.declared.session_state.SessionState.{SessionState};
ghost use Rattle.agent_session.specs.Causes.{on_keys};
ghost use Rattle.agent_session.specs.OwnPassphrases.{SaysOwnAlone, TellsOfKeysAlone};
ghost use Rattle.agent_session.specs.OwnPassphrases.{StoresOwnAlone, StoresOwnThroughout};
ghost use Rattle.agent_session.specs.Sessions.{ServesRules};

use agent_ask::Prompter;
use cache_policy::Desk;

/// Whose a passphrase is. What a request hands to the cache is its own: the one in its line, the
/// data of its own inquiry, what it was given under the nonce of a new one, or what its own prompt
/// accepted. A prompt's answer enters the cache by the return of the prompt's own ticket, under
/// what the request names, or by an IMPORT_KEY under the nonce that it drew, and by no other turn.
pub fn each_request_stores_its_own<D: Desk, P: Prompter>()
    ensures { (rules : Rules) (kept now : SessionState) (line : List ℕ) (events : List Event)
        (went : Went) (supply : Supply) (before after : Outside (PortWorld D.turned P.prompted))
        → SessionExchange rules kept line events now went
        → Leads (Does (PortWorld D.turned P.prompted) supply) before events after
        → StoresOwnAlone rules kept (request_of line) events }
{}

/// To whom a passphrase is written. A line of a request on the cache or on the session has no
/// passphrase in it, or it has the one that this request asked for: what the cache gave to its own
/// question, what its own prompt accepted, or what its own client gave.
pub fn each_passphrase_is_written_to_its_request()
    ensures { (rules : Rules) (kept now : OptionValues) (line : List ℕ) (events : List Event)
        (went : Went) → LineExchange rules kept line events now went
        → SaysOwnAlone rules kept (request_of line) events }
{}

/// No line of a request on keys has a passphrase in it: each is an error, OK, how much the client
/// may send, what is known of a key, a nonce that the request drew, the session's wrapping key, or
/// the key that it asked for, as it opened it itself, which this one wrapped.
pub fn no_passphrase_is_written_for_a_request_on_keys()
    ensures { (rules : Rules) (kept now : SessionState) (line : List ℕ) (asked : KeyRequest)
        (events : List Event) (went : Went) → SessionExchange rules kept line events now went
        → on_keys (request_of line) ≡ Some asked
        → TellsOfKeysAlone rules kept (request_of line) events }
{}

/// Over a session, also over one that came in by a door, what is handed to the cache is of the last
/// line that was read before, with what the lines before it left, and of nothing that was done for
/// another.
pub fn a_session_stores_its_requests_own<D: Desk, P: Prompter>()
    ensures session { (rules : Rules)
        (before after : Surroundings (PortWorld D.turned P.prompted)) (end : Ends)
        → (served : ServesRules D.turned P.prompted rules before end after)
        → StoresOwnThroughout rules (SessionExchange rules) (kept_at_start rules) served.events }
    ensures door { (door : Door) (rules : Rules)
        (before after : Surroundings (PortWorld D.turned P.prompted)) (end : Ends)
        → (served : ServesDoor D.turned P.prompted door rules before end after)
        → StoresOwnThroughout rules (DoorExchange door rules) (kept_at_start rules)
        served.events }
{}
