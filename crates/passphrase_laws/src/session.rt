//! Laws on a session of this agent that the command speaks with: what it writes, and what its
//! client is told. Nothing runs. Begin with `a_run_is_told_what_its_session_answered`; definitions
//! are in `specs/Served`.

ghost use Rattle.std.specs.{List.AllByRecursion, Prelude.{List, Option, ◌++◌, ◌≡◌, ◌≢◌, ◌∷◌, ℕ}};
ghost use Rattle.agent_commands.specs.Requests.{GetFields, request_of};
ghost use Rattle.agent_commands.specs.declared.request.CacheCommand.{CacheCommand};
ghost use Rattle.agent_commands.specs.declared.request.CacheCommand.TheVariants.{Help};
ghost use Rattle.agent_commands.specs.declared.request.Request.TheVariants.{Cache};
ghost use Rattle.agent_commands.specs.declared.went.SessionEnd.{SessionEnd as Ends};
ghost use Rattle.agent_origin.specs.{DoorSessions.{DoorExchange, ServesDoor}, PortStates.PortWorld};
ghost use Rattle.agent_origin.specs.SessionExchanges.{SessionExchange, kept_at_start};
ghost use Rattle.agent_origin.specs.Sessions.{ServesSession, Surroundings};
ghost use Rattle.agent_origin.specs.declared.door.Door.{Door, TheVariants.Home};
ghost use Rattle.{agent_ports.specs.Sides.with_bytes, passphrase_talk.specs.Dialogues.told_of};
ghost use Rattle.passphrase_talk.specs.{Turns.Turn, declared.connector.Waits.Waits};
ghost use Rattle.passphrase_words.specs.Tasks.{TaskValue};
ghost use Rattle.session_options.specs.{OptionValues.EnvWords, declared.rules.Rules.Rules};
ghost use Rattle.passphrase_laws.specs.{Asking.{Means, SaysRequest}, Exchanges.texts_of};
ghost use Rattle.passphrase_laws.specs.Roads.{IsWhole};
ghost use Rattle.passphrase_laws.specs.Served.{AnswersRequest, IsPassed, Serves, SpeaksWith};
ghost use Rattle.passphrase_laws.specs.Served.{lines_read};

use agent_ask::Prompter;
use agent_session::an_exchange_at_a_door_is_a_sessions;
use cache_policy::Desk;

/// What a session writes: its events' texts, one behind another. Where it read lines that are
/// passed over as options, and then a request on the cache, these are its greeting, a reply to each
/// option, and what its exchange of the request writes, in the mode of the session's start. So is
/// it at a door, and with the lines at the user's own, but for HELP, which the door answers itself.
pub fn a_session_serves_its_lines<D: Desk, P: Prompter>()
    ensures written { (rules : Rules)
        (before after : Surroundings (PortWorld D.turned P.prompted)) (end : Ends)
        → (served : ServesSession {w = PortWorld D.turned P.prompted} (SessionExchange rules)
        (kept_at_start rules) before end after)
        → after.output.bytes ≡ with_bytes before.output.bytes (texts_of served.events) }
    ensures lines { (rules : Rules)
        (before after : Surroundings (PortWorld D.turned P.prompted)) (end : Ends)
        (options later : List (List ℕ)) (line : List ℕ) (command : CacheCommand)
        → (served : ServesSession {w = PortWorld D.turned P.prompted} (SessionExchange rules)
        (kept_at_start rules) before end after)
        → AllByRecursion (IsPassed (SessionExchange rules)) options
        → request_of line ≡ Cache command → lines_read served.events ≡ options ++ line ∷ later
        → AllByRecursion IsWhole served.events
        → Serves rules (SessionExchange rules) options line served.events }
    ensures written_at_door { (door : Door) (rules : Rules)
        (before after : Surroundings (PortWorld D.turned P.prompted)) (end : Ends)
        → (served : ServesDoor D.turned P.prompted door rules before end after)
        → after.output.bytes ≡ with_bytes before.output.bytes (texts_of served.events) }
    ensures lines_at_home { (rules : Rules)
        (before after : Surroundings (PortWorld D.turned P.prompted)) (end : Ends)
        (options later : List (List ℕ)) (line : List ℕ) (command : CacheCommand)
        → (served : ServesDoor D.turned P.prompted Home rules before end after)
        → AllByRecursion (IsPassed (DoorExchange Home rules)) options
        → request_of line ≡ Cache command → command ≢ Help
        → lines_read served.events ≡ options ++ line ∷ later
        → AllByRecursion IsWhole served.events
        → Serves rules (DoorExchange Home rules) options line served.events }
{
    an_exchange_at_a_door_is_a_sessions();
}

/// The whole road: the words of a task, its options and one of its requests for a passphrase, a
/// session of this agent that read these lines, and the dialogue over what the session wrote. What
/// is told is what the session's own exchange of this request came to.
pub fn a_run_is_told_what_its_session_answered<D: Desk, P: Prompter>()
    ensures session { (words : List (List ℕ)) (task : TaskValue) (prompt : Option (List ℕ))
        (description line : List ℕ) (fields : GetFields) (rules : Rules)
        (before after : Surroundings (PortWorld D.turned P.prompted)) (end : Ends)
        (waits : Waits) (terminal : EnvWords) (turns : List Turn)
        → Means words task prompt description → SaysRequest task prompt description line fields
        → (served : ServesSession {w = PortWorld D.turned P.prompted} (SessionExchange rules)
        (kept_at_start rules) before end after)
        → SpeaksWith waits terminal line turns served.events before.output after.output
        → AnswersRequest rules (SessionExchange rules) waits terminal line fields served.events
        (told_of turns) }
    ensures home { (words : List (List ℕ)) (task : TaskValue) (prompt : Option (List ℕ))
        (description line : List ℕ) (fields : GetFields) (rules : Rules)
        (before after : Surroundings (PortWorld D.turned P.prompted)) (end : Ends)
        (waits : Waits) (terminal : EnvWords) (turns : List Turn)
        → Means words task prompt description → SaysRequest task prompt description line fields
        → (served : ServesDoor D.turned P.prompted Home rules before end after)
        → SpeaksWith waits terminal line turns served.events before.output after.output
        → AnswersRequest rules (DoorExchange Home rules) waits terminal line fields served.events
        (told_of turns) }
{
    an_exchange_at_a_door_is_a_sessions();
}
