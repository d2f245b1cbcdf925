//! Laws on requests that are refused: what may be done before the refusal, and that behind it the
//! prompt is shut, its ticket (permit) given back and nothing else done but to answer. Nothing
//! runs; each contract is a fact about the definitions. Begin with `each_request_takes_its_course`;
//! definitions are in `specs/Refusals`, `specs/Imports` and `specs/TrustCalls`.

ghost use Rattle.std.specs.{List.AllByRecursion, Prelude.{◌≡◌, ◌≢◌, Bool, List, Option, ℕ, Some}};
ghost use Rattle.{agent_ask.specs.Session.Worlds.{Outside, Does}, agent_ports.specs.Leads.Leads};
ghost use Rattle.assuan_server.specs.{Reading.Supply, declared.errors.Origin.Origin};
ghost use Rattle.assuan_server.specs.declared.errors.Origin.TheVariants.{Agent};
ghost use Rattle.session_client.specs.declared.code.Code.{Code, TheVariants.LineTooLong};
ghost use Rattle.agent_commands.specs.{Requests.request_of, declared.went.Went.Went};
ghost use Rattle.agent_commands.specs.declared.went.Went.TheVariants.{On};
ghost use Rattle.cache_policy.specs.Turns.{MayWantMemory, Refused};
ghost use Rattle.cache_policy.specs.declared.mark.MarkStep.{MarkStep};
ghost use Rattle.key_commands.specs.Events.{Event};
ghost use Rattle.key_commands.specs.declared.request.KeyRequest.TheVariants.{ImportKey};
ghost use Rattle.session_options.specs.declared.rules.Rules.{Rules};
ghost use Rattle.agent_origin.specs.{SessionExchanges.SessionExchange, DoorSessions.DoorExchange};
ghost use Rattle.agent_origin.specs.{PortStates.PortWorld, declared.door.Door.Door};
ghost use Rattle.agent_origin.specs.declared.session_state.SessionState.{SessionState};
ghost use Rattle.agent_session.specs.{Causes.on_keys, Completeness.{HasError, IsStopped}};
ghost use Rattle.agent_session.specs.Imports.{ImportCourse};
ghost use Rattle.agent_session.specs.Refusals.{AnswersAlone, Course, IsOwnCode, LeavesDesk};
ghost use Rattle.agent_session.specs.{Refusals.{OpensFirst, RefusedCourse}, TrustCalls.EndsAtCalls};

use agent_ask::Prompter;
use cache_policy::Desk;

/// What is done for a request: its work, by which nothing is stored, cleared or stopped but by its
/// own command, no key's file is changed, and the trust file isn't called; and then its end, by
/// which it isn't called either. An event that refuses it, for want of memory or since a prompter,
/// the keys or the dice failed, is the last thing that is done for it, but that the prompt is shut
/// and its ticket given back, with nothing kept. A changed key's file is followed by one turn
/// alone.
pub fn each_request_takes_its_course()
    ensures { (rules : Rules) (kept now : SessionState) (line : List ℕ) (events : List Event)
        (went : Went)
        → SessionExchange rules kept line events now went → Course (request_of line) events }
{}

/// A request that is answered `Cannot allocate memory` or `General error` was refused by an event
/// of its own: it changed no key's file and did nothing more; or it kept its prompt's passphrase
/// before; or it changed a key's file, and the one turn behind that found no memory.
pub fn a_refused_request_does_nothing_more<D: Desk, P: Prompter>()
    ensures { (rules : Rules) (kept now : SessionState) (line : List ℕ) (events : List Event)
        (went : Went) (supply : Supply) (before after : Outside (PortWorld D.turned P.prompted))
        (why : Code) → SessionExchange rules kept line events now went
        → Leads (Does (PortWorld D.turned P.prompted) supply) before events after → IsOwnCode why
        → HasError why Agent events → RefusedCourse (request_of line) why events }
{}

/// After an error line the session goes on, so after `Cannot allocate memory` too. One alone ends
/// it: that a line of the client's was too long. The same of a line at a door.
pub fn a_session_goes_on_after_an_error<D: Desk, P: Prompter>()
    ensures session { (rules : Rules) (kept now : SessionState) (line : List ℕ)
        (events : List Event)
        (went : Went) (supply : Supply) (before after : Outside (PortWorld D.turned P.prompted))
        (why : Code) (origin : Origin) → SessionExchange rules kept line events now went
        → Leads (Does (PortWorld D.turned P.prompted) supply) before events after
        → HasError why origin events → why ≢ LineTooLong → went ≡ On }
    ensures door { (door : Door) (rules : Rules) (kept now : SessionState) (line : List ℕ)
        (events : List Event) (went : Went) (supply : Supply)
        (before after : Outside (PortWorld D.turned P.prompted)) (why : Code) (origin : Origin)
        → DoorExchange door rules kept line events now went
        → Leads (Does (PortWorld D.turned P.prompted) supply) before events after
        → HasError why origin events → why ≢ LineTooLong → went ≡ On }
{}

/// An IMPORT_KEY hands nothing to the cache before its nonce was drawn. Then it stores under that
/// nonce, and where this is done it replaces the key's file next. So one that is refused before it
/// calls the keys for that has stored nothing, under the nonce neither.
pub fn an_import_stores_with_its_file()
    ensures { (rules : Rules) (kept now : SessionState) (line : List ℕ) (events : List Event)
        (went : Went) (force : Bool) (nonce : Option (List ℕ))
        → on_keys (request_of line) ≡ Some (ImportKey force nonce)
        → SessionExchange rules kept line events now went → ImportCourse events }
{}

/// A prompt is opened before the prompter is called, and no other one behind that. So where a turn
/// that may open one is refused, no child was launched.
pub fn a_prompt_is_opened_first()
    ensures { (rules : Rules) (kept now : SessionState) (line : List ℕ) (events : List Event)
        (went : Went) → SessionExchange rules kept line events now went → OpensFirst events }
{}

/// A turn that found no memory gave no ticket back and made no mark.
pub fn a_refused_turn_leaves_the_desk<D: Desk>()
    ensures { (before after : D) (asked : MarkStep) → D.turned before asked Refused after
        → LeavesDesk (D.at before) asked (D.at after) }
{}

/// At a desk that finds no memory only for steps that may want some, as the one at the counted
/// lock, a GET_PASSPHRASE for the cache alone, a CLEAR_PASSPHRASE and a RELOADAGENT want none: the
/// passphrase or No data, or OK, is their answer, unless a turn was replied Stopping.
pub fn requests_on_the_cache_alone_want_no_memory<D: Desk, P: Prompter>()
    ensures { ((before after : D) (asked : MarkStep)
        → D.turned before asked Refused after → MayWantMemory asked)
        → (rules : Rules) (kept now : SessionState) (line : List ℕ) (events : List Event)
        (went : Went) (supply : Supply) (before after : Outside (PortWorld D.turned P.prompted))
        → SessionExchange rules kept line events now went
        → Leads (Does (PortWorld D.turned P.prompted) supply) before events after
        → AllByRecursion (λ event. ¬ IsStopped event) events
        → AnswersAlone (request_of line) events }
{}

/// A call of the trust file that failed or found no memory is the last thing that is done for its
/// request, but that its ticket is given back and the error line is written. So is one by which a
/// new file took the old one's place, whose request is answered by OK: one that is answered by an
/// error line has left the file as it was.
pub fn a_call_of_the_trust_file_decides_its_request()
    ensures { (door : Door) (rules : Rules) (kept now : SessionState) (line : List ℕ)
        (events : List Event)
        (went : Went) → DoorExchange door rules kept line events now went → EndsAtCalls events }
{}
