//! Laws on sessions by their door: each function's contract is a fact about the definitions.
//! Nothing runs. Begin with `an_outer_session_leaves_the_run` and
//! `a_new_trust_file_has_two_consents`; what they speak of is `ServesDoor` and `DoorExchange`
//! (`specs/DoorSessions`).

ghost use Rattle.std.specs.Prelude.{◌≡◌, ℕ, List, [], ◌∷◌, ◌++◌, true, false};
ghost use Rattle.agent_ask.specs.Session.SessionEvents.{Sent, turns_in};
ghost use Rattle.agent_commands.specs.{Exchanges.LineExchange, Requests.request_of};
ghost use Rattle.agent_commands.specs.declared.request.Request.TheVariants.{Key};
ghost use Rattle.agent_commands.specs.declared.went.SessionEnd.{SessionEnd as Ends};
ghost use Rattle.agent_commands.specs.declared.went.Went.{Went as Goes, TheVariants.On};
ghost use Rattle.{arrayvec.specs.ArrayVec.ArrayVec, assuan_server.specs.Written.{failed, ok}};
ghost use Rattle.session_client.specs.declared.code.Code.TheVariants.{Forbidden};
ghost use Rattle.key_commands.specs.{Events.Event, Exchanges.KeyExchange, Requests.key_request_of};
ghost use Rattle.key_commands.specs.declared.{went.KeyWent.KeyWent, keywrap_key.WrapKeys.WrapKeys};
ghost use Rattle.session_options.specs.{OptionValues.OptionValues, declared.rules.Rules.Rules};
ghost use Rattle.agent_origin.specs.DoorSessions.{DoorExchange, ServesDoor};
ghost use Rattle.agent_origin.specs.{Doors.{sets_terminal, allowed}, TrustExchanges.TrustExchange};
ghost use Rattle.agent_origin.specs.NewTrustFiles.{replaced, HasConsents, HasConsentsIn};
ghost use Rattle.agent_origin.specs.{PortStates.PortWorld, OuterPrompts.{no_words, PromptsName}};
ghost use Rattle.agent_origin.specs.{OuterRuns.LeavesDesk, OuterTurns.{LeavesCache, GiveNothing}};
ghost use Rattle.agent_origin.specs.{TrustRequests.trust_request_of, Sessions.Surroundings};
ghost use Rattle.agent_origin.specs.declared.door.Door.{Door as By, TheVariants.{Home, Outer}};
ghost use Rattle.agent_origin.specs.declared.session_state.SessionState.{SessionState};

use agent_ask::Prompter;
use cache_policy::Desk;

/// A law: what is done for a line that is allowed at the outer door takes the seat for a prompt of
/// which nothing is kept, gives it back, or looks whether a passphrase is cached. It stores and
/// forgets nothing, and is given no passphrase of the cache.
pub fn the_outer_door_leaves_the_cache()
    ensures cache { (rules : Rules) (before after : OptionValues) (line : List ℕ)
        (events : List Event) (went : Goes) → allowed Outer line ≡ true
        → LineExchange rules before line events after went → LeavesCache events }
    ensures keys { (rules : Rules) (options : OptionValues) (before after : WrapKeys)
        (line : List ℕ) (handed : ArrayVec ℕ) (events : List Event) (went : KeyWent)
        → allowed Outer line ≡ true → request_of line ≡ Key handed
        → KeyExchange rules options before (key_request_of line) events after went
        → LeavesCache events }
    ensures trust { (rules : Rules) (options : OptionValues) (line : List ℕ)
        (events : List Event) (went : Goes) → allowed Outer line ≡ true
        → TrustExchange rules options (trust_request_of line) events went → LeavesCache events }
{}

/// A law: so does a whole session that came in by the outer door.
pub fn an_outer_session_leaves_the_cache<D: Desk, P: Prompter>()
    ensures leaves { (rules : Rules)
        (before after : Surroundings (PortWorld D.turned P.prompted)) (end : Ends)
        → (served : ServesDoor D.turned P.prompted Outer rules before end after)
        → LeavesCache served.events }
    ensures ungiven { (rules : Rules)
        (before after : Surroundings (PortWorld D.turned P.prompted)) (end : Ends)
        → (served : ServesDoor D.turned P.prompted Outer rules before end after)
        → GiveNothing (turns_in served.events) }
{}

/// A law: what that means to its desk's run, where it is known. The session's own marks are those
/// of its turns. Each takes the seat for a prompt of which nothing is kept, gives its ticket back,
/// or looks whether a passphrase is cached; none was given one, and in a legal run none stores an
/// entry. So it clears and forgets nothing either.
pub fn an_outer_session_leaves_the_run<D: Desk, P: Prompter>()
    ensures { (rules : Rules) (before after : Surroundings (PortWorld D.turned P.prompted))
        (end : Ends) → (served : ServesDoor D.turned P.prompted Outer rules before end after)
        → LeavesDesk (D.at before.desk) (turns_in served.events) (D.at after.desk) }
{}

/// A law: at the outer door an option of the terminal or of the language is answered OK, nothing
/// else is done or kept, and the session goes on.
pub fn an_option_of_the_terminal_does_nothing_there()
    ensures { (rules : Rules) (before after : SessionState) (line : List ℕ) (events : List Event)
        (went : Goes) → allowed Outer line ≡ true → sets_terminal (request_of line) ≡ true
        → DoorExchange Outer rules before line events after went
        → (events ≡ Sent ok ∷ []) × (after ≡ before) × (went ≡ On) }
{}

/// A law: at the outer door a prompt names no terminal and no language. Those that a client names
/// are another machine's; here a terminal or a file of that name is a different one.
pub fn a_prompt_at_the_outer_door_names_no_terminal<D: Desk, P: Prompter>()
    ensures exchange { (rules : Rules) (before after : SessionState) (line : List ℕ)
        (events : List Event) (went : Goes) → before.options.env ≡ no_words
        → DoorExchange Outer rules before line events after went
        → PromptsName no_words events × (after.options.env ≡ no_words) }
    ensures session { (rules : Rules)
        (before after : Surroundings (PortWorld D.turned P.prompted)) (end : Ends)
        → (served : ServesDoor D.turned P.prompted Outer rules before end after)
        → PromptsName no_words served.events }
{}

/// A law: a line that isn't allowed at its session's door is answered by the one error, nothing
/// else is done or kept, and the session goes on.
pub fn a_forbidden_line_does_nothing()
    ensures { (door : By) (rules : Rules) (before after : SessionState) (line : List ℕ)
        (events : List Event) (went : Goes) → allowed door line ≡ false
        → DoorExchange door rules before line events after went
        → (events ≡ Sent (failed Forbidden) ∷ []) × (after ≡ before) × (went ≡ On) }
{}

/// A law: a new trust file stands in a MARKTRUSTED of a session that came in by the user's own
/// door, behind two consents and a read of the file that was there.
pub fn a_new_trust_file_has_two_consents<D: Desk, P: Prompter>()
    ensures exchange { (door : By) (rules : Rules) (prior then : SessionState) (line : List ℕ)
        (events before later : List Event) (file : List ℕ) (went : Goes)
        → DoorExchange door rules prior line events then went
        → events ≡ before ++ replaced file ∷ later → HasConsents rules prior.options
        (trust_request_of line) before file later × (door ≡ Home) }
    ensures session { (door : By)
        (rules : Rules) (start now : Surroundings (PortWorld D.turned P.prompted))
        (end : Ends) (before later : List Event) (file : List ℕ)
        → (served : ServesDoor D.turned P.prompted door rules start end now) → served.events
        ≡ before ++ replaced file ∷ later → HasConsentsIn rules before file later × (door ≡ Home) }
{}
