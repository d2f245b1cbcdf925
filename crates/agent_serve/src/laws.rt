//! Laws on the daemon's sessions and workers: each function's contract is a fact about the
//! definitions. Nothing runs. Begin with `a_restricted_session_leaves_the_run` and
//! `a_worker_ends_for_a_cause`; what they speak of is `ServesOne` (`specs/Serves`) and `Works`
//! (`specs/Working`).

ghost use Rattle.std.specs.Prelude.{◌+◌, ◌-◌, ◌<◌, ◌^◌, ℕ, List, None};
ghost use Rattle.agent_ask.specs.Session.SessionEvents.{turns_in};
ghost use Rattle.agent_commands.specs.declared.went.SessionEnd.{SessionEnd as Ends};
ghost use Rattle.agent_origin.specs.{DoorSessions.ServesDoor, PortStates.PortWorld};
ghost use Rattle.agent_origin.specs.{OuterPrompts.{no_words, PromptsName}, OuterRuns.LeavesDesk};
ghost use Rattle.agent_origin.specs.OuterTurns.{LeavesCache};
ghost use Rattle.agent_origin.specs.SessionExchanges.{SessionExchange, kept_at_start};
ghost use Rattle.agent_origin.specs.Sessions.{ServesSession, Surroundings};
ghost use Rattle.agent_origin.specs.declared.door.Door.{Door, TheVariants.Outer};
ghost use Rattle.agent_ports.specs.{Counts.Rose, declared.session.SessionId.SessionId};
ghost use Rattle.counted_lock.specs.{Passes.AtPass, Turns.at_counted};
ghost use Rattle.session_options.specs.declared.rules.Rules.{Rules};
ghost use Rattle.agent_serve.specs.{Prompts.{HavePrompts, Prompted}, Serves.{LinkSides, ServesOne}};
ghost use Rattle.agent_serve.specs.Working.{Post, Works};

use crate::views::ViewedHost;
use agent_ask::Prompter;
use agent_ports::{Ear, Host, Listener, Next};
use cache_policy::Desk;
use pinentry_client::a_pinentry_is_a_prompter;

/// A restricted session of the daemon takes the seat for prompts of which nothing is kept, gives it
/// back, and looks whether passphrases are cached. So its marks in the one run store and clear
/// nothing, and none of them was given a passphrase.
pub fn a_restricted_session_leaves_the_run<H: Host>()
    ensures { (path : List ℕ) (rules : Rules) (session : SessionId) (before after : LinkSides)
        (pass now : AtPass) (end : Ends) → (serves : ServesOne (⟦<H as ViewedHost>⟧.views path).parts
        H.Trust.trust path rules Outer session before pass end after now)
        → LeavesCache serves.served.events
        × LeavesDesk (at_counted (record pass { sessions = session.count + 1 }) session None)
        (turns_in serves.served.events) (at_counted now session None) }
{}

/// A prompt of a restricted session of the daemon names no terminal and no language.
pub fn a_restricted_session_names_no_terminal<H: Host>()
    ensures { (path : List ℕ) (rules : Rules) (session : SessionId) (before after : LinkSides)
        (pass now : AtPass) (end : Ends) → (serves : ServesOne (⟦<H as ViewedHost>⟧.views path).parts
        H.Trust.trust path rules Outer session before pass end after now)
        → PromptsName no_words serves.served.events }
{}

/// The prompter's calls in a session are those of prompts, one after another, each from its start
/// to its end. The same of a session that came in by a door.
pub fn the_calls_of_a_session_are_prompts<D: Desk, P: Prompter>()
    ensures session { (rules : Rules)
        (before after : Surroundings (PortWorld D.turned P.prompted)) (end : Ends)
        → (served : ServesSession {w = PortWorld D.turned P.prompted} (SessionExchange rules)
        (kept_at_start rules) before end after) → Prompted served.events }
    ensures door { (door : Door) (rules : Rules)
        (before after : Surroundings (PortWorld D.turned P.prompted)) (end : Ends)
        → (served : ServesDoor D.turned P.prompted door rules before end after)
        → Prompted served.events }
{}

/// The prompter's calls in a session of the daemon are those of prompts, one after another, each
/// from its start to its end. The children that its launcher had are theirs, in order: one for each
/// prompt, with which its calls are a dialogue, but for a prompt whose launch failed.
pub fn prompts_of_a_daemons_session_have_their_children<H: Host>()
    ensures { (path : List ℕ) (rules : Rules) (door : Door) (session : SessionId)
        (before after : LinkSides) (pass now : AtPass) (end : Ends)
        → (serves : ServesOne (⟦<H as ViewedHost>⟧.views path).parts H.Trust.trust path rules door
        session before pass end after now)
        → HavePrompts rules.pinentry.items serves.served.events
        (H.Launcher.launches serves.parts.launcher) serves.launches_now }
{
    a_pinentry_is_a_prompter();
}

/// A worker ends for a cause: where no call with its ear failed, and its pass still has numbers for
/// sessions, its listener's last answer was that it is stopped, as it was told to be.
pub fn a_worker_ends_for_a_cause<H: Host>()
    ensures { (path : List ℕ) (rules : Rules) (post : Post H.Listener)
        (pass now : AtPass) (ear back : H.Ear)
        → Works (⟦<H as ViewedHost>⟧.views path) rules post pass ear now back
        → ¬ Rose (H.Ear.faults ear) (H.Ear.faults back) → now.sessions < 2 ^ 64 - 1
        → (last : H.Ear) × H.Listener.answers post.listener last Next.Stopped back
        × H.Listener.is_told post.listener }
{}
