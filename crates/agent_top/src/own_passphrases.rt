//! Laws on whose a passphrase is in a daemon: a session hands only its own line's to the cache.
//! Nothing runs; each contract is a fact about the definitions. Begin with
//! `a_daemon_stores_its_sessions_own`; definitions are in `specs/OwnPassphrases`.

ghost use Rattle.std.specs.Prelude.{List, ℕ};
ghost use Rattle.agent_commands.specs.declared.went.SessionEnd.{SessionEnd as Ends};
ghost use Rattle.{agent_origin.specs.declared.door.Door.Door, agent_ports.specs.Sides.Side};
ghost use Rattle.agent_ports.specs.declared.session.SessionId.{SessionId};
ghost use Rattle.{agent_serve.specs.Serves.{LinkSides, ServesOne}, agent_session.specs.Causes.Has};
ghost use Rattle.agent_session.specs.OwnPassphrases.{HandsIn};
ghost use Rattle.{cache_policy.specs.declared.mark.Mark.Mark, counted_lock.specs.Passes.AtPass};
ghost use Rattle.session_options.specs.declared.rules.Rules.{Rules};
ghost use Rattle.agent_top.specs.{Daemon.SumsUp, OwnPassphrases.{IsOfSession, IsOwnTurn}};

use agent_ports::Host;
use agent_serve::ViewedHost;

/// A session of a daemon hands to the cache only what is its own line's: each of its marks in the
/// run that does so is a turn of it, and the passphrase is of the last line that it had read.
pub fn a_session_of_a_daemon_stores_its_own<H: Host>()
    ensures { (path : List ℕ) (rules : Rules) (door : Door) (session : SessionId)
        (before after : LinkSides) (pass now : AtPass) (end : Ends) →
        (one : ServesOne (⟦<H as ViewedHost>⟧.views path).parts H.Trust.trust path rules door
        session before pass end after now)
        → (mark : Mark) → Has mark one.own → HandsIn mark.step
        → IsOwnTurn door rules one.served.events mark }
{}

/// So in the one run of a daemon: each mark by which a passphrase is handed to the cache was made
/// by one of its sessions, which the mark names, and the passphrase is of that session's own line.
/// What `run_daemon` says of a run that came to its end is supposed here.
pub fn a_daemon_stores_its_sessions_own<H: Host>()
    ensures { (path : List ℕ)
        (rules : Rules) (listens listens_now : ℕ) (before after : Side) (number : ℕ)
        → (sums : SumsUp (⟦<H as ViewedHost>⟧.views path) rules listens before number listens_now
        after) → (mark : Mark) → Has mark sums.closed.run → HandsIn mark.step
        → IsOfSession (⟦<H as ViewedHost>⟧.views path) rules mark }
{}
