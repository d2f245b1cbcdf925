//! Laws on single requests and prompts, as they hold throughout a run of the agent. Nothing runs;
//! each contract is a fact about the definitions. Begin with `each_request_of_a_server_is_lawful`;
//! what is lawful says `specs/Runs`.

ghost use Rattle.std.specs.Prelude.{List, ℕ};
ghost use Rattle.agent_commands.specs.declared.went.SessionEnd.{SessionEnd as Ends};
ghost use Rattle.agent_origin.specs.declared.door.Door.{Door};
ghost use Rattle.agent_ports.specs.declared.session.SessionId.{SessionId};
ghost use Rattle.agent_serve.specs.Serves.{LinkSides, ServesOne};
ghost use Rattle.agent_top.specs.Runs.{IsLawfulRun, IsLawfulSession, RunHasPrompts};
ghost use Rattle.agent_top.specs.Top.{Machine, RunsServer};
ghost use Rattle.counted_lock.specs.Passes.{AtPass};
ghost use Rattle.session_options.specs.declared.rules.Rules.{Rules};

use agent_ports::Host;
use agent_serve::ViewedHost;
use pinentry_client::a_pinentry_is_a_prompter;

/// The laws on single requests hold of each exchange of a run, between the states of its desk and
/// its ports before and behind it. A request that asks nobody is answered at once, and wants
/// no memory within a history, where it is one on the cache alone; one that was refused did nothing
/// more; what it hands to the cache is its own; a failure raised its count, and at most as many
/// failed on an end as its count rose by; after an error line the session goes on, unless that is
/// Line too long; and without a cause for an error the answer is OK. Of the whole run: where a line
/// was too long it ends by that, unless a write failed, and failures and counts agree from its start
/// to its end.
pub fn each_request_of_a_server_is_lawful()
    ensures { (rules : Rules) (before after : Machine) (number : ℕ)
        (runs : RunsServer rules before number after) → IsLawfulRun runs }
{
    a_pinentry_is_a_prompter();
}

/// The same laws hold of a session of a daemon and of each exchange of it; those on a single request
/// of the lines that are allowed at its door and aren't the door's own to answer.
pub fn each_request_of_a_daemon_is_lawful<H: Host>()
    ensures { (path : List ℕ) (rules : Rules) (door : Door) (session : SessionId)
        (before after : LinkSides) (pass now : AtPass) (end : Ends)
        (one : ServesOne (⟦<H as ViewedHost>⟧.views path).parts H.Trust.trust path rules door
        session before pass end after now)
        → IsLawfulSession one }
{
    a_pinentry_is_a_prompter();
}

/// The prompter's calls in a run are those of prompts, one after another, each from its start to
/// its end. The children that the machine's launcher had are theirs, in order: one for each prompt,
/// with which its calls are a dialogue, but for a prompt whose launch failed.
pub fn prompts_of_a_server_have_their_children()
    ensures { (rules : Rules) (before after : Machine) (number : ℕ)
        (runs : RunsServer rules before number after) → RunHasPrompts runs }
{
    a_pinentry_is_a_prompter();
}
