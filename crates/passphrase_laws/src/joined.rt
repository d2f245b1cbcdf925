//! The law that joins both sides: whence a passphrase is that a run of the command gives, in the one
//! run of the daemon whose session it spoke with. Nothing runs. Definitions are in `specs/Joined`.

ghost use Rattle.std.specs.Prelude.{List, ℕ};
ghost use Rattle.{agent_ports.specs.Sides.Side, agent_top.specs.Daemon.RunsDaemon};
ghost use Rattle.passphrase_client.specs.Runs.{RunsAskpass, RunsBy, World};
ghost use Rattle.session_options.specs.{OptionValues.EnvWords, declared.rules.Rules.Rules};
ghost use Rattle.passphrase_laws.specs.Joined.{IsJoined, IsJoinedAskpass};

use crate::said::a_task_says_what_its_words_mean;
use agent_ports::Host;
use agent_serve::ViewedHost;
use agent_session::an_exchange_at_a_door_is_a_sessions;
use passphrase_client::what_is_given_was_answered;

/// What `run_passphrase` says of a run, and `run_daemon` of a daemon's: where the run gave a
/// passphrase, one of its contacts was told it; and wherever this was with a session of that daemon,
/// the session's own exchange of the request told it, and in the daemon's one run it was that of the
/// live entry of the id at a turn of this session, or what the prompt that this request opened
/// accepted. The same of a run as an askpass.
pub fn what_is_given_was_live_or_typed<H: Host>()
    ensures command { (words : List (List ℕ)) (terminal : EnvWords) (reason : List ℕ)
        (start stop : World) (status : ℕ) (path : List ℕ) (rules : Rules)
        (listens listens_now number : ℕ) (before after : Side)
        → (run : RunsBy words terminal reason start stop status)
        → (daemon : RunsDaemon (⟦<H as ViewedHost>⟧.views path) rules listens before number
        listens_now after)
        → IsJoined (⟦<H as ViewedHost>⟧.views path) rules run daemon }
    ensures askpass { (words : List (List ℕ)) (terminal : EnvWords) (reason : List ℕ)
        (start stop : World) (status : ℕ) (path : List ℕ) (rules : Rules)
        (listens listens_now number : ℕ) (before after : Side)
        → (run : RunsAskpass words terminal reason start stop status)
        → (daemon : RunsDaemon (⟦<H as ViewedHost>⟧.views path) rules listens before number
        listens_now after)
        → IsJoinedAskpass (⟦<H as ViewedHost>⟧.views path) rules run daemon }
{
    an_exchange_at_a_door_is_a_sessions();
    a_task_says_what_its_words_mean();
    what_is_given_was_answered();
}
