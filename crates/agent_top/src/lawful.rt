//! What the agent does, by the laws on whole runs: each is applied here to the runs of real calls.
//! Begin with [`run_lawful_server`], which is [`run_server`] and ensures each law's conclusion over
//! its run. What these touch is what `run_server`, `run_daemon` and `run_load` do. Definitions
//! begin in `specs/LawfulRuns`.

ghost use Rattle.std.specs.Prelude.{◌≡◌, IsSome};
ghost use Rattle.agent_top.specs.LawfulRuns.{LawfulDaemon, LawfulLoad, LawfulServer};
ghost use Rattle.agent_top.specs.Top.{UsesParts, machine};

use crate::daemon::run_daemon;
use crate::load::run_load;
use crate::top::run_server;
use agent_ports::{Clock, Dice, Host, Keys, Launcher, Link, Sink, Source};
use agent_serve::{SharedHost, ViewedHost};
use session_options::Rules;
use std::alloc::Global;
use std::rt;
use std::sync::Wait;
use std::thread::Threads;

/// A run of the server, by the laws on whole runs: each request is lawful, each error has its
/// cause, prompts have their children; where no count of the link rose it ends well, and where none
/// of the machine did each request is answered.
pub fn run_lawful_server<S: Link, H: Host>(
    alloc: Global,
    rules: &Rules,
    stdio: &mut S,
    host: &mut H,
) -> u8
    requires { IsSome (H.server host.old) }
    ensures lawful { UsesParts (λ had has. LawfulServer rules.now
        (machine (S.input stdio.old) (S.output stdio.old) (H.Clock.readings had.clock)
        (H.Launcher.launches had.launcher) (H.Keys.keys had.keys) (H.Dice.draws had.dice)) result
        (machine (S.input stdio.new) (S.output stdio.new) (H.Clock.readings has.clock)
        (H.Launcher.launches has.launcher) (H.Keys.keys has.keys) (H.Dice.draws has.dice)))
        (H.server host.old) (H.server host.new) }
    ensures process { H.process host.new ≡ H.process host.old }
    ensures homedir { H.homedir host.new ≡ H.homedir host.old }
{
    run_server(alloc, rules, stdio, host)
}

/// A run of the daemon, by the laws on whole runs and on sessions: each passphrase in the one run
/// is of a session's own line, and it ends well where no call for a link and no write failed. Each
/// worker ends for a cause. Of each session its requests are lawful, each error has its cause, what
/// it stores is its own, prompts have their children, and where no count of its own rose each
/// request is answered. A restricted one leaves the cache, and its prompts name no terminal.
pub fn run_lawful_daemon<W: Threads + Wait + rt::Clock + Sync, S: Link, H: SharedHost>(
    rt: &W,
    alloc: Global,
    rules: &Rules,
    stdio: &mut S,
    host: &mut H,
) -> u8
where
    H::Listener: Drop,
    ensures lawful { LawfulDaemon (⟦<H as ViewedHost>⟧.views (H.homedir host.old)) rules.now
        (H.listens host.old) (S.output stdio.old) result (H.listens host.new)
        (S.output stdio.new) }
    ensures input { S.input stdio.new ≡ S.input stdio.old }
    ensures server { H.server host.new ≡ H.server host.old }
    ensures process { H.process host.new ≡ H.process host.old }
    ensures homedir { H.homedir host.new ≡ H.homedir host.old }
{
    run_daemon(rt, alloc, rules, stdio, host)
}

/// A run of the load, by the law on it: it ends well where no write failed.
pub fn run_lawful_load<S: Link>(alloc: Global, number: u32, stdio: &mut S) -> u8
    ensures lawful { LawfulLoad number (S.output stdio.old) result (S.output stdio.new) }
    ensures input { S.input stdio.new ≡ S.input stdio.old }
{
    run_load(alloc, number, stdio)
}
