//! The agent: its words are read, the host is settled, and a server, a daemon or a load is run. It
//! works on standard input and output and on the host's parts, which it gives back. Begin with
//! `run_agent`, whose clauses are the release guarantee; definitions begin in `specs/Top`.

ghost use Rattle.std.specs.Prelude.{◌≡◌, ◌⊎◌, map, string_bytes, IfSome, IfNone, IsSome, is_some};
ghost use Rattle.std.specs.Prelude.{false};
ghost use Rattle.{agent_core.specs.Solos.seen, pinentry_client.specs.States.at_pinentry};
ghost use Rattle.agent_ports.specs.HostParts.{AreSettled};
ghost use Rattle.agent_top.specs.{Cache.{limits_of, fresh_desk}, Words.rules_of, Daemon.RunsDaemon};
ghost use Rattle.agent_top.specs.Load.{RunsLoad};
ghost use Rattle.agent_top.specs.Top.{exit_number, in_folder, machine, with_pid, IsRefusal};
ghost use Rattle.agent_top.specs.Top.{no_child};
ghost use Rattle.agent_top.specs.Top.{UsesParts, KeepsParts, RunsServer, RunsInFolder, HadNoMemory};
ghost use Rattle.agent_top.specs.Top.{IfServer, IfDaemon, IfLoad};

use crate::Status;
use crate::daemon::run_daemon;
use crate::load::run_load;
use crate::words::{WordsFault, read_words};
use agent_core::{KnownCore, Solo};
use agent_ports::{Clock, Dice, Host, Keys, Launcher, Link, SessionId};
use agent_serve::{SharedHost, ViewedHost};
use agent_session::serve_session;
use cache_policy::Limits;
use pinentry_client::Pinentry;
use session_options::{Rules, RunMode, copied};
use std::alloc::Global;
use std::rt;
use std::sync::Wait;
use std::thread::Threads;

/// The session that is served on standard input and output.
pub(crate) const SESSION: SessionId = SessionId { pass: 0, count: 0 };

/// The agent. It reads its words, which leave out the program's name, settles the host at the
/// folder that they say, and serves a session on standard input and output, or as a daemon those of
/// a listener.
///
/// Its answer is the status of the process: 0 at BYE, at KILLAGENT or at the end of the input, 1
/// where there is no memory for the words or the session, 2 for words that it doesn't take, 3 and 4
/// where a read or a write failed, 6 after 2^40 bytes, and 7 at a line of more than 1,000 bytes.
/// With `--daemon` it is as `run_daemon` says, and with `--load` as `run_load` does.
/// `--extra-socket` beside `--daemon` has restricted sessions served too, at a listener of their
/// own.
pub fn run_agent<W: Threads + Wait + rt::Clock + Sync, S: Link, H: SharedHost>(
    rt: &W,
    alloc: Global,
    words: &[String],
    stdio: &mut S,
    host: &mut H,
) -> u8
where
    H::Listener: Drop,
    requires { IsSome (H.server host.old) }
    // Words that it doesn't know, or has no memory to read: nothing is read or written.
    ensures refused { IfNone (rules_of (map string_bytes words.now))
        (IsRefusal result × (S.input stdio.new ≡ S.input stdio.old)
        × (S.output stdio.new ≡ S.output stdio.old) × (host.new ≡ host.old)) }
    // Words for standard input and output: a session was served with the key files of the words'
    // folder, or there was no memory and nothing was read or written. The host has its parts again.
    ensures served { IfSome (rules_of (map string_bytes words.now)) (λ rules.
        IfServer rules.run (UsesParts (λ had has. RunsInFolder (with_pid (H.process host.old) rules)
        (machine (S.input stdio.old) (S.output stdio.old) (H.Clock.readings had.clock)
        (H.Launcher.launches had.launcher) (H.Keys.keys had.keys) (H.Dice.draws had.dice)) result
        (machine (S.input stdio.new) (S.output stdio.new) (H.Clock.readings has.clock)
        (H.Launcher.launches has.launcher) (H.Keys.keys has.keys) (H.Dice.draws has.dice)))
        (H.server host.old) (H.server host.new))) }
    // Words for a daemon: its sessions were served and its summary was written, unless there was no
    // listener or no memory. Nothing is read of standard input, and the host keeps its parts.
    ensures daemon { IfSome (rules_of (map string_bytes words.now))
        (λ rules. IfDaemon rules.run (RunsDaemon
        (⟦<H as ViewedHost>⟧.views rules.homedir.items) (with_pid (H.process host.old) rules)
        (H.listens host.old) (S.output stdio.old) result
        (H.listens host.new) (S.output stdio.new) × (S.input stdio.new ≡ S.input stdio.old)
        × KeepsParts (⟦<H as ViewedHost>⟧.views rules.homedir.items).parts
        rules.homedir.items (H.server host.old) (H.server host.new))) }
    // Words for a load: it was served, and its line was written, unless there was no memory.
    // Nothing is read, and the host keeps its parts.
    ensures load { IfSome (rules_of (map string_bytes words.now))
        (λ rules. IfLoad rules.run (λ number. RunsLoad number (S.output stdio.old) result
        (S.output stdio.new) × (S.input stdio.new ≡ S.input stdio.old)
        × KeepsParts (⟦<H as ViewedHost>⟧.views rules.homedir.items).parts
        rules.homedir.items (H.server host.old) (H.server host.new))) }
    // The host stays settled at the folder of the words.
    ensures homedir { IfSome (rules_of (map string_bytes words.now)) (λ rules.
        (H.homedir host.new ≡ rules.homedir.items) ⊎ (HadNoMemory result × (host.new ≡ host.old))) }
    ensures process { H.process host.new ≡ H.process host.old }
{
    match read_words(alloc, words) {
        Ok(rules) => {
            let rules = with_pid(rules, host.pid());
            run_rules(rt, alloc, &rules, stdio, host)
        }
        Err(WordsFault::Bad) => Status::BadWords.number(),
        Err(WordsFault::NoMemory) => Status::NoMemory.number(),
    }
}

/// Settles the host at the folder of the rules, and serves a session on standard input and output,
/// or as a daemon those of a listener, or a load. Its answer is as `run_agent`'s.
pub(crate) fn run_rules<W: Threads + Wait + rt::Clock + Sync, S: Link, H: SharedHost>(
    rt: &W,
    alloc: Global,
    rules: &Rules,
    stdio: &mut S,
    host: &mut H,
) -> u8
where
    H::Listener: Drop,
    requires { IsSome (H.server host.old) }
    ensures one { IfServer rules.now.run (UsesParts (λ had has. RunsServer rules.now
        (in_folder rules.now (machine (S.input stdio.old) (S.output stdio.old)
        (H.Clock.readings had.clock) (H.Launcher.launches had.launcher) (H.Keys.keys had.keys)
        (H.Dice.draws had.dice))) result
        (machine (S.input stdio.new) (S.output stdio.new) (H.Clock.readings has.clock)
        (H.Launcher.launches has.launcher) (H.Keys.keys has.keys) (H.Dice.draws has.dice)))
        (H.server host.old) (H.server host.new)) }
    ensures many { IfDaemon rules.now.run (RunsDaemon
        (⟦<H as ViewedHost>⟧.views rules.now.homedir.items) rules.now (H.listens host.old)
        (S.output stdio.old) result (H.listens host.new) (S.output stdio.new)
        × (S.input stdio.new ≡ S.input stdio.old)
        × KeepsParts (⟦<H as ViewedHost>⟧.views rules.now.homedir.items).parts
        rules.now.homedir.items (H.server host.old) (H.server host.new)) }
    ensures load { IfLoad rules.now.run (λ number. RunsLoad number (S.output stdio.old) result
        (S.output stdio.new) × (S.input stdio.new ≡ S.input stdio.old)
        × KeepsParts (⟦<H as ViewedHost>⟧.views rules.now.homedir.items).parts
        rules.now.homedir.items (H.server host.old) (H.server host.new)) }
    ensures homedir { H.homedir host.new ≡ rules.now.homedir.items }
    ensures process { H.process host.new ≡ H.process host.old }
{
    settle(rules, host);
    match rules.run {
        RunMode::Daemon => run_daemon(rt, alloc, rules, stdio, host),
        RunMode::Load(number) => run_load(alloc, number, stdio),
        RunMode::Server => run_server(alloc, rules, stdio, host),
    }
}

/// Settles the host at the folder of the rules.
fn settle<H: Host>(rules: &Rules, host: &mut H)
    ensures homedir { H.homedir host.new ≡ rules.now.homedir.items }
    ensures parts { AreSettled (⟦<H as ViewedHost>⟧.views rules.now.homedir.items).parts
        rules.now.homedir.items (H.server host.old) (H.server host.new) }
    ensures process { H.process host.new ≡ H.process host.old }
    ensures listens { H.listens host.new ≡ H.listens host.old }
{
    host.settle(&rules.homedir);
}

/// Serves one session on standard input and output, and gives its status, as `run_agent` does. It
/// always returns. Meanwhile it has the host's parts.
pub fn run_server<S: Link, H: Host>(alloc: Global, rules: &Rules, stdio: &mut S, host: &mut H) -> u8
    requires { IsSome (H.server host.old) }
    ensures served { UsesParts (λ had has. RunsServer rules.now
        (machine (S.input stdio.old) (S.output stdio.old) (H.Clock.readings had.clock)
        (H.Launcher.launches had.launcher) (H.Keys.keys had.keys) (H.Dice.draws had.dice)) result
        (machine (S.input stdio.new) (S.output stdio.new) (H.Clock.readings has.clock)
        (H.Launcher.launches has.launcher) (H.Keys.keys has.keys) (H.Dice.draws has.dice)))
        (H.server host.old) (H.server host.new) }
    ensures process { H.process host.new ≡ H.process host.old }
    ensures homedir { H.homedir host.new ≡ H.homedir host.old }
{
    let mut parts = host.server_parts();
    let status = serve_alone(
        alloc,
        rules,
        stdio,
        &mut parts.clock,
        &mut parts.launcher,
        &mut parts.keys,
        &mut parts.dice,
    );
    host.parts_back(parts);
    status.number()
}

/// Serves one session at a desk of its own over the clock, and with children of the launcher.
fn serve_alone<S: Link, C: Clock, La: Launcher, K: Keys, R: Dice>(
    alloc: Global,
    rules: &Rules,
    stdio: &mut S,
    clock: &mut C,
    launcher: &mut La,
    keys: &mut K,
    dice: &mut R,
) -> Status
    ensures runs { RunsServer rules.now (machine (S.input stdio.old) (S.output stdio.old)
        (C.readings clock.old) (La.launches launcher.old) (K.keys keys.old) (R.draws dice.old))
        (exit_number result) (machine (S.input stdio.new) (S.output stdio.new)
        (C.readings clock.new) (La.launches launcher.new) (K.keys keys.new) (R.draws dice.new)) }
{
    let Ok(core) = KnownCore::new(alloc, limits_of(rules)) else {
        return Status::NoMemory;
    };
    let mut desk = Solo::over(core, clock, SESSION, Vec::new(alloc));
    let mut pinentry = Pinentry::new(alloc, launcher, copied(&rules.pinentry));
    let status = serve(alloc, rules, stdio, &mut desk, &mut pinentry, keys, dice);
    // So what was read of the clock, and which children there were, is known of them.
    desk.end();
    pinentry.into_launcher();
    status
}

/// Serves one session at a desk whose cache is empty, and with a pinentry that has no child.
fn serve<S: Link, C: Clock, La: Launcher, K: Keys, R: Dice>(
    alloc: Global,
    rules: &Rules,
    stdio: &mut S,
    desk: &mut Solo<'_, C>,
    pinentry: &mut Pinentry<'_, La>,
    keys: &mut K,
    dice: &mut R,
) -> Status
    requires desk { seen C.readings desk.old ≡ fresh_desk (limits_of rules.now)
        (C.readings desk.old.clock) }
    requires pinentry { at_pinentry La.launches pinentry.old ≡ no_child rules.now
        (La.launches pinentry.old.launcher) }
    ensures runs { RunsServer rules.now
        (machine (S.input stdio.old) (S.output stdio.old) (C.readings desk.old.clock)
        (La.launches pinentry.old.launcher) (K.keys keys.old) (R.draws dice.old))
        (exit_number result)
        (machine (S.input stdio.new) (S.output stdio.new) (C.readings desk.new.clock)
        (La.launches pinentry.new.launcher) (K.keys keys.new) (R.draws dice.new)) }
    ensures lent { desk.new.lent ≡ desk.old.lent }
    ensures launcher { pinentry.new.lent ≡ pinentry.old.lent }
    ensures childless { is_some pinentry.new.child ≡ false }
{
    Status::of(serve_session(alloc, rules, stdio, desk, pinentry, keys, dice))
}

/// The lifetimes that the rules say.
pub(crate) fn limits_of(rules: &Rules) -> Limits
    ensures { result ≡ limits_of rules.now }
{
    Limits {
        ttl: rules.default_ttl,
        max: rules.max_ttl,
        ttl_ssh: rules.default_ttl_ssh,
        max_ssh: rules.max_ttl_ssh,
    }
}

/// The rules with the number of the process.
fn with_pid(mut rules: Rules, pid: u32) -> Rules
    ensures { result ≡ with_pid pid rules }
{
    rules.pid = pid;
    rules
}
