//! A daemon that is left behind: this program once more, in a session of its own, with what a
//! daemon is to have of its caller's and no more. It starts programs, and waits until the daemon
//! greets. Begin with `start`.

use crate::call::Call;
use crate::starter::{SystemStarter, say_pinentry};
use agent_conf::Mode;
use agent_start::{
    CoreDumps, Fault, Found, HomeConf, Sockets, SystemConf, Voice, core_dumps, cut, found_at,
    ignores_ends, lock, open_log, reason,
};
use agent_top::{Options, Starter, Status, read_options};
use child_environment::hand_on;
use std::alloc::Global;
use std::fs::{File, Files};
use std::net::Net;
use std::process::{Child, Command, OpenProcess, Processes, Stdio};
use std::rt::{Clock, Env};
use std::time::Duration;
use std::{env, fs, io, thread};

/// It makes a session (setsid(1)): a daemon that shares a shell's is stopped by its terminal.
const SETSID: &str = "/usr/bin/setsid";

/// It sets back which signals are heeded (env(1) of the GNU coreutils): a hangup that its caller
/// ignores would be ignored by the daemon too.
const ENV: &str = "/usr/bin/env";

const HEEDED: &str = "--default-signal=HUP,TERM,INT";

/// It limits a core dump to one byte: none, and by the kernel's rule none to a program that takes
/// them either, which a limit of 0 doesn't keep from it (core(5)).
const PRLIMIT: &str = "/usr/bin/prlimit";

const ONE_BYTE: &str = "--core=1:1";

/// What is made is closed to others, and a file that would grow past a limit is a fault to the daemon
/// and no end. Where there is no other way it writes no core dump to a file.
const SHELL: &str = "/bin/sh";

const CLOSED: &str = "trap '' XFSZ; umask 077; exec \"$@\"";

const CLOSED_WITHOUT_CORE: &str = "ulimit -c 0; trap '' XFSZ; umask 077; exec \"$@\"";

/// Where a daemon and its pinentry find programs: the caller's may be anybody's.
const PROGRAMS: &str = "/usr/local/bin:/usr/bin:/bin";

/// How long a daemon has until it greets: a thousandth of a second between the first looks, then a
/// hundredth.
const FIRST_LOOKS: u32 = 40;

const LOOKS: u32 = 540;

/// The status where none is started: one is there already, and this one was to stay in front, or
/// the system doesn't start it, or it doesn't answer.
const NOT_STARTED: u8 = 2;

/// Starts a daemon, unless one answers, and gives the status of the process.
pub(crate) fn start<R: Clock + Env + Files<File = File> + Net + Processes + Print + Eprint>(
    rt: &R,
    alloc: Global,
    call: &Call,
) -> Result<u8, Fault> {
    let lock = lock(rt, alloc, &call.log)?;
    let sockets = Sockets::of(rt, alloc, &call.home)?;
    leave_if_answered(rt, alloc, &sockets, call)?;
    cut(rt, alloc, &call.log);
    if let Some(status) = refused(rt, alloc, call) {
        return Ok(status);
    }
    // The daemon takes it.
    drop(lock);
    let daemon = match spawn(rt, alloc, call) {
        Ok(daemon) => daemon,
        Err(error) => return Ok(failed(rt, call, &error)),
    };
    Ok(await_greeting(rt, call, &sockets.own, daemon))
}

/// Where an agent answers nothing is started.
pub(crate) fn leave_if_answered<R: Clock + Files<File = File> + Net + Print + Eprint>(
    rt: &R,
    alloc: Global,
    sockets: &Sockets,
    call: &Call,
) -> Result<(), Fault> {
    let Some(found) = sockets.answered(rt) else {
        return Ok(());
    };
    if found == sockets.own.as_str() {
        sockets.point(rt, alloc)?;
    }
    let voice = match call.mode {
        Mode::Detach => Voice::Caller,
        _ => call.voice(),
    };
    voice.say(
        rt,
        &format_args!("an agent answers at {found} already: not starting a new one"),
    );
    Err(Fault::Over(if call.mode == Mode::Detach {
        0
    } else {
        NOT_STARTED
    }))
}

/// The status of a start that is refused, which is told to the caller and in the log. What else is
/// told of the options goes to the caller alone: the daemon tells it again, in the log. The count is
/// measured before the daemon's time begins.
fn refused<'a, R: Clock + Env + Files<File = File> + Net + Processes + Print + Eprint>(
    rt: &'a R,
    alloc: Global,
    call: &'a Call,
) -> Option<u8> {
    let options = match options_of(rt, alloc, call, Voice::Caller) {
        Ok(options) => options,
        Err(status) => {
            let _ = options_of(rt, alloc, call, Voice::LogAt(&call.log));
            return Some(status.number());
        }
    };
    let mut starter = SystemStarter::new(rt, alloc, call, call.voice());
    if !starter.admits(options.forces_network_home) {
        return Some(NOT_STARTED);
    }
    say_pinentry(rt, call, Voice::Caller, &options.rules.pinentry);
    starter.version();
    if options.measures_count {
        starter.measured_count(options.calibration);
    }
    None
}

/// The options of the call, of which is told what there is to tell.
fn options_of<'a, R: Clock + Env + Files<File = File> + Net + Processes + Print + Eprint>(
    rt: &'a R,
    alloc: Global,
    call: &'a Call,
    voice: Voice<'a>,
) -> Result<Options, Status> {
    let mut files = SystemConf::new(rt, &call.conf, voice);
    let mut told = voice.sink(rt);
    read_options(alloc, &call.place(), &call.words, &mut files, &mut told)
}

/// Starts this program in a session of its own, with a few variables of the environment, nothing to
/// read, and the log to write into. All further descriptors are closed in it.
fn spawn<R: Env + Files<File = File> + Processes>(
    rt: &R,
    alloc: Global,
    call: &Call,
) -> io::Result<Child<R::Started>> {
    let log = open_log(rt, &call.log)?;
    let mut command = Command::new(alloc, SETSID)?;
    // Each program in front takes a thousandth of a second: most callers want none of these two.
    if ignores_ends(rt, alloc) && sets_signals(rt, alloc) {
        command.arg(ENV)?;
        command.arg(HEEDED)?;
    }
    let closed = limit_core(rt, alloc, &mut command)?;
    for word in [SHELL, "-c", closed, "gpg-agent"] {
        command.arg(word)?;
    }
    command.arg(env::current_exe(&(rt, alloc))?.as_str())?;
    add_words(alloc, &mut command, call)?;
    hand_on(rt, alloc, &mut command)?;
    command.env("PATH", PROGRAMS)?;
    command.current_dir("/")?;
    command.stdin(Stdio::null());
    command.stdout(Stdio::from(log.try_clone()?));
    command.stderr(Stdio::from(log));
    command.spawn(rt)
}

/// Has a core dump limited, and gives what the shell is to do besides.
fn limit_core<R: Files<File = File>>(
    rt: &R,
    alloc: Global,
    command: &mut Command,
) -> io::Result<&'static str> {
    match core_dumps(rt, alloc) {
        CoreDumps::Limited => Ok(CLOSED),
        CoreDumps::Open if fs::exists(rt, PRLIMIT).unwrap_or(false) => {
            command.arg(PRLIMIT)?;
            command.arg(ONE_BYTE)?;
            Ok(CLOSED)
        }
        CoreDumps::Open | CoreDumps::Unknown => Ok(CLOSED_WITHOUT_CORE),
    }
}

/// Whether env(1) knows that word, as not each does.
fn sets_signals<R: Processes>(rt: &R, alloc: Global) -> bool {
    knows_signals(rt, alloc).unwrap_or(false)
}

fn knows_signals<R: Processes>(rt: &R, alloc: Global) -> io::Result<bool> {
    let mut command = Command::new(alloc, ENV)?;
    command.arg(HEEDED)?;
    command.arg("/bin/true")?;
    command.env_clear();
    command.stdin(Stdio::null());
    command.stdout(Stdio::null());
    command.stderr(Stdio::null());
    Ok(command.status(rt)?.success())
}

/// The words of this call, and behind them those by which it stays, with paths from the root. The
/// first one more is a value where the last one wants one.
fn add_words(alloc: Global, command: &mut Command, call: &Call) -> io::Result<()> {
    for word in &call.words {
        command.arg(word.as_str())?;
    }
    command.arg("--quiet")?;
    command.arg(format!(in alloc; "--homedir={}", call.home)?.as_str())?;
    if let HomeConf::Named(path) = &call.conf {
        command.arg(format!(in alloc; "--options={path}")?.as_str())?;
    }
    command.arg("--no-detach")?;
    Ok(())
}

/// Waits until an agent greets, and says why none does.
fn await_greeting<R: Clock + Files<File = File> + Net + Print + Eprint, P: OpenProcess + Drop>(
    rt: &R,
    call: &Call,
    socket: &str,
    mut daemon: Child<P>,
) -> u8 {
    for look in 0..LOOKS {
        let ended = daemon.try_wait();
        if found_at(rt, socket) != Found::Nothing {
            return 0;
        }
        match ended {
            Ok(None) => {}
            Ok(Some(status)) => return ended_with(rt, call, status.code()),
            Err(error) => return failed(rt, call, &error),
        }
        let millis = if look < FIRST_LOOKS { 1 } else { 10 };
        thread::sleep(rt, Duration::from_millis(millis));
    }
    let _ = daemon.kill();
    let _ = daemon.wait();
    call.voice()
        .say(rt, &format_args!("the agent doesn't answer at {socket}"));
    NOT_STARTED
}

/// Says how the daemon ended, and hands its status on.
fn ended_with<R: Clock + Files<File = File> + Print + Eprint>(
    rt: &R,
    call: &Call,
    code: Option<i32>,
) -> u8 {
    let log = &call.log;
    let Some(status) = code.and_then(|code| u8::try_from(code).ok()) else {
        call.voice()
            .say(rt, &format_args!("a signal ended the agent: see {log}"));
        return NOT_STARTED;
    };
    let why = reason(status).unwrap_or("it was told to end");
    call.voice().say(
        rt,
        &format_args!("the agent ended with status {status}: {why}; see {log}"),
    );
    status
}

fn failed<R: Clock + Files<File = File> + Print + Eprint>(
    rt: &R,
    call: &Call,
    error: &io::Error,
) -> u8 {
    call.voice()
        .say(rt, &format_args!("the agent can't be started: {error}"));
    NOT_STARTED
}
