//! The start and the end of a child program, the pinentry. It makes pipes, sockets and processes,
//! hands on a few variables of the environment, and says on the error stream what failed. Begin
//! with `PipeLauncher` and `start`; the promise is that of `Launcher` (`agent_ports`), and its
//! tests show the rest.

ghost use Rattle.std.specs.Prelude.{◌≡◌, None, IfOk};
ghost use Rattle.agent_ports.specs.Launches.{IsFresh};

use crate::child::PipedChild;
use crate::faults::count;
use crate::guard::{can_guard, can_start, guarded};
use crate::log::{Log, say};
use crate::patience::Patience;
use crate::terminal::Terminal;
use crate::told::LastError;
use agent_ports::{Launcher, Sink, Source};
use child_environment::hand_on;
use printable::Printable;
use std::alloc::Global;
use std::fs::{File, Files};
use std::io::ErrorKind;
use std::net::Net;
use std::os::fd::OwnedFd;
use std::os::unix::net::UnixStream;
use std::process::{Child, Command, OpenProcess, Processes, Stdio};
use std::time::Duration;
use std::{io, rt, str, thread};
use std_link::StdLink;

/// How often a child that is to end is looked at, before it is killed. Each look is followed by a
/// nap of twice the one before, of 1 microsecond at first: together they take a second, and an end
/// is seen after at most twice the time that it took.
const LOOKS: u32 = 20;

/// Starts programs without arguments, which are written to by a pipe and read by a socket, inherit a
/// few variables of the environment alone, and end with their agent where setpriv(1) is there. It
/// doesn't show what they give and are written. A child that is finished has a second to end by
/// itself. Why a program couldn't be started, and what a child failed by, is said on the error
/// stream, in one line.
#[derive(Drop)]
pub struct PipeLauncher<'a, R> {
    rt: &'a R,
    alloc: Global,
    can_guard: bool,
    faults: u64,
    log: Option<&'a Log>,
}

impl<'a, R: rt::Clock + rt::Env + Processes + Files<File = File> + Net + Eprint> PipeLauncher<
    'a,
    R,
> {
    /// A launcher that has started nothing yet. A launch takes memory for the program's path.
    pub fn new(rt: &'a R, alloc: Global) -> Self
        ensures { (⟦<PipeLauncher<'a, R> as Launcher>⟧.launches result).faults ≡ 0 }
    {
        PipeLauncher::logging(rt, alloc, None)
    }

    /// The same, whose lines go into this log.
    pub(crate) fn logging(rt: &'a R, alloc: Global, log: Option<&'a Log>) -> Self
        ensures { (⟦<PipeLauncher<'a, R> as Launcher>⟧.launches result).faults ≡ 0 }
    {
        PipeLauncher {
            rt,
            alloc,
            can_guard: false,
            faults: 0,
            log,
        }
    }
}

impl<'a, R: rt::Clock + rt::Env + Processes + Files<File = File> + Net + Eprint> Launcher
    for PipeLauncher<'a, R> {
    type Child = PipedChild<'a, R, R::Started>;

    ghost launches = { λ l.
        record { coming = None; launched = None; finished = None; faults = l.faults } };

    fn launch(&mut self, program: &[u8]) -> Option<PipedChild<'a, R, R::Started>> {
        self.can_guard = self.can_guard || can_guard(self.rt, self.alloc);
        let child = start(self.rt, self.alloc, self.can_guard, program, self.log);
        count(&mut self.faults, child.is_err());
        if let Err(error) = &child {
            let program = Printable(program);
            say(
                self.rt,
                self.log,
                &format_args!("{program} can't be started: {error}"),
            );
        }
        child.ok()
    }

    fn finish(&mut self, child: PipedChild<'a, R, R::Started>) {
        let PipedChild {
            rt: _,
            mut process,
            pipes,
            socket,
            patience: _,
            terminal,
            last_error,
            log,
        } = child;
        if let Some(failure) = last_error.failure() {
            say(
                self.rt,
                log,
                &format_args!("the pinentry {failure}{terminal}"),
            );
        }
        let (reads, writes) = pipes.faults();
        self.faults = self.faults.saturating_add(reads).saturating_add(writes);
        // A child that still reads, or writes, comes to the end of its pipes.
        drop(pipes);
        drop(socket);
        count(&mut self.faults, end(self.rt, &mut process).is_err());
    }
}

/// Starts the program, with a pipe to it and a pair of sockets from it, since a read of a socket can
/// have a limit.
fn start<'a, R: rt::Clock + rt::Env + Processes + Files<File = File> + Net + Eprint>(
    rt: &'a R,
    alloc: Global,
    can_guard: bool,
    program: &[u8],
    log: Option<&'a Log>,
) -> io::Result<PipedChild<'a, R, R::Started>>
    ensures { IfOk result
        (λ child. IsFresh (⟦<PipedChild<'a, R, R::Started> as Source>⟧.input child)
        (⟦<PipedChild<'a, R, R::Started> as Sink>⟧.output child)) }
{
    let path = str::from_utf8(program).map_err(|_| ErrorKind::InvalidFilename)?;
    let (output, theirs) = UnixStream::pair(rt)?;
    let socket = output.try_clone()?;
    let mut command = if can_guard && can_start(rt, path) {
        guarded(alloc, path)?
    } else {
        Command::new(alloc, path)?
    };
    hand_on(rt, alloc, &mut command)?;
    command.stdin(Stdio::piped());
    command.stdout(OwnedFd::from(theirs));
    let mut process = command.spawn(rt)?;
    match process.stdin.take() {
        Some(input) => Ok(PipedChild {
            rt,
            process,
            pipes: StdLink::new(output, input),
            socket,
            patience: Patience::new(rt),
            terminal: Terminal::Untold,
            last_error: LastError::new(),
            log,
        }),
        // A child without pipes is of no use.
        None => {
            let _ = end(rt, &mut process);
            Err(ErrorKind::BrokenPipe.into())
        }
    }
}

/// Takes the end of a child whose pipes are closed. One that heeds neither, and is still there
/// behind a second, is killed.
fn end<P: OpenProcess>(rt: &impl rt::Clock, process: &mut Child<P>) -> io::Result<()> {
    for look in 0..LOOKS {
        if process.try_wait()?.is_some() {
            return Ok(());
        }
        thread::sleep(rt, Duration::from_micros(1 << look));
    }
    process.kill()?;
    process.wait()?;
    Ok(())
}

#[cfg(test)]
mod tests {
    use super::*;
    use crate::scripts::script;
    use crate::told::said;
    use agent_ports::{Got, Sent};
    use std::fs;
    use std::test::Fail;
    use std::time::Instant;

    #[test]
    fn a_child_gives_what_it_was_written_up_to_its_end(rt: HostRuntime) -> Result<(), Fail> {
        let mut launcher = PipeLauncher::new(&rt, rt.alloc());
        // `cat` writes what it reads, and `true` ends at once.
        for (program, sent, got) in [
            (
                b"/bin/cat".as_slice(),
                b"GETPIN\n".as_slice(),
                Got::Bytes(7),
            ),
            (b"/bin/true", b"", Got::End),
        ] {
            let Some(mut child) = launcher.launch(program) else {
                return Err(Fail::new("not started"));
            };
            let written = child.put(sent);
            let mut buf = [0u8; 16];
            let read = child.read(&mut buf);
            launcher.finish(child);
            assert_eq!(rt; written, Sent::All);
            assert_eq!(rt; read, got);
            assert!(rt; buf.starts_with(sent));
        }
        assert_eq!(rt; launcher.faults, 0);
        Ok(())
    }

    #[test]
    fn a_program_that_cant_be_started_is_a_fault(rt: HostRuntime) {
        let mut launcher = PipeLauncher::new(&rt, rt.alloc());
        for (program, faults) in [
            (b"/no/such/program".as_slice(), 1u64),
            (b"/", 2),
            (b"\xff", 3),
        ] {
            let failed = match launcher.launch(program) {
                Some(child) => {
                    launcher.finish(child);
                    false
                }
                None => true,
            };
            assert!(rt; failed);
            assert_eq!(rt; launcher.faults, faults);
        }
    }

    #[test]
    fn what_a_child_failed_by_is_what_it_gave(rt: HostRuntime) -> Result<(), Fail> {
        let mut launcher = PipeLauncher::new(&rt, rt.alloc());
        for (lines, wanted) in [
            ("printf 'OK\\nERR 98 no\\n'\ncat\n", "answered ERR 98 no"),
            ("printf 'OK\\nD correct horse\\nOK\\n'\ncat\n", ""),
            ("true\n", "ended before it answered"),
        ] {
            let path = script(&rt, "failing", lines)?;
            let Some(mut child) = launcher.launch(path.as_bytes()) else {
                return Err(Fail::new("not started"));
            };
            let _ = child.read(&mut [0u8; 64]);
            let shown = said(rt.alloc(), &child.last_error);
            launcher.finish(child);
            fs::remove_file(&rt, &path)?;
            assert_eq!(rt; shown?.as_str(), wanted);
        }
        assert_eq!(rt; launcher.faults, 0);
        Ok(())
    }

    #[test]
    fn a_child_that_heeds_nothing_is_killed_within_seconds(rt: HostRuntime) -> Result<(), Fail> {
        // It reads nothing, and what is written for it goes nowhere.
        let path = script(
            &rt,
            "stubborn",
            "trap '' HUP INT PIPE TERM\nexec sleep 600\n",
        )?;
        let mut launcher = PipeLauncher::new(&rt, rt.alloc());
        let start = Instant::now(&rt)?;
        let Some(child) = launcher.launch(path.as_bytes()) else {
            return Err(Fail::new("not started"));
        };
        launcher.finish(child);
        let took = start.elapsed(&rt)?;
        fs::remove_file(&rt, &path)?;
        assert_eq!(rt; launcher.faults, 0);
        assert!(rt; took >= Duration::from_secs(1) && took < Duration::from_secs(10));
        Ok(())
    }

    #[test]
    fn a_child_may_take_its_time_to_end(rt: HostRuntime) -> Result<(), Fail> {
        // Once its input has ended it works on, and leaves a file when it is done.
        let done = script(&rt, "done", "")?;
        let lines = format!(in rt.alloc(); "cat\nsleep 0.3\nrm {done}\n")?;
        let path = script(&rt, "slow", &lines)?;
        let mut launcher = PipeLauncher::new(&rt, rt.alloc());
        let Some(child) = launcher.launch(path.as_bytes()) else {
            return Err(Fail::new("not started"));
        };
        launcher.finish(child);
        fs::remove_file(&rt, &path)?;
        assert_eq!(rt; launcher.faults, 0);
        assert!(rt; !fs::exists(&rt, &done)?);
        Ok(())
    }

    #[test]
    fn a_child_gains_no_privileges_where_setpriv_is_there(rt: HostRuntime) -> Result<(), Fail> {
        let path = script(&rt, "guarded", "exec grep NoNewPrivs /proc/self/status\n")?;
        let mut launcher = PipeLauncher::new(&rt, rt.alloc());
        let Some(mut child) = launcher.launch(path.as_bytes()) else {
            return Err(Fail::new("not started"));
        };
        let mut buf = [0u8; 64];
        let got = child.read(&mut buf);
        launcher.finish(child);
        fs::remove_file(&rt, &path)?;
        let guarded = can_guard(&rt, rt.alloc());
        assert_eq!(rt; got, Got::Bytes(b"NoNewPrivs:\t1\n".len()));
        assert_eq!(rt; buf.starts_with(b"NoNewPrivs:\t1"), guarded);
        Ok(())
    }
}
