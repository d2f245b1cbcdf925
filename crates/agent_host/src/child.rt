//! A pinentry that runs, as a child of the agent: its two pipes, its process, and what it was told.
//! It writes to the child, the error stream and nothing else. Begin with [`PipedChild`]; the
//! promise is that of `Link` (`agent_ports`), and `launcher.rt` starts and ends it.

ghost use Rattle.std.specs.Prelude.{◌≡◌, refl};

use crate::log::{Log, say};
use crate::patience::Patience;
use crate::terminal::{Terminal, is_terminal, shown, told_name};
use crate::told::LastError;
use agent_ports::{Got, Link, Sent, Sink, Source};
use printable::Printable;
use std::net::Shutdown;
use std::os::unix::net::UnixStream;
use std::process::{Child, OpenProcess};
use std::rt;
use std::time::Duration;
use std_link::StdLink;

/// A program that was started: what it writes is read, and what is written it reads, a line each
/// time. It is handed to `finish`, which sees to its end.
///
/// It is told no terminal whose name any other file can have. Its answers are awaited for a minute,
/// and those that want its user a minute beyond its timeout: then a read fails.
pub struct PipedChild<'a, R, P: OpenProcess> {
    pub(crate) rt: &'a R,
    pub(crate) process: Child<P>,
    pub(crate) pipes: StdLink<UnixStream, P::Stdin>,
    /// What `pipes` reads, once more, so that its limit can be set.
    pub(crate) socket: UnixStream,
    pub(crate) patience: Patience,
    pub(crate) terminal: Terminal,
    pub(crate) last_error: LastError,
    pub(crate) log: Option<&'a Log>,
}

impl<R: rt::Clock, P: OpenProcess> Source for PipedChild<'_, R, P> {
    ghost input = { λ c. ⟦<StdLink<UnixStream, P::Stdin> as Source>⟧.input c.pipes };

    ghost beside_input = { λ c. ⟦<StdLink<UnixStream, P::Stdin> as Sink>⟧.output c.pipes };

    fn read(&mut self, buf: &mut [u8]) -> Got {
        let in_time = self.limit_read();
        let got = self.pipes.read(buf);
        match got {
            Got::Bytes(count) => self.last_error.read(&buf[..count]),
            Got::End if in_time => self.last_error.read_end(),
            Got::End | Got::Failed => self.last_error.read_late(),
        }
        got
    }
}

impl<R: rt::Clock + Eprint, P: OpenProcess> Sink for PipedChild<'_, R, P> {
    ghost output = { λ c. ⟦<StdLink<UnixStream, P::Stdin> as Sink>⟧.output c.pipes };

    ghost beside_output = { λ c. ⟦<StdLink<UnixStream, P::Stdin> as Source>⟧.input c.pipes };

    fn put(&mut self, bytes: &[u8]) -> Sent {
        self.patience.put(self.rt, bytes);
        match told_name(bytes) {
            Some(name) if !is_terminal(name) => {
                self.refuse_terminal(name);
                // A pinentry answers it OK, so that each answer is still that of its line. Of the
                // line itself no byte is written.
                match self.pipes.put(b"NOP\n") {
                    Sent::All => Sent::All,
                    Sent::Failed { .. } => Sent::Failed { sent: 0 },
                }
            }
            Some(name) => {
                self.terminal = Terminal::told(name);
                self.pipes.put(bytes)
            }
            None => self.pipes.put(bytes),
        }
    }
}

impl<R: rt::Clock + Eprint, P: OpenProcess> Link for PipedChild<'_, R, P> {
    ghost output_beside = { λ _. refl };

    ghost input_beside = { λ _. refl };
}

impl<R: rt::Clock, P: OpenProcess> PipedChild<'_, R, P> {
    /// Has the next read wait while there is time, and says whether there is. Behind it what is
    /// there is read, and then the end: so a child that gives lines without end has one too.
    fn limit_read(&self) -> bool {
        match self.patience.left(self.rt) {
            Some(Duration::ZERO) => {
                let _ = self.socket.shutdown(Shutdown::Read);
                false
            }
            left => {
                let _ = self.socket.set_read_timeout(left);
                true
            }
        }
    }
}

impl<R: rt::Clock + Eprint, P: OpenProcess> PipedChild<'_, R, P> {
    /// Says once that the child isn't told a name.
    fn refuse_terminal(&mut self, name: &[u8])
        ensures { self.new.pipes ≡ self.old.pipes }
    {
        if !matches!(self.terminal, Terminal::Refused) {
            let name = Printable(shown(name));
            say(
                self.rt,
                self.log,
                &format_args!(
                    "the pinentry isn't told \"{name}\" as its terminal: no terminal has that name"
                ),
            );
        }
        self.terminal = Terminal::Refused;
    }
}

#[cfg(test)]
mod tests {
    use super::*;
    use crate::PipeLauncher;
    use crate::scripts::script;
    use crate::told::said;
    use agent_ports::Launcher;
    use std::fs;
    use std::test::Fail;
    use std::time::Instant;

    #[test]
    fn a_child_is_told_terminals_alone(rt: HostRuntime) -> Result<(), Fail> {
        let rows = [
            (b"OPTION ttyname=/dev/pts/3\n".as_slice(), true),
            (b"OPTION ttyname=/dev/tty1\n", true),
            (b"OPTION ttyname=/home/alice/.bashrc\n", false),
            (b"OPTION ttyname=/dev/shm/x\n", false),
            (b"OPTION ttyname=/dev/pts/../x\n", false),
            (b"OPTION ttyname=not a tty\n", false),
            (b"OPTION ttyname=\n", false),
            (b"OPTION ttyname= /dev/pts/3\n", false),
            (b"OPTION ttyname=/dev/pts/3 \n", false),
            // Two lines in one are none that the agent writes.
            (b"OPTION ttyname=/dev/pts/3\nOPTION ttyname=x\n", false),
            (b"OPTION ttytype=/home/alice/.bashrc\n", true),
            (b"SETDESC OPTION ttyname=x\n", true),
        ];
        let mut launcher = PipeLauncher::new(&rt, rt.alloc());
        for (line, passes) in rows {
            let Some(mut child) = launcher.launch(b"/bin/cat") else {
                return Err(Fail::new("not started"));
            };
            let sent = child.put(line);
            let mut buf = [0u8; 64];
            let got = child.read(&mut buf);
            launcher.finish(child);
            let wanted = if passes { line } else { b"NOP\n" };
            assert_eq!(rt; (sent, got), (Sent::All, Got::Bytes(wanted.len())));
            assert!(rt; buf.starts_with(wanted));
        }
        Ok(())
    }

    #[test]
    fn a_child_that_doesnt_answer_in_time_is_ended(rt: HostRuntime) -> Result<(), Fail> {
        let mut launcher = PipeLauncher::new(&rt, rt.alloc());
        let start = Instant::now(&rt)?;
        // One that is silent, and one that gives lines without end.
        for lines in ["exec sleep 600\n", "exec yes\n"] {
            let path = script(&rt, "late", lines)?;
            let Some(mut child) = launcher.launch(path.as_bytes()) else {
                return Err(Fail::new("not started"));
            };
            child.patience = Patience::for_millis(&rt, 300);
            let mut got = Got::Bytes(1);
            for _ in 0..100_000_000u32 {
                got = child.read(&mut [0u8; 4096]);
                if !matches!(got, Got::Bytes(_)) {
                    break;
                }
            }
            let shown = said(rt.alloc(), &child.last_error);
            launcher.finish(child);
            fs::remove_file(&rt, &path)?;
            assert!(rt; !matches!(got, Got::Bytes(_)));
            assert_eq!(rt; shown?.as_str(), "didn't answer in time, and is ended");
        }
        assert!(rt; start.elapsed(&rt)? < Duration::from_secs(20));
        Ok(())
    }
}
