//! A connection to an agent below its link: reads and writes that wait only while there is time. It
//! works on a socket and the clock, and says once on the error stream that another prompt is open.
//! Begin with `Wire`; its tests show how long it waits and what it says.

ghost use Rattle.std.specs.Prelude.{◌≤◌, length, IfOk, IfSome};

use crate::patience::Deadline;
use crate::reach::{Ahead, is_late};
use std::io::{ErrorKind, Read, Write};
use std::os::unix::net::UnixStream;
use std::rt::Clock;
use std::time::Duration;

/// How many seconds a prompt may be on its way before the user is told that another one is open.
const NOTICE_SECS: u64 = 2;

/// Whether the user is to be told that another prompt is open.
#[derive(Clone, Copy, Debug, PartialEq, Eq)]
enum Notice {
    /// The request isn't written yet.
    Unasked,
    /// It was, and no pinentry was launched for it.
    Waiting,
    /// There is nothing to tell, or it was told.
    Over,
}

/// What a connection was lost by.
#[derive(Clone, Copy, Debug, PartialEq, Eq)]
pub(crate) enum WireLoss {
    /// Its end, or a call that failed.
    Ended,
    /// There was no answer within so many seconds.
    Late(u32),
    /// Nor was there a greeting.
    Silent(u32),
}

/// Why one call moved no bytes.
#[derive(Clone, Copy, Debug, PartialEq, Eq)]
enum Unmoved {
    /// It is to be tried again.
    Again,
    Failed,
}

/// A connection to an agent, with the time that it has.
#[derive(Drop)]
pub(crate) struct Wire<'a, R> {
    rt: &'a R,
    stream: UnixStream,
    /// What was read of it beforehand, and how much of that was given.
    ahead: Ahead,
    taken: usize,
    seconds: u32,
    deadline: Deadline,
    notice: Notice,
    /// Whether it gave any byte.
    heard: bool,
    /// Whether its time was over.
    late: bool,
}

impl Notice {
    /// What is to be told once this line was put. An inquiry is answered by END where a pinentry was
    /// launched (GnuPG manual, "Agent OPTION", `allow-pinentry-notify`), and by CAN otherwise.
    fn put(self, line: &[u8]) -> Self {
        match self {
            Notice::Unasked if line.starts_with(b"OPTION ") => self,
            Notice::Unasked => Notice::Waiting,
            Notice::Waiting | Notice::Over => Notice::Over,
        }
    }
}

impl<R> Wire<'_, R> {
    /// What it was lost by, if it was: it is late, or this tells that it has ended.
    pub(crate) fn loss(&self, has_ended: bool) -> Option<WireLoss> {
        match (self.late, self.heard) {
            (true, false) => Some(WireLoss::Silent(self.seconds)),
            (true, true) => Some(WireLoss::Late(self.seconds)),
            (false, _) if has_ended => Some(WireLoss::Ended),
            (false, _) => None,
        }
    }

    /// Gives of what was read beforehand.
    fn take_ahead(&mut self, buf: &mut [u8]) -> usize
        ensures { result ≤ length buf.new }
    {
        let rest = self.ahead.get(self.taken..).unwrap_or(&[]);
        let count = rest.len().min(buf.len());
        buf[..count].copy_from_slice(&rest[..count]);
        self.taken = self.taken.saturating_add(count);
        count
    }
}

impl<'a, R: Clock + Eprint> Wire<'a, R> {
    pub(crate) fn new(
        rt: &'a R,
        stream: UnixStream,
        ahead: Ahead,
        seconds: u32,
        prompts: bool,
    ) -> Self {
        let notice = if prompts {
            Notice::Unasked
        } else {
            Notice::Over
        };
        Wire {
            rt,
            stream,
            ahead,
            taken: 0,
            seconds,
            deadline: Deadline::in_seconds(rt, seconds),
            notice,
            heard: false,
            late: false,
        }
    }

    /// Reads what is there beforehand, and else of the connection. `None`: the read failed.
    pub(crate) fn read(&mut self, buf: &mut [u8]) -> Option<usize>
        ensures { IfSome result (λ count. count ≤ length buf.new) }
    {
        let count = self.take_ahead(buf);
        if count > 0 {
            self.heard = true;
            return Some(count);
        }
        for _ in 0..u64::MAX {
            match self.read_once(buf) {
                Ok(count) => return Some(count),
                Err(Unmoved::Again) => {}
                Err(Unmoved::Failed) => break,
            }
        }
        None
    }

    fn read_once(&mut self, buf: &mut [u8]) -> Result<usize, Unmoved>
        ensures { IfOk result (λ count. count ≤ length buf.new) }
    {
        if !self.limit_read() {
            return Err(Unmoved::Failed);
        }
        match self.stream.read(buf) {
            Ok(count) => {
                self.heard = true;
                Ok(count)
            }
            Err(error) if error.kind() == ErrorKind::Interrupted => Err(Unmoved::Again),
            Err(error) => Err(self.unread(is_late(&error))),
        }
    }

    /// What to do where a read failed: it may have waited only until the user is to be told.
    fn unread(&mut self, is_late: bool) -> Unmoved {
        if is_late && self.notice == Notice::Waiting {
            self.tell();
            return Unmoved::Again;
        }
        self.late = is_late;
        Unmoved::Failed
    }

    /// Tells the user once that another prompt is open.
    fn tell(&mut self) {
        self.notice = Notice::Over;
        // Where that can't be written nobody is to be told.
        let _ = eprintln!(self.rt;
            "passphrase: another prompt is open (since 2 s), and is waited for"
        );
    }

    /// Has the next read wait while there is time, and says whether there is. It waits less long
    /// where the user is to be told then.
    fn limit_read(&mut self) -> bool {
        let Some(left) = self.deadline.left(self.rt) else {
            return true;
        };
        if left == Duration::ZERO {
            self.late = true;
            return false;
        }
        let limit = if self.notice == Notice::Waiting {
            left.min(Duration::from_secs(NOTICE_SECS))
        } else {
            left
        };
        let _ = self.stream.set_read_timeout(Some(limit));
        true
    }

    /// Writes as many of the bytes as the agent takes in time, and says how many that were.
    pub(crate) fn put(&mut self, bytes: &[u8]) -> usize
        ensures { result ≤ length bytes.now }
    {
        self.notice = self.notice.put(bytes);
        let mut rest = bytes;
        for _ in 0..u64::MAX {
            if rest.is_empty() {
                break;
            }
            match self.write_once(rest) {
                Ok(count) => rest = rest.get(count..).unwrap_or(&[]),
                Err(Unmoved::Again) => {}
                Err(Unmoved::Failed) => break,
            }
        }
        bytes.len().saturating_sub(rest.len())
    }

    fn write_once(&mut self, bytes: &[u8]) -> Result<usize, Unmoved> {
        if !self.limit_write() {
            return Err(Unmoved::Failed);
        }
        match self.stream.write(bytes) {
            Ok(0) => Err(Unmoved::Failed),
            Ok(count) => Ok(count),
            Err(error) if error.kind() == ErrorKind::Interrupted => Err(Unmoved::Again),
            Err(error) => {
                self.late = is_late(&error);
                Err(Unmoved::Failed)
            }
        }
    }

    fn limit_write(&mut self) -> bool {
        let Some(left) = self.deadline.left(self.rt) else {
            return true;
        };
        if left == Duration::ZERO {
            self.late = true;
            return false;
        }
        let _ = self.stream.set_write_timeout(Some(left));
        true
    }
}
