//! What a listener sees to while nobody connects: whether clients can still reach it, and that its
//! agent's cache takes a step. It looks at the socket's file, and makes pairs of sockets. Begin
//! with `Watch::look`; tests show what comes of each file.

use crate::path::FileId;
use std::alloc::{AllocError, Global};
use std::fs::Files;
use std::io::Write;
use std::net::Net;
use std::os::unix::net::UnixStream;
use std::rt::Clock;
use std::sync::atomic::{AtomicU64, Ordering};
use std::time::{Duration, Instant};
use std::{io, thread};

/// When a listener looks whether clients can reach it.
#[derive(Clone, Copy, Debug)]
pub struct Looks {
    /// How long a worker waits for a client before it looks. Only one of them looks in so long.
    pub every: Duration,
    /// How long behind a look that misses the socket it looks again.
    pub again: Duration,
}

/// A request of no client: the cache of the agent takes a step, so that what has expired is
/// overwritten though nobody asks. Nobody has a passphrase for that id.
const STEP: &[u8] = b"GET_PASSPHRASE --no-ask nobody\nBYE\n";

/// What is said where no client can come any more, so that nothing is kept for them.
const FORGET: &[u8] = b"RELOADAGENT\nBYE\n";

/// A request of the listener itself.
#[derive(Drop)]
pub(crate) struct OwnRequest {
    /// The end at which it is answered.
    pub(crate) answering: UnixStream,
    /// The other one, into which it was written. Nobody reads the answers, which is why it has to
    /// stay open until the session is over.
    pub(crate) asking: UnixStream,
}

impl OwnRequest {
    fn new(rt: &impl Net, lines: &[u8]) -> Option<OwnRequest> {
        let (answering, mut asking) = UnixStream::pair(rt).ok()?;
        asking.write_all(lines).ok()?;
        Some(OwnRequest { answering, asking })
    }
}

/// The file of a socket, as it was when the socket was made.
#[derive(Drop)]
pub struct SocketFile {
    pub(crate) path: String,
    pub(crate) id: FileId,
}

impl SocketFile {
    /// The same once more, for another listener.
    pub fn copy(&self, alloc: Global) -> Result<SocketFile, AllocError> {
        Ok(SocketFile {
            path: String::from_str(alloc, &self.path)?,
            id: self.id,
        })
    }
}

/// The file of a socket that is to be there as long as somebody listens, and when it was looked at.
#[derive(Drop)]
pub(crate) struct Watch {
    looks: Looks,
    file: SocketFile,
    /// Whether the agent's cache is asked for a step.
    steps: bool,
    start: Instant,
    /// From how many milliseconds behind the start on the next look is due.
    due: AtomicU64,
}

/// What a look came to.
#[derive(Drop)]
pub(crate) enum Look {
    /// The file is there, or another worker looks, or nobody can be asked.
    Nothing,
    /// The file is there, and the cache takes a step by this request.
    Step(OwnRequest),
    /// No client can come any more. The cache forgets by this request, if it can be made.
    Lost(Option<OwnRequest>),
}

impl Watch {
    /// Watches this file, first when a worker has waited so long.
    pub(crate) fn new(
        rt: &impl Clock,
        looks: Looks,
        file: SocketFile,
        steps: bool,
    ) -> io::Result<Watch> {
        Ok(Watch {
            looks,
            file,
            steps,
            start: Instant::now(rt)?,
            due: AtomicU64::new(0),
        })
    }

    /// Looks at the file, where that is due. A file that is missed is looked for once more, since
    /// another program may be putting it back.
    pub(crate) fn look<R: Files + Net + Clock>(&self, rt: &R) -> Look {
        if !self.takes_turn(rt) {
            return Look::Nothing;
        }
        if self.is_there(rt) {
            return self.step(rt);
        }
        thread::sleep(rt, self.looks.again);
        if self.is_there(rt) {
            return Look::Nothing;
        }
        Look::Lost(if self.steps {
            OwnRequest::new(rt, FORGET)
        } else {
            None
        })
    }

    fn step(&self, rt: &impl Net) -> Look {
        if !self.steps {
            return Look::Nothing;
        }
        match OwnRequest::new(rt, STEP) {
            Some(request) => Look::Step(request),
            None => Look::Nothing,
        }
    }

    fn is_there(&self, rt: &impl Files) -> bool {
        FileId::of(rt, &self.file.path).is_ok_and(|id| id == self.file.id)
    }

    /// Whether this worker is the one that looks. Where the time isn't known each one is.
    fn takes_turn(&self, rt: &impl Clock) -> bool {
        let Ok(passed) = self.start.elapsed(rt) else {
            return true;
        };
        let now = millis(passed);
        let due = self.due.load(Ordering::SeqCst);
        // A wait may end a little early by this clock.
        let next = now.saturating_add(millis(self.looks.every) / 8 * 7);
        now >= due
            && self
                .due
                .compare_exchange(due, next, Ordering::SeqCst, Ordering::SeqCst)
                .is_ok()
    }
}

fn millis(duration: Duration) -> u64 {
    u64::try_from(duration.as_millis()).unwrap_or(u64::MAX)
}
