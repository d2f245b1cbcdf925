//! Waiting for the next client, through faults that pass and up to a stop or the end of the wait. It
//! touches the listening socket, and sets the limits of a client's waits. Begin with `accept_next`;
//! no clause speaks of it, and tests show which faults pass.

use crate::path::SocketName;
use std::io::ErrorKind;
use std::os::unix::net::{UnixListener, UnixStream};
use std::rt::Clock;
use std::sync::atomic::{AtomicBool, Ordering};
use std::time::Duration;
use std::{io, thread};

/// How many milliseconds a worker waits before it tries again, where descriptors or memory are
/// wanting: until others have given some back.
const PAUSE_MILLIS: u64 = 50;

/// How many seconds a write waits for a client that doesn't read.
const MAX_WRITE_SECONDS: u64 = 60;

/// How many seconds a read waits for a client of another machine that sends nothing.
const MAX_REMOTE_READ_SECONDS: u64 = 600;

/// What came of waiting for a client.
#[derive(Drop)]
pub(crate) enum Accepted {
    Client(UnixStream),
    /// Nobody came while the socket's limit of a wait lasted, where it has one.
    Nobody,
    /// No client is taken any more.
    Stopped,
    /// The listener is broken for good.
    Failed,
}

/// What a failed call of accept means (accept(2) in POSIX and in Linux's manual).
#[derive(Clone, Copy, Debug, PartialEq, Eq)]
pub(crate) enum AcceptFault {
    /// It is that client's alone, which is gone again, or a signal came.
    OfOneClient,
    /// The wait was as long as its limit (socket(7): SO_RCVTIMEO).
    OutOfTime,
    /// Descriptors or memory are wanting, or anything else that can pass.
    Passing,
    /// The descriptor doesn't listen, now and ever after.
    Lasting,
}

impl AcceptFault {
    pub(crate) fn of(fault: &io::Error) -> AcceptFault {
        match fault.kind() {
            ErrorKind::ConnectionAborted | ErrorKind::Interrupted => AcceptFault::OfOneClient,
            ErrorKind::WouldBlock => AcceptFault::OutOfTime,
            _ => match fault.raw_os_error() {
                Some(EBADF | EFAULT | EINVAL | ENOTSOCK | EOPNOTSUPP) => AcceptFault::Lasting,
                _ => AcceptFault::Passing,
            },
        }
    }
}

// Linux's numbers of the errors that say that the descriptor isn't one that listens.
const EBADF: i32 = 9;

const EFAULT: i32 = 14;

const EINVAL: i32 = 22;

const ENOTSOCK: i32 = 88;

const EOPNOTSUPP: i32 = 95;

/// Waits for the next client, as long as the socket's limit, and tries again after a fault that
/// passes. Once the listener is
/// stopped it doesn't wait: those that are queued are taken and let go, until accept fails, which
/// it does where none is left (Linux: EINVAL).
pub(crate) fn accept_next(
    clock: &impl Clock,
    listener: &UnixListener,
    stopped: &AtomicBool,
) -> Accepted {
    for _ in 0..u64::MAX {
        let accepted = listener.accept();
        let is_stopped = stopped.load(Ordering::SeqCst);
        match accepted {
            Ok((client, _)) if is_stopped => drop(client),
            Ok((client, _)) => return Accepted::Client(client),
            Err(fault) => match AcceptFault::of(&fault) {
                AcceptFault::OfOneClient => {}
                _ if is_stopped => return Accepted::Stopped,
                AcceptFault::OutOfTime => return Accepted::Nobody,
                AcceptFault::Passing => thread::sleep(clock, Duration::from_millis(PAUSE_MILLIS)),
                AcceptFault::Lasting => return Accepted::Failed,
            },
        }
    }
    Accepted::Failed
}

/// Limits how long a worker waits for this client. One of this machine may be silent as long as it
/// likes: an interactive program keeps its connection while its user thinks. Where the system can't
/// limit a wait the client is served nevertheless.
pub(crate) fn limit_waits(client: &UnixStream, name: SocketName) {
    let _ = client.set_write_timeout(Some(Duration::from_secs(MAX_WRITE_SECONDS)));
    if name == SocketName::Extra {
        let _ = client.set_read_timeout(Some(Duration::from_secs(MAX_REMOTE_READ_SECONDS)));
    }
}
