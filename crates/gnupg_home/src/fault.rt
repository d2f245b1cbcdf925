//! Why a folder, a program or a socket isn't taken, in a line for a user. Plain data. Begin with
//! `HomeFault`.

use crate::rule::Part;
use printable::Printable;
use std::alloc::AllocError;
use std::fmt::{Display, Formatter};
use std::{fmt, io};

/// The bits of a mode that chmod(1) sets.
const MODE: u32 = 0o7777;

/// Why a home folder isn't taken, nor what lies in it.
#[derive(Debug, Drop)]
pub enum HomeFault {
    NoMemory,
    /// The system doesn't say whose this process is.
    NoUser,
    /// The system doesn't say whose this is.
    Unseen {
        path: String,
        error: io::Error,
    },
    /// It belongs to another.
    Owner {
        part: Part,
        path: String,
        owner: u32,
        user: u32,
    },
    /// Others may write there.
    Mode {
        part: Part,
        path: String,
        mode: u32,
    },
    /// A socket, or a file in its place, belongs to another.
    Socket {
        path: String,
        owner: u32,
        user: u32,
    },
}

impl From<AllocError> for HomeFault {
    fn from(_error: AllocError) -> Self {
        HomeFault::NoMemory
    }
}

impl Display for HomeFault {
    /// One line: what it is, whose or of which mode, and what mends it.
    fn fmt<W: fmt::Write>(&self, f: &mut Formatter<W>) -> fmt::Result {
        match self {
            HomeFault::NoMemory => f.write_str("out of memory"),
            HomeFault::NoUser => f.write_str(
                "/proc/self/status doesn't say whose this process is: mount /proc",
            ),
            HomeFault::Unseen { path, error } => {
                write!(f, "{} can't be looked at: {error}", shown(path))
            }
            HomeFault::Owner {
                part,
                path,
                owner,
                user,
            } => write_owner(f, *part, path.as_str(), *owner, *user),
            HomeFault::Mode { part, path, mode } => write_mode(f, *part, path.as_str(), *mode),
            HomeFault::Socket { path, owner, user } => write!(
                f,
                "the socket {} belongs to user {owner}, and not to user {user}: remove it",
                shown(path)
            ),
        }
    }
}

fn shown(path: &str) -> Printable<'_> {
    Printable(path.as_bytes())
}

fn write_owner<W: fmt::Write>(
    f: &mut Formatter<W>,
    part: Part,
    path: &str,
    owner: u32,
    user: u32,
) -> fmt::Result {
    let path = shown(path);
    match part {
        Part::Home => write!(
            f,
            "the folder {path} belongs to user {owner}, and not to user {user}: take a folder of your own"
        ),
        Part::Above => write!(
            f,
            "the folder {path} belongs to user {owner}, and neither to user {user} nor to root: take a folder of your own"
        ),
        Part::Program => write!(
            f,
            "the program {path} belongs to user {owner}, and neither to user {user} nor to root: install it anew"
        ),
    }
}

fn write_mode<W: fmt::Write>(
    f: &mut Formatter<W>,
    part: Part,
    path: &str,
    mode: u32,
) -> fmt::Result {
    let (path, mode) = (shown(path), mode & MODE);
    match part {
        Part::Home | Part::Above => write!(
            f,
            "others may write in the folder {path} (mode {mode:04o}): chmod go-w {path}"
        ),
        Part::Program => write!(
            f,
            "others may change the program {path} (mode {mode:04o}): chmod go-w {path}"
        ),
    }
}
