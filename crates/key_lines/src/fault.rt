//! Why a file is no key file in the extended format, and how that is printed. Plain data. Begin
//! with `LinesFault`; `IsFault` of `specs/KeyFile` says which one a file has.

ghost use Rattle.std.specs.Prelude.{◌≡◌};
ghost use Rattle.key_lines.specs.declared.fault.LinesFault.TheVariants.{NoMemory};

use sexp_advanced::AdvFault;
use std::alloc::{AllocError, AllocFailed};
use std::error::Error;
use std::fmt;

/// Why a file is no key file: the first fault. Numbers count lines from 0.
#[derive(Clone, Copy, Debug, PartialEq, Eq, Hash)]
pub enum LinesFault {
    /// This line is no comment, goes on with no item and begins none.
    BadLine(usize),
    /// No item has the name `Key`.
    NoKey,
    /// This line begins a second item of the name `Key`.
    TwoKeys(usize),
    /// The value of the key isn't one advanced expression with blanks around it. The fault is never
    /// that memory ran out.
    BadKey(AdvFault),
    /// The key's canonical spelling has more than 65,536 bytes.
    TooLong,
    /// There was no memory for the file's key.
    NoMemory,
}

impl fmt::Display for LinesFault {
    fn fmt<W: fmt::Write>(&self, f: &mut fmt::Formatter<W>) -> fmt::Result {
        match self {
            LinesFault::BadLine(number) => write!(f, "line {number} has no form of a line"),
            LinesFault::NoKey => write!(f, "there is no key"),
            LinesFault::TwoKeys(number) => write!(f, "a second key begins on line {number}"),
            LinesFault::BadKey(fault) => write!(f, "the key: {fault}"),
            LinesFault::TooLong => write!(f, "the key is too long"),
            LinesFault::NoMemory => write!(f, "out of memory"),
        }
    }
}

impl Error for LinesFault {}

impl From<AllocError> for LinesFault {
    ghost from_gives = { λ _ fault. fault ≡ NoMemory };

    fn from(_error: AllocError) -> LinesFault {
        LinesFault::NoMemory
    }
}

impl<T: Drop> From<AllocFailed<T>> for LinesFault {
    ghost from_gives = { λ _ fault. fault ≡ NoMemory };

    fn from(_error: AllocFailed<T>) -> LinesFault {
        LinesFault::NoMemory
    }
}
