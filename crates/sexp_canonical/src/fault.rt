//! Why no canonical expression was read, and how that is printed. Plain data. Begin with
//! `SexpFault`; `IsFirstSexpFault` of `specs/Reading` says which one a text has.

ghost use Rattle.std.specs.Prelude.{◌≡◌};
ghost use Rattle.sexp_canonical.specs.declared.fault.SexpFault.TheVariants.{NoMemory};

use std::alloc::{AllocError, AllocFailed};
use std::error::Error;
use std::fmt;

/// Why no expression was read: the first fault from the left. Places count bytes from 0.
#[derive(Clone, Copy, Debug, PartialEq, Eq, Hash)]
pub enum SexpFault {
    /// This byte begins no item where one may begin, or is neither a digit nor `:` within a length.
    BadByte(usize),
    /// The length that begins here has a leading zero or is above 65,536.
    BadLength(usize),
    /// This `(` would open a 65th list.
    Deep(usize),
    /// The bytes end first, or more than 65,536 would be needed.
    Short,
    /// There was no memory for the expression.
    NoMemory,
}

impl fmt::Display for SexpFault {
    fn fmt<W: fmt::Write>(&self, f: &mut fmt::Formatter<W>) -> fmt::Result {
        match self {
            SexpFault::BadByte(place) => write!(f, "unexpected byte at {place}"),
            SexpFault::BadLength(place) => write!(f, "bad length at {place}"),
            SexpFault::Deep(place) => write!(f, "too many open lists at {place}"),
            SexpFault::Short => write!(f, "the expression is cut off"),
            SexpFault::NoMemory => write!(f, "out of memory"),
        }
    }
}

impl Error for SexpFault {}

impl From<AllocError> for SexpFault {
    ghost from_gives = { λ _ fault. fault ≡ NoMemory };

    fn from(_error: AllocError) -> SexpFault {
        SexpFault::NoMemory
    }
}

impl<T: Drop> From<AllocFailed<T>> for SexpFault {
    ghost from_gives = { λ _ fault. fault ≡ NoMemory };

    fn from(_error: AllocFailed<T>) -> SexpFault {
        SexpFault::NoMemory
    }
}
