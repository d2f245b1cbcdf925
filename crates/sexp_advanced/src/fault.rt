//! Why no expression in the advanced form was read, and how that is printed. Plain data. Begin with
//! `AdvFault`; `IsFirstAdvFault` of `specs/Reading` says which one a text has.

ghost use Rattle.std.specs.Prelude.{◌≡◌};
ghost use Rattle.sexp_advanced.specs.declared.fault.AdvFault.TheVariants.{NoMemory};

use std::alloc::{AllocError, AllocFailed};
use std::error::Error;
use std::fmt;

/// Why no expression was read: the first fault from the left. Places count bytes from 0.
#[derive(Clone, Copy, Debug, PartialEq, Eq, Hash)]
pub enum AdvFault {
    /// This byte begins no item where one may begin.
    BadByte(usize),
    /// The atom that begins here breaks its form, or has a length above 65,536.
    BadAtom(usize),
    /// This `(` would open a 65th list.
    Deep(usize),
    /// The bytes end first.
    Short,
    /// There was no memory for the expression.
    NoMemory,
}

impl fmt::Display for AdvFault {
    fn fmt<W: fmt::Write>(&self, f: &mut fmt::Formatter<W>) -> fmt::Result {
        match self {
            AdvFault::BadByte(place) => write!(f, "unexpected byte at {place}"),
            AdvFault::BadAtom(place) => write!(f, "bad atom at {place}"),
            AdvFault::Deep(place) => write!(f, "too many open lists at {place}"),
            AdvFault::Short => write!(f, "the expression is cut off"),
            AdvFault::NoMemory => write!(f, "out of memory"),
        }
    }
}

impl Error for AdvFault {}

impl From<AllocError> for AdvFault {
    ghost from_gives = { λ _ fault. fault ≡ NoMemory };

    fn from(_error: AllocError) -> AdvFault {
        AdvFault::NoMemory
    }
}

impl<T: Drop> From<AllocFailed<T>> for AdvFault {
    ghost from_gives = { λ _ fault. fault ≡ NoMemory };

    fn from(_error: AllocFailed<T>) -> AdvFault {
        AdvFault::NoMemory
    }
}
