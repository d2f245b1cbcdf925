//! Why an expression is no private key, and how that is printed. Plain data. Begin with `KeyFault`;
//! which fault comes first says `IsFirstKeyFault` of `specs/Faults`.

ghost use Rattle.std.specs.Prelude.{◌≡◌};
ghost use Rattle.sexp_keys.specs.declared.fault.KeyFault.TheVariants.{NoMemory};

use std::alloc::{AllocError, AllocFailed};
use std::error::Error;
use std::fmt;

/// Why an expression is no private key.
#[derive(Clone, Copy, Debug, PartialEq, Eq, Hash)]
pub enum KeyFault {
    /// It isn't a list that begins with the name of a form of private keys.
    InvSexp,
    /// Its parameters, or what follows them, are not those of its algorithm.
    BadSecKey,
    /// The key is on a smartcard.
    Shadowed,
    /// The form or the algorithm isn't one of those that are read.
    NotSupported,
    /// There was no memory for the key.
    NoMemory,
}

impl fmt::Display for KeyFault {
    fn fmt<W: fmt::Write>(&self, f: &mut fmt::Formatter<W>) -> fmt::Result {
        f.write_str(match self {
            KeyFault::InvSexp => "not a private key",
            KeyFault::BadSecKey => "bad parameters of a private key",
            KeyFault::Shadowed => "the private key is on a card",
            KeyFault::NotSupported => "a private key of another kind",
            KeyFault::NoMemory => "out of memory",
        })
    }
}

impl Error for KeyFault {}

impl From<AllocError> for KeyFault {
    ghost from_gives = { λ _ fault. fault ≡ NoMemory };

    fn from(_error: AllocError) -> KeyFault {
        KeyFault::NoMemory
    }
}

impl<T: Drop> From<AllocFailed<T>> for KeyFault {
    ghost from_gives = { λ _ fault. fault ≡ NoMemory };

    fn from(_error: AllocFailed<T>) -> KeyFault {
        KeyFault::NoMemory
    }
}
