//! Why an entry isn't added, and how that is printed. Plain data. Begin with `TrustFault`; the
//! clauses of `add_trust` say when each one comes.

ghost use Rattle.std.specs.Prelude.{◌≡◌};
ghost use Rattle.trust_list.specs.declared.fault.TrustFault.TheVariants.{NoMemory};

use std::alloc::{AllocError, AllocFailed};
use std::error::Error;
use std::fmt;

/// Why an entry isn't added.
#[derive(Clone, Copy, Debug, PartialEq, Eq)]
pub enum TrustFault {
    /// The file would be longer than `MAX_TRUST_FILE_LEN`.
    TooLong,
    /// There was no memory for the new file.
    NoMemory,
}

impl fmt::Display for TrustFault {
    fn fmt<W: fmt::Write>(&self, f: &mut fmt::Formatter<W>) -> fmt::Result {
        f.write_str(match self {
            TrustFault::TooLong => "the trust list would be too long",
            TrustFault::NoMemory => "out of memory",
        })
    }
}

impl Error for TrustFault {}

impl From<AllocError> for TrustFault {
    ghost from_gives = { λ _ fault. fault ≡ NoMemory };

    fn from(_error: AllocError) -> TrustFault {
        TrustFault::NoMemory
    }
}
