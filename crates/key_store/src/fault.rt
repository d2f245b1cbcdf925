//! Why a call on the files came to nothing. Plain data, made of the system's errors and a lack of
//! memory. Begin with `Fault`; `count_fault` is where each one raises its port's count.

ghost use Rattle.std.specs.{Prelude.{◌≡◌, ◌↔◌, ◌≤◌}, IoError.error_kind};
ghost use Rattle.agent_ports.specs.Counts.{Rose};
ghost use Rattle.key_store.specs.declared.fault.Fault.TheVariants.{Absent, NoMemory};
ghost use Rattle.std.specs.declared.io.ErrorKind.TheVariants as kind;

use std::alloc::AllocError;
use std::io;
use std::io::ErrorKind;

#[derive(Clone, Copy)]
pub(crate) enum Fault {
    /// There is no such file.
    Absent,
    NoMemory,
    Failed,
}

impl From<AllocError> for Fault {
    ghost from_gives = { λ _ fault. fault ≡ NoMemory };

    fn from(_: AllocError) -> Fault {
        Fault::NoMemory
    }
}

impl From<io::Error> for Fault {
    ghost from_gives = { λ error fault. ((fault ≡ Absent) ↔ (error_kind error ≡ kind.NotFound))
        × ((fault ≡ NoMemory) ↔ (error_kind error ≡ kind.OutOfMemory)) };

    fn from(error: io::Error) -> Fault {
        match error.kind() {
            ErrorKind::NotFound => Fault::Absent,
            ErrorKind::OutOfMemory => Fault::NoMemory,
            _ => Fault::Failed,
        }
    }
}

/// Counts a call that failed.
pub(crate) fn count_fault(faults: &mut u64)
    ensures rose { Rose faults.old faults.new }
    ensures never_falls { faults.old ≤ faults.new }
{
    *faults = faults.saturating_add(1);
}
