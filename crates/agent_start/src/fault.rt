//! Why a start doesn't go on: in words, and with the status of the process. Plain data. Begin with
//! `Fault`.

use gnupg_home::HomeFault;
use std::alloc::AllocError;
use std::io;
use std::io::ErrorKind;

/// Why a start doesn't go on.
#[derive(Debug, Drop)]
pub enum Fault {
    NoMemory,
    /// For this reason, with this status.
    Said { status: u8, words: String },
    /// It was said before.
    Over(u8),
}

/// The status where there is no memory.
const NO_MEMORY: u8 = 1;

impl Fault {
    /// The status of the process.
    pub fn status(&self) -> u8 {
        match self {
            Fault::NoMemory => NO_MEMORY,
            Fault::Said { status, .. } => *status,
            Fault::Over(status) => *status,
        }
    }
}

impl From<AllocError> for Fault {
    fn from(_error: AllocError) -> Fault {
        Fault::NoMemory
    }
}

/// With these words as its reason, where there was memory for them.
pub fn said(status: u8, words: Result<String, AllocError>) -> Fault {
    match words {
        Ok(words) => Fault::Said { status, words },
        Err(_) => Fault::NoMemory,
    }
}

/// Whether the system had no memory.
pub fn is_of_memory(error: &io::Error) -> bool {
    error.kind() == ErrorKind::OutOfMemory
}

/// Whether a folder can't be looked at for want of memory.
pub fn is_out_of_memory(fault: &HomeFault) -> bool {
    matches!(fault, HomeFault::NoMemory)
}
