//! Why there is no agent or no connection: a reason in words, or no memory for them. Plain data,
//! and the conversions of the system's errors. Begin with `Failure`.

use gnupg_home::HomeFault;
pub(crate) use gnupg_home::if_there;
use std::alloc::{AllocError, Global};

/// Why there is no agent, or no connection.
#[derive(Drop)]
pub(crate) enum Failure {
    NoMemory,
    /// The reason, in words for a user.
    Said(String),
}

impl From<AllocError> for Failure {
    fn from(_error: AllocError) -> Self {
        Failure::NoMemory
    }
}

/// Why a folder isn't taken, or what lies in it.
pub(crate) fn refused(alloc: Global, fault: &HomeFault) -> Failure {
    match fault {
        HomeFault::NoMemory => Failure::NoMemory,
        _ => said(format!(in alloc; "{fault}")),
    }
}

/// What has these words as its reason, where there was memory for them.
pub(crate) fn said(words: Result<String, AllocError>) -> Failure {
    match words {
        Ok(words) => Failure::Said(words),
        Err(_) => Failure::NoMemory,
    }
}
