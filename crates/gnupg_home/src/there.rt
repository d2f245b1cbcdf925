//! What the system gives, or nothing. It computes on a call's result. Begin with `if_there`.

use std::alloc::AllocError;
use std::io;
use std::io::ErrorKind;

/// What was found, or nothing where it can't be had: only want of memory is handed on.
pub fn if_there<T: Drop>(found: io::Result<T>) -> Result<Option<T>, AllocError> {
    match found {
        Ok(found) => Ok(Some(found)),
        Err(error) if error.kind() == ErrorKind::OutOfMemory => Err(AllocError),
        Err(_) => Ok(None),
    }
}
