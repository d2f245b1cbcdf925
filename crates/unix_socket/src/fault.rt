//! Why there is no socket in a folder, and how that is said on the error stream. Plain data. Begin
//! with `BindFault`: a folder that others may change has no socket, beside whatever the system
//! refuses.

use gnupg_home::HomeFault;
use std::alloc::AllocError;
use std::fmt::{Display, Formatter};
use std::{fmt, io};

/// Why there is no socket in a folder.
#[derive(Debug, Drop)]
pub enum BindFault {
    /// It isn't the user's alone.
    Folder(HomeFault),
    /// A call of the system failed.
    System(io::Error),
}

impl Display for BindFault {
    fn fmt<W: fmt::Write>(&self, f: &mut Formatter<W>) -> fmt::Result {
        match self {
            BindFault::Folder(fault) => write!(f, "{fault}"),
            BindFault::System(error) => write!(f, "{error}"),
        }
    }
}

impl From<HomeFault> for BindFault {
    fn from(fault: HomeFault) -> BindFault {
        BindFault::Folder(fault)
    }
}

impl From<io::Error> for BindFault {
    fn from(error: io::Error) -> BindFault {
        BindFault::System(error)
    }
}

impl From<AllocError> for BindFault {
    fn from(error: AllocError) -> BindFault {
        BindFault::System(error.into())
    }
}
