//! With what status the agent's process ends (`dogwoodcatch-agent(1)`, "EXIT STATUS"), and which
//! end of a session gives which. Pure. Begin with `Status`; contracts call its number `exit_number`
//! (`specs/Top`).

ghost use Rattle.std.specs.Prelude.{◌≡◌};

use agent_commands::SessionEnd;
use std::alloc::AllocError;

/// With what status the agent's process ends.
#[derive(Clone, Copy, PartialEq, Eq)]
pub enum Status {
    /// The client said BYE or stopped the agent, or its input ended. A daemon was stopped.
    Success,
    /// There was no memory for the words of the command line, or for a session.
    NoMemory,
    /// The words of the command line are none that the agent takes.
    BadWords,
    /// A read failed.
    ReadFault,
    /// A write failed.
    WriteFault,
    /// A daemon has no listener, or its listener failed.
    ListenFault,
    /// As many bytes were taken as a session may take.
    Spent,
    /// A line was too long.
    TooLong,
}

impl Status {
    ghost use Rattle.agent_top.specs.Top.{exit_number, status_of};

    /// The status of a process whose session ended so.
    pub(crate) fn of(end: SessionEnd) -> Status
        ensures { result ≡ status_of end }
    {
        match end {
            SessionEnd::Bye | SessionEnd::Killed | SessionEnd::Ended => Status::Success,
            SessionEnd::ReadFault => Status::ReadFault,
            SessionEnd::WriteFault => Status::WriteFault,
            SessionEnd::Spent => Status::Spent,
            SessionEnd::TooLong => Status::TooLong,
        }
    }

    /// The number that the process ends with.
    pub fn number(self) -> u8
        ensures { result ≡ exit_number self }
    {
        match self {
            Status::Success => 0,
            Status::NoMemory => 1,
            Status::BadWords => 2,
            Status::ReadFault => 3,
            Status::WriteFault => 4,
            Status::ListenFault => 5,
            Status::Spent => 6,
            Status::TooLong => 7,
        }
    }
}

impl From<AllocError> for Status {
    ghost use Rattle.agent_top.specs.declared.status.Status.{Status};

    ghost from_gives = { λ _ status. status ≡ Status.NoMemory };

    fn from(_error: AllocError) -> Status {
        Status::NoMemory
    }
}
