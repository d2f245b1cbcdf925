//! How a session goes on after a request, and by what it ended. Plain data, and the end that a lost
//! connection (`Gone`) is. Begin with `Went`; `specs/Endings` has `end_of`.

ghost use Rattle.std.specs.Prelude.{◌≡◌};
ghost use Rattle.agent_commands.specs.Endings.{end_of};

use session_client::Gone;

/// How a session ended.
#[derive(Clone, Copy, PartialEq, Eq)]
pub enum SessionEnd {
    /// The client said BYE.
    Bye,
    /// The client stopped the agent.
    Killed,
    /// The source gave its end.
    Ended,
    /// A line was too long.
    TooLong,
    /// As many bytes were taken as a session may take.
    Spent,
    /// A read failed.
    ReadFault,
    /// A write failed.
    WriteFault,
}

/// How a session goes on after a request.
#[derive(Clone, Copy, PartialEq, Eq)]
pub enum Went {
    /// It goes on with the next line.
    On,
    /// It has ended.
    End(SessionEnd),
}

impl From<Gone> for SessionEnd {
    ghost from_gives = { λ gone end. end ≡ end_of gone };

    fn from(gone: Gone) -> SessionEnd {
        match gone {
            Gone::Ended => SessionEnd::Ended,
            Gone::TooLong => SessionEnd::TooLong,
            Gone::Spent => SessionEnd::Spent,
            Gone::ReadFault => SessionEnd::ReadFault,
            Gone::WriteFault => SessionEnd::WriteFault,
        }
    }
}
