//! How a session of the scripted pinentry ended, and the exit status for it. Plain data. Begin with
//! `ScriptEnd`; `status_of` of `specs/Sessions` has the numbers.

ghost use Rattle.std.specs.Prelude.{◌≡◌};
ghost use Rattle.pinentry_script.specs.Sessions.{status_of};

/// How a session ended.
#[derive(Clone, Copy, PartialEq, Eq)]
pub enum ScriptEnd {
    /// The agent said BYE.
    Bye,
    /// The input ended.
    Ended,
    /// A line was too long. It isn't answered.
    TooLong,
    /// As many bytes were taken as a session may take.
    Spent,
    /// A read failed.
    ReadFault,
    /// A write failed.
    WriteFault,
}

impl ScriptEnd {
    /// The exit status.
    pub fn status(self) -> u8
        ensures { result ≡ status_of self }
    {
        match self {
            ScriptEnd::Bye | ScriptEnd::Ended => 0,
            ScriptEnd::ReadFault => 3,
            ScriptEnd::WriteFault => 4,
            ScriptEnd::Spent => 6,
            ScriptEnd::TooLong => 7,
        }
    }
}
