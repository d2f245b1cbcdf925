//! The errors of the agent, each with its number and description of libgpg-error. Plain data. Begin
//! with `Code`, whose variants say when each is answered; `specs/Codes` has the numbers and texts.

ghost use Rattle.std.specs.Prelude.{◌≡◌, ◌≤◌, ◌<◌, ◌^◌, length};
ghost use Rattle.session_client.specs.{Codes.{code_of, error_description}, Refusals.refusal_code};

use crate::{ClientError, Gone};
use std::error::Error;
use std::fmt;

/// What went wrong, as an error line says it. The command that it answers has done nothing more.
#[derive(Clone, Copy, Debug, PartialEq, Eq)]
pub enum Code {
    /// A failure with no code of its own, as of a key file or trust list that can't be read, or of
    /// random bytes.
    General,
    /// A key that isn't in the form of a secret key, or is too long for a file.
    BadSecKey,
    /// A wrapped key that doesn't come out whole: another key wrapped it, or it was changed.
    Checksum,
    /// No passphrase was given that opens the key.
    BadPass,
    /// There is no key of this grip.
    NoSecKey,
    /// The cache has no passphrase to give, and nobody may be asked for one.
    NoData,
    /// An option, a value of one or a kind of key that the agent doesn't have.
    NotSupported,
    /// The user didn't answer in time, or another prompt didn't end in time.
    Timeout,
    /// Bytes that aren't one canonical expression, or an extended key file that stands for none.
    InvSexp,
    /// The user can't be asked: the client wants it so, or no pinentry answers.
    NoPinentry,
    /// The trust list doesn't have the certificate, or refuses it.
    NotTrusted,
    /// The user, the client within an inquiry, or the end of the agent cancelled the command.
    Cancelled,
    /// The user was asked to confirm, and said no.
    NotConfirmed,
    /// OPTION with a name that the agent doesn't have.
    UnknownOption,
    /// A command that isn't allowed on this connection.
    Forbidden,
    /// A line of more than 1,000 bytes. The session ends.
    LineTooLong,
    /// More bytes in an inquiry than it takes, which were read and dropped, or a trust list that
    /// would be too long.
    TooMuch,
    /// A line within an inquiry that is no line of one. It isn't run as a command.
    Unexpected,
    /// A line that begins with no command of the agent.
    UnknownCommand,
    /// A command whose options or arguments are missing or out of form.
    Parameter,
    /// A key that is there already.
    FileExists,
    /// There was no memory for the command. The session goes on.
    NoMemory,
}

impl fmt::Display for Code {
    fn fmt<W: fmt::Write>(&self, f: &mut fmt::Formatter<W>) -> fmt::Result {
        f.write_str(self.text())
    }
}

impl Error for Code {}

impl Code {
    /// Its number, of libgpg-error.
    pub fn number(self) -> u32
        ensures value { result ≡ code_of self }
        ensures small { result < 2 ^ 16 }
    {
        match self {
            Code::General => 1,
            Code::BadSecKey => 7,
            Code::Checksum => 10,
            Code::BadPass => 11,
            Code::NoSecKey => 17,
            Code::NoData => 58,
            Code::NotSupported => 60,
            Code::Timeout => 62,
            Code::InvSexp => 83,
            Code::NoPinentry => 86,
            Code::NotTrusted => 98,
            Code::Cancelled => 99,
            Code::NotConfirmed => 114,
            Code::UnknownOption => 174,
            Code::Forbidden => 251,
            Code::LineTooLong => 263,
            Code::TooMuch => 273,
            Code::Unexpected => 274,
            Code::UnknownCommand => 275,
            Code::Parameter => 280,
            Code::FileExists => 32803,
            Code::NoMemory => 32854,
        }
    }

    /// Its description.
    pub fn text(self) -> &'static str
        ensures text { result.now ≡ error_description self }
        ensures short { length result.now ≤ 40 }
    {
        match self {
            Code::General => "General error",
            Code::BadSecKey => "Bad secret key",
            Code::Checksum => "Checksum error",
            Code::BadPass => "Bad passphrase",
            Code::NoSecKey => "No secret key",
            Code::NoData => "No data",
            Code::NotSupported => "Not supported",
            Code::Timeout => "Timeout",
            Code::InvSexp => "Invalid S-expression",
            Code::NoPinentry => "No pinentry",
            Code::NotTrusted => "Not trusted",
            Code::Cancelled => "Operation cancelled",
            Code::NotConfirmed => "Not confirmed",
            Code::UnknownOption => "Unknown option",
            Code::Forbidden => "Forbidden",
            Code::LineTooLong => "Line passed to IPC too long",
            Code::TooMuch => "Too much data for IPC layer",
            Code::Unexpected => "Unexpected IPC command",
            Code::UnknownCommand => "Unknown IPC command",
            Code::Parameter => "IPC parameter error",
            Code::FileExists => "File exists",
            Code::NoMemory => "Cannot allocate memory",
        }
    }

    /// The code by which a request is refused whose client has said this. One that is gone is told
    /// no more, but that its line was too long.
    pub fn refusing(unheard: ClientError) -> Option<Code>
        ensures { result ≡ refusal_code unheard }
    {
        match unheard {
            ClientError::Cancelled => Some(Code::Cancelled),
            ClientError::TooMuch => Some(Code::TooMuch),
            ClientError::Unexpected => Some(Code::Unexpected),
            ClientError::Gone(Gone::TooLong) => Some(Code::LineTooLong),
            ClientError::Gone(_) => None,
        }
    }
}
