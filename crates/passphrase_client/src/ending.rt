//! What a run comes to, its status, and why an agent refused, by the codes of libgpg-error. Pure.
//! Begin with `Ending` and `cause_of`; `specs/Endings` defines both.

ghost use Rattle.std.specs.Prelude.{◌≡◌};
ghost use Rattle.passphrase_client.specs.Endings.{status_of, cause_of, cause_by};
ghost use Rattle.passphrase_client.specs.Endings.{cause_of_ask, cause_of_lifetime, cause_of_preset};

use crate::InputFault;
use crate::steps::Step;
use passphrase_talk::Loss;

// The codes of libgpg-error. An error's number has its source, and in its 16 low bits its code.
const CODES: u32 = 65_536;

const BAD_PASSPHRASE: u32 = 11;

const NO_DATA: u32 = 58;

const NOT_SUPPORTED: u32 = 60;

const TIMEOUT: u32 = 62;

const NOT_IMPLEMENTED: u32 = 69;

const NO_PINENTRY: u32 = 85;

const NO_PIN_ENTRY: u32 = 86;

const CANCELED: u32 = 99;

const FULLY_CANCELED: u32 = 198;

/// From this code on it is a system's error, which GnuPG's agent hands on from its pinentry.
const SYSTEM_ERRORS: u32 = 32_768;

/// What a run came to.
#[derive(Clone, Copy, PartialEq, Eq)]
pub enum Ending {
    /// The passphrase was written.
    Given(Lifetime),
    /// What is kept was forgotten, or one was stored.
    Done,
    /// One is kept.
    Kept,
    /// None is kept, as was asked.
    NotCached,
    /// None is kept, and nobody was to be asked.
    NotKept,
    /// The agent refused the request.
    Refused(Cause),
    /// The passphrase is empty, and was forgotten.
    Empty,
    /// The passphrase has a NUL or a line feed.
    NotOneLine,
    /// There is no memory.
    NoMemory,
    /// What stands on standard input is refused.
    Input(InputFault),
    /// Standard output couldn't be written.
    Unwritten,
    /// No agent answers.
    NoAgent,
    /// The contact with the agent was lost.
    Lost(Loss),
}

/// Whether what is given is kept for as long as was wanted.
#[derive(Clone, Copy, PartialEq, Eq)]
pub enum Lifetime {
    /// It is, or nothing was said of it.
    AsWanted,
    /// It was kept already, and its lifetime wasn't changed.
    AsBefore,
}

/// Why an agent refused, by its error's code (libgpg-error).
#[derive(Clone, Copy, PartialEq, Eq)]
pub enum Cause {
    /// Nothing is kept.
    NoData,
    /// There is no pinentry.
    NoPrompt,
    /// The pinentry ended without an answer: it had no terminal, or this program was stopped.
    Closed,
    /// The user cancelled.
    Canceled,
    /// The user didn't answer in time.
    NotTyped,
    /// Another prompt was open for too long.
    OtherPrompt,
    /// What was typed and its repeats differed.
    Differ,
    /// What was typed was refused as a bad passphrase.
    Bad,
    /// The agent takes no presets.
    NoPresets,
    /// Nor does it where one was to have a lifetime.
    NoTtl,
    /// The agent takes no presets with a lifetime.
    NoLifetime,
    /// Another code.
    Other(u32),
}

impl Ending {
    /// The status of the process.
    pub(crate) fn status(self) -> u8
        ensures { result ≡ status_of self }
    {
        match self {
            Ending::Given(_) | Ending::Done | Ending::Kept => 0,
            Ending::NotCached
            | Ending::NotKept
            | Ending::Refused(_)
            | Ending::Empty
            | Ending::NotOneLine
            | Ending::NoMemory => 1,
            Ending::Input(_) | Ending::Unwritten => 2,
            Ending::NoAgent | Ending::Lost(_) => 3,
        }
    }
}

/// Why the agent refused this step by an error of this number. A pinentry was launched for it or
/// not, and what is typed was to be repeated or not.
pub(crate) fn cause_of(step: Step, repeats: bool, number: u32, launched: bool) -> Cause
    ensures { result ≡ cause_of step repeats number launched }
{
    let code = number % CODES;
    match step {
        Step::Ask => cause_of_ask(code, repeats, launched),
        Step::Store => cause_of_preset(code),
        Step::Probe | Step::Keep => cause_of_lifetime(code),
        Step::Look(_) | Step::Forget(_) => cause_by(code),
    }
}

/// Why a request that may ask the user was refused.
fn cause_of_ask(code: u32, repeats: bool, launched: bool) -> Cause
    ensures { result ≡ cause_of_ask code repeats launched }
{
    match code {
        NO_PINENTRY | NO_PIN_ENTRY | SYSTEM_ERRORS.. if launched => Cause::Closed,
        NO_PINENTRY | NO_PIN_ENTRY | SYSTEM_ERRORS.. => Cause::NoPrompt,
        CANCELED | FULLY_CANCELED => Cause::Canceled,
        TIMEOUT if launched => Cause::NotTyped,
        TIMEOUT => Cause::OtherPrompt,
        BAD_PASSPHRASE if repeats => Cause::Differ,
        BAD_PASSPHRASE => Cause::Bad,
        code => cause_by(code),
    }
}

/// Why a preset with a lifetime was refused.
fn cause_of_lifetime(code: u32) -> Cause
    ensures { result ≡ cause_of_lifetime code }
{
    match code {
        NOT_SUPPORTED => Cause::NoTtl,
        NOT_IMPLEMENTED => Cause::NoLifetime,
        code => cause_by(code),
    }
}

/// Why a preset without one was refused.
fn cause_of_preset(code: u32) -> Cause
    ensures { result ≡ cause_of_preset code }
{
    match code {
        NOT_SUPPORTED => Cause::NoPresets,
        code => cause_by(code),
    }
}

/// Why, by a code that says the same of each step.
fn cause_by(code: u32) -> Cause
    ensures { result ≡ cause_by code }
{
    match code {
        NO_DATA => Cause::NoData,
        code => Cause::Other(code),
    }
}
