//! What a pinentry's answers mean: to its greeting, to a setting, to GETPIN and to CONFIRM
//! (pinentry manual, "protocol"; the numbers of errors are libgpg-error's). Pure. Begin with
//! `pin_outcome` and `consent_of`; each function is its namesake in `specs/Answers`.

ghost use Rattle.std.specs.Prelude.{◌≡◌, []};
ghost use Rattle.assuan_text.specs.Numbers.{number_of};
ghost use Rattle.pinentry_client.specs.Answers.{greeted, accepted, pid_after, trouble_of};
ghost use Rattle.pinentry_client.specs.Answers.{process_of, pin_outcome, consent_of};

use crate::settings::Setting;
use agent_ask::{Consent, Outcome};
use assuan_client::Answer;
use assuan_line::Breach;
use assuan_text::number_of;
use cache_policy::Secret;

/// The number of an error is its source, and in its 16 low bits its code.
const CODES: u32 = 65_536;

/// The time for an answer is over.
const TIMEOUT: u32 = 62;

/// The user cancelled.
const CANCELED: u32 = 99;

/// The user doesn't consent.
const NOT_CONFIRMED: u32 = 114;

/// The user cancelled all that was to come.
const FULLY_CANCELED: u32 = 198;

/// Why a dialogue can't go on.
#[derive(Drop)]
pub(crate) enum Trouble {
    /// The link failed.
    Failed,
    /// The child broke the protocol.
    Broken(Breach),
}

/// Whether the greeting is one: `OK`.
pub(crate) fn greeted(answer: Answer) -> Result<(), Trouble>
    ensures { result ≡ greeted answer }
{
    match answer {
        Answer::Ok => Ok(()),
        Answer::Err(number) => Err(Trouble::Broken(Breach::Code(number))),
        Answer::Got(_) => Err(Trouble::Broken(Breach::Data)),
        answer => Err(trouble_of(answer)),
    }
}

/// Why an answer that is no end of a command isn't one.
fn trouble_of(answer: Answer) -> Trouble
    ensures { result ≡ trouble_of answer }
{
    match answer {
        Answer::Asked { .. } => Trouble::Broken(Breach::Inquiry),
        Answer::Broken(breach) => Trouble::Broken(breach),
        _ => Trouble::Failed,
    }
}

/// Whether the answer to a setting is one: `OK`, or an error, since a pinentry needs not know all
/// settings.
pub(crate) fn accepted(answer: Answer) -> Result<(), Trouble>
    ensures { result ≡ accepted answer }
{
    match answer {
        Answer::Ok | Answer::Err(_) => Ok(()),
        Answer::Got(_) => Err(Trouble::Broken(Breach::Data)),
        answer => Err(trouble_of(answer)),
    }
}

/// The process that is known after the answer to a setting, or why the dialogue can't go on.
pub(crate) fn pid_after(setting: Setting, pid: u32, answer: Answer) -> Result<u32, Trouble>
    ensures { result ≡ pid_after setting pid answer }
{
    match answer {
        Answer::Got(digits) if setting == Setting::Pid => process_of(&digits),
        answer => match accepted(answer) {
            Ok(()) => Ok(pid),
            Err(trouble) => Err(trouble),
        },
    }
}

/// The number of a process.
fn process_of(digits: &Secret) -> Result<u32, Trouble>
    ensures { result ≡ process_of (number_of digits.now) }
{
    match number_of(digits.bytes()) {
        Some(number) if number <= u32::MAX as u64 => Ok(number as u32),
        _ => Err(Trouble::Broken(Breach::Data)),
    }
}

/// What the answer to GETPIN means. An inquiry is no answer to it.
pub(crate) fn pin_outcome(answer: Answer) -> Outcome
    ensures { result ≡ pin_outcome answer }
{
    match answer {
        Answer::Ok => Outcome::Pin(no_bytes()),
        Answer::Got(pin) => Outcome::Pin(pin),
        Answer::Err(number) => match number % CODES {
            CANCELED | FULLY_CANCELED => Outcome::Cancelled,
            TIMEOUT => Outcome::TimedOut,
            _ => Outcome::Broken(Breach::Code(number)),
        },
        Answer::Asked { .. } => Outcome::Broken(Breach::Inquiry),
        Answer::Broken(breach) => Outcome::Broken(breach),
        Answer::ReadFault | Answer::WriteFault => Outcome::Failed,
    }
}

/// What the answer to CONFIRM means. An inquiry is no answer to it.
pub(crate) fn consent_of(answer: Answer) -> Consent
    ensures { result ≡ consent_of answer }
{
    match answer {
        Answer::Ok => Consent::Yes,
        Answer::Got(_) => Consent::Broken(Breach::Data),
        Answer::Err(number) => match number % CODES {
            CANCELED | FULLY_CANCELED => Consent::Cancelled,
            TIMEOUT => Consent::TimedOut,
            NOT_CONFIRMED => Consent::No,
            _ => Consent::Broken(Breach::Code(number)),
        },
        Answer::Asked { .. } => Consent::Broken(Breach::Inquiry),
        Answer::Broken(breach) => Consent::Broken(breach),
        Answer::ReadFault | Answer::WriteFault => Consent::Failed,
    }
}

/// A passphrase of no bytes.
fn no_bytes() -> Secret
    ensures { result ≡ [] }
{
    Secret::of(b"").unwrap()
}
