//! The tries of one prompt: each is a GETPIN, the check of a new passphrase, the test and the
//! repeats, and the next one shows what failed it. It calls the prompter and the test alone. Begin
//! with `ask_tries`; its events are `Tries` (`specs/Prompts`).

ghost use Rattle.std.specs.Prelude.{◌≡◌, ◌≤◌, ◌↔◌, true, None, IsTrue, length};
ghost use Rattle.agent_ask.specs.Doing.{HasEvents, DoesCall};
ghost use Rattle.agent_ask.specs.Prompts.{MeetsCheck, IsTry, Repeats, Tries, failure_words};
ghost use Rattle.agent_ask.specs.{Prompts.{try_text, pin_or_stop}, Tests.WithTests, Trying.GoesOn};

use crate::{AskPlan, Asked, Outcome, Prompter, Test, Tested};
use assuan_text::Text;
use cache_policy::Secret;
use pass_checks::meets;
use prompt_seat::Ticket;

/// How many tries one prompt has.
pub const MAX_TRIES: u8 = 3;

const REPEAT: &[u8] = b"Please repeat the passphrase";

/// What failed a try.
#[derive(Clone, Copy, PartialEq, Eq)]
pub(crate) enum Failure {
    BadPassphrase,
    TooWeak,
    /// A repeat isn't the same.
    Differ,
}

/// Why a try has no passphrase.
#[derive(Drop)]
pub(crate) enum Stop {
    /// The try failed.
    Failed(Failure),
    /// The prompt is over.
    Over(Asked),
}

/// Asks for a passphrase, until one is accepted or three tries failed.
pub(crate) fn ask_tries<P: Prompter, T: Test>(
    ticket: &Ticket,
    plan: &AskPlan,
    test: &mut T,
    prompter: &mut P,
) -> Asked
    requires { (P.at prompter.old).ready ≡ true }
    ensures { HasEvents (DoesCall P.prompted) (λ events. WithTests T.tested test.old test.new
        (λ tests. Tries plan.now (T.rule test.old) 1 None events tests result))
        prompter.old prompter.new }
{
    let mut failure = None;
    for number in 1..=MAX_TRIES {
        let error = try_text(plan, failure, number);
        match ask_once(ticket, &error, plan, test, prompter) {
            Ok(pin) => return Asked::Pin(pin),
            Err(Stop::Over(asked)) => return asked,
            Err(Stop::Failed(why)) => failure = Some(why),
        }
    }
    Asked::Bad
}

/// What the try of this number shows as an error, where this failed the try before it.
fn try_text(plan: &AskPlan, failure: Option<Failure>, number: u8) -> Text
    requires { number ≤ MAX_TRIES }
    ensures { result.items ≡ try_text plan.now failure number }
{
    let mut text = Text::new();
    match failure {
        None => text.try_extend_from_slice(&plan.first_error).unwrap(),
        Some(failure) => {
            text.try_extend_from_slice(words(failure)).unwrap();
            text.try_extend_from_slice(b" (try ").unwrap();
            text.push(b'0' + number);
            text.try_extend_from_slice(b" of ").unwrap();
            text.push(b'0' + MAX_TRIES);
            text.push(b')');
        }
    }
    text
}

/// How a failure is told to the user.
fn words(failure: Failure) -> &'static [u8]
    ensures words { result.now ≡ failure_words failure }
    ensures short { length result.now ≤ 40 }
{
    match failure {
        Failure::BadPassphrase => b"Bad passphrase",
        Failure::TooWeak => b"This passphrase is too weak",
        Failure::Differ => b"Passphrases differ",
    }
}

/// One try: a passphrase, and its repeats where it is accepted.
fn ask_once<P: Prompter, T: Test>(
    ticket: &Ticket,
    error: &[u8],
    plan: &AskPlan,
    test: &mut T,
    prompter: &mut P,
) -> Result<Secret, Stop>
    requires { (P.at prompter.old).ready ≡ true }
    ensures tried { HasEvents (DoesCall P.prompted) (λ events. WithTests T.tested test.old test.new
        (λ tests. IsTry plan.now (T.rule test.old) error.now events tests result))
        prompter.old prompter.new }
    ensures ready { GoesOn result → (P.at prompter.new).ready ≡ true }
{
    let pin = pin_or_stop(prompter.getpin(ticket, error))?;
    if !meets_check(plan.check, pin.bytes()) {
        return Err(Stop::Failed(Failure::TooWeak));
    }
    match test.accepts(&pin) {
        Tested::Yes => ask_repeats(ticket, plan.repeat, pin, prompter),
        Tested::No => Err(Stop::Failed(Failure::BadPassphrase)),
        Tested::NoMemory => Err(Stop::Over(Asked::NoMemory)),
    }
}

/// Whether a passphrase meets the check, where there is one.
fn meets_check(check: Option<(u8, u8)>, pin: &[u8]) -> bool
    ensures { IsTrue result ↔ MeetsCheck check pin.now }
{
    match check {
        None => true,
        Some((min_len, min_nonalpha)) => meets(pin, min_len, min_nonalpha),
    }
}

/// Asks for the passphrase again, once for each repeat.
fn ask_repeats<P: Prompter>(
    ticket: &Ticket,
    repeat: u8,
    pin: Secret,
    prompter: &mut P,
) -> Result<Secret, Stop>
    requires { (P.at prompter.old).ready ≡ true }
    ensures repeated { HasEvents (DoesCall P.prompted)
        (λ events. Repeats repeat pin events result) prompter.old prompter.new }
    ensures ready { GoesOn result → (P.at prompter.new).ready ≡ true }
{
    for _ in 0..repeat {
        let again = pin_or_stop(prompter.getpin(ticket, REPEAT))?;
        if !is_same(&again, &pin) {
            return Err(Stop::Failed(Failure::Differ));
        }
    }
    Ok(pin)
}

fn is_same(pin: &Secret, other: &Secret) -> bool
    ensures { IsTrue result ↔ (pin.now ≡ other.now) }
{
    pin.bytes() == other.bytes()
}

/// What a question came to: a passphrase, or the end of the prompt.
fn pin_or_stop(outcome: Outcome) -> Result<Secret, Stop>
    ensures { result ≡ pin_or_stop outcome }
{
    match outcome {
        Outcome::Pin(pin) => Ok(pin),
        Outcome::Cancelled => Err(Stop::Over(Asked::Cancelled)),
        Outcome::TimedOut => Err(Stop::Over(Asked::TimedOut)),
        Outcome::Failed | Outcome::Broken(_) => Err(Stop::Over(Asked::NoPinentry)),
    }
}
