//! What an agent's reply makes of a run: a further step, a passphrase to hold or to give, or its
//! end. Pure. Begin with `judge`; `verdict` (`specs/Verdicts`) defines it, step by step.

ghost use Rattle.std.specs.Prelude.{◌≡◌};
ghost use Rattle.passphrase_client.specs.Verdicts.{verdict, look_verdict, looks_alone, matters};
ghost use Rattle.passphrase_client.specs.Verdicts.{missed_verdict, found_verdict, ask_verdict};
ghost use Rattle.passphrase_client.specs.Verdicts.{probe_verdict, given, goes_on_or, failure};
ghost use Rattle.passphrase_client.specs.Verdicts.{cancelled, repeats, is_one_line, can_be_given};
ghost use Rattle.passphrase_client.specs.Verdicts.{empties, emptied_verdict, first_of, stops_at};
ghost use Rattle.passphrase_client.specs.Verdicts.{end_of, lifetime_found};

use crate::ending::{Cause, Ending, Lifetime, cause_of};
use crate::steps::Step;
use cache_policy::Secret;
use passphrase_talk::{Loss, Place, Told};
use passphrase_words::Act;

/// What a reply makes of a run.
#[derive(Drop)]
pub(crate) enum Verdict {
    /// The next step comes.
    GoesOn,
    /// It comes, and this failure is noted: nothing but a look is done behind it.
    Notes(Ending),
    /// It comes, and this passphrase is held for it.
    Holds(Secret),
    /// This passphrase is given, and has this lifetime.
    Gives(Secret, Lifetime),
    /// The run is over.
    Ends(Ending),
}

/// What the reply to this step makes of the run, where this passphrase is held.
pub(crate) fn judge(act: Act, held: &Secret, step: Step, told: Told) -> Verdict
    ensures { result ≡ verdict act held.now step told }
{
    match step {
        Step::Look(place) => look_verdict(act, place, told),
        Step::Ask => ask_verdict(act, told),
        Step::Forget(_) | Step::Store => goes_on_or(failure(act, step, told)),
        Step::Probe => probe_verdict(act, told),
        Step::Keep => match failure(act, step, told) {
            Some(ending) => Verdict::Ends(ending),
            None => Verdict::Gives(held.copy(), Lifetime::AsWanted),
        },
    }
}

/// What is kept is given, or is what was to be known. Where there is none the next step comes.
fn look_verdict(act: Act, place: Place, told: Told) -> Verdict
    ensures { result ≡ look_verdict act place told }
{
    match told {
        Told::Passphrase(secret) => found_verdict(act, secret),
        Told::NoMemory => Verdict::Ends(Ending::NoMemory),
        told => missed_verdict(act, place, failure(act, Step::Look(place), told)),
    }
}

/// What a look comes to that brought nothing.
fn missed_verdict(act: Act, place: Place, failed: Option<Ending>) -> Verdict
    ensures { result ≡ missed_verdict act place failed }
{
    match failed {
        None | Some(Ending::Refused(Cause::NoData)) => Verdict::GoesOn,
        Some(failed) if matters(act, place) => Verdict::Notes(failed),
        Some(_) => Verdict::GoesOn,
    }
}

/// Whether the agent is the one that would be asked, or none is to be asked.
fn matters(act: Act, place: Place) -> bool
    ensures { result ≡ matters act place }
{
    match place {
        Place::Home => true,
        Place::Beside => looks_alone(act),
    }
}

/// Whether nobody is asked.
fn looks_alone(act: Act) -> bool
    ensures { result ≡ looks_alone act }
{
    matches!(act, Act::Cached | Act::Give { quiet: true, .. })
}

/// What a passphrase that is kept comes to.
fn found_verdict(act: Act, secret: Secret) -> Verdict
    ensures { result ≡ found_verdict act secret }
{
    match act {
        Act::Cached if is_one_line(secret.bytes()) => Verdict::Ends(Ending::Kept),
        Act::Cached => Verdict::Ends(Ending::NotOneLine),
        act => given(secret, lifetime_found(act.ttl())),
    }
}

/// What lifetime a passphrase that is kept has, where this one is wanted.
fn lifetime_found(ttl: Option<u32>) -> Lifetime
    ensures { result ≡ lifetime_found ttl }
{
    match ttl {
        None => Lifetime::AsWanted,
        Some(_) => Lifetime::AsBefore,
    }
}

/// What the user typed is given, or is held where it is to be kept with a lifetime.
fn ask_verdict(act: Act, told: Told) -> Verdict
    ensures { result ≡ ask_verdict act told }
{
    match told {
        Told::Passphrase(secret) => match given(secret, Lifetime::AsWanted) {
            Verdict::Gives(secret, _) if act.ttl().is_some() => Verdict::Holds(secret),
            verdict => verdict,
        },
        Told::Done => Verdict::Ends(Ending::Empty),
        told => goes_on_or(failure(act, Step::Ask, told)),
    }
}

/// An agent that inquires for the passphrase takes presets, and says by an error that it was given
/// none.
fn probe_verdict(act: Act, told: Told) -> Verdict
    ensures { result ≡ probe_verdict act told }
{
    match told {
        Told::Cancelled(Some(_)) => Verdict::GoesOn,
        Told::Done | Told::Passphrase(_) => Verdict::Ends(Ending::Lost(Loss::Broken)),
        told => goes_on_or(failure(act, Step::Probe, told)),
    }
}

/// The passphrase is given where it can be one line.
fn given(secret: Secret, lasts: Lifetime) -> Verdict
    ensures { result ≡ given secret lasts }
{
    if is_one_line(secret.bytes()) {
        Verdict::Gives(secret, lasts)
    } else {
        Verdict::Ends(Ending::NotOneLine)
    }
}

fn goes_on_or(failed: Option<Ending>) -> Verdict
    ensures { result ≡ goes_on_or failed }
{
    match failed {
        Some(ending) => Verdict::Ends(ending),
        None => Verdict::GoesOn,
    }
}

/// Why the step wasn't done, where it wasn't.
pub(crate) fn failure(act: Act, step: Step, told: Told) -> Option<Ending>
    ensures { result ≡ failure act step told }
{
    match told {
        Told::Passphrase(_) | Told::Done => None,
        Told::Refused { code, launched } => Some(Ending::Refused(cause_of(
            step,
            repeats(act),
            code,
            launched,
        ))),
        Told::Cancelled(Some(number)) => Some(cancelled(act, step, number)),
        Told::Cancelled(None) => Some(Ending::Lost(Loss::Broken)),
        Told::NoMemory => Some(Ending::NoMemory),
        Told::Lost(loss) => Some(Ending::Lost(loss)),
    }
}

/// What an inquiry that was cancelled comes to, whose end is an error of this number.
fn cancelled(act: Act, step: Step, number: u32) -> Ending
    ensures { result ≡ cancelled act step number }
{
    match step {
        Step::Ask => Ending::Refused(Cause::Canceled),
        step => Ending::Refused(cause_of(step, repeats(act), number, false)),
    }
}

/// Whether the reply to the step is an empty passphrase that is to be forgotten.
pub(crate) fn empties(act: Act, step: Step, told: &Told) -> bool
    ensures { result ≡ empties act step told.now }
{
    match (step, told) {
        (Step::Ask, Told::Done) => true,
        (Step::Look(_), Told::Done) => matches!(act, Act::Give { .. }),
        _ => false,
    }
}

/// What that makes of the run, where it wasn't forgotten for this reason.
pub(crate) fn emptied_verdict(step: Step, failed: Option<Ending>) -> Verdict
    ensures { result ≡ emptied_verdict step failed }
{
    match (step, failed) {
        (_, Some(ending)) => Verdict::Ends(ending),
        (Step::Ask, None) => Verdict::Ends(Ending::Empty),
        (_, None) => Verdict::GoesOn,
    }
}

/// The failure that is noted first.
pub(crate) fn first_of(noted: Option<Ending>, later: Ending) -> Option<Ending>
    ensures { result ≡ first_of noted later }
{
    Some(noted.unwrap_or(later))
}

/// The noted failure, where the step is no look: nothing else is done behind it.
pub(crate) fn stops_at(step: Step, noted: Option<Ending>) -> Option<Ending>
    ensures { result ≡ stops_at step noted }
{
    match step {
        Step::Look(_) => None,
        _ => noted,
    }
}

/// What a run comes to behind its last step.
pub(crate) fn end_of(act: Act, noted: Option<Ending>) -> Ending
    ensures { result ≡ end_of act noted }
{
    match (noted, act) {
        (Some(ending), _) => ending,
        (None, Act::Give { .. }) => Ending::NotKept,
        (None, Act::Cached) => Ending::NotCached,
        (None, Act::Forget | Act::ForgetAll | Act::Store) => Ending::Done,
    }
}

/// Whether what is typed is to be repeated.
fn repeats(act: Act) -> bool
    ensures { result ≡ repeats act }
{
    matches!(act, Act::Give { repeats: true, .. })
}

/// Whether the bytes can be one line, and no NUL ends them in C.
pub(crate) fn is_one_line(bytes: &[u8]) -> bool
    ensures { result ≡ is_one_line bytes.now }
{
    bytes.iter().all(|byte| can_be_given(*byte))
}

fn can_be_given(byte: u8) -> bool
    ensures { result ≡ can_be_given byte }
{
    byte != 0 && byte != b'\n'
}
