//! The steps of a run, taken one after another until a reply ends it. It makes contacts by the
//! connector, and overwrites a passphrase that it held. Begin with `come_to`; what it does is
//! `ComesTo` (`specs/Runs`), and what each reply makes of it is in `verdict.rt`.

ghost use Rattle.std.specs.Prelude.{◌≡◌, All, List};
ghost use Rattle.passphrase_talk.specs.{Visits.Visits, declared.connector.Waits.TheVariants.Answer};
ghost use Rattle.passphrase_words.specs.{Requests.{line_of_request, Clears}, Tasks.task_value};
ghost use Rattle.passphrase_client.specs.{Runs.{ComesTo, DoesStep, Reply}, Steps.waits_of};

use crate::ending::{Ending, Lifetime};
use crate::steps::Step;
use crate::verdict::{
    Verdict, emptied_verdict, empties, end_of, failure, first_of, judge, stops_at,
};
use cache_policy::Secret;
use passphrase_talk::{Connector, Place, Told, Waits, visit};
use passphrase_words::{Request, Task};
use std::alloc::Global;

/// What the steps of a run come to.
#[derive(Drop)]
pub(crate) enum Course {
    /// This passphrase is given, and has this lifetime.
    Gives(Secret, Lifetime),
    /// The run is over.
    Ends(Ending),
}

/// Takes these steps, up to the one whose reply is the run's end, where this passphrase is held and
/// this failure is noted.
pub(crate) fn come_to<C: Connector>(
    alloc: Global,
    connector: &mut C,
    task: &Task<'_>,
    steps: &[Step],
    held: &Secret,
    noted: Option<Ending>,
) -> Course
    ensures comes { (replies : List Reply) × ComesTo (task_value task.now)
        (C.terminal connector.old) steps.now held.now noted (C.contacts connector.old) replies
        result (C.contacts connector.new) }
    ensures unprompted { All (λ step. waits_of step ≡ Answer) steps.now
        → (C.contacts connector.new).launches ≡ (C.contacts connector.old).launches }
    ensures terminal { C.terminal connector.new ≡ C.terminal connector.old }
{
    let Some((step, rest)) = steps.split_first() else {
        return Course::Ends(end_of(task.act, noted));
    };
    if let Some(ending) = stops_at(*step, noted) {
        return Course::Ends(ending);
    }
    match take_step(alloc, connector, task, *step, held) {
        Verdict::GoesOn => come_to(alloc, connector, task, rest, held, noted),
        Verdict::Notes(ending) => {
            connector.keep_reason();
            come_to(alloc, connector, task, rest, held, first_of(noted, ending))
        }
        Verdict::Holds(mut secret) => {
            let course = come_to(alloc, connector, task, rest, &secret, noted);
            secret.clear();
            course
        }
        Verdict::Gives(secret, lasts) => Course::Gives(secret, lasts),
        Verdict::Ends(ending) => Course::Ends(ending),
    }
}

/// Takes one step. An empty passphrase is forgotten at once, since it would be given ever after.
fn take_step<C: Connector>(
    alloc: Global,
    connector: &mut C,
    task: &Task<'_>,
    step: Step,
    held: &Secret,
) -> Verdict
    ensures does { (told : Told) × DoesStep (task_value task.now) (C.terminal connector.old) step
        held.now told result (C.contacts connector.old) (C.contacts connector.new) }
    ensures unprompted { waits_of step ≡ Answer
        → (C.contacts connector.new).launches ≡ (C.contacts connector.old).launches }
    ensures terminal { C.terminal connector.new ≡ C.terminal connector.old }
{
    let mut line = task.line(&step.request(task.act, held));
    let told = visit(alloc, connector, step.place(), step.waits(), &line);
    line.clear();
    if empties(task.act, step, &told) {
        let cleared = forget(alloc, connector, task, step.place());
        return emptied_verdict(step, failure(task.act, Step::Forget(step.place()), cleared));
    }
    judge(task.act, held, step, told)
}

/// Asks the agent at this place to forget what is kept.
fn forget<C: Connector>(alloc: Global, connector: &mut C, task: &Task<'_>, place: Place) -> Told
    ensures visits { Visits place Answer (line_of_request (task_value task.now) Clears)
        (C.terminal connector.old) result (C.contacts connector.old) (C.contacts connector.new) }
    ensures unprompted { (C.contacts connector.new).launches ≡ (C.contacts connector.old).launches }
    ensures terminal { C.terminal connector.new ≡ C.terminal connector.old }
{
    let line = task.line(&Request::Clear);
    visit(alloc, connector, place, Waits::Answer, &line)
}
