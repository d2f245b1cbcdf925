//! The prompt for a passphrase: it is opened, tried up to three times and shut, whatever came. It
//! calls the prompter, the client and the test of the passphrase, and borrows the ticket (permit)
//! of the seat (lock: the right to prompt). Begin with `ask_pin`; its events are `AsksPinBy`
//! (`specs/Prompts`).

ghost use Rattle.std.specs.Prelude.{◌≡◌, ℕ, List, IfOk};
ghost use Rattle.agent_ask.specs.{Listening.ListensAfterPin, Doing.{HasEvents, DoesPrompt, ends}};
ghost use Rattle.agent_ask.specs.Trying.{IsLeft, IsTried, asked_by};
ghost use Rattle.agent_ask.specs.{Prompters.IsShut, Prompts.{AsksPinBy, AsksBefore}};
ghost use Rattle.agent_ask.specs.Tests.{WithTests, EndsAccepted, EndsOutOfMemory};

use crate::prompt::opening::open_prompt;
use crate::prompt::tries::ask_tries;
use crate::{AskPlan, Caller, Heard, PromptSpec, Prompter, Test};
use cache_policy::Secret;
use prompt_seat::Ticket;
use session_client::ClientError;

/// What asking for a passphrase came to. It may hold one, so it isn't printed.
#[derive(Drop)]
pub enum Asked {
    /// The passphrase was accepted, and repeated as often as is wanted.
    Pin(Secret),
    /// The user cancelled.
    Cancelled,
    /// The user didn't answer in time.
    TimedOut,
    /// The prompter failed, or was broken.
    NoPinentry,
    /// Three tries failed.
    Bad,
    /// The client didn't take note of the prompt, but answered so.
    Heard(Heard),
    /// The test found no memory.
    NoMemory,
}

/// Asks for a passphrase by one prompt, and has shut the prompter when it returns.
///
/// The client is told of the prompt where `plan` says so. A try is one passphrase and, where the
/// check and then the test accept it, its repeats. What failed a try is shown by the next one;
/// there are three.
pub fn ask_pin<P: Prompter, C: Caller, T: Test>(
    ticket: &Ticket,
    spec: &PromptSpec,
    plan: &AskPlan,
    test: &mut T,
    prompter: &mut P,
    caller: &mut C,
) -> Asked
    requires shut { IsShut (P.at prompter.old) }
    requires listens { C.listens caller.old }
    ensures asked { HasEvents (DoesPrompt P.prompted C.heard) (λ events.
        AsksPinBy T.tested test.old test.new spec.now plan.now (T.rule test.old) events result)
        (ends prompter.old caller.old) (ends prompter.new caller.new) }
    ensures shut { IsShut (P.at prompter.new) }
    ensures listens { ListensAfterPin result (C.listens caller.new) }
    ensures accepted { (pin : List ℕ) → result ≡ Asked.Pin pin
        → EndsAccepted T.tested pin test.old test.new }
    ensures no_memory { result ≡ Asked.NoMemory → EndsOutOfMemory T.tested test.old test.new }
{
    match prompt_pin(ticket, spec, plan, test, prompter, caller) {
        Ok(asked) => asked,
        Err(why) => Asked::Heard(why.into()),
    }
}

/// The same, but for a client that didn't take note.
pub(crate) fn prompt_pin<P: Prompter, C: Caller, T: Test>(
    ticket: &Ticket,
    spec: &PromptSpec,
    plan: &AskPlan,
    test: &mut T,
    prompter: &mut P,
    caller: &mut C,
) -> Result<Asked, ClientError>
    requires shut { IsShut (P.at prompter.old) }
    requires listens { C.listens caller.old }
    ensures asked { HasEvents (DoesPrompt P.prompted C.heard)
        (λ events. AsksPinBy T.tested test.old test.new
        spec.now plan.now (T.rule test.old) events (asked_by result))
        (ends prompter.old caller.old) (ends prompter.new caller.new) }
    ensures shut { IsShut (P.at prompter.new) }
    ensures left { IsLeft C.heard C.listens result caller.old caller.new }
    ensures tried { IfOk result IsTried }
{
    let asked = ask_before_shut(ticket, spec, plan, test, prompter, caller);
    prompter.shut(ticket);
    asked
}

/// All of the prompt but its end.
fn ask_before_shut<P: Prompter, C: Caller, T: Test>(
    ticket: &Ticket,
    spec: &PromptSpec,
    plan: &AskPlan,
    test: &mut T,
    prompter: &mut P,
    caller: &mut C,
) -> Result<Asked, ClientError>
    requires shut { IsShut (P.at prompter.old) }
    requires listens { C.listens caller.old }
    ensures asked { HasEvents (DoesPrompt P.prompted C.heard)
        (λ events. WithTests T.tested test.old test.new
        (λ tests. AsksBefore spec.now plan.now (T.rule test.old) events tests (asked_by result)))
        (ends prompter.old caller.old) (ends prompter.new caller.new) }
    ensures left { IsLeft C.heard C.listens result caller.old caller.new }
    ensures tried { IfOk result IsTried }
{
    if !open_prompt(ticket, spec, plan.notify, prompter, caller)? {
        return Ok(Asked::NoPinentry);
    }
    Ok(ask_tries(ticket, plan, test, prompter))
}
