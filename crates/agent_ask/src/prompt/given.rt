//! The prompt for a passphrase, as an action of a request that holds a ticket (permit): all
//! but a passphrase refuses the request. It calls the prompter, the test and the session's client.
//! Begin with `ask_user`; `specs/PinActions` says which answer is which error (`IsGiven`).

ghost use Rattle.std.specs.Prelude.{◌≡◌, ℕ, List, ⊤};
ghost use Rattle.session_client.specs.Lines.{IsOpen};
ghost use Rattle.agent_ask.specs.Clients.{Hears, LeftByAction};
ghost use Rattle.agent_ask.specs.{Doing.{HasEvents, DoesPrompt, ends}, Prompters.IsShut};
ghost use Rattle.agent_ask.specs.{PinActions.{AsksFor, IsGiven}, Trying.{IsTried, IsOwn}};
ghost use Rattle.agent_ask.specs.Tests.{EndsAccepted, EndsOutOfMemory};

use crate::prompt::ask::prompt_pin;
use crate::{AskPlan, Asked, PromptSpec, Prompter, Test, Tested};
use cache_policy::Secret;
use prompt_seat::Ticket;
use session_client::{Client, Code, Refusal};

/// A test that every passphrase passes.
#[derive(Drop)]
pub struct AnyPin;

impl Test for AnyPin {
    ghost use Rattle.agent_ask.specs.declared.prompt.test.Tested.TheVariants.{Yes};

    ghost rule = { λ test pin. ⊤ };

    ghost tested = { λ before pin answer after. answer ≡ Yes };

    ghost promise = { λ before pin answer after yes. record {
      judges = rw yes tt;
      same = record { to = λ other right. right; from = λ other right. right };
    } };

    fn accepts(&mut self, _pin: &Secret) -> Tested {
        Tested::Yes
    }
}

/// Asks the user for a passphrase by one prompt, as `ask_pin` does, and tells the client of the
/// prompt where it wants to know. A request that is given none is refused.
pub fn ask_user<C: Client<Secret>, P: Prompter, T: Test>(
    ticket: &Ticket,
    spec: &PromptSpec,
    plan: &AskPlan,
    test: &mut T,
    client: &mut C,
    prompter: &mut P,
) -> Result<Secret, Refusal>
    requires open { IsOpen C.views client.old }
    requires shut { IsShut (P.at prompter.old) }
    ensures asked { HasEvents (DoesPrompt P.prompted (Hears C.views C.wished)) (λ events.
        AsksFor T.tested test.old test.new spec.now plan.now (T.rule test.old) events result)
        (ends prompter.old client.old) (ends prompter.new client.new) }
    ensures shut { IsShut (P.at prompter.new) }
    ensures left { LeftByAction C.views result client.old client.new }
    ensures accepted { (pin : List ℕ) → result ≡ Ok pin
        → EndsAccepted T.tested pin test.old test.new }
    ensures no_memory { result ≡ Err (Refusal.Agent Code.NoMemory)
        → EndsOutOfMemory T.tested test.old test.new }
{
    given(prompt_pin(ticket, spec, plan, test, prompter, client)?)
}

/// How a request goes on whose prompt came to this.
fn given(asked: Asked) -> Result<Secret, Refusal>
    requires { IsTried asked }
    ensures gives { IsGiven asked result }
    ensures own { IsOwn result }
{
    Err(match asked {
        Asked::Pin(pin) => return Ok(pin),
        Asked::Cancelled => Refusal::Pinentry(Code::Cancelled),
        Asked::TimedOut => Refusal::Pinentry(Code::Timeout),
        Asked::NoPinentry => Refusal::Agent(Code::NoPinentry),
        Asked::Bad => Refusal::Agent(Code::BadPass),
        Asked::NoMemory => Refusal::Agent(Code::NoMemory),
        Asked::Heard(_) => unreachable!(),
    })
}
