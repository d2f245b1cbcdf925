//! The user's consent, as an action of a request: all but a yes refuses the request. It takes
//! the seat (lock) at the desk (cache handle), and calls the prompter and the client. Begin with
//! `agree_by_mode`, or with `agree` where the request holds a ticket (permit); `specs/ConsentActions`
//! says what they do, and which answer is which error (`IsConsented`).

ghost use Rattle.std.specs.Prelude.{◌≡◌, None};
ghost use Rattle.session_client.specs.Lines.{IsOpen};
ghost use Rattle.agent_ask.specs.Clients.{Hears, LeftByAction};
ghost use Rattle.agent_ask.specs.ConsentActions.{AgreesTo, AsksQuestion, IsConsented};
ghost use Rattle.agent_ask.specs.{Consents.agreed_of, Trying.IsOwn, Session.TurnActions.in_mode};
ghost use Rattle.agent_ask.specs.Session.ActionStates.{DoesAction, DoesPrompts, action_state};
ghost use Rattle.agent_ask.specs.{Doing.{HasEvents, DoesPrompt, ends}, Prompters.IsShut};

use crate::prompt::consent::prompt_consent;
use crate::{Consent, Held, Prompter, prompt_spec, seat_by_mode};
use assuan_text::Text;
use cache_policy::{Desk, Secret};
use prompt_seat::Ticket;
use session_client::{Client, Code, Refusal};
use session_options::{Options, Rules};

/// Asks the user this question by one prompt, where the pinentry-mode has prompts.
pub fn agree_by_mode<C: Client<Secret>, D: Desk, P: Prompter>(
    question: &Text,
    rules: &Rules,
    options: &Options,
    held: &mut Held,
    client: &mut C,
    desk: &mut D,
    prompter: &mut P,
) -> Result<(), Refusal>
    requires none { held.old ≡ None }
    requires open { IsOpen C.views client.old }
    requires out { (D.at desk.old).out ≡ held.old }
    requires shut { IsShut (P.at prompter.old) }
    ensures agrees { DoesAction C.views D.turned (DoesPrompts P.prompted) (in_mode options.now.mode
        (AgreesTo C.lines rules.now options.now question.now.items)) held.old
        (action_state C.views D.turned (DoesPrompts P.prompted) client.old desk.old prompter.old)
        result held.new
        (action_state C.views D.turned (DoesPrompts P.prompted) client.new desk.new prompter.new) }
    ensures out { (D.at desk.new).out ≡ held.new }
    ensures shut { IsShut (P.at prompter.new) }
{
    seat_by_mode(options.mode(), held, desk)?;
    agree(question, rules, options, held.ticket(), client, prompter)
}

/// Asks the user this question by one prompt under a ticket. A request whose user doesn't say yes
/// is refused.
pub fn agree<C: Client<Secret>, P: Prompter>(
    question: &Text,
    rules: &Rules,
    options: &Options,
    ticket: &Ticket,
    client: &mut C,
    prompter: &mut P,
) -> Result<(), Refusal>
    requires open { IsOpen C.views client.old }
    requires shut { IsShut (P.at prompter.old) }
    ensures asked { HasEvents (DoesPrompt P.prompted (Hears C.views C.wished)) (λ events.
        AsksQuestion rules.now options.now question.now.items events result)
        (ends prompter.old client.old) (ends prompter.new client.new) }
    ensures shut { IsShut (P.at prompter.new) }
    ensures left { LeftByAction C.views result client.old client.new }
{
    let spec = prompt_spec(question, &Text::new(), false, rules, options);
    consented(prompt_consent(ticket, &spec, options.notify(), prompter, client)?)
}

/// How a request goes on whose prompt came to this.
fn consented(consent: Consent) -> Result<(), Refusal>
    ensures consented { IsConsented (agreed_of consent) result }
    ensures own { IsOwn result }
{
    Err(match consent {
        Consent::Yes => return Ok(()),
        Consent::No => Refusal::Pinentry(Code::NotConfirmed),
        Consent::Cancelled => Refusal::Pinentry(Code::Cancelled),
        Consent::TimedOut => Refusal::Pinentry(Code::Timeout),
        Consent::Failed | Consent::Broken(_) => Refusal::Agent(Code::NoPinentry),
    })
}
