//! The prompt for consent: it is opened, asked once and shut, whatever came. It calls the prompter
//! and the client, and borrows the ticket (permit) of the seat (lock: the right to prompt). Begin
//! with `ask_consent`; its events are `AsksConsent` (`specs/Consents`).

ghost use Rattle.std.specs.Prelude.{◌≡◌};
ghost use Rattle.agent_ask.specs.Listening.{ListensAfterConsent};
ghost use Rattle.agent_ask.specs.Consents.{AsksConsent, ConsentBefore, agreed_of};
ghost use Rattle.agent_ask.specs.{Doing.{HasEvents, DoesPrompt, ends}, Prompters.IsShut};
ghost use Rattle.agent_ask.specs.Trying.{IsLeft, agreed_by};

use crate::prompt::opening::open_prompt;
use crate::{Caller, Consent, Heard, PromptSpec, Prompter};
use prompt_seat::Ticket;
use session_client::ClientError;

/// What asking for consent came to.
#[derive(Drop)]
pub enum Agreed {
    /// The user said yes.
    Yes,
    /// The user said no.
    No,
    /// The user cancelled.
    Cancelled,
    /// The user didn't answer in time.
    TimedOut,
    /// The prompter failed, or was broken.
    NoPinentry,
    /// The client didn't take note of the prompt, but answered so.
    Heard(Heard),
}

/// Asks for consent by one prompt, and has shut the prompter when it returns. The user is asked
/// once.
pub fn ask_consent<P: Prompter, C: Caller>(
    ticket: &Ticket,
    spec: &PromptSpec,
    notify: bool,
    prompter: &mut P,
    caller: &mut C,
) -> Agreed
    requires shut { IsShut (P.at prompter.old) }
    requires listens { C.listens caller.old }
    ensures asked { HasEvents
        (DoesPrompt P.prompted C.heard) (λ events. AsksConsent spec.now notify events result)
        (ends prompter.old caller.old) (ends prompter.new caller.new) }
    ensures shut { IsShut (P.at prompter.new) }
    ensures listens { ListensAfterConsent result (C.listens caller.new) }
{
    match prompt_consent(ticket, spec, notify, prompter, caller) {
        Ok(consent) => agreed_of(consent),
        Err(why) => Agreed::Heard(why.into()),
    }
}

/// The same, but for a client that didn't take note. Where there is no pinentry it failed.
pub(crate) fn prompt_consent<P: Prompter, C: Caller>(
    ticket: &Ticket,
    spec: &PromptSpec,
    notify: bool,
    prompter: &mut P,
    caller: &mut C,
) -> Result<Consent, ClientError>
    requires shut { IsShut (P.at prompter.old) }
    requires listens { C.listens caller.old }
    ensures asked { HasEvents (DoesPrompt P.prompted C.heard)
        (λ events. AsksConsent spec.now notify events (agreed_by result))
        (ends prompter.old caller.old) (ends prompter.new caller.new) }
    ensures shut { IsShut (P.at prompter.new) }
    ensures left { IsLeft C.heard C.listens result caller.old caller.new }
{
    let consent = ask_before_shut(ticket, spec, notify, prompter, caller);
    prompter.shut(ticket);
    consent
}

/// All of the prompt but its end.
fn ask_before_shut<P: Prompter, C: Caller>(
    ticket: &Ticket,
    spec: &PromptSpec,
    notify: bool,
    prompter: &mut P,
    caller: &mut C,
) -> Result<Consent, ClientError>
    requires shut { IsShut (P.at prompter.old) }
    requires listens { C.listens caller.old }
    ensures asked { HasEvents (DoesPrompt P.prompted C.heard)
        (λ events. ConsentBefore spec.now notify events (agreed_by result))
        (ends prompter.old caller.old) (ends prompter.new caller.new) }
    ensures left { IsLeft C.heard C.listens result caller.old caller.new }
{
    if !open_prompt(ticket, spec, notify, prompter, caller)? {
        return Ok(Consent::Failed);
    }
    Ok(prompter.confirm(ticket))
}

/// The answer by what the question came to.
fn agreed_of(consent: Consent) -> Agreed
    ensures { result ≡ agreed_of consent }
{
    match consent {
        Consent::Yes => Agreed::Yes,
        Consent::No => Agreed::No,
        Consent::Cancelled => Agreed::Cancelled,
        Consent::TimedOut => Agreed::TimedOut,
        Consent::Failed | Consent::Broken(_) => Agreed::NoPinentry,
    }
}
