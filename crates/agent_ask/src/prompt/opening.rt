//! The opening of a prompt, for a passphrase or for consent: the prompter is started, and the
//! client is told of it where it set `allow-pinentry-notify`. It calls these two and nothing else.
//! Begin with `open_prompt`; its events are `Opens` (`specs/Prompts`).

ghost use Rattle.std.specs.Prelude.{◌≡◌, Ok, true};
ghost use Rattle.agent_ask.specs.{Doing.{HasEvents, DoesPrompt, ends}, Trying.{IsLeft, opening_by}};
ghost use Rattle.agent_ask.specs.{Prompters.IsShut, Prompts.Opens};

use crate::{Caller, Opened, PromptSpec, Prompter};
use prompt_seat::Ticket;
use session_client::ClientError;

/// Opens a prompt, and tells the client of it where it wants to know. False means that there is no
/// pinentry.
pub(crate) fn open_prompt<P: Prompter, C: Caller>(
    ticket: &Ticket,
    spec: &PromptSpec,
    notify: bool,
    prompter: &mut P,
    caller: &mut C,
) -> Result<bool, ClientError>
    requires shut { IsShut (P.at prompter.old) }
    requires listens { C.listens caller.old }
    ensures opened { HasEvents
        (DoesPrompt P.prompted C.heard) (λ events. Opens spec.now notify events (opening_by result))
        (ends prompter.old caller.old) (ends prompter.new caller.new) }
    ensures ready { result ≡ Ok true → (P.at prompter.new).ready ≡ true }
    ensures left { IsLeft C.heard C.listens result caller.old caller.new }
{
    let Opened::Pid(pid) = prompter.start(ticket, spec) else {
        return Ok(false);
    };
    if notify {
        caller.note(pid)?;
    }
    Ok(true)
}
