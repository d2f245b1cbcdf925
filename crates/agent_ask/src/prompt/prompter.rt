//! The port to what asks the user, by the operations of a pinentry (pinentry manual, "protocol"):
//! start, GETPIN, CONFIRM, and the end. A trait and its answers; `Pinentry` of `pinentry_client` is
//! the agent's own. Begin with `Prompter`; `specs/Prompters` says what each call does to its state
//! and to its count of faults.

ghost use Rattle.std.specs.Prelude.{◌≡◌, true};
ghost use Rattle.agent_ask.specs.Events.{Call, Start, GetPin, Confirm, Shut};
ghost use Rattle.agent_ask.specs.Prompters.{AtPrompter, IsShut, IsCall};

use crate::PromptSpec;
use assuan_line::Breach;
use cache_policy::Secret;
use prompt_seat::Ticket;

/// What the start of a prompt came to.
#[derive(Drop)]
pub enum Opened {
    /// The prompt is open, in the process of this number. 0 where it isn't known.
    Pid(u32),
    /// There is no child, or its link failed.
    Failed,
    /// The child broke the protocol.
    Broken(Breach),
}

/// What came of asking for a passphrase. It may hold one, so it isn't printed.
#[derive(Drop)]
pub enum Outcome {
    /// What the user typed.
    Pin(Secret),
    /// The user cancelled.
    Cancelled,
    /// The user didn't answer in time.
    TimedOut,
    /// There is no child, or its link failed.
    Failed,
    /// The child broke the protocol.
    Broken(Breach),
}

/// What came of asking for consent.
#[derive(Drop)]
pub enum Consent {
    /// The user said yes.
    Yes,
    /// The user said no.
    No,
    /// The user cancelled.
    Cancelled,
    /// The user didn't answer in time.
    TimedOut,
    /// There is no child, or its link failed.
    Failed,
    /// The child broke the protocol.
    Broken(Breach),
}

/// What asks the user. Whoever calls it has the ticket of the seat before the prompt.
pub trait Prompter {
    /// Whether it is ready for a question, whether a child stands, and how many calls failed.
    ghost at: { Self → AtPrompter };

    /// A prompter shows its prompts by this relation between itself before a call, the call with
    /// its answer, and itself after.
    ghost prompted: { Self → Call → Self → Type 0 };

    /// Whether a prompt is open that can be asked.
    fn ready(&self) -> bool
        ensures { result ≡ (at self.now).ready };

    /// Opens a prompt.
    fn start(&mut self, ticket: &Ticket, spec: &PromptSpec) -> Opened
        requires { IsShut (at self.old) }
        ensures { prompted self.old (Start spec.now result) self.new };

    /// Asks for a passphrase, and shows this text as an error, if it isn't empty.
    fn getpin(&mut self, ticket: &Ticket, error: &[u8]) -> Outcome
        requires { (at self.old).ready ≡ true }
        ensures { prompted self.old (GetPin error.now result) self.new };

    /// Asks for consent.
    fn confirm(&mut self, ticket: &Ticket) -> Consent
        requires { (at self.old).ready ≡ true }
        ensures { prompted self.old (Confirm result) self.new };

    /// Ends the prompt, if one is open, and its child, if there is one.
    fn shut(&mut self, ticket: &Ticket)
        ensures { prompted self.old Shut self.new };

    /// What every call does.
    ghost promise: { (before : Self) (call : Call) (after : Self) → prompted before call after
        → IsCall (at before) call (at after) };
}
