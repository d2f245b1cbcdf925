//! A prompter that tells a gate (test hook) where a prompt is open, and passes all calls on to
//! another one. In the agent itself the gate does nothing. Begin with `GatedPrompter`; to contracts
//! it is the prompter alone (`specs/Gates`).

ghost use Rattle.std.specs.Prelude.{◌≡◌};

use agent_ask::{Consent, Opened, Outcome, PromptSpec, Prompter};
use agent_ports::{Gate, GatePoint, SessionId};
use prompt_seat::Ticket;
use std::marker::Model;

/// A prompter that passes its calls on, and tells a gate where a prompt of its session is open.
/// Contracts see the prompter alone.
pub struct GatedPrompter<'g, P: Prompter, G: Gate> {
    prompter: P,
    gate: &'g G,
    session: SessionId,
}

impl<'g, P: Prompter, G: Gate> Model for GatedPrompter<'g, P, G> {
    ghost use Rattle.agent_serve.specs.Gates.{Gated};

    ghost Value = { Gated P };

    ghost view = { λ gated. record { prompter = gated.prompter } };
}

impl<'g, P: Prompter, G: Gate> GatedPrompter<'g, P, G> {
    /// A prompter for this session, at which nothing was called so far.
    pub fn new(prompter: P, gate: &'g G, session: SessionId) -> Self
        ensures { result.prompter ≡ prompter }
    {
        GatedPrompter {
            prompter,
            gate,
            session,
        }
    }

    /// The prompter alone again.
    pub fn into_prompter(self) -> P
        ensures { result ≡ self.entry.prompter }
    {
        let GatedPrompter {
            prompter,
            gate: _,
            session: _,
        } = self;
        prompter
    }
}

impl<'g, P: Prompter, G: Gate> Prompter for GatedPrompter<'g, P, G> {
    ghost at = { λ gated. P.at gated.prompter };

    ghost prompted = { λ before call after. P.prompted before.prompter call after.prompter };

    ghost promise = { λ before call after does.
        P.promise before.prompter call after.prompter does };

    fn ready(&self) -> bool {
        self.prompter.ready()
    }

    fn start(&mut self, ticket: &Ticket, spec: &PromptSpec) -> Opened {
        let opened = self.prompter.start(ticket, spec);
        if matches!(opened, Opened::Pid(_)) {
            self.gate.at(GatePoint::PromptOpen, self.session);
        }
        opened
    }

    fn getpin(&mut self, ticket: &Ticket, error: &[u8]) -> Outcome {
        self.prompter.getpin(ticket, error)
    }

    fn confirm(&mut self, ticket: &Ticket) -> Consent {
        self.prompter.confirm(ticket)
    }

    fn shut(&mut self, ticket: &Ticket) {
        self.prompter.shut(ticket);
    }
}
