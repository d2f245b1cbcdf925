//! How a step came out at a core whose run is known, and how a step looks in its mark (log entry).
//! Pure; ids and secrets are copied without taking memory. Begin with `Stepped`, whose turn is
//! `turn_of_stepped` of `specs/Stepped`.

ghost use Rattle.std.specs.Prelude.{◌≡◌};
ghost use Rattle.cache_policy.specs.Turns.{mark_step};
ghost use Rattle.agent_core.specs.Openings.{without_wait};

use crate::opening::Opening;
use agent_ports::SessionId;
use cache_policy::{MarkStep, Reply, Secret, Step, Under, Wait, since_by};

/// How a step came out.
pub(crate) enum Stepped {
    Replied(Reply),
    /// Another session has the seat. The step is to be taken again later, with this wait.
    Stood(Opening, Wait),
    /// There was no memory for it.
    Refused(Step),
}

/// The step as it is first tried: it hands no wait in.
pub fn without_wait(step: Step) -> Step
    ensures { result ≡ without_wait step }
{
    match step {
        Step::Ask {
            id,
            mode,
            way,
            wait: _,
        } => Step::Ask {
            id,
            mode,
            way,
            wait: None,
        },
        Step::Seat { under, wait: _ } => Step::Seat { under, wait: None },
        other => other,
    }
}

/// A session's step as a mark has it.
pub fn mark_step_of(session: SessionId, step: &Step) -> MarkStep
    ensures { result ≡ mark_step session step.now }
{
    match step {
        Step::Ask {
            id,
            mode,
            way,
            wait,
        } => MarkStep::Ask {
            id: id.copy(),
            mode: *mode,
            way: *way,
            since: since_by(session, wait),
        },
        Step::Seat { under, wait } => MarkStep::Seat {
            under: under.as_ref().map(Under::copy),
            since: since_by(session, wait),
        },
        Step::Close { ticket, keep } => MarkStep::Close {
            ticket: ticket.number(),
            keep: keep.as_ref().map(Secret::copy),
        },
        Step::Put {
            id,
            mode,
            life,
            secret,
        } => MarkStep::Put {
            id: id.copy(),
            mode: *mode,
            life: *life,
            secret: secret.copy(),
        },
        Step::Clear { id, mode } => MarkStep::Clear {
            id: id.copy(),
            mode: *mode,
        },
        Step::Flush => MarkStep::Flush,
        Step::Peek { id, mode } => MarkStep::Peek {
            id: id.copy(),
            mode: *mode,
        },
        Step::Stop => MarkStep::Stop,
    }
}
