//! The other session that has the ticket (permit) at a desk (cache handle) in memory. A scripted
//! step is made a step of the core here, and a CloseHeld takes the ticket out of its holder;
//! nothing else is touched. Begin with `told_step`, and with its namesake in `specs/Foreigners`.

ghost use Rattle.std.specs.Prelude.{◌≡◌, None, if◌then◌else◌};
ghost use Rattle.std.specs.Option.{option_map, option_and_then, is_some};
ghost use Rattle.cache_policy.specs.{Turns.{mark_step, closes}, Waits.is_session};
ghost use Rattle.agent_core.specs.Foreigners.{told_step, ticket_of};

use crate::foreign::ForeignStep;
use agent_ports::SessionId;
use cache_policy::Step;
use prompt_seat::Ticket;

/// A ticket, and the session that has it.
pub(crate) struct Holder {
    pub(crate) session: SessionId,
    pub(crate) ticket: Ticket,
}

/// The step that another session takes. A CloseHeld takes the ticket of that session, and is none
/// where it has none.
pub(crate) fn told_step(
    holder: &mut Option<Holder>,
    session: SessionId,
    step: ForeignStep,
) -> Option<Step>
    ensures step { option_map (mark_step session) result
        ≡ told_step (ticket_of holder.old session) step }
    ensures taken { holder.new ≡ (if is_some
        (option_and_then (λ s. closes (mark_step session s)) result) then None else holder.old) }
{
    match step {
        ForeignStep::Ask { id, mode, way } => Some(Step::Ask {
            id,
            mode,
            way,
            wait: None,
        }),
        ForeignStep::Seat { under } => Some(Step::Seat { under, wait: None }),
        ForeignStep::CloseHeld { keep } => {
            let ticket = take_ticket(holder, session)?;
            Some(Step::Close { ticket, keep })
        }
        ForeignStep::Put {
            id,
            mode,
            life,
            secret,
        } => Some(Step::Put {
            id,
            mode,
            life,
            secret,
        }),
        ForeignStep::Clear { id, mode } => Some(Step::Clear { id, mode }),
        ForeignStep::Flush => Some(Step::Flush),
        ForeignStep::Peek { id, mode } => Some(Step::Peek { id, mode }),
        ForeignStep::Stop => Some(Step::Stop),
    }
}

/// Takes the ticket of a session, if it has one.
fn take_ticket(holder: &mut Option<Holder>, session: SessionId) -> Option<Ticket>
    ensures ticket { result ≡ ticket_of holder.old session }
    ensures taken { holder.new ≡ (if is_some result then None else holder.old) }
{
    if !has_ticket(holder, session) {
        return None;
    }
    match holder.take() {
        Some(Holder { session: _, ticket }) => Some(ticket),
        None => None,
    }
}

fn has_ticket(holder: &Option<Holder>, session: SessionId) -> bool
    ensures { result ≡ is_some (ticket_of holder.now session) }
{
    match holder {
        Some(holder) => is_session(session, holder.session),
        None => false,
    }
}

fn is_session(session: SessionId, other: SessionId) -> bool
    ensures { result ≡ is_session session other }
{
    other.pass == session.pass && other.count == session.count
}
