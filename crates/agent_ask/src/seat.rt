//! The seat before the prompt (lock: the right to prompt): it is taken at a desk (cache handle), by
//! a ticket (permit) that is given back. It takes turns at the desk, and calls nothing else. Begin
//! with `take_seat` and `give_back`; `hold_seat` and `close` do the same for a request's `Held`.
//! Definitions are in `specs/Seats` and `specs/Session/TurnActions`.

pub(crate) mod held;
pub(crate) mod turns;

ghost use Rattle.std.specs.Prelude.{◌≡◌, Ok, Err, Some, None, IfOk, IfErr, IsOk, IsSome};
ghost use Rattle.agent_ask.specs.Seats.{GivesTicket, SeatsIn, TakesTicket, WantsSeat};
ghost use Rattle.cache_policy.specs.declared.mark.MarkStep.TheVariants.{Close, Seat};
ghost use Rattle.cache_policy.specs.Turns.{Turn, FitsStep, asked_step, closes};

use crate::seat::held::Held;
use cache_policy::{Desk, Refused, Reply, Secret, Step, Under};
use prompt_seat::Ticket;
use session_client::{Code, Refusal};
use session_options::PinMode;

/// Takes the seat before a prompt, whose passphrase is cached so where it is one for a passphrase.
pub fn take_seat<D: Desk>(under: Option<Under>, desk: &mut D) -> Result<Ticket, Refusal>
    requires free { (D.at desk.old).out ≡ None }
    ensures taken { IfOk result
        (λ ticket. WantsSeat D.turned (Seat under None) desk.old (Ok ticket) desk.new) }
    ensures refused { IfErr result
        (λ why. WantsSeat D.turned (Seat under None) desk.old (Err why) desk.new) }
    ensures out { IfOk result (λ ticket. (D.at desk.new).out ≡ Some ticket) }
    ensures free { IfErr result (λ why. (D.at desk.new).out ≡ None) }
{
    match desk.turn(Step::Seat { under, wait: None }) {
        Ok(Reply::Open(ticket)) => Ok(ticket),
        Ok(Reply::Stopping) => Err(Refusal::Agent(Code::Cancelled)),
        Ok(Reply::Late) => Err(Refusal::Agent(Code::Timeout)),
        Ok(_) => unreachable!(),
        Err(Refused { step }) => Err(without_memory(step)),
    }
}

/// How a request is refused whose step found no memory. The step has no ticket.
pub fn without_memory(step: Step) -> Refusal
    requires { closes (asked_step step) ≡ None }
    ensures { result ≡ Refusal.Agent Code.NoMemory }
{
    match step.into_ticket() {
        None => Refusal::Agent(Code::NoMemory),
        Some(_) => unreachable!(),
    }
}

/// Gives a ticket back at a desk, with the passphrase that is kept. What that is replied decides
/// nothing.
pub fn give_back<D: Desk>(ticket: Ticket, keep: Option<Secret>, desk: &mut D)
    requires out { (D.at desk.old).out ≡ Some ticket }
    ensures turned { (turn : Turn) × D.turned desk.old (Close ticket keep) turn desk.new
        × FitsStep (Close ticket keep) turn }
    ensures free { (D.at desk.new).out ≡ None }
{
    match desk.turn(Step::Close { ticket, keep }) {
        Ok(Reply::Done | Reply::Stopping) => {}
        Ok(_) | Err(_) => unreachable!(),
    }
}

/// Takes the seat for a prompt of a request, which holds its ticket then. The passphrase is cached
/// so where the prompt is one for a passphrase.
pub fn hold_seat<D: Desk>(
    under: Option<Under>,
    held: &mut Held,
    desk: &mut D,
) -> Result<(), Refusal>
    requires none { held.old ≡ None }
    requires out { (D.at desk.old).out ≡ held.old }
    ensures taken { TakesTicket D.turned (Seat under None) desk.old result held.new desk.new }
    ensures out { (D.at desk.new).out ≡ held.new }
    ensures seated { IsOk result → IsSome held.new }
{
    let ticket = take_seat(under, desk)?;
    held.put(ticket);
    Ok(())
}

/// The same by the pinentry-mode, which may refuse the request.
pub fn seat_by_mode<D: Desk>(mode: PinMode, held: &mut Held, desk: &mut D) -> Result<(), Refusal>
    requires none { held.old ≡ None }
    requires out { (D.at desk.old).out ≡ held.old }
    ensures seats { SeatsIn D.turned desk.old mode result held.new desk.new }
    ensures out { (D.at desk.new).out ≡ held.new }
    ensures seated { IsOk result → IsSome held.new }
{
    match mode {
        PinMode::Ask => hold_seat(None, held, desk),
        PinMode::Cancel => Err(Refusal::Agent(Code::Cancelled)),
        PinMode::Error | PinMode::Loopback => Err(Refusal::Agent(Code::NoPinentry)),
    }
}

/// Gives the ticket of a request back, where it holds one, with the passphrase that is kept.
pub fn close<D: Desk>(keep: Option<Secret>, held: &mut Held, desk: &mut D)
    requires out { (D.at desk.old).out ≡ held.old }
    ensures given { GivesTicket D.turned keep held.old desk.old desk.new }
    ensures none { held.new ≡ None }
    ensures out { (D.at desk.new).out ≡ None }
{
    if let Some(ticket) = held.take() {
        give_back(ticket, keep, desk);
    }
}
