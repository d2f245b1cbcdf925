//! Turns at the desk (cache handle), as actions of a request: a key's passphrase is looked
//! at, kept or cleared, and the seat (lock: the right to prompt) taken. Nothing but the desk is
//! called. Begin with `keep_pass`; the actions are `TakesTurn` and `TakesTurns` (`specs/Steps`).

ghost use Rattle.std.specs.Prelude.{◌≡◌};
ghost use Rattle.assuan_escape.specs.Escapes.{hex_text};
ghost use Rattle.cache_policy.specs.declared.life.Life.TheVariants.{Default};
ghost use Rattle.cache_policy.specs.declared.mark.MarkStep.TheVariants.{Put, Clear};
ghost use Rattle.cache_policy.specs.declared.mode.Mode.TheVariants.{Normal, Nonce};
ghost use Rattle.cache_policy.specs.Turns.{asked_step, closes};
ghost use Rattle.agent_ask.specs.Session.TurnActions.{Changes, Peeks};
ghost use Rattle.key_commands.specs.{Passphrases.{TakesSeat, put_key}, Lines.grip_text};
ghost use Rattle.key_commands.specs.Steps.{TakesTurn, TakesTurns};

use crate::texts::{key_id, nonce_id};
use agent_ask::{Held, change, hold_seat, without_memory};
use agent_ports::Grip;
use assuan_server::Code;
use cache_policy::{Desk, Life, Mode, Refused, Reply, Secret, Step, Under};
use session_client::Refusal;

/// Takes the seat for a prompt whose passphrase is this key's, unless a ticket is held.
pub(crate) fn take_seat<D: Desk>(grip: &Grip, held: &mut Held, desk: &mut D) -> Result<(), Refusal>
    requires out { (D.at desk.old).out ≡ held.old }
    ensures turn { TakesTurns D.turned
        (TakesSeat grip.now) held.old desk.old result held.new desk.new }
    ensures out { (D.at desk.new).out ≡ held.new }
{
    if held.is_held() {
        return Ok(());
    }
    let under = Under {
        id: key_id(grip),
        mode: Mode::Normal,
    };
    hold_seat(Some(under), held, desk)
}

/// Keeps a key's passphrase in the cache.
pub(crate) fn keep_pass<D: Desk>(
    grip: &Grip,
    pass: &Secret,
    held: &Held,
    desk: &mut D,
) -> Result<(), Refusal>
    requires out { (D.at desk.old).out ≡ held.now }
    ensures turn { TakesTurn D.turned
        (Changes (put_key grip.now pass.now)) held.now desk.old result held.now desk.new }
    ensures out { (D.at desk.new).out ≡ held.now }
{
    let step = Step::Put {
        id: key_id(grip),
        mode: Mode::Normal,
        life: Life::Default,
        secret: pass.copy(),
    };
    change(step, desk)
}

/// Keeps a passphrase under a nonce.
pub(crate) fn keep_by_nonce<D: Desk>(
    nonce: &[u8; 12],
    pass: &Secret,
    held: &Held,
    desk: &mut D,
) -> Result<(), Refusal>
    requires out { (D.at desk.old).out ≡ held.now }
    ensures turn { TakesTurn D.turned (Changes (Put (hex_text nonce.now) Nonce Default pass.now))
        held.now desk.old result held.now desk.new }
    ensures out { (D.at desk.new).out ≡ held.now }
{
    let step = Step::Put {
        id: nonce_id(nonce),
        mode: Mode::Nonce,
        life: Life::Default,
        secret: pass.copy(),
    };
    change(step, desk)
}

/// Whether a key's passphrase is cached. It isn't used, and lives no longer by this.
pub(crate) fn peek<D: Desk>(grip: &Grip, held: &Held, desk: &mut D) -> Result<bool, Refusal>
    requires out { (D.at desk.old).out ≡ held.now }
    ensures turn { TakesTurn D.turned
        (Peeks (grip_text grip.now) Normal) held.now desk.old result held.now desk.new }
    ensures out { (D.at desk.new).out ≡ held.now }
{
    match desk.turn(Step::Peek {
        id: key_id(grip),
        mode: Mode::Normal,
    }) {
        Ok(Reply::Held(cached)) => Ok(cached),
        Ok(Reply::Stopping) => Err(Refusal::Agent(Code::Cancelled)),
        Ok(_) => unreachable!(),
        Err(Refused { step }) => Err(without_memory(step)),
    }
}

/// Removes a key's passphrase from the cache.
pub(crate) fn clear_pass<D: Desk>(grip: &Grip, held: &Held, desk: &mut D) -> Result<(), Refusal>
    requires out { (D.at desk.old).out ≡ held.now }
    ensures turn { TakesTurn D.turned
        (Changes (Clear (grip_text grip.now) Normal)) held.now desk.old result held.now desk.new }
    ensures out { (D.at desk.new).out ≡ held.now }
{
    let step = Step::Clear {
        id: key_id(grip),
        mode: Mode::Normal,
    };
    change(step, desk)
}
