//! Turns at a desk (cache handle) that ask the cache or change it. One that is interrupted refuses
//! its request (`specs/Interrupts`). Begin with `change`; the actions of requests over these are
//! `Changes` and `Asks` (`specs/Session/TurnActions`).

ghost use Rattle.std.specs.Prelude.{◌≡◌, true, false, None};
ghost use Rattle.agent_ask.specs.Seats.{AsksCache, ChangesCache, IsChange};
ghost use Rattle.cache_policy.specs.declared.mark.MarkStep.TheVariants.{Ask};
ghost use Rattle.cache_policy.specs.Turns.{asked_step, opens, wait_of};

use crate::seat::held::Held;
use crate::seat::without_memory;
use cache_policy::{CacheId, Desk, Mode, Refused, Reply, Secret, Step, Way};
use session_client::{Code, Refusal};

/// Takes a turn that changes the cache.
pub fn change<D: Desk>(step: Step, desk: &mut D) -> Result<(), Refusal>
    requires changes { IsChange (asked_step step) }
    requires first { wait_of step ≡ None }
    ensures turn { ChangesCache D.turned (asked_step step) desk.old result desk.new }
    ensures out { (D.at desk.new).out ≡ (D.at desk.old).out }
{
    match desk.turn(step) {
        Ok(Reply::Done) => Ok(()),
        Ok(Reply::Stopping) => Err(Refusal::Agent(Code::Cancelled)),
        Ok(_) => unreachable!(),
        Err(Refused { step }) => Err(without_memory(step)),
    }
}

/// Asks for what is cached. Where that is wanted, it may open a prompt, whose ticket is held then.
pub fn ask_cache<D: Desk>(
    id: CacheId,
    mode: Mode,
    way: Way,
    held: &mut Held,
    desk: &mut D,
) -> Result<Option<Secret>, Refusal>
    requires out { (D.at desk.old).out ≡ held.old }
    requires free { opens (Ask id mode way None) ≡ true → held.old ≡ None }
    ensures turn { AsksCache D.turned
        (Ask id mode way None) held.old desk.old result held.new desk.new }
    ensures quiet { opens (Ask id mode way None) ≡ false → held.new ≡ held.old }
    ensures out { (D.at desk.new).out ≡ held.new }
{
    match desk.turn(Step::Ask {
        id,
        mode,
        way,
        wait: None,
    }) {
        Ok(Reply::Given(grant)) => Ok(Some(grant.secret().copy())),
        Ok(Reply::Empty) => Ok(None),
        Ok(Reply::Open(ticket)) => {
            held.put(ticket);
            Ok(None)
        }
        Ok(Reply::Stopping) => Err(Refusal::Agent(Code::Cancelled)),
        Ok(Reply::Late) => Err(Refusal::Agent(Code::Timeout)),
        Ok(_) => unreachable!(),
        Err(Refused { step }) => Err(without_memory(step)),
    }
}
