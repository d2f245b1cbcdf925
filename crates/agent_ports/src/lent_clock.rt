//! A clock that was lent, as an owner of parts lends it to a desk (cache handle) for a session. It
//! passes each reading on, and holds the only borrow of the clock. Begin with
//! `LentClock::into_clock`, by which the lender's contract learns what was read; `specs/Lent` has
//! the model.

use crate::Clock;
use std::marker::Model;

/// A clock that passes its calls on to the clock that it was lent. Contracts see that clock, and
/// which one it is.
#[derive(Drop)]
pub struct LentClock<'a, C: Clock> {
    clock: &'a mut C,
}

impl<'a, C: Clock> Model for LentClock<'a, C> {
    ghost use Rattle.agent_ports.specs.Lent.{Lent};

    ghost Value = { Lent C };

    ghost view = { λ lent. record { clock = lent.clock.now; name = lent.clock.ghost_name } };
}

impl<'a, C: Clock> LentClock<'a, C> {
    ghost use Rattle.std.specs.Prelude.{◌≡◌};

    /// A clock that passes its calls on to this one.
    pub fn new(clock: &'a mut C) -> Self
        ensures clock { result.clock ≡ clock.old }
        ensures name { result.name ≡ clock.entry.ghost_name }
    {
        LentClock { clock }
    }

    /// Gives the clock back. A caller whose own contract speaks of it ends with this call: what was
    /// read is then known of it.
    pub fn into_clock(self) -> &'a mut C
        ensures clock { result.now ≡ self.entry.clock }
        ensures name { result.ghost_name ≡ self.entry.name }
    {
        let LentClock { clock } = self;
        clock
    }
}

impl<'a, C: Clock> Clock for LentClock<'a, C> {
    ghost use Rattle.std.specs.Prelude.{◌≡◌};
    ghost use Rattle.agent_ports.specs.Readings.{IsRead};

    ghost readings = { λ lent. C.readings lent.clock };

    fn now(&mut self) -> u64
        ensures read { IsRead (C.readings self.old.clock) result (C.readings self.new.clock) }
        ensures name { self.new.name ≡ self.old.name }
    {
        self.clock.now()
    }
}
