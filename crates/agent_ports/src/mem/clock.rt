//! Clocks for tests, whose readings are all known beforehand: those of a list, or ones that rise
//! step by step. A reading changes their own fields alone. Begin with `ListClock::new`;
//! `specs/Readings` has the definitions.

ghost use Rattle.std.specs.Prelude.{◌≡◌, ◌+◌, ◌*◌, ◌-◌, ◌^◌, ◌≤◌, min, ℕ, Some, slice_index};
ghost use Rattle.agent_ports.specs.Readings.{reading_at};

use crate::Clock;

/// A clock that gives the readings of a list, the last of them again and again, and 0 where there
/// is none.
#[derive(Drop)]
pub struct ListClock {
    readings: Vec<u64>,
    given: u64,
    last: u64,
}

impl ListClock {
    /// A clock that gives these readings, in seconds.
    pub fn new(readings: Vec<u64>) -> Self
        ensures later { (k : ℕ) → (⟦<ListClock as Clock>⟧.readings result).later k
            ≡ Some (reading_at readings.items k) }
        ensures none { (⟦<ListClock as Clock>⟧.readings result).count ≡ 0 }
    {
        ListClock {
            readings,
            given: 0,
            last: 0,
        }
    }
}

impl Clock for ListClock {
    ghost readings = { λ c. record {
      later = λ k. Some (reading_at c.readings.items (c.given + k));
      count = c.given;
      last = c.last;
    } };

    fn now(&mut self) -> u64 {
        let place = usize::try_from(self.given).unwrap_or(usize::MAX);
        let reading = self
            .readings
            .get(place)
            .or(self.readings.last())
            .copied()
            .unwrap_or(0);
        self.given = self.given.saturating_add(1);
        self.last = reading;
        reading
    }
}

/// A clock whose readings rise by one step each, up to the greatest number.
#[derive(Clone, Copy, PartialEq, Eq)]
pub struct StepClock {
    next: u64,
    step: u64,
    given: u64,
    last: u64,
}

impl StepClock {
    /// A clock whose first reading and whose step are these, in seconds.
    pub fn new(first: u64, step: u64) -> Self
        ensures later { (k : ℕ) → (⟦<StepClock as Clock>⟧.readings result).later k
            ≡ Some (min (first + k * step) (2 ^ 64 - 1)) }
        ensures none { (⟦<StepClock as Clock>⟧.readings result).count ≡ 0 }
    {
        StepClock {
            next: first,
            step,
            given: 0,
            last: 0,
        }
    }
}

impl Clock for StepClock {
    ghost readings = { λ c. record {
      later = λ k. Some (min (c.next + k * c.step) (2 ^ 64 - 1));
      count = c.given;
      last = c.last;
    } };

    fn now(&mut self) -> u64 {
        let reading = self.next;
        self.next = reading.saturating_add(self.step);
        self.given = self.given.saturating_add(1);
        self.last = reading;
        reading
    }
}
