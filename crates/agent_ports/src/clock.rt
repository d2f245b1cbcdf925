//! The port of the time of day, in the seconds in which the cache counts lifetimes. A reading
//! touches the clock alone. `IsRead` of `specs/Readings` says what one gives; `mem::clock` has the
//! clocks of tests, `agent_host` the machine's.

ghost use Rattle.agent_ports.specs.Readings.{Readings, IsRead};

/// The time of day in seconds.
pub trait Clock {
    /// How many readings it gave, the last of them, and those to come where they are known.
    ghost readings: { Self → Readings };

    /// Reads the clock, which never fails.
    fn now(&mut self) -> u64
        ensures { IsRead (readings self.old) result (readings self.new) };
}
