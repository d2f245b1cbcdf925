//! The system's time in seconds, which goes on where the time of day is set back. It reads the time
//! of day and the clock that nobody sets, and counts its readings. Begin with `SystemClock`; the
//! promise is that of `Clock` (`agent_ports`), and its tests show the rest.

ghost use Rattle.std.specs.Prelude.{None};

use agent_ports::Clock;
use std::rt;
use std::time::{Instant, SystemTime, UNIX_EPOCH};

/// When a host was made, by the time of day and by the clock that nobody sets. It is nothing where
/// the system gave one of them not.
#[derive(Clone, Copy)]
pub(crate) struct Start {
    readings: Option<(SystemTime, Instant)>,
}

impl Start {
    /// Reads both clocks.
    pub(crate) fn now(rt: &impl rt::Clock) -> Self {
        Start {
            readings: SystemTime::now(rt).ok().zip(Instant::now(rt).ok()),
        }
    }

    /// The first time of day, and what has passed since.
    fn gone_on(&self, rt: &impl rt::Clock) -> Option<SystemTime> {
        let (day, instant) = self.readings?;
        day.checked_add(instant.elapsed(rt).ok()?)
    }
}

/// The time of day in seconds since 1970 (POSIX, "Seconds Since the Epoch"), which goes on though
/// the system's is set back: what has passed since the host was made counts at the least, but for
/// the time that the machine slept. None of its later readings are known. Where the system gives no
/// time, the last reading stands, which is 0 before the first.
#[derive(Drop)]
pub struct SystemClock<'a, R> {
    rt: &'a R,
    start: Start,
    readings: u64,
    last: u64,
}

impl<'a, R: rt::Clock> SystemClock<'a, R> {
    /// A clock that wasn't read yet, of a host that was made then.
    pub(crate) fn new(rt: &'a R, start: Start) -> Self {
        SystemClock {
            rt,
            start,
            readings: 0,
            last: 0,
        }
    }
}

impl<R: rt::Clock> Clock for SystemClock<'_, R> {
    ghost readings = { λ c. record { later = λ _. None; count = c.readings; last = c.last } };

    fn now(&mut self) -> u64 {
        self.readings = self.readings.saturating_add(1);
        // A time that isn't there is less than any other.
        let now = SystemTime::now(self.rt)
            .ok()
            .max(self.start.gone_on(self.rt));
        if let Some(Ok(since)) = now.map(|now| now.duration_since(UNIX_EPOCH)) {
            self.last = since.as_secs();
        }
        self.last
    }
}

#[cfg(test)]
mod tests {
    use super::*;
    use std::cell::Cell;
    use std::io;
    use std::io::ErrorKind;
    use std::time::Duration;

    /// Two clocks that read what they are set to, in milliseconds. One that isn't set gives no time.
    #[derive(Drop)]
    struct TwoClocks {
        day: Cell<Option<u64>>,
        instant: Cell<Option<u64>>,
    }

    fn reading(clock: &Cell<Option<u64>>) -> io::Result<Duration> {
        match clock.get() {
            Some(millis) => Ok(Duration::from_millis(millis)),
            None => Err(ErrorKind::Unsupported.into()),
        }
    }

    impl rt::Clock for TwoClocks {
        fn monotonic(&self) -> io::Result<Duration> {
            reading(&self.instant)
        }

        fn since_1970(&self) -> io::Result<Duration> {
            reading(&self.day)
        }
    }

    #[test]
    fn time_goes_on_though_the_clock_is_set_back(rt: HostRuntime) {
        // What both clocks read where the host is made, then each time, and the seconds that the
        // host's clock then gives.
        let rows = [
            // Both go on.
            (
                (Some(1_000_000), Some(5_000)),
                [
                    (Some(1_000_000), Some(5_000), 1000),
                    (Some(1_007_000), Some(12_000), 1007),
                ],
            ),
            // The day's is set back by an hour, at once and behind ten seconds.
            (
                (Some(9_000_000), Some(5_000)),
                [
                    (Some(5_400_000), Some(5_000), 9000),
                    (Some(5_460_000), Some(65_000), 9060),
                ],
            ),
            (
                (Some(9_000_000), Some(5_000)),
                [
                    (Some(9_010_000), Some(15_000), 9010),
                    (Some(5_420_000), Some(25_000), 9020),
                ],
            ),
            // It is set forward, or the machine has slept: that counts.
            (
                (Some(1_000_000), Some(5_000)),
                [
                    (Some(4_600_000), Some(5_000), 4600),
                    (Some(4_610_000), Some(15_000), 4610),
                ],
            ),
            // It is set forward, and back again.
            (
                (Some(1_000_000), Some(5_000)),
                [
                    (Some(4_600_000), Some(6_000), 4600),
                    (Some(1_010_000), Some(15_000), 1010),
                ],
            ),
            // Parts of seconds add up.
            (
                (Some(1_000_600), Some(5_000)),
                [(Some(0), Some(5_399), 1000), (Some(0), Some(5_400), 1001)],
            ),
            // One of them gives no time, then or later.
            (
                (Some(1_000_000), None),
                [(Some(400_000), Some(5_000), 400), (None, Some(6_000), 400)],
            ),
            (
                (None, Some(5_000)),
                [
                    (Some(400_000), Some(5_000), 400),
                    (Some(300_000), None, 300),
                ],
            ),
            (
                (Some(1_000_000), Some(5_000)),
                [(None, Some(6_000), 1001), (Some(400_000), None, 400)],
            ),
            ((None, None), [(None, None, 0), (Some(400_000), None, 400)]),
        ];
        for ((day, instant), readings) in rows {
            let clocks = TwoClocks {
                day: Cell::new(day),
                instant: Cell::new(instant),
            };
            let mut clock = SystemClock::new(&clocks, Start::now(&clocks));
            for (day, instant, wanted) in readings {
                clocks.day.set(day);
                clocks.instant.set(instant);
                assert_eq!(rt; clock.now(), wanted);
            }
        }
    }

    #[test]
    fn the_clock_gives_seconds_since_1970(rt: HostRuntime) {
        let mut clock = SystemClock::new(&rt, Start::now(&rt));
        let first = clock.now();
        // From September 2001 to the year 2286, as the number of digits says.
        assert!(rt; first >= 1_000_000_000 && first < 10_000_000_000);
        // Within a minute it moves on.
        let mut later = first;
        for _ in 0..1_000_000_000u32 {
            later = clock.now();
            if later != first {
                break;
            }
        }
        assert!(rt; later > first && later - first < 60);
    }
}
