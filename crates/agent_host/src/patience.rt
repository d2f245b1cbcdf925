//! How long the answer of a child is awaited, by what it was asked: its own timeout and a minute
//! more where a user answers (pinentry manual, "protocol", SETTIMEOUT). It reads the system's
//! clock. Begin with `Patience`.

use std::rt::Clock;
use std::str;
use std::time::{Duration, Instant};

/// How many seconds a child has for an answer that wants no user, and beyond its timeout for one
/// that does.
const GRACE_SECS: u64 = 60;

/// Until when a child's next answer is awaited. A pinentry is to keep its timeout itself (pinentry
/// manual, "protocol": SETTIMEOUT): one that is stopped, or whose terminal is gone, doesn't. Where
/// it was told none its user has all the time in the world.
#[derive(Drop)]
pub(crate) struct Patience {
    timeout: Option<u64>,
    until: Option<Instant>,
}

/// Whom the answer to a line waits for.
#[derive(Clone, Copy, Debug, PartialEq, Eq)]
enum Awaited {
    User,
    Child,
    /// It is no command, but what the child asked for meanwhile.
    AsBefore,
}

impl Patience {
    /// That of a child that was started now, whose greeting is awaited.
    pub(crate) fn new(rt: &impl Clock) -> Self {
        Patience {
            timeout: None,
            until: in_seconds(rt, GRACE_SECS),
        }
    }

    /// That of a child whose answer is awaited so long.
    #[cfg(test)]
    pub(crate) fn for_millis(rt: &impl Clock, millis: u64) -> Self {
        let until = match Instant::now(rt) {
            Ok(now) => now.checked_add(Duration::from_millis(millis)),
            Err(_) => None,
        };
        Patience {
            timeout: None,
            until,
        }
    }

    /// The child is written this line.
    pub(crate) fn put(&mut self, rt: &impl Clock, line: &[u8]) {
        if let Some(seconds) = told_timeout(line) {
            self.timeout = Some(seconds);
        }
        match whom_for(line) {
            Awaited::User => {
                self.until = match self.timeout {
                    Some(seconds) => in_seconds(rt, seconds.saturating_add(GRACE_SECS)),
                    None => None,
                };
            }
            Awaited::Child => self.until = in_seconds(rt, GRACE_SECS),
            Awaited::AsBefore => {}
        }
    }

    /// How long the answer is still awaited; none is without end.
    pub(crate) fn left(&self, rt: &impl Clock) -> Option<Duration> {
        let until = self.until?;
        Some(until.duration_since(Instant::now(rt).ok()?))
    }
}

/// The moment so many seconds from now. There is none without a clock, and behind its end.
fn in_seconds(rt: &impl Clock, seconds: u64) -> Option<Instant> {
    Instant::now(rt)
        .ok()?
        .checked_add(Duration::from_secs(seconds))
}

/// The seconds in a line that tells a timeout.
fn told_timeout(line: &[u8]) -> Option<u64> {
    let rest = line.strip_prefix(b"SETTIMEOUT ")?;
    let digits = rest.strip_suffix(b"\n").unwrap_or(rest);
    str::from_utf8(digits).ok()?.parse::<u64>().ok()
}

/// Whom the answer to this line of the agent's waits for.
fn whom_for(line: &[u8]) -> Awaited {
    if line.starts_with(b"GETPIN") || line.starts_with(b"CONFIRM") {
        return Awaited::User;
    }
    if line.starts_with(b"D ") || line.starts_with(b"END") || line.starts_with(b"CAN") {
        return Awaited::AsBefore;
    }
    Awaited::Child
}

#[cfg(test)]
mod tests {
    use super::*;
    use std::cell::Cell;
    use std::io;

    /// A clock that reads the seconds that it is set to.
    #[derive(Drop)]
    struct SetClock(Cell<u64>);

    impl Clock for SetClock {
        fn monotonic(&self) -> io::Result<Duration> {
            Ok(Duration::from_secs(self.0.get()))
        }

        fn since_1970(&self) -> io::Result<Duration> {
            Ok(Duration::from_secs(0))
        }
    }

    #[test]
    fn an_answer_is_awaited_a_minute_behind_the_timeout(rt: HostRuntime) {
        // The moment, the line that is put then, and how many seconds are left.
        let with_timeout = [
            (1000, b"OPTION lc-ctype=C\n".as_slice(), Some(60)),
            (1010, b"SETTIMEOUT 300\n", Some(60)),
            (1020, b"SETDESC GETPIN\n", Some(60)),
            (1030, b"GETPIN\n", Some(360)),
            (1130, b"D 50\n", Some(260)),
            (1140, b"END\n", Some(250)),
            (1390, b"CAN\n", Some(0)),
            (9999, b"END\n", Some(0)),
            (1400, b"SETERROR Try again\n", Some(60)),
            (1401, b"CONFIRM\n", Some(360)),
            (1402, b"BYE\n", Some(60)),
        ];
        let without = [
            (1000, b"SETDESC SETTIMEOUT 5\n".as_slice(), Some(60)),
            (1000, b"GETPIN\n", None),
            (9999, b"END\n", None),
            (9999, b"SETERROR Try again\n", Some(60)),
            (9999, b"CONFIRM\n", None),
        ];
        let greatest = [
            (1000, b"SETTIMEOUT 2147483647\n".as_slice(), Some(60)),
            (1000, b"GETPIN\n", Some(2_147_483_707)),
        ];
        for rows in [
            with_timeout.as_slice(),
            without.as_slice(),
            greatest.as_slice(),
        ] {
            let clock = SetClock(Cell::new(940));
            let mut patience = Patience::new(&clock);
            assert_eq!(rt; patience.left(&clock), Some(Duration::from_secs(60)));
            for (now, line, wanted) in rows {
                clock.0.set(*now);
                patience.put(&clock, line);
                let left = patience.left(&clock);
                assert_eq!(rt; left.map(|left| left.as_secs()), *wanted);
            }
        }
    }
}
