//! The lines of the agent's own on the error stream: with their time where that is the log of the
//! users' agent, and then not too many of them. It writes to the error stream. Begin with `say`;
//! tests show which lines are left out.

use jiff::Timestamp;
use std::fmt;
use std::fmt::{Display, Formatter};
use std::rt::Clock;
use std::sync::atomic::{AtomicU64, Ordering};
use std::time::{SystemTime, UNIX_EPOCH};

/// How many lines an hour a log takes at most, so that no client fills a disk.
const MAX_LINES: u64 = 100;

const HOUR_SECONDS: u64 = 3600;

/// How many lines all threads have written into the log of the users' agent.
#[derive(Drop)]
pub struct Log {
    /// The hour since 1970 of the last line.
    hour: AtomicU64,
    /// How many lines there were, and how many of them before this hour.
    lines: AtomicU64,
    before: AtomicU64,
    left_out: AtomicU64,
}

impl Log {
    /// A log without a line.
    pub fn new() -> Self {
        Log {
            hour: AtomicU64::new(0),
            lines: AtomicU64::new(0),
            before: AtomicU64::new(0),
            left_out: AtomicU64::new(0),
        }
    }

    /// Whether one more line is written in this hour, and how many were left out since the last
    /// one that was.
    fn admits(&self, hour: u64) -> Option<u64> {
        let last = self.hour.load(Ordering::SeqCst);
        if hour != last && self.is_first_in(hour, last) {
            let lines = self.lines.load(Ordering::SeqCst);
            self.before.store(lines, Ordering::SeqCst);
        }
        let number = self.lines.fetch_add(1, Ordering::SeqCst);
        if number.saturating_sub(self.before.load(Ordering::SeqCst)) < MAX_LINES {
            return Some(self.left_out.swap(0, Ordering::SeqCst));
        }
        self.left_out.fetch_add(1, Ordering::SeqCst);
        None
    }

    /// Whether this thread is the one that begins the hour.
    fn is_first_in(&self, hour: u64, last: u64) -> bool {
        self.hour
            .compare_exchange(last, hour, Ordering::SeqCst, Ordering::SeqCst)
            .is_ok()
    }
}

/// The time of day as it stands before a line, in UTC, which is the same for all that write into a
/// log (RFC 3339). Nothing where the system doesn't say it.
#[derive(Clone, Copy)]
pub struct Stamp(Option<u64>);

impl Stamp {
    /// The time that it is now, to the second.
    pub fn now(rt: &impl Clock) -> Self {
        Stamp(seconds(rt))
    }
}

impl Display for Stamp {
    fn fmt<W: fmt::Write>(&self, f: &mut Formatter<W>) -> fmt::Result {
        let Some(seconds) = self.0.and_then(|seconds| i64::try_from(seconds).ok()) else {
            return Ok(());
        };
        match Timestamp::from_second(seconds) {
            Ok(time) => write!(f, "{time} "),
            Err(_) => Ok(()),
        }
    }
}

/// The seconds since 1970.
fn seconds(rt: &impl Clock) -> Option<u64> {
    let now = SystemTime::now(rt).ok()?;
    Some(now.duration_since(UNIX_EPOCH).ok()?.as_secs())
}

/// Writes a line of the agent's own. Where that can't be written nobody is to be told.
pub(crate) fn say<R: Clock + Eprint, T: Display>(rt: &R, log: Option<&Log>, words: &T) {
    let Some(log) = log else {
        let _ = eprintln!(rt; "agent: {words}");
        return;
    };
    let stamp = Stamp::now(rt);
    let hour = stamp.0.unwrap_or(0) / HOUR_SECONDS;
    let Some(left_out) = log.admits(hour) else {
        return;
    };
    if left_out > 0 {
        let _ = eprintln!(rt; "{stamp}agent: {left_out} lines were left out");
    }
    let _ = eprintln!(rt; "{stamp}agent: {words}");
}

#[cfg(test)]
mod tests {
    use super::*;
    use std::test::Fail;

    #[test]
    fn lines_above_a_hundred_an_hour_are_counted(rt: HostRuntime) {
        let log = Log::new();
        for (hour, lines, written, left_out) in [
            (1u64, 3u32, 3u32, 0u64),
            (2, 150, 100, 0),
            (2, 5, 0, 0),
            (3, 1, 1, 55),
            (3, 99, 99, 0),
            (3, 2, 0, 0),
            // A clock that is set back begins an hour too.
            (1, 1, 1, 2),
        ] {
            let mut admitted = 0u32;
            let mut told = 0u64;
            for _ in 0..lines {
                if let Some(count) = log.admits(hour) {
                    admitted = admitted.saturating_add(1);
                    told = told.saturating_add(count);
                }
            }
            assert_eq!(rt; (hour, admitted, told), (hour, written, left_out));
        }
    }

    #[test]
    fn a_time_is_written_in_utc(rt: HostRuntime) -> Result<(), Fail> {
        // By `date -u -d @SECONDS +%Y-%m-%dT%H:%M:%SZ`.
        for (seconds, wanted) in [
            (Some(0), "1970-01-01T00:00:00Z "),
            (Some(1_796_203_226), "2026-12-02T09:20:26Z "),
            (Some(951_782_400), "2000-02-29T00:00:00Z "),
            (None, ""),
            (Some(u64::MAX), ""),
        ] {
            let stamp = format!(in rt.alloc(); "{}", Stamp(seconds))?;
            assert_eq!(rt; stamp.as_str(), wanted);
        }
        Ok(())
    }
}
