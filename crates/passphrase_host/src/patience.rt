//! How long an agent is waited for, by what is asked of it and by `--timeout`. It reads the
//! system's clock. Begin with `Limits` and `Deadline`.

use std::rt::Clock;
use std::time::{Duration, Instant};

/// How many seconds an agent has for an answer, and for one that a user may have to give first: the
/// minute that a request waits for another prompt, and two prompts of the five minutes that the
/// stand-in gives each.
const ANSWER_SECS: u32 = 20;

const PROMPT_SECS: u32 = 660;

/// How long an agent has for an answer, in seconds.
#[derive(Clone, Copy)]
pub(crate) struct Limits {
    pub(crate) answer: u32,
    pub(crate) prompt: u32,
}

impl Limits {
    /// Those that the user said, or else the usual ones.
    pub(crate) fn new(seconds: Option<u32>) -> Self {
        Limits {
            answer: seconds.unwrap_or(ANSWER_SECS),
            prompt: seconds.unwrap_or(PROMPT_SECS),
        }
    }
}

/// Until when an agent is waited for. Without a clock that is without end.
#[derive(Clone, Copy)]
pub(crate) struct Deadline {
    until: Option<Instant>,
}

impl Deadline {
    /// So many seconds from now.
    pub(crate) fn in_seconds(rt: &impl Clock, seconds: u32) -> Self {
        let until = match Instant::now(rt) {
            Ok(now) => now.checked_add(Duration::from_secs(u64::from(seconds))),
            Err(_) => None,
        };
        Deadline { until }
    }

    /// How long there is still time; none is without end.
    pub(crate) fn left(&self, rt: &impl Clock) -> Option<Duration> {
        let until = self.until?;
        Some(until.duration_since(Instant::now(rt).ok()?))
    }
}
