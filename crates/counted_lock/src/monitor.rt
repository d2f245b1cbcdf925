//! A plain monitor before the numbers: a mutex, and where threads wait for the seat (the lock on
//! the prompt). It touches nothing of the run, and no clause speaks of it; begin with `enter`.

use std::hint;
use std::sync::{Condvar, Mutex, MutexGuard, Wait};
use std::time::{Clock, Duration};

/// How often a thread looks at the lock before it sleeps there, which takes longer than a few turns
/// do.
const LOOKS: u32 = 300;

/// How long a step stands at a time, in seconds. By then it may be late, though nobody took a turn.
const STANDS: u64 = 1;

/// Whoever is in it draws the next number, so that this number's turn is at once: the system's lock
/// decides who is next, and a thread that runs needn't wait for one that has no processor. It
/// decides nothing of the run.
#[derive(Drop)]
pub(crate) struct Monitor {
    lock: Mutex<()>,
    /// Where those wait whose step has to stand.
    standing: Condvar,
}

/// Who has it is in the monitor, until it is dropped.
pub(crate) type Entered<'a> = MutexGuard<'a, ()>;

impl Monitor {
    pub(crate) fn new() -> Monitor {
        Monitor {
            lock: Mutex::new(()),
            standing: Condvar::new(),
        }
    }

    /// Waits until nobody else is in it.
    pub(crate) fn enter<W: Wait>(&self, rt: &W) -> Entered<'_> {
        for _ in 0..LOOKS {
            if let Some(entered) = self.lock.try_lock() {
                return entered;
            }
            hint::spin_loop();
        }
        self.lock.lock(rt)
    }

    /// Leaves it to others until one of them wakes all, or for a second.
    pub(crate) fn wait<'a, W: Wait + Clock>(&self, rt: &W, entered: Entered<'a>) -> Entered<'a> {
        let second = Duration::from_secs(STANDS);
        self.standing.wait_timeout(rt, entered, second).0
    }

    /// Has those that wait try again.
    pub(crate) fn wake(&self) {
        self.standing.notify_all();
    }
}
