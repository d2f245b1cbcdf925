//! Lifetimes: what a client asks for an entry, and the limits that the agent was started with
//! (GnuPG manual, `default-cache-ttl` and `max-cache-ttl`). Pure. Begin with `Limits::ttl_of`, and
//! with its namesake in `specs/Lifetimes`.

ghost use Rattle.std.specs.Prelude.{◌≡◌};

use crate::Mode;

/// The longest lifetime that can be asked for, in seconds.
pub const MAX_SECONDS: u32 = 2_147_483_647;

/// How long a passphrase that is put into the cache may go unused.
#[derive(Clone, Copy, Debug, PartialEq, Eq, Hash)]
pub enum Life {
    /// The limits' number for the mode.
    Default,
    /// As long as its maximum age allows.
    Endless,
    /// So many seconds. 0 stores nothing.
    Seconds(u32),
}

/// The agent's lifetimes, in seconds. A ttl starts again at each use, a maximum age never.
#[derive(Clone, Copy, PartialEq, Eq, Hash)]
pub struct Limits {
    /// `default-cache-ttl`.
    pub ttl: u32,
    /// `max-cache-ttl`.
    pub max: u32,
    /// `default-cache-ttl-ssh`.
    pub ttl_ssh: u32,
    /// `max-cache-ttl-ssh`.
    pub max_ssh: u32,
}

impl Limits {
    ghost use Rattle.cache_policy.specs.Lifetimes.{ttl_of, max_of};

    /// The seconds that an entry may go unused, `None` where it has no such limit.
    pub fn ttl_of(&self, mode: Mode, life: Life) -> Option<u32>
        ensures { result ≡ ttl_of self.now mode life }
    {
        match life {
            Life::Default if mode == Mode::Ssh => Some(self.ttl_ssh),
            Life::Default => Some(self.ttl),
            Life::Endless => None,
            Life::Seconds(seconds) => Some(seconds),
        }
    }

    /// The maximum age of an entry, in seconds.
    pub fn max_of(&self, mode: Mode) -> u32
        ensures { result ≡ max_of self.now mode }
    {
        match mode {
            Mode::Ssh => self.max_ssh,
            _ => self.max,
        }
    }
}
