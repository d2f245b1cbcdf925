//! A live entry, with its last use and the modes that it still serves: the plain form, which
//! contracts see of any slot. Pure, on the slot alone. Begin with `Slot::serves_at`; each call is
//! its namesake in `specs/Shelves`.

ghost use Rattle.std.specs.Prelude.{◌≡◌};

use crate::Modes;
use cache_policy::{CacheId, Entry, Mode};

/// An entry that can still be given.
#[derive(Drop)]
pub struct Slot {
    /// The entry itself.
    pub entry: Entry,
    /// The moment at which it was last given, or else stored, in seconds.
    pub last: u64,
    /// The modes whose requests it serves: those that its own covers, without those that a later
    /// entry of its id took.
    pub modes: Modes,
}

impl Slot {
    ghost use Rattle.cache_policy.specs.Entry.{within};
    ghost use Rattle.cache_book.specs.Shelves.{serves_at, touch_slot, hide, new_slot};

    /// The slot of a new entry, which serves all that its mode covers.
    pub fn of(entry: Entry) -> Slot
        ensures { result ≡ new_slot entry }
    {
        let last = entry.entered;
        let modes = Modes::covered_by(entry.mode);
        Slot { entry, last, modes }
    }

    /// Whether it is within both lifetimes at `now`, in seconds.
    pub fn is_within(&self, now: u64) -> bool
        ensures { result ≡ within self.now.entry self.now.last now }
    {
        self.entry.within(self.last, now)
    }

    /// Whether a request for `id` in `mode` is given it at `now`, in seconds.
    pub fn serves_at(&self, id: &CacheId, mode: Mode, now: u64) -> bool
        ensures { result ≡ serves_at id.now mode now self.now }
    {
        self.modes.holds(mode) && self.is_within(now) && self.entry.id == *id
    }

    /// Its ttl starts again where it is the entry with this number.
    pub fn touch(&mut self, number: u64, now: u64)
        ensures { self.new ≡ touch_slot number now self.old }
    {
        if number == self.entry.number {
            self.last = self.last.max(now);
        }
    }

    /// Loses the modes that a later entry takes.
    pub fn hide(&mut self, later: &Entry)
        ensures { self.new ≡ hide later.now self.old }
    {
        if later.id == self.entry.id {
            self.modes = self.modes.not_covered(later.mode);
        }
    }
}
