//! A slot as it lies in memory, in 120 bytes, of which a request mostly reads two cache lines. It
//! works on itself alone. Begin with `serves_at`; contracts see a `Slot`, and each call is its
//! namesake in `specs/Shelves` or `specs/Deadlines`.

ghost use Rattle.std.specs.Prelude.{◌≡◌, []};

use crate::Modes;
use crate::packed::Packed;
use crate::passphrase::Passphrase;
use cache_policy::{CacheId, Entry, MAX_ID_LEN, Mode, Secret};
use std::marker::Model;

/// A slot in little memory: a request over many slots mostly reads two cache lines of it.
///
/// The compiler keeps the fields in this order today: those of 8 bytes first, and what a request
/// reads in part last.
#[derive(Drop)]
pub(crate) struct PackedSlot {
    number: u64,
    entered: u64,
    last: u64,
    passphrase: Passphrase,
    ttl: Option<u32>,
    max: u32,
    mode: Mode,
    modes: Modes,
    id: Packed<MAX_ID_LEN>,
}

// With the 8 bytes that an allocator puts before it, as glibc's does, it takes 128.
const _: () = prove!(size_of::<PackedSlot>() == 120);

impl Model for PackedSlot {
    ghost use Rattle.std.specs.Prelude.{◌<◌, length};
    ghost use Rattle.cache_book.specs.{declared.slot.Slot.Slot, Passphrases.bytes_of};

    ghost Value = { Slot };

    ghost view = { λ slot. record {
      entry = record {
        number = slot.number;
        id = slot.id;
        mode = slot.mode;
        secret = bytes_of slot.passphrase;
        entered = slot.entered;
        ttl = slot.ttl;
        max = slot.max;
      };
      last = slot.last;
      modes = slot.modes;
    } };

    ghost invariant = { λ slot. 0 < length slot.id };
}

impl PackedSlot {
    ghost use Rattle.cache_policy.specs.Entry.{serves, within};
    ghost use Rattle.cache_book.specs.Shelves.{serves_at, touch_slot, hide, new_slot};
    ghost use Rattle.cache_book.specs.{SlotOrders.wiped, Modes.has_some, Deadlines.deadline};

    /// A slot of no entry, whose memory is filled later.
    pub(crate) fn blank() -> PackedSlot
        ensures { result.entry.secret ≡ [] }
    {
        let mut id = Packed::new();
        id.fill(b"-");
        PackedSlot {
            number: 0,
            entered: 0,
            last: 0,
            passphrase: Passphrase::new(),
            ttl: None,
            max: 0,
            mode: Mode::Any,
            modes: Modes::covered_by(Mode::Any),
            id,
        }
    }

    /// Becomes the slot of a new entry, whose passphrase takes `long` where it isn't short.
    pub(crate) fn fill(&mut self, entry: &Entry, long: Box<Secret>)
        requires none { self.old.entry.secret ≡ [] }
        requires bare { long.value ≡ [] }
        ensures { self.new ≡ new_slot entry.now }
    {
        self.number = entry.number;
        self.entered = entry.entered;
        self.last = entry.entered;
        self.passphrase.fill(&entry.secret, long);
        self.ttl = entry.ttl;
        self.max = entry.max;
        self.mode = entry.mode;
        self.modes = Modes::covered_by(entry.mode);
        self.id.fill(entry.id.bytes());
    }

    /// The number of its entry.
    pub(crate) fn number(&self) -> u64
        ensures { result ≡ self.now.entry.number }
    {
        self.number
    }

    /// The bytes of its entry's id.
    pub(crate) fn id(&self) -> &[u8]
        ensures { result.now ≡ self.now.entry.id }
    {
        self.id.bytes()
    }

    /// A copy of its entry.
    pub(crate) fn entry(&self) -> Entry
        ensures { result ≡ self.now.entry }
    {
        let Some(id) = CacheId::of(self.id.bytes()) else {
            unreachable!()
        };
        Entry {
            number: self.number,
            id,
            mode: self.mode,
            secret: self.passphrase.copy(),
            entered: self.entered,
            ttl: self.ttl,
            max: self.max,
        }
    }

    /// The moment at which it was last given, or else stored, in seconds.
    pub(crate) fn last(&self) -> u64
        ensures { result ≡ self.now.last }
    {
        self.last
    }

    /// The last moment at which it can be given, in seconds.
    pub(crate) fn deadline(&self) -> u64
        ensures { result ≡ deadline self.now }
    {
        // A moment that would pass the last u64 never comes.
        let oldest = self.entered.saturating_add(u64::from(self.max));
        match self.ttl {
            Some(ttl) => oldest.min(self.last.saturating_add(u64::from(ttl))),
            None => oldest,
        }
    }

    /// Whether it is within both lifetimes at `now`, in seconds.
    pub(crate) fn is_within(&self, now: u64) -> bool
        ensures { result ≡ within self.now.entry self.now.last now }
    {
        now <= self.deadline()
    }

    /// Whether a request for `id` in `mode` is given it at `now`, in seconds.
    pub(crate) fn serves_at(&self, id: &CacheId, mode: Mode, now: u64) -> bool
        ensures { result ≡ serves_at id.now mode now self.now }
    {
        // The id comes last: a processor fetches the memory of all three at once.
        self.modes.holds(mode) && self.is_within(now) && self.id() == id.bytes()
    }

    /// Whether a clear of `id` in `mode` drops it.
    pub(crate) fn is_cleared(&self, id: &CacheId, mode: Mode) -> bool
        ensures { result ≡ serves id.now mode self.now.entry }
    {
        self.id() == id.bytes() && self.mode.covers(mode)
    }

    /// Its ttl starts again where it is the entry with this number.
    pub(crate) fn touch(&mut self, number: u64, now: u64)
        ensures { self.new ≡ touch_slot number now self.old }
    {
        if number == self.number {
            self.last = self.last.max(now);
        }
    }

    /// Loses the modes that a later entry takes, and answers whether some are left.
    pub(crate) fn hide(&mut self, later: &Entry) -> bool
        ensures hidden { self.new ≡ hide later.now self.old }
        ensures serves { result ≡ has_some self.new.modes }
    {
        if later.id.bytes() == self.id.bytes() {
            self.modes = self.modes.not_covered(later.mode);
        }
        self.modes.has_some()
    }

    /// Overwrites the passphrase.
    pub(crate) fn wipe(&mut self)
        ensures { self.new ≡ wiped self.old }
    {
        self.passphrase.clear();
    }
}
