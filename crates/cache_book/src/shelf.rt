//! The shelf of live entries, the trait on which the cache core stands. Memory is taken by
//! `reserve` alone, so that no later call can fail. Begin with `Shelf::find` and `Shelf::store`;
//! each call is said on the whole list of slots, by its namesake in `specs/Shelves`.

ghost use Rattle.std.specs.Prelude.{◌≡◌, ◌≤◌, ◌+◌, [], IfSome, IfNone, OnOk};
ghost use Rattle.cache_book.specs.Shelves.{AtShelf, IsGrantFrom, ServesNone, AreBelow, touched};
ghost use Rattle.cache_book.specs.Shelves.{with_entry, cleared, swept};

use cache_policy::{CacheId, Entry, Grant, Mode, NoMemory};

/// The entries that can still be given. Moments are in seconds.
///
/// An entry that leaves the shelf is dropped there and then. A `SlotShelf` overwrites its
/// passphrase where it lies, before the slot is freed.
pub trait Shelf {
    /// The slots, and how many entries can be stored without taking memory.
    ghost at: { Self → AtShelf };

    /// The passphrase for a request at `now`.
    fn find(&self, id: &CacheId, mode: Mode, now: u64) -> Option<Grant>
        ensures found { IfSome result (IsGrantFrom (at self.now).slots id.now mode now) }
        ensures none { IfNone result (ServesNone (at self.now).slots id.now mode now) };

    /// Restarts the ttl of the entry with this number.
    fn touch(&mut self, number: u64, now: u64)
        ensures slots { (at self.new).slots ≡ touched number now (at self.old).slots }
        ensures spare { (at self.old).spare ≤ (at self.new).spare };

    /// Makes room for `n` entries.
    fn reserve(&mut self, n: usize) -> Result<(), NoMemory>
        ensures room { OnOk result (n ≤ (at self.new).spare) }
        ensures slots { (at self.new).slots ≡ (at self.old).slots }
        ensures spare { (at self.old).spare ≤ (at self.new).spare };

    /// How many entries there is room for.
    fn spare(&self) -> usize
        ensures { result ≡ (at self.now).spare };

    /// Stores an entry, which is newer than all others. It takes the modes that it covers from the
    /// others of its id.
    fn store(&mut self, entry: Entry)
        requires room { 1 ≤ (at self.old).spare }
        requires newest { AreBelow entry.number (at self.old).slots }
        ensures slots { (at self.new).slots ≡ with_entry entry (at self.old).slots }
        ensures spare { (at self.old).spare ≤ (at self.new).spare + 1 };

    /// Drops the entries of an id whose mode covers the named one.
    fn clear(&mut self, id: &CacheId, mode: Mode)
        ensures slots { (at self.new).slots ≡ cleared id.now mode (at self.old).slots }
        ensures spare { (at self.old).spare ≤ (at self.new).spare };

    /// Drops all entries.
    fn flush(&mut self)
        ensures slots { (at self.new).slots ≡ [] }
        ensures spare { (at self.old).spare ≤ (at self.new).spare };

    /// Drops the entries that are past a lifetime at `now`.
    fn sweep(&mut self, now: u64)
        ensures slots { (at self.new).slots ≡ swept now (at self.old).slots }
        ensures spare { (at self.old).spare ≤ (at self.new).spare };
}
