//! A slot in memory of its own, its id's hash beside it, and the blanks from which slots are made.
//! A blank takes the memory beforehand, so that a store takes none and a move leaves no copy of a
//! passphrase. Begin with `Blank::filled`; contracts see a `Slot`, and each call is its namesake in
//! `specs/Shelves` or `specs/SlotOrders`.

ghost use Rattle.std.specs.Prelude.{◌≡◌, [], IfSome, IfNone};

use crate::deadlines::Place;
use crate::id_hash::hash_of;
use crate::packed_slot::PackedSlot;
use cache_policy::{Entry, Secret};
use std::alloc::{AllocError, Global};
use std::marker::Model;

/// A slot in memory of its own. So its place among others is small, and a move of it leaves no copy
/// of the passphrase.
#[derive(Drop)]
pub(crate) struct BoxedSlot {
    // That of its entry's id. It stands beside the box, so that a search reads few boxes.
    hash: u64,
    slot: Box<PackedSlot>,
}

impl Model for BoxedSlot {
    ghost use Rattle.std.specs.Prelude.{◌≡◌};
    ghost use Rattle.cache_book.specs.{declared.slot.Slot.Slot, Hashes.id_hash};

    ghost Value = { Slot };

    ghost view = { λ boxed. boxed.slot.value };

    ghost invariant = { λ boxed. boxed.hash ≡ id_hash boxed.slot.value.entry.id };
}

/// Memory for a slot to come, and for its passphrase where that isn't short.
#[derive(Drop)]
pub(crate) struct Blank {
    slot: Box<PackedSlot>,
    long: Box<Secret>,
    // No passphrase lies in it.
    ghost bare: { (slot.value.entry.secret ≡ []) × (long.value ≡ []) },
}

impl Blank {
    ghost use Rattle.cache_book.specs.Shelves.{new_slot};

    pub(crate) fn new(alloc: Global) -> Result<Blank, AllocError> {
        let slot = Box::new(alloc, PackedSlot::blank())?;
        let long = Box::new(alloc, no_passphrase())?;
        Ok(Blank { slot, long })
    }

    /// The slot of a new entry, in this memory.
    pub(crate) fn filled(self, mut entry: Entry) -> BoxedSlot
        ensures { result ≡ new_slot entry }
    {
        let hash = hash_of(&entry.id);
        let mut slot = self.slot;
        slot.fill(&entry, self.long);
        // A drop would overwrite a copy.
        entry.secret.clear();
        BoxedSlot { hash, slot }
    }
}

fn no_passphrase() -> Secret
    ensures { result ≡ [] }
{
    let Some(secret) = Secret::of(b"") else {
        unreachable!()
    };
    secret
}

impl BoxedSlot {
    ghost use Rattle.cache_book.specs.{Shelves.{touch_slot, hide}, Modes.has_some};
    ghost use Rattle.cache_book.specs.Deadlines.{place_of};
    ghost use Rattle.cache_book.specs.SlotOrders.{wiped, wipe_past, has_hash_past};
    ghost use Rattle.cache_book.specs.Hashes.{id_hash};

    /// That of its entry's id, by [`hash_of`].
    pub(crate) fn hash(&self) -> u64
        ensures { result ≡ id_hash self.now.entry.id }
    {
        self.hash
    }

    pub(crate) fn get(&self) -> &PackedSlot
        ensures { result.now ≡ self.now }
    {
        &self.slot
    }

    /// Whether it has this hash and is past a lifetime at `now`.
    pub(crate) fn is_past(&self, hash: u64, now: u64) -> bool
        ensures { result ≡ has_hash_past hash now self.now }
    {
        hash == self.hash && !self.slot.is_within(now)
    }

    /// Overwrites the passphrase of a slot that is past a lifetime at `now`, and leaves any other.
    pub(crate) fn wipe_past(&mut self, now: u64)
        ensures { self.new ≡ wipe_past now self.old }
    {
        if !self.slot.is_within(now) {
            self.slot.wipe();
        }
    }

    /// Overwrites the passphrase.
    pub(crate) fn wipe(&mut self)
        ensures { self.new ≡ wiped self.old }
    {
        self.slot.wipe();
    }

    /// Where it stands among others in the order of their deadlines.
    pub(crate) fn place(&self) -> Place
        ensures { result ≡ place_of self.now }
    {
        Place {
            moment: self.slot.deadline(),
            hash: self.hash,
        }
    }

    /// Restarts its ttl where it is the entry with this number, and answers its place where that
    /// has moved.
    pub(crate) fn touch(&mut self, number: u64, now: u64) -> Option<Place>
        ensures touched { self.new ≡ touch_slot number now self.old }
        ensures moved { IfSome result (λ place. place ≡ place_of self.new) }
        ensures stays { IfNone result (place_of self.new ≡ place_of self.old) }
    {
        let before = self.place();
        self.slot.touch(number, now);
        let after = self.place();
        if before == after { None } else { Some(after) }
    }

    /// Loses the modes that a later entry takes, and answers whether some are left.
    pub(crate) fn hide(&mut self, later: &Entry) -> bool
        ensures hidden { self.new ≡ hide later.now self.old }
        ensures serves { result ≡ has_some self.new.modes }
    {
        self.slot.hide(later)
    }
}
