//! Finding slots among slots in the order of their ids: by the hash, from where the guide says, and
//! then by the id. It changes nothing but the note of where a slot was found, and reads few boxes.
//! Begin with `grant_from`; `AreById` of `specs/SlotOrders` is the order.

ghost use Rattle.std.specs.Prelude.{◌≡◌, ◌<◌, ◌≤◌, ◌==◌, ◌↔◌, true, false, length, IfSome, IfNone};
ghost use Rattle.std.specs.{Prelude.IsTrue, List.{HoldsAt, AllByRecursion, AllWithin}};
ghost use Rattle.std.specs.List.Sorted.{IsPartitionPoint};
ghost use Rattle.cache_book.specs.Shelves.{serves_at, IsGrantFrom, ServesNone};
ghost use Rattle.cache_book.specs.SlotOrders.{id_cmp, is_upto, has_lower_hash, has_hash_upto};
ghost use Rattle.cache_book.specs.{SlotOrders.{AreById, AreKept}, Hashes.id_hash};

use crate::boxed_slot::BoxedSlot;
use crate::guide::Guide;
use crate::id_hash::hash_of;
use cache_policy::{CacheId, Grant, Mode};
use std::cell::Cell;
use std::cmp::Ordering;

/// The order of a slot's id and this one, whose hash is given.
fn compare(slot: &BoxedSlot, id: &CacheId, hash: u64) -> Ordering
    requires { hash ≡ id_hash id.now }
    ensures { result ≡ id_cmp slot.now.entry.id id.now }
{
    match slot.hash().cmp(&hash) {
        Ordering::Equal => slot.get().id().cmp(id.bytes()),
        other => other,
    }
}

/// The place of the first slot whose hash isn't lower than this one. No box is read.
pub(crate) fn behind_lower_hashes(slots: &[BoxedSlot], hash: u64) -> usize
    requires { AreById slots.now }
    ensures within { result ≤ length slots.now }
    ensures parts { IsPartitionPoint (λ slot. has_lower_hash hash slot ≡ true) (λ slot.
        has_lower_hash hash slot ≡ false) slots.now result }
{
    slots.partition_point(|slot| slot.hash() < hash)
}

/// The same, looked for first where the guide says.
fn behind_lower_near(slots: &[BoxedSlot], guide: &Guide, hash: u64) -> usize
    requires { AreById slots.now }
    ensures within { result ≤ length slots.now }
    ensures parts { IsPartitionPoint (λ slot. has_lower_hash hash slot ≡ true) (λ slot.
        has_lower_hash hash slot ≡ false) slots.now result }
{
    let guess = guide.guess(slots, hash);
    if is_behind_lower(slots, guess, hash) {
        guess
    } else {
        behind_lower_hashes(slots, hash)
    }
}

/// Whether the first slot whose hash isn't lower than this one is at `place`, or would be.
pub(crate) fn is_behind_lower(slots: &[BoxedSlot], place: usize, hash: u64) -> bool
    requires { AreById slots.now }
    ensures { IsTrue result
        ↔ ((place ≤ length slots.now) × IsPartitionPoint (λ slot. has_lower_hash hash slot
        ≡ true) (λ slot. has_lower_hash hash slot ≡ false) slots.now place) }
{
    place <= slots.len()
        && are_lower_before(slots, place, hash)
        && none_lower_from(slots, place, hash)
}

fn are_lower_before(slots: &[BoxedSlot], end: usize, hash: u64) -> bool
    requires by_id { AreById slots.now }
    requires within { end ≤ length slots.now }
    ensures { IsTrue result ↔ AllWithin (λ slot. has_lower_hash hash slot ≡ true) slots.now 0 end }
{
    end == 0 || slots[end - 1].hash() < hash
}

fn none_lower_from(slots: &[BoxedSlot], start: usize, hash: u64) -> bool
    requires by_id { AreById slots.now }
    requires within { start ≤ length slots.now }
    ensures { IsTrue result
        ↔ AllWithin (λ slot. has_lower_hash hash slot ≡ false) slots.now start (length slots.now) }
{
    start == slots.len() || hash <= slots[start].hash()
}

/// The place after the last slot whose hash is no higher than this one.
pub(crate) fn before_higher_hashes(slots: &[BoxedSlot], hash: u64) -> usize
    requires { AreById slots.now }
    ensures within { result ≤ length slots.now }
    ensures parts { IsPartitionPoint (λ slot. has_hash_upto hash slot ≡ true) (λ slot.
        has_hash_upto hash slot ≡ false) slots.now result }
{
    slots.partition_point(|slot| slot.hash() <= hash)
}

/// The place after the last slot whose id is no higher than this one.
pub(crate) fn end_of(slots: &[BoxedSlot], id: &CacheId) -> usize
    requires { AreById slots.now }
    ensures within { result ≤ length slots.now }
    ensures parts { IsPartitionPoint (λ slot. is_upto id.now slot ≡ true) (λ slot.
        is_upto id.now slot ≡ false) slots.now result }
{
    let hash = hash_of(id);
    slots.partition_point(|slot| compare(slot, id, hash).is_le())
}

/// The place of the slot that serves a request at `now`.
///
/// Nearly always the asked id is the only one of its hash, so its box is the first that is read.
fn serving(slots: &[BoxedSlot], guide: &Guide, id: &CacheId, mode: Mode, now: u64) -> Option<usize>
    requires { AreById slots.now }
    ensures found { IfSome result (λ i. (i < length slots.now)
        × HoldsAt (λ slot. serves_at id.now mode now slot ≡ true) slots.now i) }
    ensures none { IfNone result (ServesNone slots.now id.now mode now) }
{
    let hash = hash_of(id);
    let start = behind_lower_near(slots, guide, hash);
    for i in start..slots.len() {
        if hash < slots[i].hash() {
            return None;
        }
        if slots[i].get().serves_at(id, mode, now) {
            return Some(i);
        }
    }
    None
}

/// Where a slot was found: its place then, and the hash of its id.
#[derive(Clone, Copy)]
pub(crate) struct Found {
    pub(crate) place: usize,
    pub(crate) hash: u64,
}

/// The passphrase for a request at `now`, and in `found` where its slot is.
pub(crate) fn grant_from(
    slots: &[BoxedSlot],
    guide: &Guide,
    id: &CacheId,
    mode: Mode,
    now: u64,
    found: &Cell<Found>,
) -> Option<Grant>
    requires { AreKept slots.now }
    ensures found { IfSome result (IsGrantFrom slots.now id.now mode now) }
    ensures none { IfNone result (ServesNone slots.now id.now mode now) }
{
    let i = serving(slots, guide, id, mode, now)?;
    found.set(Found {
        place: i,
        hash: slots[i].hash(),
    });
    let slot = slots[i].get();
    Grant::of(id.copy(), mode, slot.entry(), slot.last(), now)
}

/// The place of the slot with this number, which may be the one that was found. It has moved since
/// where others were dropped.
pub(crate) fn with_number(slots: &[BoxedSlot], found: Found, number: u64) -> Option<usize>
    requires { AreById slots.now }
    ensures found { IfSome result (λ i. (i < length slots.now)
        × HoldsAt (λ slot. (number == slot.entry.number) ≡ true) slots.now i) }
    ensures none { IfNone result
        (AllByRecursion (λ slot. (number == slot.entry.number) ≡ false) slots.now) }
{
    if found.place < slots.len() && number == slots[found.place].get().number() {
        return Some(found.place);
    }
    let start = behind_lower_hashes(slots, found.hash);
    match number_within(slots, start, slots.len(), number) {
        Some(i) => Some(i),
        None => number_within(slots, 0, start, number),
    }
}

/// The place of the slot with this number among those from `start` up to `end`.
fn number_within(slots: &[BoxedSlot], start: usize, end: usize, number: u64) -> Option<usize>
    requires { end ≤ length slots.now }
    ensures found { IfSome result (λ i. (start ≤ i) × (i < end)
        × HoldsAt (λ slot. (number == slot.entry.number) ≡ true) slots.now i) }
    ensures none { IfNone result
        (AllWithin (λ slot. (number == slot.entry.number) ≡ false) slots.now start end) }
{
    for i in start..end {
        if number == slots[i].get().number() {
            return Some(i);
        }
    }
    None
}
