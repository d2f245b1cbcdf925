//! The shelf of the agent: slots in the order of their ids' hashes, and their deadlines in a heap.
//! It takes memory in `reserve` alone, and overwrites each passphrase where it lies before its slot
//! is freed. Begin with `find`, `store_in` and `sweep_in`; the clauses are those of `Shelf`, and
//! `specs/SlotOrders` has the order.

ghost use Rattle.std.specs.Prelude.{◌≡◌, ◌+◌, ◌<◌, ◌≤◌, ◌^◌, ◌==◌, ◌||◌, [], true, length, map};
ghost use Rattle.std.specs.Prelude.{OnOk, vec_len, vec_capacity};
ghost use Rattle.std.specs.List.{AllByRecursion, insert, remove};
ghost use Rattle.cache_book.specs.Shelves.{touched, cleared, hidden, swept, with_entry, AreBelow};
ghost use Rattle.cache_book.specs.SlotOrders.{by_number, wiped, wipe_past, swept_hash, AreKept};
ghost use Rattle.cache_book.specs.SlotOrders.{AreWiped, AreWipedPast};
ghost use Rattle.cache_book.specs.Deadlines.{place_of, is_place, is_among, HavePlaces};

use crate::Shelf;
use crate::boxed_slot::{Blank, BoxedSlot};
use crate::deadlines::{Deadlines, Place};
use crate::guide::Guide;
use crate::id_hash::hash_of;
use crate::search::{
    Found, before_higher_hashes, behind_lower_hashes, end_of, grant_from, with_number,
};
use cache_policy::{CacheId, Entry, Grant, Mode, NoMemory};
use std::alloc::Global;
use std::cell::Cell;
use std::marker::Model;

/// How many places a sweep takes one by one, before it walks over all slots.
const FEW: usize = 32;

/// A shelf whose slots stand in the order of their ids, by whose hashes they are found. Beside them
/// stand their places in the order of their deadlines, the soonest in front.
#[derive(Drop)]
pub struct SlotShelf {
    // By the ids of their entries, whose hashes come first, and then by their numbers.
    slots: Vec<BoxedSlot>,
    // Where a request looks first.
    guide: Guide,
    // The place of each slot, and some that are of no slot any more.
    deadlines: Deadlines,
    // Memory for slots to come.
    blanks: Vec<Blank>,
    // Where a slot was found last, which is the one that is touched next. It is a guess: `touch`
    // looks whether it is right.
    found: Cell<Found>,
}

impl Model for SlotShelf {
    ghost use Rattle.std.specs.Prelude.{◌≤◌, ◌-◌, min, vec_len, vec_capacity};
    ghost use Rattle.cache_book.specs.{Shelves.AtShelf, SlotOrders.{by_number, AreKept}};
    ghost use Rattle.cache_book.specs.Deadlines.{HavePlaces};

    ghost Value = { AtShelf };

    ghost view = { λ shelf. record {
      slots = by_number shelf.slots.items;
      spare = min (vec_len shelf.blanks) (min (vec_capacity shelf.slots - vec_len shelf.slots)
          (shelf.deadlines.capacity - vec_len shelf.slots));
    } };

    ghost invariant = { λ shelf. record {
      kept : AreKept shelf.slots.items;
      places : HavePlaces shelf.deadlines.places shelf.slots.items;
      room : vec_len shelf.slots ≤ shelf.deadlines.capacity;
    } };
}

impl SlotShelf {
    /// An empty shelf, which takes no memory yet.
    pub fn new(alloc: Global) -> SlotShelf
        ensures { result ≡ record { slots = []; spare = 0 } }
    {
        SlotShelf {
            slots: Vec::new(alloc),
            guide: Guide::new(alloc),
            deadlines: Deadlines::new(alloc),
            blanks: Vec::new(alloc),
            found: Cell::new(Found { place: 0, hash: 0 }),
        }
    }
}

impl SlotShelf {
    /// Whether the guide leads to each slot, by ranges of at most `max`: how long a search is at
    /// most. An answer doesn't depend on it.
    pub fn is_guided(&self, max: usize) -> bool {
        let slots = self.slots.as_slice();
        for slot in slots {
            let hash = slot.hash();
            let (start, end) = self.guide.range(hash, slots.len());
            let guess = self.guide.guess(slots, hash);
            if start.saturating_add(max) < end
                || !crate::search::is_behind_lower(slots, guess, hash)
            {
                return false;
            }
        }
        true
    }
}

impl Shelf for SlotShelf {
    ghost at = { λ shelf. shelf };

    fn find(&self, id: &CacheId, mode: Mode, now: u64) -> Option<Grant> {
        grant_from(
            self.slots.as_slice(),
            &self.guide,
            id,
            mode,
            now,
            &self.found,
        )
    }

    fn touch(&mut self, number: u64, now: u64) {
        let found = self.found.get();
        touch_in(&mut self.slots, &mut self.deadlines, found, number, now);
    }

    fn reserve(&mut self, n: usize) -> Result<(), NoMemory> {
        self.slots.reserve(n)?;
        reserve_deadlines(&mut self.deadlines, self.slots.as_slice(), n)?;
        add_blanks(&mut self.blanks, n)?;
        self.guide
            .widen(self.slots.as_slice(), self.slots.capacity());
        Ok(())
    }

    fn spare(&self) -> usize {
        let slots = self.slots.capacity() - self.slots.len();
        let deadlines = self.deadlines.capacity() - self.slots.len();
        self.blanks.len().min(slots.min(deadlines))
    }

    fn store(&mut self, entry: Entry) {
        let Some(blank) = self.blanks.pop() else {
            unreachable!()
        };
        let hash = hash_of(&entry.id);
        let before = self.slots.len();
        store_in(&mut self.slots, &mut self.deadlines, blank, entry);
        self.guide.shift_behind(hash, before, self.slots.len());
    }

    fn clear(&mut self, id: &CacheId, mode: Mode) {
        let before = self.slots.len();
        clear_in(&mut self.slots, id, mode);
        self.guide
            .shift_behind(hash_of(id), before, self.slots.len());
    }

    fn flush(&mut self) {
        wipe_all(&mut self.slots);
        drop_all(&mut self.slots);
        self.guide.rebuild(self.slots.as_slice());
        self.deadlines.clear();
    }

    fn sweep(&mut self, now: u64) {
        sweep_in(&mut self.slots, &mut self.guide, &mut self.deadlines, now);
    }
}

/// Adds blanks up to `n`.
fn add_blanks(blanks: &mut Vec<Blank>, n: usize) -> Result<(), NoMemory>
    ensures ok { OnOk result (n ≤ vec_len blanks.new) }
    ensures more { vec_len blanks.old ≤ vec_len blanks.new }
{
    let alloc = *blanks.allocator();
    while blanks.len() < n {
        blanks.push(Blank::new(alloc)?)?;
    }
    Ok(())
}

/// Makes room for the places of `n` slots more. It makes twice as much beside them, so that
/// collecting them anew is rare.
fn reserve_deadlines(
    deadlines: &mut Deadlines,
    slots: &[BoxedSlot],
    n: usize,
) -> Result<(), NoMemory>
    requires sum { length slots.now + n < 2 ^ 64 }
    requires room { length slots.now ≤ deadlines.old.capacity }
    requires held { HavePlaces deadlines.old.places slots.now }
    ensures room { OnOk result (length slots.now + n ≤ deadlines.new.capacity) }
    ensures held { HavePlaces deadlines.new.places slots.now }
    ensures capacity { deadlines.old.capacity ≤ deadlines.new.capacity }
{
    let wanted = slots.len() + n;
    if wanted <= deadlines.capacity() / 2 {
        return Ok(());
    }
    collect_anew(deadlines, slots);
    deadlines.reserve(wanted.saturating_mul(2))
}

/// Collects the places of the slots, without those that are of no slot any more.
fn collect_anew(deadlines: &mut Deadlines, slots: &[BoxedSlot])
    requires { length slots.now ≤ deadlines.old.capacity }
    ensures held { HavePlaces deadlines.new.places slots.now }
    ensures len { deadlines.new.len ≡ length slots.now }
    ensures capacity { deadlines.old.capacity ≤ deadlines.new.capacity }
{
    deadlines.clear();
    for slot in slots {
        deadlines.add(slot.place());
    }
}

/// Adds the place of a slot among these.
fn add_place(deadlines: &mut Deadlines, slots: &[BoxedSlot], place: Place)
    requires room { length slots.now ≤ deadlines.old.capacity }
    requires held { AllByRecursion
        (λ slot. (is_place place (place_of slot) || is_among (place_of slot) deadlines.old.places)
        ≡ true) slots.now }
    ensures held { HavePlaces deadlines.new.places slots.now }
    ensures capacity { deadlines.old.capacity ≤ deadlines.new.capacity }
{
    if deadlines.is_full() {
        collect_anew(deadlines, slots);
        return;
    }
    deadlines.add(place);
}

/// Restarts the ttl of the entry with this number, whose slot may be the one that was found.
fn touch_in(
    slots: &mut Vec<BoxedSlot>,
    deadlines: &mut Deadlines,
    found: Found,
    number: u64,
    now: u64,
)
    requires kept { AreKept slots.old.items }
    requires held { HavePlaces deadlines.old.places slots.old.items }
    requires room { vec_len slots.old ≤ deadlines.old.capacity }
    ensures items { slots.new.items ≡ touched number now slots.old.items }
    ensures held { HavePlaces deadlines.new.places slots.new.items }
    ensures len { vec_len slots.new ≡ vec_len slots.old }
    ensures capacity { vec_capacity slots.new ≡ vec_capacity slots.old }
    ensures room { deadlines.old.capacity ≤ deadlines.new.capacity }
{
    if let Some(i) = with_number(slots.as_slice(), found, number) {
        if let Some(place) = slots[i].touch(number, now) {
            add_place(deadlines, slots.as_slice(), place);
        }
    }
}

/// Stores an entry in the memory of a blank. It takes the modes that it covers from the others of
/// its id.
fn store_in(slots: &mut Vec<BoxedSlot>, deadlines: &mut Deadlines, blank: Blank, entry: Entry)
    requires kept { AreKept slots.old.items }
    requires newest { AreBelow entry.number slots.old.items }
    requires held { HavePlaces deadlines.old.places slots.old.items }
    requires spare { vec_len slots.old < vec_capacity slots.old }
    requires room { vec_len slots.old < deadlines.old.capacity }
    ensures kept { AreKept slots.new.items }
    ensures items { by_number slots.new.items ≡ with_entry entry (by_number slots.old.items) }
    ensures held { HavePlaces deadlines.new.places slots.new.items }
    ensures len { vec_len slots.new ≤ vec_len slots.old + 1 }
    ensures capacity { vec_capacity slots.new ≡ vec_capacity slots.old }
    ensures room { deadlines.old.capacity ≤ deadlines.new.capacity }
{
    hide_in(slots, &entry);
    let end = end_of(slots.as_slice(), &entry.id);
    let slot = blank.filled(entry);
    let place = slot.place();
    insert_at(slots, end, slot);
    add_place(deadlines, slots.as_slice(), place);
}

/// Inserts a slot, for which there is room.
fn insert_at(slots: &mut Vec<BoxedSlot>, i: usize, slot: BoxedSlot)
    requires within { i ≤ vec_len slots.old }
    requires room { vec_len slots.old < vec_capacity slots.old }
    ensures items { slots.new.items ≡ insert slots.old.items i slot }
    ensures len { vec_len slots.new ≡ vec_len slots.old + 1 }
    ensures capacity { vec_capacity slots.new ≡ vec_capacity slots.old }
{
    if slots.insert(i, slot).is_err() {
        unreachable!()
    }
}

/// Takes the modes of a later entry from the slots of its id, and drops those that are left without
/// one.
fn hide_in(slots: &mut Vec<BoxedSlot>, later: &Entry)
    requires { AreKept slots.old.items }
    ensures items { slots.new.items ≡ hidden later.now slots.old.items }
    ensures len { vec_len slots.new ≤ vec_len slots.old }
    ensures capacity { vec_capacity slots.new ≡ vec_capacity slots.old }
{
    let hash = hash_of(&later.id);
    let start = behind_lower_hashes(slots.as_slice(), hash);
    let mut i = before_higher_hashes(slots.as_slice(), hash);
    while start < i {
        i -= 1;
        if !slots[i].hide(later) {
            drop_slot(slots, i);
        }
    }
}

/// Drops the slots of an id whose mode covers the named one.
fn clear_in(slots: &mut Vec<BoxedSlot>, id: &CacheId, mode: Mode)
    requires { AreKept slots.old.items }
    ensures items { slots.new.items ≡ cleared id.now mode slots.old.items }
    ensures len { vec_len slots.new ≤ vec_len slots.old }
    ensures capacity { vec_capacity slots.new ≡ vec_capacity slots.old }
{
    let hash = hash_of(id);
    let start = behind_lower_hashes(slots.as_slice(), hash);
    let mut i = before_higher_hashes(slots.as_slice(), hash);
    while start < i {
        i -= 1;
        if slots[i].get().is_cleared(id, mode) {
            drop_slot(slots, i);
        }
    }
}

/// Drops a slot. Its passphrase is overwritten where it lies.
fn drop_slot(slots: &mut Vec<BoxedSlot>, i: usize)
    requires { i < vec_len slots.old }
    ensures items { slots.new.items ≡ remove slots.old.items i }
    ensures len { vec_len slots.new ≤ vec_len slots.old }
    ensures capacity { vec_capacity slots.new ≡ vec_capacity slots.old }
{
    slots[i].wipe();
    give_back(slots.remove(i));
}

/// Gives the memory of a slot back, whose passphrase was overwritten where it lay.
fn give_back(_slot: BoxedSlot)
    requires { _slot.entry.secret ≡ [] }
{}

/// Drops the slots that are past a lifetime at `now`: by the places in front, and where many of
/// these are past, in a walk over all slots.
fn sweep_in(slots: &mut Vec<BoxedSlot>, guide: &mut Guide, deadlines: &mut Deadlines, now: u64)
    requires kept { AreKept slots.old.items }
    requires held { HavePlaces deadlines.old.places slots.old.items }
    ensures items { slots.new.items ≡ swept now slots.old.items }
    ensures held { HavePlaces deadlines.new.places slots.new.items }
    ensures len { vec_len slots.new ≤ vec_len slots.old }
    ensures capacity { vec_capacity slots.new ≡ vec_capacity slots.old }
    ensures room { deadlines.new.capacity ≡ deadlines.old.capacity }
{
    for _ in 0..FEW {
        let Some(hash) = deadlines.pop_past(now) else {
            return;
        };
        let before = slots.len();
        sweep_hash(slots, hash, now);
        guide.shift_behind(hash, before, slots.len());
    }
    if deadlines.drop_past(now) {
        sweep_all(slots, now);
        guide.rebuild(slots.as_slice());
    }
}

/// Drops those of the slots with this hash that are past a lifetime at `now`.
fn sweep_hash(slots: &mut Vec<BoxedSlot>, hash: u64, now: u64)
    requires { AreKept slots.old.items }
    ensures items { slots.new.items ≡ swept_hash hash now slots.old.items }
    ensures len { vec_len slots.new ≤ vec_len slots.old }
    ensures capacity { vec_capacity slots.new ≡ vec_capacity slots.old }
{
    let start = behind_lower_hashes(slots.as_slice(), hash);
    let mut i = before_higher_hashes(slots.as_slice(), hash);
    while start < i {
        i -= 1;
        if slots[i].is_past(hash, now) {
            drop_slot(slots, i);
        }
    }
}

/// Drops the slots that are past a lifetime at `now`, wherever they stand.
fn sweep_all(slots: &mut Vec<BoxedSlot>, now: u64)
    ensures items { slots.new.items ≡ swept now slots.old.items }
    ensures len { vec_len slots.new ≤ vec_len slots.old }
    ensures capacity { vec_capacity slots.new ≡ vec_capacity slots.old }
{
    wipe_past_in(slots, now);
    drop_past(slots, now);
}

/// Drops the slots that are past a lifetime at `now`, whose passphrases were overwritten where they
/// lay.
fn drop_past(slots: &mut Vec<BoxedSlot>, now: u64)
    requires { AreWipedPast now slots.old.items }
    ensures items { slots.new.items ≡ swept now slots.old.items }
    ensures len { vec_len slots.new ≤ vec_len slots.old }
    ensures capacity { vec_capacity slots.new ≡ vec_capacity slots.old }
{
    slots.retain(|slot| slot.get().is_within(now));
}

fn wipe_past_in(slots: &mut Vec<BoxedSlot>, now: u64)
    ensures items { slots.new.items ≡ map (wipe_past now) slots.old.items }
    ensures len { vec_len slots.new ≡ vec_len slots.old }
    ensures capacity { vec_capacity slots.new ≡ vec_capacity slots.old }
{
    wipe_past_each(slots.as_mut_slice(), now);
}

fn wipe_past_each(slots: &mut [BoxedSlot], now: u64)
    ensures { slots.new ≡ map (wipe_past now) slots.old }
{
    for slot in slots.iter_mut() {
        slot.wipe_past(now);
    }
}

/// Drops all slots, whose passphrases were overwritten where they lay.
fn drop_all(slots: &mut Vec<BoxedSlot>)
    requires { AreWiped slots.old.items }
    ensures items { slots.new.items ≡ [] }
    ensures len { vec_len slots.new ≡ 0 }
    ensures capacity { vec_capacity slots.new ≡ vec_capacity slots.old }
{
    slots.clear();
}

fn wipe_all(slots: &mut Vec<BoxedSlot>)
    ensures items { slots.new.items ≡ map wiped slots.old.items }
    ensures len { vec_len slots.new ≡ vec_len slots.old }
    ensures capacity { vec_capacity slots.new ≡ vec_capacity slots.old }
{
    wipe_each(slots.as_mut_slice());
}

fn wipe_each(slots: &mut [BoxedSlot])
    ensures { slots.new ≡ map wiped slots.old }
{
    for slot in slots.iter_mut() {
        slot.wipe();
    }
}
