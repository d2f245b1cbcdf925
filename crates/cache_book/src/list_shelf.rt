//! The plain shelf, one list that is searched from its front: it shows that the contract of `Shelf`
//! can be met simply, and tests put it beside `SlotShelf`. It works on its list's memory. Begin
//! with `find`; the clauses are those of `Shelf`.

ghost use Rattle.std.specs.Prelude.{◌≡◌, [], map, find, IfSome, IfNone, vec_len, vec_capacity};
ghost use Rattle.std.specs.Option.{option_copied};
ghost use Rattle.cache_book.specs.Shelves.{serves_at, IsGrantFrom, ServesNone, AreWithinMode};
ghost use Rattle.cache_book.specs.Shelves.{touched, hide};

use crate::{Shelf, Slot};
use cache_policy::{CacheId, Entry, Grant, Mode, NoMemory};
use std::alloc::Global;
use std::marker::Model;

/// A shelf that is one list, searched from its front.
#[derive(Drop)]
pub struct ListShelf {
    // By the numbers of their entries.
    slots: Vec<Slot>,
}

impl Model for ListShelf {
    ghost use Rattle.std.specs.Prelude.{◌-◌, vec_len, vec_capacity};
    ghost use Rattle.cache_book.specs.Shelves.{AtShelf, AreWithinMode};

    ghost Value = { AtShelf };

    ghost view = { λ shelf. record {
      slots = shelf.slots.items;
      spare = vec_capacity shelf.slots - vec_len shelf.slots;
    } };

    ghost invariant = { λ shelf. AreWithinMode shelf.slots.items };
}

impl ListShelf {
    /// An empty shelf, which takes no memory yet.
    pub fn new(alloc: Global) -> ListShelf
        ensures { result ≡ record { slots = []; spare = 0 } }
    {
        ListShelf {
            slots: Vec::new(alloc),
        }
    }
}

impl Shelf for ListShelf {
    ghost at = { λ shelf. shelf };

    fn find(&self, id: &CacheId, mode: Mode, now: u64) -> Option<Grant> {
        grant_from(self.slots.as_slice(), id, mode, now)
    }

    fn touch(&mut self, number: u64, now: u64) {
        touch_all(&mut self.slots, number, now);
    }

    fn reserve(&mut self, n: usize) -> Result<(), NoMemory> {
        self.slots.reserve(n)
    }

    fn spare(&self) -> usize {
        self.slots.capacity() - self.slots.len()
    }

    fn store(&mut self, entry: Entry) {
        hide_all(&mut self.slots, &entry);
        self.slots.retain(|slot| slot.modes.has_some());
        self.slots.push_reserved(Slot::of(entry));
    }

    fn clear(&mut self, id: &CacheId, mode: Mode) {
        self.slots.retain(|slot| !(slot.entry.id == *id && slot.entry.mode.covers(mode)));
    }

    fn flush(&mut self) {
        self.slots.clear();
    }

    fn sweep(&mut self, now: u64) {
        self.slots.retain(|slot| slot.is_within(now));
    }
}

fn first_serving<'a>(slots: &'a [Slot], id: &CacheId, mode: Mode, now: u64) -> Option<&'a Slot>
    ensures { option_copied result ≡ find (serves_at id.now mode now) slots.now }
{
    slots.iter().find(|slot| slot.serves_at(id, mode, now))
}

fn grant_from(slots: &[Slot], id: &CacheId, mode: Mode, now: u64) -> Option<Grant>
    requires { AreWithinMode slots.now }
    ensures found { IfSome result (IsGrantFrom slots.now id.now mode now) }
    ensures none { IfNone result (ServesNone slots.now id.now mode now) }
{
    let slot = first_serving(slots, id, mode, now)?;
    Grant::of(id.copy(), mode, slot.entry.copy(), slot.last, now)
}

fn touch_all(slots: &mut Vec<Slot>, number: u64, now: u64)
    ensures items { slots.new.items ≡ touched number now slots.old.items }
    ensures len { vec_len slots.new ≡ vec_len slots.old }
    ensures capacity { vec_capacity slots.new ≡ vec_capacity slots.old }
{
    touch_each(slots.as_mut_slice(), number, now);
}

fn touch_each(slots: &mut [Slot], number: u64, now: u64)
    ensures { slots.new ≡ touched number now slots.old }
{
    for slot in slots.iter_mut() {
        slot.touch(number, now);
    }
}

fn hide_all(slots: &mut Vec<Slot>, later: &Entry)
    ensures items { slots.new.items ≡ map (hide later.now) slots.old.items }
    ensures len { vec_len slots.new ≡ vec_len slots.old }
    ensures capacity { vec_capacity slots.new ≡ vec_capacity slots.old }
{
    hide_each(slots.as_mut_slice(), later);
}

fn hide_each(slots: &mut [Slot], later: &Entry)
    ensures { slots.new ≡ map (hide later.now) slots.old }
{
    for slot in slots.iter_mut() {
        slot.hide(later);
    }
}
