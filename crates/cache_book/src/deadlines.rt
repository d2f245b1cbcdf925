//! The places of slots in a heap, the soonest deadline in front, by which a sweep finds what is
//! past. It works on its heap's memory, and may hold places that slots have left. Begin with
//! `Deadlines::pop_past`; `HavePlaces` of `specs/Deadlines` is what a shelf keeps true of it.

ghost use Rattle.std.specs.Prelude.{◌≡◌, ◌+◌, ◌<◌, ◌≤◌, ◌==◌, ◌||◌, true, false, [], nat_le, OnOk};
ghost use Rattle.std.specs.Prelude.{IfSome, IfNone, IsSome};
ghost use Rattle.std.specs.BinaryHeap.{IsHeap, heap_items, heap_len, heap_capacity};
ghost use Rattle.std.specs.List.{AllByRecursion};
ghost use Rattle.cache_book.specs.declared.deadlines.Place.{Place as OnePlace};
ghost use Rattle.cache_book.specs.Deadlines.{soonest_is_greatest, is_place, is_among, FrontIsPast};

use cache_policy::NoMemory;
use std::alloc::Global;
use std::cmp::Reverse;
use std::collections::BinaryHeap;
use std::marker::Model;

/// Where a slot stands among others in the order of their deadlines, and by what it is found among
/// those in the order of their ids.
#[derive(Clone, Copy, PartialEq, Eq, PartialOrd, Ord)]
pub(crate) struct Place {
    /// Its deadline, in seconds.
    pub(crate) moment: u64,
    /// That of its entry's id.
    pub(crate) hash: u64,
}

/// Places of slots, that of the soonest deadline in front.
///
/// One that a slot has left, since it was used or is gone, stays until it passes or the places are
/// collected anew.
#[derive(Drop)]
pub(crate) struct Deadlines {
    places: BinaryHeap<Reverse<Place>>,
}

impl Model for Deadlines {
    ghost use Rattle.std.specs.BinaryHeap.{IsHeap, heap_items, heap_len, heap_capacity};
    ghost use Rattle.cache_book.specs.Deadlines.{AtDeadlines, soonest_is_greatest};

    ghost Value = { AtDeadlines };

    ghost view = { λ deadlines. record {
      places = heap_items deadlines.places;
      len = heap_len deadlines.places;
      capacity = heap_capacity deadlines.places;
    } };

    ghost invariant = { λ deadlines. IsHeap soonest_is_greatest (heap_items deadlines.places) };
}

impl Deadlines {
    /// None, without taking memory.
    pub(crate) fn new(alloc: Global) -> Deadlines
        ensures { result.places ≡ [] }
    {
        Deadlines {
            places: BinaryHeap::new(alloc),
        }
    }

    /// How many there is room for.
    pub(crate) fn capacity(&self) -> usize
        ensures { result ≡ self.now.capacity }
    {
        self.places.capacity()
    }

    /// Makes room for `n` more.
    pub(crate) fn reserve(&mut self, n: usize) -> Result<(), NoMemory>
        ensures room { OnOk result (self.new.len + n ≤ self.new.capacity) }
        ensures places { self.new.places ≡ self.old.places }
        ensures capacity { self.old.capacity ≤ self.new.capacity }
    {
        self.places.reserve(n)
    }

    pub(crate) fn is_full(&self) -> bool
        ensures { result ≡ nat_le self.now.capacity self.now.len }
    {
        self.places.capacity() <= self.places.len()
    }

    /// Adds one, for which there is room.
    pub(crate) fn add(&mut self, place: Place)
        requires { self.old.len < self.old.capacity }
        ensures places { (other : OnePlace) → is_among other self.new.places
            ≡ (is_place place other || is_among other self.old.places) }
        ensures len { self.new.len ≡ self.old.len + 1 }
        ensures capacity { self.old.capacity ≤ self.new.capacity }
    {
        if self.places.push(Reverse(place)).is_err() {
            unreachable!()
        }
    }

    pub(crate) fn clear(&mut self)
        ensures places { self.new.places ≡ [] }
        ensures len { self.new.len ≡ 0 }
        ensures capacity { self.new.capacity ≡ self.old.capacity }
    {
        self.places.clear();
    }

    /// Drops the place in front if that is before `now`, and answers its hash.
    pub(crate) fn pop_past(&mut self, now: u64) -> Option<u64>
        ensures later { (place : OnePlace) → now ≤ place.moment
            → is_among place self.new.places ≡ is_among place self.old.places }
        ensures others { IfSome result (λ hash. (place : OnePlace) → (hash == place.hash) ≡ false
            → is_among place self.new.places ≡ is_among place self.old.places) }
        ensures fewer { IsSome result → self.new.len + 1 ≡ self.old.len }
        ensures none { IfNone result
            (AllByRecursion (λ place. now ≤ place.0.moment) self.old.places) }
        ensures unchanged { IfNone result (self.new.places ≡ self.old.places) }
        ensures capacity { self.new.capacity ≡ self.old.capacity }
    {
        pop_past_in(&mut self.places, now)
    }

    /// Drops those before `now`, and answers whether there was one.
    pub(crate) fn drop_past(&mut self, now: u64) -> bool
        ensures later { (place : OnePlace) → now ≤ place.moment
            → is_among place self.new.places ≡ is_among place self.old.places }
        ensures gone { AllByRecursion (λ place. now ≤ place.0.moment) self.new.places }
        ensures unchanged { result ≡ false → self.new.places ≡ self.old.places }
        ensures capacity { self.new.capacity ≡ self.old.capacity }
    {
        let mut some = false;
        while self.pop_past(now).is_some() {
            some = true;
        }
        some
    }
}

fn pop_past_in(places: &mut BinaryHeap<Reverse<Place>>, now: u64) -> Option<u64>
    requires { IsHeap soonest_is_greatest (heap_items places.old) }
    ensures order { IsHeap soonest_is_greatest (heap_items places.new) }
    ensures later { (place : OnePlace) → now ≤ place.moment
        → is_among place (heap_items places.new) ≡ is_among place (heap_items places.old) }
    ensures others { IfSome result (λ hash. (place : OnePlace) → (hash == place.hash) ≡ false
        → is_among place (heap_items places.new) ≡ is_among place (heap_items places.old)) }
    ensures fewer { IsSome result → heap_len places.new + 1 ≡ heap_len places.old }
    ensures none { IfNone result
        (AllByRecursion (λ place. now ≤ place.0.moment) (heap_items places.old)) }
    ensures unchanged { IfNone result (heap_items places.new ≡ heap_items places.old) }
    ensures capacity { heap_capacity places.new ≡ heap_capacity places.old }
{
    if !front_is_past(places, now) {
        return None;
    }
    let Some(front) = places.pop() else {
        unreachable!()
    };
    Some(front.0.hash)
}

fn front_is_past(places: &BinaryHeap<Reverse<Place>>, now: u64) -> bool
    requires { IsHeap soonest_is_greatest (heap_items places.now) }
    ensures past { result ≡ true → FrontIsPast now (heap_items places.now) (heap_len places.now) }
    ensures yet { result ≡ false
        → AllByRecursion (λ place. now ≤ place.0.moment) (heap_items places.now) }
{
    match places.peek() {
        Some(front) => front.0.moment < now,
        None => false,
    }
}
