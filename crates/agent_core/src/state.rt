//! What a core keeps in place of its history: the live entries, the seat (the prompt's lock), the
//! last moment and the number of marks (log entries). `CacheShelf` names the shelf that it stands
//! on. Begin with `State`, and with `begin`, the front of each step; `IsState` of `specs/States`
//! stays true.

ghost use Rattle.std.specs.Prelude.{◌≡◌, ◌+◌, ◌<◌, ◌≤◌};
ghost use Rattle.cache_policy.specs.Runs.{last_base, moment_of};
ghost use Rattle.cache_policy.specs.declared.bounds.TheConstants.{MAX_MARKS, MAX_MOMENT};
ghost use Rattle.cache_book.specs.Shelves.{AreBelow};

use cache_book::{Shelf, SlotShelf};
use cache_policy::{CacheId, Grant, Limits, MAX_MARKS, MAX_MOMENT, Mode, Under};
use prompt_seat::Seat;

/// The shelf that the core stands on.
pub(crate) type CacheShelf = SlotShelf;

/// What a core keeps in place of its history.
#[derive(Drop)]
pub(crate) struct State {
    pub(crate) limits: Limits,
    pub(crate) base: u64,
    // How many marks the history has.
    pub(crate) count: u64,
    // The moment of the last mark.
    pub(crate) moment: u64,
    pub(crate) shelf: CacheShelf,
    pub(crate) seat: Seat,
    // What the passphrase of the ticket that is out is kept under.
    pub(crate) under: Option<Under>,
    pub(crate) stopped: bool,
}

impl State {
    ghost use Rattle.agent_core.specs.States.{IsState};
    ghost use Rattle.agent_core.specs.Taking.{MayMark, HasMarkedAlone, Finds, next_base};
    ghost use Rattle.agent_core.specs.Taking.{next_count, next_slots, number_of};

    /// The base of the history on which the next step is taken.
    pub(crate) fn next_base(&self) -> u64
        requires { IsState self.now }
        ensures value { result ≡ next_base self.now }
        ensures within { result ≤ last_base }
    {
        if self.count == MAX_MARKS {
            self.base + MAX_MARKS
        } else {
            self.base
        }
    }

    /// The moment of a step with this reading.
    pub(crate) fn moment_at(&self, reading: u64) -> u64
        requires { IsState self.now }
        ensures value { result ≡ moment_of self.now.moment reading }
        ensures within { result ≤ MAX_MOMENT }
        ensures later { self.now.moment ≤ result }
    {
        self.moment.max(reading.min(MAX_MOMENT))
    }

    /// The passphrase for a request, on the history on which the next step is taken.
    pub(crate) fn live(&self, id: &CacheId, mode: Mode, moment: u64) -> Option<Grant>
        ensures { Finds (next_slots self.now) id.now mode moment result }
    {
        if self.count == MAX_MARKS {
            return None;
        }
        self.shelf.find(id, mode, moment)
    }

    /// Begins the next history where this one is full.
    fn turn_over(&mut self)
        requires state { IsState self.old }
        requires going { next_base self.old < last_base }
        ensures limits { self.new.limits ≡ self.old.limits }
        ensures base { self.new.base ≡ next_base self.old }
        ensures count { self.new.count ≡ next_count self.old }
        ensures slots { self.new.shelf.slots ≡ next_slots self.old }
        ensures spare { self.old.shelf.spare ≤ self.new.shelf.spare }
        ensures seat { self.new.seat ≡ self.old.seat }
        ensures under { self.new.under ≡ self.old.under }
        ensures stopped { self.new.stopped ≡ self.old.stopped }
        ensures state { IsState self.new }
        ensures few { self.new.count < MAX_MARKS }
    {
        if self.count == MAX_MARKS {
            self.shelf.flush();
            self.base += MAX_MARKS;
            self.count = 0;
        }
    }

    /// Makes room for a mark, whose number it gives, and drops what is past a lifetime by then.
    pub(crate) fn begin(&mut self, moment: u64) -> u64
        requires { MayMark self.old moment }
        ensures number { result ≡ number_of self.old }
        ensures next { self.new.base + self.new.count ≡ result + 1 }
        ensures below { AreBelow result self.new.shelf.slots }
        ensures marked { HasMarkedAlone self.old moment self.new }
        ensures seat { self.new.seat ≡ self.old.seat }
        ensures under { self.new.under ≡ self.old.under }
        ensures spare { self.old.shelf.spare ≤ self.new.shelf.spare }
        ensures state { IsState self.new }
    {
        self.turn_over();
        self.shelf.sweep(moment);
        let number = self.base + self.count;
        self.count += 1;
        self.moment = moment;
        number
    }
}
