//! The seat (the prompt's lock): the number of the ticket (permit) that is out, if one is. A value
//! of its owner's, the cache core, at which nobody waits. Begin with `Seat::take` and `Seat::give`,
//! whose clauses say all of it.

ghost use Rattle.std.specs.Prelude.{◌≡◌, ◌↔◌, None, Some, IsNone, IsSome, IfSome, IsTrue};
ghost use Rattle.std.specs.Bool.{OnTrue, OnFalse};

use crate::Ticket;
use std::marker::Model;

/// Where a prompt is made, for one session at a time. Contracts see the number of the ticket that
/// is out.
#[derive(Drop)]
pub struct Seat {
    holder: Option<u64>,
}

impl Model for Seat {
    ghost use Rattle.std.specs.Prelude.{ℕ, Option};

    ghost Value = { Option ℕ };

    ghost view = { λ seat. seat.holder };
}

impl Seat {
    /// A seat whose ticket isn't out.
    pub fn new() -> Seat
        ensures { result ≡ None }
    {
        Seat { holder: None }
    }

    /// Gives a ticket of this number. `None` where one is out.
    pub fn take(&mut self, number: u64) -> Option<Ticket>
        ensures none { IsNone result ↔ IsSome self.old }
        ensures ticket { IfSome result (λ ticket. (ticket ≡ number) × (self.new ≡ Some number)) }
        ensures held { IsNone result → self.new ≡ self.old }
    {
        if self.holder.is_some() {
            return None;
        }
        self.holder = Some(number);
        Some(Ticket::new(number))
    }

    /// Takes a ticket back. It frees the seat, and says so, where its number is that of the ticket
    /// that is out. Any other ticket ends here too, and changes nothing.
    pub fn give(&mut self, ticket: Ticket) -> bool
        ensures freed { IsTrue result ↔ (self.old ≡ Some ticket) }
        ensures free { OnTrue result (self.new ≡ None) }
        ensures held { OnFalse result (self.new ≡ self.old) }
    {
        let frees = self.holder == Some(ticket.into_number());
        if frees {
            self.holder = None;
        }
        frees
    }

    /// The number of the ticket that is out.
    pub fn holder(&self) -> Option<u64>
        ensures { result ≡ self.now }
    {
        self.holder
    }
}
