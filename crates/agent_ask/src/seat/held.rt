//! The ticket (permit) that a request may hold, as a place from which none gets lost: a `Held`
//! can't be dropped, and `end` takes only an empty one. It calls nothing and takes no memory. Begin
//! with `Held`; its contracts speak of the ticket's number, or of none.

ghost use Rattle.std.specs.Prelude.{◌≡◌, None, Some, IsSome, is_some};

use prompt_seat::Ticket;
use std::marker::Model;

/// The ticket that a request holds, where it holds one. Contracts see its number.
pub struct Held {
    ticket: Option<Ticket>,
}

impl Model for Held {
    ghost use Rattle.std.specs.Prelude.{ℕ, Option};

    ghost Value = { Option ℕ };

    ghost view = { λ held. held.ticket };
}

impl Held {
    /// No ticket.
    pub fn new() -> Held
        ensures { result ≡ None }
    {
        Held { ticket: None }
    }

    /// Nothing is left to be given back.
    pub fn end(self)
        requires { self ≡ None }
    {
        let Held { ticket } = self;
        match ticket {
            None => {}
            Some(_) => unreachable!(),
        }
    }

    /// Keeps a ticket, where none is held.
    pub fn put(&mut self, ticket: Ticket)
        requires { self.old ≡ None }
        ensures { self.new ≡ Some ticket }
    {
        match self.ticket.replace(ticket) {
            None => {}
            Some(_) => unreachable!(),
        }
    }

    /// Hands the ticket out.
    pub fn take(&mut self) -> Option<Ticket>
        ensures taken { result ≡ self.old }
        ensures none { self.new ≡ None }
    {
        self.ticket.take()
    }

    pub fn is_held(&self) -> bool
        ensures { result ≡ is_some self.now }
    {
        self.ticket.is_some()
    }

    /// The ticket, of a request that holds one.
    pub fn ticket(&self) -> &Ticket
        requires { IsSome self.now }
        ensures { Some result.now ≡ self.now }
    {
        self.ticket.as_ref().unwrap()
    }
}
