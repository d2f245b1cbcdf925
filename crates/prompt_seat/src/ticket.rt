//! A ticket (permit): the right to prompt, which has to be given back, since it can't be dropped.
//! Plain data. Begin with `Ticket::number`; only `Seat::take` makes one, and only `Seat::give` ends
//! one.

ghost use Rattle.std.specs.Prelude.{◌≡◌};

use std::marker::Model;

/// The right to prompt. Contracts see its number.
///
/// A ticket can't be dropped, copied or made outside this crate: whoever was given one gives it
/// back to a seat.
pub struct Ticket {
    number: u64,
}

impl Model for Ticket {
    ghost use Rattle.std.specs.Prelude.{ℕ};

    ghost Value = { ℕ };

    ghost view = { λ ticket. ticket.number };
}

impl Ticket {
    pub(crate) fn new(number: u64) -> Ticket
        ensures { result ≡ number }
    {
        Ticket { number }
    }

    /// The number by which it was taken, and frees the seat.
    pub fn number(&self) -> u64
        ensures { result ≡ self.now }
    {
        self.number
    }

    /// Ends the ticket, and gives its number.
    pub(crate) fn into_number(self) -> u64
        ensures { result ≡ self }
    {
        let Ticket { number } = self;
        number
    }
}
