//! The seat before the prompt: one ticket at a time, which must be given back.
//!
//! Begin with [`Seat::take`] and [`Seat::give`]. A ticket is given exactly while none is out, and
//! frees the seat exactly by its number. It can't be dropped, so whoever has one has to give it
//! back. The clauses need no definitions.
#![tactic(auto)]

mod seat;
mod ticket;

pub use seat::Seat;
pub use ticket::Ticket;

#[cfg(test)]
mod tests;
