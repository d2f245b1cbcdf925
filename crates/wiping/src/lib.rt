//! Buffers whose bytes are overwritten with zeros when they are dropped, and calls that overwrite
//! bytes and the stack.
//!
//! Begin with [`Wiped`], or with [`wipe`] for bytes of one's own. `wipe` leaves zeros, and
//! `Wiped::clear` overwrites what it removes where it lies. A move leaves a copy, as in Rust, and
//! `drop` is given its value by a move. No proof says that wiped bytes are gone from the machine,
//! nor what [`wipe_stack`] overwrites. The clauses speak of lists of bytes, without definitions of
//! their own.
#![tactic(auto)]

mod buffer;
mod overwrite;

pub use buffer::Wiped;
pub use overwrite::{WIPED_STACK_LEN, wipe, wipe_stack};

#[cfg(test)]
mod tests;
