//! The live entries of the cache: which of them are kept, and which request each of them still
//! serves.
//!
//! [`Shelf`] is what the cache core stands on. [`ListShelf`] is the plain one that meets it, and
//! [`SlotShelf`] the one with its slots in order. Each call is said on the whole list of slots, so
//! one shelf is like another to its caller. Definitions begin in `specs/Slots`.
#![tactic(auto)]

mod boxed_slot;
mod deadlines;
mod guide;
mod id_hash;
mod laws;
mod list_shelf;
mod modes;
mod packed;
mod packed_slot;
mod passphrase;
mod search;
mod shelf;
mod slot;
mod slot_shelf;

pub use laws::slots_of_a_history;
pub use list_shelf::ListShelf;
pub use modes::Modes;
pub use shelf::Shelf;
pub use slot::Slot;
pub use slot_shelf::SlotShelf;
