//! Canonical S-expressions, the form in which libgcrypt and GnuPG's agent write keys: the canonical
//! representation of Rivest's "S-Expressions" (1997), without display hints.
//!
//! Begin with [`read`]: a tree and a length exactly where the bytes begin with its spelling, within
//! [`MAX_BYTES`] bytes and [`MAX_DEPTH`] open lists, else the first fault from the left with its
//! place. [`write`] gives the spelling of every tree, and [`spelled_len`] its length alone.
//! Definitions begin in `specs/Spelling` and `specs/Reading`.
#![tactic(auto)]

mod bytes;
mod copying;
mod fault;
mod laws;
mod measuring;
mod reading;
mod tree;
mod writing;

pub use bytes::Bytes;
pub use fault::SexpFault;
pub use laws::{
    lists_are_their_items, no_spelling_begins_another, numerals_are_decimal, one_answer,
};
pub use measuring::{atom_len, items_len, spelled_len};
pub use reading::read;
pub use tree::{Items, Sexp};
pub use writing::{append, append_all, append_atom, append_list, write};

/// The most bytes that an expression may have where it is read. No atom of more bytes is begun
/// either.
pub const MAX_BYTES: usize = 65_536;

/// The most lists that may be open at one place of an expression where it is read.
pub const MAX_DEPTH: usize = 64;
