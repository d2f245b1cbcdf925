//! The advanced form of S-expressions, in which GnuPG's agent writes the keys of its extended key
//! files: the advanced transport representation of Rivest's "S-Expressions" (1997;
//! draft-rivest-sexp) in tokens, hexadecimal, quoted texts and canonical atoms, without display
//! hints and base 64.
//!
//! Begin with [`read_advanced`]: a tree and a length exactly where the text begins with blanks and
//! that expression, else the first fault from the left with its place. What [`write_advanced`]
//! writes is read as the same tree ([`written_is_read`]). Definitions begin in `specs/Reading`, the
//! standard's grammar in `specs/Grammar`.
#![tactic(auto)]

mod bytes;
mod fault;
mod laws;
mod pieces;
mod reading;
mod signs;
mod writing;

pub use fault::AdvFault;
pub use laws::{
    atoms_are_spelled, first_faults_stay, one_answer, what_follows_does_not_matter, written_is_read,
};
pub use reading::read_advanced;
pub use writing::write_advanced;
