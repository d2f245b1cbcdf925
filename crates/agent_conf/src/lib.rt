//! The options of gpg-agent as text, on the command line and in `gpg-agent.conf`, and the rules
//! that they mean for an agent.
//!
//! Begin with [`read_start`]: each lifetime and limit of its rules is the one that counts of the
//! words and the two files, or the nearest on the stricter side ([`nothing_laxer_is_kept`],
//! [`what_counts_is_kept`]). What can't be kept so refuses the start, and all is told, in order.
//! [`read_places`] says which folder and file are meant, before a file is read. Definitions begin
//! in `specs/Lines` and `specs/Settled`, the table of options in `specs/Table`, and what becomes of
//! a setting in `specs/Verdicts`.
#![tactic(auto)]

mod laws;
mod lines;
mod numbers;
mod paths;
mod places;
mod rules;
mod setting;
mod settings;
mod settled;
mod start;
mod table;
mod telling;
mod told;
mod verdict;
mod words;

use arrayvec::ArrayVec;

/// How many bytes a path has at most.
pub const MAX_PATH_LEN: usize = 200;

/// A path that the agent can keep.
pub type Path = ArrayVec<u8, MAX_PATH_LEN>;

pub use laws::{nothing_laxer_is_kept, what_counts_is_kept};
pub use numbers::{Range, kept_in};
pub use paths::Folders;
pub use places::{ConfFile, Environment, Places, read_places};
pub use rules::{Mode, PROMPT_SECONDS};
pub use setting::{Place, Setting};
pub use start::{CALIBRATION, Start, StartFault, read_start};
pub use table::{Row, Takes, Unkept, row_of};
pub use telling::{printable_text, told_text};
pub use told::Told;
pub use verdict::{Passed, Refusal, Verdict};

#[cfg(test)]
mod tests;
