//! What every reader of the lines of an Assuan server or client reads alike: blanks, words and
//! options, the forms of lines, numbers of decimal digits, and names in a table. No call takes
//! memory.
//!
//! Begin with [`command_and_rest`] and [`next_word`]. Each call is its definition, exactly. They
//! begin in `specs/Forms` and `specs/Words`.
#![tactic(auto)]

mod blanks;
mod forms;
mod numbers;
mod options;
mod rows;
mod words;

use arrayvec::ArrayVec;

/// How many bytes a line holds at most, without its end (Assuan manual, "client requests").
pub const MAX_LINE_LEN: usize = 1000;

/// What a line can hold.
pub type Text = ArrayVec<u8, MAX_LINE_LEN>;

pub use blanks::{is_blank, without_blanks};
pub use forms::{escaped_part, is_idle, is_ignored};
pub use numbers::number_of;
pub use options::{arguments, has_option, last_option, last_value};
pub use rows::{found, found_in_any_case, has_pair};
pub use words::{command_and_rest, first_word, next_word};
