//! Bytes as one line of the Assuan protocol can hold them: escaped, and as hexadecimal digits. No
//! call takes memory.
//!
//! Begin with [`full_line`], the first of the data lines of some bytes, which the others complete:
//! there is one such list ([`data_lines_are_the_only_ones`]). What [`escape_into`] writes is read
//! back by [`unescape`] ([`escapes_are_undone`]). Definitions begin in `specs/DataLines`.
#![tactic(auto)]

mod data_lines;
mod escaping;
mod hexadecimal;
mod unescaping;

pub use data_lines::{data_lines_are_the_only_ones, data_of, full_line};
pub use escaping::{escape_into, escapes_are_undone};
pub use hexadecimal::upper_hex;
pub use unescaping::unescape;
