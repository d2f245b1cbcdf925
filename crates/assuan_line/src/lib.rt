//! Lines of the Assuan protocol: read from bytes in whatever pieces they come, and written whole.
//!
//! Begin with [`LineReader::next`]: the next line of the bytes, however they are split into reads,
//! or why there is none, each with its cause. It takes at most 4,096 bytes more than it needed, and
//! loses none. [`write_line`] writes a line whole, or a prefix where the write failed. Definitions
//! begin in `specs/Next`.
#![tactic(auto)]

mod breach;
mod buffer;
mod filter;
mod line;
mod reader;
mod text;
mod writer;

pub use breach::Breach;
pub use buffer::{MAX_AHEAD, MAX_UNDECIDED};
pub use filter::{LineFilter, next_after_skipped};
pub use line::Line;
pub use reader::{BUDGET, LineReader, Took, lines_come_in_order};
pub use text::write_text;
pub use writer::write_line;
