//! Key files in the extended format that GnuPG's agent writes: named items on lines, of which `Key`
//! has the key as an advanced S-expression (GnuPG's notes on the format of private keys,
//! agent/keyformat.txt).
//!
//! Begin with [`read_lines`]: the key and the bytes around its item, or the first fault with its
//! line or place. [`KeyLines::with_key`] is the file with that one item replaced and every other
//! byte the same, and is read again as that key ([`other_key_is_read`]). Definitions begin in
//! `specs/KeyFile`.
#![tactic(auto)]

mod checking;
mod fault;
mod forms;
mod item;
mod key_file;
mod key_text;
mod laws;
mod lines;

pub use fault::LinesFault;
pub use key_file::{KeyLines, read_lines};
pub use laws::{one_answer, other_key_is_read};
