//! Private keys as canonical S-expressions, clear or protected, in the form of the files of GnuPG's
//! agent (GnuPG's notes on the format of private keys, agent/keyformat.txt): their parts, and the
//! lists by which they are named and sent.
//!
//! Begin with [`KeyList::of`]: the key that an expression is, or the first fault in the order of
//! the format. The key's lists and its grip are exact. Definitions begin in `specs/Key` and
//! `specs/Faults`.
#![tactic(auto)]

mod algorithm;
mod fault;
mod key_list;
mod laws;
mod names;
mod parameters;
mod spelled;

pub use algorithm::Algorithm;
pub use fault::KeyFault;
pub use key_list::KeyList;
pub use laws::one_answer;
