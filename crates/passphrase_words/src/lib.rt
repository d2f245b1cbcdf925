//! The words of `passphrase`: what a command line asks for, and the requests of it to an agent.
//!
//! Begin with [`read_words`]: it gives exactly what the words are read as, and a fault exactly where
//! they are nothing. [`Task::line`] gives each request. Definitions begin in `specs/Words` and
//! `specs/Requests`.
#![tactic(auto)]

mod fault;
mod ids;
mod laws;
mod options;
mod questions;
mod request;
mod rules;
mod settings;
mod task;
mod texts;
mod words;

pub use fault::{Pieces, WordsFault};
pub use laws::{a_command_line_is_read_one_way, a_command_line_is_refused_one_way};
pub use request::Request;
pub use task::{Act, MAX_ID_LEN, Task};
pub use words::{USAGE, Wanted, read_askpass, read_words};
