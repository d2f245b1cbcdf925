//! A client's connection to its server, as an agent has it to its pinentry: commands out, and for
//! each one answer in.
//!
//! Begin with [`Peer::new`], `hello` and [`Peer::command`]. Each call gives the one answer for the
//! server's bytes: an OK, with data or without, an error, an inquiry to reply to, or the breach
//! that the bytes show. What is written is exactly the command's line, or a prefix where the write
//! failed. Definitions begin in `specs/Answers`.
#![tactic(auto)]

mod answer;
mod data;
mod form;
mod peer;
mod tally;

pub use answer::{Answer, State};
pub use peer::{Peer, answers_are_the_only_ones};
