//! The cache core, at which threads take turns by tickets, and one word that counts the marks of
//! its run. Each turn's passphrase and reply are tied to that one run.
//!
//! Begin with [`Counted::new`], and a [`CountedDesk`] for each session. Over any interleaving of
//! threads each turn's mark is the last one of what its pass has then seen of one legal run, and
//! [`Counted::close`] gives that run's tally: each mark of it is exactly one pass's. When a turn
//! comes no clause says. Definitions begin in `specs/Turns`.
#![tactic(auto)]

mod board;
mod counted;
mod desk;
mod monitor;
mod pass;
mod plays;
mod settle;
mod steps;
mod trial;
mod turn;

pub use counted::Counted;
pub use desk::CountedDesk;
pub use pass::CountedPass;
