//! The cache core under one lock, with a journal of what was done. Four ledgers tie the counts of
//! those who took turns to the journal's.
//!
//! Begin with [`Shared`] and its desks, [`SharedDesk`]; the full clauses stand on [`Locked`], since
//! a lock shows nothing of what it holds. Each step that makes a mark has its trace in the journal,
//! which is legal, and at the end the passes' counts sum up to the journal's. When a turn comes no
//! clause says. Definitions begin in `specs/Attempts` and `specs/Journals`.
#![tactic(auto)]

mod books;
mod locked;
mod pass;
mod shared;
mod shared_desk;
mod state;

pub use books::Books;
pub use locked::Locked;
pub use pass::{Counts, Marks, Pass};
pub use shared::{Blanks, Closing, Shared};
pub use shared_desk::SharedDesk;
