//! Sessions over links, each at a pass of the counted lock, and workers that serve links until no
//! more come.
//!
//! Begin with [`serve_one`]: a session at a pass does to its link and its pinentry what a session
//! alone does, and its turns are its pass's in the one run. [`run_workers`] gives all passes back,
//! each led on by its worker's sessions alone. Definitions begin in `specs/Serves` and
//! `specs/Working`.
#![tactic(auto)]

mod arrivals;
mod each;
mod gated;
mod laws;
mod serving;
mod shared;
mod views;
mod workers;

pub use gated::GatedPrompter;
pub use laws::{
    a_restricted_session_leaves_the_run, a_restricted_session_names_no_terminal,
    a_worker_ends_for_a_cause, prompts_of_a_daemons_session_have_their_children,
    the_calls_of_a_session_are_prompts,
};
pub use serving::serve_one;
pub use shared::SharedHost;
pub use views::ViewedHost;
pub use workers::run_workers;
