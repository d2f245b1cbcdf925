//! The command `passphrase`: from the user's words to the line that it prints.
//!
//! Begin with [`run_passphrase`]. Its clause says what a run is (`specs/Runs`): the words' steps at
//! the agents that answer (`specs/Steps`), what each reply makes of them (`specs/Verdicts`), and
//! what the run's end writes, with its status (`specs/Endings`). A passphrase is written only where
//! an agent's reply to the last request was it.
#![tactic(auto)]

mod course;
mod ending;
mod input;
mod laws;
mod message;
mod run;
mod steps;
mod verdict;

pub use ending::{Cause, Ending, Lifetime};
pub use input::InputFault;
pub use laws::{
    a_quiet_act_asks_nobody, each_failure_is_counted, what_is_done_was_answered,
    what_is_given_was_answered, what_is_refused_has_its_reply,
    without_a_passphrase_nothing_is_written,
};
pub use run::{VERSION, run_askpass, run_passphrase};
pub use steps::Step;
