//! The road of a passphrase, from the agent's cache or its prompt to the program that asked.
//!
//! Laws only: each function's contract is a fact about the definitions of the crates below. Begin
//! with [`a_run_is_told_what_its_session_answered`], which joins them: what the words mean
//! ([`a_task_says_what_its_words_mean`]), how the agent reads the command's line
//! ([`a_request_is_read_as_meant`]), what its session writes ([`a_session_serves_its_lines`]), how
//! that is read ([`a_passphrase_is_read`], [`an_error_is_read`]), and so what the dialogue is told
//! ([`a_request_for_a_passphrase_is_told_it`]). Definitions begin in `specs/Roads`.
#![tactic(auto)]

mod asking;
mod exchange;
mod joined;
mod options;
mod reading;
mod road;
mod said;
mod session;

pub use asking::{
    a_cancelled_probe_stores_nothing, a_change_is_read_as_meant, a_request_is_read_as_meant,
};
pub use exchange::a_request_for_a_passphrase_is_answered_so;
pub use joined::what_is_given_was_live_or_typed;
pub use options::{an_option_is_taken_or_refused, an_option_sets_what_it_says};
pub use reading::{a_passphrase_is_read, an_error_is_read};
pub use road::{a_request_for_a_passphrase_is_told_it, a_task_is_told_what_its_request_came_to};
pub use said::a_task_says_what_its_words_mean;
pub use session::{a_run_is_told_what_its_session_answered, a_session_serves_its_lines};
