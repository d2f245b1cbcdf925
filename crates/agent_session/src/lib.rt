//! Laws of sessions: why a request is answered by an error, what stands behind one, and whose a
//! passphrase is; and a session on standard input and output, of which they hold.
//!
//! Begin with the laws on answers: each error has its cause ([`each_error_has_its_cause`]), mostly
//! exactly where that stands ([`each_cause_has_its_error`]), and without one there is an answer
//! ([`a_session_without_faults_is_answered`]). A law that holds at a door too says so by a second
//! clause. All but [`serve_session`], whose loop is in `agent_origin` (`serve`), has no code that
//! runs. Definitions begin in `specs/Causes`, those of a session in `specs/Sessions`.
#![tactic(auto)]

mod completeness;
mod exactly;
mod laws;
mod own_passphrases;
mod refusals;
mod session;

pub use completeness::{
    a_session_without_faults_is_answered, each_error_has_its_cause, each_failure_is_counted,
    failures_at_the_link_are_counted, failures_raise_counts,
    requests_without_a_prompt_are_answered, without_a_cause_the_answer_is_ok,
};
pub use exactly::{
    a_line_that_ends_a_session_is_answered, a_line_that_is_too_long_ends_its_session,
    each_cause_has_its_error,
};
pub use laws::{a_session_extends_a_run, an_exchange_at_a_door_is_a_sessions};
pub use own_passphrases::{
    a_session_stores_its_requests_own, each_passphrase_is_written_to_its_request,
    each_request_stores_its_own, no_passphrase_is_written_for_a_request_on_keys,
};
pub use refusals::{
    a_call_of_the_trust_file_decides_its_request, a_prompt_is_opened_first,
    a_refused_request_does_nothing_more, a_refused_turn_leaves_the_desk,
    a_session_goes_on_after_an_error, an_import_stores_with_its_file,
    each_request_takes_its_course, requests_on_the_cache_alone_want_no_memory,
};
pub use session::serve_session;
