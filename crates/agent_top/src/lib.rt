//! The agent from bytes to bytes: it reads its words, and serves a session on standard input and
//! output or many on a socket.
//!
//! Begin with [`run_agent`], whose four clauses are the release guarantee (`docs/PROOFS.md` reads
//! them): words that are refused, a server, a daemon, a load. [`read_words`] gives exactly the
//! rules that the words mean, or none. [`run_gpg_agent`] is the agent in gpg-agent's place: its
//! clause begins at the bytes of `gpg-agent.conf`. Definitions begin in `specs/Top`,
//! `specs/Daemon`, `specs/Words` and `specs/GpgAgent`.
#![tactic(auto)]

mod completeness;
mod daemon;
mod gpg_agent;
mod lawful;
mod load;
mod own_passphrases;
mod runs;
mod status;
mod top;
mod words;

pub use completeness::{
    a_daemon_wants_no_memory_for_the_cache_alone, a_daemon_without_faults_ends_well,
    a_load_without_faults_ends_well, a_server_without_faults_ends_well,
    a_server_without_faults_is_answered, a_session_of_a_daemon_without_faults_is_answered,
    each_error_of_a_daemon_has_its_cause, each_error_of_a_server_has_its_cause,
};
pub use daemon::run_daemon;
pub use gpg_agent::{Options, StartPlace, Starter, read_options, run_gpg_agent};
pub use lawful::{run_lawful_daemon, run_lawful_load, run_lawful_server};
pub use load::run_load;
pub use own_passphrases::{a_daemon_stores_its_sessions_own, a_session_of_a_daemon_stores_its_own};
pub use runs::{
    each_request_of_a_daemon_is_lawful, each_request_of_a_server_is_lawful,
    prompts_of_a_server_have_their_children,
};
pub use status::Status;
pub use top::{run_agent, run_server};
pub use words::{WordsFault, read_words, words_are_read_as_spelled};
