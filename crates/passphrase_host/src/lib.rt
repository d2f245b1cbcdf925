//! The machine's side of `passphrase`: which agent is asked, where its socket is, the connection to
//! it, the terminal, and the guard of a prompt.
//!
//! Begin with [`SystemConnector::new`]. It keeps the promise of its trait in `passphrase_talk`, and
//! leaves the contents of its links unknown: faults are counted, by clauses; the rest is shown by
//! tests, here and of the built program (`tools/passphrase-cases`). The definitions are those of
//! `passphrase_talk` (`specs/Contacts`) and `agent_ports`.
#![tactic(auto)]

mod asked;
mod connector;
mod failure;
mod guard;
mod link;
mod patience;
mod process_state;
mod reach;
mod set_up;
mod starting;
mod terminal;
mod wire;

pub use connector::SystemConnector;
pub use link::AgentLink;
