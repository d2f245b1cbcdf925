//! One contact of a client with an agent: a connection, the terminal's options, one request, and
//! what the agent answers.
//!
//! Begin with [`visit`]: what it tells is what the agent's bytes come to, and nothing is written
//! but the dialogue's lines. A [`Connector`] finds the agents and connects to them. Definitions
//! begin in `specs/Visits`, the dialogue's rule in `specs/Dialogues`.
#![tactic(auto)]

mod connector;
mod dialogue;
mod laws;
mod mem_connector;
mod options;
mod told;
mod visits;

pub use connector::{Agents, Connector, Place, Unmet, Waits};
pub use laws::{a_passphrase_is_the_reply, a_visit_has_one_outcome};
pub use mem_connector::{MemConnector, MemContact, MemMeeting, MemSought};
pub use told::{Loss, Told};
pub use visits::{BUDGET, visit};
