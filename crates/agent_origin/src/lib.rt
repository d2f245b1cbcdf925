//! Sessions from bytes to bytes: their frame, over whatever answers their requests, and those that
//! came in by a door, with the commands on the agent's trust list.
//!
//! Begin with [`serve_door`]: a session's events lead its link, desk, prompter, keys, dice and
//! trust file from before to after, exactly. [`allowed`] goes by the rule of a line's command; a
//! session at the outer door leaves the cache as it is ([`an_outer_session_leaves_the_run`]), and
//! its prompts name no terminal ([`a_prompt_at_the_outer_door_names_no_terminal`]). [`read_trust`]
//! and [`run_trust`] read a request on the trust list and answer it, and a new list has two
//! consents ([`a_new_trust_file_has_two_consents`]). Definitions begin in `specs/Sessions` and
//! `specs/DoorSessions`.
#![tactic(auto)]

mod answering;
mod door;
mod door_session;
mod laws;
mod service;
mod session_state;
mod trust;

pub use door::{Door, allowed};
pub use door_session::serve_door;
pub use laws::{
    a_forbidden_line_does_nothing, a_new_trust_file_has_two_consents,
    a_prompt_at_the_outer_door_names_no_terminal, an_option_of_the_terminal_does_nothing_there,
    an_outer_session_leaves_the_cache, an_outer_session_leaves_the_run,
    the_outer_door_leaves_the_cache,
};
pub use service::serve;
pub use session_state::SessionState;
pub use trust::{MAX_NAME_LEN, OwnerName, TrustPurpose, TrustRequest, read_trust, run_trust};
