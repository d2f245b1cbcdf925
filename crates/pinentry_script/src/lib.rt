//! A pinentry without a user: it answers each prompt as the lines of a file say (pinentry manual,
//! "protocol").
//!
//! Begin with [`run_script`]: what is written is what the file and the client's lines say, whole or
//! cut within the last answer, and the status is that of how the session ended ([`ScriptEnd`]). A
//! file that is no script is refused, and nothing is read or written. Definitions begin in
//! `specs/Sessions`, the lines of a file in `specs/Entries`.
#![tactic(auto)]

mod end;
mod entries;
mod response;
mod run;
mod session;

pub use end::ScriptEnd;
pub use entries::MAX_ENTRY_LEN;
pub use run::{BAD_SCRIPT, run_script};
