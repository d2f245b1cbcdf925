//! The commands on the agent's cache: a line of the client read as a request, or refused by a code,
//! and carried out and answered over any link, any desk and any prompter.
//!
//! Begin with [`LineRequest::of`] and [`run_cache`]. What a line asks for, or its first refusal, is
//! exactly its definition; a request is answered as its exchange says, takes the turns that its
//! command names and no others, and leaves no ticket out and no prompt open. Definitions begin in
//! `specs/Requests` and `specs/Exchanges`.
#![tactic(auto)]

mod command;
mod fields;
mod found;
mod get_line;
mod inquiry;
mod line_request;
mod passphrase;
mod read;
mod request;
mod response;
mod went;

pub use command::{run_cache, run_quiet};
pub use fields::MAX_REPEAT;
pub use line_request::LineRequest;
pub use read::read_request;
pub use request::{CacheCommand, Info, QuietRequest, Request, Texts};
pub use response::{went_after, write_help};
pub use went::{SessionEnd, Went};
