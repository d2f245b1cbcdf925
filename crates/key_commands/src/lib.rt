//! The commands on the agent's key files: a line of the client read as a request, or refused by a
//! code, and carried out and answered over any link, any desk, any prompter, any keys and any dice.
//!
//! Begin with [`read_key`] and [`run_key`]. A line's request is exactly its definition; it is done
//! action by action as its exchange says, each action once the one before it came to a value, and leaves
//! no ticket out and no prompt open. [`WrapKeys`] are what a session keeps for it. Definitions
//! begin in `specs/Requests` and `specs/Exchanges`.
#![tactic(auto)]

mod asking;
mod consent;
mod delete_key;
mod drawing;
mod export_key;
mod faults;
mod files;
mod grips;
mod have_key;
mod import_key;
mod inquiries;
mod key_calls;
mod key_info;
mod keywrap_key;
mod new;
mod nonces;
mod old;
mod opened;
mod passwd;
mod prompting;
mod protecting;
mod receiving;
mod reply;
mod request;
mod run;
mod texts;
mod turns;
mod went;
mod wrapping;

pub use drawing::Drawn;
pub use grips::{Grips, MAX_GRIPS};
pub use keywrap_key::WrapKeys;
pub use request::{Direction, KeyRequest, read_key, read_key_cut};
pub use run::run_key;
pub use went::KeyWent;
pub use wrapping::MAX_LIST_LEN;
