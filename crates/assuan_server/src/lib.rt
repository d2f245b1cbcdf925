//! One connection of a server to its client: the lines that it writes, the requests that it reads,
//! and inquiries.
//!
//! Begin with [`Conn::new`], `greet` and [`Conn::next_request`]. A call that writes puts exactly
//! its lines, or a prefix where a write failed; one that reads gives the one request, or the one
//! outcome of an inquiry, that the client's lines come to. [`Code`] has the errors. Definitions
//! begin in `specs/Connections` and `specs/Inquiries`.
#![tactic(auto)]

mod client;
mod conn;
mod data;
mod errors;
mod inquiry;
mod request;

pub use conn::Conn;
pub use errors::Origin;
pub use inquiry::{Dropped, Inquired, InquiredSecret, inquiries_come_to_one_outcome};
pub use request::requests_are_the_only_ones;
pub use session_client::Code;
