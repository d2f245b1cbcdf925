//! The client of a session, as every command has to do with it: it is asked on its connection, and
//! gives what is wanted or something in its place.
//!
//! Begin with [`Client`], which a server's connection is (`assuan_server`). What a client gives in
//! place of an answer is an [`ClientError`], and whatever it answers leaves the connection as its
//! promise says. A request that isn't carried out has a [`Refusal`], mostly by a [`Code`]. Types
//! and definitions, for all layers above; these begin in `specs/Asking`, `specs/Refusals`.
#![tactic(auto)]

mod client;
mod client_error;
mod code;
mod refusal;

pub use client::{Client, MAX_NOTE_LEN};
pub use client_error::{ClientError, Gone};
pub use code::Code;
pub use refusal::Refusal;
