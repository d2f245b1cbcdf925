//! A Unix socket in a folder as a listener: each client is a link.
//!
//! Begin with [`SocketListener::bind`]. Faults are counted, by clauses; whose the folder is, the
//! modes of folder and socket, how long a client may keep a worker waiting, how a stop wakes the
//! workers, what workers look for that nobody asks ([`SocketListener::watch`]), and which faults of
//! accept pass are shown by tests. The definitions are those of `agent_ports` (`specs/Listening`).
#![tactic(auto)]

mod accepting;
mod fault;
mod listener;
mod looking;
mod path;

pub use fault::BindFault;
pub use listener::{SocketEar, SocketLink, SocketListener};
pub use looking::{Looks, SocketFile};
pub use path::SocketName;

#[cfg(test)]
mod tests;
