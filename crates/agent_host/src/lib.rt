//! The agent's host on this system: the clock, child programs, random bytes, the folder's key files
//! and trust list, and its two sockets.
//!
//! Begin with [`SystemHost::new`], and for the users' own agent with [`SystemHost::of_users`], which
//! looks after its sockets and has the time before the lines that it says. Each part keeps the promise of its trait in `agent_ports`, and
//! leaves its contents unknown: faults are counted, by clauses; the rest is shown by tests, here
//! and of the built program (`tools/statuses`, `tools/with-gnupg`). The definitions are those of
//! `agent_ports` (`specs/HostParts`, `Launches`, `Counts`).
#![tactic(auto)]

mod child;
mod clock;
mod dice;
mod faults;
mod guard;
mod host;
mod keys;
mod launcher;
mod log;
mod no_folder;
mod patience;
#[cfg(test)]
mod scripts;
mod terminal;
mod told;
mod trust;

pub use child::PipedChild;
pub use clock::SystemClock;
pub use dice::SystemDice;
pub use host::{SystemHost, SystemParts};
pub use keys::SystemKeys;
pub use launcher::PipeLauncher;
pub use log::{Log, Stamp};
pub use trust::SystemTrust;
pub use unix_socket::Looks;
