//! Private keys and the trust list in a home directory, as GnuPG keeps them: each key in a file
//! `private-keys-v1.d/GRIP.key`, named by its grip in uppercase hexadecimal digits (GnuPG's notes
//! on the key format, keyformat.txt), and the trust list in `trustlist.txt` (GnuPG manual, "Agent
//! Configuration").
//!
//! Begin with [`FolderKeys::new`] and [`FolderTrust::new`]. Names, order, lengths and counted
//! faults have clauses; no contract says what the files hold. A file is replaced as a whole: the
//! new one is written beside it, synced, and renamed into its place. That no other trust list is
//! replaced than the one that was read, and that no link is, is shown by tests. The definitions are
//! those of `agent_ports` (`specs/KeyFiles`, `TrustFiles`).
#![tactic(auto)]

mod fault;
mod files;
mod folder;
mod names;
mod trust;

pub use folder::FolderKeys;
pub use trust::{FolderTrust, TrustFound};
