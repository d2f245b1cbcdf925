//! What a start of the users' agent has to do with the machine: the home folder and its lock, the
//! files of options, what is measured and asked once and kept, GnuPG's own program, and to whom
//! something is said.
//!
//! Begin with [`enter`], [`lock`] and [`Sockets`]. [`SystemConf`] keeps the promise of `ConfFiles`
//! (`agent_ports`), and [`measured_count`] gives a count that is one; the rest is shown by tests,
//! here and of the built program (`tools/daemon-cases`). There are no definitions.
#![tactic(auto)]

mod answers;
mod conf;
mod count;
mod fault;
mod gnupg;
mod home;
mod inherited;
mod kept;
mod log;
mod network;
mod options;
mod reach;
mod saying;
mod standard;
mod version;

pub use answers::reason;
pub use conf::{HomeConf, MACHINE_CONF, SystemConf};
pub use count::measured_count;
pub use fault::{Fault, said};
pub use gnupg::{answer, is_asked};
pub use home::{Sockets, check, enter, make_keys_folder};
pub use inherited::{CoreDumps, core_dumps, ignores_ends};
pub use log::{cut, lock, log_path, open_log};
pub use network::network_kind;
pub use options::write_options;
pub use reach::{Found, found_at};
pub use saying::{Lines, Voice};
pub use standard::{Standard, fill_standard};
pub use version::installed_version;

#[cfg(test)]
mod tests;
