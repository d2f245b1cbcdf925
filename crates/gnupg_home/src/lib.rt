//! The home folder of GnuPG: whose it has to be, where it and its agent's socket are, and what a
//! redirect file says.
//!
//! Begin with [`judge`], which is pure: its clauses say that a folder passes exactly where each
//! step up to the root does, and which step fails first. The walk over the file system around it,
//! the places and the texts are shown by tests. The definitions are in `specs/Ownership`.
#![tactic(auto)]

#[cfg(test)]
mod entries;
mod fault;
mod folders;
mod redirect;
mod rule;
mod socket_path;
#[cfg(test)]
mod tests;
mod there;
mod users;
mod walk;

pub use fault::HomeFault;
pub use folders::{absolute, gnupg_home, joined, own_folder, variable};
pub use redirect::{Redirect, named_socket};
pub use rule::{Breach, Part, Rule, Step, Users, judge};
pub use socket_path::{MAX_PATH, home_socket, socket_paths};
pub use there::if_there;
pub use walk::{OwnFile, check_home, check_program, own_file, real_path};
