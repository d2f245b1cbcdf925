//! Private keys in files, protected by a passphrase, in the form of GnuPG's agent (GnuPG's notes on
//! the format of private keys, agent/keyformat.txt).
//!
//! Begin with [`unprotect`], or with [`key_of`], [`Locked::of`] and [`Locked::open`], which it is
//! in a row: the key exactly where the file opens by the passphrase to it, else the first fault.
//! What [`protect`] and [`protect_cbc`] write opens again. Definitions begin in `specs/Answers` and
//! `specs/Protection`.
#![tactic(auto)]

mod cipher;
mod laws;
mod locked;
mod parts;
mod protecting;
mod protection;
mod sealed;
mod secrets;
mod unlocked;

pub use laws::{one_answer, unprotect_is_three_calls};
pub use locked::{Locked, Opened};
pub use protecting::{protect, protect_cbc};
pub use unlocked::{Unlocked, key_of, unprotect};
