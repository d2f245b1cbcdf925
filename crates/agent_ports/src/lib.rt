//! What the agent asks of the outside: bytes in and out, child programs, the time of day, random
//! bytes, key files, files of options, and the machine that has them.
//!
//! Begin with [`Source`], [`Sink`] and [`Host`], and for tests with [`MemLink`] and [`MemHost`].
//! Each trait has its contents, which an implementation shows or doesn't, and counts that never
//! fall: an answer that something failed comes only where its count rose in that call. The forms in
//! memory show their contents, and fail at the calls that a test names. Definitions begin in
//! `specs/Sides` and `specs/Counts`.
#![tactic(auto)]

mod clock;
mod conf;
mod dice;
mod fault_plan;
mod gate;
mod grip;
mod homedir;
mod host;
mod keys;
mod launcher;
mod lent_clock;
mod link;
mod listener;
mod mem;
mod session;
mod trust;

pub use clock::Clock;
pub use conf::{ConfFiles, ConfRead, MAX_CONF_LEN};
pub use dice::Dice;
pub use gate::{Gate, GatePoint, HoldGate, NoGate};
pub use grip::Grip;
pub use homedir::{Homedir, MAX_HOMEDIR_LEN};
pub use host::{Host, Parts};
pub use keys::{KeyDone, KeyNames, KeyRead, Keys, MAX_KEY_FILE_LEN};
pub use launcher::Launcher;
pub use lent_clock::LentClock;
pub use link::{Got, Link, Sent, Sink, Source, WriteFault};
pub use listener::{Ear, Listener, Next};
pub use mem::clock::{ListClock, StepClock};
pub use mem::conf::MemConf;
pub use mem::dice::ListDice;
pub use mem::host::{MemHost, MemParts};
pub use mem::keys::MapKeys;
pub use mem::launcher::{MemChild, MemLauncher, PlannedChild};
pub use mem::link::{MemLink, MemSink, MemSource, PlannedLink};
pub use mem::listener::{ListListener, ListedLinks, MemEar};
pub use mem::trust::MemTrust;
pub use session::SessionId;
pub use trust::{TrustDone, TrustFile, TrustRead};
