//! The forms of the outside in memory, for tests and a load: each shows its contents, and fails at
//! the calls that a plan names. They touch nothing but themselves; begin with `host`.

pub(crate) mod clock;
pub(crate) mod conf;
pub(crate) mod dice;
pub(crate) mod host;
pub(crate) mod keys;
pub(crate) mod launcher;
pub(crate) mod link;
pub(crate) mod listener;
pub(crate) mod trust;
