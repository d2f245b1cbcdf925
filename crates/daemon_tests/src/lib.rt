//! Tests of the daemon, of its workers at the counted lock, and of a load: the programs that serve
//! many sessions.
//!
//! They stand apart from those of single sessions since a load, with its checks, takes minutes.
#![tactic(auto)]

#[cfg(test)]
mod daemon;
#[cfg(test)]
mod load;
#[cfg(test)]
mod serving;
