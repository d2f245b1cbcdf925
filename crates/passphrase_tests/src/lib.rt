//! Tests of the command `passphrase` over agents in memory: its runs, each contact, and its words.
//!
//! They stand in a crate of their own since a crate with tests is proved twice. The expected texts
//! are those of the manual page.
#![tactic(auto)]

#[cfg(test)]
mod runs;
#[cfg(test)]
mod visits;
#[cfg(test)]
mod words;
