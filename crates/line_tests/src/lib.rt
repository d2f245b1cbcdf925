//! Tests of what stands lowest: the outside in memory, lines in any pieces, both sides of the
//! protocol, and the scripted child.
//!
//! They stand in a crate of their own since a crate with tests is proved twice.
#![tactic(auto)]

#[cfg(test)]
mod client;
#[cfg(test)]
mod escapes;
#[cfg(test)]
mod filter;
#[cfg(test)]
mod lines;
#[cfg(test)]
mod ports;
#[cfg(test)]
mod script;
#[cfg(test)]
mod server;
#[cfg(test)]
mod texts;
