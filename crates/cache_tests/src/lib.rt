//! Tests of the cache: its policy, its shelves, its core beside a plain program, and both locks
//! over threads.
//!
//! They stand in a crate of their own since a crate with tests is proved twice.
#![tactic(auto)]

#[cfg(test)]
mod cache_core;
#[cfg(test)]
mod counted;
#[cfg(test)]
mod journal;
#[cfg(test)]
mod plain_book;
#[cfg(test)]
mod plain_policy;
#[cfg(test)]
mod policy;
#[cfg(test)]
mod shelves;
#[cfg(test)]
mod solo;
#[cfg(test)]
mod waits;
