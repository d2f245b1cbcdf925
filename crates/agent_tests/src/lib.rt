//! Tests of sessions: what a prompt is asked and answers, requests read, and whole sessions and
//! runs of the agent from bytes to bytes.
//!
//! They stand in a crate of their own since a crate with tests is proved twice.
#![tactic(auto)]

#[cfg(test)]
mod asking;
#[cfg(test)]
mod dialogues;
#[cfg(test)]
mod doors;
#[cfg(test)]
mod faults;
#[cfg(test)]
mod filled_keys;
#[cfg(test)]
mod key_children;
#[cfg(test)]
mod key_faults;
#[cfg(test)]
mod key_files;
#[cfg(test)]
mod key_questions;
#[cfg(test)]
mod key_sessions;
#[cfg(test)]
mod key_waits;
#[cfg(test)]
mod keys;
#[cfg(test)]
mod large_keys;
#[cfg(test)]
mod options;
#[cfg(test)]
mod pinentry;
#[cfg(test)]
mod prompts;
#[cfg(test)]
mod requests;
#[cfg(test)]
mod rows;
#[cfg(test)]
mod script;
#[cfg(test)]
mod sessions;
#[cfg(test)]
mod words;
