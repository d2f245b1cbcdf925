//! Tests of key files and what opens them: outside vectors of the cipher and its modes,
//! expressions, lists of a key, whole files, and the trust list.
//!
//! They stand in a crate of their own since a crate with tests is proved twice.
#![tactic(auto)]

#[cfg(test)]
mod advanced;
#[cfg(test)]
mod beside;
#[cfg(test)]
mod blocks;
#[cfg(test)]
mod derivation;
#[cfg(test)]
mod expressions;
#[cfg(test)]
mod extended;
#[cfg(test)]
mod files;
#[cfg(test)]
mod folded;
#[cfg(test)]
mod folder;
#[cfg(test)]
mod lists;
#[cfg(test)]
mod modes;
#[cfg(test)]
mod trust;
#[cfg(test)]
mod trust_entries;
#[cfg(test)]
mod wrapping;
