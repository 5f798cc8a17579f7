//! Range tombstone fragments, and what the content of memtables and tables means.
#![tactic(auto)]

mod fragments;
pub mod laws;
mod parts;
mod sweep;

pub use fragments::Fragments;
pub use std::alloc::AllocError as Memory;

#[cfg(test)]
mod tests;
