//! The versions that are in use, who holds them, and which files their tables name.
#![tactic(auto)]

mod files;
mod holds;
mod numbers;
mod older;
mod set;

pub use holds::{HoldId, HoldTicket};
pub use set::{Dead, VersionSet};
pub use std::alloc::AllocError as Memory;

#[cfg(test)]
mod tests;
