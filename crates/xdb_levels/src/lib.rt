//! Versions of an engine's tables: the tables of each level in order, and what an edit makes of them.
#![tactic(auto)]

mod applying;
mod error;
pub mod laws;
mod levels;
mod names;
mod overlapping;
mod tables;

pub use error::ApplyNo;
pub use levels::{Levels, Version};
pub use std::alloc::AllocError as Memory;

#[cfg(test)]
mod tests;
