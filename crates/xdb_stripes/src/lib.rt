//! Thinning: what a flush or a compaction may leave out of what it writes.
#![tactic(auto)]

mod entries;
mod floor;
pub mod laws;
mod spans;
mod stripes;
mod thinning;

pub use floor::{Floor, KeyRanges};
pub use std::alloc::AllocError as Memory;
pub use thinning::thin;

#[cfg(test)]
mod tests;
