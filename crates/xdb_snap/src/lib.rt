//! The open snapshots: pinned to the memtables, on a version of their own, or excised.
#![tactic(auto)]

mod error;
pub mod laws;
mod listed;
mod snap;
mod snaps;

pub use error::SnapNo;
pub use snap::Snap;
pub use snaps::Snaps;
pub use std::alloc::AllocError as Memory;

/// The most snapshots that are open.
pub const MOST_SNAPS: usize = 64;

#[cfg(test)]
mod tests;
