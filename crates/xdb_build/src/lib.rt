//! Flushes and compactions as work on a device: tables written of what a group of memtables or other tables hold,
//! thinned.
#![tactic(auto)]

mod compact;
mod cuts;
mod flush;
mod gather;
pub mod laws;
mod output;
mod parts;
mod series;

pub use compact::build_compact;
pub use flush::build_flush;
pub use parts::{Built, CompactWork, FlushWork, JobParts};
pub use std::alloc::AllocError as Memory;

#[cfg(test)]
mod tests;
