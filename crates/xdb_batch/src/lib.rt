//! Batches: operations that take effect together, and their bytes. The layout is that of Pebble's and
//! LevelDB's batches (`leveldb/db/write_batch.cc`), with the kinds of this project alone.
#![tactic(auto)]

mod adding;
mod batch;
mod error;
pub mod laws;
mod reading;
mod writing;

pub use batch::Batch;
pub use error::{BatchBad, BatchNo};
pub use std::alloc::AllocError as Memory;

/// The most operations that a batch has.
pub const MAX_OPS: usize = 4096;

/// The most bytes that a batch takes.
pub const MAX_BATCH: usize = 1_048_576;

/// How many bytes the first number and the count take.
const HEADER: usize = 12;

#[cfg(test)]
mod tests;
