//! Table files: sorted points and range tombstones in one file of blocks. The outline is that of LevelDB's
//! and Pebble's tables (`leveldb/doc/table_format.md`): data blocks, further blocks, an index of the data
//! blocks and a footer at the end. The footer's fields, and that an index key is the last key of its block,
//! are this project's own.
#![tactic(auto)]

mod extent;
mod file;
mod internal;
pub mod laws;
mod parts;
mod seqs;
mod writer;

pub use std::alloc::AllocError as Memory;
pub use writer::{TableWriter, Written};

/// How many entries there are from one restart of a block to the next.
const INTERVAL: u32 = 16;

/// A point block ends with the entry that brings its entries to so many bytes.
const BLOCK_LEN: usize = 4096;

#[cfg(test)]
mod tests;
