//! Row blocks: sorted rows with shared key prefixes, as bytes. The outline is that of LevelDB's and
//! Pebble's blocks (`leveldb/doc/table_format.md`, `pebble/sstable/block.go`): entries, restart offsets and
//! their count. That a shared prefix may run into the trailer, and that all kinds of block have one restart
//! interval, is this project's own.
#![tactic(auto)]

mod block;
mod entry;
mod internal;
mod kind;
pub mod laws;
mod place;
mod restarts;
mod row;
mod rows;
mod seek;
mod shared;
mod writer;

pub use block::Block;
pub use internal::key_parts;
pub use kind::{BlockKind, BlockNo};
pub use std::alloc::AllocError as Memory;
pub use writer::BlockWriter;

/// How many entries there are from one restart to the next.
pub const INTERVAL: usize = 16;

#[cfg(test)]
mod tests;
