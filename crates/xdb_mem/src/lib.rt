//! Groups of memtables: what was committed and isn't in a table yet.
#![tactic(auto)]

mod index;
pub mod laws;
mod mem;
mod numbering;
mod parts;
mod queue;
mod sorted;
mod span_list;

pub use mem::Mem;
pub use parts::MemParts;
pub use queue::MemQueue;
pub use std::alloc::AllocError as Memory;

#[cfg(test)]
mod tests;
