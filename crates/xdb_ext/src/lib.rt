//! External tables: tables that are made of operations, outside the engine, and loaded into it.
#![tactic(auto)]

mod error;
pub mod laws;
mod load;
mod table;
mod write;

pub use error::ExtNo;
pub use load::{LoadFiles, LoadParts, LoadWork};
pub use std::alloc::AllocError as Memory;
pub use table::{ExtTable, is_table};
pub use write::write_tables;

/// The most operations that a table has.
const MAX_OPS: usize = 4096;

#[cfg(test)]
mod tests;
