//! Tables as an engine knows them without reading them.
#![tactic(auto)]

mod table;

pub use std::alloc::AllocError as Memory;
pub use table::{TableMeta, is_number, is_seq, is_synthetic};

#[cfg(test)]
mod tests;
