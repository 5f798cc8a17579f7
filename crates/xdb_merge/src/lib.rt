//! A cursor over what memtables and tables have together.
#![tactic(auto)]

mod edge;
pub mod laws;
mod layer;
mod merged;
mod moves;
mod search;
mod source;
mod tables;

pub use merged::Merged;
pub use std::alloc::AllocError as Memory;
pub use tables::{open_views, open_views_in};

#[cfg(test)]
mod tests;
