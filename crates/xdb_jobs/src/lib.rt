//! Running compactions, and the fences of open loads.
#![tactic(auto)]

mod fences;
mod jobs;
pub mod laws;

pub use fences::{Fence, Fences};
pub use jobs::{Job, Jobs};
pub use std::alloc::AllocError as Memory;

#[cfg(test)]
mod tests;
