//! Edits, each of which makes one version of an engine's tables from the version before it: their bytes,
//! and the definitions of versions and of plans over them.
#![tactic(auto)]

mod edit;
mod error;
mod input;
pub mod laws;
mod number;
pub mod plans;
mod range;
mod record;

pub use edit::Edit;
pub use error::EditBad;
pub use std::alloc::AllocError as Memory;

#[cfg(test)]
mod tests;
