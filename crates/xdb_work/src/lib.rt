//! What pieces of work that write table files have in common: what such work does to its device, as records and
//! their laws (`specs/Work.antt`), and the steps that each of them takes.
#![tactic(auto)]

mod files;
mod fragments;
pub mod laws;

pub use files::{create, put};
pub use fragments::add_spans;
pub use std::alloc::AllocError as Memory;
