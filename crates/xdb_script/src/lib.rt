//! The script language: which lines a byte string spells, and what is wrong with one that spells none.
#![tactic(auto)]

mod ask;
mod client;
mod error;
mod form;
pub mod laws;
mod line;
mod numbers;
mod operands;
mod operations;
mod owner;
mod reader;
pub mod rows;
mod strings;
mod table;
mod verbs;

pub use error::{ScriptNo, Why};
pub use form::ScriptForm;
pub use reader::parse;
pub use std::alloc::AllocError as Memory;

#[cfg(test)]
mod tests;
