//! The engine: the one value under the version lock. Each recorded call adds one note to its history.
#![tactic(auto)]

mod asking;
mod asks;
mod commits;
mod engine;
mod failures;
mod holds;
mod ids;
mod journal;
mod notes;
mod questions;
mod removals;
mod shows;
mod state;
mod works;

pub use engine::Engine;
pub use ids::{Given, Id, Outcome};
pub use questions::OpenRead;

#[cfg(test)]
mod tests;
