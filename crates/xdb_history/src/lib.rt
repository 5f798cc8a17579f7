//! The history of an engine: its notes in order, each of which may stand where it stands.
#![tactic(auto)]

mod history;

pub use history::History;

#[cfg(test)]
mod tests;
