//! What each kind of step keeps of an engine's parts: laws over plain data, each a function that does nothing.
#![tactic(auto)]

pub mod asks;
pub mod commits;
pub mod counts;
pub mod flushes;
pub mod holds;
pub mod openings;
pub mod removals;
pub mod story;
