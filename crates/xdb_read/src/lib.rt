//! Work on a question: what is handed out for it, and what answers it.
#![tactic(auto)]

mod answering;
mod keys;
mod pairs;
mod parts;

pub use answering::answer;
pub use parts::{ReadDone, ReadParts, ReadWork};

#[cfg(test)]
mod tests;
