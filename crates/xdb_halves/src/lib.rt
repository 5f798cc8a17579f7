//! Halves of a view: what a table still holds on either side of a span that is taken out of it.
#![tactic(auto)]

mod cut;
pub mod laws;
mod sides;

pub use cut::halves;
pub use sides::Halves;

#[cfg(test)]
mod tests;
