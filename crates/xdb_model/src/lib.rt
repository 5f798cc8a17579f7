//! Laws of the plain model, each a function that does nothing.
#![tactic(auto)]

pub mod causes;
pub mod clients;
pub mod counts;
pub mod files;
pub mod numbers;
pub mod refusals;
pub mod upkeep;
pub mod versions;
