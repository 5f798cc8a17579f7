//! Which tables a compaction takes, and at which level a loaded table may stand.
#![tactic(auto)]

mod growing;
mod hull;
mod ordering;
mod picking;
mod placing;
mod plan;
mod planning;

pub use picking::pick;
pub use placing::place;
pub use plan::Plan;
pub use planning::plan_for;
pub use std::alloc::AllocError as Memory;

#[cfg(test)]
mod tests;
