//! Worked histories that are legal, and notes that may not stand, each a function that does nothing.
#![tactic(auto)]

pub mod excises;
pub mod flushes;
pub mod loads;
pub mod reads;
pub mod refused_edits;
pub mod refused_holds;
pub mod refused_replies;
pub mod snapshots;
pub mod tables;
