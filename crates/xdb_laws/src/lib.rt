//! What each kind of step does to a content and to the map that it stands for: laws over plain lists, each a
//! function that does nothing.
#![tactic(auto)]

pub mod asks;
pub mod commits;
pub mod compactions;
pub mod excises;
pub mod flushes;
pub mod images;
pub mod instances;
pub mod load_instances;
pub mod loads;
pub mod order;
pub mod questions;
pub mod rewrites;
pub mod snapshots;
pub mod versions;
