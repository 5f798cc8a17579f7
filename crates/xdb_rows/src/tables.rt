//! Tables of cases that tell definitions apart: each notices a definition that is changed in one place.
pub mod answers;
pub mod compactions;
pub mod edits;
pub mod fences;
pub mod holds;
pub mod limits;
pub mod makers;
pub mod numbers;
pub mod orders;
pub mod plans;
pub mod runs;
pub mod snapshots;
pub mod told;
pub mod workers;
