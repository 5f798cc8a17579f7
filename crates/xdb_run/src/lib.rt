//! The one-thread runner: the lines of a script one after another, on an engine of its own.
#![tactic(auto)]

mod built;
mod commits;
mod error;
mod lines;
mod reads;
mod run;
mod works;

pub use built::first_unbuilt;
pub use error::RunNo;
pub use run::{run_script, run_script_named};
