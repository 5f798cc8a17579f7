//! The plain model: acts, replies, notes and scripts, and the definitions that say which histories are right.
#![tactic(auto)]

mod act;
mod answer;
mod items;
pub mod laws;
mod load;
mod note;
mod question;
mod reply;
mod script;

pub use act::{Act, By, CommitForm, ShowWhat, StatusForm, Which};
pub use answer::{Answer, Pairs};
pub use items::Items;
pub use load::LoadTable;
pub use note::{HoldNote, Note};
pub use question::{Place, Question, Step};
pub use reply::{CountList, Reply, SnapList, TableLists};
pub use script::{Cmd, Line, Script};
pub use std::alloc::AllocError as Memory;
