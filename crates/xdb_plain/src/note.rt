use crate::{Act, By, Items, Reply};
use xdb_edit::Edit;

/// A hold of a version that was taken or let go.
#[derive(Clone, Copy, Debug)]
pub enum HoldNote {
    /// The hold of that number is of that version.
    Hold { id: u64, version: u64 },
    Release { id: u64 },
}

/// One step of a history: who made it, what it was, and what it replied.
#[derive(Debug, Drop)]
pub struct Note {
    pub by: By,
    pub act: Act,
    pub reply: Reply,
    /// What it changed in the tables, where something was installed.
    pub edit: Option<Edit>,
    /// The holds of versions that it took or let go.
    pub holds: Items<HoldNote>,
    /// The numbers of files that were begun by what it ended in vain, rising.
    pub tried: Items<u64>,
}
