use crate::{Items, LoadTable, Question};
use xdb_key::{KeyRange, Name, Ops};

/// Who makes a step.
#[derive(Clone, Copy, Debug, PartialEq, Eq)]
pub enum By {
    /// A client, numbered from 1 to 16.
    Client(u8),
    /// The engine's owner.
    Db,
}

/// Which command a commit was written as.
#[derive(Clone, Copy, Debug, PartialEq, Eq)]
pub enum CommitForm {
    Put,
    Del,
    DelSpan,
    Batch,
}

/// Whether a client asks for a snapshot's state, or waits until it is no longer pinned.
#[derive(Clone, Copy, Debug, PartialEq, Eq)]
pub enum StatusForm {
    Status,
    Await,
}

/// Which tables a compaction begins with.
#[derive(Debug, Drop)]
pub enum Which {
    /// Those of the level that needs it most.
    Auto,
    /// Those of a level, from 0 to 6, that meet the range.
    At { level: u8, range: KeyRange },
}

/// What is shown of the engine's inside.
#[derive(Clone, Copy, Debug, PartialEq, Eq)]
pub enum ShowWhat {
    /// The tables of the current version.
    Levels,
    /// How many tables of versions in use stand on each file.
    Counts,
    /// The open snapshots and their states.
    Snaps,
}

/// A step of the engine.
#[derive(Debug, Drop)]
pub enum Act {
    /// Operations take effect, in their order.
    Commit {
        form: CommitForm,
        ops: Ops,
    },
    /// The active group of memtables is sealed, and an empty one begins.
    Seal,
    /// A flush of the oldest sealed group begins.
    FlushTake,
    /// A compaction begins.
    CompactTake {
        which: Which,
    },
    /// What a flush or a compaction built is installed.
    Put {
        job: u64,
    },
    /// A flush or a compaction failed at its work.
    Build {
        job: u64,
    },
    /// A question that was asked in parts failed at its work.
    Work {
        ask: u64,
    },
    /// A load is opened, or its opening ends.
    LoadOpen {
        load: Name,
        tables: Items<LoadTable>,
        span: Option<KeyRange>,
    },
    /// The opening of a load was to end, and doesn't yet.
    LoadKept {
        load: Name,
    },
    /// The span of a load is cut out, and its tables come in.
    Install {
        load: Name,
    },
    /// A snapshot of ranges is made.
    Snap {
        name: Name,
        ranges: Items<KeyRange>,
    },
    /// A snapshot is let go.
    Drop {
        name: Name,
    },
    /// A snapshot's state is told.
    Status {
        name: Name,
        form: StatusForm,
    },
    /// A cursor over a range is opened, of a snapshot or of what stands now.
    Cursor {
        name: Name,
        range: KeyRange,
        at: Option<Name>,
    },
    /// A cursor is let go.
    Shut {
        name: Name,
    },
    /// A question is asked, or one that was asked without being parted gets its answer. A question
    /// that was refused has the number 0.
    Ask {
        ask: u64,
        question: Question,
        parted: bool,
    },
    /// A question gets its answer, or has none yet.
    Settle {
        ask: u64,
    },
    /// The number of a file that nothing needs any more is taken.
    Reap,
    /// A file of a number that was taken could not be removed.
    Remove {
        num: u64,
    },
    Show {
        what: ShowWhat,
    },
}
