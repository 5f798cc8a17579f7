use crate::{Answer, Items};
use xdb_key::{Name, SnapState};
use xdb_meta::TableMeta;

/// The tables of each of the seven levels.
pub type TableLists = Items<Items<TableMeta>>;

/// Numbers of files, and how many tables of versions in use stand on each.
pub type CountList = Items<(u64, u64)>;

/// Names of snapshots and their states.
pub type SnapList = Items<(Name, SnapState)>;

/// What a step replies.
#[derive(Debug, Drop)]
pub enum Reply {
    Done,
    Installed,
    /// The load may be installed.
    Opened,
    /// The load's tables are being written.
    Opening,
    Dropped,
    Shut,
    /// The cursor is open.
    CursorOn,
    Answered(Answer),
    /// The number of the question that is open from now on.
    Asked(u64),
    /// The number of the group that is sealed from now on.
    Group(u64),
    /// The number of the flush or the compaction that runs from now on.
    Job(u64),
    /// The number of a file, which may be removed.
    Took(u64),
    FileOnly,
    /// The snapshot stands on memtables, up to that group.
    Pinned(u64),
    /// The load cut out keys of the snapshot's ranges before it was file-only.
    Excised(Name),
    /// An open load's fence is touched.
    Fenced(Name),
    /// A group with operations in the load's fence isn't flushed yet.
    Waits(u64),
    /// The load's span met the compaction's hull.
    Cancelled(Name),
    /// The question of that number is open on the cursor.
    Busy(u64),
    /// Two tables of the load meet.
    Overlap(Name, Name),
    Nothing,
    NoSuch,
    /// No one range of the snapshot holds the key or the range.
    Outside,
    NameInUse,
    TooMany,
    /// A snapshot's ranges don't rise.
    BadRanges,
    /// There are no numbers left.
    Spent,
    NotYet,
    /// A reader or a device failed.
    Fault,
    /// A file couldn't be removed.
    Stuck,
    /// Memory was wanting, and the step changed nothing but what it ended.
    Memory,
    /// A file isn't in the format of tables: its number, and the place of the defect.
    Damaged(u64, u64),
    Levels(TableLists),
    Counts(CountList),
    Snaps(SnapList),
}
