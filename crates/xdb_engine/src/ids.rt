use xdb_key::Name;
use xdb_read::{ReadDone, ReadParts};

/// Work that is under way: a question, a job, or a load whose tables are being written.
#[derive(Clone, Copy, Debug)]
pub enum Id {
    Ask(u64),
    Job(u64),
    Load(Name),
}

/// What was handed out for work that is under way.
#[derive(Clone, Copy)]
pub enum Given<'a, F> {
    Read(&'a ReadParts<F>),
}

/// What came of it.
#[derive(Debug, Drop)]
pub enum Outcome {
    Read(ReadDone),
}
