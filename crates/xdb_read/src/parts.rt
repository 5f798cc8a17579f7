use std::marker::PhantomData;
use xdb_device::FileRef;
use xdb_key::KeyRange;
use xdb_mem::MemParts;
use xdb_meta::TableMeta;
use xdb_order::Work;
use xdb_plain::{Answer, Items, Place, Question};

/// What is handed out for a question: all that its answer needs.
#[derive(Drop)]
pub struct ReadParts<F> {
    pub question: Question,
    /// Where the cursor of a move stands; else before the first pair.
    pub place: Place,
    /// The answer sees no key outside these.
    pub bounds: KeyRange,
    /// The answer sees what is numbered below this.
    pub at: u64,
    /// What the memtables have inside the bounds.
    pub mem: MemParts,
    /// The tables that may have keys inside the bounds, and the files that they are in.
    pub tables: Items<(TableMeta, F)>,
}

/// What comes of it.
#[derive(Debug, Drop)]
pub struct ReadDone {
    pub answer: Answer,
    /// The same answer once more: one goes into the history and the other to the client.
    pub again: Answer,
    /// Where a move leads to; else before the first pair.
    pub place: Place,
}

/// The work of answering a question.
pub struct ReadWork<F> {
    file: PhantomData<F>,
}

impl<F: FileRef> Work for ReadWork<F> {
    ghost use Rattle.xdb_read.specs.Fits.{ReadFits};

    type In = ReadParts<F>;

    type Out = ReadDone;

    ghost fits = { λ given out. ReadFits F.bytes given out };
}
