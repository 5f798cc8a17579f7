ghost use Rattle.std.specs.Prelude.{◌≡◌};
ghost use Rattle.xdb_block.specs.declared.kind.BlockNo.TheVariants as no;

use std::alloc::{AllocError, AllocFailed};
use thiserror::Error;

/// What the rows of a block are.
#[derive(Clone, Copy, Debug, PartialEq, Eq)]
pub enum BlockKind {
    /// Points: internal keys of sets and deletes, each with its value.
    Point,
    /// Range tombstones: internal keys of the starts, each with its end.
    Spans,
    /// Point blocks: the last internal key of each, with its offset and its length as two varints.
    Index,
}

/// Why bytes are no block.
#[derive(Clone, Copy, Debug, PartialEq, Eq, Error)]
pub enum BlockNo {
    /// The first defect is one of the entry or of the restart part that begins at this place. The
    /// restart part is tested first, and offsets that no restart stands at last. Where the bytes are
    /// fewer than their count of offsets asks for, the place is 0.
    #[error("the block is damaged at {at}")]
    Damaged { at: usize },
    #[error("out of memory")]
    Memory,
}

impl From<AllocError> for BlockNo {
    ghost from_gives = { λ _ e. e ≡ no.Memory };

    fn from(_e: AllocError) -> BlockNo {
        BlockNo::Memory
    }
}

impl<T: Drop> From<AllocFailed<T>> for BlockNo {
    ghost from_gives = { λ _ e. e ≡ no.Memory };

    fn from(_e: AllocFailed<T>) -> BlockNo {
        BlockNo::Memory
    }
}
