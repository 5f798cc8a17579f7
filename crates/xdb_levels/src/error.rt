ghost use Rattle.std.specs.Prelude.{◌≡◌};
ghost use Rattle.xdb_levels.specs.declared.error.ApplyNo.TheVariants.{Memory};

use std::alloc::{AllocError, AllocFailed};
use thiserror::Error;

/// Why an edit makes no version of another one.
#[derive(Clone, Copy, Debug, PartialEq, Eq, Error)]
pub enum ApplyNo {
    /// The edit removes this table from a level that doesn't have it.
    #[error("there is no table {num} to be removed")]
    NoSuchTable { num: u64 },
    /// The edit leaves these two tables of one level above L0 beside one another, and their bounds meet.
    #[error("tables {a} and {b} overlap")]
    Overlap { a: u64, b: u64 },
    #[error("out of memory")]
    Memory,
}

impl From<AllocError> for ApplyNo {
    ghost from_gives = { λ _ e. e ≡ Memory };

    fn from(_e: AllocError) -> ApplyNo {
        ApplyNo::Memory
    }
}

impl<T: Drop> From<AllocFailed<T>> for ApplyNo {
    ghost from_gives = { λ _ e. e ≡ Memory };

    fn from(_e: AllocFailed<T>) -> ApplyNo {
        ApplyNo::Memory
    }
}
