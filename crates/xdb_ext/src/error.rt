ghost use Rattle.std.specs.Prelude.{◌≡◌};
ghost use Rattle.xdb_ext.specs.declared.error.ExtNo.TheVariants.{Memory};

use std::alloc::{AllocError, AllocFailed};
use thiserror::Error;

/// Why operations make no external table.
#[derive(Clone, Copy, Debug, PartialEq, Eq, Error)]
pub enum ExtNo {
    #[error("the table is empty")]
    EmptyTable,
    /// There are more than 4,096 operations.
    #[error("the table has too many operations")]
    TooMany,
    /// The operation at this place, counted from 0, is the first point whose key isn't greater than that
    /// of the point before it.
    #[error("the point at {at} is out of order")]
    OutOfOrder { at: usize },
    #[error("out of memory")]
    Memory,
}

impl From<AllocError> for ExtNo {
    ghost from_gives = { λ _ e. e ≡ Memory };

    fn from(_e: AllocError) -> ExtNo {
        ExtNo::Memory
    }
}

impl<T: Drop> From<AllocFailed<T>> for ExtNo {
    ghost from_gives = { λ _ e. e ≡ Memory };

    fn from(_e: AllocFailed<T>) -> ExtNo {
        ExtNo::Memory
    }
}
