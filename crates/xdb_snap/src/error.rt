ghost use Rattle.std.specs.Prelude.{◌≡◌};
ghost use Rattle.xdb_snap.specs.declared.error.SnapNo.TheVariants.{Memory};

use std::alloc::{AllocError, AllocFailed};
use thiserror::Error;

/// Why a snapshot isn't made. The first of these that applies is answered.
#[derive(Clone, Copy, Debug, PartialEq, Eq, Error)]
pub enum SnapNo {
    #[error("an open snapshot has the name")]
    NameInUse,
    /// A range ends behind the start of the next.
    #[error("the ranges don't rise")]
    BadRanges,
    #[error("64 snapshots are open")]
    TooMany,
    #[error("out of memory")]
    Memory,
}

impl From<AllocError> for SnapNo {
    ghost from_gives = { λ _ e. e ≡ Memory };

    fn from(_e: AllocError) -> SnapNo {
        SnapNo::Memory
    }
}

impl<T: Drop> From<AllocFailed<T>> for SnapNo {
    ghost from_gives = { λ _ e. e ≡ Memory };

    fn from(_e: AllocFailed<T>) -> SnapNo {
        SnapNo::Memory
    }
}
