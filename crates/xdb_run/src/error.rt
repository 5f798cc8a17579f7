ghost use Rattle.std.specs.Prelude.{◌≡◌};
ghost use Rattle.xdb_run.specs.declared.error.RunNo.TheVariants.{Memory};

use std::alloc::{AllocError, AllocFailed};
use thiserror::Error;

/// Why a script wasn't run to its end.
#[derive(Clone, Copy, Debug, PartialEq, Eq, Error)]
pub enum RunNo {
    /// An allocation failed outside a step: for the notes of a line, or for what a line needs before it.
    #[error("out of memory")]
    Memory,
}

impl From<AllocError> for RunNo {
    ghost from_gives = { λ _ e. e ≡ Memory };

    fn from(_e: AllocError) -> RunNo {
        RunNo::Memory
    }
}
