ghost use Rattle.std.specs.Prelude.{◌≡◌};
ghost use Rattle.xdb_edit.specs.declared.error.EditBad.TheVariants.{Memory};

use std::alloc::{AllocError, AllocFailed};
use thiserror::Error;

/// Why bytes are no edit: the first defect from left to right, and its place in the input.
#[derive(Clone, Copy, Debug, PartialEq, Eq, Error)]
pub enum EditBad {
    /// The input ends inside a record; the place is its length.
    #[error("the edit ends inside a record, at {at}")]
    Short { at: usize },
    /// The tag, which stands there, is of no kind of record. A tag that is no number is named 0.
    #[error("{tag} at {at} is no tag")]
    BadTag { tag: u64, at: usize },
    /// The field that begins there is no number, is out of its range, or breaks a rule with a field
    /// before it.
    #[error("the field at {at} is out of its range")]
    BadField { at: usize },
    /// The record whose tag stands there belongs before another one.
    #[error("the record at {at} is out of order")]
    BadOrder { at: usize },
    #[error("out of memory")]
    Memory,
}

impl From<AllocError> for EditBad {
    ghost from_gives = { λ _ e. e ≡ Memory };

    fn from(_e: AllocError) -> EditBad {
        EditBad::Memory
    }
}

impl<T: Drop> From<AllocFailed<T>> for EditBad {
    ghost from_gives = { λ _ e. e ≡ Memory };

    fn from(_e: AllocFailed<T>) -> EditBad {
        EditBad::Memory
    }
}
