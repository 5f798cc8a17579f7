ghost use Rattle.std.specs.Prelude.{◌≡◌};
ghost use Rattle.xdb_batch.specs.declared.error.BatchNo.TheVariants as no;
ghost use Rattle.xdb_batch.specs.declared.error.BatchBad.TheVariants as bad;

use std::alloc::{AllocError, AllocFailed};
use thiserror::Error;

/// Why an operation isn't added to a batch.
#[derive(Clone, Copy, Debug, PartialEq, Eq, Error)]
pub enum BatchNo {
    /// The value has more than 65,536 bytes.
    #[error("a value of {len} bytes is too long")]
    ValueTooLong { len: usize },
    /// The batch has 4,096 operations already.
    #[error("the batch has too many operations")]
    TooMany,
    /// The batch would take more than 1,048,576 bytes.
    #[error("the batch is too long")]
    TooLong,
    #[error("out of memory")]
    Memory,
}

impl From<AllocError> for BatchNo {
    ghost from_gives = { λ _ e. e ≡ no.Memory };

    fn from(_e: AllocError) -> BatchNo {
        BatchNo::Memory
    }
}

impl<T: Drop> From<AllocFailed<T>> for BatchNo {
    ghost from_gives = { λ _ e. e ≡ no.Memory };

    fn from(_e: AllocFailed<T>) -> BatchNo {
        BatchNo::Memory
    }
}

/// Why bytes are no batch: the first defect from the left. `at` is a place in the input.
#[derive(Clone, Copy, Debug, PartialEq, Eq, Error)]
pub enum BatchBad {
    /// There are more than 1,048,576 bytes.
    #[error("more than 1,048,576 bytes")]
    TooLong,
    /// The input ends inside the first number and the count, or inside an operation.
    #[error("the input ends at {at} inside a part")]
    Short { at: usize },
    /// The count is over 4,096.
    #[error("more than 4,096 operations")]
    TooMany,
    /// The first number is 0, or the last one isn't below 2^56.
    #[error("the sequence numbers are out of range")]
    BadNumbers,
    /// The input ends after `found` operations, which are fewer than stated; or none are stated.
    #[error("{stated} operations are stated and {found} found")]
    BadCount { stated: usize, found: usize },
    /// The byte is the kind of no operation.
    #[error("the kind {byte} at {at} is unknown")]
    BadKind { byte: u8, at: usize },
    /// A length isn't in its shortest form, or is 2^63 or more.
    #[error("the length at {at} is no number")]
    BadVarint { at: usize },
    /// The operation whose kind is at this place has a key, bound or value of a length outside its
    /// limits, or is a span whose start isn't below its end.
    #[error("the operation at {at} is out of its limits")]
    BadKey { at: usize },
    /// Bytes are left after the last operation.
    #[error("the batch ends at {at}")]
    Trailing { at: usize },
    #[error("out of memory")]
    Memory,
}

impl From<AllocError> for BatchBad {
    ghost from_gives = { λ _ e. e ≡ bad.Memory };

    fn from(_e: AllocError) -> BatchBad {
        BatchBad::Memory
    }
}

impl<T: Drop> From<AllocFailed<T>> for BatchBad {
    ghost from_gives = { λ _ e. e ≡ bad.Memory };

    fn from(_e: AllocFailed<T>) -> BatchBad {
        BatchBad::Memory
    }
}
