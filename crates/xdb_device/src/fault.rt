// Why a call on the outside failed.
ghost use Rattle.std.specs.Prelude.{◌≡◌};
ghost use Rattle.xdb_device.specs.declared.fault.DevNo.TheVariants.{Memory};
ghost use Rattle.xdb_device.specs.declared.fault.WorkCause.TheVariants.{Memory as WorkMemory};
ghost use Rattle.xdb_device.specs.Work.{cause_of};

use std::alloc::{AllocError, AllocFailed};
use thiserror::Error;

/// The answer of a call on a source, a sink, a reader or a device that did not do its work.
#[derive(Clone, Copy, Debug, PartialEq, Eq, Error)]
pub enum DevNo {
    /// The outside failed, and its count of faults rose in the call.
    #[error("the device failed")]
    Failed,
    /// There was no memory for the answer.
    #[error("out of memory")]
    Memory,
}

impl From<AllocError> for DevNo {
    ghost from_gives = { λ _ e. e ≡ Memory };

    fn from(_: AllocError) -> Self {
        DevNo::Memory
    }
}

impl<T: Drop> From<AllocFailed<T>> for DevNo {
    ghost from_gives = { λ _ e. e ≡ Memory };

    fn from(_: AllocFailed<T>) -> Self {
        DevNo::Memory
    }
}

/// Why a piece of work on a device gave nothing.
#[derive(Clone, Copy, Debug, PartialEq, Eq, Error)]
pub enum WorkCause {
    /// A call of the device failed.
    #[error("the device failed")]
    Fault,
    /// The file of this number is damaged at this place.
    #[error("file {backing} is damaged at {at}")]
    Damaged { backing: u64, at: u64 },
    /// There was no memory for the work.
    #[error("out of memory")]
    Memory,
}

/// Work that gave nothing, with the numbers that `create` was called with: their files may stand in part.
#[derive(Debug, Drop, Error)]
#[error("{cause}")]
pub struct WorkFault {
    pub cause: WorkCause,
    pub tried: Vec<u64>,
}

impl From<AllocError> for WorkCause {
    ghost from_gives = { λ _ cause. cause ≡ WorkMemory };

    fn from(_: AllocError) -> Self {
        WorkCause::Memory
    }
}

impl<T: Drop> From<AllocFailed<T>> for WorkCause {
    ghost from_gives = { λ _ cause. cause ≡ WorkMemory };

    fn from(_: AllocFailed<T>) -> Self {
        WorkCause::Memory
    }
}

// A failure is passed on under the name that work has for it.
impl From<DevNo> for WorkCause {
    ghost from_gives = { λ answer cause. cause ≡ cause_of answer };

    fn from(answer: DevNo) -> Self {
        match answer {
            DevNo::Failed => WorkCause::Fault,
            DevNo::Memory => WorkCause::Memory,
        }
    }
}
