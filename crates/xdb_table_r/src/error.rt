ghost use Rattle.std.specs.Prelude.{◌≡◌};
ghost use Rattle.xdb_table_r.specs.declared.error.TableNo.TheVariants as no;
ghost use Rattle.xdb_table_r.specs.Fault.{no_of};

use std::alloc::{AllocError, AllocFailed};
use thiserror::Error;
use xdb_device::DevNo;

/// Why a table wasn't read.
#[derive(Clone, Copy, Debug, PartialEq, Eq, Error)]
pub enum TableNo {
    /// The device failed, and its count of faults rose in the call.
    #[error("the table could not be read")]
    ReadFault,
    /// The file with this number is no table: `at` is the place of the first block that isn't in the
    /// grammar, or of the footer.
    #[error("table {backing} is damaged at {at}")]
    Damaged { backing: u64, at: u64 },
    #[error("out of memory")]
    Memory,
}

impl From<AllocError> for TableNo {
    ghost from_gives = { λ _ e. e ≡ no.Memory };

    fn from(_e: AllocError) -> TableNo {
        TableNo::Memory
    }
}

impl<T: Drop> From<AllocFailed<T>> for TableNo {
    ghost from_gives = { λ _ e. e ≡ no.Memory };

    fn from(_e: AllocFailed<T>) -> TableNo {
        TableNo::Memory
    }
}

impl From<DevNo> for TableNo {
    ghost from_gives = { λ cause e. e ≡ no_of cause };

    fn from(cause: DevNo) -> TableNo {
        match cause {
            DevNo::Failed => TableNo::ReadFault,
            DevNo::Memory => TableNo::Memory,
        }
    }
}
