//! A load's files, written to a device.
ghost use Rattle.std.specs.Prelude.{◌≡◌, ◌⊎◌, ◌+◌, ◌≤◌, nat_eq, [], ◌∷◌, ◌++◌, length, vec_capacity, IfOk, IfErr, OnOk, OnErr, IfSome, IsErrOf};
ghost use Rattle.std.specs.List.{IsDistinct};
ghost use Rattle.xdb_device.specs.Counted.{Counted};
ghost use Rattle.xdb_ext.specs.Loads.{AreTables, FitsLoad, numbered_files};
ghost use Rattle.xdb_work.specs.Work.{nums_of, tried_by, IsStopped, AreFirst, Tried, AreHeld};

use crate::table::write;
use crate::{LoadFiles, LoadParts};
use std::alloc::{AllocError, Global};
use xdb_device::{Device, WorkCause, WorkFault};
use xdb_key::{Extent, Ops};
use xdb_work::{create, put};

/// Writes a file for each table, in order. Where a call of the device fails or memory runs out, it stops
/// and names the numbers that it tried to create: a file may stand in part under each of them.
pub fn write_tables<D: Device>(
    alloc: Global,
    given: &LoadParts,
    dev: &mut D,
) -> Result<LoadFiles<D::File>, WorkFault>
    ensures fits { IfOk result (λ out. FitsLoad D.File.size D.File.bytes given.now out.files.items) }
    // No file is read, so none is found damaged.
    ensures cause { IfErr result (λ no. (no.cause ≡ WorkCause.Fault) ⊎ (no.cause ≡ WorkCause.Memory)) }
    ensures counted { Counted D.faults D.misses D.frame dev.old dev.new (IsStopped WorkCause.Fault result) }
    ensures first { AreFirst (nums_of given.now) (tried_by (λ out. nums_of (numbered_files out.files.items)) result) }
    ensures told { Tried (nums_of given.now) (tried_by (λ out. nums_of (numbered_files out.files.items)) result) (IsStopped WorkCause.Memory result) (D.told dev.old) (D.told dev.new) }
    ensures held { IsDistinct nat_eq (nums_of given.now) → IfOk result (λ out. AreHeld D.File.size D.File.bytes (D.told dev.new).holds (numbered_files out.files.items)) }
{
    let tables = given.tables();
    let mut tried = Vec::new(alloc);
    if tried.try_reserve(tables.len()).is_err() {
        return Err(WorkFault {
            cause: WorkCause::Memory,
            tried,
        });
    }
    match write_files(alloc, tables, dev, &mut tried) {
        Ok(files) => Ok(LoadFiles { files }),
        Err(cause) => Err(WorkFault { cause, tried }),
    }
}

/// Writes the files. `tried` has room for all numbers.
fn write_files<D: Device>(
    alloc: Global,
    tables: &[(u64, Ops)],
    dev: &mut D,
    tried: &mut Vec<u64>,
) -> Result<Vec<(u64, Extent, D::File)>, WorkCause>
    requires tables { AreTables tables.now }
    requires empty { tried.old.items ≡ [] }
    requires room { length tables.now ≤ vec_capacity tried.old }
    ensures fits { IfOk result (λ files. FitsLoad D.File.size D.File.bytes tables.now files.items) }
    ensures cause { OnErr result (IsErrOf result WorkCause.Fault ⊎ IsErrOf result WorkCause.Memory) }
    ensures counted { Counted D.faults D.misses D.frame dev.old dev.new (IsErrOf result WorkCause.Fault) }
    ensures all { OnOk result (tried.new.items ≡ nums_of tables.now) }
    ensures first { AreFirst (nums_of tables.now) tried.new.items }
    ensures told { Tried (nums_of tables.now) tried.new.items (IsErrOf result WorkCause.Memory) (D.told dev.old) (D.told dev.new) }
    ensures held { IsDistinct nat_eq (nums_of tables.now) → IfOk result (λ files. AreHeld D.File.size D.File.bytes (D.told dev.new).holds (numbered_files files.items)) }
{
    let mut files = Vec::new(alloc);
    files.try_reserve(tables.len())?;
    for (num, ops) in tables {
        let table = write(alloc, ops.list())?;
        let file = create(dev, *num, &table.bytes, tried)?;
        put(&mut files, (*num, table.extent, file));
    }
    Ok(files)
}
