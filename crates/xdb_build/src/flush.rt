//! A flush: a group of memtables, written as one table.
ghost use Rattle.std.specs.Prelude.{◌≡◌, ◌⊎◌, ◌+◌, ◌≤◌, [], length, IfOk, IfErr, OnErr, OnOk, IsErrOf};
ghost use Rattle.xdb_device.specs.Counted.{Counted};
ghost use Rattle.xdb_stripes.specs.declared.floor.Floor.TheVariants.{All};
ghost use Rattle.xdb_work.specs.Work.{nums_of, tried_by, IsStopped, AreFirst, Tried, AreHeld};
ghost use Rattle.xdb_build.specs.Fits.{FitsFlush};
ghost use Rattle.xdb_build.specs.Given.{reserved};

use crate::output::{create_table, table_of};
use crate::{Built, JobParts};
use std::alloc::Global;
use xdb_device::{Device, WorkCause, WorkFault};
use xdb_plain::Items;
use xdb_stripes::thin;
use xdb_work::put;

/// Writes what the group has, thinned at the stripes, as one table under the first reserved number. Where a call of the
/// device fails or an allocation does, it names the number if a file was tried: it may stand in part.
///
/// It holds the group's entries a second time, beside the file that is made of them.
pub fn build_flush<D: Device>(
    alloc: Global,
    given: &JobParts<D::File>,
    dev: &mut D,
) -> Result<Built<D::File>, WorkFault>
    requires some { 1 ≤ length given.now.mem.entries + length given.now.mem.spans }
    requires no_tables { given.now.tables ≡ [] }
    requires whole { given.now.floor ≡ All }
    ensures fits { IfOk result (FitsFlush D.File.size D.File.bytes given.now) }
    // No file is read, so none is found damaged.
    ensures cause { IfErr result (λ no. (no.cause ≡ WorkCause.Fault) ⊎ (no.cause ≡ WorkCause.Memory)) }
    ensures counted { Counted D.faults D.misses D.frame dev.old dev.new
        (IsStopped WorkCause.Fault result) }
    ensures first { AreFirst (reserved given.now) (tried_by (λ out. nums_of out.files) result) }
    ensures told { Tried (reserved given.now) (tried_by (λ out. nums_of out.files) result)
        (IsStopped WorkCause.Memory result) (D.told dev.old) (D.told dev.new) }
    ensures held { IfOk result (λ out. AreHeld D.File.size D.File.bytes (D.told dev.new).holds out.files) }
{
    let mut tried = Vec::new(alloc);
    match flush(alloc, given, dev, &mut tried) {
        Ok(built) => Ok(built),
        Err(cause) => Err(WorkFault { cause, tried }),
    }
}

/// Writes the table, and names its number once its file is tried.
fn flush<D: Device>(
    alloc: Global,
    given: &JobParts<D::File>,
    dev: &mut D,
    tried: &mut Vec<u64>,
) -> Result<Built<D::File>, WorkCause>
    requires some { 1 ≤ length given.now.mem.entries + length given.now.mem.spans }
    requires whole { given.now.floor ≡ All }
    requires empty { tried.old.items ≡ [] }
    ensures fits { IfOk result (FitsFlush D.File.size D.File.bytes given.now) }
    ensures cause { OnErr result (IsErrOf result WorkCause.Fault ⊎ IsErrOf result WorkCause.Memory) }
    ensures counted { Counted D.faults D.misses D.frame dev.old dev.new
        (IsErrOf result WorkCause.Fault) }
    ensures all { IfOk result (λ out. nums_of out.files ≡ tried.new.items) }
    ensures first { AreFirst (reserved given.now) tried.new.items }
    ensures told { Tried (reserved given.now) tried.new.items (IsErrOf result WorkCause.Memory)
        (D.told dev.old) (D.told dev.new) }
    ensures held { IfOk result (λ out. AreHeld D.File.size D.File.bytes (D.told dev.new).holds out.files) }
{
    let num = given.first();
    let mem = given.mem();
    let (entries, spans) = thin(
        alloc,
        mem.entries(),
        mem.spans(),
        given.stripes(),
        given.floor(),
    )?;
    let table = table_of(alloc, &entries, &spans)?;
    let mut tables = Vec::with_capacity(alloc, 1)?;
    let mut files = Vec::with_capacity(alloc, 1)?;
    tried.try_reserve(1)?;
    let (meta, file) = create_table(num, table, dev, tried)?;
    put(&mut tables, meta);
    put(&mut files, (num, file));
    Ok(Built {
        tables: Items::new(tables),
        files: Items::new(files),
    })
}
