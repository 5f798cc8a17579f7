//! A compaction: what tables have, written anew.
ghost use Rattle.std.specs.Prelude.{◌≡◌, [], IfOk, IfErr, OnErr, OnOk, IsErrOf};
ghost use Rattle.xdb_device.specs.Counted.{Counted};
ghost use Rattle.xdb_work.specs.Work.{nums_of, tried_by, IsStopped, AreFirst, Tried, AreHeld};
ghost use Rattle.xdb_build.specs.Compacting.{IsLeft, IsCompacted};
ghost use Rattle.xdb_build.specs.Fits.{FitsCompaction, NamesInput};
ghost use Rattle.xdb_build.specs.Given.{reserved};
ghost use Rattle.xdb_build.specs.Series.{Stops, cause_of_table};

use crate::gather::gathered;
use crate::series::{Progress, write_outputs};
use crate::{Built, JobParts};
use std::alloc::Global;
use xdb_device::{Device, WorkCause, WorkFault};
use xdb_key::Entry;
use xdb_plain::Items;
use xdb_rangedel::Fragments;
use xdb_stripes::thin;
use xdb_table_r::TableNo;

/// Writes what the tables have, thinned at the stripes, as tables under the first of the reserved numbers, and none where
/// nothing is left. Each but the last ends before the next key once its points weigh 65,536 or more, spans are cut there,
/// and the last that the numbers allow takes the rest. Nothing is looked at in the memtables' content.
///
/// Where a call of the device fails, a file is damaged or an allocation fails, it names the numbers that were tried: the
/// files may stand in part.
///
/// It holds the entries of all tables in memory, which share their values, beside the file that is made of some of them.
pub fn build_compact<D: Device>(
    alloc: Global,
    given: &JobParts<D::File>,
    dev: &mut D,
) -> Result<Built<D::File>, WorkFault>
    ensures fits { IfOk result (FitsCompaction D.File.size D.File.bytes given.now) }
    ensures damage { IfErr result (λ no. NamesInput D.File.bytes given.now.tables no.cause) }
    ensures counted { Counted D.faults D.misses D.frame dev.old dev.new
        (IsStopped WorkCause.Fault result) }
    ensures first { AreFirst (reserved given.now) (tried_by (λ out. nums_of out.files) result) }
    ensures told { Tried (reserved given.now) (tried_by (λ out. nums_of out.files) result)
        (IsStopped WorkCause.Memory result) (D.told dev.old) (D.told dev.new) }
    ensures held { IfOk result (λ out. AreHeld D.File.size D.File.bytes (D.told dev.new).holds
        out.files) }
{
    let mut made = Progress {
        tables: Vec::new(alloc),
        files: Vec::new(alloc),
        tried: Vec::new(alloc),
    };
    match compact(alloc, given, dev, &mut made) {
        Ok(()) => Ok(Built {
            tables: Items::new(made.tables),
            files: Items::new(made.files),
        }),
        Err(cause) => Err(WorkFault {
            cause,
            tried: made.tried,
        }),
    }
}

/// Writes the outputs, where anything is left.
fn compact<D: Device>(
    alloc: Global,
    given: &JobParts<D::File>,
    dev: &mut D,
    made: &mut Progress<D::File>,
) -> Result<(), WorkCause>
    requires no_tables { made.old.tables.items ≡ [] }
    requires no_files { made.old.files.items ≡ [] }
    requires none_tried { made.old.tried.items ≡ [] }
    ensures fits { OnOk result (IsCompacted D.File.size D.File.bytes given.now made.new
        (D.told dev.old) (D.told dev.new)) }
    ensures damage { IfErr result (NamesInput D.File.bytes given.now.tables) }
    ensures counted { Counted D.faults D.misses D.frame dev.old dev.new
        (IsErrOf result WorkCause.Fault) }
    ensures stops { OnErr result (Stops (reserved given.now) made.new.tried.items
        (IsErrOf result WorkCause.Memory) (D.told dev.old) (D.told dev.new)) }
{
    let (entries, spans) = left_of_tables(alloc, given, dev)?;
    if entries.is_empty() && spans.list().is_empty() {
        return Ok(());
    }
    write_outputs(alloc, given, &entries, &spans, dev, made)
}

/// What thinning leaves of what the tables have.
fn left_of_tables<D: Device>(
    alloc: Global,
    given: &JobParts<D::File>,
    dev: &mut D,
) -> Result<(Vec<Entry>, Fragments), WorkCause>
    ensures left { IfOk result (λ left. IsLeft D.File.bytes given.now left.0.items left.1) }
    ensures damage { IfErr result (NamesInput D.File.bytes given.now.tables) }
    ensures counted { Counted D.faults D.misses D.frame dev.old dev.new
        (IsErrOf result WorkCause.Fault) }
    ensures told { D.told dev.new ≡ D.told dev.old }
{
    match gathered(alloc, given.tables(), dev) {
        Ok((entries, spans)) => {
            let left = thin(alloc, &entries, &spans, given.stripes(), given.floor())?;
            Ok(left)
        }
        Err(no) => Err(cause_of_table(no)),
    }
}

/// What stops the work where a table can't be read.
fn cause_of_table(no: TableNo) -> WorkCause
    ensures { result ≡ cause_of_table no }
{
    match no {
        TableNo::ReadFault => WorkCause::Fault,
        TableNo::Damaged { backing, at } => WorkCause::Damaged { backing, at },
        TableNo::Memory => WorkCause::Memory,
    }
}
