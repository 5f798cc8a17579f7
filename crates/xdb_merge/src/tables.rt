//! The views of tables, opened for a merged cursor.
ghost use Rattle.std.specs.Prelude.{◌≡◌, ◌∷◌, [], IfOk, IfErr, IsErrOf};
ghost use Rattle.xdb_device.specs.Counted.{Counted};
ghost use Rattle.xdb_merge.specs.Tables.{tables_in, IsViewOf, AreViewsOf, NamesDamage};

use std::alloc::Global;
use xdb_device::{FileRef, Reader};
use xdb_key::KeyRange;
use xdb_meta::TableMeta;
use xdb_table_r::{TableFile, TableNo, View};

/// Opens the tables in their order, each to be seen within its bounds and with its synthetic number.
pub fn open_views<F: FileRef, R: Reader<File = F>>(
    alloc: Global,
    tables: &[(TableMeta, F)],
    dev: &mut R,
) -> Result<Vec<View<F>>, TableNo>
    ensures counted { Counted R.faults R.misses R.frame dev.old dev.new
        (IsErrOf result TableNo.ReadFault) }
    ensures told { R.told dev.new ≡ R.told dev.old }
    ensures views { IfOk result (λ made. AreViewsOf F.bytes tables.now made.items) }
    // Over a file that tells its bytes, only a defect is called one.
    ensures damage { IfErr result (NamesDamage F.bytes tables.now) }
{
    let mut views = Vec::with_capacity(alloc, tables.len())?;
    for (meta, file) in tables {
        views.push(open_view(alloc, meta, file, dev)?)?;
    }
    Ok(views)
}

/// Opens those of the tables, in their order, that may have keys of the range.
pub fn open_views_in<F: FileRef, R: Reader<File = F>>(
    alloc: Global,
    tables: &[(TableMeta, F)],
    range: &KeyRange,
    dev: &mut R,
) -> Result<Vec<View<F>>, TableNo>
    ensures counted { Counted R.faults R.misses R.frame dev.old dev.new
        (IsErrOf result TableNo.ReadFault) }
    ensures told { R.told dev.new ≡ R.told dev.old }
    // Where there is none, the device isn't used, and only memory can be wanting.
    ensures alone { tables_in range.now tables.now ≡ [] → dev.new ≡ dev.old }
    ensures calm { tables_in range.now tables.now ≡ []
        → IfErr result (λ no. no ≡ TableNo.Memory) }
    ensures views { IfOk result (λ made.
        AreViewsOf F.bytes (tables_in range.now tables.now) made.items) }
    // Over a file that tells its bytes, only a defect is called one.
    ensures damage { IfErr result (NamesDamage F.bytes (tables_in range.now tables.now)) }
{
    let mut views = Vec::new(alloc);
    for (meta, file) in tables {
        if meta.range().meets(range) {
            views.push(open_view(alloc, meta, file, dev)?)?;
        }
    }
    Ok(views)
}

fn open_view<F: FileRef, R: Reader<File = F>>(
    alloc: Global,
    meta: &TableMeta,
    file: &F,
    dev: &mut R,
) -> Result<View<F>, TableNo>
    ensures counted { Counted R.faults R.misses R.frame dev.old dev.new
        (IsErrOf result TableNo.ReadFault) }
    ensures told { R.told dev.new ≡ R.told dev.old }
    ensures view { IfOk result (IsViewOf F.bytes (meta.now, file.now)) }
    ensures damage { IfErr result (NamesDamage F.bytes ((meta.now, file.now) ∷ [])) }
{
    let lo = meta.lo().copy()?;
    let hi = meta.hi().copy()?;
    let table = TableFile::open(alloc, file.share()?, meta.backing(), dev)?;
    Ok(View::new(table, lo, hi, meta.synthetic()))
}
