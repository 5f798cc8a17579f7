//! The tables of a level that meet a range.
ghost use Rattle.std.specs.Prelude.{◌≡◌, ◌≤◌, true, false, suc, ℕ, length, IsTrue, IfOk, Some, None};
ghost use Rattle.std.specs.List.{list_all};
ghost use Rattle.std.specs.List.Sorted.{IsPartitionPoint};
ghost use Rattle.xdb_key.specs.Order.{is_below, is_upto};
ghost use Rattle.xdb_edit.specs.Versions.{LevelLists, is_disjoint, has_range, meeting_in, overlap};
ghost use Rattle.xdb_edit.specs.Plans.{meeting};
ghost use Rattle.xdb_levels.specs.Levels.{numbers};

use crate::tables::Tables;
use smallvec::SmallVec;
use std::alloc::{AllocError, Global};
use xdb_key::{Bound, KeyRange, is_below, is_upto};
use xdb_meta::TableMeta;

/// The numbers of the tables whose bounds meet the range, in order.
pub fn numbers_meeting(
    alloc: Global,
    tables: &[TableMeta],
    range: &KeyRange,
) -> Result<SmallVec<u64, 8>, AllocError>
    ensures { IfOk result (λ found. found.items ≡ numbers (meeting range.now tables.now)) }
{
    let mut found = SmallVec::new(alloc);
    for table in tables {
        if range.meets(table.range()) {
            found.push(table.num())?;
        }
    }
    Ok(found)
}

/// Of tables that are apart, those that meet the range: two binary searches find where they begin and
/// where they end.
pub fn only_meeting<'a>(tables: &'a [TableMeta], range: &KeyRange) -> &'a [TableMeta]
    requires disjoint { IsTrue (is_disjoint tables.now) }
    requires ranges { IsTrue (list_all has_range tables.now) }
    ensures { result.now ≡ meeting range.now tables.now }
{
    let rest = &tables[first_behind(tables, range.lo())..];
    &rest[..first_from(rest, range.hi())]
}

/// The place of the first table that ends behind the bound.
fn first_behind(tables: &[TableMeta], at: &Bound) -> usize
    requires disjoint { IsTrue (is_disjoint tables.now) }
    requires ranges { IsTrue (list_all has_range tables.now) }
    ensures bound { result ≤ length tables.now }
    ensures split { IsPartitionPoint (λ t. is_upto t.hi at.now ≡ true) (λ t. is_upto t.hi at.now ≡ false) tables.now result }
{
    tables.partition_point(|table| is_upto(table.hi().bytes(), at.bytes()))
}

/// The place of the first table that begins at the bound or behind it.
fn first_from(tables: &[TableMeta], at: &Bound) -> usize
    requires disjoint { IsTrue (is_disjoint tables.now) }
    requires ranges { IsTrue (list_all has_range tables.now) }
    ensures bound { result ≤ length tables.now }
    ensures split { IsPartitionPoint (λ t. is_below t.lo at.now ≡ true) (λ t. is_below t.lo at.now ≡ false) tables.now result }
{
    tables.partition_point(|table| is_below(table.lo().bytes(), at.bytes()))
}
