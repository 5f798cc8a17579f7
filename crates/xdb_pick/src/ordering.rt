//! Tables and ranges in the orders that plans need.
ghost use Rattle.std.specs.Prelude.{◌≡◌, ◌++◌, ◌+◌, ◌<◌, map, IsTrue, IfOk, OnOk};
ghost use Rattle.std.specs.List.Sorted.{IsPermutation};
ghost use Rattle.xdb_lists.specs.Sorted.{is_sorted};
ghost use Rattle.xdb_meta.specs.Table.{bounds_of};
ghost use Rattle.xdb_edit.specs.Plans.{by_num};
ghost use Rattle.xdb_levels.specs.Levels.{met};
ghost use Rattle.xdb_pick.specs.Hulls.{all_bounds, lent, start_cmp};
ghost use Rattle.xdb_pick.specs.Trying.{turn};

use std::alloc::AllocError;
use xdb_key::{KeyRange, compare};
use xdb_levels::Version;
use xdb_meta::TableMeta;

/// The tables of a level whose bounds meet the range.
fn meeting<'a>(
    v: &'a Version,
    level: usize,
    range: &KeyRange,
) -> Result<Vec<&'a TableMeta>, AllocError>
    requires { level < 7 }
    ensures { IfOk result (λ found. lent found.items ≡ met v.now level range.now) }
{
    let tables = v.candidates(level, range);
    let mut found = Vec::new(v.allocator());
    for table in tables {
        if range.meets(table.range()) {
            found.push(table)?;
        }
    }
    Ok(found)
}

/// The tables by rising number. Of two with one number the later one comes first.
fn by_num(mut tables: Vec<&TableMeta>) -> Result<Vec<&TableMeta>, AllocError>
    ensures { IfOk result (λ sorted. lent sorted.items ≡ by_num (lent tables.entry.items)) }
{
    tables.reverse();
    tables.sort_by(|a, b| a.num().cmp(&b.num()))?;
    Ok(tables)
}

/// The tables of a level that meet the hull, by rising number.
pub fn inputs<'a>(
    v: &'a Version,
    level: usize,
    hull: &KeyRange,
) -> Result<Vec<&'a TableMeta>, AllocError>
    requires { level < 7 }
    ensures { IfOk result (λ found. lent found.items ≡ by_num (met v.now level hull.now)) }
{
    by_num(meeting(v, level, hull)?)
}

/// The tables of a level in the order in which plans are tried for them.
pub fn in_turn(v: &Version, level: usize) -> Result<Vec<&TableMeta>, AllocError>
    requires { level < 7 }
    ensures { IfOk result (λ tables. lent tables.items ≡ turn v.now level) }
{
    let tables = v.tables(level).iter().collect(v.allocator())?;
    if level == 0 {
        Ok(tables)
    } else {
        by_num(tables)
    }
}

/// The bounds of the tables of a level and of the next, by where they begin.
pub fn by_start(v: &Version, level: usize) -> Result<Vec<&KeyRange>, AllocError>
    requires { level < 6 }
    ensures sorted { IfOk result (λ ranges. IsTrue (is_sorted start_cmp (lent ranges.items))) }
    ensures all { IfOk result (λ made. IsPermutation (all_bounds v.now level) (lent made.items)) }
{
    let mut ranges = Vec::new(v.allocator());
    put_ranges(&mut ranges, v.tables(level))?;
    put_ranges(&mut ranges, v.tables(level + 1))?;
    ranges.sort_by(|a, b| compare(a.lo().bytes(), b.lo().bytes()))?;
    Ok(ranges)
}

fn put_ranges<'a>(out: &mut Vec<&'a KeyRange>, tables: &'a [TableMeta]) -> Result<(), AllocError>
    ensures { OnOk result (lent out.new.items ≡ lent out.old.items ++ map bounds_of tables.now) }
{
    for table in tables {
        out.push(table.range())?;
    }
    Ok(())
}
