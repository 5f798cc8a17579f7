//! The hull of a plan: where it begins, and how it grows.
ghost use Rattle.std.specs.Prelude.{◌≡◌, ◌<◌, IfOk};
ghost use Rattle.xdb_edit.specs.Plans.{meeting};
ghost use Rattle.xdb_pick.specs.Hulls.{grown_over, hull_of, hull_with, plan_hull};

use crate::hull::Hull;
use crate::ordering::by_start;
use std::alloc::AllocError;
use xdb_key::KeyRange;
use xdb_levels::Version;
use xdb_meta::TableMeta;

/// The hull of the plan that begins with the tables of a level that meet the range; none where none does.
pub fn plan_hull(
    v: &Version,
    level: usize,
    range: &KeyRange,
) -> Result<Option<KeyRange>, AllocError>
    requires { level < 6 }
    ensures { IfOk result (λ hull. hull ≡ plan_hull v.now level range.now) }
{
    let Some(first) = hull_over(v.candidates(level, range), range) else {
        return Ok(None);
    };
    let hull = grown(v, level, first)?.range()?;
    Ok(Some(hull))
}

/// The least range with the bounds of all tables that meet the range.
fn hull_over<'a>(tables: &'a [TableMeta], range: &KeyRange) -> Option<Hull<'a>>
    ensures { result ≡ hull_of (meeting range.now tables.now) }
{
    let mut hull = None;
    for table in tables {
        let bounds = table.range();
        if range.meets(bounds) {
            hull = Some(with(hull, bounds));
        }
    }
    hull
}

fn with<'a>(hull: Option<Hull<'a>>, range: &'a KeyRange) -> Hull<'a>
    ensures { result ≡ hull_with hull.entry range.now }
{
    match hull {
        Some(hull) => hull.wider(range),
        None => Hull::of(range),
    }
}

/// The hull, grown over the tables of the level and of the next until it meets no more of them. By where they
/// begin, one pass up finds all that it meets above its start, and one pass down all below.
fn grown<'a>(v: &'a Version, level: usize, hull: Hull<'a>) -> Result<Hull<'a>, AllocError>
    requires { level < 6 }
    ensures { IfOk result (λ grew. grew ≡ grown_over v.now level hull.entry) }
{
    prove!(hull.has_key());
    let mut ranges = by_start(v, level)?;
    let up = hull.swept(&ranges);
    ranges.reverse();
    Ok(up.swept(&ranges))
}
