//! Plans for a range.
ghost use Rattle.std.specs.Prelude.{◌≡◌, ◌≤◌, ◌<◌, ◌++◌, map, IfOk, OnOk};
ghost use Rattle.xdb_meta.specs.Table.{bounds_of};
ghost use Rattle.xdb_edit.specs.Plans.{inputs_at, planned, plan_for};
ghost use Rattle.xdb_pick.specs.Hulls.{bounds_from, lent_name};

use crate::Plan;
use crate::growing::plan_hull;
use crate::hull::meets_one;
use crate::ordering::inputs;
use std::alloc::AllocError;
use xdb_key::KeyRange;
use xdb_levels::Version;
use xdb_meta::TableMeta;

/// The level that a plan takes from at most. Nothing is below L6, so its tables stay.
const LAST_LEVEL: usize = 5;

/// The plan that begins with the tables of a level whose bounds meet the range, and takes in what these meet
/// of the level and of the next, until nothing is added. `running` are the hulls of running compactions. None
/// for levels below L5, where no table of the level meets the range, and where the plan's hull meets a running
/// one. It takes as many steps as there are tables in the two levels, but for sorting those of L0.
pub fn plan_for(
    v: &Version,
    running: &[KeyRange],
    level: usize,
    range: &KeyRange,
) -> Result<Option<Plan>, AllocError>
    ensures { IfOk result (λ plan. plan ≡ plan_for v.now running.now level range.now) }
{
    if level > LAST_LEVEL {
        return Ok(None);
    }
    match plan_hull(v, level, range)? {
        Some(hull) if !meets_one(&hull, running) => Ok(Some(planned(v, level, hull)?)),
        _ => Ok(None),
    }
}

/// The plan over a hull, of a level into the next.
pub fn planned(v: &Version, level: usize, hull: KeyRange) -> Result<Plan, AllocError>
    requires { level < 6 }
    ensures { IfOk result (λ plan. plan ≡ planned v.now level hull) }
{
    let mut inputs = Vec::new(v.allocator());
    put_inputs(&mut inputs, v, level, &hull)?;
    put_inputs(&mut inputs, v, level + 1, &hull)?;
    let floor = floor(v, level + 2)?;
    Ok(Plan {
        level,
        inputs,
        hull,
        floor,
    })
}

fn put_inputs(
    out: &mut Vec<(u8, u64)>,
    v: &Version,
    level: usize,
    hull: &KeyRange,
) -> Result<(), AllocError>
    requires { level < 7 }
    ensures { OnOk result (out.new.items ≡ out.old.items ++ inputs_at v.now level hull.now) }
{
    put_names(out, level as u8, &inputs(v, level, hull)?)
}

fn put_names(out: &mut Vec<(u8, u64)>, level: u8, tables: &[&TableMeta]) -> Result<(), AllocError>
    ensures { OnOk result (out.new.items ≡ out.old.items ++ map (lent_name level) tables.now) }
{
    for table in tables {
        out.push((level, table.num()))?;
    }
    Ok(())
}

/// The bounds of the tables from a level on.
fn floor(v: &Version, from: usize) -> Result<Vec<KeyRange>, AllocError>
    requires { from ≤ 7 }
    ensures { IfOk result (λ floor. floor.items ≡ bounds_from v.now from) }
{
    let mut floor = Vec::new(v.allocator());
    for level in from..v.count() {
        put_bounds(&mut floor, v.tables(level))?;
    }
    Ok(floor)
}

fn put_bounds(out: &mut Vec<KeyRange>, tables: &[TableMeta]) -> Result<(), AllocError>
    ensures { OnOk result (out.new.items ≡ out.old.items ++ map bounds_of tables.now) }
{
    for table in tables {
        out.push(table.range().copy()?)?;
    }
    Ok(())
}
