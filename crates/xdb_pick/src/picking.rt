//! The compaction that is most wanted.
ghost use Rattle.std.specs.Prelude.{◌≡◌, ◌≤◌, ◌<◌, ◌*◌, ◌-◌, ◌^◌, map, sum, nat_lt, IfOk, OnOk};
ghost use Rattle.xdb_edit.specs.Plans.{is_due, plan_of_first, pick};
ghost use Rattle.xdb_pick.specs.Hulls.{lent};
ghost use Rattle.xdb_pick.specs.Trying.{turn, plan_of_level, first_of, plan_of_table, over, IsTableOf, AreTablesOf, AreShut};

use crate::Plan;
use crate::growing::plan_hull;
use crate::hull::meets_one;
use crate::ordering::in_turn;
use crate::planning::planned;
use std::alloc::AllocError;
use xdb_key::{KeyRange, is_below};
use xdb_levels::Version;
use xdb_meta::TableMeta;

/// How many tables make L0 due.
const L0_TABLES: usize = 4;

/// The bytes that L1 may have. Each level below may have eight times those of the level above.
const L1_BYTES: u64 = 65_536;

/// The plan for the first of the levels from L0 on that are due and of their tables, in turn, for which there
/// is a plan. L0 is due with four tables, a level l below it when its tables have more than 65,536 · 8^(l-1)
/// bytes. The tables of L0 are tried in its order, those of other levels by number. `running` are the hulls of
/// running compactions.
pub fn pick(v: &Version, running: &[KeyRange]) -> Result<Option<Plan>, AllocError>
    ensures { IfOk result (λ plan. plan ≡ pick v.now running.now) }
{
    for level in 0..v.count() - 1 {
        if let Some(plan) = plan_of_level(v, running, level)? {
            return Ok(Some(plan));
        }
    }
    Ok(None)
}

fn plan_of_level(
    v: &Version,
    running: &[KeyRange],
    level: usize,
) -> Result<Option<Plan>, AllocError>
    requires { level < 6 }
    ensures { IfOk result (λ plan. plan ≡ plan_of_level v.now running.now level) }
{
    if is_due(level, v.tables(level)) {
        plan_of_first(v, running, level)
    } else {
        Ok(None)
    }
}

fn is_due(level: usize, tables: &[TableMeta]) -> bool
    requires { level < 6 }
    ensures { result ≡ is_due level tables.now }
{
    if level == 0 {
        tables.len() >= L0_TABLES
    } else {
        have_more(tables, L1_BYTES * 8u64.pow(level as u32 - 1))
    }
}

/// Whether the tables have more bytes than that.
fn have_more(tables: &[TableMeta], most: u64) -> bool
    requires { most < 2 ^ 56 }
    ensures { result ≡ nat_lt most (sum (map (λ t. t.size) tables.now)) }
{
    let mut bytes = 0;
    for table in tables {
        bytes += table.size();
        if bytes > most {
            return true;
        }
    }
    false
}

fn plan_of_first(
    v: &Version,
    running: &[KeyRange],
    level: usize,
) -> Result<Option<Plan>, AllocError>
    requires { level < 6 }
    ensures { IfOk result (λ p. p ≡ plan_of_first v.now running.now level (turn v.now level)) }
{
    first_plan(v, running, level, &in_turn(v, level)?)
}

/// The first plan for one of the tables of a level. Tables within a hull that a running compaction meets have
/// no plan, so few hulls are found in vain: two for each running compaction at most.
fn first_plan(
    v: &Version,
    running: &[KeyRange],
    level: usize,
    tables: &[&TableMeta],
) -> Result<Option<Plan>, AllocError>
    requires level { level < 6 }
    requires tables { AreTablesOf v.now level (lent tables.now) }
    ensures { IfOk result (λ plan. plan ≡ first_of v.now running.now level tables.now) }
{
    let mut shut = Vec::new(v.allocator());
    for table in tables {
        if let Some(hull) = free_hull(v, running, level, table, &mut shut)? {
            return Ok(Some(planned(v, level, hull)?));
        }
    }
    Ok(None)
}

/// The hull of the plan for a table; none where a running compaction meets it. Hulls that one meets are put
/// to `shut`.
fn free_hull(
    v: &Version,
    running: &[KeyRange],
    level: usize,
    table: &TableMeta,
    shut: &mut Vec<KeyRange>,
) -> Result<Option<KeyRange>, AllocError>
    requires level { level < 6 }
    requires table { IsTableOf v.now level table.now }
    requires shut { AreShut v.now running.now level shut.old.items }
    ensures plan { IfOk result (λ hull. over v.now level hull
        ≡ plan_of_table v.now running.now level table.now) }
    ensures shut { OnOk result (AreShut v.now running.now level shut.new.items) }
{
    let range = table.range();
    prove!(is_below(range.lo().bytes(), range.hi().bytes()));
    if meets_one(range, running) || meets_one(range, shut) {
        return Ok(None);
    }
    let Some(hull) = plan_hull(v, level, range)? else {
        return Ok(None);
    };
    if !meets_one(&hull, running) {
        return Ok(Some(hull));
    }
    shut.push(hull)?;
    Ok(None)
}
