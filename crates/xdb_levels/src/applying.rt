//! What an edit makes of levels, and what keeps it from being applied.
ghost use Rattle.std.specs.Prelude.{◌≡◌, ◌≤◌, ◌++◌, ℕ, not, length, reverse, filter, IsTrue, IfOk, OnOk};
ghost use Rattle.std.specs.List.{list_all};
ghost use Rattle.xdb_edit.specs.Versions.{table_cmp, added_to, edited_level, edited, missing_from, meeting_in, overlap, is_sorted, are_sorted, has_range};
ghost use Rattle.xdb_levels.specs.Names.{is_named};

use crate::names::{Names, names_of};
use crate::tables::{Tables, compare};
use std::alloc::{AllocError, Global};
use xdb_edit::Edit;
use xdb_key::is_below;
use xdb_meta::TableMeta;

/// The number of the first of these tables, each named by level and number, that isn't there.
pub fn missing(
    alloc: Global,
    levels: &[Tables],
    removed: &[(u8, u64)],
) -> Result<Option<u64>, AllocError>
    requires { length levels.now ≤ 16 }
    ensures { IfOk result (λ num. num ≡ missing_from levels.now removed.now) }
{
    let there = Names::sorted(names_of(alloc, levels)?);
    for (level, num) in removed {
        if !there.has(*level, *num) {
            return Ok(Some(*num));
        }
    }
    Ok(None)
}

/// The levels after the edit.
pub fn edited<const N: usize>(
    alloc: Global,
    levels: &[Tables; N],
    edit: &Edit,
) -> Result<[Tables; N], AllocError>
    requires few { N ≤ 16 }
    requires sorted { IsTrue (are_sorted levels.now) }
    ensures { IfOk result (λ made. made ≡ edited levels.now edit.now) }
{
    let gone = Names::sorted(Vec::from_slice(alloc, edit.removed())?);
    let mut made = std::array::from_fn(|_| Tables::none(alloc));
    for level in 0..N {
        made[level] = edited_level(alloc, level as u8, levels[level].list(), edit, &gone)?;
    }
    Ok(made)
}

/// The tables of a level after the edit. What comes stands before what stays; the stable sort finds the
/// run of what stays, and merges it with what comes, so that few added tables cost few steps beside one
/// for each table.
fn edited_level(
    alloc: Global,
    level: u8,
    tables: &[TableMeta],
    edit: &Edit,
    gone: &Names,
) -> Result<Tables, AllocError>
    requires gone { (at num : ℕ) → is_named gone.now at num ≡ is_named edit.now.removed at num }
    requires sorted { IsTrue (is_sorted (table_cmp level) tables.now) }
    ensures { IfOk result (λ made. made ≡ edited_level edit.now level tables.now) }
{
    let mut made = last_added_first(alloc, level, edit)?;
    put_staying(&mut made, level, tables, gone)?;
    made.sort_by(|a, b| compare(level, a, b))?;
    Ok(Tables::new(made))
}

/// What the edit adds to the level, the last first: of tables that tie the last added one comes first.
fn last_added_first(alloc: Global, level: u8, edit: &Edit) -> Result<Vec<TableMeta>, AllocError>
    ensures { IfOk result (λ made. made.items ≡ reverse (added_to edit.now level)) }
{
    let mut made = Vec::new(alloc);
    for (at, table) in edit.added() {
        if *at == level {
            made.push(table.copy()?)?;
        }
    }
    made.reverse();
    Ok(made)
}

/// Appends the tables of the level that aren't named.
fn put_staying(
    out: &mut Vec<TableMeta>,
    level: u8,
    tables: &[TableMeta],
    gone: &Names,
) -> Result<(), AllocError>
    ensures { OnOk result (out.new.items ≡ out.old.items ++ filter (λ t. not (is_named gone.now level t.num)) tables.now) }
{
    for table in tables {
        if !gone.has(level, table.num()) {
            out.push(table.copy()?)?;
        }
    }
    Ok(())
}

/// The first two neighbours whose bounds meet, of the least level above L0 that has such.
pub fn overlap(levels: &[Tables]) -> Option<(u64, u64)>
    ensures { result ≡ overlap levels.now }
{
    for level in 1..levels.len() {
        if let Some(found) = meeting_in(levels[level].list()) {
            return Some(found);
        }
    }
    None
}

/// The first two neighbours whose bounds meet.
fn meeting_in(tables: &[TableMeta]) -> Option<(u64, u64)>
    ensures { result ≡ meeting_in tables.now }
{
    for place in 1..tables.len() {
        let (a, b) = (&tables[place - 1], &tables[place]);
        if a.range().meets(b.range()) {
            return Some((a.num(), b.num()));
        }
    }
    None
}

/// Whether each added table begins before it ends, as each table does.
pub fn have_ranges(added: &[(u8, TableMeta)]) -> bool
    ensures all { IsTrue result }
    ensures ranges { IsTrue (list_all (λ a. has_range a.1) added.now) }
{
    for (_, table) in added {
        let range = table.range();
        if !is_below(range.lo().bytes(), range.hi().bytes()) {
            return false;
        }
    }
    true
}
