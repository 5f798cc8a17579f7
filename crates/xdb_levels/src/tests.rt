ghost use Rattle.std.specs.Prelude.{◌<◌, ◌≤◌, IsTrue};
ghost use Rattle.xdb_levels.specs.Applying.{names_below};

use crate::ApplyNo::{self, NoSuchTable, Overlap};
use crate::{Levels, Version};
use std::alloc::Global;
use std::test::Fail;
use xdb_edit::Edit;
use xdb_key::{Bound, Extent, KeyRange};
use xdb_meta::{TableMeta, is_number, is_seq};

/// A table in a file of its own: its level, its number, its bounds and its greatest sequence number.
type Row = (u8, u64, &'static str, &'static str, u64);

fn range(alloc: Global, lo: &str, hi: &str) -> Result<KeyRange, Fail> {
    let lo = Bound::new(lo.as_bytes().to_vec(alloc)?)?;
    let hi = Bound::new(hi.as_bytes().to_vec(alloc)?)?;
    Ok(KeyRange::new(lo, hi)?)
}

fn table(alloc: Global, row: &Row) -> Result<TableMeta, Fail> {
    let (_, num, lo, hi, seq_hi) = *row;
    if !is_number(num) || !is_seq(seq_hi) {
        return Err(Fail::from("no table has such a number"));
    }
    let extent = Extent::new(range(alloc, lo, hi)?, 0, seq_hi);
    Ok(TableMeta::physical(num, extent, 0, 85))
}

fn tables(alloc: Global, rows: &[Row]) -> Result<Vec<(u8, TableMeta)>, Fail> {
    let mut tables = Vec::new(alloc);
    for row in rows {
        tables.push((row.0, table(alloc, row)?))?;
    }
    Ok(tables)
}

fn edit_of(
    alloc: Global,
    removed: &[(u8, u64)],
    added: Vec<(u8, TableMeta)>,
) -> Result<Edit, Fail> {
    let removed = Vec::from_slice(alloc, removed)?;
    Ok(Edit::new(removed, Vec::new(alloc), added)?)
}

fn edit(alloc: Global, removed: &[(u8, u64)], added: &[Row]) -> Result<Edit, Fail> {
    edit_of(alloc, removed, tables(alloc, added)?)
}

/// Whether each level that the edit names is below the number.
fn is_below(edit: &Edit, levels: usize) -> bool
    ensures { IsTrue result → IsTrue (names_below levels edit.now) }
{
    for (level, _) in edit.removed() {
        if usize::from(*level) >= levels {
            return false;
        }
    }
    for (level, _) in edit.added() {
        if usize::from(*level) >= levels {
            return false;
        }
    }
    true
}

/// The levels after the edit, whose levels are to be below N.
fn applied<const N: usize>(levels: &Levels<N>, edit: &Edit) -> Result<Levels<N>, ApplyNo> {
    if !is_below(edit, N) {
        return Err(ApplyNo::Memory);
    }
    levels.apply(edit)
}

fn are_numbered(tables: &[TableMeta], nums: &[u64]) -> bool {
    tables.len() == nums.len()
        && tables
            .iter()
            .zip(nums)
            .all(|(table, num)| table.num() == *num)
}

/// The levels after an edit.
fn after<const N: usize>(
    alloc: Global,
    levels: &Levels<N>,
    removed: &[(u8, u64)],
    added: &[Row],
) -> Result<Levels<N>, Fail> {
    let edit = edit(alloc, removed, added)?;
    Ok(applied(levels, &edit)?)
}

/// Levels with these tables.
fn with<const N: usize>(alloc: Global, rows: &[Row]) -> Result<Levels<N>, Fail>
    requires some { 1 ≤ N }
    requires few { N ≤ 16 }
{
    let empty: Levels<N> = Levels::new(alloc);
    after(alloc, &empty, &[], rows)
}

/// Why levels without tables refuse an edit.
fn refusal(alloc: Global, removed: &[(u8, u64)], added: &[Row]) -> Result<Option<ApplyNo>, Fail> {
    let edit = edit(alloc, removed, added)?;
    let empty: Version = Levels::new(alloc);
    Ok(applied(&empty, &edit).err())
}

#[test]
fn vector_apply(rt: HostRuntime) -> Result<(), Fail> {
    let alloc = rt.alloc();
    let in_l1 = [(1, 1, "a", "c", 5), (1, 2, "b", "d", 5)];
    let in_l0 = [(0, 1, "a", "c", 5), (0, 2, "b", "d", 5)];
    assert!(rt; refusal(alloc, &[(0, 9)], &[])? == Some(NoSuchTable { num: 9 }));
    assert!(rt; refusal(alloc, &[], &in_l1)? == Some(Overlap { a: 1, b: 2 }));
    assert!(rt; refusal(alloc, &[], &in_l0)? == None);
    let levels: Version = with(alloc, &in_l0)?;
    assert!(rt; are_numbered(levels.tables(0), &[1, 2]));
    Ok(())
}

/// L0 stands by the greatest sequence number, the others by where a table begins.
const ROWS: [Row; 6] = [
    (0, 1, "a", "c", 8),
    (0, 2, "b", "d", 5),
    (0, 3, "e", "f", 5),
    (1, 4, "m", "p", 3),
    (1, 5, "a", "c", 4),
    (2, 6, "a", "z", 1),
];

fn stand_in_order<const N: usize>(levels: &Levels<N>) -> bool
    requires { 3 ≤ N }
{
    are_numbered(levels.tables(0), &[2, 3, 1])
        && are_numbered(levels.tables(1), &[5, 4])
        && are_numbered(levels.tables(2), &[6])
}

#[test]
fn levels_in_order(rt: HostRuntime) -> Result<(), Fail> {
    let levels: Levels<3> = with(rt.alloc(), &ROWS)?;
    assert!(rt; stand_in_order(&levels));
    Ok(())
}

#[test]
fn levels_of_a_version_in_order(rt: HostRuntime) -> Result<(), Fail> {
    let levels: Version = with(rt.alloc(), &ROWS)?;
    assert!(rt; stand_in_order(&levels));
    Ok(())
}

/// Levels in which table 7 stands in place of table 5.
fn with_another<const N: usize>(alloc: Global) -> Result<Levels<N>, Fail>
    requires some { 1 ≤ N }
    requires few { N ≤ 16 }
{
    let levels: Levels<N> = with(alloc, &ROWS)?;
    after(alloc, &levels, &[(1, 5)], &[(1, 7, "c", "m", 9)])
}

#[test]
fn another_table_in_its_place(rt: HostRuntime) -> Result<(), Fail> {
    let levels: Levels<3> = with_another(rt.alloc())?;
    assert!(rt; are_numbered(levels.tables(1), &[7, 4]));
    Ok(())
}

#[test]
fn another_table_of_a_version(rt: HostRuntime) -> Result<(), Fail> {
    let levels: Version = with_another(rt.alloc())?;
    assert!(rt; are_numbered(levels.tables(1), &[7, 4]));
    Ok(())
}

/// The greatest number.
const MOST: u64 = (1 << 56) - 1;

/// As few and as many levels as there may be, with a table in the last one.
#[test]
fn one_level_and_sixteen(rt: HostRuntime) -> Result<(), Fail> {
    let alloc = rt.alloc();
    let one: Levels<1> = with(alloc, &[(0, MOST, "a", "c", MOST)])?;
    assert!(rt; are_numbered(one.tables(0), &[MOST]));
    let many: Levels<16> = with(alloc, &[(15, 1, "a", "c", 0)])?;
    assert!(rt; are_numbered(many.tables(15), &[1]));
    assert!(rt; one.count() == 1 && many.count() == 16);
    Ok(())
}

fn left(alloc: Global) -> Result<TableMeta, Fail> {
    let extent = Extent::new(range(alloc, "a", "c")?, 1, 5);
    Ok(TableMeta::virtual_(2, 1, extent, 0, 43))
}

fn right(alloc: Global) -> Result<TableMeta, Fail> {
    let extent = Extent::new(range(alloc, "m", "z")?, 1, 5);
    Ok(TableMeta::virtual_(3, 1, extent, 0, 43))
}

fn halves(alloc: Global) -> Result<Vec<(u8, TableMeta)>, Fail> {
    let mut halves = Vec::new(alloc);
    halves.push((1, left(alloc)?))?;
    halves.push((1, right(alloc)?))?;
    Ok(halves)
}

/// The levels with two halves in place of table 1.
fn cut(alloc: Global, levels: &Version) -> Result<Version, Fail> {
    let edit = edit_of(alloc, &[(1, 1)], halves(alloc)?)?;
    Ok(applied(levels, &edit)?)
}

/// Whether the levels are cut, and stay as they were.
fn is_cut(alloc: Global, levels: &Version) -> Result<bool, Fail> {
    let cut = cut(alloc, levels)?;
    Ok(
        are_numbered(levels.tables(1), &[1])
            && are_numbered(cut.tables(1), &[2, 3])
            && cut.tables(1).iter().all(|table| table.backing() == 1),
    )
}

#[test]
fn halves_in_place_of_a_table(rt: HostRuntime) -> Result<(), Fail> {
    let alloc = rt.alloc();
    let whole: Version = with(alloc, &[(1, 1, "a", "z", 5)])?;
    assert!(rt; is_cut(alloc, &whole)?);
    Ok(())
}

/// The bounds of a range, and the numbers of the tables that meet it.
type Met = (&'static str, &'static str, &'static [u64]);

const MET: [Met; 7] = [
    ("b", "c", &[1]),
    ("c", "e", &[]),
    ("c", "f", &[2]),
    ("f", "g", &[2]),
    ("g", "h", &[3]),
    ("b", "h", &[1, 2, 3]),
    ("k", "z", &[]),
];

fn meet(
    alloc: Global,
    levels: &Version,
    level: u8,
    lo: &str,
    hi: &str,
    nums: &[u64],
) -> Result<bool, Fail>
    requires { level < 7 }
{
    let range = range(alloc, lo, hi)?;
    let found = levels.overlapping(usize::from(level), &range)?;
    Ok(found.as_slice() == nums && are_candidates(levels, level, &range, nums))
}

/// Whether the tables of the numbers are the candidates: in L0 these are all.
fn are_candidates(levels: &Version, level: u8, range: &KeyRange, nums: &[u64]) -> bool
    requires { level < 7 }
{
    let candidates = levels.candidates(usize::from(level), range);
    if level == 0 {
        are_numbered(candidates, &[1, 2, 3])
    } else {
        are_numbered(candidates, nums)
    }
}

fn three(alloc: Global, level: u8) -> Result<Version, Fail> {
    let rows = [
        (level, 1, "a", "c", 1),
        (level, 2, "e", "g", 2),
        (level, 3, "g", "k", 3),
    ];
    with(alloc, &rows)
}

#[test]
fn tables_that_meet_a_range(rt: HostRuntime) -> Result<(), Fail> {
    let alloc = rt.alloc();
    for level in 0..2u8 {
        let levels = three(alloc, level)?;
        for (lo, hi, nums) in MET {
            assert!(rt;
                meet(alloc, &levels, level, lo, hi, nums)?,
                "{level} {lo} {hi}"
            );
        }
    }
    Ok(())
}

fn place(alloc: Global, n: u16) -> Result<Bound, Fail> {
    Ok(Bound::new(n.to_be_bytes().to_vec(alloc)?)?)
}

/// A table from a place to the next, numbered as the second.
fn at_place(alloc: Global, n: u16) -> Result<TableMeta, Fail>
    requires { n < 2000 }
{
    let range = KeyRange::new(place(alloc, n)?, place(alloc, n + 1)?)?;
    let extent = Extent::new(range, 0, 0);
    Ok(TableMeta::physical(u64::from(n) + 1, extent, 0, 85))
}

fn added_at(alloc: Global, n: u16) -> Result<Vec<(u8, TableMeta)>, Fail>
    requires { n < 2000 }
{
    let mut added = Vec::new(alloc);
    added.push((6, at_place(alloc, n)?))?;
    Ok(added)
}

/// The levels with the table at a place instead of the one before it.
fn moved_on(alloc: Global, levels: &Version, n: u16) -> Result<Version, Fail>
    requires { n < 2000 }
{
    let edit = edit_of(alloc, &[(6, u64::from(n))], added_at(alloc, n)?)?;
    Ok(applied(levels, &edit)?)
}

fn first(alloc: Global) -> Result<Version, Fail> {
    let edit = edit_of(alloc, &[], added_at(alloc, 0)?)?;
    let empty: Version = Levels::new(alloc);
    Ok(applied(&empty, &edit)?)
}

fn after_many(alloc: Global) -> Result<Version, Fail> {
    let mut levels = first(alloc)?;
    for n in 1..2000u16 {
        levels = moved_on(alloc, &levels, n)?;
    }
    Ok(levels)
}

#[test]
fn thousands_of_edits(rt: HostRuntime) -> Result<(), Fail> {
    let levels = after_many(rt.alloc())?;
    assert!(rt; (0..6).all(|level| levels.tables(level).is_empty()));
    assert!(rt; are_numbered(levels.tables(6), &[2000]));
    Ok(())
}

/// Two thousand tables, the last place first.
fn added_at_all(alloc: Global) -> Result<Vec<(u8, TableMeta)>, Fail> {
    let mut added = Vec::new(alloc);
    for n in 0..2000u16 {
        added.push((6, at_place(alloc, 1999 - n)?))?;
    }
    Ok(added)
}

fn with_all(alloc: Global) -> Result<Version, Fail> {
    let edit = edit_of(alloc, &[], added_at_all(alloc)?)?;
    let empty: Version = Levels::new(alloc);
    Ok(applied(&empty, &edit)?)
}

/// Whether just the table at the place meets it.
fn stands_at(alloc: Global, levels: &Version, n: u16) -> Result<bool, Fail>
    requires { n < 2000 }
{
    let range = KeyRange::new(place(alloc, n)?, place(alloc, n + 1)?)?;
    let found = levels.overlapping(6, &range)?;
    Ok(found.as_slice() == [u64::from(n) + 1].as_slice())
}

#[test]
fn thousands_of_tables(rt: HostRuntime) -> Result<(), Fail> {
    let alloc = rt.alloc();
    let levels = with_all(alloc)?;
    for n in 0..2000u16 {
        assert!(rt; stands_at(alloc, &levels, n)?, "{n}");
    }
    Ok(())
}
