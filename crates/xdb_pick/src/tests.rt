ghost use Rattle.std.specs.Prelude.{◌<◌, IsTrue};
ghost use Rattle.xdb_levels.specs.Applying.{names_below};

use crate::{Plan, pick, place, plan_for};
use std::alloc::Global;
use std::test::Fail;
use xdb_edit::Edit;
use xdb_key::{Bound, Extent, KeyRange};
use xdb_levels::{Levels, Version};
use xdb_meta::{TableMeta, is_number, is_seq};

/// A table: its level, its number, its bounds, its greatest sequence number and its size in bytes.
type Row = (u8, u64, &'static str, &'static str, u64, u64);

/// Ranges, each from its first bound on and below its second.
type Spans = &'static [(&'static str, &'static str)];

/// What a plan has: its level, its inputs, its hull and its floor.
type Planned = (
    usize,
    &'static [(u8, u64)],
    (&'static str, &'static str),
    Spans,
);

fn range(alloc: Global, lo: &str, hi: &str) -> Result<KeyRange, Fail> {
    let lo = Bound::new(lo.as_bytes().to_vec(alloc)?)?;
    let hi = Bound::new(hi.as_bytes().to_vec(alloc)?)?;
    Ok(KeyRange::new(lo, hi)?)
}

fn ranges(alloc: Global, spans: Spans) -> Result<Vec<KeyRange>, Fail> {
    let mut ranges = Vec::new(alloc);
    for (lo, hi) in spans {
        ranges.push(range(alloc, lo, hi)?)?;
    }
    Ok(ranges)
}

fn is_range(range: &KeyRange, lo: &str, hi: &str) -> bool {
    range.lo().bytes() == lo.as_bytes() && range.hi().bytes() == hi.as_bytes()
}

fn are_ranges(ranges: &[KeyRange], spans: Spans) -> bool {
    ranges.len() == spans.len()
        && ranges
            .iter()
            .zip(spans)
            .all(|(range, (lo, hi))| is_range(range, lo, hi))
}

/// A table in a file of its own.
fn table(num: u64, range: KeyRange, seq_hi: u64, size: u64) -> Result<TableMeta, Fail> {
    if !is_number(num) || !is_seq(seq_hi) || !is_number(size) {
        return Err(Fail::from("no table has such a number"));
    }
    let extent = Extent::new(range, 0, seq_hi);
    Ok(TableMeta::physical(num, extent, 0, size))
}

/// Whether each level that the edit adds to is one of a version, and nothing is removed.
fn only_adds(edit: &Edit) -> bool
    ensures { IsTrue result → IsTrue (names_below 7 edit.now) }
{
    for (level, _) in edit.added() {
        if *level >= 7 {
            return false;
        }
    }
    edit.removed().is_empty()
}

fn applied(alloc: Global, edit: &Edit) -> Result<Version, Fail> {
    if !only_adds(edit) {
        return Err(Fail::from("no version has such a level"));
    }
    let empty: Version = Levels::new(alloc);
    Ok(empty.apply(edit)?)
}

fn with(alloc: Global, added: Vec<(u8, TableMeta)>) -> Result<Version, Fail> {
    let edit = Edit::new(Vec::new(alloc), Vec::new(alloc), added)?;
    applied(alloc, &edit)
}

fn tables(alloc: Global, rows: &[Row]) -> Result<Vec<(u8, TableMeta)>, Fail> {
    let mut tables = Vec::new(alloc);
    for (level, num, lo, hi, seq_hi, size) in rows {
        tables.push((*level, table(*num, range(alloc, lo, hi)?, *seq_hi, *size)?))?;
    }
    Ok(tables)
}

/// A version with these tables.
fn version(alloc: Global, rows: &[Row]) -> Result<Version, Fail> {
    with(alloc, tables(alloc, rows)?)
}

fn is_plan(plan: &Plan, planned: &Planned) -> bool {
    let (level, inputs, (lo, hi), floor) = *planned;
    plan.level() == level
        && plan.inputs() == inputs
        && is_range(plan.hull(), lo, hi)
        && are_ranges(plan.floor(), floor)
}

fn is_planned(plan: Option<&Plan>, planned: Option<&Planned>) -> bool {
    match (plan, planned) {
        (Some(plan), Some(planned)) => is_plan(plan, planned),
        (None, None) => true,
        _ => false,
    }
}

/// 1 meets 2, 2 meets 3 of L1, 3 meets 4, and 4 meets 5 of L1; 6 is apart. 9 meets 10 of L6.
const CHAIN: [Row; 10] = [
    (0, 1, "a", "d", 9, 85),
    (0, 2, "c", "f", 8, 85),
    (0, 4, "g", "n", 7, 85),
    (0, 6, "x", "z", 6, 85),
    (1, 3, "e", "h", 5, 85),
    (1, 5, "m", "p", 5, 85),
    (2, 7, "b", "c", 4, 85),
    (3, 8, "q", "z", 3, 85),
    (5, 9, "b", "k", 2, 85),
    (6, 10, "j", "l", 1, 85),
];

const BELOW_L1: Spans = &[("b", "c"), ("q", "z"), ("b", "k"), ("j", "l")];

const DRAWN: Planned = (
    0,
    &[(0, 1), (0, 2), (0, 4), (1, 3), (1, 5)],
    ("a", "p"),
    BELOW_L1,
);

const APART: Planned = (0, &[(0, 6)], ("x", "z"), BELOW_L1);

const GAP: Planned = (
    1,
    &[(1, 3), (1, 5)],
    ("e", "p"),
    &[("q", "z"), ("b", "k"), ("j", "l")],
);

const OF_L2: Planned = (2, &[(2, 7)], ("b", "c"), &[("b", "k"), ("j", "l")]);

const OF_L5: Planned = (5, &[(5, 9), (6, 10)], ("b", "l"), &[]);

/// A level, a range, the hulls of running compactions, and the plan.
type Asked = (usize, (&'static str, &'static str), Spans, Option<Planned>);

const ASKED: [Asked; 14] = [
    // The hull grows from table to table, up and down, over both levels.
    (0, ("a", "b"), &[], Some(DRAWN)),
    (0, ("m", "n"), &[], Some(DRAWN)),
    (0, ("x", "y"), &[], Some(APART)),
    // Two tables, and the gap between them.
    (1, ("g", "n"), &[], Some(GAP)),
    (2, ("a", "z"), &[], Some(OF_L2)),
    (5, ("a", "c"), &[], Some(OF_L5)),
    // No table of the level meets the range.
    (0, ("p", "x"), &[], None),
    (1, ("h", "m"), &[], None),
    // L6 has no next level, and no level is below it.
    (6, ("a", "z"), &[], None),
    (usize::MAX, ("a", "z"), &[], None),
    // Running compactions that meet the hull, though not the range; and some that only touch it.
    (0, ("a", "b"), &[("s", "t"), ("o", "q")], None),
    (5, ("a", "c"), &[("k", "l")], None),
    (0, ("a", "b"), &[("p", "x"), ("A", "a")], Some(DRAWN)),
    (0, ("x", "y"), &[("a", "x")], Some(APART)),
];

fn answers(alloc: Global, version: &Version, asked: &Asked) -> Result<bool, Fail> {
    let (level, (lo, hi), running, planned) = asked;
    let running = ranges(alloc, running)?;
    let plan = plan_for(version, &running, *level, &range(alloc, lo, hi)?)?;
    Ok(is_planned(plan.as_ref(), planned.as_ref()))
}

#[test]
fn plans_for_ranges(rt: HostRuntime) -> Result<(), Fail> {
    let version = version(rt.alloc(), &CHAIN)?;
    for asked in &ASKED {
        let answered = answers(rt.alloc(), &version, asked)?;
        assert!(rt; answered, "{} {}", asked.0, asked.1.0);
    }
    Ok(())
}

const THREE: [Row; 3] = [
    (0, 1, "a", "c", 4, 85),
    (0, 2, "e", "g", 3, 85),
    (0, 3, "i", "k", 2, 85),
];
/// By number, by the order of L0, and by their starts these are three orders; and L2 is due.
const FOUR: [Row; 5] = [
    (0, 1, "a", "c", 4, 85),
    (0, 2, "e", "g", 3, 85),
    (0, 3, "i", "k", 2, 85),
    (0, 4, "m", "o", 2, 85),
    (2, 5, "x", "z", 1, 600_000),
];
/// 1 draws in 2, and 2 draws in 3.
const LINKED: [Row; 4] = [
    (0, 1, "a", "d", 1, 85),
    (0, 2, "c", "f", 2, 85),
    (0, 3, "e", "h", 3, 85),
    (0, 4, "x", "z", 4, 85),
];

const HEAVY: [Row; 2] = [(1, 8, "m", "p", 1, 40_000), (1, 9, "a", "c", 1, 40_000)];

/// A version's tables, the hulls of running compactions, and the plan that is picked.
type Picked = (&'static [Row], Spans, Option<Planned>);

const PICKED: [Picked; 9] = [
    (&THREE, &[], None),
    (&FOUR, &[], Some((0, &[(0, 3)], ("i", "k"), &[("x", "z")]))),
    (
        &FOUR,
        &[("j", "l")],
        Some((0, &[(0, 4)], ("m", "o"), &[("x", "z")])),
    ),
    (
        &FOUR,
        &[("n", "p"), ("j", "l")],
        Some((0, &[(0, 2)], ("e", "g"), &[("x", "z")])),
    ),
    // L0 is due first, but all of it is taken.
    (&FOUR, &[("a", "o")], Some((2, &[(2, 5)], ("x", "z"), &[]))),
    (&FOUR, &[("a", "y")], None),
    // 1 doesn't meet the running compaction, but its hull does; so 2 isn't tried.
    (
        &LINKED,
        &[("g", "i")],
        Some((0, &[(0, 4)], ("x", "z"), &[])),
    ),
    (&HEAVY, &[], Some((1, &[(1, 8)], ("m", "p"), &[]))),
    (&HEAVY, &[("o", "q")], Some((1, &[(1, 9)], ("a", "c"), &[]))),
];

fn picks(alloc: Global, version: &Version, picked: &Picked) -> Result<bool, Fail> {
    let (_, running, planned) = picked;
    let plan = pick(version, &ranges(alloc, running)?)?;
    Ok(is_planned(plan.as_ref(), planned.as_ref()))
}

#[test]
fn levels_and_tables_in_turn(rt: HostRuntime) -> Result<(), Fail> {
    for picked in &PICKED {
        let version = version(rt.alloc(), picked.0)?;
        let right = picks(rt.alloc(), &version, picked)?;
        assert!(rt; right, "{}", picked.1.len());
    }
    Ok(())
}

/// The bytes that a level may have before it is due.
const LIMITS: [(u8, u64); 5] = [
    (1, 65_536),
    (2, 524_288),
    (3, 4_194_304),
    (4, 33_554_432),
    (5, 268_435_456),
];

/// The level that is picked of a version whose one level has a table of 85 bytes and one of so many.
fn level_due(alloc: Global, level: u8, size: u64) -> Result<Option<usize>, Fail> {
    let rows = [(level, 1, "a", "c", 1, 85), (level, 2, "c", "e", 1, size)];
    let version = version(alloc, &rows)?;
    Ok(pick(&version, &[])?.map(|plan| plan.level()))
}

#[test]
fn levels_at_their_limits(rt: HostRuntime) -> Result<(), Fail> {
    let alloc = rt.alloc();
    for (level, limit) in LIMITS {
        let at = level_due(alloc, level, limit - 85)?;
        let above = level_due(alloc, level, limit - 84)?;
        assert!(rt;
            at.is_none() && above == Some(usize::from(level)),
            "{level}"
        );
    }
    let last = level_due(alloc, 6, 1 << 40)?;
    assert!(rt; last.is_none());
    Ok(())
}

const PLACES: [Row; 6] = [
    (0, 1, "a", "c", 9, 85),
    (1, 2, "c", "e", 8, 85),
    (2, 3, "e", "g", 7, 85),
    (3, 4, "f", "i", 6, 85),
    (6, 5, "k", "m", 5, 85),
    (5, 6, "m", "n", 4, 85),
];

/// Bounds, the hulls of running compactions, and the level.
type Placed = ((&'static str, &'static str), Spans, usize);

const PLACED: [Placed; 12] = [
    (("p", "q"), &[], 6),
    (("a", "b"), &[], 0),
    (("b", "d"), &[], 0),
    (("c", "d"), &[], 0),
    (("e", "f"), &[], 1),
    (("g", "h"), &[], 2),
    (("k", "l"), &[], 5),
    (("m", "n"), &[], 4),
    (("i", "k"), &[], 6),
    (("n", "p"), &[("o", "q")], 0),
    (("n", "p"), &[("p", "q"), ("a", "n")], 6),
    (("f", "z"), &[("p", "q")], 0),
];

fn places(alloc: Global, version: &Version, placed: &Placed) -> Result<bool, Fail> {
    let ((lo, hi), running, level) = placed;
    let running = ranges(alloc, running)?;
    Ok(place(version, &running, &range(alloc, lo, hi)?) == *level)
}

#[test]
fn tables_as_deep_as_they_may_stand(rt: HostRuntime) -> Result<(), Fail> {
    let version = version(rt.alloc(), &PLACES)?;
    for placed in &PLACED {
        let right = places(rt.alloc(), &version, placed)?;
        assert!(rt; right, "{} {}", placed.0.0, placed.2);
    }
    Ok(())
}

const MANY: u16 = 10_000;

fn bound(alloc: Global, n: u16) -> Result<Bound, Fail> {
    Ok(Bound::new(n.to_be_bytes().to_vec(alloc)?)?)
}

fn between(alloc: Global, from: u16, to: u16) -> Result<KeyRange, Fail> {
    Ok(KeyRange::new(bound(alloc, from)?, bound(alloc, to)?)?)
}

/// Ten thousand tables of one level, each of which reaches so far.
fn many(alloc: Global, level: u8, reach: u16) -> Result<Version, Fail>
    requires { reach < 10 }
{
    let mut tables = Vec::new(alloc);
    for n in 0..MANY {
        let range = between(alloc, n, n + reach)?;
        tables.push((
            level,
            table(u64::from(n) + 1, range, u64::from(MANY - n), 85)?,
        ))?;
    }
    with(alloc, tables)
}

/// Whether a plan for the table in the middle takes all.
fn takes_all(alloc: Global, version: &Version) -> Result<bool, Fail> {
    let Some(plan) = plan_for(version, &[], 0, &between(alloc, MANY / 2, MANY / 2 + 1)?)? else {
        return Ok(false);
    };
    let inputs = plan.inputs();
    Ok(
        inputs.len() == usize::from(MANY)
            && inputs.first() == Some(&(0, 1))
            && inputs.last() == Some(&(0, u64::from(MANY)))
            && plan.hull().same(&between(alloc, 0, MANY + 1)?),
    )
}

#[test]
fn one_table_draws_in_ten_thousand(rt: HostRuntime) -> Result<(), Fail> {
    let version = many(rt.alloc(), 0, 2)?;
    for _ in 0..3 {
        let all = takes_all(rt.alloc(), &version)?;
        assert!(rt; all);
    }
    Ok(())
}

/// Whether the plan takes the last table alone, where a running compaction is over all others.
fn takes_last(alloc: Global, version: &Version) -> Result<bool, Fail> {
    let mut running = Vec::new(alloc);
    running.push(between(alloc, 0, MANY - 1)?)?;
    let Some(plan) = pick(version, &running)? else {
        return Ok(false);
    };
    let (inputs, _, _) = plan.into_parts();
    Ok(inputs.as_slice() == [(1, u64::from(MANY))].as_slice())
}

#[test]
fn the_last_of_ten_thousand(rt: HostRuntime) -> Result<(), Fail> {
    let version = many(rt.alloc(), 1, 1)?;
    let last = takes_last(rt.alloc(), &version)?;
    assert!(rt; last);
    Ok(())
}
