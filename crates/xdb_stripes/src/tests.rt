ghost use Rattle.std.specs.Prelude.{◌<◌, ◌^◌, IsTrue};
ghost use Rattle.std.specs.List.Sorted.{IsNonDecreasing};
ghost use Rattle.xdb_key.specs.InOrder.{AreInOrder};

use crate::{Floor, KeyRanges, thin};
use std::alloc::Global;
use std::test::Fail;
use xdb_key::{Bound, Entry, Key, KeyRange, Kind, Span, Val};
use xdb_rangedel::Fragments;

/// A key, a number and the value, which is empty for a delete.
type Point = (&'static str, u64, &'static str);

/// Start, end and number.
type Row = (&'static str, &'static str, u64);

/// Start and end.
type Pair = (&'static str, &'static str);

/// Entries, spans and stripes; whether older content may lie anywhere, and else in which ranges;
/// and the entries and spans that are left.
type Case = (
    &'static [Point],
    &'static [Row],
    &'static [u64],
    bool,
    &'static [Pair],
    &'static [Point],
    &'static [Row],
);

/// What a case gives.
#[derive(Drop)]
struct Content {
    entries: Vec<Entry>,
    spans: Fragments,
    floor: Floor,
}

fn key(alloc: Global, text: &str) -> Result<Key, Fail> {
    Ok(Key::new(text.as_bytes().to_vec(alloc)?)?)
}

fn bound(alloc: Global, text: &str) -> Result<Bound, Fail> {
    Ok(Bound::new(text.as_bytes().to_vec(alloc)?)?)
}

fn range(alloc: Global, lo: &str, hi: &str) -> Result<KeyRange, Fail> {
    Ok(KeyRange::new(bound(alloc, lo)?, bound(alloc, hi)?)?)
}

fn entry(alloc: Global, point: &Point) -> Result<Entry, Fail> {
    let (text, seq, value) = point;
    if *seq >= 1 << 56 {
        return Err(Fail::from("the number is too great"));
    }
    let key = key(alloc, text)?;
    if value.is_empty() {
        Ok(Entry::del(key, *seq)?)
    } else {
        let value = Val::new(value.as_bytes().to_vec(alloc)?);
        Ok(Entry::set(key, *seq, value)?)
    }
}

fn entries(alloc: Global, points: &[Point]) -> Result<Vec<Entry>, Fail> {
    let mut entries = Vec::new(alloc);
    for point in points {
        entries.push(entry(alloc, point)?)?;
    }
    Ok(entries)
}

fn fragments(alloc: Global, rows: &[Row]) -> Result<Fragments, Fail> {
    let mut spans = Vec::new(alloc);
    for (lo, hi, seq) in rows {
        if *seq < 1 << 56 {
            spans.push(Span::new(range(alloc, lo, hi)?, *seq))?;
        }
    }
    Ok(Fragments::from_spans(alloc, &spans)?)
}

fn ranges(alloc: Global, rows: &[(&str, &str)]) -> Result<KeyRanges, Fail> {
    let mut ranges = Vec::new(alloc);
    for (lo, hi) in rows {
        ranges.push(range(alloc, lo, hi)?)?;
    }
    Ok(KeyRanges::new(ranges))
}

fn prepare(alloc: Global, case: &Case) -> Result<Content, Fail> {
    let (points, rows, _, anywhere, pairs, _, _) = case;
    let entries = entries(alloc, points)?;
    let spans = fragments(alloc, rows)?;
    let floor = if *anywhere {
        Floor::All
    } else {
        Floor::Ranges(ranges(alloc, pairs)?)
    };
    Ok(Content {
        entries,
        spans,
        floor,
    })
}

/// Whether each entry stands before the next one in internal order.
fn are_in_order(entries: &[Entry]) -> bool
    ensures { IsTrue result → AreInOrder entries.now }
{
    for at in 1..entries.len() {
        if !entries[at - 1].comes_before(&entries[at]) {
            return false;
        }
    }
    true
}

/// Whether no stripe is below the one before it.
fn rise(stripes: &[u64]) -> bool
    ensures { IsTrue result → IsNonDecreasing stripes.now }
{
    stripes.is_sorted()
}

fn thinned(
    alloc: Global,
    given: &Content,
    stripes: &[u64],
) -> Result<(Vec<Entry>, Fragments), Fail> {
    if !are_in_order(&given.entries) || !rise(stripes) {
        return Err(Fail::from("the case is out of order"));
    }
    Ok(thin(alloc, &given.entries, &given.spans, stripes, &given.floor)?)
}

fn is_point(entry: &Entry, point: &Point) -> bool {
    let (key, seq, value) = point;
    (entry.kind() == Kind::Del) == value.is_empty()
        && entry.value().bytes() == value.as_bytes()
        && entry.key().bytes() == key.as_bytes()
        && entry.seq() == *seq
}

fn is_row(span: &Span, row: &Row) -> bool {
    let (lo, hi, seq) = row;
    span.range().lo().bytes() == lo.as_bytes()
        && span.range().hi().bytes() == hi.as_bytes()
        && span.seq() == *seq
}

fn are_points(entries: &[Entry], points: &[Point]) -> bool {
    entries.len() == points.len()
        && entries
            .iter()
            .zip(points)
            .all(|(entry, point)| is_point(entry, point))
}

fn are_rows(spans: &[Span], rows: &[Row]) -> bool {
    spans.len() == rows.len() && spans.iter().zip(rows).all(|(span, row)| is_row(span, row))
}

/// Whether what is left of what was given is what the case says.
fn leaves(alloc: Global, given: &Content, case: &Case) -> Result<bool, Fail> {
    let (_, _, stripes, _, _, left, over) = case;
    let made = thinned(alloc, given, stripes)?;
    Ok(are_points(&made.0, left) && are_rows(made.1.list(), over))
}

fn is_met(alloc: Global, case: &Case) -> Result<bool, Fail> {
    let given = prepare(alloc, case)?;
    leaves(alloc, &given, case)
}

/// Three versions of a key. An older one in the stripe of a newer one goes, and a delete below
/// the stripe where no floor range holds the key.
#[test]
fn stripes_part_three_entries(rt: HostRuntime) -> Result<(), Fail> {
    let cases: [Case; 3] = [
        (
            &[("a", 5, "x"), ("a", 3, ""), ("a", 2, "y")],
            &[],
            &[4],
            true,
            &[],
            &[("a", 5, "x"), ("a", 3, "")],
            &[],
        ),
        (
            &[("a", 5, "x"), ("a", 3, ""), ("a", 2, "y")],
            &[],
            &[4],
            false,
            &[],
            &[("a", 5, "x")],
            &[],
        ),
        (
            &[("a", 5, "x"), ("a", 3, ""), ("a", 2, "y")],
            &[],
            &[3],
            true,
            &[],
            &[("a", 5, "x"), ("a", 2, "y")],
            &[],
        ),
    ];
    for case in &cases {
        assert!(rt; is_met(rt.alloc(), case)?);
    }
    Ok(())
}

/// Each rule alone: older entries of a stripe; entries below a span of their stripe; older spans
/// over a piece; deletes and spans below all stripes and off the floor, whose ranges stand in no
/// order.
#[test]
fn each_rule_alone(rt: HostRuntime) -> Result<(), Fail> {
    let cases: [Case; 4] = [
        (
            &[
                ("a", 7, "x"),
                ("a", 5, "y"),
                ("a", 3, ""),
                ("a", 2, "z"),
                ("b", 5, "w"),
            ],
            &[],
            &[5],
            true,
            &[],
            &[("a", 7, "x"), ("a", 3, ""), ("b", 5, "w")],
            &[],
        ),
        (
            &[
                ("a", 4, "x"),
                ("b", 6, "y"),
                ("c", 5, "z"),
                ("d", 4, "w"),
                ("e", 2, "v"),
                ("f", 4, "u"),
            ],
            &[("b", "f", 5)],
            &[3],
            true,
            &[],
            &[
                ("a", 4, "x"),
                ("b", 6, "y"),
                ("c", 5, "z"),
                ("e", 2, "v"),
                ("f", 4, "u"),
            ],
            &[("b", "f", 5)],
        ),
        (
            &[],
            &[("a", "c", 7), ("b", "e", 6), ("b", "d", 2)],
            &[3],
            true,
            &[],
            &[],
            &[
                ("a", "b", 7),
                ("b", "c", 7),
                ("b", "c", 2),
                ("c", "d", 6),
                ("c", "d", 2),
                ("d", "e", 6),
            ],
        ),
        (
            &[
                ("a", 1, ""),
                ("d", 1, ""),
                ("e", 1, "x"),
                ("f", 2, ""),
                ("g", 1, ""),
            ],
            &[("a", "b", 1), ("c", "e", 1), ("m", "p", 1), ("m", "p", 3)],
            &[2],
            false,
            &[("o", "q"), ("d", "e")],
            &[("d", 1, ""), ("e", 1, "x"), ("f", 2, "")],
            &[("c", "e", 1), ("m", "p", 3), ("m", "p", 1)],
        ),
    ];
    for case in &cases {
        assert!(rt; is_met(rt.alloc(), case)?);
    }
    Ok(())
}

const MOST: u64 = (1 << 56) - 1;

/// All rules with two stripes and a floor of two ranges; the greatest number, with stripes at
/// both ends; an entry and a delete of one number below a newer entry, with a stripe that stands
/// twice; nothing at all.
#[test]
fn all_rules_together(rt: HostRuntime) -> Result<(), Fail> {
    let cases: [Case; 4] = [
        (
            &[
                ("a", 9, "n"),
                ("a", 8, ""),
                ("a", 5, "m"),
                ("a", 3, "l"),
                ("a", 1, "k"),
                ("c", 6, "j"),
                ("c", 4, ""),
                ("c", 2, "i"),
                ("e", 3, ""),
                ("e", 1, "h"),
                ("g", 7, ""),
                ("g", 2, ""),
                ("k", 2, ""),
            ],
            &[
                ("b", "f", 5),
                ("d", "h", 2),
                ("j", "m", 8),
                ("j", "l", 7),
                ("k", "n", 1),
            ],
            &[4, 7],
            false,
            &[("c", "d"), ("j", "k")],
            &[
                ("a", 9, "n"),
                ("a", 5, "m"),
                ("a", 3, "l"),
                ("c", 6, "j"),
                ("c", 2, "i"),
                ("g", 7, ""),
            ],
            &[
                ("b", "d", 5),
                ("d", "f", 5),
                ("j", "k", 8),
                ("k", "l", 8),
                ("l", "m", 8),
            ],
        ),
        (
            &[
                ("a", MOST, "x"),
                ("a", MOST - 1, "y"),
                ("b", 1, ""),
                ("b", 0, "z"),
            ],
            &[("a", "b", MOST), ("b", "c", 0)],
            &[0, 1, MOST, u64::MAX],
            false,
            &[],
            &[
                ("a", MOST, "x"),
                ("a", MOST - 1, "y"),
                ("b", 1, ""),
                ("b", 0, "z"),
            ],
            &[("a", "b", MOST), ("b", "c", 0)],
        ),
        (
            &[
                ("a", 6, "w"),
                ("a", 5, "x"),
                ("a", 5, ""),
                ("a", 4, "y"),
                ("b", 5, "x"),
                ("b", 5, ""),
                ("b", 4, "y"),
            ],
            &[],
            &[4, 4, 9],
            true,
            &[],
            &[("a", 6, "w"), ("b", 5, "x"), ("b", 5, "")],
            &[],
        ),
        (&[], &[], &[], false, &[], &[], &[]),
    ];
    for case in &cases {
        assert!(rt; is_met(rt.alloc(), case)?);
    }
    Ok(())
}

const KEYS: u16 = 2_000;

fn place(alloc: Global, n: u16) -> Result<Bound, Fail> {
    Ok(Bound::new(n.to_be_bytes().to_vec(alloc)?)?)
}

fn version(alloc: Global, n: u16, seq: u64) -> Result<Entry, Fail>
    requires { seq < 2 ^ 56 }
{
    let key = Key::new(n.to_be_bytes().to_vec(alloc)?)?;
    Ok(Entry::set(key, seq, Val::empty(alloc))?)
}

fn deleted(alloc: Global, n: u16) -> Result<Entry, Fail> {
    let key = Key::new(n.to_be_bytes().to_vec(alloc)?)?;
    Ok(Entry::del(key, u64::from(n))?)
}

/// Two versions of each key from 20,000 on, one from 10,000 on, and a delete below.
fn many_entries(alloc: Global) -> Result<Vec<Entry>, Fail> {
    let mut entries = Vec::new(alloc);
    for n in 0..KEYS {
        let seq = u64::from(n);
        entries.push(version(alloc, n, 20_001 + 2 * seq)?)?;
        entries.push(version(alloc, n, 20_000 + 2 * seq)?)?;
        entries.push(version(alloc, n, 10_000 + seq)?)?;
        entries.push(deleted(alloc, n)?)?;
    }
    Ok(entries)
}

/// A span from each key to the second one behind it, numbered as the key.
fn many_spans(alloc: Global) -> Result<Fragments, Fail> {
    let mut spans = Vec::new(alloc);
    for n in 0..KEYS {
        let range = KeyRange::new(place(alloc, n)?, place(alloc, n + 2)?)?;
        spans.push(Span::new(range, u64::from(n)))?;
    }
    Ok(Fragments::from_spans(alloc, &spans)?)
}

/// The floor has every second key of the first half.
fn every_second(alloc: Global) -> Result<Floor, Fail> {
    let mut ranges = Vec::new(alloc);
    for n in 0..KEYS / 4 {
        ranges.push(KeyRange::new(place(alloc, 2 * n)?, place(alloc, 2 * n + 1)?)?)?;
    }
    Ok(Floor::Ranges(KeyRanges::new(ranges)))
}

fn many(alloc: Global) -> Result<Content, Fail> {
    let entries = many_entries(alloc)?;
    let spans = many_spans(alloc)?;
    let floor = every_second(alloc)?;
    Ok(Content {
        entries,
        spans,
        floor,
    })
}

/// How many entries, deletes among them, and spans are left.
fn counts(made: &(Vec<Entry>, Fragments)) -> (usize, usize, usize) {
    let deletes = made
        .0
        .iter()
        .filter(|entry| entry.kind() == Kind::Del)
        .count();
    (made.0.len(), deletes, made.1.list().len())
}

fn left_of_many(alloc: Global, given: &Content) -> Result<(usize, usize, usize), Fail> {
    let made = thinned(alloc, given, &[10_000, 20_000])?;
    Ok(counts(&made))
}

/// Of four entries of each key two versions stay, and of the deletes and the pieces of spans,
/// which all lie below the stripes, those on the floor.
#[test]
fn thousands_of_entries(rt: HostRuntime) -> Result<(), Fail> {
    let given = many(rt.alloc())?;
    let counts = left_of_many(rt.alloc(), &given)?;
    assert!(rt; counts.0 == 4_500);
    assert!(rt; counts.1 == 500);
    assert!(rt; counts.2 == 500);
    Ok(())
}
