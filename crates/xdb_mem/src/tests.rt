use crate::{Mem, MemParts, MemQueue};
use std::alloc::Global;
use std::test::Fail;
use xdb_batch::Batch;
use xdb_key::{Bound, Entry, Key, KeyRange, Kind, Span};

/// An operation.
#[derive(Clone, Copy)]
enum Row {
    Set(&'static str, &'static str),
    Del(&'static str),
    DelSpan(&'static str, &'static str),
}

fn key(alloc: Global, text: &str) -> Result<Key, Fail> {
    Ok(Key::new(text.as_bytes().to_vec(alloc)?)?)
}

fn bound(alloc: Global, bytes: &[u8]) -> Result<Bound, Fail> {
    Ok(Bound::new(bytes.to_vec(alloc)?)?)
}

fn range(alloc: Global, lo: &str, hi: &str) -> Result<KeyRange, Fail> {
    let lo = bound(alloc, lo.as_bytes())?;
    Ok(KeyRange::new(lo, bound(alloc, hi.as_bytes())?)?)
}

fn ranges(alloc: Global, rows: &[(&str, &str)]) -> Result<Vec<KeyRange>, Fail> {
    let mut ranges = Vec::new(alloc);
    for (lo, hi) in rows {
        ranges.push(range(alloc, lo, hi)?)?;
    }
    Ok(ranges)
}

fn add(alloc: Global, batch: &mut Batch, row: &Row) -> Result<(), Fail> {
    match row {
        Row::Set(k, value) => batch.set(key(alloc, k)?, value.as_bytes().to_vec(alloc)?)?,
        Row::Del(k) => batch.del(key(alloc, k)?)?,
        Row::DelSpan(lo, hi) => batch.del_span(range(alloc, lo, hi)?)?,
    }
    Ok(())
}

fn add_all(alloc: Global, batch: &mut Batch, rows: &[Row]) -> Result<(), Fail> {
    for row in rows {
        add(alloc, batch, row)?;
    }
    Ok(())
}

fn batch(alloc: Global, rows: &[Row]) -> Result<Batch, Fail> {
    let mut batch = Batch::new(alloc);
    add_all(alloc, &mut batch, rows)?;
    Ok(batch)
}

/// Commits the operations with numbers from `first` on.
fn commit_from(queue: &mut MemQueue, first: u64, batch: &Batch) -> Result<(), Fail> {
    if first <= queue.greatest() || first > 1 << 56 {
        return Err(Fail::from("the number isn't a next one"));
    }
    if batch.ops().len() as u64 > (1 << 56) - first {
        return Err(Fail::from("the numbers are spent"));
    }
    queue.commit(first, batch)?;
    Ok(())
}

/// Commits the operations with the next numbers.
fn commit(alloc: Global, queue: &mut MemQueue, rows: &[Row]) -> Result<(), Fail> {
    let batch = batch(alloc, rows)?;
    let first = queue.greatest() + 1;
    commit_from(queue, first, &batch)
}

fn commit_three(alloc: Global, queue: &mut MemQueue) -> Result<(), Fail> {
    commit(
        alloc,
        queue,
        &[Row::Set("c", "1"), Row::Del("a"), Row::DelSpan("e", "k")],
    )?;
    queue.seal();
    commit(alloc, queue, &[Row::Set("a", "2"), Row::DelSpan("g", "p")])?;
    queue.seal();
    commit(alloc, queue, &[Row::Set("c", "3")])
}

/// Two sealed groups and the active one: the operations 1 to 3, 4 and 5, and 6.
fn three_groups(alloc: Global) -> Result<MemQueue, Fail> {
    let mut queue = MemQueue::new(alloc);
    commit_three(alloc, &mut queue)?;
    Ok(queue)
}

/// A memtable of the operations, numbered from 7 on.
fn from_seven(alloc: Global, rows: &[Row]) -> Result<Mem, Fail> {
    let mut mem = Mem::new(alloc);
    mem.insert(7, &batch(alloc, rows)?)?;
    Ok(mem)
}

/// Whether the entries have these keys, numbers and values, where a delete has none.
fn are_entries(entries: &[Entry], rows: &[(&str, u64, Option<&str>)]) -> bool {
    entries.len() == rows.len()
        && entries
            .iter()
            .zip(rows)
            .all(|(entry, row)| is_entry(entry, row))
}

fn is_entry(entry: &Entry, row: &(&str, u64, Option<&str>)) -> bool {
    let (key, seq, value) = row;
    let kept = match value {
        Some(value) => entry.kind() == Kind::Set && entry.value().bytes() == value.as_bytes(),
        None => entry.kind() == Kind::Del,
    };
    kept && entry.key().bytes() == key.as_bytes() && entry.seq() == *seq
}

fn are_spans(spans: &[Span], rows: &[(&str, &str, u64)]) -> bool {
    spans.len() == rows.len() && spans.iter().zip(rows).all(|(span, row)| is_span(span, row))
}

fn is_span(span: &Span, row: &(&str, &str, u64)) -> bool {
    let (lo, hi, seq) = row;
    span.range().lo().bytes() == lo.as_bytes()
        && span.range().hi().bytes() == hi.as_bytes()
        && span.seq() == *seq
}

const FIVE: [Row; 5] = [
    Row::Set("b", "1"),
    Row::DelSpan("c", "f"),
    Row::Del("b"),
    Row::Set("a", "2"),
    Row::DelSpan("d", "z"),
];

fn has_five(mem: &Mem) -> bool {
    mem.len() == 5
        && !mem.is_empty()
        && are_entries(
            mem.entries(),
            &[("a", 10, Some("2")), ("b", 9, None), ("b", 7, Some("1"))],
        )
        && are_spans(mem.spans(), &[("c", "f", 8), ("d", "z", 11)])
}

#[test]
fn a_memtable_keeps_internal_order(rt: HostRuntime) -> Result<(), Fail> {
    let alloc = rt.alloc();
    assert!(rt; Mem::new(alloc).is_empty());
    let mem = from_seven(alloc, &FIVE)?;
    assert!(rt; has_five(&mem));
    Ok(())
}

fn parts_of_five(alloc: Global) -> Result<MemParts, Fail> {
    let mem = from_seven(alloc, &FIVE)?;
    Ok(mem.parts()?)
}

fn has_pieces_of_five(parts: &MemParts) -> bool {
    parts.entries().len() == 3
        && are_spans(
            parts.spans().list(),
            &[("c", "d", 8), ("d", "f", 11), ("d", "f", 8), ("f", "z", 11)],
        )
}

#[test]
fn parts_of_a_memtable(rt: HostRuntime) -> Result<(), Fail> {
    let parts = parts_of_five(rt.alloc())?;
    assert!(rt; has_pieces_of_five(&parts));
    Ok(())
}

/// Of which ranges a memtable speaks below which numbers: each row is of the range at its place.
fn touches_are(mem: &Mem, ranges: &[KeyRange], rows: &[(u64, bool)]) -> bool {
    ranges.len() == rows.len()
        && ranges.iter().zip(rows).all(|(range, (below, touched))| mem.touches(range, *below)
            == *touched)
}

#[test]
fn a_memtable_touches(rt: HostRuntime) -> Result<(), Fail> {
    let alloc = rt.alloc();
    let wanted = ranges(
        alloc,
        &[
            ("b", "b0"),
            ("b", "b0"),
            ("a", "b"),
            ("b0", "c"),
            ("e", "z"),
            ("e", "z"),
            ("f", "z"),
        ],
    )?;
    let mem = from_seven(
        alloc,
        &[Row::Set("b", "1"), Row::DelSpan("c", "f"), Row::Del("b")],
    )?;
    assert!(rt;
        touches_are(
            &mem,
            &wanted,
            &[
                (8, true),
                (7, false),
                (99, false),
                (99, false),
                (9, true),
                (8, false),
                (99, false)
            ]
        )
    );
    Ok(())
}

/// Seals and drops groups, and says whether each call answered what it should.
fn seals_and_drops(alloc: Global, queue: &mut MemQueue) -> Result<bool, Fail> {
    let none = queue.seal().is_none() && queue.oldest_sealed().is_none();
    commit(alloc, queue, &[Row::Del("a"), Row::Del("b")])?;
    let first = queue.seal() == Some(1) && queue.seal().is_none();
    commit(alloc, queue, &[Row::Del("c")])?;
    let second = queue.seal() == Some(2);
    let kept = queue.active_group() == 3
        && queue.active_ops() == 0
        && queue.greatest() == 3
        && lens(queue) == [None, Some(2), Some(1), Some(0), None];
    let dropped = drop_oldest(queue) == Some(1)
        && drop_oldest(queue) == Some(2)
        && drop_oldest(queue).is_none();
    Ok(none && first && second && kept && dropped)
}

#[test]
fn groups_are_sealed_and_dropped(rt: HostRuntime) -> Result<(), Fail> {
    let alloc = rt.alloc();
    let mut queue = MemQueue::new(alloc);
    let right = seals_and_drops(alloc, &mut queue)?;
    assert!(rt;
        right && queue.active_group() == 3 && lens(&queue) == [None, None, None, Some(0), None]
    );
    Ok(())
}

/// How many operations the groups 0 to 4 have.
fn lens(queue: &MemQueue) -> [Option<usize>; 5] {
    [
        len(queue, 0),
        len(queue, 1),
        len(queue, 2),
        len(queue, 3),
        len(queue, 4),
    ]
}

fn len(queue: &MemQueue, num: u64) -> Option<usize> {
    match queue.group(num) {
        Some(mem) => Some(mem.len()),
        None => None,
    }
}

fn drop_oldest(queue: &mut MemQueue) -> Option<u64> {
    let oldest = queue.oldest_sealed();
    if oldest.is_some() {
        queue.drop_oldest();
    }
    oldest
}

/// Ranges, and the first and the last group that touch them, the last below a number.
type Touch = (
    &'static [(&'static str, &'static str)],
    Option<u64>,
    u64,
    Option<u64>,
);

fn is_touched(alloc: Global, queue: &MemQueue, row: &Touch) -> Result<bool, Fail> {
    let (wanted, first, below, last) = row;
    let wanted = ranges(alloc, wanted)?;
    Ok(queue.first_touching(&wanted) == *first && queue.last_touching(&wanted, *below) == *last)
}

#[test]
fn groups_that_touch_ranges(rt: HostRuntime) -> Result<(), Fail> {
    let alloc = rt.alloc();
    let rows: [Touch; 9] = [
        (&[("a", "b")], Some(1), 7, Some(2)),
        (&[("a", "b")], Some(1), 4, Some(1)),
        (&[("a", "b")], Some(1), 2, None),
        (&[("c", "d")], Some(1), 7, Some(3)),
        (&[("c", "d")], Some(1), 6, Some(1)),
        (&[("k", "z")], Some(2), 6, Some(2)),
        (&[("p", "z")], None, 7, None),
        (&[("q", "z"), ("g", "h")], Some(1), 7, Some(2)),
        (&[], None, 7, None),
    ];
    let queue = three_groups(alloc)?;
    for row in &rows {
        let right = is_touched(alloc, &queue, row)?;
        assert!(rt; right);
    }
    Ok(())
}

fn parts_in(
    alloc: Global,
    queue: &MemQueue,
    lo: &str,
    hi: &str,
    below: u64,
) -> Result<MemParts, Fail> {
    let wanted = range(alloc, lo, hi)?;
    Ok(queue.parts(&wanted, below)?)
}

fn parts_of_three(alloc: Global, lo: &str, hi: &str, below: u64) -> Result<MemParts, Fail> {
    let queue = three_groups(alloc)?;
    parts_in(alloc, &queue, lo, hi, below)
}

fn has_all(parts: &MemParts) -> bool {
    are_entries(
        parts.entries(),
        &[
            ("a", 4, Some("2")),
            ("a", 2, None),
            ("c", 6, Some("3")),
            ("c", 1, Some("1")),
        ],
    ) && are_spans(
        parts.spans().list(),
        &[("e", "g", 3), ("g", "k", 5), ("g", "k", 3), ("k", "p", 5)],
    )
}

#[test]
fn parts_of_three_groups(rt: HostRuntime) -> Result<(), Fail> {
    let all = parts_of_three(rt.alloc(), "a", "z", 7)?;
    assert!(rt; has_all(&all));
    Ok(())
}

fn has_some(parts: &MemParts) -> bool {
    are_entries(parts.entries(), &[("c", 1, Some("1"))])
        && are_spans(parts.spans().list(), &[("e", "h", 3)])
}

#[test]
fn parts_of_a_range(rt: HostRuntime) -> Result<(), Fail> {
    let some = parts_of_three(rt.alloc(), "b", "h", 5)?;
    assert!(rt; has_some(&some));
    Ok(())
}

#[test]
fn no_parts(rt: HostRuntime) -> Result<(), Fail> {
    let none = MemParts::empty(rt.alloc())?;
    assert!(rt; none.entries().is_empty() && none.spans().list().is_empty());
    Ok(())
}

/// One operation at the greatest number that there is.
fn at_the_end(alloc: Global) -> Result<MemQueue, Fail> {
    let mut queue = MemQueue::new(alloc);
    commit_from(&mut queue, (1 << 56) - 1, &batch(alloc, &[Row::Del("a")])?)?;
    Ok(queue)
}

fn entries_below(alloc: Global, queue: &MemQueue, below: u64) -> Result<usize, Fail> {
    let parts = parts_in(alloc, queue, "a", "b", below)?;
    Ok(parts.entries().len())
}

#[test]
fn the_greatest_number_is_taken(rt: HostRuntime) -> Result<(), Fail> {
    let alloc = rt.alloc();
    let queue = at_the_end(alloc)?;
    let seen = [
        entries_below(alloc, &queue, (1 << 56) - 1)?,
        entries_below(alloc, &queue, 1 << 56)?,
    ];
    assert!(rt; seen == [0, 1] && queue.greatest() == (1 << 56) - 1);
    Ok(())
}

/// How many range deletes stand beside the wide one.
const MANY: u16 = 2000;

/// The bounds k0000 to k9999.
fn spot(alloc: Global, n: u32) -> Result<Bound, Fail> {
    let digits = [
        b'k',
        b'0' + (n / 1000 % 10) as u8,
        b'0' + (n / 100 % 10) as u8,
        b'0' + (n / 10 % 10) as u8,
        b'0' + (n % 10) as u8,
    ];
    bound(alloc, &digits)
}

fn stretch(alloc: Global, from: u32, to: u32) -> Result<KeyRange, Fail> {
    let lo = spot(alloc, from)?;
    Ok(KeyRange::new(lo, spot(alloc, to)?)?)
}

fn commit_stretch(alloc: Global, queue: &mut MemQueue, from: u32, to: u32) -> Result<(), Fail> {
    let mut batch = Batch::new(alloc);
    batch.del_span(stretch(alloc, from, to)?)?;
    let first = queue.greatest() + 1;
    commit_from(queue, first, &batch)
}

/// A wide range delete first, and then narrow ones apart from each other, in no order: number n + 2
/// lies at place 7 n, counted around.
fn commit_many(alloc: Global, queue: &mut MemQueue) -> Result<(), Fail> {
    commit_stretch(alloc, queue, 0, 9999)?;
    for n in 0..u32::from(MANY) {
        let place = n * 7 % 2000;
        commit_stretch(alloc, queue, place * 2, place * 2 + 1)?;
    }
    Ok(())
}

fn many(alloc: Global) -> Result<MemQueue, Fail> {
    let mut queue = MemQueue::new(alloc);
    commit_many(alloc, &mut queue)?;
    Ok(queue)
}

/// Whether just the wide range delete lies there below the number, and at it the narrow one too.
fn is_narrow(alloc: Global, queue: &MemQueue, place: u16, number: u32) -> Result<bool, Fail> {
    let start = u32::from(place) * 2;
    let here = stretch(alloc, start, start + 1)?;
    let number = u64::from(number);
    let before = numbers_in(queue, &here, number)?;
    let now = numbers_in(queue, &here, number + 1)?;
    Ok(before == [1, 0] && now == [number, 1])
}

fn numbers_in(queue: &MemQueue, range: &KeyRange, below: u64) -> Result<[u64; 2], Fail> {
    let parts = queue.parts(range, below)?;
    Ok(numbers(&parts))
}

/// The numbers of one or two range deletes; 0 where there is none, or a third.
fn numbers(parts: &MemParts) -> [u64; 2] {
    match parts.spans().list() {
        [one] => [one.seq(), 0],
        [one, two] => [one.seq(), two.seq()],
        _ => [0, 0],
    }
}

/// Whether the narrow range delete is found at each place. Place p has number 1143 p + 2, counted around:
/// 7 times 1143 is 1 more than 4 times 2000.
fn are_found(alloc: Global, queue: &MemQueue) -> Result<bool, Fail> {
    for place in 0..MANY {
        if !is_narrow(alloc, queue, place, u32::from(place) * 1143 % 2000 + 2)? {
            return Ok(false);
        }
    }
    Ok(true)
}

#[test]
fn many_range_deletes(rt: HostRuntime) -> Result<(), Fail> {
    let alloc = rt.alloc();
    let queue = many(alloc)?;
    let found = are_found(alloc, &queue)?;
    assert!(rt; found && queue.active_ops() == 2001 && queue.greatest() == 2001);
    Ok(())
}
