use crate::Fragments;
use std::alloc::Global;
use std::test::Fail;
use xdb_key::{Bound, Key, KeyRange, Span};

fn key(alloc: Global, text: &str) -> Result<Key, Fail> {
    Ok(Key::new(text.as_bytes().to_vec(alloc)?)?)
}

fn bound(alloc: Global, text: &str) -> Result<Bound, Fail> {
    Ok(Bound::new(text.as_bytes().to_vec(alloc)?)?)
}

fn range(alloc: Global, lo: &str, hi: &str) -> Result<KeyRange, Fail> {
    Ok(KeyRange::new(bound(alloc, lo)?, bound(alloc, hi)?)?)
}

/// Start, end and number.
type Row = (&'static str, &'static str, u64);

fn fragments(alloc: Global, rows: &[Row]) -> Result<Fragments, Fail> {
    let mut spans = Vec::new(alloc);
    for (lo, hi, seq) in rows {
        if *seq < 1 << 56 {
            spans.push(Span::new(range(alloc, lo, hi)?, *seq))?;
        }
    }
    Ok(Fragments::from_spans(alloc, &spans)?)
}

/// Whether the fragments are these, in this order.
fn are(fragments: &Fragments, rows: &[Row]) -> bool {
    let list = fragments.list();
    list.len() == rows.len() && list.iter().zip(rows).all(|(span, row)| is(span, row))
}

fn is(span: &Span, row: &Row) -> bool {
    let (lo, hi, seq) = row;
    span.range().lo().bytes() == lo.as_bytes()
        && span.range().hi().bytes() == hi.as_bytes()
        && span.seq() == *seq
}

/// Whether a key is covered below a number by that number.
fn covers(
    alloc: Global,
    fragments: &Fragments,
    text: &str,
    below: u64,
    seq: Option<u64>,
) -> Result<bool, Fail> {
    let key = key(alloc, text)?;
    Ok(fragments.cover(&key, below) == seq)
}

/// Whether the part in a range has these fragments.
fn clips(
    alloc: Global,
    fragments: &Fragments,
    lo: &str,
    hi: &str,
    rows: &[Row],
) -> Result<bool, Fail> {
    let range = range(alloc, lo, hi)?;
    let part = fragments.clip(&range)?;
    Ok(are(&part, rows))
}

/// Whether the parts on either side of a bound have these fragments.
fn cuts(
    alloc: Global,
    fragments: &Fragments,
    at: &str,
    left: &[Row],
    right: &[Row],
) -> Result<bool, Fail> {
    let at = bound(alloc, at)?;
    let halves = fragments.cut(&at)?;
    Ok(are(&halves.0, left) && are(&halves.1, right))
}

#[test]
fn spans_are_cut_at_each_other(rt: HostRuntime) -> Result<(), Fail> {
    let two = fragments(rt.alloc(), &[("a", "m", 3), ("c", "z", 5)])?;
    let rows = [("a", "c", 3), ("c", "m", 5), ("c", "m", 3), ("m", "z", 5)];
    assert!(rt; are(&two, &rows));
    Ok(())
}

#[test]
fn keys_are_covered_below_a_number(rt: HostRuntime) -> Result<(), Fail> {
    let alloc = rt.alloc();
    let two = fragments(alloc, &[("a", "m", 3), ("c", "z", 5)])?;
    let covers = covers(alloc, &two, "d", 5, Some(3))?
        && covers(alloc, &two, "d", 6, Some(5))?
        && covers(alloc, &two, "z", 9, None)?;
    assert!(rt; covers);
    Ok(())
}

/// Whether the spans come to these fragments.
fn come_to(alloc: Global, spans: &[Row], rows: &[Row]) -> Result<bool, Fail> {
    let made = fragments(alloc, spans)?;
    Ok(are(&made, rows))
}

#[test]
fn equal_numbers_are_cut_and_stand_once(rt: HostRuntime) -> Result<(), Fail> {
    let rows: [Row; 5] = [
        ("d", "k", 7),
        ("a", "f", 7),
        ("d", "e", 7),
        ("m", "p", 7),
        ("d", "k", 9),
    ];
    let pieces: [Row; 8] = [
        ("a", "d", 7),
        ("d", "e", 9),
        ("d", "e", 7),
        ("e", "f", 9),
        ("e", "f", 7),
        ("f", "k", 9),
        ("f", "k", 7),
        ("m", "p", 7),
    ];
    assert!(rt; come_to(rt.alloc(), &rows, &pieces)?);
    assert!(rt; come_to(rt.alloc(), &[], &[])?);
    Ok(())
}

#[test]
fn clipping_at_bounds_inside_and_outside(rt: HostRuntime) -> Result<(), Fail> {
    let alloc = rt.alloc();
    let parts: [(&str, &str, &[Row]); 5] = [
        ("d", "m", &[("d", "h", 4), ("k", "m", 6)]),
        ("a", "z", &[("b", "h", 4), ("k", "q", 6)]),
        ("b", "k", &[("b", "h", 4)]),
        ("h", "k", &[]),
        ("l", "n", &[("l", "n", 6)]),
    ];
    let spans = fragments(alloc, &[("b", "h", 4), ("k", "q", 6)])?;
    for (lo, hi, rows) in parts {
        assert!(rt; clips(alloc, &spans, lo, hi, rows)?, "{lo} {hi}");
    }
    Ok(())
}

#[test]
fn cutting_at_bounds_inside_and_outside(rt: HostRuntime) -> Result<(), Fail> {
    let alloc = rt.alloc();
    let halves: [(&str, &[Row], &[Row]); 4] = [
        ("d", &[("b", "d", 4)], &[("d", "h", 4), ("k", "q", 6)]),
        ("k", &[("b", "h", 4)], &[("k", "q", 6)]),
        ("a", &[], &[("b", "h", 4), ("k", "q", 6)]),
        ("q", &[("b", "h", 4), ("k", "q", 6)], &[]),
    ];
    let spans = fragments(alloc, &[("b", "h", 4), ("k", "q", 6)])?;
    for (at, left, right) in halves {
        assert!(rt; cuts(alloc, &spans, at, left, right)?, "{at}");
    }
    Ok(())
}

const MOST: u64 = (1 << 56) - 1;

/// The greatest number covers below the number after it, and not below itself.
#[test]
fn numbers_at_their_end(rt: HostRuntime) -> Result<(), Fail> {
    let alloc = rt.alloc();
    let one = fragments(alloc, &[("a", "m", MOST)])?;
    let covers = covers(alloc, &one, "a", MOST + 1, Some(MOST))?
        && covers(alloc, &one, "a", MOST, None)?
        && covers(alloc, &one, "a", u64::MAX, Some(MOST))?;
    assert!(rt; covers);
    Ok(())
}

/// Fragments that were made so often again of the fragments before.
fn made_again(alloc: Global, rows: &[Row], times: usize) -> Result<Fragments, Fail> {
    let mut made = fragments(alloc, rows)?;
    for _ in 0..times {
        made = Fragments::from_spans(alloc, made.list())?;
    }
    Ok(made)
}

#[test]
fn fragments_of_fragments_are_the_same(rt: HostRuntime) -> Result<(), Fail> {
    let rows = [("a", "c", 3), ("c", "m", 5), ("c", "m", 3), ("m", "z", 5)];
    let made = made_again(rt.alloc(), &[("a", "m", 3), ("c", "z", 5)], 10_000)?;
    assert!(rt; are(&made, &rows));
    Ok(())
}

/// How many spans a chain has.
const COUNT: u16 = 2_000;

fn place(alloc: Global, n: u16) -> Result<Bound, Fail> {
    Ok(Bound::new(n.to_be_bytes().to_vec(alloc)?)?)
}

/// A span from each place to the second one behind it, numbered as the place.
fn chain(alloc: Global) -> Result<Fragments, Fail> {
    let mut spans = Vec::new(alloc);
    for n in 0..COUNT {
        let range = KeyRange::new(place(alloc, n)?, place(alloc, n + 2)?)?;
        spans.push(Span::new(range, u64::from(n)))?;
    }
    Ok(Fragments::from_spans(alloc, &spans)?)
}

/// Whether a place is covered by the span from there, and below that by the span before.
fn is_covered_twice(alloc: Global, chain: &Fragments, n: u16) -> Result<bool, Fail> {
    let key = Key::new(n.to_be_bytes().to_vec(alloc)?)?;
    let own = u64::from(n);
    let before = if n == 0 { None } else { Some(own - 1) };
    Ok(chain.cover(&key, u64::MAX) == Some(own) && chain.cover(&key, own) == before)
}

#[test]
fn thousands_of_spans(rt: HostRuntime) -> Result<(), Fail> {
    let alloc = rt.alloc();
    let chain = chain(alloc)?;
    assert!(rt; chain.list().len() == 2 * usize::from(COUNT));
    for n in 0..COUNT {
        assert!(rt; is_covered_twice(alloc, &chain, n)?, "{n}");
    }
    Ok(())
}
