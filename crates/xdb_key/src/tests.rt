use crate::{
    Bound, Entry, Extent, Key, KeyNo, KeyRange, Name, Op, Ops, Span, Val, VarintNo, disorder,
    get_varint, greater, lesser, put_varint,
};
use std::alloc::Global;
use std::test::Fail;

fn key(alloc: Global, byte: u8) -> Result<Key, Fail> {
    Ok(Key::new(vec![in alloc; byte]?)?)
}

fn range(alloc: Global, lo: u8, hi: u8) -> Result<KeyRange, Fail> {
    let lo = Bound::new(vec![in alloc; lo]?)?;
    let hi = Bound::new(vec![in alloc; hi]?)?;
    Ok(KeyRange::new(lo, hi)?)
}

#[test]
fn keys_by_length(rt: HostRuntime) -> Result<(), Fail> {
    for (len, found) in [
        (0, Some(KeyNo::Empty)),
        (1, None),
        (1024, None),
        (1025, Some(KeyNo::TooLong { len: 1025 })),
    ] {
        let bytes = vec![in rt.alloc(); b'k'; len]?;
        assert!(rt; Key::new(bytes).err() == found);
    }
    Ok(())
}

#[test]
fn bounds_by_length(rt: HostRuntime) -> Result<(), Fail> {
    for (len, found) in [
        (0, Some(KeyNo::Empty)),
        (1, None),
        (1025, None),
        (1026, Some(KeyNo::TooLong { len: 1026 })),
    ] {
        let bytes = vec![in rt.alloc(); b'k'; len]?;
        assert!(rt; Bound::new(bytes).err() == found);
    }
    Ok(())
}

/// Whether the key k has its copy, its bounds and its hull.
fn is_whole(key: &Key) -> Result<bool, Fail> {
    Ok(is_copied(key)? && has_bound(key)? && has_successor(key)? && has_hull(key)?)
}

fn is_copied(key: &Key) -> Result<bool, Fail> {
    let copy = key.copy()?;
    Ok(copy.same(key) && copy.bytes() == b"k".as_slice())
}

fn has_bound(key: &Key) -> Result<bool, Fail> {
    let bound = key.bound()?;
    Ok(bound.bytes() == b"k".as_slice())
}

fn has_successor(key: &Key) -> Result<bool, Fail> {
    let copy = key.successor()?.copy()?;
    Ok(copy.bytes() == b"k\0".as_slice())
}

fn has_hull(key: &Key) -> Result<bool, Fail> {
    let hull = key.hull()?;
    Ok(
        hull.lo().bytes() == b"k".as_slice()
            && hull.hi().bytes() == b"k\0".as_slice()
            && hull.holds(key),
    )
}

#[test]
fn keys_are_copied(rt: HostRuntime) -> Result<(), Fail> {
    let whole = is_whole(&key(rt.alloc(), b'k')?)?;
    assert!(rt; whole);
    Ok(())
}

/// Whether the range from a to m has its copy, and meets no range from m on.
fn is_apart(am: &KeyRange, mz: &KeyRange) -> Result<bool, Fail> {
    let copy = am.copy()?;
    Ok(
        copy.same(am)
            && !copy.meets(mz)
            && lesser(am.hi(), mz.hi()).bytes() == b"m".as_slice()
            && greater(am.hi(), mz.hi()).bytes() == b"z".as_slice(),
    )
}

#[test]
fn ranges_are_copied(rt: HostRuntime) -> Result<(), Fail> {
    let alloc = rt.alloc();
    let apart = is_apart(&range(alloc, b'a', b'm')?, &range(alloc, b'm', b'z')?)?;
    assert!(rt; apart);
    Ok(())
}

#[test]
fn bounds_that_are_turned(rt: HostRuntime) -> Result<(), Fail> {
    let (lo, hi) = range(rt.alloc(), b'a', b'm')?.into_bounds();
    assert!(rt; KeyRange::new(hi, lo).is_err());
    Ok(())
}

fn set_b(alloc: Global) -> Result<Op, Fail> {
    let value = Val::new(vec![in alloc; b'1']?);
    let key = key(alloc, b'b')?;
    Ok(Op::Set { key, value })
}

fn set_and_span(alloc: Global) -> Result<Ops, Fail> {
    let mut ops = Vec::new(alloc);
    ops.push(set_b(alloc)?)?;
    let range = range(alloc, b'c', b'p')?;
    ops.push(Op::DelSpan { range })?;
    Ok(Ops::new(ops))
}

fn have_lengths(ops: &[Op]) -> bool {
    match ops {
        [set, span] => {
            set.encoded_len() == 5 && span.encoded_len() == 5 && disorder(ops).is_none()
        }
        _ => false,
    }
}

#[test]
fn operations_are_copied(rt: HostRuntime) -> Result<(), Fail> {
    let ops = set_and_span(rt.alloc())?.copy()?;
    assert!(rt; have_lengths(ops.list()));
    Ok(())
}

/// The greatest number, so at the limit.
const LAST: u64 = (1 << 56) - 1;

fn set_a(alloc: Global, seq: u64) -> Result<Entry, Fail> {
    if seq > LAST {
        return Err(Fail::from("the number is too great"));
    }
    let value = Val::new(vec![in alloc; b'1']?);
    Ok(Entry::set(key(alloc, b'a')?, seq, value)?)
}

#[test]
fn entries_are_copied(rt: HostRuntime) -> Result<(), Fail> {
    let set = set_a(rt.alloc(), LAST)?.copy()?;
    assert!(rt; set.seq() == LAST && set.value().bytes() == b"1".as_slice());
    assert!(rt; set.trailer() == LAST * 256 + 1);
    Ok(())
}

#[test]
fn spans_are_copied(rt: HostRuntime) -> Result<(), Fail> {
    let span = Span::new(range(rt.alloc(), b'a', b'c')?, 7).copy()?;
    assert!(rt; span.seq() == 7);
    Ok(())
}

#[test]
fn extents_are_copied(rt: HostRuntime) -> Result<(), Fail> {
    let range = Span::new(range(rt.alloc(), b'a', b'c')?, 7).into_range();
    let extent = Extent::new(range, 1, 5).copy()?;
    assert!(rt; extent.seq_hi() == 5);
    Ok(())
}

/// The sets of a at 2 and at 1, and a delete of b at 3.
fn entries(alloc: Global) -> Result<Vec<Entry>, Fail> {
    let mut entries = Vec::new(alloc);
    entries.push(set_a(alloc, 2)?)?;
    entries.push(set_a(alloc, 1)?)?;
    entries.push(Entry::del(key(alloc, b'b')?, 3)?)?;
    Ok(entries)
}

/// Whether just the earlier places come before the later ones.
fn are_in_order(entries: &[Entry]) -> bool {
    entries.iter().enumerate().all(|(i, earlier)| {
        entries
            .iter()
            .enumerate()
            .all(|(j, later)| earlier.comes_before(later) == (i < j))
    })
}

#[test]
fn entries_in_internal_order(rt: HostRuntime) -> Result<(), Fail> {
    let entries = entries(rt.alloc())?;
    assert!(rt; entries.len() == 3 && are_in_order(&entries));
    Ok(())
}

#[test]
fn names_are_short_words(rt: HostRuntime) {
    for text in ["a", "l1", "abcdefghijklmnop", "att", "excised", "z9"] {
        assert!(rt; Name::new(text.as_bytes()).is_some(), "{text}");
    }
    for text in [
        "",
        "1a",
        "A",
        "a-b",
        "at",
        "excise",
        "abcdefghijklmnopq",
        "a%00",
    ] {
        assert!(rt; Name::new(text.as_bytes()).is_none(), "{text}");
    }
}

#[test]
fn varints_are_written(rt: HostRuntime) -> Result<(), Fail> {
    let spelled: [(u64, &[u8]); 5] = [
        (0, &[0]),
        (127, &[0x7f]),
        (128, &[0x80, 1]),
        (300, &[0xac, 2]),
        ((1 << 63) - 1, b"\xff\xff\xff\xff\xff\xff\xff\xff\x7f"),
    ];
    for (n, bytes) in spelled {
        let mut out = Vec::new(rt.alloc());
        put_varint(&mut out, n)?;
        assert!(rt; out.as_slice() == bytes, "{n}");
    }
    Ok(())
}

#[test]
fn varints_are_read(rt: HostRuntime) {
    let read: [(&[u8], usize, Result<(u64, usize), VarintNo>); 9] = [
        (&[0], 0, Ok((0, 1))),
        (&[9, 0xac, 2, 9], 1, Ok((300, 3))),
        (&[0x80, 0], 0, Err(VarintNo::Overlong)),
        (&[0x80], 0, Err(VarintNo::Short)),
        (&[], 0, Err(VarintNo::Short)),
        (&[1], 2, Err(VarintNo::Short)),
        (
            b"\xff\xff\xff\xff\xff\xff\xff\xff\x7f",
            0,
            Ok(((1 << 63) - 1, 9)),
        ),
        (&[0xff; 9], 0, Err(VarintNo::TooLarge)),
        (&[0xff; 8], 0, Err(VarintNo::Short)),
    ];
    for (bytes, at, found) in read {
        assert!(rt; get_varint(bytes, at) == found, "{bytes:?}");
    }
}

/// The numbers from 0 to 4,999, one behind the other.
fn many_numbers(alloc: Global) -> Result<Vec<u8>, Fail> {
    let mut out = Vec::new(alloc);
    for n in 0..5000 {
        put_varint(&mut out, n)?;
    }
    Ok(out)
}

fn are_read(bytes: &[u8]) -> bool {
    let mut at = 0;
    for n in 0..5000 {
        match get_varint(bytes, at) {
            Ok((read, next)) if read == n => at = next,
            _ => return false,
        }
    }
    at == bytes.len()
}

#[test]
fn thousands_of_numbers(rt: HostRuntime) -> Result<(), Fail> {
    let out = many_numbers(rt.alloc())?;
    // 128 numbers take a byte, and the others two.
    assert!(rt; out.len() == 128 + 2 * 4872 && are_read(&out));
    assert!(rt; out.capacity() <= 2 * out.len());
    Ok(())
}
