use crate::{TableWriter, Written};
use std::alloc::Global;
use std::test::Fail;
use xdb_key::{Bound, Entry, Key, KeyRange, Span, Val};

/// What a table is made of.
#[derive(Clone, Copy)]
enum Case {
    /// The set of a at 1 to 1.
    Point,
    /// The span from a to c at 5.
    Span,
    /// Twelve points of values of 1,000 letters, and a span around them.
    PointsInSpan,
    /// 3,000 points of values of 4,096 letters.
    Thousands,
    /// 17 points of the longest values that operations have.
    Long,
}

fn key(alloc: Global, text: &[u8]) -> Result<Key, Fail> {
    Ok(Key::new(text.to_vec(alloc)?)?)
}

fn bound(alloc: Global, text: &[u8]) -> Result<Bound, Fail> {
    Ok(Bound::new(text.to_vec(alloc)?)?)
}

fn entry(alloc: Global, user: &[u8], seq: u64, value: Vec<u8>) -> Result<Entry, Fail> {
    if seq >= 1 << 56 {
        return Err(Fail::from("the number is too great"));
    }
    Ok(Entry::set(key(alloc, user)?, seq, Val::new(value))?)
}

fn add(writer: &mut TableWriter, entry: &Entry) -> Result<(), Fail> {
    if !writer.can_add(entry) {
        return Err(Fail::from("the points are out of order"));
    }
    Ok(writer.add(entry)?)
}

/// Sets the key to a value of so many letters.
fn add_letters(
    alloc: Global,
    writer: &mut TableWriter,
    user: &[u8],
    seq: u64,
    len: usize,
) -> Result<(), Fail> {
    let value = vec![in alloc; b'v'; len]?;
    add(writer, &entry(alloc, user, seq, value)?)
}

fn span(alloc: Global, lo: &[u8], hi: &[u8], seq: u64) -> Result<Span, Fail> {
    let lo = bound(alloc, lo)?;
    let range = KeyRange::new(lo, bound(alloc, hi)?)?;
    if seq >= 1 << 56 {
        return Err(Fail::from("the number is too great"));
    }
    Ok(Span::new(range, seq))
}

fn add_span(writer: &mut TableWriter, span: &Span) -> Result<(), Fail> {
    if !writer.can_add_span(span) {
        return Err(Fail::from("the spans are out of order"));
    }
    Ok(writer.add_span(span)?)
}

/// Adds so many points, of keys of three letters and values of so many.
fn add_many(alloc: Global, writer: &mut TableWriter, count: usize, len: usize) -> Result<(), Fail> {
    for i in 0..count {
        let letter = |n: usize| b'a' + (n % 26) as u8;
        let user = [letter(i / 676), letter(i / 26), letter(i)];
        add_letters(alloc, writer, &user, 7, len)?;
    }
    Ok(())
}

fn fill(alloc: Global, writer: &mut TableWriter, case: Case) -> Result<(), Fail> {
    match case {
        Case::Point => add(writer, &entry(alloc, b"a", 1, b"1".to_vec(alloc)?)?),
        Case::Span => add_span(writer, &span(alloc, b"a", b"c", 5)?),
        Case::PointsInSpan => {
            for i in 0..12u8 {
                add_letters(alloc, writer, &[b'k', b'a' + i], 9, 1000)?;
            }
            add_span(writer, &span(alloc, b"a", b"z", 7)?)
        }
        Case::Thousands => add_many(alloc, writer, 3000, 4096),
        Case::Long => add_many(alloc, writer, 17, 65_536),
    }
}

fn written(alloc: Global, case: Case) -> Result<Written, Fail> {
    let mut writer = TableWriter::new(alloc);
    fill(alloc, &mut writer, case)?;
    if writer.is_empty() {
        return Err(Fail::from("nothing was added"));
    }
    Ok(writer.finish()?)
}

/// Whether these are the bytes, the bounds and the numbers.
fn is_table(written: &Written, bytes: &[u8], hi: &[u8], seq: u64) -> bool {
    written.bytes.as_slice() == bytes && has_extent(written, b"a", hi, seq, seq)
}

fn has_extent(written: &Written, lo: &[u8], hi: &[u8], seq_lo: u64, seq_hi: u64) -> bool {
    written.extent.lo().bytes() == lo
        && written.extent.hi().bytes() == hi
        && written.extent.seq_lo() == seq_lo
        && written.extent.seq_hi() == seq_hi
}

/// The number of four bytes at so many bytes before the end.
fn number(bytes: &[u8], before_end: usize) -> u64 {
    let mut n = 0u64;
    let at = bytes.len().saturating_sub(before_end);
    for byte in bytes.iter().skip(at).take(4).rev() {
        n = n.wrapping_mul(256).wrapping_add(u64::from(*byte));
    }
    n
}

#[test]
fn one_point(rt: HostRuntime) -> Result<(), Fail> {
    let written = written(rt.alloc(), Case::Point)?;
    let wanted = b"\0\x09\x01a\x01\x01\0\0\0\0\0\x001\0\0\0\0\x01\0\0\0\0\
        \0\x09\x02a\x01\x01\0\0\0\0\0\0\0\x15\0\0\0\0\x01\0\0\0\0\
        \0\0\0\0\0\0\0\0\0\0\0\0\x16\0\0\0\0\0\0\0\x16\0\0\0\x01\0\0\0\0\0\0\0excisedb";
    assert!(rt; is_table(&written, wanted.as_slice(), b"a\0", 1));
    Ok(())
}

#[test]
fn one_span(rt: HostRuntime) -> Result<(), Fail> {
    let written = written(rt.alloc(), Case::Span)?;
    let wanted = b"\0\x09\x01a\x0f\x05\0\0\0\0\0\0c\0\0\0\0\x01\0\0\0\0\
        \0\0\0\0\0\0\0\0\x15\0\0\0\0\0\0\0\0\0\0\0\0\0\0\0\x01\0\0\0\0\0\0\0excisedb";
    assert!(rt; is_table(&written, wanted.as_slice(), b"c", 5));
    Ok(())
}

/// An entry has 4 bytes of lengths, 10 of the key and 1,000 of the value. All but the first of a block
/// share a byte. So five have 5,066 bytes and end a block, of 5,074 bytes with its restart part and 5,075
/// with its type byte. The last two have 2,027.
fn has_three_blocks(written: &Written) -> bool {
    let bytes = written.bytes.as_slice();
    let points = 2 * 5075 + 2036;
    // The index has three rows: 4 lengths of a byte each are 3, 10 bytes of key at the first and 9 at the
    // others, and two varints of 1 + 2, 2 + 2 and 2 + 2 bytes.
    number(bytes, 40) == points
        && number(bytes, 32) == 21
        && number(bytes, 28) == points + 22
        && number(bytes, 20) == 3 * 3 + 10 + 9 + 9 + 3 + 4 + 4 + 8
        && has_extent(written, b"a", b"z", 7, 9)
}

#[test]
fn three_point_blocks_and_a_span(rt: HostRuntime) -> Result<(), Fail> {
    let written = written(rt.alloc(), Case::PointsInSpan)?;
    assert!(rt; has_three_blocks(&written));
    Ok(())
}

/// Whether the points' blocks have so many bytes, and nothing but index and footer stands behind them.
fn has_points(written: &Written, points: u64, hi: &[u8]) -> bool {
    let bytes = written.bytes.as_slice();
    let len = bytes.len() as u64;
    number(bytes, 32) == 0
        && number(bytes, 28) == points
        && points.saturating_add(number(bytes, 20)).saturating_add(41) == len
        && written.bytes.capacity() <= bytes.len().saturating_mul(2)
        && has_extent(written, b"aaa", hi, 7, 7)
}

/// Each point makes a block. Its entry has 4 bytes of lengths, 11 of the key and 4,096 of the value, and the
/// block 8 more and a type byte. The last key is that of 2,999 = 4 * 676 + 11 * 26 + 9.
#[test]
fn thousands_of_blocks(rt: HostRuntime) -> Result<(), Fail> {
    let written = written(rt.alloc(), Case::Thousands)?;
    assert!(rt; has_points(&written, 3000 * 4120, b"elj\0"));
    Ok(())
}

/// A file above 1 MiB. Here the lengths take 5 bytes.
#[test]
fn values_of_65536_bytes(rt: HostRuntime) -> Result<(), Fail> {
    let written = written(rt.alloc(), Case::Long)?;
    assert!(rt; has_points(&written, 17 * (5 + 11 + 65_536 + 9), b"aaq\0"));
    Ok(())
}
