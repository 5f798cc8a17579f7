// What no clause says: that the call answers anything but want of memory where memory is ample, how often it reads,
// and that the definitions give what the worked examples have.
ghost use Rattle.std.specs.Prelude.{◌<◌, ◌^◌, IfOk};
ghost use Rattle.xdb_key.specs.Entries.{IsPoint};

use crate::{Halves, halves};
use std::alloc::Global;
use std::test::Fail;
use xdb_device::{Device, MemDevice, MemFile};
use xdb_key::{Bound, Entry, Extent, Key, KeyRange, Val};
use xdb_table_r::{TableFile, TableNo, View};
use xdb_table_w::TableWriter;

/// a, b, c and d at 1 to 4, each set to its number, and the span from a to z at 5.
const UNDER_A_SPAN: &[u8] = b"\0\x09\x01a\x01\x01\0\0\0\0\0\x001\0\x09\x01b\x01\x02\0\0\0\0\0\x002\
    \0\x09\x01c\x01\x03\0\0\0\0\0\x003\0\x09\x01d\x01\x04\0\0\0\0\0\x004\0\0\0\0\x01\0\0\0\0\
    \0\x09\x01a\x0f\x05\0\0\0\0\0\0z\0\0\0\0\x01\0\0\0\0\
    \0\x09\x02d\x01\x04\0\0\0\0\0\0\0\x3c\0\0\0\0\x01\0\0\0\0\
    \x3d\0\0\0\0\0\0\0\x15\0\0\0\x53\0\0\0\0\0\0\0\x16\0\0\0\x01\0\0\0\0\0\0\0excisedb";

/// A half's bounds, and its least and greatest number; none where the view holds nothing on that side.
type Half = Option<(&'static [u8], &'static [u8], u64, u64)>;

/// A view's bounds, a span, and the halves.
type Case = (
    (&'static [u8], &'static [u8]),
    (&'static [u8], &'static [u8]),
    Half,
    Half,
);

/// Over the points a to e at 1 to 5: spans that cut them in two, that touch the first and the last key, that lie in
/// a gap, before and behind all keys, and over all of them; and views of a part.
const OF_POINTS: [Case; 11] = [
    (
        (b"a", b"e\0"),
        (b"b", b"d"),
        Some((b"a", b"a\0", 1, 1)),
        Some((b"d", b"e\0", 4, 5)),
    ),
    (
        (b"a", b"e\0"),
        (b"a", b"c"),
        None,
        Some((b"c", b"e\0", 3, 5)),
    ),
    (
        (b"a", b"e\0"),
        (b"c", b"e"),
        Some((b"a", b"b\0", 1, 2)),
        Some((b"e", b"e\0", 5, 5)),
    ),
    (
        (b"a", b"e\0"),
        (b"c", b"e\0"),
        Some((b"a", b"b\0", 1, 2)),
        None,
    ),
    (
        (b"a", b"e\0"),
        (b"b\0", b"c"),
        Some((b"a", b"b\0", 1, 2)),
        Some((b"c", b"e\0", 3, 5)),
    ),
    (
        (b"a", b"e\0"),
        (b"A", b"a"),
        None,
        Some((b"a", b"e\0", 1, 5)),
    ),
    (
        (b"a", b"e\0"),
        (b"x", b"z"),
        Some((b"a", b"e\0", 1, 5)),
        None,
    ),
    ((b"a", b"e\0"), (b"a", b"z"), None, None),
    (
        (b"b", b"d"),
        (b"c", b"c\0"),
        Some((b"b", b"b\0", 2, 2)),
        None,
    ),
    ((b"b", b"e"), (b"a", b"c"), None, Some((b"c", b"d\0", 3, 4))),
    ((b"e", b"b"), (b"c", b"d"), None, None),
];

/// Over a range tombstone that crosses each of the spans.
const OF_A_SPAN: [Case; 5] = [
    (
        (b"a", b"z"),
        (b"m", b"n"),
        Some((b"a", b"m", 1, 5)),
        Some((b"n", b"z", 5, 5)),
    ),
    (
        (b"a", b"z"),
        (b"b", b"c"),
        Some((b"a", b"b", 1, 5)),
        Some((b"c", b"z", 3, 5)),
    ),
    ((b"a", b"z"), (b"a", b"d"), None, Some((b"d", b"z", 4, 5))),
    ((b"a", b"z"), (b"e", b"z"), Some((b"a", b"e", 1, 5)), None),
    (
        (b"b", b"y"),
        (b"c", b"x"),
        Some((b"b", b"c", 2, 5)),
        Some((b"x", b"y", 5, 5)),
    ),
];

fn bound(alloc: Global, text: &[u8]) -> Result<Bound, Fail> {
    Ok(Bound::new(text.to_vec(alloc)?)?)
}

fn range(alloc: Global, lo: &[u8], hi: &[u8]) -> Result<KeyRange, Fail> {
    let lo = bound(alloc, lo)?;
    Ok(KeyRange::new(lo, bound(alloc, hi)?)?)
}

fn bounds(alloc: Global, lo: &[u8], hi: &[u8]) -> Result<(Bound, Bound), Fail> {
    let lo = bound(alloc, lo)?;
    Ok((lo, bound(alloc, hi)?))
}

/// A key of one letter set to so many letters, at 1 for a, 2 for b, and so on.
fn point(alloc: Global, letter: u8, len: usize) -> Result<Entry, Fail>
    ensures { IfOk result IsPoint }
{
    let seq = u64::from(letter.saturating_sub(b'a')) + 1;
    let key = Key::new([letter].to_vec(alloc)?)?;
    let value = Val::new(vec![in alloc; b'v'; len]?);
    Ok(Entry::set(key, seq, value)?)
}

fn add(writer: &mut TableWriter, entry: &Entry) -> Result<(), Fail>
    requires { IsPoint entry.now }
{
    if !writer.can_add(entry) {
        return Err(Fail::from("the points are out of order"));
    }
    Ok(writer.add(entry)?)
}

fn add_all(
    alloc: Global,
    writer: &mut TableWriter,
    letters: &[u8],
    len: usize,
) -> Result<(), Fail> {
    for letter in letters {
        let entry = point(alloc, *letter, len)?;
        add(writer, &entry)?;
    }
    Ok(())
}

fn finished(writer: TableWriter) -> Result<Vec<u8>, Fail> {
    if writer.is_empty() {
        return Err(Fail::from("nothing was added"));
    }
    let written = writer.finish()?;
    Ok(written.bytes)
}

/// A file of points of one letter, with values of so many bytes.
fn points(alloc: Global, letters: &[u8], len: usize) -> Result<Vec<u8>, Fail> {
    let mut writer = TableWriter::new(alloc);
    add_all(alloc, &mut writer, letters, len)?;
    finished(writer)
}

fn device(alloc: Global) -> MemDevice {
    MemDevice::new(alloc, Vec::new(alloc))
}

fn opened(alloc: Global, dev: &mut MemDevice, bytes: &[u8]) -> Result<TableFile<MemFile>, Fail> {
    let file = dev.create(1, bytes)?;
    Ok(TableFile::open(alloc, file, 1, dev)?)
}

fn view_of(
    alloc: Global,
    dev: &mut MemDevice,
    bytes: &[u8],
    keys: (&[u8], &[u8]),
    synthetic: u64,
) -> Result<View<MemFile>, Fail>
    requires { synthetic < 2 ^ 56 }
{
    let (lo, hi) = bounds(alloc, keys.0, keys.1)?;
    let table = opened(alloc, dev, bytes)?;
    Ok(View::new(table, lo, hi, synthetic))
}

fn cut(
    alloc: Global,
    view: &View<MemFile>,
    dev: &mut MemDevice,
    lo: &[u8],
    hi: &[u8],
) -> Result<Result<Halves, TableNo>, Fail> {
    let span = range(alloc, lo, hi)?;
    Ok(halves(view, &span, dev))
}

/// Whether a half is as wanted, where a synthetic number stands for all numbers.
fn is_half(found: &Option<Extent>, wanted: Half, synthetic: u64) -> bool {
    match (found, wanted) {
        (None, None) => true,
        (Some(e), Some((lo, hi, seq_lo, seq_hi))) => {
            e.lo().bytes() == lo
                && e.hi().bytes() == hi
                && e.seq_lo() == (if synthetic == 0 { seq_lo } else { synthetic })
                && e.seq_hi() == (if synthetic == 0 { seq_hi } else { synthetic })
        }
        _ => false,
    }
}

fn are(found: &Halves, case: &Case, synthetic: u64) -> bool {
    is_half(&found.left, case.2, synthetic) && is_half(&found.right, case.3, synthetic)
}

fn cut_is(
    alloc: Global,
    view: &View<MemFile>,
    dev: &mut MemDevice,
    case: &Case,
    synthetic: u64,
) -> Result<bool, Fail> {
    let found = cut(alloc, view, dev, case.1.0, case.1.1)??;
    Ok(are(&found, case, synthetic))
}

fn holds(
    alloc: Global,
    dev: &mut MemDevice,
    bytes: &[u8],
    case: &Case,
    synthetic: u64,
) -> Result<bool, Fail>
    requires { synthetic < 2 ^ 56 }
{
    let view = view_of(alloc, dev, bytes, case.0, synthetic)?;
    cut_is(alloc, &view, dev, case, synthetic)
}

/// Whether all cases hold, with the numbers of the file and with a synthetic one.
fn all_hold(alloc: Global, bytes: &[u8], cases: &[Case]) -> Result<bool, Fail> {
    let mut dev = device(alloc);
    for case in cases {
        if !holds(alloc, &mut dev, bytes, case, 0)? || !holds(alloc, &mut dev, bytes, case, 9)? {
            return Ok(false);
        }
    }
    Ok(true)
}

fn points_hold(alloc: Global) -> Result<bool, Fail> {
    let bytes = points(alloc, b"abcde", 1)?;
    all_hold(alloc, &bytes, &OF_POINTS)
}

#[test]
fn halves_of_points_and_of_a_crossing_span(rt: HostRuntime) -> Result<(), Fail> {
    assert!(rt; points_hold(rt.alloc())?);
    assert!(rt; all_hold(rt.alloc(), UNDER_A_SPAN, &OF_A_SPAN)?);
    Ok(())
}

/// What a call came to: the place of a defect, a fault of the device, no halves, or some.
#[derive(Clone, Copy, PartialEq, Eq)]
enum Outcome {
    DamagedAt(u64),
    Fault,
    NoHalves,
    SomeHalf,
}

fn comes_to(found: &Result<Halves, TableNo>) -> Result<Outcome, Fail> {
    match found {
        Ok(found) => {
            let none = found.left.is_none() && found.right.is_none();
            Ok(if none {
                Outcome::NoHalves
            } else {
                Outcome::SomeHalf
            })
        }
        Err(TableNo::Damaged { backing: 1, at }) => Ok(Outcome::DamagedAt(*at)),
        Err(TableNo::ReadFault) => Ok(Outcome::Fault),
        Err(_) => Err(Fail::from("another error")),
    }
}

fn cut_comes_to(
    alloc: Global,
    view: &View<MemFile>,
    dev: &mut MemDevice,
    lo: &[u8],
    hi: &[u8],
) -> Result<Outcome, Fail> {
    let found = cut(alloc, view, dev, lo, hi)?;
    comes_to(&found)
}

/// The span that is cut out, what that comes to, and how many calls the device has had then.
const READS: [(&[u8], &[u8], Outcome, u64); 5] = [
    (b"a", b"z", Outcome::NoHalves, 4),
    (b"b", b"c", Outcome::Fault, 5),
    (b"b", b"c", Outcome::SomeHalf, 7),
    (b"a", b"c", Outcome::SomeHalf, 8),
    (b"c", b"z", Outcome::SomeHalf, 9),
];

fn reads_on(alloc: Global, view: &View<MemFile>, dev: &mut MemDevice) -> Result<bool, Fail> {
    for (lo, hi, comes_to, calls) in READS {
        if cut_comes_to(alloc, view, dev, lo, hi)? != comes_to || dev.calls() != calls {
            return Ok(false);
        }
    }
    Ok(true)
}

fn reads(alloc: Global, dev: &mut MemDevice) -> Result<bool, Fail> {
    let view = view_of(alloc, dev, UNDER_A_SPAN, (b"a", b"z"), 0)?;
    reads_on(alloc, &view, dev)
}

/// A file is made by one call and opened by three, and its one point block is read by one for each side that has keys.
#[test]
fn sides_without_keys_are_not_read(rt: HostRuntime) -> Result<(), Fail> {
    let alloc = rt.alloc();
    let mut dev = MemDevice::new(alloc, [5].to_vec(alloc)?);
    let wanted = reads(alloc, &mut dev)?;
    assert!(rt; wanted);
    Ok(())
}

fn damaged_on(alloc: Global, dev: &mut MemDevice, bytes: &[u8], at: u64) -> Result<bool, Fail> {
    let view = view_of(alloc, dev, bytes, (b"a", b"e"), 0)?;
    Ok(
        cut_comes_to(alloc, &view, dev, b"b", b"c")? == Outcome::DamagedAt(at)
            && cut_comes_to(alloc, &view, dev, b"a", b"c")? == Outcome::DamagedAt(at)
            && cut_comes_to(alloc, &view, dev, b"c", b"e")? == Outcome::DamagedAt(at)
            && cut_comes_to(alloc, &view, dev, b"a", b"e")? == Outcome::NoHalves,
    )
}

/// Where the second point block begins: the first has two entries of 3,013 bytes, 8 bytes of restarts and the type.
const SECOND: usize = 2 * 3_013 + 8 + 1;

/// Whether a defect at the block that begins there is named by that place.
fn is_named(alloc: Global, at: usize) -> Result<bool, Fail> {
    let mut bytes = points(alloc, b"abcd", 3_000)?;
    if at >= bytes.len() {
        return Ok(false);
    }
    bytes[at] = 1;
    let mut dev = device(alloc);
    damaged_on(alloc, &mut dev, &bytes, at as u64)
}

/// The first block has a and b, and the second c and d. A defect of either is named, whichever side it lies on.
#[test]
fn damaged_blocks(rt: HostRuntime) -> Result<(), Fail> {
    assert!(rt; is_named(rt.alloc(), 0)?);
    assert!(rt; is_named(rt.alloc(), SECOND)?);
    Ok(())
}

/// How often halves are found below.
const TIMES: u64 = 3_000;

fn many_on(alloc: Global, view: &View<MemFile>, dev: &mut MemDevice) -> Result<bool, Fail> {
    for _ in 0..TIMES {
        if !cut_is(alloc, view, dev, &OF_A_SPAN[1], 0)? {
            return Ok(false);
        }
    }
    Ok(true)
}

fn many(alloc: Global, dev: &mut MemDevice) -> Result<bool, Fail> {
    let view = view_of(alloc, dev, UNDER_A_SPAN, (b"a", b"z"), 0)?;
    many_on(alloc, &view, dev)
}

/// Each call reads the one block twice, and keeps nothing from one call to the next.
#[test]
fn thousands_of_halves(rt: HostRuntime) -> Result<(), Fail> {
    let alloc = rt.alloc();
    let mut dev = device(alloc);
    let all = many(alloc, &mut dev)?;
    assert!(rt; all);
    assert!(rt; dev.calls() == 4 + 2 * TIMES);
    Ok(())
}
