// What no clause says: that calls answer anything but want of memory where memory is ample, and that the grammar
// is that of the format's own examples.
ghost use Rattle.std.specs.Prelude.{◌<◌, ◌^◌, IfOk};
ghost use Rattle.xdb_key.specs.Entries.{IsPoint};

use crate::{TableFile, TableNo, View, ViewCursor};
use std::alloc::Global;
use std::test::Fail;
use xdb_device::{Device, MemDevice, MemFile};
use xdb_key::{Bound, Entry, Extent, Key, Val};
use xdb_rangedel::Fragments;
use xdb_table_w::TableWriter;

/// a at 1 set to `1`.
const ONE_POINT: [u8; 85] = *b"\0\x09\x01a\x01\x01\0\0\0\0\0\x001\0\0\0\0\x01\0\0\0\0\
    \0\x09\x02a\x01\x01\0\0\0\0\0\0\0\x15\0\0\0\0\x01\0\0\0\0\
    \0\0\0\0\0\0\0\0\0\0\0\0\x16\0\0\0\0\0\0\0\x16\0\0\0\x01\0\0\0\0\0\0\0excisedb";

/// a, b, c and d at 1 to 4, each set to its number, and the span from a to z at 5.
const FOUR_POINTS: &[u8] = b"\0\x09\x01a\x01\x01\0\0\0\0\0\x001\0\x09\x01b\x01\x02\0\0\0\0\0\x002\
    \0\x09\x01c\x01\x03\0\0\0\0\0\x003\0\x09\x01d\x01\x04\0\0\0\0\0\x004\0\0\0\0\x01\0\0\0\0\
    \0\x09\x01a\x0f\x05\0\0\0\0\0\0z\0\0\0\0\x01\0\0\0\0\
    \0\x09\x02d\x01\x04\0\0\0\0\0\0\0\x3c\0\0\0\0\x01\0\0\0\0\
    \x3d\0\0\0\0\0\0\0\x15\0\0\0\x53\0\0\0\0\0\0\0\x16\0\0\0\x01\0\0\0\0\0\0\0excisedb";

/// The greatest number.
const MOST: u64 = (1 << 56) - 1;

fn bound(alloc: Global, text: &[u8]) -> Result<Bound, Fail> {
    Ok(Bound::new(text.to_vec(alloc)?)?)
}

fn key(alloc: Global, text: &[u8]) -> Result<Key, Fail> {
    Ok(Key::new(text.to_vec(alloc)?)?)
}

fn bounds(alloc: Global, lo: &[u8], hi: &[u8]) -> Result<(Bound, Bound), Fail> {
    let lo = bound(alloc, lo)?;
    Ok((lo, bound(alloc, hi)?))
}

fn device(alloc: Global) -> MemDevice {
    MemDevice::new(alloc, Vec::new(alloc))
}

fn open(
    alloc: Global,
    dev: &mut MemDevice,
    bytes: &[u8],
) -> Result<Result<TableFile<MemFile>, TableNo>, Fail> {
    let file = dev.create(1, bytes)?;
    Ok(TableFile::open(alloc, file, 1, dev))
}

fn opened(alloc: Global, dev: &mut MemDevice, bytes: &[u8]) -> Result<TableFile<MemFile>, Fail> {
    let file = dev.create(1, bytes)?;
    Ok(TableFile::open(alloc, file, 1, dev)?)
}

/// A cursor over a file from `lo` on and below `hi`.
fn cursor(
    alloc: Global,
    dev: &mut MemDevice,
    bytes: &[u8],
    lo: &[u8],
    hi: &[u8],
    synthetic: u64,
) -> Result<ViewCursor<MemFile>, Fail>
    requires { synthetic < 2 ^ 56 }
{
    let (lo, hi) = bounds(alloc, lo, hi)?;
    let table = opened(alloc, dev, bytes)?;
    Ok(View::new(table, lo, hi, synthetic).cursor())
}

/// A call of a cursor.
#[derive(Clone, Copy)]
enum Call {
    Next,
    Prev,
    Ge(u8),
    Lt(u8),
}

fn go(
    alloc: Global,
    points: &mut ViewCursor<MemFile>,
    dev: &mut MemDevice,
    call: Call,
) -> Result<Result<Option<Entry>, TableNo>, Fail> {
    match call {
        Call::Next => Ok(points.next(dev)),
        Call::Prev => Ok(points.prev(dev)),
        Call::Ge(byte) => Ok(points.seek_ge(&key(alloc, &[byte])?, dev)),
        Call::Lt(byte) => Ok(points.seek_lt(&key(alloc, &[byte])?, dev)),
    }
}

/// What a file comes to.
#[derive(Clone, Copy, PartialEq, Eq)]
enum Outcome {
    /// It is opened, and its first point has this value of one byte.
    Value(u8),
    /// It is opened, and its point block at this place has a defect.
    DamagedBlock(u64),
    /// It is refused for a defect at this place.
    Refused(u64),
}

fn place(no: TableNo) -> Result<u64, Fail> {
    match no {
        TableNo::Damaged { backing: 1, at } => Ok(at),
        _ => Err(Fail::from(no)),
    }
}

fn value(found: &Option<Entry>) -> Result<u8, Fail> {
    if let Some(entry) = found {
        if let [byte] = entry.value().bytes() {
            return Ok(*byte);
        }
    }
    Err(Fail::from("no point with a value of one byte"))
}

fn first_outcome(found: Result<Option<Entry>, TableNo>) -> Result<Outcome, Fail> {
    match found {
        Ok(found) => Ok(Outcome::Value(value(&found)?)),
        Err(no) => Ok(Outcome::DamagedBlock(place(no)?)),
    }
}

fn outcome_on(
    dev: &mut MemDevice,
    opened: Result<TableFile<MemFile>, TableNo>,
    lo: Bound,
    hi: Bound,
) -> Result<Outcome, Fail> {
    match opened {
        Ok(table) => {
            let mut points = View::new(table, lo, hi, 0).cursor();
            first_outcome(points.next(dev))
        }
        Err(no) => Ok(Outcome::Refused(place(no)?)),
    }
}

fn outcome_of(alloc: Global, dev: &mut MemDevice, bytes: &[u8]) -> Result<Outcome, Fail> {
    let (lo, hi) = bounds(alloc, b"\0", b"\xff\xff")?;
    let opened = open(alloc, dev, bytes)?;
    outcome_on(dev, opened, lo, hi)
}

fn read_from(alloc: Global, bytes: &[u8]) -> Result<Outcome, Fail> {
    let mut dev = device(alloc);
    outcome_of(alloc, &mut dev, bytes)
}

/// What another byte comes to in the file of one point. The value may be any byte, and so may what the index says of
/// the key and of the number: the point block has other ones then.
fn changed(at: usize, byte: u8) -> Outcome {
    match at {
        12 => Outcome::Value(byte),
        0..=21 | 25 | 27..=33 => Outcome::DamagedBlock(0),
        22..=44 => Outcome::Refused(22),
        _ => Outcome::Refused(45),
    }
}

#[test]
fn a_file_cut(rt: HostRuntime) -> Result<(), Fail> {
    let alloc = rt.alloc();
    for at in 0..85usize {
        let cut = Outcome::Refused(at.saturating_sub(40) as u64);
        assert!(rt; read_from(alloc, &ONE_POINT[..at])? == cut, "cut at {at}");
    }
    assert!(rt; read_from(alloc, &ONE_POINT)? == Outcome::Value(b'1'));
    Ok(())
}

#[test]
fn a_file_changed(rt: HostRuntime) -> Result<(), Fail> {
    let alloc = rt.alloc();
    for at in 0..85usize {
        let mut bytes = ONE_POINT;
        bytes[at] = 255 - bytes[at];
        let other = changed(at, bytes[at]);
        assert!(rt; read_from(alloc, &bytes)? == other, "changed at {at}");
    }
    let mut bytes = ONE_POINT;
    bytes[69] = 2;
    assert!(rt; read_from(alloc, &bytes)? == Outcome::Refused(45));
    bytes[69] = 1;
    bytes[21] = 1;
    assert!(rt; read_from(alloc, &bytes)? == Outcome::DamagedBlock(0));
    Ok(())
}

/// Whether the point has the key and the number, and its value is `value`; 0 stands for no point.
fn shows(found: &Option<Entry>, key: u8, seq: u64, value: u8) -> bool {
    match found {
        None => key == 0,
        Some(entry) => {
            entry.key().bytes() == [key].as_slice()
                && entry.seq() == seq
                && entry.value().bytes() == [value].as_slice()
        }
    }
}

/// Whether a call answers the point of this key, number and value, or none.
fn answers(
    alloc: Global,
    points: &mut ViewCursor<MemFile>,
    dev: &mut MemDevice,
    call: Call,
    wanted: (u8, u64, u8),
) -> Result<bool, Fail> {
    let found = go(alloc, points, dev, call)??;
    Ok(shows(&found, wanted.0, wanted.1, wanted.2))
}

/// The calls over the points b and c, both ways and by keys, and the key and the value that each answers.
const WALK: [(Call, u8, u8); 14] = [
    (Call::Next, b'b', b'2'),
    (Call::Next, b'c', b'3'),
    (Call::Next, 0, 0),
    (Call::Next, 0, 0),
    (Call::Prev, b'c', b'3'),
    (Call::Prev, b'b', b'2'),
    (Call::Prev, 0, 0),
    (Call::Prev, 0, 0),
    (Call::Next, b'b', b'2'),
    (Call::Ge(b'c'), b'c', b'3'),
    (Call::Lt(b'c'), b'b', b'2'),
    (Call::Lt(b'b'), 0, 0),
    (Call::Ge(b'd'), 0, 0),
    (Call::Prev, b'c', b'3'),
];

/// Whether each call answers what stands there, with its value's digit for a number or the synthetic one.
fn walks(
    alloc: Global,
    points: &mut ViewCursor<MemFile>,
    dev: &mut MemDevice,
    synthetic: u64,
) -> Result<bool, Fail> {
    for (call, key, value) in WALK {
        let own = u64::from(value.saturating_sub(b'0'));
        let seq = if synthetic == 0 { own } else { synthetic };
        if !answers(alloc, points, dev, call, (key, seq, value))? {
            return Ok(false);
        }
    }
    Ok(true)
}

fn is_span(spans: &Fragments, lo: &[u8], hi: &[u8], seq: u64) -> bool {
    match spans.list() {
        [one] => {
            one.range().lo().bytes() == lo && one.range().hi().bytes() == hi && one.seq() == seq
        }
        _ => false,
    }
}

/// Whether the cursor's view has just the span, of this number.
fn has_span(
    points: &ViewCursor<MemFile>,
    dev: &mut MemDevice,
    lo: &[u8],
    hi: &[u8],
    seq: u64,
) -> Result<bool, Fail> {
    let spans = points.view().spans(dev)?;
    Ok(is_span(&spans, lo, hi, seq))
}

/// Whether the points are read by a call for that alone, and are these two.
fn loads(points: &mut ViewCursor<MemFile>, dev: &mut MemDevice) -> Result<bool, Fail> {
    let before = points.is_read();
    points.load(dev)?;
    Ok(!before && points.is_read() && points.points().len() == 2)
}

/// Whether there are the points b and c, and the span from b to d.
fn has_both(
    alloc: Global,
    points: &mut ViewCursor<MemFile>,
    dev: &mut MemDevice,
    synthetic: u64,
) -> Result<bool, Fail> {
    let seq = if synthetic == 0 { 5 } else { synthetic };
    Ok(
        points.view().synthetic() == synthetic
            && loads(points, dev)?
            && walks(alloc, points, dev, synthetic)?
            && has_span(points, dev, b"b", b"d", seq)?,
    )
}

fn has_its_part_on(alloc: Global, dev: &mut MemDevice, synthetic: u64) -> Result<bool, Fail>
    requires { synthetic < 2 ^ 56 }
{
    let mut points = cursor(alloc, dev, FOUR_POINTS, b"b", b"d", synthetic)?;
    has_both(alloc, &mut points, dev, synthetic)
}

/// Whether the view from b to d holds the points b and c and the span, which is cut.
fn has_its_part(alloc: Global, synthetic: u64) -> Result<bool, Fail>
    requires { synthetic < 2 ^ 56 }
{
    let mut dev = device(alloc);
    has_its_part_on(alloc, &mut dev, synthetic)
}

#[test]
fn points_and_spans_of_a_part(rt: HostRuntime) -> Result<(), Fail> {
    let alloc = rt.alloc();
    assert!(rt; has_its_part(alloc, 0)?);
    assert!(rt; has_its_part(alloc, 9)?);
    assert!(rt; has_its_part(alloc, MOST)?);
    Ok(())
}

fn has_no_point(
    alloc: Global,
    points: &mut ViewCursor<MemFile>,
    dev: &mut MemDevice,
) -> Result<bool, Fail> {
    for call in [Call::Next, Call::Prev, Call::Ge(b'c'), Call::Lt(b'c')] {
        if !answers(alloc, points, dev, call, (0, 0, 0))? {
            return Ok(false);
        }
    }
    Ok(true)
}

fn span_count(points: &ViewCursor<MemFile>, dev: &mut MemDevice) -> Result<usize, Fail> {
    let spans = points.view().spans(dev)?;
    Ok(spans.list().len())
}

fn spans_alone_on(
    alloc: Global,
    dev: &mut MemDevice,
    lo: &[u8],
    hi: &[u8],
) -> Result<Option<usize>, Fail> {
    let mut points = cursor(alloc, dev, FOUR_POINTS, lo, hi, 0)?;
    if has_no_point(alloc, &mut points, dev)? {
        Ok(Some(span_count(&points, dev)?))
    } else {
        Ok(None)
    }
}

/// How many spans there are in the view, where it has no points.
fn spans_alone(alloc: Global, lo: &[u8], hi: &[u8]) -> Result<Option<usize>, Fail> {
    let mut dev = device(alloc);
    spans_alone_on(alloc, &mut dev, lo, hi)
}

/// A view behind the points, and one that ends before it begins.
#[test]
fn parts_without_points(rt: HostRuntime) -> Result<(), Fail> {
    let alloc = rt.alloc();
    assert!(rt; spans_alone(alloc, b"e", b"f")? == Some(1));
    assert!(rt; spans_alone(alloc, b"d", b"b")? == Some(0));
    Ok(())
}

/// Bounds, least and greatest number.
type Reach = (&'static [u8], &'static [u8], u64, u64);

fn is_extent(found: &Option<Extent>, wanted: Option<Reach>) -> bool {
    match (found, wanted) {
        (None, None) => true,
        (Some(e), Some((lo, hi, seq_lo, seq_hi))) => {
            e.lo().bytes() == lo
                && e.hi().bytes() == hi
                && e.seq_lo() == seq_lo
                && e.seq_hi() == seq_hi
        }
        _ => false,
    }
}

fn has_left(
    alloc: Global,
    points: &ViewCursor<MemFile>,
    dev: &mut MemDevice,
    at: &[u8],
    wanted: Option<Reach>,
) -> Result<bool, Fail> {
    let at = bound(alloc, at)?;
    let found = points.view().extent_left_of(&at, dev)?;
    Ok(is_extent(&found, wanted))
}

fn has_right(
    alloc: Global,
    points: &ViewCursor<MemFile>,
    dev: &mut MemDevice,
    at: &[u8],
    wanted: Option<Reach>,
) -> Result<bool, Fail> {
    let at = bound(alloc, at)?;
    let found = points.view().extent_right_of(&at, dev)?;
    Ok(is_extent(&found, wanted))
}

/// Whether the extents on both sides of c and of b are those of the view from b to d.
fn has_extents(
    alloc: Global,
    points: &ViewCursor<MemFile>,
    dev: &mut MemDevice,
) -> Result<bool, Fail> {
    Ok(
        has_left(alloc, points, dev, b"c", Some((b"b", b"c", 2, 5)))?
            && has_right(alloc, points, dev, b"c", Some((b"c", b"d", 3, 5)))?
            && has_left(alloc, points, dev, b"b", None)?
            && has_right(alloc, points, dev, b"b", Some((b"b", b"d", 2, 5)))?,
    )
}

fn part_has_extents(alloc: Global, dev: &mut MemDevice) -> Result<bool, Fail> {
    let points = cursor(alloc, dev, FOUR_POINTS, b"b", b"d", 0)?;
    has_extents(alloc, &points, dev)
}

#[test]
fn extents_on_both_sides(rt: HostRuntime) -> Result<(), Fail> {
    let alloc = rt.alloc();
    let mut dev = device(alloc);
    let right = part_has_extents(alloc, &mut dev)?;
    assert!(rt; right);
    Ok(())
}

fn fails(
    alloc: Global,
    points: &mut ViewCursor<MemFile>,
    dev: &mut MemDevice,
    call: Call,
) -> Result<bool, Fail> {
    let found = go(alloc, points, dev, call)?;
    Ok(matches!(&found, Err(TableNo::ReadFault)))
}

fn extent_fails(
    alloc: Global,
    points: &ViewCursor<MemFile>,
    dev: &mut MemDevice,
) -> Result<bool, Fail> {
    let at = bound(alloc, b"c")?;
    let found = points.view().extent_left_of(&at, dev);
    Ok(matches!(&found, Err(TableNo::ReadFault)))
}

/// Whether the first read fails, and a later one for an extent, and both leave the place.
fn stays_in_place(
    alloc: Global,
    points: &mut ViewCursor<MemFile>,
    dev: &mut MemDevice,
) -> Result<bool, Fail> {
    Ok(
        fails(alloc, points, dev, Call::Ge(b'c'))?
            && answers(alloc, points, dev, Call::Next, (b'b', 2, b'2'))?
            && extent_fails(alloc, points, dev)?
            && answers(alloc, points, dev, Call::Next, (b'c', 3, b'3'))?,
    )
}

/// Whether the device fails while the file is opened.
fn open_fails(alloc: Global, dev: &mut MemDevice) -> Result<bool, Fail> {
    let found = open(alloc, dev, FOUR_POINTS)?;
    Ok(matches!(&found, Err(TableNo::ReadFault)))
}

fn part_stays_in_place(alloc: Global, dev: &mut MemDevice) -> Result<bool, Fail> {
    let mut points = cursor(alloc, dev, FOUR_POINTS, b"b", b"d", 0)?;
    stays_in_place(alloc, &mut points, dev)
}

/// A file is made by one call and opened by three, and its points are read by one.
#[test]
fn reads_that_fail(rt: HostRuntime) -> Result<(), Fail> {
    let alloc = rt.alloc();
    let mut dev = MemDevice::new(alloc, [3, 8, 10].to_vec(alloc)?);
    let fails = open_fails(alloc, &mut dev)? && part_stays_in_place(alloc, &mut dev)?;
    assert!(rt; fails);
    Ok(())
}

/// Sets a key to so many letters.
fn set(alloc: Global, key: Key, seq: u64, len: usize) -> Result<Entry, Fail>
    requires { seq < 2 ^ 56 }
    ensures { IfOk result IsPoint }
{
    let value = Val::new(vec![in alloc; b'v'; len]?);
    Ok(Entry::set(key, seq, value)?)
}

fn add(writer: &mut TableWriter, entry: &Entry) -> Result<(), Fail>
    requires { IsPoint entry.now }
{
    if !writer.can_add(entry) {
        return Err(Fail::from("the points are out of order"));
    }
    Ok(writer.add(entry)?)
}

fn finished(writer: TableWriter) -> Result<Vec<u8>, Fail> {
    if writer.is_empty() {
        return Err(Fail::from("nothing was added"));
    }
    let written = writer.finish()?;
    Ok(written.bytes)
}

fn add_long(alloc: Global, writer: &mut TableWriter, len: usize) -> Result<(), Fail> {
    let entry = set(alloc, key(alloc, b"a")?, MOST, len)?;
    add(writer, &entry)
}

/// A file of one point of the greatest number, with a value of so many bytes.
fn long_value(alloc: Global, len: usize) -> Result<Vec<u8>, Fail> {
    let mut writer = TableWriter::new(alloc);
    add_long(alloc, &mut writer, len)?;
    finished(writer)
}

fn is_long(found: &Option<Entry>, len: usize) -> bool {
    match found {
        None => false,
        Some(entry) => {
            entry.seq() == MOST
                && entry.value().bytes().len() == len
                && entry.value().bytes().iter().all(|byte| *byte == b'v')
        }
    }
}

fn first_is_long(
    points: &mut ViewCursor<MemFile>,
    dev: &mut MemDevice,
    len: usize,
) -> Result<bool, Fail> {
    let found = points.next(dev)?;
    Ok(is_long(&found, len))
}

fn long_is_read_on(
    alloc: Global,
    dev: &mut MemDevice,
    bytes: &[u8],
    len: usize,
) -> Result<bool, Fail> {
    let mut points = cursor(alloc, dev, bytes, b"a", b"b", 0)?;
    first_is_long(&mut points, dev, len)
}

fn long_is_read(alloc: Global, len: usize) -> Result<bool, Fail> {
    let bytes = long_value(alloc, len)?;
    let mut dev = device(alloc);
    long_is_read_on(alloc, &mut dev, &bytes, len)
}

/// The longest value that a commit takes, and one byte more: a table has no limit of its own.
#[test]
fn long_values(rt: HostRuntime) -> Result<(), Fail> {
    assert!(rt; long_is_read(rt.alloc(), 65_536)?);
    assert!(rt; long_is_read(rt.alloc(), 65_537)?);
    Ok(())
}

/// How many points a long file has, each with a value of 600 bytes.
const COUNT: u16 = 2_000;

fn add_many(alloc: Global, writer: &mut TableWriter) -> Result<(), Fail> {
    for n in 0..COUNT {
        let entry = set(alloc, key(alloc, &n.to_be_bytes())?, u64::from(n), 600)?;
        add(writer, &entry)?;
    }
    Ok(())
}

fn many_points(alloc: Global) -> Result<Vec<u8>, Fail> {
    let mut writer = TableWriter::new(alloc);
    add_many(alloc, &mut writer)?;
    finished(writer)
}

/// Whether it is the point of this place, with its number.
fn is_at(found: &Option<Entry>, n: u16) -> bool {
    match found {
        None => false,
        Some(entry) => {
            entry.key().bytes() == n.to_be_bytes().as_slice()
                && entry.seq() == u64::from(n)
                && entry.value().bytes().len() == 600
        }
    }
}

fn next_is_at(points: &mut ViewCursor<MemFile>, dev: &mut MemDevice, n: u16) -> Result<bool, Fail> {
    let found = points.next(dev)?;
    Ok(is_at(&found, n))
}

fn prev_is_at(points: &mut ViewCursor<MemFile>, dev: &mut MemDevice, n: u16) -> Result<bool, Fail> {
    let found = points.prev(dev)?;
    Ok(is_at(&found, n))
}

/// Whether the cursor goes over all points to the end, and back to the start.
fn goes_both_ways(
    alloc: Global,
    points: &mut ViewCursor<MemFile>,
    dev: &mut MemDevice,
) -> Result<bool, Fail> {
    for n in 0..COUNT {
        if !next_is_at(points, dev, n)? {
            return Ok(false);
        }
    }
    if !answers(alloc, points, dev, Call::Next, (0, 0, 0))? {
        return Ok(false);
    }
    for n in 0..COUNT {
        if !prev_is_at(points, dev, COUNT - 1 - n)? {
            return Ok(false);
        }
    }
    answers(alloc, points, dev, Call::Prev, (0, 0, 0))
}

fn many_are_read(alloc: Global, dev: &mut MemDevice, bytes: &[u8]) -> Result<bool, Fail> {
    let mut points = cursor(alloc, dev, bytes, b"\0", b"\xff", 0)?;
    goes_both_ways(alloc, &mut points, dev)
}

/// The file is longer than 1 MiB.
#[test]
fn thousands_of_points(rt: HostRuntime) -> Result<(), Fail> {
    let alloc = rt.alloc();
    let bytes = many_points(alloc)?;
    assert!(rt; bytes.len() > 1 << 20);
    let mut dev = device(alloc);
    assert!(rt; many_are_read(alloc, &mut dev, &bytes)?);
    Ok(())
}
