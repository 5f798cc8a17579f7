// What no clause says: that calls answer anything but want of memory where memory is ample, and how tables and memtables
// stand over one another in examples.
ghost use Rattle.std.specs.Prelude.{◌<◌, ◌≤◌, ◌^◌, IfOk};
ghost use Rattle.xdb_key.specs.Entries.{IsPoint};

use crate::{Merged, open_views};
use std::alloc::Global;
use std::test::Fail;
use xdb_batch::Batch;
use xdb_device::{Device, MemDevice, MemFile};
use xdb_key::{Bound, Entry, Extent, Key, KeyRange, Span, Val};
use xdb_mem::{MemParts, MemQueue};
use xdb_meta::TableMeta;
use xdb_plain::Place;
use xdb_table_r::{TableFile, TableNo, View};
use xdb_table_w::TableWriter;

/// A key, a number, and a value of one byte; 0 stands for a delete.
type Row = (u8, u32, u8);

/// Bounds, and the number of a range delete or of a view.
type Cut = (u8, u8, u32);

/// A table and its view.
#[derive(Clone, Copy)]
struct Table {
    points: &'static [Row],
    spans: &'static [Cut],
    /// Its bounds and its synthetic number.
    seen: Cut,
}

const WHOLE: Cut = (1, 255, 0);

/// An operation in a memtable.
#[derive(Clone, Copy)]
enum Put {
    Set(u8, u8),
    Del(u8),
    Cut(u8, u8),
}

/// A call of a cursor.
#[derive(Clone, Copy)]
enum Call {
    Next,
    Prev,
    Ge(u8),
    Lt(u8),
}

/// Calls, and the key, the number and the value that each answers; a key of 0 is no pair.
type Calls = &'static [(Call, Row)];

/// Operations numbered from `first` on, tables, and what a cursor inside the bounds at a number answers.
#[derive(Clone, Copy)]
struct Case {
    first: u32,
    puts: &'static [Put],
    tables: &'static [Table],
    lo: u8,
    hi: u8,
    at: u32,
    calls: Calls,
}

const END: Row = (0, 0, 0);

/// a is set twice, b is deleted over a set, and c and d by a range, d before it is set.
const PUTS: &[Put] = &[
    Put::Set(b'a', b'1'),
    Put::Set(b'b', b'2'),
    Put::Del(b'b'),
    Put::Cut(b'c', b'e'),
    Put::Set(b'd', b'5'),
    Put::Set(b'a', b'6'),
];

/// Keys of one table stand between those of the other, and both have c.
const TWO: &[Table] = &[
    Table {
        points: &[(b'a', 10, b'1'), (b'c', 11, b'3')],
        spans: &[],
        seen: WHOLE,
    },
    Table {
        points: &[(b'b', 5, b'2'), (b'c', 4, b'9'), (b'd', 6, b'4')],
        spans: &[],
        seen: WHOLE,
    },
];

/// A delete of b and one of the keys from c to e stand over the last table, and c is set again.
const OVER: &[Table] = &[
    Table {
        points: &[(b'b', 20, 0), (b'c', 22, b'7')],
        spans: &[],
        seen: WHOLE,
    },
    Table {
        points: &[],
        spans: &[(b'c', b'e', 21)],
        seen: WHOLE,
    },
    Table {
        points: &[
            (b'a', 1, b'1'),
            (b'b', 2, b'2'),
            (b'c', 3, b'3'),
            (b'd', 4, b'4'),
            (b'e', 5, b'5'),
        ],
        spans: &[],
        seen: WHOLE,
    },
];

/// The first table's numbers are all 7, so its points stand over its span, and over what has lesser numbers.
const ONE_NUMBER: &[Table] = &[
    Table {
        points: &[
            (b'a', 1, b'1'),
            (b'b', 3, b'3'),
            (b'b', 2, b'2'),
            (b'z', 4, b'4'),
        ],
        spans: &[(b'a', b'y', 5)],
        seen: (b'a', b'x', 7),
    },
    Table {
        points: &[
            (b'a', 6, b'6'),
            (b'c', 6, b'6'),
            (b'd', 8, b'8'),
            (b'z', 6, b'6'),
        ],
        spans: &[],
        seen: WHOLE,
    },
];

const CASES: [Case; 9] = [
    Case {
        first: 1,
        puts: PUTS,
        tables: &[],
        lo: 1,
        hi: 255,
        at: 7,
        calls: &[
            (Call::Next, (b'a', 6, b'6')),
            (Call::Next, (b'd', 5, b'5')),
            (Call::Next, END),
            (Call::Next, END),
            (Call::Prev, (b'd', 5, b'5')),
            (Call::Prev, (b'a', 6, b'6')),
            (Call::Prev, END),
            (Call::Prev, END),
            (Call::Next, (b'a', 6, b'6')),
            (Call::Ge(b'b'), (b'd', 5, b'5')),
            (Call::Lt(b'd'), (b'a', 6, b'6')),
            (Call::Lt(b'a'), END),
            (Call::Ge(b'e'), END),
            (Call::Prev, (b'd', 5, b'5')),
        ],
    },
    // The number itself isn't seen.
    Case {
        first: 1,
        puts: PUTS,
        tables: &[],
        lo: 1,
        hi: 255,
        at: 6,
        calls: &[(Call::Next, (b'a', 1, b'1')), (Call::Next, (b'd', 5, b'5'))],
    },
    Case {
        first: 1,
        puts: PUTS,
        tables: &[],
        lo: 1,
        hi: 255,
        at: 3,
        calls: &[
            (Call::Lt(b'z'), (b'b', 2, b'2')),
            (Call::Prev, (b'a', 1, b'1')),
        ],
    },
    Case {
        first: 1,
        puts: &[],
        tables: TWO,
        lo: 1,
        hi: 255,
        at: 100,
        calls: &[
            (Call::Prev, END),
            (Call::Ge(b'a'), (b'a', 10, b'1')),
            (Call::Ge(b'b'), (b'b', 5, b'2')),
            (Call::Ge(b'c'), (b'c', 11, b'3')),
            (Call::Ge(b'd'), (b'd', 6, b'4')),
            (Call::Prev, (b'c', 11, b'3')),
            (Call::Next, (b'd', 6, b'4')),
            (Call::Next, END),
            (Call::Lt(b'd'), (b'c', 11, b'3')),
            (Call::Prev, (b'b', 5, b'2')),
            (Call::Prev, (b'a', 10, b'1')),
            (Call::Next, (b'b', 5, b'2')),
        ],
    },
    // b is deleted and set again in the memtable, which deletes e by a range.
    Case {
        first: 30,
        puts: &[Put::Set(b'b', b'0'), Put::Cut(b'e', b'f')],
        tables: OVER,
        lo: 1,
        hi: 255,
        at: 100,
        calls: &[
            (Call::Next, (b'a', 1, b'1')),
            (Call::Next, (b'b', 30, b'0')),
            (Call::Next, (b'c', 22, b'7')),
            (Call::Next, END),
            (Call::Prev, (b'c', 22, b'7')),
        ],
    },
    // The span of a table stands over the memtable's d.
    Case {
        first: 20,
        puts: &[Put::Set(b'd', b'0')],
        tables: OVER,
        lo: 1,
        hi: 255,
        at: 100,
        calls: &[
            (Call::Next, (b'a', 1, b'1')),
            (Call::Next, (b'c', 22, b'7')),
            (Call::Next, (b'e', 5, b'5')),
            (Call::Next, END),
        ],
    },
    Case {
        first: 1,
        puts: &[],
        tables: OVER,
        lo: b'b',
        hi: b'e',
        at: 21,
        calls: &[
            (Call::Next, (b'c', 3, b'3')),
            (Call::Next, (b'd', 4, b'4')),
            (Call::Next, END),
            (Call::Lt(b'z'), (b'd', 4, b'4')),
            (Call::Ge(b'a'), (b'c', 3, b'3')),
            (Call::Prev, END),
        ],
    },
    Case {
        first: 1,
        puts: &[],
        tables: ONE_NUMBER,
        lo: 1,
        hi: 255,
        at: 100,
        calls: &[
            (Call::Next, (b'a', 7, b'1')),
            (Call::Next, (b'b', 7, b'3')),
            (Call::Next, (b'd', 8, b'8')),
            (Call::Next, (b'z', 6, b'6')),
            (Call::Next, END),
        ],
    },
    Case {
        first: 1,
        puts: &[],
        tables: &[],
        lo: 1,
        hi: 255,
        at: 100,
        calls: &[
            (Call::Next, END),
            (Call::Prev, END),
            (Call::Ge(b'a'), END),
            (Call::Lt(b'a'), END),
        ],
    },
];

fn key(alloc: Global, byte: u8) -> Result<Key, Fail> {
    Ok(Key::new(vec![in alloc; byte]?)?)
}

fn bound(alloc: Global, byte: u8) -> Result<Bound, Fail> {
    Ok(Bound::new(vec![in alloc; byte]?)?)
}

fn bounds(alloc: Global, lo: u8, hi: u8) -> Result<(Bound, Bound), Fail> {
    let lo = bound(alloc, lo)?;
    Ok((lo, bound(alloc, hi)?))
}

fn range(alloc: Global, lo: u8, hi: u8) -> Result<KeyRange, Fail> {
    let (lo, hi) = bounds(alloc, lo, hi)?;
    Ok(KeyRange::new(lo, hi)?)
}

fn entry(alloc: Global, key: Key, seq: u64, value: u8) -> Result<Entry, Fail>
    requires { seq < 2 ^ 56 }
    ensures { IfOk result IsPoint }
{
    if value == 0 {
        return Ok(Entry::del(key, seq)?);
    }
    let value = Val::new(vec![in alloc; value]?);
    Ok(Entry::set(key, seq, value)?)
}

fn add(writer: &mut TableWriter, entry: &Entry) -> Result<(), Fail>
    requires { IsPoint entry.now }
{
    if !writer.can_add(entry) {
        return Err(Fail::from("the points are out of order"));
    }
    Ok(writer.add(entry)?)
}

fn add_span(writer: &mut TableWriter, span: &Span) -> Result<(), Fail> {
    if !writer.can_add_span(span) {
        return Err(Fail::from("the spans are out of order"));
    }
    Ok(writer.add_span(span)?)
}

fn add_row(alloc: Global, writer: &mut TableWriter, row: &Row) -> Result<(), Fail> {
    let entry = entry(alloc, key(alloc, row.0)?, u64::from(row.1), row.2)?;
    add(writer, &entry)
}

fn add_cut(alloc: Global, writer: &mut TableWriter, cut: &Cut) -> Result<(), Fail> {
    let span = Span::new(range(alloc, cut.0, cut.1)?, u64::from(cut.2));
    add_span(writer, &span)
}

fn add_all(alloc: Global, writer: &mut TableWriter, table: &Table) -> Result<(), Fail> {
    for row in table.points {
        add_row(alloc, writer, row)?;
    }
    for cut in table.spans {
        add_cut(alloc, writer, cut)?;
    }
    Ok(())
}

fn finished(writer: TableWriter) -> Result<Vec<u8>, Fail> {
    if writer.is_empty() {
        return Err(Fail::from("nothing was added"));
    }
    let written = writer.finish()?;
    Ok(written.bytes)
}

fn file(alloc: Global, table: &Table) -> Result<Vec<u8>, Fail> {
    let mut writer = TableWriter::new(alloc);
    add_all(alloc, &mut writer, table)?;
    finished(writer)
}

fn opened(
    alloc: Global,
    dev: &mut MemDevice,
    num: u64,
    bytes: &[u8],
) -> Result<TableFile<MemFile>, Fail> {
    let file = dev.create(num, bytes)?;
    Ok(TableFile::open(alloc, file, num, dev)?)
}

fn view(
    alloc: Global,
    dev: &mut MemDevice,
    num: u64,
    table: &Table,
) -> Result<View<MemFile>, Fail> {
    let bytes = file(alloc, table)?;
    let opened = opened(alloc, dev, num, &bytes)?;
    let (lo, hi) = bounds(alloc, table.seen.0, table.seen.1)?;
    Ok(View::new(opened, lo, hi, u64::from(table.seen.2)))
}

/// The views of tables, whose files have the numbers from 1 on.
fn views(alloc: Global, dev: &mut MemDevice, tables: &[Table]) -> Result<Vec<View<MemFile>>, Fail> {
    let mut views = Vec::new(alloc);
    for (at, table) in tables.iter().enumerate() {
        let num = (at as u64).saturating_add(1);
        views.push(view(alloc, dev, num, table)?)?;
    }
    Ok(views)
}

fn add_put(alloc: Global, batch: &mut Batch, put: Put) -> Result<(), Fail> {
    match put {
        Put::Set(byte, value) => {
            let value = vec![in alloc; value]?;
            batch.set(key(alloc, byte)?, value)?;
        }
        Put::Del(byte) => batch.del(key(alloc, byte)?)?,
        Put::Cut(lo, hi) => batch.del_span(range(alloc, lo, hi)?)?,
    }
    Ok(())
}

fn batch(alloc: Global, puts: &[Put]) -> Result<Batch, Fail> {
    let mut batch = Batch::new(alloc);
    for one in puts {
        add_put(alloc, &mut batch, *one)?;
    }
    Ok(batch)
}

fn commit(queue: &mut MemQueue, first: u32, batch: &Batch) -> Result<(), Fail>
    requires { queue.old.greatest < 1 }
{
    if first == 0 || batch.ops().len() > 1000 {
        return Err(Fail::from("no numbers"));
    }
    Ok(queue.commit(u64::from(first), batch)?)
}

fn mem(alloc: Global, case: &Case) -> Result<MemParts, Fail> {
    if case.puts.is_empty() {
        return Ok(MemParts::empty(alloc)?);
    }
    let batch = batch(alloc, case.puts)?;
    let mut queue = MemQueue::new(alloc);
    commit(&mut queue, case.first, &batch)?;
    parts(alloc, &queue)
}

fn parts(alloc: Global, queue: &MemQueue) -> Result<MemParts, Fail> {
    let all = range(alloc, 1, 255)?;
    Ok(queue.parts(&all, 1 << 40)?)
}

fn merged<'a>(
    alloc: Global,
    dev: &mut MemDevice,
    mem: &'a MemParts,
    case: &Case,
) -> Result<Merged<'a, MemFile>, Fail> {
    let views = views(alloc, dev, case.tables)?;
    let bounds = range(alloc, case.lo, case.hi)?;
    Ok(Merged::new(mem, views, bounds, u64::from(case.at))?)
}

fn go(
    alloc: Global,
    pairs: &mut Merged<'_, MemFile>,
    dev: &mut MemDevice,
    call: Call,
) -> Result<Result<Option<Entry>, TableNo>, Fail> {
    match call {
        Call::Next => Ok(pairs.next(dev)),
        Call::Prev => Ok(pairs.prev(dev)),
        Call::Ge(byte) => Ok(pairs.seek_ge(&key(alloc, byte)?, dev)),
        Call::Lt(byte) => Ok(pairs.seek_lt(&key(alloc, byte)?, dev)),
    }
}

fn shows(found: &Option<Entry>, row: Row) -> bool {
    match found {
        None => row.0 == 0,
        Some(entry) => {
            entry.key().bytes() == [row.0].as_slice()
                && entry.seq() == u64::from(row.1)
                && entry.value().bytes() == [row.2].as_slice()
        }
    }
}

fn answers(
    alloc: Global,
    pairs: &mut Merged<'_, MemFile>,
    dev: &mut MemDevice,
    call: Call,
    row: Row,
) -> Result<bool, Fail> {
    let found = go(alloc, pairs, dev, call)??;
    Ok(shows(&found, row))
}

/// How many of the calls answer their rows, up to the first that doesn't.
fn right_calls(
    alloc: Global,
    pairs: &mut Merged<'_, MemFile>,
    dev: &mut MemDevice,
    calls: &[(Call, Row)],
) -> Result<usize, Fail> {
    for (at, (call, row)) in calls.iter().enumerate() {
        if !answers(alloc, pairs, dev, *call, *row)? {
            return Ok(at);
        }
    }
    Ok(calls.len())
}

fn right_on(
    alloc: Global,
    dev: &mut MemDevice,
    mem: &MemParts,
    case: &Case,
) -> Result<usize, Fail> {
    let mut pairs = merged(alloc, dev, mem, case)?;
    right_calls(alloc, &mut pairs, dev, case.calls)
}

fn right_over(alloc: Global, mem: &MemParts, case: &Case) -> Result<usize, Fail> {
    let mut dev = MemDevice::new(alloc, Vec::new(alloc));
    right_on(alloc, &mut dev, mem, case)
}

fn right(alloc: Global, case: &Case) -> Result<usize, Fail> {
    let mem = mem(alloc, case)?;
    right_over(alloc, &mem, case)
}

#[test]
fn layers_over_one_another(rt: HostRuntime) -> Result<(), Fail> {
    for (at, case) in CASES.iter().enumerate() {
        let right = right(rt.alloc(), case)?;
        assert!(rt; right == case.calls.len(), "call {right} of case {at}");
    }
    Ok(())
}

fn stands_on(place: &Place, byte: u8) -> bool {
    match place {
        Place::On { key } => key.bytes() == [byte].as_slice(),
        Place::Before | Place::After => false,
    }
}

/// Whether the pair before is the last one, and the cursor stands on it then.
fn goes_to_the_last(
    alloc: Global,
    pairs: &mut Merged<'_, MemFile>,
    dev: &mut MemDevice,
) -> Result<bool, Fail> {
    let last = answers(alloc, pairs, dev, Call::Prev, (b'd', 6, b'4'))?;
    Ok(last && stands_on(pairs.place(), b'd'))
}

fn begins_behind_on(alloc: Global, dev: &mut MemDevice, mem: &MemParts) -> Result<bool, Fail> {
    let mut pairs = merged(alloc, dev, mem, &CASES[3])?.with_place(Place::After);
    goes_to_the_last(alloc, &mut pairs, dev)
}

fn begins_behind(alloc: Global, dev: &mut MemDevice) -> Result<bool, Fail> {
    let mem = MemParts::empty(alloc)?;
    begins_behind_on(alloc, dev, &mem)
}

#[test]
fn a_cursor_that_begins_behind(rt: HostRuntime) -> Result<(), Fail> {
    let alloc = rt.alloc();
    let mut dev = MemDevice::new(alloc, Vec::new(alloc));
    let goes = begins_behind(alloc, &mut dev)?;
    assert!(rt; goes);
    Ok(())
}

fn fails(
    alloc: Global,
    pairs: &mut Merged<'_, MemFile>,
    dev: &mut MemDevice,
    call: Call,
    no: TableNo,
) -> Result<bool, Fail> {
    let found = go(alloc, pairs, dev, call)?;
    Ok(matches!(&found, Err(answer) if *answer == no))
}

/// Whether the second table's read fails, and the call after it reads the rest and answers the first pair. From
/// then on nothing is read.
fn goes_on_after_a_fault(
    alloc: Global,
    pairs: &mut Merged<'_, MemFile>,
    dev: &mut MemDevice,
) -> Result<bool, Fail> {
    let failed = fails(alloc, pairs, dev, Call::Lt(b'z'), TableNo::ReadFault)?;
    let calls = dev.calls();
    Ok(
        failed
            && answers(alloc, pairs, dev, Call::Next, (b'a', 10, b'1'))?
            && dev.calls() == calls.saturating_add(1)
            && answers(alloc, pairs, dev, Call::Next, (b'b', 5, b'2'))?
            && dev.calls() == calls.saturating_add(1),
    )
}

fn two_go_on_over(alloc: Global, dev: &mut MemDevice, mem: &MemParts) -> Result<bool, Fail> {
    let mut pairs = merged(alloc, dev, mem, &CASES[3])?;
    goes_on_after_a_fault(alloc, &mut pairs, dev)
}

fn two_go_on(alloc: Global, dev: &mut MemDevice) -> Result<bool, Fail> {
    let mem = MemParts::empty(alloc)?;
    two_go_on_over(alloc, dev, &mem)
}

/// A file is made by one call, opened by three or two, and its points are read by one.
#[test]
fn a_read_that_fails(rt: HostRuntime) -> Result<(), Fail> {
    let alloc = rt.alloc();
    let mut dev = MemDevice::new(alloc, [8].to_vec(alloc)?);
    let goes_on = two_go_on(alloc, &mut dev)?;
    assert!(rt; goes_on);
    Ok(())
}

/// The table with another byte in its point block.
fn damaged(alloc: Global) -> Result<Vec<u8>, Fail> {
    let mut bytes = file(alloc, &TWO[1])?;
    if let Some(byte) = bytes.get_mut(3) {
        *byte = b'z';
    }
    Ok(bytes)
}

fn damaged_view(alloc: Global, dev: &mut MemDevice) -> Result<View<MemFile>, Fail> {
    let bytes = damaged(alloc)?;
    let opened = opened(alloc, dev, 9, &bytes)?;
    let (lo, hi) = bounds(alloc, 1, 255)?;
    Ok(View::new(opened, lo, hi, 0))
}

fn with_damaged<'a>(
    alloc: Global,
    dev: &mut MemDevice,
    mem: &'a MemParts,
) -> Result<Merged<'a, MemFile>, Fail> {
    let mut views = views(alloc, dev, TWO)?;
    views.push(damaged_view(alloc, dev)?)?;
    let bounds = range(alloc, 1, 255)?;
    Ok(Merged::new(mem, views, bounds, 100)?)
}

fn names_the_damaged(alloc: Global, dev: &mut MemDevice) -> Result<bool, Fail> {
    let mem = MemParts::empty(alloc)?;
    names_the_damaged_over(alloc, dev, &mem)
}

fn names_the_damaged_over(
    alloc: Global,
    dev: &mut MemDevice,
    mem: &MemParts,
) -> Result<bool, Fail> {
    let no = TableNo::Damaged { backing: 9, at: 0 };
    let mut pairs = with_damaged(alloc, dev, mem)?;
    Ok(
        fails(alloc, &mut pairs, dev, Call::Next, no)?
            && fails(alloc, &mut pairs, dev, Call::Prev, no)?,
    )
}

#[test]
fn a_damaged_block_among_sound_tables(rt: HostRuntime) -> Result<(), Fail> {
    let alloc = rt.alloc();
    let mut dev = MemDevice::new(alloc, Vec::new(alloc));
    let named = names_the_damaged(alloc, &mut dev)?;
    assert!(rt; named);
    Ok(())
}

/// A table that is seen from b on, with the number 7.
fn meta(alloc: Global, num: u64) -> Result<TableMeta, Fail>
    requires number { 1 ≤ num }
    requires small { num < 2 ^ 56 }
{
    let extent = Extent::new(range(alloc, b'b', b'z')?, 7, 7);
    Ok(TableMeta::physical(num, extent, 7, 200))
}

fn table_file(alloc: Global, dev: &mut MemDevice) -> Result<MemFile, Fail> {
    let bytes = file(alloc, &OVER[2])?;
    Ok(dev.create(1, &bytes)?)
}

fn one_table(alloc: Global, dev: &mut MemDevice) -> Result<Vec<(TableMeta, MemFile)>, Fail> {
    let mut tables = Vec::new(alloc);
    let file = table_file(alloc, dev)?;
    tables.push((meta(alloc, 1)?, file))?;
    Ok(tables)
}

fn over_tables<'a>(
    alloc: Global,
    dev: &mut MemDevice,
    mem: &'a MemParts,
    tables: &[(TableMeta, MemFile)],
) -> Result<Merged<'a, MemFile>, Fail> {
    let views = open_views(alloc, tables, dev)?;
    let bounds = range(alloc, 1, 255)?;
    Ok(Merged::new(mem, views, bounds, 100)?)
}

fn table_is_walked(
    alloc: Global,
    dev: &mut MemDevice,
    tables: &[(TableMeta, MemFile)],
) -> Result<usize, Fail> {
    let mem = MemParts::empty(alloc)?;
    table_is_walked_over(alloc, dev, &mem, tables)
}

fn table_is_walked_over(
    alloc: Global,
    dev: &mut MemDevice,
    mem: &MemParts,
    tables: &[(TableMeta, MemFile)],
) -> Result<usize, Fail> {
    let calls = [
        (Call::Next, (b'b', 7, b'2')),
        (Call::Lt(b'z'), (b'e', 7, b'5')),
    ];
    let mut pairs = over_tables(alloc, dev, mem, tables)?;
    right_calls(alloc, &mut pairs, dev, &calls)
}

#[test]
fn a_table_by_what_is_known_of_it(rt: HostRuntime) -> Result<(), Fail> {
    let alloc = rt.alloc();
    let mut dev = MemDevice::new(alloc, Vec::new(alloc));
    let tables = one_table(alloc, &mut dev)?;
    let right = table_is_walked(alloc, &mut dev, &tables)?;
    assert!(rt; right == 2);
    Ok(())
}

/// How many points a long table has. Point n of table t has the key 4n + t.
const COUNT: u16 = 500;

fn add_long(alloc: Global, writer: &mut TableWriter, table: u16) -> Result<(), Fail> {
    for n in 0..COUNT {
        let name = n * 4 + table % 4;
        let key = Key::new(name.to_be_bytes().to_vec(alloc)?)?;
        let entry = entry(alloc, key, 1, b'v')?;
        add(writer, &entry)?;
    }
    Ok(())
}

fn long_file(alloc: Global, table: u16) -> Result<Vec<u8>, Fail> {
    let mut writer = TableWriter::new(alloc);
    add_long(alloc, &mut writer, table)?;
    finished(writer)
}

fn long_view(alloc: Global, dev: &mut MemDevice, table: u16) -> Result<View<MemFile>, Fail> {
    let bytes = long_file(alloc, table)?;
    let opened = opened(alloc, dev, u64::from(table), &bytes)?;
    let lo = Bound::new(vec![in alloc; 0]?)?;
    let hi = bound(alloc, 255)?;
    Ok(View::new(opened, lo, hi, 0))
}

fn long_views(alloc: Global, dev: &mut MemDevice) -> Result<Vec<View<MemFile>>, Fail> {
    let mut views = Vec::new(alloc);
    for table in 1..5u16 {
        views.push(long_view(alloc, dev, table)?)?;
    }
    Ok(views)
}

fn long<'a>(
    alloc: Global,
    dev: &mut MemDevice,
    mem: &'a MemParts,
) -> Result<Merged<'a, MemFile>, Fail> {
    let views = long_views(alloc, dev)?;
    let bounds = range(alloc, 0, 255)?;
    Ok(Merged::new(mem, views, bounds, 2)?)
}

fn is_named(found: &Option<Entry>, name: u16) -> bool {
    match found {
        None => false,
        Some(entry) => entry.key().bytes() == name.to_be_bytes().as_slice(),
    }
}

/// Whether the cursor goes over the 2,000 pairs to the end, and back to the start.
fn goes_both_ways(pairs: &mut Merged<'_, MemFile>, dev: &mut MemDevice) -> Result<bool, Fail> {
    for name in 0..COUNT * 4 {
        if !is_named(&pairs.next(dev)?, name) {
            return Ok(false);
        }
    }
    if !shows(&pairs.next(dev)?, END) {
        return Ok(false);
    }
    for name in (0..COUNT * 4).rev() {
        if !is_named(&pairs.prev(dev)?, name) {
            return Ok(false);
        }
    }
    Ok(shows(&pairs.prev(dev)?, END))
}

fn long_goes_both_ways_over(
    alloc: Global,
    dev: &mut MemDevice,
    mem: &MemParts,
) -> Result<bool, Fail> {
    let mut pairs = long(alloc, dev, mem)?;
    goes_both_ways(&mut pairs, dev)
}

fn long_goes_both_ways(alloc: Global, dev: &mut MemDevice) -> Result<bool, Fail> {
    let mem = MemParts::empty(alloc)?;
    long_goes_both_ways_over(alloc, dev, &mem)
}

#[test]
fn thousands_of_steps(rt: HostRuntime) -> Result<(), Fail> {
    let alloc = rt.alloc();
    let mut dev = MemDevice::new(alloc, Vec::new(alloc));
    let goes = long_goes_both_ways(alloc, &mut dev)?;
    assert!(rt; goes);
    Ok(())
}
