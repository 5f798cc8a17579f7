// What no clause says: that an answer is anything but want of memory where memory is ample, and how tables and
// memtables stand over one another in examples.
ghost use Rattle.std.specs.Prelude.{◌<◌, ◌≤◌, ◌^◌, IfOk};
ghost use Rattle.xdb_key.specs.Entries.{IsPoint};

use crate::{ReadDone, ReadParts, answer};
use std::alloc::Global;
use std::test::Fail;
use xdb_batch::Batch;
use xdb_device::{Device, MemDevice, MemFile};
use xdb_key::{Bound, Entry, Extent, Key, KeyRange, Name, Span, Val};
use xdb_mem::{MemParts, MemQueue};
use xdb_meta::{TableMeta, is_synthetic};
use xdb_plain::{Answer, Items, Place, Question, Step};
use xdb_table_r::TableNo;
use xdb_table_w::TableWriter;

/// A key, a number, and a value of one byte; 0 stands for a delete.
type Row = (u8, u32, u8);

/// Bounds, and the number of a range delete or the synthetic number of a table.
type Cut = (u8, u8, u32);

/// A table: its points, its spans, and how it is seen.
#[derive(Clone, Copy)]
struct Table {
    points: &'static [Row],
    spans: &'static [Cut],
    seen: Cut,
}

const WHOLE: Cut = (1, 255, 0);

/// An operation in a memtable.
#[derive(Clone, Copy)]
enum Put {
    Set(u8, u8),
    Del(u8),
    Cut(u8, u8),
}

/// What is asked.
#[derive(Clone, Copy)]
enum Ask {
    Get(u8),
    Scan(u8, u8, u32),
    RScan(u8, u8, u32),
    First,
    Last,
    Next,
    Prev,
    Seek(u8),
    SeekLt(u8),
}

/// The keys and values of an answer.
type Pairs = &'static [(u8, u8)];

/// Operations numbered from `first` on, tables, the bounds and the number of parts, and what questions answer,
/// one after the other.
#[derive(Clone, Copy)]
struct Case {
    first: u32,
    puts: &'static [Put],
    tables: &'static [Table],
    lo: u8,
    hi: u8,
    at: u32,
    asks: &'static [(Ask, Pairs)],
}

/// a is set twice, b is deleted over a set, and c by a range.
const PUTS: &[Put] = &[
    Put::Set(b'a', b'1'),
    Put::Set(b'b', b'2'),
    Put::Set(b'c', b'3'),
    Put::Del(b'b'),
    Put::Cut(b'c', b'd'),
    Put::Set(b'd', b'4'),
    Put::Set(b'a', b'5'),
];

/// Keys of one table stand between those of the other, and both have c.
const TWO: &[Table] = &[
    Table {
        points: &[(b'a', 10, b'1'), (b'c', 11, b'3')],
        spans: &[],
        seen: (b'a', b'd', 0),
    },
    Table {
        points: &[(b'b', 5, b'2'), (b'c', 4, b'9'), (b'd', 6, b'4')],
        spans: &[],
        seen: (b'b', b'e', 0),
    },
];

/// A delete of b and one of the keys from c to e stand over the last table, and c is set again.
const OVER: &[Table] = &[
    Table {
        points: &[(b'b', 20, 0), (b'c', 22, b'7')],
        spans: &[],
        seen: WHOLE,
    },
    Table {
        points: &[],
        spans: &[(b'c', b'e', 21)],
        seen: WHOLE,
    },
    Table {
        points: &[
            (b'a', 1, b'1'),
            (b'b', 2, b'2'),
            (b'c', 3, b'3'),
            (b'd', 4, b'4'),
            (b'e', 5, b'5'),
        ],
        spans: &[],
        seen: WHOLE,
    },
];

/// The first table's numbers are all 7, so its points stand over its span, and over what has lesser numbers. Of z it
/// has nothing to show.
const ONE_NUMBER: &[Table] = &[
    Table {
        points: &[(b'a', 1, b'1'), (b'b', 3, b'3'), (b'z', 9, b'9')],
        spans: &[(b'a', b'y', 5)],
        seen: (b'a', b'x', 7),
    },
    Table {
        points: &[
            (b'a', 6, b'6'),
            (b'c', 6, b'6'),
            (b'd', 8, b'8'),
            (b'z', 6, b'6'),
        ],
        spans: &[],
        seen: WHOLE,
    },
];

const CASES: [Case; 9] = [
    Case {
        first: 1,
        puts: PUTS,
        tables: &[],
        lo: 1,
        hi: 255,
        at: 8,
        asks: &[
            (Ask::Get(b'a'), &[(b'a', b'5')]),
            (Ask::Get(b'b'), &[]),
            (Ask::Get(b'c'), &[]),
            (Ask::Get(b'e'), &[]),
            (Ask::Scan(b'a', b'z', 9), &[(b'a', b'5'), (b'd', b'4')]),
            (Ask::RScan(b'a', b'd', 9), &[(b'a', b'5')]),
            (Ask::Prev, &[]),
            (Ask::Next, &[(b'a', b'5')]),
            (Ask::Next, &[(b'd', b'4')]),
            (Ask::Next, &[]),
            (Ask::Next, &[]),
            (Ask::Prev, &[(b'd', b'4')]),
            (Ask::Prev, &[(b'a', b'5')]),
            (Ask::Seek(b'b'), &[(b'd', b'4')]),
            (Ask::SeekLt(b'd'), &[(b'a', b'5')]),
            (Ask::SeekLt(b'a'), &[]),
            (Ask::Last, &[(b'd', b'4')]),
            (Ask::First, &[(b'a', b'5')]),
        ],
    },
    // The number itself isn't seen.
    Case {
        first: 1,
        puts: PUTS,
        tables: &[],
        lo: 1,
        hi: 255,
        at: 7,
        asks: &[(Ask::Get(b'a'), &[(b'a', b'1')]), (Ask::Get(b'c'), &[])],
    },
    Case {
        first: 1,
        puts: PUTS,
        tables: &[],
        lo: 1,
        hi: 255,
        at: 4,
        asks: &[
            (Ask::Get(b'b'), &[(b'b', b'2')]),
            (Ask::Scan(b'a', b'z', 2), &[(b'a', b'1'), (b'b', b'2')]),
            (Ask::RScan(b'a', b'z', 2), &[(b'c', b'3'), (b'b', b'2')]),
        ],
    },
    Case {
        first: 1,
        puts: &[],
        tables: TWO,
        lo: 1,
        hi: 255,
        at: 100,
        asks: &[
            (Ask::Get(b'c'), &[(b'c', b'3')]),
            (Ask::Get(b'd'), &[(b'd', b'4')]),
            (Ask::Get(b'e'), &[]),
            (
                Ask::Scan(b'b', b'z', 9),
                &[(b'b', b'2'), (b'c', b'3'), (b'd', b'4')],
            ),
            (Ask::RScan(b'a', b'd', 2), &[(b'c', b'3'), (b'b', b'2')]),
            (Ask::Last, &[(b'd', b'4')]),
            (Ask::Prev, &[(b'c', b'3')]),
            (Ask::Prev, &[(b'b', b'2')]),
            (Ask::Next, &[(b'c', b'3')]),
        ],
    },
    // b is deleted and set again in the memtable, which deletes e by a range.
    Case {
        first: 30,
        puts: &[Put::Set(b'b', b'0'), Put::Cut(b'e', b'f')],
        tables: OVER,
        lo: 1,
        hi: 255,
        at: 100,
        asks: &[
            (Ask::Get(b'b'), &[(b'b', b'0')]),
            (Ask::Get(b'd'), &[]),
            (Ask::Get(b'e'), &[]),
            (
                Ask::Scan(b'a', b'z', 9),
                &[(b'a', b'1'), (b'b', b'0'), (b'c', b'7')],
            ),
        ],
    },
    // The span of a table stands over the memtable's d.
    Case {
        first: 20,
        puts: &[Put::Set(b'd', b'0')],
        tables: OVER,
        lo: 1,
        hi: 255,
        at: 100,
        asks: &[
            (Ask::Get(b'b'), &[]),
            (Ask::Get(b'd'), &[]),
            (
                Ask::RScan(b'a', b'z', 9),
                &[(b'e', b'5'), (b'c', b'7'), (b'a', b'1')],
            ),
        ],
    },
    // Bounds hide what lies outside, and the number what is newer.
    Case {
        first: 1,
        puts: &[],
        tables: OVER,
        lo: b'b',
        hi: b'e',
        at: 21,
        asks: &[
            (Ask::Get(b'a'), &[]),
            (Ask::Get(b'e'), &[]),
            (Ask::Scan(b'a', b'z', 9), &[(b'c', b'3'), (b'd', b'4')]),
            (Ask::RScan(b'a', b'd', 9), &[(b'c', b'3')]),
            (Ask::Scan(b'f', b'z', 9), &[]),
            (Ask::First, &[(b'c', b'3')]),
            (Ask::Last, &[(b'd', b'4')]),
            (Ask::Next, &[]),
            (Ask::Prev, &[(b'd', b'4')]),
        ],
    },
    Case {
        first: 1,
        puts: &[],
        tables: ONE_NUMBER,
        lo: 1,
        hi: 255,
        at: 100,
        asks: &[
            (Ask::Get(b'a'), &[(b'a', b'1')]),
            (Ask::Get(b'c'), &[]),
            (Ask::Get(b'z'), &[(b'z', b'6')]),
            (
                Ask::Scan(b'a', 255, 9),
                &[(b'a', b'1'), (b'b', b'3'), (b'd', b'8'), (b'z', b'6')],
            ),
        ],
    },
    Case {
        first: 1,
        puts: &[],
        tables: &[],
        lo: 1,
        hi: 255,
        at: 100,
        asks: &[
            (Ask::Get(b'a'), &[]),
            (Ask::Scan(b'a', b'z', 9), &[]),
            (Ask::Next, &[]),
            (Ask::Prev, &[]),
        ],
    },
];

// ---- keys and questions

fn key(alloc: Global, byte: u8) -> Result<Key, Fail> {
    Ok(Key::new(vec![in alloc; byte]?)?)
}

fn range(alloc: Global, lo: u8, hi: u8) -> Result<KeyRange, Fail> {
    let lo = Bound::new(vec![in alloc; lo]?)?;
    let hi = Bound::new(vec![in alloc; hi]?)?;
    Ok(KeyRange::new(lo, hi)?)
}

fn cursor_name() -> Result<Name, Fail> {
    match Name::new(b"c".as_slice()) {
        Some(name) => Ok(name),
        None => Err(Fail::from("no name")),
    }
}

fn move_by(step: Step) -> Result<Question, Fail> {
    let cursor = cursor_name()?;
    Ok(Question::Move { cursor, step })
}

fn seek(alloc: Global, byte: u8) -> Result<Step, Fail> {
    Ok(Step::Seek {
        key: key(alloc, byte)?,
    })
}

fn seek_lt(alloc: Global, byte: u8) -> Result<Step, Fail> {
    Ok(Step::SeekLt {
        key: key(alloc, byte)?,
    })
}

fn question(alloc: Global, ask: Ask) -> Result<Question, Fail> {
    match ask {
        Ask::Get(byte) => Ok(Question::Get {
            key: key(alloc, byte)?,
            at: None,
        }),
        Ask::Scan(lo, hi, most) => Ok(Question::Scan {
            range: range(alloc, lo, hi)?,
            most,
            at: None,
        }),
        Ask::RScan(lo, hi, most) => Ok(Question::RScan {
            range: range(alloc, lo, hi)?,
            most,
            at: None,
        }),
        Ask::First => move_by(Step::First),
        Ask::Last => move_by(Step::Last),
        Ask::Next => move_by(Step::Next),
        Ask::Prev => move_by(Step::Prev),
        Ask::Seek(byte) => move_by(seek(alloc, byte)?),
        Ask::SeekLt(byte) => move_by(seek_lt(alloc, byte)?),
    }
}

// ---- tables

fn entry(alloc: Global, key: Key, seq: u64, value: u8) -> Result<Entry, Fail>
    requires { seq < 2 ^ 56 }
    ensures { IfOk result IsPoint }
{
    if value == 0 {
        return Ok(Entry::del(key, seq)?);
    }
    let value = Val::new(vec![in alloc; value]?);
    Ok(Entry::set(key, seq, value)?)
}

fn add(writer: &mut TableWriter, entry: &Entry) -> Result<(), Fail>
    requires { IsPoint entry.now }
{
    if !writer.can_add(entry) {
        return Err(Fail::from("the points are out of order"));
    }
    Ok(writer.add(entry)?)
}

fn add_span(writer: &mut TableWriter, span: &Span) -> Result<(), Fail> {
    if !writer.can_add_span(span) {
        return Err(Fail::from("the spans are out of order"));
    }
    Ok(writer.add_span(span)?)
}

fn add_row(alloc: Global, writer: &mut TableWriter, row: &Row) -> Result<(), Fail> {
    let entry = entry(alloc, key(alloc, row.0)?, u64::from(row.1), row.2)?;
    add(writer, &entry)
}

fn add_cut(alloc: Global, writer: &mut TableWriter, cut: &Cut) -> Result<(), Fail> {
    let span = Span::new(range(alloc, cut.0, cut.1)?, u64::from(cut.2));
    add_span(writer, &span)
}

fn add_all(alloc: Global, writer: &mut TableWriter, table: &Table) -> Result<(), Fail> {
    for row in table.points {
        add_row(alloc, writer, row)?;
    }
    for cut in table.spans {
        add_cut(alloc, writer, cut)?;
    }
    Ok(())
}

fn finished(writer: TableWriter) -> Result<Vec<u8>, Fail> {
    if writer.is_empty() {
        return Err(Fail::from("nothing was added"));
    }
    let written = writer.finish()?;
    Ok(written.bytes)
}

/// The bytes of the table's file, with another byte at place 3 where it is damaged.
fn bytes(alloc: Global, table: &Table, damaged: bool) -> Result<Vec<u8>, Fail> {
    let mut writer = TableWriter::new(alloc);
    add_all(alloc, &mut writer, table)?;
    let mut bytes = finished(writer)?;
    if damaged {
        if let Some(byte) = bytes.get_mut(3) {
            *byte = b'z';
        }
    }
    Ok(bytes)
}

fn file(alloc: Global, num: u64, table: &Table, damaged: bool) -> Result<MemFile, Fail> {
    let mut dev = MemDevice::new(alloc, Vec::new(alloc));
    let bytes = bytes(alloc, table, damaged)?;
    Ok(dev.create(num, &bytes)?)
}

fn meta(alloc: Global, num: u64, seen: Cut) -> Result<TableMeta, Fail> {
    if num == 0 || num >= 1 << 56 {
        return Err(Fail::from("no number"));
    }
    let number = u64::from(seen.2);
    let extent = Extent::new(range(alloc, seen.0, seen.1)?, number, number);
    if !is_synthetic(number, number, number) {
        return Err(Fail::from("no synthetic number"));
    }
    Ok(TableMeta::physical(num, extent, number, 200))
}

/// The tables, whose files have the numbers from 1 on. The file of the number `damaged` has a defect.
fn tables(
    alloc: Global,
    tables: &[Table],
    damaged: u32,
) -> Result<Vec<(TableMeta, MemFile)>, Fail> {
    let mut made = Vec::new(alloc);
    let mut num = 1u32;
    for table in tables {
        let file = file(alloc, u64::from(num), table, num == damaged)?;
        made.push((meta(alloc, u64::from(num), table.seen)?, file))?;
        num = num.saturating_add(1);
    }
    Ok(made)
}

// ---- parts

fn add_put(alloc: Global, batch: &mut Batch, put: Put) -> Result<(), Fail> {
    match put {
        Put::Set(byte, value) => {
            let value = vec![in alloc; value]?;
            batch.set(key(alloc, byte)?, value)?;
        }
        Put::Del(byte) => batch.del(key(alloc, byte)?)?,
        Put::Cut(lo, hi) => batch.del_span(range(alloc, lo, hi)?)?,
    }
    Ok(())
}

fn batch(alloc: Global, puts: &[Put]) -> Result<Batch, Fail> {
    let mut batch = Batch::new(alloc);
    for one in puts {
        add_put(alloc, &mut batch, *one)?;
    }
    Ok(batch)
}

/// Keys of the letter k and two bytes that rise, 500 of them, each set to v.
fn long_batch(alloc: Global) -> Result<Batch, Fail> {
    let mut batch = Batch::new(alloc);
    for number in 0..500u16 {
        let [high, low] = number.to_be_bytes();
        let key = Key::new(vec![in alloc; b'k', high, low]?)?;
        batch.set(key, b"v".to_vec(alloc)?)?;
    }
    Ok(batch)
}

fn commit(queue: &mut MemQueue, first: u32, batch: &Batch) -> Result<(), Fail>
    requires { queue.old.greatest < 1 }
{
    if first == 0 || batch.ops().len() > 500 {
        return Err(Fail::from("no numbers"));
    }
    Ok(queue.commit(u64::from(first), batch)?)
}

/// All that the operations say.
fn mem_of(alloc: Global, first: u32, batch: &Batch) -> Result<MemParts, Fail> {
    let mut queue = MemQueue::new(alloc);
    commit(&mut queue, first, batch)?;
    let all = range(alloc, 1, 255)?;
    Ok(queue.parts(&all, 1 << 40)?)
}

fn mem(alloc: Global, case: &Case) -> Result<MemParts, Fail> {
    if case.puts.is_empty() {
        return Ok(MemParts::empty(alloc)?);
    }
    let batch = batch(alloc, case.puts)?;
    mem_of(alloc, case.first, &batch)
}

fn long_mem(alloc: Global) -> Result<MemParts, Fail> {
    let batch = long_batch(alloc)?;
    mem_of(alloc, 1, &batch)
}

/// The case's parts, for a first question.
fn parts(alloc: Global, case: &Case, damaged: u32) -> Result<ReadParts<MemFile>, Fail> {
    let tables = tables(alloc, case.tables, damaged)?;
    Ok(ReadParts {
        question: question(alloc, Ask::First)?,
        place: Place::Before,
        bounds: range(alloc, case.lo, case.hi)?,
        at: u64::from(case.at),
        mem: mem(alloc, case)?,
        tables: Items::new(tables),
    })
}

// ---- answers

fn is_pair(pair: &(Key, Val), row: &(u8, u8)) -> bool {
    pair.0.bytes() == [row.0].as_slice() && pair.1.bytes() == [row.1].as_slice()
}

fn is_answer(answer: &Answer, rows: &[(u8, u8)]) -> bool {
    match answer {
        Answer::Value(value) => {
            rows.len() == 1 && rows.iter().all(|row| value.bytes() == [row.1].as_slice())
        }
        Answer::Absent | Answer::End => rows.is_empty(),
        Answer::Found(pairs) => {
            let pairs = pairs.list();
            pairs.len() == rows.len()
                && pairs.iter().zip(rows).all(|(pair, row)| is_pair(pair, row))
        }
        Answer::Pair(key, value) => {
            rows.len() == 1
                && rows.iter().all(|row| key.bytes() == [row.0].as_slice()
                    && value.bytes() == [row.1].as_slice())
        }
    }
}

fn are_answers(done: &ReadDone, rows: &[(u8, u8)]) -> bool {
    is_answer(&done.answer, rows) && is_answer(&done.again, rows)
}

/// Whether both answers to the parts' question have these pairs. A move leads to its place.
fn is_answered(
    alloc: Global,
    parts: &mut ReadParts<MemFile>,
    dev: &mut MemDevice,
    rows: &[(u8, u8)],
) -> Result<bool, Fail> {
    let done = answer(alloc, parts, dev)?;
    let same = are_answers(&done, rows);
    parts.place = done.place;
    Ok(same)
}

/// How many of the questions have the answers, up to the first that hasn't.
fn right_asks(
    alloc: Global,
    parts: &mut ReadParts<MemFile>,
    dev: &mut MemDevice,
    asks: &[(Ask, Pairs)],
) -> Result<usize, Fail> {
    for (at, (ask, rows)) in asks.iter().enumerate() {
        parts.question = question(alloc, *ask)?;
        if !is_answered(alloc, parts, dev, rows)? {
            return Ok(at);
        }
    }
    Ok(asks.len())
}

fn right_over(
    alloc: Global,
    parts: &mut ReadParts<MemFile>,
    asks: &[(Ask, Pairs)],
) -> Result<usize, Fail> {
    let mut dev = MemDevice::new(alloc, Vec::new(alloc));
    right_asks(alloc, parts, &mut dev, asks)
}

fn right(alloc: Global, case: &Case) -> Result<usize, Fail> {
    let mut parts = parts(alloc, case, 0)?;
    right_over(alloc, &mut parts, case.asks)
}

#[test]
fn questions_over_layers(rt: HostRuntime) -> Result<(), Fail> {
    for (at, case) in CASES.iter().enumerate() {
        let right = right(rt.alloc(), case)?;
        assert!(rt; right == case.asks.len(), "question {right} of case {at}");
    }
    Ok(())
}

// ---- reads that fail

/// Whether the question over the parts is refused so.
fn is_refused(alloc: Global, parts: &ReadParts<MemFile>, dev: &mut MemDevice, no: TableNo) -> bool {
    matches!(answer(alloc, parts, dev), Err(cause) if cause == no)
}

/// Whether the answer fails where this read does, and the next time it is the last pair.
fn fails_once(alloc: Global, parts: &mut ReadParts<MemFile>, read: u64) -> Result<bool, Fail> {
    let mut dev = MemDevice::new(alloc, [read].to_vec(alloc)?);
    let refused = is_refused(alloc, parts, &mut dev, TableNo::ReadFault);
    Ok(refused && is_answered(alloc, parts, &mut dev, &[(b'd', b'4')])?)
}

/// How often the answer reads.
fn reads(alloc: Global, parts: &mut ReadParts<MemFile>) -> Result<u64, Fail> {
    let mut dev = MemDevice::new(alloc, Vec::new(alloc));
    is_answered(alloc, parts, &mut dev, &[])?;
    Ok(dev.calls())
}

/// Whether each read of an answer may fail. Two files are opened, and the points of each are read.
fn each_fails(alloc: Global, parts: &mut ReadParts<MemFile>) -> Result<bool, Fail> {
    parts.question = question(alloc, Ask::Last)?;
    let reads = reads(alloc, parts)?;
    for read in 0..reads {
        if !fails_once(alloc, parts, read.saturating_add(1))? {
            return Ok(false);
        }
    }
    Ok(reads >= 6)
}

#[test]
fn a_read_that_fails(rt: HostRuntime) -> Result<(), Fail> {
    let mut parts = parts(rt.alloc(), &CASES[3], 0)?;
    let fails = each_fails(rt.alloc(), &mut parts)?;
    assert!(rt; fails);
    Ok(())
}

fn is_refused_on(
    alloc: Global,
    parts: &mut ReadParts<MemFile>,
    dev: &mut MemDevice,
    ask: Ask,
) -> Result<bool, Fail> {
    parts.question = question(alloc, ask)?;
    let no = TableNo::Damaged { backing: 2, at: 0 };
    Ok(is_refused(alloc, parts, dev, no))
}

/// Whether each answer that needs the damaged table names its defect, and each other one doesn't read it.
fn names_the_damaged(
    alloc: Global,
    parts: &mut ReadParts<MemFile>,
    dev: &mut MemDevice,
) -> Result<bool, Fail> {
    Ok(
        is_refused_on(alloc, parts, dev, Ask::Get(b'c'))?
            && is_refused_on(alloc, parts, dev, Ask::Scan(b'a', b'c', 1))?
            && is_refused_on(alloc, parts, dev, Ask::RScan(b'd', b'z', 1))?
            && is_refused_on(alloc, parts, dev, Ask::Next)?
            && right_asks(alloc, parts, dev, SOUND)? == SOUND.len(),
    )
}

/// What the damaged table has nothing of.
const SOUND: &[(Ask, Pairs)] = &[
    (Ask::Get(b'a'), &[(b'a', b'1')]),
    (Ask::Scan(b'a', b'b', 9), &[(b'a', b'1')]),
    (Ask::Get(b'e'), &[]),
];

fn damage_is_named(alloc: Global, parts: &mut ReadParts<MemFile>) -> Result<bool, Fail> {
    let mut dev = MemDevice::new(alloc, Vec::new(alloc));
    names_the_damaged(alloc, parts, &mut dev)
}

#[test]
fn a_damaged_table_beside_a_sound_one(rt: HostRuntime) -> Result<(), Fail> {
    let mut parts = parts(rt.alloc(), &CASES[3], 2)?;
    let named = damage_is_named(rt.alloc(), &mut parts)?;
    assert!(rt; named);
    Ok(())
}

// ---- many moves

fn long_parts(alloc: Global) -> Result<ReadParts<MemFile>, Fail> {
    let mut parts = parts(alloc, &CASES[8], 0)?;
    parts.at = 501;
    parts.mem = long_mem(alloc)?;
    Ok(parts)
}

/// Moves the cursor, and tells whether it comes to a pair.
fn comes_to_a_pair(
    alloc: Global,
    parts: &mut ReadParts<MemFile>,
    dev: &mut MemDevice,
) -> Result<bool, Fail> {
    let done = answer(alloc, parts, dev)?;
    let pair = matches!(&done.answer, Answer::Pair(_, _));
    parts.place = done.place;
    Ok(pair)
}

/// Moves the cursor so often, and counts the pairs that it comes to.
fn walked(
    alloc: Global,
    parts: &mut ReadParts<MemFile>,
    dev: &mut MemDevice,
    ask: Ask,
    times: usize,
) -> Result<usize, Fail> {
    parts.question = question(alloc, ask)?;
    let mut pairs = 0usize;
    for _ in 0..times {
        if comes_to_a_pair(alloc, parts, dev)? {
            pairs = pairs.saturating_add(1);
        }
    }
    Ok(pairs)
}

/// Whether the cursor comes to each of the 500 pairs on its way there and back, and stands at an end after some moves
/// too many.
fn walks_far(
    alloc: Global,
    parts: &mut ReadParts<MemFile>,
    dev: &mut MemDevice,
) -> Result<bool, Fail> {
    let there = walked(alloc, parts, dev, Ask::Next, 510)?;
    let behind = matches!(&parts.place, Place::After);
    let back = walked(alloc, parts, dev, Ask::Prev, 510)?;
    let before = matches!(&parts.place, Place::Before);
    Ok(there == 500 && behind && back == 500 && before)
}

fn walks(alloc: Global, parts: &mut ReadParts<MemFile>) -> Result<bool, Fail> {
    let mut dev = MemDevice::new(alloc, Vec::new(alloc));
    walks_far(alloc, parts, &mut dev)
}

/// Two thousand moves.
#[test]
fn a_cursor_walks_there_and_back(rt: HostRuntime) -> Result<(), Fail> {
    let mut parts = long_parts(rt.alloc())?;
    for _ in 0..2 {
        let walks = walks(rt.alloc(), &mut parts)?;
        assert!(rt; walks);
    }
    Ok(())
}
