// What no clause says: that a build answers anything but want of memory where memory is ample, and what thinned tables
// are in examples.
mod compactions;

use crate::cuts::output_end;
use crate::gather::gathered;
use crate::{Built, FlushWork, JobParts, build_flush};
use std::alloc::Global;
use std::test::Fail;
use xdb_batch::Batch;
use xdb_device::{MemDevice, MemFile, SureDevice, WorkCause, WorkFault, read_whole};
use xdb_key::{Bound, Entry, Key, KeyRange, Span, Val};
use xdb_mem::{Mem, MemParts};
use xdb_meta::TableMeta;
use xdb_order::{Hand, order};
use xdb_stripes::Floor;
use xdb_table_w::TableWriter;

/// An operation in a memtable.
#[derive(Clone, Copy)]
enum Put {
    Set(u8, u8),
    Del(u8),
    Cut(u8, u8),
}

/// A key, a number, and a value of one byte; 0 stands for a delete.
type Row = (u8, u32, u8);

/// The bounds of a range delete, and its number.
type Cut = (u8, u8, u32);

/// a is set twice, b is deleted over a set, and a range is deleted with a set behind it.
const PUTS: &[Put] = &[
    Put::Set(b'a', b'1'),
    Put::Set(b'b', b'2'),
    Put::Del(b'b'),
    Put::Cut(b'c', b'e'),
    Put::Set(b'd', b'5'),
    Put::Set(b'a', b'6'),
];

/// What is left of these operations, numbered from 1 on, at a stripe; 0 is none.
#[derive(Clone, Copy)]
struct Case {
    stripe: u64,
    points: &'static [Row],
    spans: &'static [Cut],
    seq_lo: u64,
}

const CASES: &[Case] = &[
    Case {
        stripe: 0,
        points: &[(b'a', 6, b'6'), (b'b', 3, 0), (b'd', 5, b'5')],
        spans: &[(b'c', b'e', 4)],
        seq_lo: 3,
    },
    Case {
        stripe: 3,
        points: &[
            (b'a', 6, b'6'),
            (b'a', 1, b'1'),
            (b'b', 3, 0),
            (b'b', 2, b'2'),
            (b'd', 5, b'5'),
        ],
        spans: &[(b'c', b'e', 4)],
        seq_lo: 1,
    },
];

fn key(alloc: Global, byte: u8) -> Result<Key, Fail> {
    Ok(Key::new(vec![in alloc; byte]?)?)
}

fn bound(alloc: Global, byte: u8) -> Result<Bound, Fail> {
    Ok(Bound::new(vec![in alloc; byte]?)?)
}

fn range(alloc: Global, lo: u8, hi: u8) -> Result<KeyRange, Fail> {
    let lo = bound(alloc, lo)?;
    Ok(KeyRange::new(lo, bound(alloc, hi)?)?)
}

fn add_op(alloc: Global, batch: &mut Batch, op: Put) -> Result<(), Fail> {
    match op {
        Put::Set(k, value) => batch.set(key(alloc, k)?, vec![in alloc; value]?)?,
        Put::Del(k) => batch.del(key(alloc, k)?)?,
        Put::Cut(lo, hi) => batch.del_span(range(alloc, lo, hi)?)?,
    }
    Ok(())
}

fn batch(alloc: Global) -> Result<Batch, Fail> {
    let mut batch = Batch::new(alloc);
    for one in PUTS {
        add_op(alloc, &mut batch, *one)?;
    }
    Ok(batch)
}

fn group(alloc: Global, batch: &Batch) -> Result<MemParts, Fail> {
    if batch.ops().len() > 100 {
        return Err(Fail::from("too many operations"));
    }
    let mut mem = Mem::new(alloc);
    mem.insert(1, batch)?;
    Ok(mem.parts()?)
}

/// A flush of the operations, of file number 9.
fn parts(alloc: Global, stripe: u64) -> Result<JobParts<MemFile>, Fail> {
    let mem = group(alloc, &batch(alloc)?)?;
    let mut stripes = Vec::new(alloc);
    if stripe > 0 {
        stripes.push(stripe)?;
    }
    Ok(JobParts::new(mem, Vec::new(alloc), stripes, Floor::All, 9, 1))
}

/// The build, where it is one of a flush.
fn flush(
    alloc: Global,
    given: &JobParts<MemFile>,
    dev: &mut MemDevice,
) -> Result<Result<Built<MemFile>, WorkFault>, Fail> {
    if given.mem().entries().is_empty() || !given.tables().is_empty() {
        return Err(Fail::from("no flush is given"));
    }
    match given.floor() {
        Floor::All => Ok(build_flush(alloc, given, dev)),
        Floor::Ranges(_) => Err(Fail::from("no flush is given")),
    }
}

fn entry(alloc: Global, (k, seq, value): Row) -> Result<Entry, Fail> {
    let key = key(alloc, k)?;
    let seq = u64::from(seq);
    if value == 0 {
        return Ok(Entry::del(key, seq)?);
    }
    Ok(Entry::set(key, seq, Val::new(vec![in alloc; value]?))?)
}

fn add(writer: &mut TableWriter, entry: &Entry) -> Result<(), Fail> {
    if !writer.can_add(entry) {
        return Err(Fail::from("the points are out of order"));
    }
    Ok(writer.add(entry)?)
}

fn add_span(writer: &mut TableWriter, span: &Span) -> Result<(), Fail> {
    if !writer.can_add_span(span) {
        return Err(Fail::from("the spans are out of order"));
    }
    Ok(writer.add_span(span)?)
}

fn writer(alloc: Global, points: &[Row], spans: &[Cut]) -> Result<TableWriter, Fail> {
    let mut writer = TableWriter::new(alloc);
    for row in points {
        add(&mut writer, &entry(alloc, *row)?)?;
    }
    for (lo, hi, seq) in spans {
        let range = range(alloc, *lo, *hi)?;
        add_span(&mut writer, &Span::new(range, u64::from(*seq)))?;
    }
    Ok(writer)
}

/// The file of a table with these points and spans.
fn wanted(alloc: Global, points: &[Row], spans: &[Cut]) -> Result<Vec<u8>, Fail> {
    let writer = writer(alloc, points, spans)?;
    if writer.is_empty() {
        return Err(Fail::from("nothing is wanted"));
    }
    Ok(writer.finish()?.bytes)
}

fn bytes_of(alloc: Global, dev: &mut MemDevice, file: &MemFile) -> Result<Vec<u8>, Fail> {
    let mut bytes = Vec::new(alloc);
    read_whole(dev, file, &mut bytes)?;
    Ok(bytes)
}

fn is_table(meta: &TableMeta, seq_lo: u64, size: usize) -> bool {
    meta.num() == 9
        && meta.backing() == 9
        && meta.lo().bytes() == b"a".as_slice()
        && meta.hi().bytes() == b"e".as_slice()
        && meta.seq_lo() == seq_lo
        && meta.seq_hi() == 6
        && meta.synthetic() == 0
        && meta.size() == size as u64
        && !meta.virt()
}

/// Whether one table was built, in a file of these bytes.
fn is_built(
    alloc: Global,
    dev: &mut MemDevice,
    built: &Built<MemFile>,
    bytes: &[u8],
    seq_lo: u64,
) -> Result<bool, Fail> {
    match (built.tables.list(), built.files.list()) {
        ([meta], [(num, file)]) => {
            let read = bytes_of(alloc, dev, file)?;
            Ok(*num == 9 && is_table(meta, seq_lo, bytes.len()) && read.as_slice() == bytes)
        }
        _ => Ok(false),
    }
}

fn is_right(alloc: Global, dev: &mut MemDevice, case: &Case) -> Result<bool, Fail> {
    match flush(alloc, &parts(alloc, case.stripe)?, dev)? {
        Ok(built) => {
            let bytes = wanted(alloc, case.points, case.spans)?;
            is_built(alloc, dev, &built, &bytes, case.seq_lo)
        }
        Err(_) => Ok(false),
    }
}

#[test]
fn flushes_at_stripes(rt: HostRuntime) -> Result<(), Fail> {
    let mut dev = MemDevice::new(rt.alloc(), Vec::new(rt.alloc()));
    for case in CASES {
        let right = is_right(rt.alloc(), &mut dev, case)?;
        assert!(rt; right);
    }
    Ok(())
}

/// The tables that were built, each with its file.
fn tables_of(alloc: Global, built: Built<MemFile>) -> Result<Vec<(TableMeta, MemFile)>, Fail> {
    let Built { tables, files } = built;
    let mut pairs = Vec::new(alloc);
    for (meta, (_num, file)) in tables.into_list().into_iter().zip(files.into_list()) {
        pairs.push((meta, file))?;
    }
    Ok(pairs)
}

/// Whether as many points and spans are gathered of the tables, and one output takes them all.
fn are_gathered(
    alloc: Global,
    dev: &mut MemDevice,
    tables: &[(TableMeta, MemFile)],
    case: &Case,
) -> Result<bool, Fail> {
    let (entries, spans) = gathered(alloc, tables, dev)?;
    Ok(
        entries.len() == case.points.len()
            && spans.list().len() == case.spans.len()
            && output_end(&entries, 0, true) == case.points.len(),
    )
}

fn is_gathered(alloc: Global, dev: &mut MemDevice, case: &Case) -> Result<bool, Fail> {
    match flush(alloc, &parts(alloc, case.stripe)?, dev)? {
        Ok(built) => are_gathered(alloc, dev, &tables_of(alloc, built)?, case),
        Err(_) => Ok(false),
    }
}

#[test]
fn what_was_built_is_gathered(rt: HostRuntime) -> Result<(), Fail> {
    let mut dev = MemDevice::new(rt.alloc(), Vec::new(rt.alloc()));
    for case in CASES {
        let right = is_gathered(rt.alloc(), &mut dev, case)?;
        assert!(rt; right);
    }
    Ok(())
}

fn is_fault(answer: &Result<Built<MemFile>, WorkFault>) -> bool {
    match answer {
        Ok(_) => false,
        Err(fault) => fault.cause == WorkCause::Fault && fault.tried.as_slice() == [9].as_slice(),
    }
}

/// The device fails at the one call that a flush makes.
#[test]
fn a_device_fails(rt: HostRuntime) -> Result<(), Fail> {
    let alloc = rt.alloc();
    let mut dev = MemDevice::new(alloc, vec![in alloc; 1]?);
    let answer = flush(alloc, &parts(alloc, 0)?, &mut dev)?;
    assert!(rt; is_fault(&answer) && dev.created() == [9].as_slice());
    Ok(())
}

/// Does the work of the order, where it is one of a flush.
fn deliver(
    alloc: Global,
    dev: &mut SureDevice,
    hand: Hand<FlushWork<MemFile>>,
) -> Result<(), Fail> {
    let given = hand.given();
    if given.mem().entries().is_empty() || !given.tables().is_empty() {
        return Err(Fail::from("no flush is given"));
    }
    match given.floor() {
        Floor::All => {
            let built = build_flush(alloc, given, dev)?;
            hand.deliver(built);
            Ok(())
        }
        Floor::Ranges(_) => Err(Fail::from("no flush is given")),
    }
}

/// The number of the file of an order that was delivered.
fn ordered(alloc: Global, dev: &mut SureDevice) -> Result<u64, Fail> {
    let (mut desk, hand) = order::<FlushWork<MemFile>>(alloc, parts(alloc, 0)?)?;
    deliver(alloc, dev, hand)?;
    match desk.collect() {
        Some(built) => match built.files.list() {
            [(num, _)] => Ok(*num),
            _ => Err(Fail::from("a flush has one file")),
        },
        None => Err(Fail::from("the table was delivered")),
    }
}

#[test]
fn an_order_of_a_flush(rt: HostRuntime) -> Result<(), Fail> {
    let mut dev = SureDevice::new(rt.alloc());
    let num = ordered(rt.alloc(), &mut dev)?;
    assert!(rt; num == 9);
    Ok(())
}

/// So many flushes of one group.
fn flushes(alloc: Global, dev: &mut MemDevice, times: usize) -> Result<(), Fail> {
    let given = parts(alloc, 3)?;
    for _ in 0..times {
        flush(alloc, &given, dev)??;
    }
    Ok(())
}

#[test]
fn thousands_of_flushes(rt: HostRuntime) -> Result<(), Fail> {
    let mut dev = MemDevice::new(rt.alloc(), Vec::new(rt.alloc()));
    flushes(rt.alloc(), &mut dev, 3000)?;
    assert!(rt; dev.created().len() == 3000 && dev.calls() == 3000);
    Ok(())
}
