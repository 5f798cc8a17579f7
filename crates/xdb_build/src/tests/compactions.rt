// What compactions write, and what they name where they write nothing.
use super::{add, add_span, key, range, tables_of};
use crate::gather::gathered;
use crate::{CompactWork, JobParts, build_compact};
use std::alloc::Global;
use std::test::Fail;
use xdb_device::{Device, FileRef, MemDevice, MemFile, WorkCause, WorkFault};
use xdb_key::{Entry, Extent, Span, Val};
use xdb_mem::Mem;
use xdb_meta::{TableMeta, is_number};
use xdb_order::{Hand, order};
use xdb_stripes::{Floor, KeyRanges};
use xdb_table_w::TableWriter;

/// One table, and what is left of it. Its keys are 1, 2 and so on. Each is set at 2, and where there are two versions at 4
/// too, or deleted where the value is empty; and a range is deleted at 1.
#[derive(Clone, Copy)]
struct Case {
    keys: u8,
    versions: u8,
    value: u16,
    span: (u8, u8),
    /// Where its view ends.
    end: u8,
    /// A stripe between the versions, or 0 for none.
    stripe: u64,
    /// Whether anything may lie below.
    below: bool,
    /// How many numbers are reserved.
    count: u8,
    outputs: &'static [Output],
}

/// Where an output begins, how many points it has, and the bounds of its spans.
type Output = (u8, usize, &'static [(u8, u8)]);

/// 709 bytes for each of 200 entries make three outputs, and the spans are cut.
const LONG: Case = Case {
    keys: 200,
    versions: 1,
    value: 700,
    span: (51, 151),
    end: 255,
    stripe: 0,
    below: true,
    count: 64,
    outputs: &[(1, 93, &[(51, 94)]), (94, 93, &[(94, 151)]), (187, 14, &[])],
};

/// The left half of a table, whose span goes on.
const HALF: Case = Case {
    keys: 10,
    versions: 1,
    value: 1,
    span: (3, 8),
    end: 5,
    stripe: 0,
    below: true,
    count: 64,
    outputs: &[(1, 4, &[(3, 5)])],
};

const CASES: &[Case] = &[
    LONG,
    HALF,
    // The second of two outputs takes the rest.
    Case {
        count: 2,
        outputs: &[(1, 93, &[(51, 94)]), (94, 107, &[(94, 151)])],
        ..LONG
    },
    // Deletes that hide nothing go.
    Case {
        value: 0,
        below: false,
        outputs: &[],
        ..HALF
    },
    // The first version of the first key is full, and the second joins it.
    Case {
        keys: 2,
        versions: 2,
        value: 65_530,
        span: (9, 10),
        stripe: 3,
        outputs: &[(1, 2, &[]), (2, 2, &[(9, 10)])],
        ..LONG
    },
];

/// An entry of the key at the number, with a value of so many bytes; none stands for a delete.
fn long_entry(alloc: Global, k: u8, seq: u32, len: u16) -> Result<Entry, Fail> {
    let key = key(alloc, k)?;
    let seq = u64::from(seq);
    if len == 0 {
        return Ok(Entry::del(key, seq)?);
    }
    let value = vec![in alloc; k; usize::from(len)]?;
    Ok(Entry::set(key, seq, Val::new(value))?)
}

/// The bytes of the table's file.
fn written(alloc: Global, case: &Case) -> Result<Vec<u8>, Fail> {
    let mut writer = TableWriter::new(alloc);
    for k in 1..=case.keys {
        for version in 0..case.versions {
            let seq = 2 * u32::from(case.versions - version);
            add(&mut writer, &long_entry(alloc, k, seq, case.value)?)?;
        }
    }
    let (lo, hi) = case.span;
    add_span(&mut writer, &Span::new(range(alloc, lo, hi)?, 1))?;
    if writer.is_empty() {
        return Err(Fail::from("nothing is given"));
    }
    Ok(writer.finish()?.bytes)
}

/// The table, in a file with the number 7.
fn table(alloc: Global, case: &Case, file: MemFile) -> Result<Vec<(TableMeta, MemFile)>, Fail> {
    let size = file.len();
    if !is_number(size) {
        return Err(Fail::from("no size of a file"));
    }
    let extent = Extent::new(range(alloc, 1, case.end)?, 1, 4);
    let mut tables = Vec::new(alloc);
    tables.push((TableMeta::virtual_(8, 7, extent, 0, size), file))?;
    Ok(tables)
}

/// The file of the table. Where it is damaged, its end is missing.
fn table_file(
    alloc: Global,
    dev: &mut MemDevice,
    case: &Case,
    whole: bool,
) -> Result<MemFile, Fail> {
    let mut bytes = written(alloc, case)?;
    if !whole {
        let _last = bytes.pop();
    }
    Ok(dev.create(7, &bytes)?)
}

/// A compaction of the table, with numbers from 9 on.
fn parts(alloc: Global, case: &Case, file: MemFile) -> Result<JobParts<MemFile>, Fail> {
    let count = u64::from(case.count);
    if count == 0 {
        return Err(Fail::from("no number is reserved"));
    }
    let mut stripes = Vec::new(alloc);
    if case.stripe > 0 {
        stripes.push(case.stripe)?;
    }
    let floor = if case.below {
        Floor::All
    } else {
        Floor::Ranges(KeyRanges::new(Vec::new(alloc)))
    };
    let tables = table(alloc, case, file)?;
    let mem = Mem::new(alloc).parts()?;
    Ok(JobParts::new(mem, tables, stripes, floor, 9, count))
}

/// Whether it is the output, in a table from the key on.
fn is_output(
    alloc: Global,
    dev: &mut MemDevice,
    table: &[(TableMeta, MemFile)],
    output: &Output,
) -> Result<bool, Fail> {
    let (entries, spans) = gathered(alloc, table, dev)?;
    let (lo, points, bounds) = *output;
    Ok(begins_at(table, lo) && entries.len() == points && are_cut(spans.list(), bounds))
}

fn begins_at(table: &[(TableMeta, MemFile)], lo: u8) -> bool {
    match table {
        [(meta, _)] => meta.lo().bytes() == [lo].as_slice(),
        _ => false,
    }
}

fn are_cut(spans: &[Span], bounds: &[(u8, u8)]) -> bool {
    match (spans, bounds) {
        ([], []) => true,
        ([span], [(lo, hi)]) => {
            span.range().lo().bytes() == [*lo].as_slice()
                && span.range().hi().bytes() == [*hi].as_slice()
        }
        _ => false,
    }
}

fn are_outputs(
    alloc: Global,
    dev: &mut MemDevice,
    tables: &[(TableMeta, MemFile)],
    outputs: &[Output],
) -> Result<bool, Fail> {
    if tables.len() != outputs.len() {
        return Ok(false);
    }
    for at in 0..tables.len() {
        if !is_output(alloc, dev, &tables[at..at + 1], &outputs[at])? {
            return Ok(false);
        }
    }
    Ok(true)
}

/// Whether the numbers are those from 9 on.
fn are_first(nums: &[u64]) -> bool {
    let mut num = 9;
    for other in nums {
        if *other != num {
            return false;
        }
        num = num.saturating_add(1);
    }
    true
}

fn is_right(alloc: Global, dev: &mut MemDevice, case: &Case) -> Result<bool, Fail> {
    let file = table_file(alloc, dev, case, true)?;
    match build_compact(alloc, &parts(alloc, case, file)?, dev) {
        Ok(built) => are_outputs(alloc, dev, &tables_of(alloc, built)?, case.outputs),
        Err(_) => Ok(false),
    }
}

#[test]
fn compactions_in_cases(rt: HostRuntime) -> Result<(), Fail> {
    for case in CASES {
        let mut dev = MemDevice::new(rt.alloc(), Vec::new(rt.alloc()));
        let right = is_right(rt.alloc(), &mut dev, case)?;
        assert!(rt; right && are_first(tried_behind(&dev)));
    }
    Ok(())
}

/// How many numbers a build tries, where the call of the device with this number fails.
fn tried(alloc: Global, dev: &mut MemDevice) -> Result<usize, Fail> {
    let file = table_file(alloc, dev, &LONG, true)?;
    match build_compact(alloc, &parts(alloc, &LONG, file)?, dev) {
        Ok(built) => Ok(built.files.list().len()),
        Err(fault) if is_stopped(&fault, dev) => Ok(fault.tried.len()),
        Err(_) => Err(Fail::from("the cause is a fault, and names what was created")),
    }
}

/// The numbers that were created behind that of the input.
fn tried_behind(dev: &MemDevice) -> &[u64] {
    let created = dev.created();
    if created.is_empty() {
        return created;
    }
    &created[1..]
}

/// Whether the device failed, and has nothing but the input and what the fault names.
fn is_stopped(fault: &WorkFault, dev: &MemDevice) -> bool {
    fault.cause == WorkCause::Fault
        && are_first(&fault.tried)
        && tried_behind(dev) == fault.tried.as_slice()
        && dev.removed().is_empty()
}

/// Each call fails in turn: the creations, which are the last three, are tried up to the one that fails.
#[test]
fn each_call_fails(rt: HostRuntime) -> Result<(), Fail> {
    let alloc = rt.alloc();
    let mut dev = MemDevice::new(alloc, Vec::new(alloc));
    let whole = tried(alloc, &mut dev)?;
    let calls = dev.calls();
    assert!(rt; whole == 3 && calls > 5);
    for at in 2..calls.saturating_add(1) {
        let mut dev = MemDevice::new(alloc, vec![in alloc; at]?);
        let some = tried(alloc, &mut dev)?;
        assert!(rt; some as u64 == at.saturating_add(3).saturating_sub(calls));
    }
    Ok(())
}

/// Whether the input is named by the number of its file, and no number was tried.
fn is_damaged(alloc: Global, dev: &mut MemDevice) -> Result<bool, Fail> {
    let file = table_file(alloc, dev, &HALF, false)?;
    match build_compact(alloc, &parts(alloc, &HALF, file)?, dev) {
        Ok(_) => Ok(false),
        Err(fault) => Ok(
            matches!(fault.cause, WorkCause::Damaged { backing: 7, .. }) && fault.tried.is_empty(),
        ),
    }
}

#[test]
fn a_damaged_input(rt: HostRuntime) -> Result<(), Fail> {
    let mut dev = MemDevice::new(rt.alloc(), Vec::new(rt.alloc()));
    let named = is_damaged(rt.alloc(), &mut dev)?;
    assert!(rt; named && dev.created() == [7].as_slice());
    Ok(())
}

/// Does the work of the order.
fn deliver(
    alloc: Global,
    dev: &mut MemDevice,
    hand: Hand<CompactWork<MemFile>>,
) -> Result<(), Fail> {
    let built = build_compact(alloc, hand.given(), dev)?;
    hand.deliver(built);
    Ok(())
}

/// How many files an order of a compaction has that was delivered.
fn ordered(alloc: Global, dev: &mut MemDevice) -> Result<usize, Fail> {
    let file = table_file(alloc, dev, &HALF, true)?;
    let (mut desk, hand) = order::<CompactWork<MemFile>>(alloc, parts(alloc, &HALF, file)?)?;
    deliver(alloc, dev, hand)?;
    match desk.collect() {
        Some(built) => Ok(built.files.list().len()),
        None => Err(Fail::from("the tables were delivered")),
    }
}

#[test]
fn an_order_of_a_compaction(rt: HostRuntime) -> Result<(), Fail> {
    let mut dev = MemDevice::new(rt.alloc(), Vec::new(rt.alloc()));
    let files = ordered(rt.alloc(), &mut dev)?;
    assert!(rt; files == 1);
    Ok(())
}

/// So many compactions of one table.
fn compactions(alloc: Global, dev: &mut MemDevice, times: usize) -> Result<(), Fail> {
    let file = table_file(alloc, dev, &HALF, true)?;
    let given = parts(alloc, &HALF, file)?;
    for _ in 0..times {
        build_compact(alloc, &given, dev)?;
    }
    Ok(())
}

#[test]
fn thousands_of_compactions(rt: HostRuntime) -> Result<(), Fail> {
    let mut dev = MemDevice::new(rt.alloc(), Vec::new(rt.alloc()));
    compactions(rt.alloc(), &mut dev, 3000)?;
    assert!(rt; dev.created().len() == 3001);
    Ok(())
}
