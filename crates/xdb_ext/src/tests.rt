use crate::{ExtNo, ExtTable, LoadFiles, LoadParts, LoadWork, is_table, write_tables};
use std::alloc::Global;
use std::test::Fail;
use xdb_device::{MemDevice, MemFile, SureDevice, WorkCause, WorkFault, read_whole};
use xdb_key::{Bound, Extent, Key, KeyRange, Op, Ops, Val};
use xdb_order::{Hand, order};

fn set(alloc: Global, key: &[u8], value: &[u8]) -> Result<Op, Fail> {
    let key = Key::new(key.to_vec(alloc)?)?;
    let value = Val::new(value.to_vec(alloc)?);
    Ok(Op::Set { key, value })
}

fn del(alloc: Global, key: &[u8]) -> Result<Op, Fail> {
    let key = Key::new(key.to_vec(alloc)?)?;
    Ok(Op::Del { key })
}

fn del_span(alloc: Global, lo: &[u8], hi: &[u8]) -> Result<Op, Fail> {
    let lo = Bound::new(lo.to_vec(alloc)?)?;
    let hi = Bound::new(hi.to_vec(alloc)?)?;
    let range = KeyRange::new(lo, hi)?;
    Ok(Op::DelSpan { range })
}

/// Spans around a point, which overlap.
fn spans_and_a_point(alloc: Global) -> Result<Vec<Op>, Fail> {
    let mut ops = Vec::new(alloc);
    ops.push(del_span(alloc, b"a", b"c")?)?;
    ops.push(set(alloc, b"b", b"1")?)?;
    ops.push(del_span(alloc, b"b", b"d")?)?;
    Ok(ops)
}

fn two_points(alloc: Global) -> Result<Vec<Op>, Fail> {
    let mut ops = Vec::new(alloc);
    ops.push(set(alloc, b"m", b"2")?)?;
    ops.push(del(alloc, b"n")?)?;
    Ok(ops)
}

fn table(alloc: Global) -> Result<ExtTable, Fail> {
    let ops = spans_and_a_point(alloc)?;
    Ok(ExtTable::build(alloc, &ops)?)
}

fn has_bytes(table: &ExtTable, bytes: &[u8]) -> bool {
    table.bytes.as_slice() == bytes && has_extent(table, b"a", b"d")
}

fn has_extent(table: &ExtTable, lo: &[u8], hi: &[u8]) -> bool {
    table.extent.lo().bytes() == lo
        && table.extent.hi().bytes() == hi
        && table.extent.seq_lo() == 0
        && table.extent.seq_hi() == 0
}

/// The three pieces have the number 0, as the point, so they delete nothing of it.
#[test]
fn a_table_of_spans_and_a_point(rt: HostRuntime) -> Result<(), Fail> {
    let table = table(rt.alloc())?;
    let wanted = b"\0\x09\x01b\x01\0\0\0\0\0\0\x001\0\0\0\0\x01\0\0\0\0\
        \0\x09\x01a\x0f\0\0\0\0\0\0\0b\0\x09\x01b\x0f\0\0\0\0\0\0\0c\0\x09\x01c\x0f\0\0\0\0\0\0\0d\0\0\0\0\x01\0\0\0\0\
        \0\x09\x02b\x01\0\0\0\0\0\0\0\0\x15\0\0\0\0\x01\0\0\0\0\
        \x16\0\0\0\0\0\0\0\x2f\0\0\0\x46\0\0\0\0\0\0\0\x16\0\0\0\x01\0\0\0\0\0\0\0excisedb";
    assert!(rt; has_bytes(&table, wanted.as_slice()));
    Ok(())
}

fn is_refused(alloc: Global, ops: &[Op], no: ExtNo) -> bool {
    match ExtTable::build(alloc, ops) {
        Ok(_) => false,
        Err(answer) => answer == no && !is_table(ops),
    }
}

#[test]
fn no_operations(rt: HostRuntime) {
    assert!(rt; is_refused(rt.alloc(), &[], ExtNo::EmptyTable));
}

/// Two points of one key.
fn push_c(alloc: Global, ops: &mut Vec<Op>) -> Result<(), Fail> {
    ops.push(set(alloc, b"c", b"2")?)?;
    ops.push(del(alloc, b"c")?)?;
    Ok(())
}

/// The last operation is a point of the key before it.
fn out_of_order(alloc: Global) -> Result<Vec<Op>, Fail> {
    let mut ops = spans_and_a_point(alloc)?;
    push_c(alloc, &mut ops)?;
    Ok(ops)
}

fn is_out_of_order(alloc: Global, ops: &[Op]) -> bool {
    match ops {
        [front @ .., _] => {
            is_table(front) && is_refused(alloc, ops, ExtNo::OutOfOrder { at: 4 })
        }
        [] => false,
    }
}

#[test]
fn points_out_of_order(rt: HostRuntime) -> Result<(), Fail> {
    let ops = out_of_order(rt.alloc())?;
    assert!(rt; is_out_of_order(rt.alloc(), &ops));
    Ok(())
}

/// 4,097 operations, which are out of order too.
fn too_many(alloc: Global) -> Result<Vec<Op>, Fail> {
    let mut ops = out_of_order(alloc)?;
    for _more in ops.len()..4097 {
        ops.push(del(alloc, b"a")?)?;
    }
    Ok(ops)
}

#[test]
fn one_operation_too_many(rt: HostRuntime) -> Result<(), Fail> {
    let ops = too_many(rt.alloc())?;
    assert!(rt; is_refused(rt.alloc(), &ops, ExtNo::TooMany));
    Ok(())
}

/// Deletes of so many keys, in order.
fn deletes(alloc: Global, count: usize) -> Result<Vec<Op>, Fail> {
    let mut ops = Vec::new(alloc);
    for i in 0..count {
        let letter = |n: usize| b'a' + (n % 26) as u8;
        ops.push(del(alloc, &[letter(i / 676), letter(i / 26), letter(i)])?)?;
    }
    Ok(ops)
}

fn most(alloc: Global) -> Result<ExtTable, Fail> {
    let ops = deletes(alloc, 4096)?;
    Ok(ExtTable::build(alloc, &ops)?)
}

/// As many operations as a table may have. The last key is that of 4,095 = 6 * 676 + 1 * 26 + 13.
#[test]
fn thousands_of_operations(rt: HostRuntime) -> Result<(), Fail> {
    let table = most(rt.alloc())?;
    assert!(rt; has_extent(&table, b"aaa", b"gbn\0"));
    Ok(())
}

fn add(parts: &mut LoadParts, num: u64, ops: Vec<Op>) -> Result<(), Fail> {
    if !is_table(&ops) {
        return Err(Fail::from("the operations make no table"));
    }
    Ok(parts.add(num, Ops::new(ops))?)
}

/// Two tables, with the numbers 7 and 5.
fn parts(alloc: Global) -> Result<LoadParts, Fail> {
    let mut parts = LoadParts::empty(alloc);
    add(&mut parts, 7, spans_and_a_point(alloc)?)?;
    add(&mut parts, 5, two_points(alloc)?)?;
    Ok(parts)
}

/// What is told where the device fails.
fn fault(alloc: Global, dev: &mut MemDevice) -> Result<WorkFault, Fail> {
    match write_tables(alloc, &parts(alloc)?, dev) {
        Ok(_) => Err(Fail::from("the device failed")),
        Err(fault) => Ok(fault),
    }
}

fn is_second(dev: &MemDevice, fault: &WorkFault) -> bool {
    fault.cause == WorkCause::Fault
        && fault.tried.as_slice() == [7, 5].as_slice()
        && dev.created() == [7, 5].as_slice()
}

#[test]
fn a_device_fails_at_the_second_file(rt: HostRuntime) -> Result<(), Fail> {
    let alloc = rt.alloc();
    let mut dev = MemDevice::new(alloc, vec![in alloc; 2]?);
    let fault = fault(alloc, &mut dev)?;
    assert!(rt; is_second(&dev, &fault));
    Ok(())
}

fn file_bytes(alloc: Global, dev: &mut SureDevice, file: &MemFile) -> Result<Vec<u8>, Fail> {
    let mut bytes = Vec::new(alloc);
    read_whole(dev, file, &mut bytes)?;
    Ok(bytes)
}

/// Whether the bytes are the table of the operations.
fn is_table_of(alloc: Global, bytes: &[u8], ops: &[Op]) -> bool {
    match ExtTable::build(alloc, ops) {
        Ok(table) => table.bytes.as_slice() == bytes,
        Err(_) => false,
    }
}

/// Whether the file has the number, ends there, and is the table of the operations.
fn is_written(
    alloc: Global,
    dev: &mut SureDevice,
    file: &(u64, Extent, MemFile),
    (num, hi): (u64, &[u8]),
    ops: &[Op],
) -> Result<bool, Fail> {
    let bytes = file_bytes(alloc, dev, &file.2)?;
    Ok(file.0 == num && file.1.hi().bytes() == hi && is_table_of(alloc, &bytes, ops))
}

fn are_written(
    alloc: Global,
    dev: &mut SureDevice,
    files: &[(u64, Extent, MemFile)],
) -> Result<bool, Fail> {
    match files {
        [first, second] => Ok(
            is_written(alloc, dev, first, (7, b"d"), &spans_and_a_point(alloc)?)?
                && is_written(alloc, dev, second, (5, b"n\0"), &two_points(alloc)?)?,
        ),
        _ => Ok(false),
    }
}

fn deliver(alloc: Global, dev: &mut SureDevice, hand: Hand<LoadWork<MemFile>>) -> Result<(), Fail> {
    let files = write_tables(alloc, hand.given(), dev)?;
    hand.deliver(files);
    Ok(())
}

/// The files of an order that was delivered.
fn ordered(alloc: Global, dev: &mut SureDevice) -> Result<LoadFiles<MemFile>, Fail> {
    let (mut desk, hand) = order::<LoadWork<MemFile>>(alloc, parts(alloc)?)?;
    deliver(alloc, dev, hand)?;
    match desk.collect() {
        Some(files) => Ok(files),
        None => Err(Fail::from("the files were delivered")),
    }
}

#[test]
fn an_order_of_two_files(rt: HostRuntime) -> Result<(), Fail> {
    let alloc = rt.alloc();
    let mut dev = SureDevice::new(alloc);
    let LoadFiles { files } = ordered(alloc, &mut dev)?;
    let written = are_written(alloc, &mut dev, &files)?;
    assert!(rt; written);
    Ok(())
}
