use crate::{Batch, BatchBad, BatchNo};
use std::alloc::Global;
use std::test::Fail;
use xdb_key::{Bound, Key, KeyRange, Op};

/// Sets a to 1, numbered 1.
const SET: [u8; 17] = [1, 0, 0, 0, 0, 0, 0, 0, 1, 0, 0, 0, 1, 1, b'a', 1, b'1'];

/// Deletes the keys from a on and below c, numbered 7.
const DEL_SPAN: [u8; 17] = [7, 0, 0, 0, 0, 0, 0, 0, 1, 0, 0, 0, 15, 1, b'a', 1, b'c'];

/// Sets b to nothing, deletes the keys from a on and below c, and deletes a, with the last three
/// numbers that there are.
const THREE: &[u8] = b"\xfd\xff\xff\xff\xff\xff\xff\0\x03\0\0\0\x01\x01b\0\x0f\x01a\x01c\0\x01a";

fn key(alloc: Global, text: &str) -> Result<Key, Fail> {
    Ok(Key::new(text.as_bytes().to_vec(alloc)?)?)
}

fn range(alloc: Global, lo: &str, hi: &str) -> Result<KeyRange, Fail> {
    let lo = Bound::new(lo.as_bytes().to_vec(alloc)?)?;
    let hi = Bound::new(hi.as_bytes().to_vec(alloc)?)?;
    Ok(KeyRange::new(lo, hi)?)
}

/// Why the key isn't set to so many bytes `1`.
fn set(alloc: Global, batch: &mut Batch, text: &str, len: usize) -> Result<Option<BatchNo>, Fail> {
    let value = vec![in alloc; b'1'; len]?;
    Ok(batch.set(key(alloc, text)?, value).err())
}

/// Why a isn't deleted.
fn del(alloc: Global, batch: &mut Batch) -> Result<Option<BatchNo>, Fail> {
    Ok(batch.del(key(alloc, "a")?).err())
}

/// Why the keys from a on and below c aren't deleted.
fn del_span(alloc: Global, batch: &mut Batch) -> Result<Option<BatchNo>, Fail> {
    Ok(batch.del_span(range(alloc, "a", "c")?).err())
}

/// The batch as bytes, where its numbers are in range.
fn written(batch: &Batch, first: u64) -> Result<Vec<u8>, Fail> {
    let count = batch.ops().len();
    if count == 0 || first == 0 || first > (1 << 56) - count as u64 {
        return Err(Fail::from("the numbers are out of range"));
    }
    Ok(batch.bytes(first)?)
}

fn is_written_as(batch: &Batch, first: u64, bytes: &[u8]) -> Result<bool, Fail> {
    Ok(written(batch, first)?.as_slice() == bytes)
}

/// Why the bytes are refused. Bytes that aren't are just what the batch is written as.
fn defect(alloc: Global, bytes: &[u8]) -> Result<Option<BatchBad>, Fail> {
    match Batch::from_bytes(alloc, bytes) {
        Err(bad) => Ok(Some(bad)),
        Ok((first, batch)) => match is_written_as(&batch, first, bytes)? {
            true => Ok(None),
            false => Err(Fail::from("the bytes differ")),
        },
    }
}

/// Why a batch of this first number, count and rest is refused.
fn defect_of(alloc: Global, first: u64, count: u32, rest: &[u8]) -> Result<Option<BatchBad>, Fail> {
    let mut bytes = Vec::new(alloc);
    bytes.extend_from_slice(&first.to_le_bytes())?;
    bytes.extend_from_slice(&count.to_le_bytes())?;
    bytes.extend_from_slice(rest)?;
    defect(alloc, &bytes)
}

/// Batches that are made in different ways, and written.
#[derive(Clone, Copy)]
enum Made {
    Set,
    DelSpan,
    Three,
    Full,
    Many,
}

/// Whether the operations that are too many or too long are refused, and the others aren't.
fn fill(alloc: Global, batch: &mut Batch, made: Made) -> Result<bool, Fail> {
    match made {
        Made::Set => Ok(set(alloc, batch, "a", 1)?.is_none()),
        Made::DelSpan => Ok(del_span(alloc, batch)?.is_none()),
        Made::Three => {
            let set = set(alloc, batch, "b", 0)?;
            let span = del_span(alloc, batch)?;
            let del = del(alloc, batch)?;
            Ok(set.is_none() && span.is_none() && del.is_none())
        }
        Made::Full => fill_by_bytes(alloc, batch),
        Made::Many => fill_by_count(alloc, batch),
    }
}

/// There are 12 bytes and 15 times 65,542, so 65,434 are left, of which 6 aren't the value's.
fn fill_by_bytes(alloc: Global, batch: &mut Batch) -> Result<bool, Fail> {
    let rows = [
        (1, 65_537, Some(BatchNo::ValueTooLong { len: 65_537 })),
        (15, 65_536, None),
        (1, 65_429, Some(BatchNo::TooLong)),
        (1, 65_428, None),
    ];
    for (times, len, refused) in rows {
        for _ in 0..times {
            if set(alloc, batch, "a", len)? != refused {
                return Ok(false);
            }
        }
    }
    Ok(del(alloc, batch)? == Some(BatchNo::TooLong))
}

fn fill_by_count(alloc: Global, batch: &mut Batch) -> Result<bool, Fail> {
    for _ in 0..4096 {
        if del(alloc, batch)?.is_some() {
            return Ok(false);
        }
    }
    Ok(del(alloc, batch)? == Some(BatchNo::TooMany))
}

/// The batch, also where it is made of its operations at once.
fn batch(alloc: Global, made: Made) -> Result<Batch, Fail> {
    let mut batch = Batch::new(alloc);
    match fill(alloc, &mut batch, made)? {
        true => Ok(Batch::from_ops(batch.into_ops().into_list())?),
        false => Err(Fail::from("a wrong refusal")),
    }
}

fn bytes_of(alloc: Global, made: Made, first: u64) -> Result<Vec<u8>, Fail> {
    let batch = batch(alloc, made)?;
    written(&batch, first)
}

#[test]
fn batches_have_their_bytes(rt: HostRuntime) -> Result<(), Fail> {
    let rows: [(Made, u64, &[u8]); 3] = [
        (Made::Set, 1, &SET),
        (Made::DelSpan, 7, &DEL_SPAN),
        (Made::Three, (1 << 56) - 3, THREE),
    ];
    for (made, first, wanted) in rows {
        let bytes = bytes_of(rt.alloc(), made, first)?;
        assert!(rt; bytes.as_slice() == wanted);
    }
    Ok(())
}

/// The first number that the bytes have, and how many operations.
fn read(alloc: Global, bytes: &[u8]) -> Option<(u64, usize)> {
    match Batch::from_bytes(alloc, bytes) {
        Ok((first, batch)) => Some((first, batch.ops().len())),
        Err(_) => None,
    }
}

#[test]
fn batches_are_read_again(rt: HostRuntime) -> Result<(), Fail> {
    let rows: [(&[u8], u64, usize); 3] = [
        (&SET, 1, 1),
        (&DEL_SPAN, 7, 1),
        (THREE, (1 << 56) - 3, 3),
    ];
    for (bytes, first, count) in rows {
        let defect = defect(rt.alloc(), bytes)?;
        assert!(rt; read(rt.alloc(), bytes) == Some((first, count)) && defect.is_none());
    }
    Ok(())
}

#[test]
fn each_proper_prefix_is_refused(rt: HostRuntime) -> Result<(), Fail> {
    for vector in [SET, DEL_SPAN] {
        for at in 0..17 {
            let wanted = match at {
                12 => BatchBad::BadCount {
                    stated: 1,
                    found: 0,
                },
                _ => BatchBad::Short { at },
            };
            let defect = defect(rt.alloc(), &vector[..at])?;
            assert!(rt; defect == Some(wanted));
        }
    }
    Ok(())
}

fn bad_count(stated: usize, found: usize) -> Option<BatchBad> {
    Some(BatchBad::BadCount { stated, found })
}

#[test]
fn defects_of_numbers_and_counts(rt: HostRuntime) -> Result<(), Fail> {
    let rows = [
        (1, 2, bad_count(2, 1)),
        (1, 0, bad_count(0, 0)),
        (1, 4096, bad_count(4096, 1)),
        (1, 4097, Some(BatchBad::TooMany)),
        (0, 4097, Some(BatchBad::TooMany)),
        (0, 1, Some(BatchBad::BadNumbers)),
        (0, 0, Some(BatchBad::BadNumbers)),
        ((1 << 56) - 1, 1, None),
        ((1 << 56) - 1, 2, Some(BatchBad::BadNumbers)),
        (1 << 56, 1, Some(BatchBad::BadNumbers)),
        (u64::MAX, 1, Some(BatchBad::BadNumbers)),
    ];
    for (first, count, wanted) in rows {
        let defect = defect_of(rt.alloc(), first, count, b"\x01\x01a\x011")?;
        assert!(rt; defect == wanted);
    }
    Ok(())
}

#[test]
fn defects_of_operations(rt: HostRuntime) -> Result<(), Fail> {
    let rows: [(u32, &[u8], BatchBad); 12] = [
        (1, b"\x02\x01a\x011", BatchBad::BadKind { byte: 2, at: 12 }),
        (1, b"\x01\x01a\x011\0", BatchBad::Trailing { at: 17 }),
        (1, b"\x01\x81\0a\x011", BatchBad::BadVarint { at: 13 }),
        (1, b"\x01\x01a\x81\x001", BatchBad::BadVarint { at: 15 }),
        (
            1,
            b"\0\xff\xff\xff\xff\xff\xff\xff\xff\xff\0",
            BatchBad::BadVarint { at: 13 },
        ),
        (
            1,
            b"\0\xff\xff\xff\xff\xff\xff\xff\xff\x7f",
            BatchBad::BadKey { at: 12 },
        ),
        (1, b"\0\0", BatchBad::BadKey { at: 12 }),
        (1, b"\0\x81\x08", BatchBad::BadKey { at: 12 }),
        (1, b"\x01\x01a\x81\x80\x04", BatchBad::BadKey { at: 12 }),
        (1, b"\x0f\x01c\x01c", BatchBad::BadKey { at: 12 }),
        (1, b"\x0f\x01c\x02a", BatchBad::Short { at: 17 }),
        (2, b"\0\x01a\x0f\x01c\x01a", BatchBad::BadKey { at: 15 }),
    ];
    for (count, rest, wanted) in rows {
        let defect = defect_of(rt.alloc(), 1, count, rest)?;
        assert!(rt; defect == Some(wanted));
    }
    Ok(())
}

/// Why an operation is refused that has so many bytes `v` between these.
fn defect_around(
    alloc: Global,
    head: &[u8],
    len: usize,
    tail: &[u8],
) -> Result<Option<BatchBad>, Fail> {
    let mut rest = head.to_vec(alloc)?;
    rest.resize(head.len().saturating_add(len), b'v')?;
    rest.extend_from_slice(tail)?;
    defect_of(alloc, 1, 1, &rest)
}

/// A key of 1,024 bytes, bounds of 1,025 and a value of 65,536 are read, and one more is too many.
#[test]
fn strings_have_limits(rt: HostRuntime) -> Result<(), Fail> {
    let long = Some(BatchBad::BadKey { at: 12 });
    let rows: [(&[u8], usize, &[u8], Option<BatchBad>); 8] = [
        (b"\0\x80\x08", 1024, b"", None),
        (b"\0\x81\x08", 1025, b"", long),
        (b"\x0f\x81\x08", 1025, b"\x01z", None),
        (b"\x0f\x82\x08", 1026, b"\x01z", long),
        (b"\x0f\x01a\x81\x08", 1025, b"", None),
        (b"\x0f\x01a\x82\x08", 1026, b"", long),
        (b"\x01\x01a\x80\x80\x04", 65_536, b"", None),
        (b"\x01\x01a\x81\x80\x04", 65_537, b"", long),
    ];
    for (head, len, tail, wanted) in rows {
        let defect = defect_around(rt.alloc(), head, len, tail)?;
        assert!(rt; defect == wanted);
    }
    Ok(())
}

#[test]
fn an_input_of_one_byte_too_many(rt: HostRuntime) -> Result<(), Fail> {
    let long = vec![in rt.alloc(); b'v'; 1_048_577]?;
    let defect = defect(rt.alloc(), &long)?;
    assert!(rt; defect == Some(BatchBad::TooLong));
    Ok(())
}

#[test]
fn a_changed_byte_is_refused_or_another_batch(rt: HostRuntime) -> Result<(), Fail> {
    let mut read = 0u32;
    for vector in [SET, DEL_SPAN] {
        for at in 0..17 {
            for byte in 0..=255 {
                let mut bytes = vector;
                bytes[at] = byte;
                if defect(rt.alloc(), &bytes)?.is_none() {
                    read = read.wrapping_add(1);
                }
            }
        }
    }
    // Both: the first number's lowest byte isn't 0, six others are free, and five of number and count stay.
    // The set besides: its kind and two lengths stay, and its key and value are free. The span besides:
    // its kind may be that of a set, two lengths stay, and its start is below c or its end above a.
    let numbers = 255 + 6 * 256 + 5;
    let set = 3 + 2 * 256;
    let span = 2 + 2 + 99 + 158;
    assert!(rt; read == 2 * numbers + set + span);
    Ok(())
}

/// Batches are filled up to 1,048,576 bytes, and up to 4,096 operations of 3 bytes behind 12.
#[test]
fn batches_have_limits(rt: HostRuntime) -> Result<(), Fail> {
    for (made, len) in [(Made::Full, 1_048_576), (Made::Many, 12_300)] {
        let bytes = bytes_of(rt.alloc(), made, 1)?;
        let defect = defect(rt.alloc(), &bytes)?;
        assert!(rt; bytes.len() == len && defect.is_none());
    }
    Ok(())
}

/// Why 4,096 operations and one more are no batch.
fn refusal_of_one_more(alloc: Global) -> Result<Option<BatchNo>, Fail> {
    let mut ops = batch(alloc, Made::Many)?.into_ops().into_list();
    let key = key(alloc, "b")?;
    ops.push(Op::Del { key })?;
    Ok(Batch::from_ops(ops).err())
}

#[test]
fn operations_at_once_have_a_limit(rt: HostRuntime) -> Result<(), Fail> {
    let refused = refusal_of_one_more(rt.alloc())?;
    assert!(rt; refused == Some(BatchNo::TooMany));
    Ok(())
}
