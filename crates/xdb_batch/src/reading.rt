//! Batches read from bytes, in one pass from left to right.
ghost use Rattle.std.specs.Prelude.{◌≡◌, ◌<◌, ◌≤◌, length, IfOk};
ghost use Rattle.xdb_key.specs.declared.TheConstants.{MAX_KEY, MAX_BOUND, MAX_VALUE};
ghost use Rattle.xdb_batch.specs.Reading.{Answers, len_at, string_at, kind_at, body_at, op_at, ops_at, header_at, batch_at};

use crate::{BatchBad, HEADER, MAX_BATCH, MAX_OPS};
use byteorder::{ByteOrder, LittleEndian};
use std::alloc::Global;
use xdb_key::{
    Bound, Key, KeyRange, Kind, MAX_BOUND, MAX_KEY, MAX_VALUE, Op, Val, VarintNo, read_varint,
};

/// The first number and the operations of a whole batch.
#[tactic(auto, unfolding(crate::specs::Reading::batch_at))]
pub fn read_batch(alloc: Global, bytes: &[u8]) -> Result<(u64, Vec<Op>), BatchBad>
    ensures { Answers (λ x. (x.0, x.1.items)) result (batch_at bytes.now) }
{
    let (first, count) = read_header(bytes)?;
    let (ops, rest) = read_ops(alloc, bytes.len(), count, &bytes[HEADER..])?;
    if !rest.is_empty() {
        return Err(BatchBad::Trailing {
            at: bytes.len() - rest.len(),
        });
    }
    Ok((first, ops))
}

#[tactic(auto, unfolding(crate::specs::Reading::header_at))]
fn read_header(bytes: &[u8]) -> Result<(u64, usize), BatchBad>
    ensures answers { Answers (λ x. (x.0, x.1)) result (header_at bytes.now) }
    ensures long { IfOk result (λ x. HEADER ≤ length bytes.now) }
{
    let end = bytes.len();
    if end > MAX_BATCH {
        return Err(BatchBad::TooLong);
    }
    if end < HEADER {
        return Err(BatchBad::Short { at: end });
    }
    let first = LittleEndian::read_u64(bytes);
    let count = LittleEndian::read_u32(&bytes[8..]) as usize;
    if count > MAX_OPS {
        return Err(BatchBad::TooMany);
    }
    if first == 0 || first > (1 << 56) - count as u64 {
        return Err(BatchBad::BadNumbers);
    }
    if count == 0 {
        return Err(BatchBad::BadCount {
            stated: 0,
            found: 0,
        });
    }
    Ok((first, count))
}

/// So many operations, with the bytes behind them.
fn read_ops(
    alloc: Global,
    end: usize,
    count: usize,
    bytes: &[u8],
) -> Result<(Vec<Op>, &[u8]), BatchBad>
    requires { length bytes.now ≤ end }
    ensures answers { Answers (λ x. (x.0.items, x.1.now)) result (ops_at count end count bytes.now) }
    ensures shorter { IfOk result (λ x. length x.1.now ≤ length bytes.now) }
{
    // No operation takes fewer than three bytes, so a count that is too great costs no memory.
    let mut ops = Vec::with_capacity(alloc, count.min(bytes.len() / 3))?;
    let mut rest = bytes;
    for found in 0..count {
        let [byte, after @ ..] = rest else {
            return Err(BatchBad::BadCount {
                stated: count,
                found,
            });
        };
        let (op, after) = read_op(alloc, end, *byte, after)?;
        ops.push(op)?;
        rest = after;
    }
    Ok((ops, rest))
}

/// The operation whose kind byte stands before the bytes.
#[tactic(auto, unfolding(crate::specs::Reading::op_at))]
fn read_op(alloc: Global, end: usize, byte: u8, bytes: &[u8]) -> Result<(Op, &[u8]), BatchBad>
    requires { length bytes.now < end }
    ensures answers { Answers (λ x. (x.0, x.1.now)) result (op_at end byte bytes.now) }
    ensures shorter { IfOk result (λ x. length x.1.now ≤ length bytes.now) }
{
    let at = end - bytes.len() - 1;
    match read_kind(at, byte)? {
        Kind::Del => read_del(alloc, at, end, bytes),
        Kind::Set => read_set(alloc, at, end, bytes),
        Kind::SpanDel => read_del_span(alloc, at, end, bytes),
    }
}

fn read_kind(at: usize, byte: u8) -> Result<Kind, BatchBad>
    ensures { Answers (λ x. x) result (kind_at at byte) }
{
    match byte {
        0 => Ok(Kind::Del),
        1 => Ok(Kind::Set),
        15 => Ok(Kind::SpanDel),
        _ => Err(BatchBad::BadKind { byte, at }),
    }
}

#[tactic(auto, unfolding(crate::specs::Reading::body_at))]
fn read_del(alloc: Global, at: usize, end: usize, bytes: &[u8]) -> Result<(Op, &[u8]), BatchBad>
    requires { length bytes.now ≤ end }
    ensures answers { Answers (λ x. (x.0, x.1.now)) result (body_at at end Kind.Del bytes.now) }
    ensures shorter { IfOk result (λ x. length x.1.now ≤ length bytes.now) }
{
    let (key, rest) = read_key(alloc, at, end, bytes)?;
    Ok((Op::Del { key }, rest))
}

#[tactic(auto, unfolding(crate::specs::Reading::body_at))]
fn read_set(alloc: Global, at: usize, end: usize, bytes: &[u8]) -> Result<(Op, &[u8]), BatchBad>
    requires { length bytes.now ≤ end }
    ensures answers { Answers (λ x. (x.0, x.1.now)) result (body_at at end Kind.Set bytes.now) }
    ensures shorter { IfOk result (λ x. length x.1.now ≤ length bytes.now) }
{
    let (key, rest) = read_key(alloc, at, end, bytes)?;
    let (value, rest) = read_string(0, MAX_VALUE, at, end, rest)?;
    let value = Val::new(Vec::from_slice(alloc, value)?);
    Ok((Op::Set { key, value }, rest))
}

#[tactic(auto, unfolding(crate::specs::Reading::body_at))]
fn read_del_span(
    alloc: Global,
    at: usize,
    end: usize,
    bytes: &[u8],
) -> Result<(Op, &[u8]), BatchBad>
    requires { length bytes.now ≤ end }
    ensures answers { Answers (λ x. (x.0, x.1.now)) result (body_at at end Kind.SpanDel bytes.now) }
    ensures shorter { IfOk result (λ x. length x.1.now ≤ length bytes.now) }
{
    let (lo, rest) = read_bound(alloc, at, end, bytes)?;
    let (hi, rest) = read_bound(alloc, at, end, rest)?;
    let Ok(range) = KeyRange::new(lo, hi) else {
        return Err(BatchBad::BadKey { at });
    };
    Ok((Op::DelSpan { range }, rest))
}

fn read_key(alloc: Global, at: usize, end: usize, bytes: &[u8]) -> Result<(Key, &[u8]), BatchBad>
    requires { length bytes.now ≤ end }
    ensures answers { Answers (λ x. (x.0, x.1.now)) result (string_at 1 MAX_KEY at end bytes.now) }
    ensures shorter { IfOk result (λ x. length x.1.now ≤ length bytes.now) }
{
    let (text, rest) = read_string(1, MAX_KEY, at, end, bytes)?;
    let key = Key::new(Vec::from_slice(alloc, text)?).unwrap();
    Ok((key, rest))
}

fn read_bound(
    alloc: Global,
    at: usize,
    end: usize,
    bytes: &[u8],
) -> Result<(Bound, &[u8]), BatchBad>
    requires { length bytes.now ≤ end }
    ensures answers { Answers (λ x. (x.0, x.1.now)) result (string_at 1 MAX_BOUND at end bytes.now) }
    ensures shorter { IfOk result (λ x. length x.1.now ≤ length bytes.now) }
{
    let (text, rest) = read_string(1, MAX_BOUND, at, end, bytes)?;
    let bound = Bound::new(Vec::from_slice(alloc, text)?).unwrap();
    Ok((bound, rest))
}

/// A string whose length has limits, which are tested before its bytes.
#[tactic(auto, unfolding(crate::specs::Reading::string_at))]
fn read_string(
    least: usize,
    most: usize,
    at: usize,
    end: usize,
    bytes: &[u8],
) -> Result<(&[u8], &[u8]), BatchBad>
    requires { length bytes.now ≤ end }
    ensures answers { Answers (λ x. (x.0.now, x.1.now)) result (string_at least most at end bytes.now) }
    ensures within { IfOk result (λ x. (least ≤ length x.0.now) × (length x.0.now ≤ most)) }
    ensures shorter { IfOk result (λ x. length x.1.now ≤ length bytes.now) }
{
    let (len, rest) = read_len(end, bytes)?;
    let len = len as usize;
    if len < least || most < len {
        return Err(BatchBad::BadKey { at });
    }
    if rest.len() < len {
        return Err(BatchBad::Short { at: end });
    }
    Ok(rest.split_at(len))
}

#[tactic(auto, unfolding(crate::specs::Reading::len_at))]
fn read_len(end: usize, bytes: &[u8]) -> Result<(u64, &[u8]), BatchBad>
    requires { length bytes.now ≤ end }
    ensures answers { Answers (λ x. (x.0, x.1.now)) result (len_at end bytes.now) }
    ensures shorter { IfOk result (λ x. length x.1.now ≤ length bytes.now) }
{
    match read_varint(bytes) {
        Ok(read) => Ok(read),
        Err(VarintNo::Short) => Err(BatchBad::Short { at: end }),
        Err(VarintNo::Overlong | VarintNo::TooLarge) => Err(BatchBad::BadVarint {
            at: end - bytes.len(),
        }),
    }
}
