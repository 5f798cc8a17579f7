//! Internal keys as bytes, in their order, and the tests of rows by kind.
ghost use Rattle.std.specs.Prelude.{◌≡◌, ◌%◌, ◌&&◌, ◌==◌, length};
ghost use Rattle.xdb_key.specs.Order.{is_below};
ghost use Rattle.xdb_key.specs.declared.TheConstants.{MAX_BOUND};
ghost use Rattle.xdb_block.specs.Kept.{seen};
ghost use Rattle.xdb_block.specs.Rows.{user_part, trailer_part, is_before, precedes, is_within, is_point_key, is_span_key, is_handle, may_follow, suits};

use crate::BlockKind;
use byteorder::{ByteOrder, LittleEndian};
use xdb_key::{Kind, MAX_BOUND, MAX_KEY, compare, is_below, is_upto, read_varint};

/// How many bytes the trailer takes.
const TRAILER: usize = 8;

/// A row of slices.
#[derive(Clone, Copy)]
pub struct RowRef<'a> {
    pub key: &'a [u8],
    pub value: &'a [u8],
}

/// The user key and the trailer. A key too short for a trailer has neither.
pub fn key_parts(key: &[u8]) -> (&[u8], u64)
    ensures user { result.0.now ≡ user_part key.now }
    ensures trailer { result.1 ≡ trailer_part key.now }
{
    if key.len() < TRAILER {
        return (&key[..0], 0);
    }
    let (user, trailer) = key.split_at(key.len() - TRAILER);
    (user, LittleEndian::read_u64(trailer))
}

/// Whether the internal key stands before the one of the user key and the trailer.
pub fn is_before(key: &[u8], user: &[u8], trailer: u128) -> bool
    ensures { result ≡ is_before user.now trailer key.now }
{
    let (own, own_trailer) = key_parts(key);
    compare(own, user)
        .then(trailer.cmp(&u128::from(own_trailer)))
        .is_lt()
}

/// Whether the first internal key stands before the second.
pub fn precedes(a: &[u8], b: &[u8]) -> bool
    ensures { result ≡ precedes a.now b.now }
{
    let (user, trailer) = key_parts(b);
    is_before(a, user, u128::from(trailer))
}

/// Whether a block of the kind may have the row.
pub fn suits(kind: BlockKind, row: RowRef<'_>) -> bool
    ensures { result ≡ suits kind (seen row.entry) }
{
    match kind {
        BlockKind::Point => is_point_key(row.key) && (is_set(row.key) || row.value.is_empty()),
        BlockKind::Spans => is_span_key(row.key) && is_end(row.value, row.key),
        BlockKind::Index => is_point_key(row.key) && is_handle(row.value),
    }
}

/// Whether the second row may stand behind the first one, which is before it in order.
pub fn may_follow(kind: BlockKind, last: RowRef<'_>, row: RowRef<'_>) -> bool
    ensures { result ≡ may_follow kind (seen last.entry) (seen row.entry) }
{
    match kind {
        BlockKind::Point | BlockKind::Index => true,
        BlockKind::Spans => {
            let (start, _) = key_parts(row.key);
            let (last_start, _) = key_parts(last.key);
            (compare(last_start, start).is_eq() && compare(last.value, row.value).is_eq())
                || is_upto(last.value, start)
        }
    }
}

fn is_within(least: usize, most: usize, n: usize) -> bool
    ensures { result ≡ is_within least most n }
{
    least <= n && n <= most
}

fn is_point_key(key: &[u8]) -> bool
    ensures { result ≡ is_point_key key.now }
{
    let (user, trailer) = key_parts(key);
    is_within(1, MAX_KEY, user.len()) && trailer % 256 <= u64::from(Kind::Set.code())
}

fn is_span_key(key: &[u8]) -> bool
    ensures { result ≡ is_span_key key.now }
{
    let (user, trailer) = key_parts(key);
    is_within(1, MAX_BOUND, user.len()) && trailer % 256 == u64::from(Kind::SpanDel.code())
}

fn is_set(key: &[u8]) -> bool
    ensures { result ≡ (trailer_part key.now % 256 == 1) }
{
    let (_, trailer) = key_parts(key);
    trailer % 256 == u64::from(Kind::Set.code())
}

/// Whether the bytes are the end of a span with this key.
fn is_end(end: &[u8], key: &[u8]) -> bool
    ensures { result ≡ (is_within 1 MAX_BOUND (length end.now) && is_below (user_part key.now) end.now) }
{
    let (start, _) = key_parts(key);
    is_within(1, MAX_BOUND, end.len()) && is_below(start, end)
}

/// Whether the bytes are two numbers and nothing else.
fn is_handle(value: &[u8]) -> bool
    ensures { result ≡ is_handle value.now }
{
    let Ok((_, rest)) = read_varint(value) else {
        return false;
    };
    matches!(read_varint(rest), Ok((_, [])))
}
