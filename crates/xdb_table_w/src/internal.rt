ghost use Rattle.std.specs.Prelude.{◌≡◌, ◌&&◌, ◌||◌, ◌^◌, ◌<◌, Some, OnOk};
ghost use Rattle.std.specs.Ordering.{is_eq};
ghost use Rattle.xdb_key.specs.Order.{key_cmp, is_upto};
ghost use Rattle.xdb_block.specs.Rows.{row, user_part, precedes};
ghost use Rattle.xdb_table_w.specs.Content.{internal, span_row, lies_behind};

use byteorder::{ByteOrder, LittleEndian};
use std::alloc::AllocError;
use xdb_block::key_parts;
use xdb_key::{Kind, Span, compare, is_upto};

/// Puts an internal key in the place of what was there: the user key, and the trailer in 8 bytes.
pub fn set_internal(out: &mut Vec<u8>, user: &[u8], seq: u64, kind: Kind) -> Result<(), AllocError>
    requires { seq < 2 ^ 56 }
    ensures { OnOk result (out.new.items ≡ internal user.now seq kind) }
{
    let mut trailer = [0; 8];
    LittleEndian::write_u64(&mut trailer, seq * 256 + u64::from(kind.code()));
    out.clear();
    out.extend_from_slice(user)?;
    out.extend_from_slice(&trailer)
}

/// Whether the internal key of a user key, a number and a kind stands behind the last one.
pub fn is_behind(last: &[u8], user: &[u8], seq: u64, kind: Kind) -> bool
    requires { seq < 2 ^ 56 }
    ensures { result ≡ precedes last.now (internal user.now seq kind) }
{
    let (last_user, last_trailer) = key_parts(last);
    compare(last_user, user)
        .then((seq * 256 + u64::from(kind.code())).cmp(&last_trailer))
        .is_lt()
}

/// Whether the span may stand behind the last one, of this internal key and end.
pub fn is_span_behind(last: &[u8], last_end: &[u8], s: &Span) -> bool
    ensures { result ≡ lies_behind (Some (row last.now last_end.now)) (span_row s.now) }
{
    let (lo, hi) = (s.range().lo().bytes(), s.range().hi().bytes());
    is_behind(last, lo, s.seq(), Kind::SpanDel) && is_apart(last, last_end, lo, hi)
}

/// Whether a span has the bounds of the last one, or begins where that one ends or behind.
fn is_apart(last: &[u8], last_end: &[u8], lo: &[u8], hi: &[u8]) -> bool
    ensures { result ≡ ((is_eq (key_cmp (user_part last.now) lo.now) && is_eq (key_cmp last_end.now hi.now)) || is_upto last_end.now lo.now) }
{
    let (last_lo, _) = key_parts(last);
    (compare(last_lo, lo).is_eq() && compare(last_end, hi).is_eq()) || is_upto(last_end, lo)
}
