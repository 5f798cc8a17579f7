ghost use Rattle.std.specs.Prelude.{◌≡◌, ◌↔◌, ◌<◌, ◌^◌, length, IsTrue, IfOk};
ghost use Rattle.std.specs.Option.{option_copied};
ghost use Rattle.xdb_key.specs.Bounds.{Bounds, meets};
ghost use Rattle.xdb_key.specs.Kinds.{kind_code};
ghost use Rattle.xdb_key.specs.Ops.{op_hull, op_len, string_len, touches, point_key, keeps_order, disorder};

use crate::{Key, KeyRange, Val, is_below, varint_len};
use std::alloc::AllocError;

/// What an internal key says of its user key. The codes are those of Pebble's internal keys.
#[derive(Clone, Copy, Debug, PartialEq, Eq)]
pub enum Kind {
    Del = 0,
    Set = 1,
    /// A range tombstone.
    SpanDel = 15,
}

impl Kind {
    pub fn code(self) -> u8
        ensures { result ≡ kind_code self }
    {
        self as u8
    }
}

/// A change to the map.
#[derive(Debug, Drop)]
pub enum Op {
    Set { key: Key, value: Val },
    Del { key: Key },
    /// Deletes each key of the range.
    DelSpan { range: KeyRange },
}

impl Op {
    pub fn copy(&self) -> Result<Self, AllocError>
        ensures { IfOk result (λ op. op ≡ self.now) }
    {
        match self {
            Op::Set { key, value } => {
                let key = key.copy()?;
                let value = value.copy()?;
                Ok(Op::Set { key, value })
            }
            Op::Del { key } => Ok(Op::Del { key: key.copy()? }),
            Op::DelSpan { range } => Ok(Op::DelSpan {
                range: range.copy()?,
            }),
        }
    }

    pub fn same(&self, other: &Op) -> bool
        ensures { IsTrue result ↔ (self.now ≡ other.now) }
    {
        match (self, other) {
            (Op::Set { key, value }, Op::Set { key: k, value: v }) => key.same(k) && value.same(v),
            (Op::Del { key }, Op::Del { key: k }) => key.same(k),
            (Op::DelSpan { range }, Op::DelSpan { range: r }) => range.same(r),
            _ => false,
        }
    }

    /// Whether it speaks of a key of the range.
    pub fn meets(&self, range: &KeyRange) -> bool
        ensures { result ≡ meets (op_hull self.now) range.now }
    {
        match self {
            Op::Set { key, .. } => range.holds(key),
            Op::Del { key } => range.holds(key),
            Op::DelSpan { range: own } => own.meets(range),
        }
    }

    /// Whether it speaks of a key in one of the ranges.
    pub fn touches(&self, ranges: &[KeyRange]) -> bool
        ensures { result ≡ touches self.now ranges.now }
    {
        ranges.iter().any(|range| self.meets(range))
    }

    /// The key of a point; a span has none.
    pub fn point_key(&self) -> Option<&Key>
        ensures { option_copied result ≡ point_key self.now }
    {
        match self {
            Op::Set { key, .. } => Some(key),
            Op::Del { key } => Some(key),
            Op::DelSpan { .. } => None,
        }
    }

    /// How many bytes it takes in a batch.
    pub fn encoded_len(&self) -> usize
        ensures { result ≡ op_len self.now }
    {
        match self {
            Op::Set { key, value } => 1 + string_len(key.bytes()) + string_len(value.bytes()),
            Op::Del { key } => 1 + string_len(key.bytes()),
            Op::DelSpan { range } => {
                1 + string_len(range.lo().bytes()) + string_len(range.hi().bytes())
            }
        }
    }
}

/// How many bytes a string takes: its length, and then its bytes.
pub fn string_len(bytes: &[u8]) -> usize
    ensures { result ≡ string_len bytes.now }
{
    varint_len(bytes.len() as u64) + bytes.len()
}

/// The place of the first point whose key isn't greater than that of the point before it. There is
/// none in the operations of an external table.
pub fn disorder(ops: &[Op]) -> Option<usize>
    ensures { result ≡ disorder ops.now }
{
    let mut last: Option<&Key> = None;
    for (at, op) in ops.iter().enumerate() {
        if !keeps_order(last, op) {
            return Some(at);
        }
        last = op.point_key().or(last);
    }
    None
}

/// Whether the operation is a span, or a point behind the last one.
fn keeps_order(last: Option<&Key>, op: &Op) -> bool
    ensures { result ≡ keeps_order (option_copied last.entry) op.now }
{
    match (last, op.point_key()) {
        (Some(last), Some(key)) => is_below(last.bytes(), key.bytes()),
        _ => true,
    }
}
