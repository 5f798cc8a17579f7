//! What an operation adds to a batch, and why it isn't added.
ghost use Rattle.std.specs.Prelude.{◌≡◌, ◌+◌, ◌<◌, ◌≤◌, Err, IfOk, OnOk, IfSome, IfNone, IsOk};
ghost use Rattle.xdb_key.specs.Ops.{op_len};
ghost use Rattle.xdb_key.specs.declared.TheConstants.{MAX_VALUE};
ghost use Rattle.xdb_batch.specs.Adding.{value_len, refusal_at, refusal_of};
ghost use Rattle.xdb_batch.specs.Spelling.{IsOp, IsKept};

use crate::{BatchNo, HEADER, MAX_BATCH, MAX_OPS};
use xdb_key::{MAX_VALUE, Op, string_len};

/// How many bytes a batch of the operations takes.
pub fn total_len(ops: &[Op]) -> Result<usize, BatchNo>
    ensures kept { IfOk result (λ len. IsKept ops.now len) }
    ensures refused { IfSome (refusal_of ops.now) (λ no. result ≡ Err no) }
    ensures succeeds { IfNone (refusal_of ops.now) (IsOk result) }
{
    let mut len = HEADER;
    for (count, op) in ops.iter().enumerate() {
        len += added_len(count, len, op)?;
    }
    Ok(len)
}

/// How many bytes the operation adds behind `count` operations that take `len` bytes.
pub fn added_len(count: usize, len: usize, op: &Op) -> Result<usize, BatchNo>
    requires { len ≤ MAX_BATCH }
    ensures added { IfOk result (λ added. added ≡ op_len op.now) }
    ensures fits { OnOk result (IsOp op.now) }
    ensures few { OnOk result (count < MAX_OPS) }
    ensures short { OnOk result (len + op_len op.now ≤ MAX_BATCH) }
    ensures refused { IfSome (refusal_at count len op.now) (λ no. result ≡ Err no) }
    ensures succeeds { IfNone (refusal_at count len op.now) (IsOk result) }
{
    let value = value_len(op);
    if value > MAX_VALUE {
        return Err(BatchNo::ValueTooLong { len: value });
    }
    if count >= MAX_OPS {
        return Err(BatchNo::TooMany);
    }
    let added = encoded_len(op);
    if added > MAX_BATCH - len {
        return Err(BatchNo::TooLong);
    }
    Ok(added)
}

fn value_len(op: &Op) -> usize
    ensures { result ≡ value_len op.now }
{
    match op {
        Op::Set { value, .. } => value.bytes().len(),
        Op::Del { .. } | Op::DelSpan { .. } => 0,
    }
}

/// How many bytes the operation takes. Its keys and bounds are within their limits.
fn encoded_len(op: &Op) -> usize
    ensures len { result ≡ op_len op.now }
    ensures fits { value_len op.now ≤ MAX_VALUE → IsOp op.now }
{
    match op {
        Op::Set { key, value } => 1 + string_len(key.bytes()) + string_len(value.bytes()),
        Op::Del { key } => 1 + string_len(key.bytes()),
        Op::DelSpan { range } => {
            1 + string_len(range.lo().bytes()) + string_len(range.hi().bytes())
        }
    }
}
