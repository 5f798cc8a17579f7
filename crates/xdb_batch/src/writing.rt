//! Batches written as bytes, in one pass.
ghost use Rattle.std.specs.Prelude.{◌≡◌, ◌≤◌, ◌++◌, length, IfOk, OnOk};
ghost use Rattle.byteorder.specs.Endian.{little_bytes};
ghost use Rattle.xdb_key.specs.Kinds.{kind_code};
ghost use Rattle.xdb_batch.specs.Spelling.{string, op_bytes, batch_bytes};

use crate::{HEADER, MAX_OPS};
use byteorder::{ByteOrder, LittleEndian};
use std::alloc::{AllocError, Global};
use xdb_key::{Kind, Op, put_varint};

/// The spelling, which takes `len` bytes.
pub fn write_batch(alloc: Global, len: usize, first: u64, ops: &[Op]) -> Result<Vec<u8>, AllocError>
    requires { length ops.now ≤ MAX_OPS }
    ensures { IfOk result (λ bytes. bytes.items ≡ batch_bytes first ops.now) }
{
    let mut out = Vec::with_capacity(alloc, len)?;
    out.extend_from_slice(&header(first, ops.len() as u32))?;
    for op in ops {
        put_op(&mut out, op)?;
    }
    Ok(out)
}

/// The first number and the count.
fn header(first: u64, count: u32) -> [u8; HEADER]
    ensures { result ≡ little_bytes 8 first ++ little_bytes 4 count }
{
    let mut header = [0; HEADER];
    LittleEndian::write_u64(&mut header, first);
    LittleEndian::write_u32(&mut header[8..], count);
    header
}

fn put_op(out: &mut Vec<u8>, op: &Op) -> Result<(), AllocError>
    ensures { OnOk result (out.new.items ≡ out.old.items ++ op_bytes op.now) }
{
    match op {
        Op::Set { key, value } => {
            out.push(Kind::Set.code())?;
            put_string(out, key.bytes())?;
            put_string(out, value.bytes())
        }
        Op::Del { key } => {
            out.push(Kind::Del.code())?;
            put_string(out, key.bytes())
        }
        Op::DelSpan { range } => {
            out.push(Kind::SpanDel.code())?;
            put_string(out, range.lo().bytes())?;
            put_string(out, range.hi().bytes())
        }
    }
}

/// The length, and then the bytes.
fn put_string(out: &mut Vec<u8>, bytes: &[u8]) -> Result<(), AllocError>
    ensures { OnOk result (out.new.items ≡ out.old.items ++ string bytes.now) }
{
    put_varint(out, bytes.len() as u64)?;
    out.extend_from_slice(bytes)
}
