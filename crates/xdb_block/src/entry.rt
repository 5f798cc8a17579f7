//! Entries and restart offsets, written.
ghost use Rattle.std.specs.Prelude.{◌≡◌, ◌^◌, ◌+◌, ◌*◌, ◌<◌, ◌≤◌, ◌++◌, length, take, nat_lt, is_ok, IfOk, OnOk, OnErr};
ghost use Rattle.std.specs.Vec.{vec_capacity};
ghost use Rattle.std.specs.List.{flat_map};
ghost use Rattle.byteorder.specs.Endian.{little_bytes};
ghost use Rattle.xdb_block.specs.Rows.{row};
ghost use Rattle.xdb_block.specs.Spelling.{entry_bytes, offset_of, restart_bytes};

use byteorder::{ByteOrder, LittleEndian};
use std::alloc::AllocError;
use xdb_key::put_varint;

/// Puts an entry that leaves out `shared` bytes of its key. An error leaves the bytes as they were.
pub fn put_entry(
    out: &mut Vec<u8>,
    shared: usize,
    key: &[u8],
    value: &[u8],
) -> Result<(), AllocError>
    requires { shared ≤ length key.now }
    ensures ok { OnOk result (out.new.items ≡ out.old.items ++ entry_bytes shared (row key.now value.now)) }
    ensures err { OnErr result (out.new.items ≡ out.old.items) }
{
    let len = out.len();
    let put = put_parts(out, shared, key, value);
    if put.is_err() {
        out.truncate(len);
    }
    put
}

fn put_parts(out: &mut Vec<u8>, shared: usize, key: &[u8], value: &[u8]) -> Result<(), AllocError>
    requires { shared ≤ length key.now }
    ensures ok { OnOk result (out.new.items ≡ out.old.items ++ entry_bytes shared (row key.now value.now)) }
    ensures err { OnErr result (take (length out.old.items) out.new.items ≡ out.old.items) }
{
    put_varint(out, shared as u64)?;
    put_varint(out, (key.len() - shared) as u64)?;
    put_varint(out, value.len() as u64)?;
    out.extend_from_slice(&key[shared..])?;
    out.extend_from_slice(value)
}

/// Puts the place of an entry behind the offsets where it is a restart. There is room for it.
pub fn put_offset(offsets: &mut Vec<u32>, restart: bool, at: u32)
    requires { length offsets.old.items + 1 ≤ vec_capacity offsets.old }
    ensures { offsets.new.items ≡ offsets.old.items ++ offset_of restart at }
{
    if restart && offsets.push(at).is_err() {
        unreachable!();
    }
}

/// Puts a key in the place of the last one. There is room for it.
pub fn replace(last: &mut Vec<u8>, key: &[u8])
    requires { length key.now ≤ vec_capacity last.old }
    ensures { last.new.items ≡ key.now }
{
    last.clear();
    if last.extend_from_slice(key).is_err() {
        unreachable!();
    }
}

/// The place of an entry behind others of so many bytes. It is want of memory just from 2^32 on.
pub fn entry_place(entries: usize) -> Result<u32, AllocError>
    ensures place { IfOk result (λ at. at ≡ entries) }
    ensures fits { is_ok result ≡ nat_lt entries (2 ^ 32) }
{
    u32::try_from(entries).map_err(|_| AllocError)
}

/// How many bytes a block takes. It is want of memory just where it would have 2^32 bytes or more.
pub fn block_len(entries: usize, offsets: &[u32]) -> Result<usize, AllocError>
    requires { entries < 2 ^ 63 }
    ensures len { IfOk result (λ len. len ≡ entries + (4 * length offsets.now + 4)) }
    ensures short { IfOk result (λ len. len < 2 ^ 32) }
    ensures fits { is_ok result ≡ nat_lt (entries + (4 * length offsets.now + 4)) (2 ^ 32) }
{
    let len = entries + (4 * offsets.len() + 4);
    if len > u32::MAX as usize {
        return Err(AllocError);
    }
    Ok(len)
}

/// Puts the restart part.
pub fn put_restarts(out: &mut Vec<u8>, offsets: &[u32]) -> Result<(), AllocError>
    requires { length offsets.now < 2 ^ 32 }
    ensures { OnOk result (out.new.items ≡ out.old.items ++ restart_bytes offsets.now) }
{
    for offset in offsets {
        put_number(out, *offset)?;
    }
    put_number(out, offsets.len() as u32)
}

fn put_number(out: &mut Vec<u8>, n: u32) -> Result<(), AllocError>
    ensures { OnOk result (out.new.items ≡ out.old.items ++ little_bytes 4 n) }
{
    let mut bytes = [0; 4];
    LittleEndian::write_u32(&mut bytes, n);
    out.extend_from_slice(&bytes)
}
