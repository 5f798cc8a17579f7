//! The file in one buffer: point blocks, spans, index and footer.
ghost use Rattle.std.specs.Prelude.{◌≡◌, ◌^◌, ◌<◌, ◌≤◌, [], ◌∷◌, ◌++◌, None, All, length, nat_lt, is_ok, IfOk, OnOk};
ghost use Rattle.byteorder.specs.Endian.{little_bytes};
ghost use Rattle.xdb_block.specs.declared.kind.BlockKind.{BlockKind};
ghost use Rattle.xdb_block.specs.Kept.{draft, last_key};
ghost use Rattle.xdb_block.specs.Rows.{row, Follow, AreRows};
ghost use Rattle.xdb_block.specs.Spelling.{block_bytes, IsBlock};
ghost use Rattle.xdb_table_w.specs.Files.{joined, part, part_of, place_of, len_of, parts, handle, index, footer, table_bytes};
ghost use Rattle.xdb_table_w.specs.Halves.{rows_in, IsPointBlock};

use crate::INTERVAL;
use byteorder::{ByteOrder, LittleEndian};
use std::alloc::{AllocError, Global};
use xdb_block::BlockWriter;
use xdb_key::put_varint;

/// The type of a block that isn't compressed, the only one there is.
const TYPE: u8 = 0;

const FORMAT: u64 = 1;

/// Where a block lies in the file, without its type byte; place and length are 0 where there is none.
#[derive(Clone, Copy)]
struct Part {
    at: usize,
    len: usize,
}

/// The bytes of a table file, and its index: of point blocks with rows, which all stand in order, and of
/// spans.
pub fn write_table(
    alloc: Global,
    blocks: &[BlockWriter],
    spans: &BlockWriter,
) -> Result<(Vec<u8>, BlockWriter), AllocError>
    requires blocks { All IsPointBlock blocks.now }
    requires follow { Follow BlockKind.Point None (joined (rows_in blocks.now)) }
    requires spans { spans.now.interval ≡ 16 }
    ensures spelled { IfOk result (λ x. x.0.items ≡ table_bytes 16 (rows_in blocks.now) spans.now.rows) }
    ensures written { IfOk result (λ x. x.1 ≡ draft 16 (index 16 (rows_in blocks.now))) }
    ensures points { OnOk result (All (λ d. IsBlock 16 BlockKind.Point d.rows) blocks.now) }
    ensures index { 1 ≤ length blocks.now → OnOk result (IsBlock 16 BlockKind.Index (index 16 (rows_in blocks.now))) }
    ensures spans { AreRows BlockKind.Spans spans.now.rows → OnOk result (IsBlock 16 BlockKind.Spans spans.now.rows) }
    ensures spans_len { OnOk result (len_of 16 spans.now.rows < 2 ^ 32) }
    ensures index_len { OnOk result (len_of 16 (index 16 (rows_in blocks.now)) < 2 ^ 32) }
    ensures short { IfOk result (λ x. length x.0.items < 2 ^ 56) }
{
    let mut out = Vec::new(alloc);
    let index = put_blocks(alloc, &mut out, blocks)?;
    let spans_part = put_part(&mut out, spans)?;
    let index_part = put_part(&mut out, &index)?;
    put_footer(&mut out, spans_part, index_part)?;
    test_len(out.len())?;
    Ok((out, index))
}

/// A file of so many bytes counts as want of memory just where they are 2^56 or more.
fn test_len(len: usize) -> Result<(), AllocError>
    ensures short { OnOk result (len < 2 ^ 56) }
    ensures fits { is_ok result ≡ nat_lt len (2 ^ 56) }
{
    if len >= 1 << 56 {
        return Err(AllocError);
    }
    Ok(())
}

/// Puts all point blocks, and answers their index.
fn put_blocks(
    alloc: Global,
    out: &mut Vec<u8>,
    blocks: &[BlockWriter],
) -> Result<BlockWriter, AllocError>
    requires blocks { All IsPointBlock blocks.now }
    requires empty { out.old.items ≡ [] }
    ensures put { OnOk result (out.new.items ≡ parts 16 (rows_in blocks.now)) }
    ensures index { IfOk result (λ w. w ≡ draft 16 (index 16 (rows_in blocks.now))) }
    ensures blocks { OnOk result (All (λ d. IsBlock 16 BlockKind.Point d.rows) blocks.now) }
{
    let mut index = BlockWriter::new(alloc, INTERVAL);
    for block in blocks {
        put_points(out, block, &mut index)?;
    }
    Ok(index)
}

/// Puts a block and its type byte, or nothing where it has no rows.
fn put_part(out: &mut Vec<u8>, block: &BlockWriter) -> Result<Part, AllocError>
    requires { block.now.interval ≡ 16 }
    ensures put { OnOk result (out.new.items ≡ out.old.items ++ part_of 16 block.now.rows) }
    ensures at { IfOk result (λ part. part.at ≡ place_of (length out.old.items) block.now.rows) }
    ensures len { IfOk result (λ part. part.len ≡ len_of 16 block.now.rows) }
    ensures short { IfOk result (λ part. part.len < 2 ^ 32) }
    ensures block { (kind : BlockKind) → AreRows kind block.now.rows → OnOk result (IsBlock 16 kind block.now.rows) }
{
    let at = out.len();
    if block.count() == 0 {
        return Ok(Part { at: 0, len: 0 });
    }
    let len = block.put(out)?;
    out.push(TYPE)?;
    Ok(Part { at, len })
}

/// Puts a point block with its type byte, and its row into the index.
fn put_points(
    out: &mut Vec<u8>,
    block: &BlockWriter,
    index: &mut BlockWriter,
) -> Result<(), AllocError>
    requires { block.now.interval ≡ 16 }
    ensures put { OnOk result (out.new.items ≡ out.old.items ++ part 16 block.now.rows) }
    ensures index { OnOk result (index.new ≡ draft index.old.interval (index.old.rows ++ row (last_key [] block.now.rows) (handle (length out.old.items) (length (block_bytes 16 block.now.rows))) ∷ [])) }
    ensures block { (kind : BlockKind) → AreRows kind block.now.rows → OnOk result (IsBlock 16 kind block.now.rows) }
{
    let at = out.len();
    let len = block.put(out)?;
    out.push(TYPE)?;
    let mut handle = Vec::new(*out.allocator());
    put_varint(&mut handle, at as u64)?;
    put_varint(&mut handle, len as u64)?;
    index.add(block.last_key(), &handle)
}

/// Puts the footer, of 40 bytes.
fn put_footer(out: &mut Vec<u8>, spans: Part, index: Part) -> Result<(), AllocError>
    requires spans { spans.len < 2 ^ 32 }
    requires index { index.len < 2 ^ 32 }
    ensures { OnOk result (out.new.items ≡ out.old.items ++ footer spans.at spans.len index.at index.len) }
{
    put_place(out, spans)?;
    put_place(out, index)?;
    put_u64(out, FORMAT)?;
    out.extend_from_slice(b"excisedb")
}

fn put_place(out: &mut Vec<u8>, part: Part) -> Result<(), AllocError>
    requires { part.len < 2 ^ 32 }
    ensures { OnOk result (out.new.items ≡ out.old.items ++ (little_bytes 8 part.at ++ little_bytes 4 part.len)) }
{
    put_u64(out, part.at as u64)?;
    let mut bytes = [0; 4];
    LittleEndian::write_u32(&mut bytes, part.len as u32);
    out.extend_from_slice(&bytes)
}

fn put_u64(out: &mut Vec<u8>, n: u64) -> Result<(), AllocError>
    ensures { OnOk result (out.new.items ≡ out.old.items ++ little_bytes 8 n) }
{
    let mut bytes = [0; 8];
    LittleEndian::write_u64(&mut bytes, n);
    out.extend_from_slice(&bytes)
}
