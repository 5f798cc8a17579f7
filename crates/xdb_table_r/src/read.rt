//! Bytes and blocks from a file.
ghost use Rattle.std.specs.Prelude.{◌≡◌, ◌+◌, ◌-◌, ◌≤◌, length, slice_range, IfOk, IsErrOf, IfSome};
ghost use Rattle.xdb_device.specs.Counted.{Counted};
ghost use Rattle.xdb_block.specs.declared.kind.BlockKind.{BlockKind};
ghost use Rattle.xdb_block.specs.Spelling.{IsBlock};
ghost use Rattle.xdb_table_r.specs.Parts.{behind, part_at};
ghost use Rattle.xdb_table_r.specs.Opening.{Tells};

use crate::TableNo;
use crate::part::Part;
use std::alloc::Global;
use xdb_block::{Block, BlockKind, BlockNo};
use xdb_device::{DevNo, FileRef, Reader};

/// The most bytes that one read takes.
const PIECE: u64 = 0xffff_ffff;

/// The bytes of a file from a place to an end.
pub fn read_range<R: Reader>(
    alloc: Global,
    dev: &mut R,
    file: &R::File,
    from: u64,
    to: u64,
) -> Result<Vec<u8>, DevNo>
    requires order { from ≤ to }
    requires within { to ≤ R.File.size file.now }
    ensures counted { Counted R.faults R.misses R.frame dev.old dev.new (IsErrOf result DevNo.Failed) }
    ensures told { R.told dev.new ≡ R.told dev.old }
    ensures len { IfOk result (λ bytes. length bytes.items ≡ to - from) }
    ensures read { IfOk result (λ bytes. IfSome (R.File.bytes file.now) (λ told. bytes.items ≡ slice_range told from to)) }
{
    let mut out = Vec::new(alloc);
    let mut at = from;
    while at < to {
        let len = (to - at).min(PIECE);
        dev.read_at(file, at, len as u32, &mut out)?;
        at += len;
    }
    Ok(out)
}

/// The block of the kind at a place. Its type byte is 0.
pub fn read_block<R: Reader>(
    alloc: Global,
    dev: &mut R,
    file: &R::File,
    backing: u64,
    kind: BlockKind,
    part: Part,
) -> Result<Block, TableNo>
    requires { behind part ≤ R.File.size file.now }
    ensures counted { Counted R.faults R.misses R.frame dev.old dev.new (IsErrOf result TableNo.ReadFault) }
    ensures told { R.told dev.new ≡ R.told dev.old }
    ensures tells { IfSome (R.File.bytes file.now) (λ told. Tells backing (λ rows. rows) result (part_at kind part told)) }
    ensures block { IfOk result (λ rows. IsBlock 16 kind rows) }
{
    let damaged = TableNo::Damaged {
        backing,
        at: part.at,
    };
    // With the file's length comes its range.
    let _size = file.len();
    let len = part.len as usize;
    let mut bytes = read_range(alloc, dev, file, part.at, part.at + part.len + 1)?;
    if bytes[len] != 0 {
        return Err(damaged);
    }
    bytes.truncate(len);
    match Block::parse(bytes, kind) {
        Ok(block) => Ok(block),
        Err(BlockNo::Memory) => Err(TableNo::Memory),
        Err(BlockNo::Damaged { .. }) => Err(damaged),
    }
}
