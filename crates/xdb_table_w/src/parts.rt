//! Steps on what a table writer keeps.
ghost use Rattle.std.specs.Prelude.{◌≡◌, ◌+◌, ◌≤◌, [], ◌∷◌, ◌++◌, Some, length, nat_le, if◌then◌else◌, IfOk, OnOk};
ghost use Rattle.std.specs.Option.{option_or};
ghost use Rattle.std.specs.Vec.{vec_capacity};
ghost use Rattle.xdb_block.specs.Kept.{draft};
ghost use Rattle.xdb_block.specs.Spelling.{entries};
ghost use Rattle.xdb_table_w.specs.Halves.{closed};

use crate::{BLOCK_LEN, INTERVAL};
use std::alloc::AllocError;
use std::mem;
use xdb_block::BlockWriter;
use xdb_key::{Bound, Key};

/// A copy of the key, where there is no first one yet.
pub fn first_copy(first: &Option<Key>, key: &Key) -> Result<Option<Key>, AllocError>
    ensures { IfOk result (λ copy. option_or first.now copy ≡ option_or first.now (Some key.now)) }
{
    match first {
        Some(_) => Ok(None),
        None => Ok(Some(key.copy()?)),
    }
}

/// Keeps the copy, where there is no first key yet.
pub fn put_first(first: &mut Option<Key>, copy: Option<Key>)
    ensures { first.new ≡ option_or first.old copy }
{
    if first.is_none() {
        *first = copy;
    }
}

/// Keeps the start, where there is none yet.
pub fn put_start(lo: &mut Option<Bound>, start: Bound)
    ensures { lo.new ≡ option_or lo.old (Some start) }
{
    if lo.is_none() {
        *lo = Some(start);
    }
}

/// Ends the block under way where its entries have so many bytes. There is room for it.
pub fn end_block(blocks: &mut Vec<BlockWriter>, block: &mut BlockWriter)
    requires { length blocks.old.items + 1 ≤ vec_capacity blocks.old }
    ensures blocks { blocks.new.items ≡ (if nat_le 4096 (length (entries block.old.interval block.old.rows)) then blocks.old.items ++ block.old ∷ [] else blocks.old.items) }
    ensures block { block.new ≡ (if nat_le 4096 (length (entries block.old.interval block.old.rows)) then draft 16 [] else block.old) }
{
    if block.entries_len() < BLOCK_LEN {
        return;
    }
    let alloc = *blocks.allocator();
    let full = mem::replace(block, BlockWriter::new(alloc, INTERVAL));
    if blocks.push(full).is_err() {
        unreachable!();
    }
}

/// All point blocks: those that have ended, and the one under way, if it has rows.
pub fn close(blocks: &mut Vec<BlockWriter>, block: BlockWriter) -> Result<(), AllocError>
    ensures { OnOk result (blocks.new.items ≡ closed blocks.old.items block) }
{
    if block.count() > 0 {
        blocks.push(block)?;
    }
    Ok(())
}
