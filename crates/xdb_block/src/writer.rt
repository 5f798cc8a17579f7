ghost use Rattle.std.specs.Prelude.{◌≡◌, ◌^◌, ◌<◌, ◌≤◌, ◌==◌, [], ◌∷◌, ◌++◌, length, nat_le, nat_lt, is_ok, Ok, IfOk, OnOk, OnErr};
ghost use Rattle.xdb_block.specs.declared.kind.BlockKind.{BlockKind};
ghost use Rattle.xdb_block.specs.Kept.{draft, last_key};
ghost use Rattle.xdb_block.specs.Reading.{block_at};
ghost use Rattle.xdb_block.specs.Rows.{row, AreRows};
ghost use Rattle.xdb_block.specs.Spelling.{entries, block_bytes, IsBlock};

use crate::entry::{block_len, entry_place, put_entry, put_offset, put_restarts, replace};
use crate::shared::left_out;
use std::alloc::{AllocError, Global};
use std::marker::Model;

/// A block that is being written, seen as its restart interval and its rows so far.
///
/// Rows that are those of one kind of block make a block of that kind. The writer asks for no kind: what
/// it writes is the spelling of its rows in any case.
#[derive(Drop)]
pub struct BlockWriter {
    interval: u32,
    /// The entries.
    out: Vec<u8>,
    /// The last key.
    last: Vec<u8>,
    /// The places of the restarts.
    restarts: Vec<u32>,
    /// How many rows there are.
    count: usize,
}

impl Model for BlockWriter {
    ghost use Rattle.xdb_block.specs.Kept.{Draft, draft, rows_in, IsDraft};

    ghost Value = { Draft };

    ghost view = { λ w. draft w.interval (rows_in w.interval w.out.items) };

    ghost invariant = { λ w. IsDraft w.interval w.out.items w.last.items w.restarts.items w.count };
}

impl BlockWriter {
    /// A block of no rows, with a restart at each entry whose number is a multiple of the interval. It takes
    /// no memory.
    pub fn new(alloc: Global, interval: u32) -> Self
        requires { 1 ≤ interval }
        ensures { result ≡ draft interval [] }
    {
        BlockWriter {
            interval,
            out: Vec::new(alloc),
            last: Vec::new(alloc),
            restarts: Vec::new(alloc),
            count: 0,
        }
    }

    /// How many rows there are.
    pub fn count(&self) -> usize
        ensures { result ≡ length self.now.rows }
    {
        self.count
    }

    /// How many bytes the entries take.
    pub fn entries_len(&self) -> usize
        ensures { result ≡ length (entries self.now.interval self.now.rows) }
    {
        self.out.len()
    }

    /// The last internal key; before the first row there are no bytes.
    pub fn last_key(&self) -> &[u8]
        ensures { result.now ≡ last_key [] self.now.rows }
    {
        &self.last
    }

    /// How many bytes the block takes. It is want of memory just where it would have 2^32 bytes or more,
    /// which no block that is written has; nothing is taken for it.
    pub fn block_len(&self) -> Result<usize, AllocError>
        ensures len { IfOk result (λ len. len ≡ length (block_bytes self.now.interval self.now.rows)) }
        ensures fits { is_ok result ≡ nat_lt (length (block_bytes self.now.interval self.now.rows)) (2 ^ 32) }
    {
        block_len(self.out.len(), &self.restarts)
    }

    /// Whether no entry may be added, as it would begin at 2^32 or behind.
    pub fn is_full(&self) -> bool
        ensures { result ≡ nat_le (2 ^ 32) (length (entries self.now.interval self.now.rows)) }
    {
        self.out.len() > u32::MAX as usize
    }

    /// Adds a row: an internal key and what stands behind it. The answer is want of memory too where
    /// `is_full` says so; where the block would pass 2^32 - 1 bytes, that of `finish` is.
    pub fn add(&mut self, key: &[u8], value: &[u8]) -> Result<(), AllocError>
        ensures added { OnOk result (self.new ≡ draft self.old.interval (self.old.rows ++ row key.now value.now ∷ [])) }
        ensures unchanged { OnErr result (self.new ≡ self.old) }
        ensures full { OnOk result (length (entries self.old.interval self.old.rows) < 2 ^ 32) }
    {
        let at = entry_place(self.out.len())?;
        self.last.try_reserve(key.len())?;
        self.restarts.try_reserve(1)?;
        let restart = self.count % self.interval as usize == 0;
        let shared = left_out(restart, &self.last, key);
        put_entry(&mut self.out, shared, key, value)?;
        put_offset(&mut self.restarts, restart, at);
        replace(&mut self.last, key);
        self.count += 1;
        Ok(())
    }

    /// The block's bytes: the one spelling of its rows.
    pub fn finish(self) -> Result<Vec<u8>, AllocError>
        ensures written { IfOk result (λ bytes. bytes.items ≡ block_bytes self.interval self.rows) }
        ensures short { IfOk result (λ bytes. length bytes.items < 2 ^ 32) }
        // Rows of one kind of block are read again.
        ensures again { (kind : BlockKind) → AreRows kind self.rows → IfOk result (λ bytes. block_at self.interval kind bytes.items ≡ Ok self.rows) }
    {
        let BlockWriter {
            mut out,
            restarts,
            ..
        } = self;
        block_len(out.len(), &restarts)?;
        put_restarts(&mut out, &restarts)?;
        Ok(out)
    }

    /// Puts the block's bytes behind others, and answers how many they are. After an error a part of them
    /// may be there.
    pub fn put(&self, out: &mut Vec<u8>) -> Result<usize, AllocError>
        ensures put { OnOk result (out.new.items ≡ out.old.items ++ block_bytes self.now.interval self.now.rows) }
        ensures len { IfOk result (λ len. len ≡ length (block_bytes self.now.interval self.now.rows)) }
        ensures short { IfOk result (λ len. len < 2 ^ 32) }
        // Rows of one kind of block make a block of that kind.
        ensures block { (kind : BlockKind) → AreRows kind self.now.rows → OnOk result (IsBlock self.now.interval kind self.now.rows) }
    {
        let len = block_len(self.out.len(), &self.restarts)?;
        out.extend_from_slice(&self.out)?;
        put_restarts(out, &self.restarts)?;
        Ok(len)
    }
}
