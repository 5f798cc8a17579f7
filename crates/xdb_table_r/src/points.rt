//! The points of a table, block after block.
ghost use Rattle.std.specs.Prelude.{◌≡◌, ◌^◌, ◌<◌, ◌≤◌, ◌++◌, true, [], length, Option, Some, None, IfOk, OnOk, IfSome, IsErrOf};
ghost use Rattle.std.specs.List.{cons_option};
ghost use Rattle.std.specs.Ordering.{is_eq};
ghost use Rattle.xdb_key.specs.Order.{key_cmp};
ghost use Rattle.xdb_block.specs.Kept.{last_key};
ghost use Rattle.xdb_block.specs.Spelling.{IsBlock};
ghost use Rattle.xdb_block.specs.declared.kind.BlockKind.{BlockKind};
ghost use Rattle.xdb_block.specs.Rows.{Row, row, nth, precedes, suits, Follow};
ghost use Rattle.xdb_device.specs.Counted.{Counted};
ghost use Rattle.xdb_table_r.specs.Parts.{handle, behind, follow_on};
ghost use Rattle.xdb_table_r.specs.Opening.{Tells};
ghost use Rattle.xdb_table_r.specs.Points.{ends_well, is_behind, stands, block_of, before, has_more};
ghost use Rattle.xdb_table_r.specs.Views.{range_of, point_in, points_in, seen_at, AreSeen};

use crate::TableNo;
use crate::handle::handle;
use crate::read::read_block;
use crate::window::Window;
use std::alloc::{AllocError, Global};
use xdb_block::{Block, BlockKind, BlockWriter, key_parts};
use xdb_device::Reader;
use xdb_key::{Entry, Key, Val, compare, is_below, is_upto};

/// How many entries there are from one restart to the next.
const INTERVAL: u32 = 16;

/// A point block ends with the entry that brings its entries to so many bytes.
const BLOCK_LEN: usize = 4096;

/// Whether a block of these rows may end where it does. Another block follows it or not.
fn ends_well(alloc: Global, block: &Block, more: bool) -> Result<bool, AllocError>
    requires { 1 ≤ length block.now }
    ensures { IfOk result (λ b. b ≡ ends_well more block.now) }
{
    let last = block.len() - 1;
    let mut written = BlockWriter::new(alloc, INTERVAL);
    for i in 0..last {
        if written.entries_len() >= BLOCK_LEN {
            return Ok(false);
        }
        written.add(block.key(i), block.value(i))?;
    }
    if written.entries_len() >= BLOCK_LEN {
        return Ok(false);
    }
    written.add(block.key(last), block.value(last))?;
    Ok(!more || written.entries_len() >= BLOCK_LEN)
}

/// Whether the first internal key stands before the second.
fn precedes(a: &[u8], b: &[u8]) -> bool
    ensures { result ≡ precedes a.now b.now }
{
    let (a_user, a_trailer) = key_parts(a);
    let (b_user, b_trailer) = key_parts(b);
    compare(a_user, b_user)
        .then(b_trailer.cmp(&a_trailer))
        .is_lt()
}

/// Whether the last row has the key.
fn ends_with(block: &Block, key: &[u8]) -> bool
    requires { 1 ≤ length block.now }
    ensures { result ≡ is_eq (key_cmp (last_key [] block.now) key.now) }
{
    compare(block.key(block.len() - 1), key).is_eq()
}

/// Whether the first row stands behind the key of the index row before this one.
fn is_behind(index: &Block, i: usize, block: &Block) -> bool
    requires place { i < length index.now }
    requires some { 1 ≤ length block.now }
    ensures { result ≡ is_behind (before index.now i) block.now }
{
    i == 0 || precedes(index.key(i - 1), block.key(0))
}

/// Whether the rows are those of the block of an index row: they end with its key, begin behind the key
/// before it, and end where a block has to.
fn stands(alloc: Global, index: &Block, i: usize, block: &Block) -> Result<bool, AllocError>
    requires place { i < length index.now }
    requires some { 1 ≤ length block.now }
    ensures { IfOk result (λ b. b ≡ stands (before index.now i) (has_more index.now i) (nth index.now i) block.now) }
{
    if !ends_with(block, index.key(i)) || !is_behind(index, i, block) {
        return Ok(false);
    }
    let more = index.len() - i > 1;
    ends_well(alloc, block, more)
}

/// The point block of an index row.
fn read_points<R: Reader>(
    alloc: Global,
    dev: &mut R,
    file: &R::File,
    backing: u64,
    index: &Block,
    i: usize,
) -> Result<Block, TableNo>
    requires place { i < length index.now }
    requires within { behind (handle (nth index.now i)) ≤ R.File.size file.now }
    ensures counted { Counted R.faults R.misses R.frame dev.old dev.new (IsErrOf result TableNo.ReadFault) }
    ensures told { R.told dev.new ≡ R.told dev.old }
    ensures tells { IfSome (R.File.bytes file.now) (λ told. Tells backing (λ rows. rows) result (block_of (before index.now i) (has_more index.now i) (nth index.now i) told)) }
    ensures stands { IfOk result (λ rows. stands (before index.now i) (has_more index.now i) (nth index.now i) rows ≡ true) }
    ensures block { IfOk result (λ rows. IsBlock 16 BlockKind.Point rows) }
{
    let part = handle(index.value(i));
    let block = read_block(alloc, dev, file, backing, BlockKind::Point, part)?;
    if !stands(alloc, index, i, &block)? {
        return Err(TableNo::Damaged {
            backing,
            at: part.at,
        });
    }
    Ok(block)
}

/// What the window shows of a row of a point block.
fn entry_in(
    alloc: Global,
    window: &Window,
    key: &[u8],
    value: &[u8],
) -> Result<Option<Entry>, AllocError>
    requires suits { suits BlockKind.Point (row key.now value.now) ≡ true }
    requires small { window.now.synthetic < 2 ^ 56 }
    ensures { IfOk result (λ e. e ≡ point_in (range_of window.now) window.now.synthetic (row key.now value.now)) }
{
    let (user, trailer) = key_parts(key);
    if !is_upto(window.lo.bytes(), user) || !is_below(user, window.hi.bytes()) {
        return Ok(None);
    }
    let Ok(key) = Key::new(user.to_vec(alloc)?) else {
        unreachable!()
    };
    let own = trailer / 256;
    let seq = if window.synthetic == 0 {
        own
    } else {
        window.synthetic
    };
    if trailer % 256 == 0 {
        return Ok(Some(Entry::del(key, seq)?));
    }
    let value = Val::new(value.to_vec(alloc)?);
    Ok(Some(Entry::set(key, seq, value)?))
}

/// Adds what the window shows of a point block.
fn push_points(
    alloc: Global,
    out: &mut Vec<Entry>,
    window: &Window,
    block: &Block,
) -> Result<(), AllocError>
    requires rows { Follow BlockKind.Point None block.now }
    requires small { window.now.synthetic < 2 ^ 56 }
    ensures { OnOk result (out.new.items ≡ out.old.items ++ points_in (range_of window.now) window.now.synthetic block.now) }
{
    for i in 0..block.len() {
        let entry = entry_in(alloc, window, block.key(i), block.value(i))?;
        push_some(out, entry)?;
    }
    Ok(())
}

fn push_some(out: &mut Vec<Entry>, entry: Option<Entry>) -> Result<(), AllocError>
    ensures { OnOk result (out.new.items ≡ out.old.items ++ cons_option entry []) }
{
    if let Some(entry) = entry {
        out.push(entry)?;
    }
    Ok(())
}

/// All points of a table that the window shows, in order.
pub fn read_all<R: Reader>(
    alloc: Global,
    dev: &mut R,
    file: &R::File,
    backing: u64,
    index: &Block,
    end: u64,
    window: &Window,
) -> Result<Vec<Entry>, TableNo>
    requires within { end ≤ R.File.size file.now }
    requires tiles { follow_on 0 end index.now ≡ true }
    requires small { window.now.synthetic < 2 ^ 56 }
    ensures counted { Counted R.faults R.misses R.frame dev.old dev.new (IsErrOf result TableNo.ReadFault) }
    ensures told { R.told dev.new ≡ R.told dev.old }
    ensures tells { IfSome (R.File.bytes file.now) (λ told. Tells backing (λ out. out.items) result (seen_at (range_of window.now) window.now.synthetic index.now told)) }
    ensures seen { IfOk result (λ out. AreSeen (range_of window.now) window.now.synthetic out.items) }
{
    let mut out = Vec::new(alloc);
    for i in 0..index.len() {
        let block = read_points(alloc, dev, file, backing, index, i)?;
        push_points(alloc, &mut out, window, &block)?;
    }
    Ok(out)
}
