//! All rows of a block, read in one pass over its entries.
ghost use Rattle.std.specs.Prelude.{◌≡◌, ◌≤◌, None, All, length, IfOk};
ghost use Rattle.xdb_block.specs.Kept.{rows_of, keys_size, Lies, IsKept};
ghost use Rattle.xdb_block.specs.Reading.{Answers, numbers, rows_at, block_at};
ghost use Rattle.xdb_block.specs.Spelling.{IsBlock, block_bytes};

use crate::place::Place;
use crate::restarts::{first_offset, next_offsets, read_restarts};
use crate::row::read_row;
use crate::{BlockKind, BlockNo};
use std::alloc::Global;

/// Whole keys one behind the other, and where each row lies.
#[derive(Drop)]
pub struct Rows {
    pub keys: Vec<u8>,
    pub places: Vec<Place>,
}

/// The rows of a whole block with a restart interval.
#[tactic(auto, unfolding(crate::specs::Reading::block_at))]
pub fn read_block(
    alloc: Global,
    interval: usize,
    kind: BlockKind,
    bytes: &[u8],
) -> Result<Rows, BlockNo>
    requires { 1 ≤ interval }
    ensures answers { Answers (λ x. rows_of x.keys.items bytes.now x.places.items) result (block_at interval kind bytes.now) }
    ensures found { IfOk result (λ x. IsBlock interval kind (rows_of x.keys.items bytes.now x.places.items) × (bytes.now ≡ block_bytes interval (rows_of x.keys.items bytes.now x.places.items))) }
    ensures kept { IfOk result (λ x. IsKept x.keys.items bytes.now x.places.items) }
{
    let (end, offsets) = read_restarts(bytes)?;
    read_rows(alloc, interval, kind, &bytes[..end], offsets)
}

/// The rows that entries spell, whose restarts stand at the offsets.
fn read_rows(
    alloc: Global,
    interval: usize,
    kind: BlockKind,
    entries: &[u8],
    offsets: &[u8],
) -> Result<Rows, BlockNo>
    requires { 1 ≤ interval }
    ensures answers { Answers (λ x. rows_of x.keys.items entries.now x.places.items) result (rows_at (length entries.now) interval kind (length entries.now) 0 None (numbers offsets.now) entries.now) }
    ensures lie { IfOk result (λ x. All (Lies (length x.keys.items) (length entries.now)) x.places.items) }
    ensures whole { IfOk result (λ x. length x.keys.items ≡ keys_size x.places.items) }
{
    let mut keys = Vec::new(alloc);
    let mut places = Vec::new(alloc);
    let mut offsets = offsets;
    let mut last = None;
    let mut at = 0;
    while at < entries.len() {
        let restart = places.len() % interval == 0;
        offsets = next_offsets(at, restart, offsets)?;
        let place = read_row(kind, restart, last, entries, at, &mut keys)?;
        places.push(place)?;
        last = Some(place);
        at = place.end;
    }
    match first_offset(offsets) {
        Some(_) => Err(BlockNo::Damaged { at }),
        None => Ok(Rows { keys, places }),
    }
}
