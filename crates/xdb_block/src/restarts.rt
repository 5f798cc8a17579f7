//! The restart part of a block: offsets of 4 bytes and their count.
ghost use Rattle.std.specs.Prelude.{◌≡◌, ◌^◌, ◌<◌, ◌≤◌, [], ◌∷◌, length, IfOk, IfSome, MatchOption};
ghost use Rattle.xdb_block.specs.Reading.{Answers, numbers, rise, are_offsets, restarts_at, offsets_at};

use crate::BlockNo;
use byteorder::{ByteOrder, LittleEndian};

/// How many bytes an offset takes, and their count.
const OFFSET: usize = 4;

/// The place of the restart part, and its offsets.
#[tactic(auto, unfolding(crate::specs::Reading::restarts_at))]
pub fn read_restarts(bytes: &[u8]) -> Result<(usize, &[u8]), BlockNo>
    ensures answers { Answers (λ x. (x.0, numbers x.1.now)) result (restarts_at bytes.now) }
    ensures within { IfOk result (λ x. x.0 ≤ length bytes.now) }
{
    if bytes.len() < OFFSET {
        return Err(BlockNo::Damaged { at: 0 });
    }
    let count_at = bytes.len() - OFFSET;
    let count = LittleEndian::read_u32(&bytes[count_at..]) as usize;
    if count_at < OFFSET * count {
        return Err(BlockNo::Damaged { at: 0 });
    }
    let end = count_at - OFFSET * count;
    let offsets = &bytes[end..count_at];
    if !are_offsets(end, offsets) {
        return Err(BlockNo::Damaged { at: end });
    }
    Ok((end, offsets))
}

/// Whether the offsets begin with 0, rise strictly and lie before the end.
fn are_offsets(end: usize, offsets: &[u8]) -> bool
    ensures { result ≡ are_offsets end (numbers offsets.now) }
{
    match first_offset(offsets) {
        Some((0, _)) => rise(end, offsets),
        _ => false,
    }
}

fn rise(end: usize, offsets: &[u8]) -> bool
    ensures { result ≡ rise 0 end (numbers offsets.now) }
{
    let mut least = 0;
    let mut rest = offsets;
    while let Some((offset, after)) = first_offset(rest) {
        if offset < least || offset >= end {
            return false;
        }
        least = offset + 1;
        rest = after;
    }
    true
}

/// The offsets that are left behind the entry at a place; a restart has to stand at the next one.
#[tactic(auto, unfolding(crate::specs::Reading::offsets_at))]
pub fn next_offsets(at: usize, restart: bool, offsets: &[u8]) -> Result<&[u8], BlockNo>
    ensures { Answers (λ x. numbers x.now) result (offsets_at at restart (numbers offsets.now)) }
{
    if !restart {
        return Ok(offsets);
    }
    match first_offset(offsets) {
        Some((offset, after)) if offset == at => Ok(after),
        _ => Err(BlockNo::Damaged { at }),
    }
}

/// The next offset, with those behind it.
#[tactic(auto, using(crate::proofs::Numbers::numbers_none, crate::proofs::Numbers::numbers_more))]
pub fn first_offset(offsets: &[u8]) -> Option<(usize, &[u8])>
    ensures first { MatchOption result (numbers offsets.now ≡ []) (λ x. numbers offsets.now ≡ x.0 ∷ numbers x.1.now) }
    ensures shorter { IfSome result (λ x. length x.1.now < length offsets.now) }
    ensures small { IfSome result (λ x. x.0 < 2 ^ 32) }
{
    if offsets.len() < OFFSET {
        return None;
    }
    let (first, after) = offsets.split_at(OFFSET);
    Some((LittleEndian::read_u32(first) as usize, after))
}
