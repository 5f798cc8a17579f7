//! One row of a block: read from its entry, behind the row before it.
ghost use Rattle.std.specs.Prelude.{◌≡◌, ◌<◌, ◌≤◌, ℕ, List, length, take, drop, slice_range, IfOk, OnOk, IfSome};
ghost use Rattle.std.specs.Option.{option_map};
ghost use Rattle.xdb_block.specs.Kept.{seen, row_of, Lies};
ghost use Rattle.xdb_block.specs.Reading.{Answers, number_at, lengths_at, row_at, next_at};
ghost use Rattle.xdb_block.specs.Rows.{follows};
ghost use Rattle.xdb_block.specs.Spelling.{left_out, key_of};

use crate::internal::{RowRef, may_follow, precedes, suits};
use crate::place::Place;
use crate::shared::left_out;
use crate::{BlockKind, BlockNo};
use xdb_key::get_varint;

/// What an entry begins with.
#[derive(Clone, Copy)]
struct Lengths {
    /// How many bytes are left out of the key.
    shared: usize,
    /// How many bytes of the key follow.
    unshared: usize,
    value: usize,
    /// The place behind the lengths.
    text: usize,
}

/// Reads the row at a place of the entries, and puts its key behind the others.
#[tactic(auto, unfolding(crate::specs::Reading::next_at))]
pub fn read_row(
    kind: BlockKind,
    restart: bool,
    last: Option<Place>,
    entries: &[u8],
    at: usize,
    keys: &mut Vec<u8>,
) -> Result<Place, BlockNo>
    requires lies { IfSome last (Lies (length keys.old.items) (length entries.now)) }
    requires within { at ≤ length entries.now }
    ensures answers { Answers (λ p. (row_of keys.new.items entries.now p, drop p.end entries.now)) result (next_at at kind restart (option_map (row_of keys.old.items entries.now) last) (drop at entries.now)) }
    ensures lies { IfOk result (Lies (length keys.new.items) (length entries.now)) }
    ensures grows { OnOk result (take (length keys.old.items) keys.new.items ≡ keys.old.items) }
    ensures behind { IfOk result (λ p. at < p.end) }
    ensures last { IfOk result (λ p. (p.key ≡ length keys.old.items) × (p.key_end ≡ length keys.new.items)) }
{
    let place = put_key(restart, last, entries, at, keys)?;
    if !follows(kind, last, place, entries, keys) {
        return Err(BlockNo::Damaged { at });
    }
    Ok(place)
}

/// Whether the row may stand behind the last one.
fn follows(kind: BlockKind, last: Option<Place>, place: Place, entries: &[u8], keys: &[u8]) -> bool
    requires last { IfSome last (Lies (length keys.now) (length entries.now)) }
    requires lies { Lies (length keys.now) (length entries.now) place }
    ensures { result ≡ follows kind (option_map (row_of keys.now entries.now) last) (row_of keys.now entries.now place) }
{
    let row = row_at(place, entries, keys);
    match last {
        None => suits(kind, row),
        Some(last) => {
            let last = row_at(last, entries, keys);
            suits(kind, row) && precedes(last.key, row.key) && may_follow(kind, last, row)
        }
    }
}

fn row_at<'a>(place: Place, entries: &'a [u8], keys: &'a [u8]) -> RowRef<'a>
    requires { Lies (length keys.now) (length entries.now) place }
    ensures { seen result ≡ row_of keys.now entries.now place }
{
    RowRef {
        key: &keys[place.key..place.key_end],
        value: &entries[place.value..place.end],
    }
}

/// Reads the entry at a place, and puts its key behind the others.
#[tactic(auto, unfolding(crate::specs::Reading::row_at))]
fn put_key(
    restart: bool,
    last: Option<Place>,
    entries: &[u8],
    at: usize,
    keys: &mut Vec<u8>,
) -> Result<Place, BlockNo>
    requires lies { IfSome last (Lies (length keys.old.items) (length entries.now)) }
    requires within { at ≤ length entries.now }
    ensures answers { Answers (λ p. (row_of keys.new.items entries.now p, drop p.end entries.now)) result (row_at at restart (key_of (option_map (row_of keys.old.items entries.now) last)) (drop at entries.now)) }
    ensures lies { IfOk result (Lies (length keys.new.items) (length entries.now)) }
    ensures grows { OnOk result (take (length keys.old.items) keys.new.items ≡ keys.old.items) }
    ensures behind { IfOk result (λ p. at < p.end) }
    ensures last { IfOk result (λ p. (p.key ≡ length keys.old.items) × (p.key_end ≡ length keys.new.items)) }
{
    let lengths = read_lengths(entries, at)?;
    let (from, to) = key_range(last);
    let left = entries.len() - lengths.text;
    if lengths.unshared > left
        || lengths.value > left - lengths.unshared
        || lengths.shared > to - from
    {
        return Err(BlockNo::Damaged { at });
    }
    let value = lengths.text + lengths.unshared;
    let key = keys.len();
    keys.extend_from_within(from..from + lengths.shared)?;
    keys.extend_from_slice(&entries[lengths.text..value])?;
    if left_out(restart, &keys[from..to], &keys[key..]) != lengths.shared {
        return Err(BlockNo::Damaged { at });
    }
    Ok(Place {
        key,
        key_end: keys.len(),
        value,
        end: value + lengths.value,
    })
}

/// Where the last key lies among the keys; where there is none, nowhere.
fn key_range(last: Option<Place>) -> (usize, usize)
    ensures seen { (keys bytes : List ℕ) → slice_range keys result.0 result.1 ≡ key_of (option_map (row_of keys bytes) last) }
    ensures lies { (keys bytes : ℕ) → IfSome last (Lies keys bytes) → (result.0 ≤ result.1) × (result.1 ≤ keys) }
{
    match last {
        Some(last) => (last.key, last.key_end),
        None => (0, 0),
    }
}

#[tactic(auto, unfolding(crate::specs::Reading::lengths_at))]
fn read_lengths(entries: &[u8], at: usize) -> Result<Lengths, BlockNo>
    ensures answers { Answers (λ n. ((n.shared, n.unshared, n.value), drop n.text entries.now)) result (lengths_at at (drop at entries.now)) }
    ensures within { IfOk result (λ n. (at < n.text) × (n.text ≤ length entries.now)) }
{
    let (shared, text) = read_number(entries, at, at)?;
    let (unshared, text) = read_number(entries, text, at)?;
    let (value, text) = read_number(entries, text, at)?;
    Ok(Lengths {
        shared,
        unshared,
        value,
        text,
    })
}

/// The number at a place of the entry that begins at `at`, with the place behind it.
#[tactic(auto, unfolding(crate::specs::Reading::number_at))]
fn read_number(entries: &[u8], from: usize, at: usize) -> Result<(usize, usize), BlockNo>
    ensures answers { Answers (λ x. (x.0, drop x.1 entries.now)) result (number_at at (drop from entries.now)) }
    ensures within { IfOk result (λ x. (from < x.1) × (x.1 ≤ length entries.now)) }
{
    match get_varint(entries, from) {
        Ok((n, next)) => Ok((n as usize, next)),
        Err(_) => Err(BlockNo::Damaged { at }),
    }
}
