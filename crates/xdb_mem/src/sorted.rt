//! Lists of entries in internal order: by user key, and at one user key the greatest number first, as
//! in LevelDB's and Pebble's memtables.
ghost use Rattle.std.specs.Prelude.{◌≡◌, ◌≤◌, ◌<◌, ◌+◌, ◌&&◌, true, false, [], ◌∷◌, ◌++◌, length, drop, vec_len, vec_capacity, slice_index_or, IsTrue, IsOk, OnOk, OnErr};
ghost use Rattle.std.specs.List.{filter, All};
ghost use Rattle.std.specs.List.Sorted.{IsPartitionPoint};
ghost use Rattle.xdb_key.specs.Bounds.{holds};
ghost use Rattle.xdb_key.specs.Kinds.{trailer};
ghost use Rattle.xdb_key.specs.Order.{is_below};
ghost use Rattle.xdb_rangedel.specs.Members.{SameMembers};
ghost use Rattle.xdb_mem.specs.InOrder.{comes_before, AreInOrder, AreNumbered};

use std::alloc::AllocError;
use xdb_key::{Bound, Entry, KeyRange, compare, is_below};

/// Whether the first stands before the second in internal order.
fn comes_before(a: &Entry, b: &Entry) -> bool
    ensures { result ≡ comes_before a.now b.now }
{
    let by_key = compare(a.key().bytes(), b.key().bytes());
    by_key.then(trailer(b).cmp(&trailer(a))).is_lt()
}

/// The number and the kind behind it.
fn trailer(entry: &Entry) -> u64
    ensures { result ≡ trailer entry.now.seq entry.now.kind }
{
    entry.seq() * 256 + u64::from(entry.kind().code())
}

/// Adds the entry at its place, by one binary search. An entry of the same key, number and kind as
/// one that is there is let go.
pub fn put(entries: &mut Vec<Entry>, entry: Entry) -> Result<(), AllocError>
    requires { AreInOrder entries.old.items }
    ensures order { AreInOrder entries.new.items }
    ensures members { OnOk result (AreNumbered (entries.old.items ++ entry ∷ []) → SameMembers entries.new.items (entries.old.items ++ entry ∷ [])) }
    ensures unchanged { OnErr result (entries.new.items ≡ entries.old.items) }
    // It fails only where there is no room.
    ensures room { vec_len entries.old < vec_capacity entries.old → IsOk result }
    ensures longer { vec_len entries.new ≤ vec_len entries.old + 1 }
    ensures capacity { vec_capacity entries.old ≤ vec_capacity entries.new }
{
    let at = place(entries, &entry);
    if stands_at(entries, at, &entry) {
        return Ok(());
    }
    entries.insert(at, entry)?;
    Ok(())
}

/// How many entries stand before this one. Where it stands behind the last one, no search is done.
fn place(entries: &[Entry], entry: &Entry) -> usize
    requires { AreInOrder entries.now }
    ensures bound { result ≤ length entries.now }
    ensures split { IsPartitionPoint (λ p. comes_before p entry.now ≡ true) (λ p. comes_before p entry.now ≡ false) entries.now result }
{
    if is_last(entries, entry) {
        return entries.len();
    }
    entries.partition_point(|other| comes_before(other, entry))
}

/// Whether the last of the entries stands before this one.
fn is_last(entries: &[Entry], entry: &Entry) -> bool
    requires { AreInOrder entries.now }
    ensures { IsTrue result → All (λ p. comes_before p entry.now ≡ true) entries.now }
{
    let count = entries.len();
    count > 0 && comes_before(&entries[count - 1], entry)
}

/// Whether the entry at the place doesn't stand behind this one.
fn stands_at(entries: &[Entry], at: usize, entry: &Entry) -> bool
    ensures yes { IsTrue result → (at < length entries.now) × (comes_before entry.now (slice_index_or entries.now at entry.now) ≡ false) }
    ensures no { result ≡ false → at < length entries.now → comes_before entry.now (slice_index_or entries.now at entry.now) ≡ true }
{
    if at < entries.len() {
        let other = &entries[at];
        return !comes_before(entry, other);
    }
    false
}

/// The entries whose keys lie in the range: a binary search for the first, and one near it for the end.
pub fn in_range<'a>(entries: &'a [Entry], range: &KeyRange) -> &'a [Entry]
    requires { AreInOrder entries.now }
    ensures { result.now ≡ filter (λ p. holds range.now p.key) entries.now }
{
    let first = first_from(entries, range.lo());
    let rest = &entries[first..];
    let end = near_from(rest, range.hi());
    &rest[..end]
}

/// The same as `first_from`, for a place that is likely near the front: what lies far behind it isn't
/// looked at.
fn near_from(entries: &[Entry], at: &Bound) -> usize
    requires { AreInOrder entries.now }
    ensures bound { result ≤ length entries.now }
    ensures split { IsPartitionPoint (λ p. is_below p.key at.now ≡ true) (λ p. is_below p.key at.now ≡ false) entries.now result }
{
    let reach = reach(entries, at);
    first_from(&entries[..reach], at)
}

/// How many entries have to be searched: the least of 16, 32, 64 and so on from which on no key is below
/// the bound, or all.
fn reach(entries: &[Entry], at: &Bound) -> usize
    requires { AreInOrder entries.now }
    ensures bound { result ≤ length entries.now }
    ensures behind { All (λ p. is_below p.key at.now ≡ false) (drop result entries.now) }
{
    let mut reach = 16;
    while is_below_at(entries, reach, at) {
        reach = reach.saturating_mul(2);
    }
    reach.min(entries.len())
}

/// Whether there is such a place, and the key there is below the bound.
fn is_below_at(entries: &[Entry], place: usize, at: &Bound) -> bool
    requires { AreInOrder entries.now }
    ensures yes { IsTrue result → place < length entries.now }
    ensures no { result ≡ false → All (λ p. is_below p.key at.now ≡ false) (drop place entries.now) }
{
    if place < entries.len() {
        let entry = &entries[place];
        return is_below(entry.key().bytes(), at.bytes());
    }
    false
}

/// The place of the first entry whose key isn't below the bound.
fn first_from(entries: &[Entry], at: &Bound) -> usize
    requires { AreInOrder entries.now }
    ensures bound { result ≤ length entries.now }
    ensures split { IsPartitionPoint (λ p. is_below p.key at.now ≡ true) (λ p. is_below p.key at.now ≡ false) entries.now result }
{
    entries.partition_point(|entry| is_below(entry.key().bytes(), at.bytes()))
}
