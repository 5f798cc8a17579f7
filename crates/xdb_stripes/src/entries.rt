//! Which entries stay. They stand in internal order, so what an older one has to know of the
//! newer ones of its key is known of the one before it.
ghost use Rattle.std.specs.Prelude.{◌≡◌, ℕ, ◌&&◌, ◌||◌, nat_lt, List, not, IfOk, IsTrue};
ghost use Rattle.std.specs.List.{filter, list_any};
ghost use Rattle.std.specs.List.Sorted.{IsNonDecreasing};
ghost use Rattle.xdb_key.specs.Bounds.{holds};
ghost use Rattle.xdb_key.specs.InOrder.{AreInOrder};
ghost use Rattle.xdb_rangedel.specs.Content.{same_key};
ghost use Rattle.xdb_stripes.specs.Steps.{IsEnd, buries_entry, is_kept_entry, is_lost_delete};

use crate::floor::FloorIndex;
use crate::stripes::{end_of_stripe, is_lowest};
use std::alloc::{AllocError, Global};
use xdb_key::{Entry, Key, Kind};
use xdb_rangedel::Fragments;

/// The entries that stay, in their order.
pub fn staying(
    alloc: Global,
    entries: &[Entry],
    spans: &Fragments,
    stripes: &[u64],
    floor: &FloorIndex,
) -> Result<Vec<Entry>, AllocError>
    requires order { AreInOrder entries.now }
    requires rising { IsNonDecreasing stripes.now }
    ensures { IfOk result (λ kept. kept.items
        ≡ filter (is_kept_entry stripes.now floor.now entries.now spans.now) entries.now) }
{
    let mut kept = Vec::new(alloc);
    let mut shadowed = false;
    for at in 0..entries.len() {
        let entry = &entries[at];
        let end = end_of_stripe(stripes, entry.seq());
        shadowed = at > 0 && is_shadowed(entry, &entries[at - 1], shadowed, end);
        if !shadowed && stays(entry, spans, stripes, end, floor) {
            kept.push(entry.copy()?)?;
        }
    }
    Ok(kept)
}

/// Whether a newer entry of the key in the stripe shadows the entry, as told by the entry before
/// it: that one does, or it has the same number and is shadowed itself. `end` is the end of the
/// stripe.
fn is_shadowed(entry: &Entry, before: &Entry, before_is: bool, end: u64) -> bool
    ensures { result ≡ (same_key before.now.key entry.now.key && nat_lt before.now.seq end
        && (nat_lt entry.now.seq before.now.seq || before_is)) }
{
    is_same_key(before.key(), entry.key())
        && before.seq() < end
        && (entry.seq() < before.seq() || before_is)
}

fn is_same_key(a: &Key, b: &Key) -> bool
    ensures { result ≡ same_key a.now b.now }
{
    a.same(b)
}

/// Whether no span of the stripe, which has this end, takes the entry out, and it isn't a delete
/// that hides nothing.
fn stays(entry: &Entry, spans: &Fragments, stripes: &[u64], end: u64, floor: &FloorIndex) -> bool
    requires rising { IsNonDecreasing stripes.now }
    requires end { IsEnd stripes.now entry.now.seq end }
    ensures { result ≡ not (list_any (buries_entry stripes.now entry.now) spans.now
        || is_lost_delete stripes.now floor.now entry.now) }
{
    // That the numbers of the spans are small comes with their list.
    let _spans = spans.list();
    !is_buried(entry, spans, end) && !is_spent(entry, stripes, floor)
}

/// Whether a span with a greater number, below the end, holds the key.
fn is_buried(entry: &Entry, spans: &Fragments, end: u64) -> bool
    ensures { result ≡ list_any (λ t. holds t.range entry.now.key
        && (nat_lt entry.now.seq t.seq && nat_lt t.seq end)) spans.now }
{
    match spans.cover(entry.key(), end) {
        Some(seq) => entry.seq() < seq,
        None => false,
    }
}

/// Whether it is a delete below all stripes, of a key that the floor doesn't hold.
fn is_spent(entry: &Entry, stripes: &[u64], floor: &FloorIndex) -> bool
    requires { IsNonDecreasing stripes.now }
    ensures { result ≡ is_lost_delete stripes.now floor.now entry.now }
{
    entry.kind() != Kind::Set && is_lowest(stripes, entry.seq()) && !floor.holds(entry.key())
}
