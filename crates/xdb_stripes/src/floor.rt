ghost use Rattle.std.specs.Prelude.{◌≡◌, ℕ, List, IsTrue, IfOk, OnOk};
ghost use Rattle.std.specs.List.{All, list_any};
ghost use Rattle.xdb_key.specs.Bounds.{Bounds, meets};
ghost use Rattle.xdb_key.specs.Entries.{Tombstone, tombstone};
ghost use Rattle.xdb_key.specs.Order.{is_below};
ghost use Rattle.xdb_rangedel.specs.Pieces.{AreFragments};
ghost use Rattle.xdb_stripes.specs.Steps.{IsIndex, index_holds, index_meets, at_zero};

use std::alloc::{AllocError, Global};
use std::marker::Model;
use xdb_key::{Key, KeyRange, Span, is_below, is_upto};
use xdb_rangedel::Fragments;

/// Ranges of keys in any order. They may meet.
#[derive(Debug, Drop)]
pub struct KeyRanges {
    ranges: Vec<KeyRange>,
}

impl Model for KeyRanges {
    ghost use Rattle.std.specs.Prelude.{List};
    ghost use Rattle.xdb_key.specs.Bounds.{Bounds};

    ghost Value = { List Bounds };

    ghost view = { λ r. r.ranges.items };
}

impl KeyRanges {
    pub fn new(ranges: Vec<KeyRange>) -> Self
        ensures { result ≡ ranges.items }
    {
        KeyRanges { ranges }
    }

    pub fn list(&self) -> &[KeyRange]
        ensures { result.now ≡ self.now }
    {
        &self.ranges
    }
}

/// Where older content may lie below what is written: at every key, or at the keys of some
/// ranges. A delete stays there, since it may hide something.
#[derive(Debug, Drop)]
pub enum Floor {
    All,
    Ranges(KeyRanges),
}

/// A floor cut into disjoint pieces, each with the number 0, so that a key or a range is found by
/// one binary search.
#[derive(Debug, Drop)]
pub enum FloorIndex {
    Everywhere,
    Within(Fragments),
}

/// Cuts the ranges of a floor at each other's bounds. Takes O(n log n) steps.
pub fn index(alloc: Global, floor: &Floor) -> Result<FloorIndex, AllocError>
    ensures { IfOk result (λ index. IsIndex floor.now index) }
{
    match floor {
        Floor::All => Ok(FloorIndex::Everywhere),
        Floor::Ranges(ranges) => {
            let spans = spans(alloc, ranges.list())?;
            let pieces = Fragments::from_spans(alloc, &spans)?;
            Ok(FloorIndex::Within(pieces))
        }
    }
}

/// A span over each range. All have the number 0.
fn spans(alloc: Global, ranges: &[KeyRange]) -> Result<Vec<Span>, AllocError>
    ensures spans { IfOk result (λ spans. spans.items ≡ at_zero ranges.now) }
    ensures ordered { OnOk result (All (λ r. IsTrue (is_below r.lo r.hi)) ranges.now) }
{
    let mut spans = Vec::with_capacity(alloc, ranges.len())?;
    for range in ranges {
        // That a range starts before it ends comes with its start.
        let _lo = range.lo();
        spans.push(Span::new(range.copy()?, 0))?;
    }
    Ok(spans)
}

impl FloorIndex {
    /// Whether older content may lie at the key.
    pub fn holds(&self, key: &Key) -> bool
        ensures { result ≡ index_holds self.now key.now }
    {
        match self {
            FloorIndex::Everywhere => true,
            FloorIndex::Within(pieces) => pieces.cover(key, 1).is_some(),
        }
    }

    /// Whether older content may lie in the range.
    pub fn meets(&self, range: &KeyRange) -> bool
        ensures { result ≡ index_meets self.now range.now }
    {
        match self {
            FloorIndex::Everywhere => true,
            FloorIndex::Within(pieces) => meets_any(pieces.list(), range),
        }
    }
}

/// Whether one of the fragments meets the range: the first one that ends behind its start decides.
fn meets_any(pieces: &[Span], range: &KeyRange) -> bool
    requires { AreFragments pieces.now }
    ensures { result ≡ list_any (λ t. meets t.range range.now) pieces.now }
{
    let lo = range.lo().bytes();
    let at = pieces.partition_point(|piece| is_upto(piece.range().hi().bytes(), lo));
    if at < pieces.len() {
        let piece = &pieces[at];
        return is_below(piece.range().lo().bytes(), range.hi().bytes());
    }
    false
}
