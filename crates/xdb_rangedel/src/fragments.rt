ghost use Rattle.std.specs.Prelude.{◌≡◌, ◌<◌, ◌^◌, ℕ, List, Some, None, IsTrue, IfOk, if◌then◌else◌};
ghost use Rattle.std.specs.List.{All};
ghost use Rattle.xdb_key.specs.Bounds.{holds};
ghost use Rattle.xdb_key.specs.Order.{is_below, is_upto};
ghost use Rattle.xdb_key.specs.Entries.{Tombstone};
ghost use Rattle.xdb_rangedel.specs.Members.{SameMembers};
ghost use Rattle.xdb_rangedel.specs.Cover.{cover_of};
ghost use Rattle.xdb_rangedel.specs.Pieces.{AreFragments, pieces};
ghost use Rattle.xdb_rangedel.specs.Clip.{parts_before, parts_from, parts_in};

use crate::{parts, sweep};
use std::alloc::{AllocError, Global};
use std::marker::Model;
use xdb_key::{Bound, Key, KeyRange, Span};

/// Range tombstones cut into pieces at their bounds, as in Pebble's `keyspan.Fragmenter`: in order of
/// start, and at one start the greatest number first. Two of them have equal bounds and different
/// numbers, or are disjoint, so what covers a key is found by one binary search.
#[derive(Debug, Drop)]
pub struct Fragments {
    spans: Vec<Span>,
}

impl Model for Fragments {
    ghost Value = { List Tombstone };

    ghost view = { λ f. f.spans.items };

    ghost invariant = { λ f. AreFragments f.spans.items × All (λ t. t.seq < 2 ^ 56) f.spans.items };
}

impl Fragments {
    /// Cuts each span at every bound of a span that lies inside it. Of pieces with equal bounds and
    /// equal numbers one is kept. Takes O(n log n) steps and one for each fragment.
    pub fn from_spans(alloc: Global, spans: &[Span]) -> Result<Self, AllocError>
        ensures pieces { IfOk result (λ made. SameMembers made (pieces spans.now)) }
        ensures fragments { IfOk result AreFragments }
        ensures cover { IfOk result (λ made. (key : List ℕ) (limit : ℕ)
            → cover_of made key limit ≡ cover_of spans.now key limit) }
    {
        let spans = sweep::fragments(alloc, spans)?;
        prove!(are_small(&spans));
        Ok(Fragments { spans })
    }

    /// The greatest number below the limit of a span that holds the key, by one binary search.
    pub fn cover(&self, key: &Key, below: u64) -> Option<u64>
        ensures { result ≡ cover_of self.now key.now below }
    {
        parts::cover(&self.spans, key, below)
    }

    /// What the spans have in the range.
    pub fn clip(&self, range: &KeyRange) -> Result<Self, AllocError>
        ensures clipped { IfOk result (λ part. part ≡ parts_in range.now self.now) }
        ensures cover { IfOk result (λ part. (key : List ℕ) (limit : ℕ) → cover_of part key limit
            ≡ (if holds range.now key then cover_of self.now key limit else None)) }
    {
        let spans = parts::inside(*self.spans.allocator(), &self.spans, range)?;
        prove!(are_small(&spans));
        Ok(Fragments { spans })
    }

    /// What the spans have before the bound, and what they have from it on.
    pub fn cut(&self, at: &Bound) -> Result<(Self, Self), AllocError>
        ensures left { IfOk result (λ halves. halves.0 ≡ parts_before at.now self.now) }
        ensures right { IfOk result (λ halves. halves.1 ≡ parts_from at.now self.now) }
        ensures left_cover { IfOk result (λ halves. (key : List ℕ) (limit : ℕ) → cover_of halves.0 key limit
            ≡ (if is_below key at.now then cover_of self.now key limit else None)) }
        ensures right_cover { IfOk result (λ halves. (key : List ℕ) (limit : ℕ) → cover_of halves.1 key limit
            ≡ (if is_upto at.now key then cover_of self.now key limit else None)) }
    {
        let left = parts::before(*self.spans.allocator(), &self.spans, at)?;
        let right = parts::from(*self.spans.allocator(), &self.spans, at)?;
        prove!(are_small(&left));
        prove!(are_small(&right));
        Ok((Fragments { spans: left }, Fragments { spans: right }))
    }

    /// The fragments in order.
    pub fn list(&self) -> &[Span]
        ensures list { result.now ≡ self.now }
        ensures fragments { AreFragments self.now }
        ensures small { All (λ t. t.seq < 2 ^ 56) self.now }
    {
        &self.spans
    }
}

/// Whether each number is a sequence number, as that of each span is.
fn are_small(spans: &[Span]) -> bool
    ensures all { IsTrue result }
    ensures small { All (λ t. t.seq < 2 ^ 56) spans.now }
{
    for span in spans {
        if span.seq() >= 1 << 56 {
            return false;
        }
    }
    true
}
