//! Which fragments stay. Those with equal bounds stand beside each other, the greatest number
//! first, so the one before a fragment tells whether another is left over the piece.
ghost use Rattle.std.specs.Prelude.{◌≡◌, ◌<◌, ◌^◌, ◌&&◌, nat_lt, IfOk};
ghost use Rattle.std.specs.List.{All, filter};
ghost use Rattle.std.specs.List.Sorted.{IsNonDecreasing};
ghost use Rattle.xdb_rangedel.specs.Pieces.{AreFragments};
ghost use Rattle.xdb_stripes.specs.Thinned.{same_bounds};
ghost use Rattle.xdb_stripes.specs.Steps.{is_kept_span, is_lost_span};

use crate::floor::FloorIndex;
use crate::stripes::{end_of_stripe, is_lowest};
use std::alloc::{AllocError, Global};
use xdb_key::{KeyRange, Span};
use xdb_rangedel::Fragments;

/// The fragments that stay, in their order.
pub fn staying(
    alloc: Global,
    spans: &Fragments,
    stripes: &[u64],
    floor: &FloorIndex,
) -> Result<Fragments, AllocError>
    requires { IsNonDecreasing stripes.now }
    ensures { IfOk result (λ kept. kept
        ≡ filter (is_kept_span stripes.now floor.now spans.now) spans.now) }
{
    let kept = picked(alloc, spans.list(), stripes, floor)?;
    Fragments::from_spans(alloc, &kept)
}

fn picked(
    alloc: Global,
    spans: &[Span],
    stripes: &[u64],
    floor: &FloorIndex,
) -> Result<Vec<Span>, AllocError>
    requires fragments { AreFragments spans.now }
    requires small { All (λ t. t.seq < 2 ^ 56) spans.now }
    requires rising { IsNonDecreasing stripes.now }
    ensures { IfOk result (λ kept. kept.items
        ≡ filter (is_kept_span stripes.now floor.now spans.now) spans.now) }
{
    let mut kept = Vec::new(alloc);
    for at in 0..spans.len() {
        let span = &spans[at];
        let end = end_of_stripe(stripes, span.seq());
        let repeated = at > 0 && is_repeated(span, &spans[at - 1], end);
        if !repeated && !is_spent(span, stripes, floor) {
            kept.push(span.copy()?)?;
        }
    }
    Ok(kept)
}

/// Whether the fragment before has the same bounds and a number below the end of the stripe.
fn is_repeated(span: &Span, before: &Span, end: u64) -> bool
    ensures { result ≡ (same_bounds before.now.range span.now.range && nat_lt before.now.seq end) }
{
    is_same_range(before.range(), span.range()) && before.seq() < end
}

fn is_same_range(a: &KeyRange, b: &KeyRange) -> bool
    ensures { result ≡ same_bounds a.now b.now }
{
    a.same(b)
}

/// Whether it lies below all stripes and meets no range of the floor.
fn is_spent(span: &Span, stripes: &[u64], floor: &FloorIndex) -> bool
    requires { IsNonDecreasing stripes.now }
    ensures { result ≡ is_lost_span stripes.now floor.now span.now }
{
    is_lowest(stripes, span.seq()) && !floor.meets(span.range())
}
