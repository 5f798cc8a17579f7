//! Searches in lists of fragments, and their parts.
ghost use Rattle.std.specs.Prelude.{◌≡◌, ◌≤◌, true, false, length, map, IsTrue, IfOk};
ghost use Rattle.std.specs.List.{All};
ghost use Rattle.std.specs.List.Sorted.{IsPartitionPoint};
ghost use Rattle.xdb_key.specs.Order.{is_below};
ghost use Rattle.xdb_key.specs.Bounds.{meets};
ghost use Rattle.xdb_rangedel.specs.Cover.{cover_of};
ghost use Rattle.xdb_rangedel.specs.Pieces.{AreFragments};
ghost use Rattle.xdb_rangedel.specs.Clip.{starting_from, ending_by, parts_before, parts_from, parts_in};
ghost use Rattle.xdb_rangedel.specs.Sweep.{ends_by, starts_before, is_passed};

use std::alloc::{AllocError, Global};
use xdb_key::{Bound, Key, KeyRange, Span, is_below, is_upto};

/// The greatest number below the limit of a fragment that holds the key.
pub fn cover(spans: &[Span], key: &Key, below: u64) -> Option<u64>
    requires { AreFragments spans.now }
    ensures { result ≡ cover_of spans.now key.now below }
{
    let at = first_open(spans, key, below);
    if at < spans.len() {
        let span = &spans[at];
        if span.range().holds(key) {
            return Some(span.seq());
        }
    }
    None
}

/// The place of the first fragment that isn't passed.
fn first_open(spans: &[Span], key: &Key, below: u64) -> usize
    requires { AreFragments spans.now }
    ensures bound { result ≤ length spans.now }
    ensures split { IsPartitionPoint (λ t. is_passed key.now below t ≡ true) (λ t. is_passed key.now below t ≡ false) spans.now result }
{
    spans.partition_point(|span| is_passed(span, key, below))
}

/// The place of the first fragment that ends behind the bound.
fn first_behind(spans: &[Span], at: &Bound) -> usize
    requires { AreFragments spans.now }
    ensures bound { result ≤ length spans.now }
    ensures split { IsPartitionPoint (λ t. ends_by at.now t ≡ true) (λ t. ends_by at.now t ≡ false) spans.now result }
{
    spans.partition_point(|span| ends_by(span, at.bytes()))
}

/// The place of the first fragment that starts at the bound or behind it.
fn first_from(spans: &[Span], at: &Bound) -> usize
    requires { AreFragments spans.now }
    ensures bound { result ≤ length spans.now }
    ensures split { IsPartitionPoint (λ t. starts_before at.now t ≡ true) (λ t. starts_before at.now t ≡ false) spans.now result }
{
    spans.partition_point(|span| starts_before(span, at.bytes()))
}

/// Whether the fragment stands before each one that holds the key at a number below the limit: it
/// ends at the key or before, or starts there or before and its number isn't below the limit.
fn is_passed(span: &Span, key: &Key, below: u64) -> bool
    ensures { result ≡ is_passed key.now below span.now }
{
    ends_by(span, key.bytes())
        || (is_upto(span.range().lo().bytes(), key.bytes()) && below <= span.seq())
}

fn ends_by(span: &Span, at: &[u8]) -> bool
    ensures { result ≡ ends_by at.now span.now }
{
    is_upto(span.range().hi().bytes(), at)
}

fn starts_before(span: &Span, at: &[u8]) -> bool
    ensures { result ≡ starts_before at.now span.now }
{
    is_below(span.range().lo().bytes(), at)
}

/// What the fragments have in the range.
pub fn inside(alloc: Global, spans: &[Span], range: &KeyRange) -> Result<Vec<Span>, AllocError>
    requires { AreFragments spans.now }
    ensures parts { IfOk result (λ made. made.items ≡ parts_in range.now spans.now) }
    ensures fragments { IfOk result (λ made. AreFragments made.items) }
{
    let first = first_behind(spans, range.lo());
    let rest = &spans[first..];
    let end = first_from(rest, range.hi());
    all_inside(alloc, &rest[..end], range)
}

/// What the fragments have before the bound.
pub fn before(alloc: Global, spans: &[Span], at: &Bound) -> Result<Vec<Span>, AllocError>
    requires { AreFragments spans.now }
    ensures parts { IfOk result (λ made. made.items ≡ parts_before at.now spans.now) }
    ensures fragments { IfOk result (λ made. AreFragments made.items) }
{
    let end = first_from(spans, at);
    all_ending_by(alloc, &spans[..end], at)
}

/// What the fragments have from the bound on.
pub fn from(alloc: Global, spans: &[Span], at: &Bound) -> Result<Vec<Span>, AllocError>
    requires { AreFragments spans.now }
    ensures parts { IfOk result (λ made. made.items ≡ parts_from at.now spans.now) }
    ensures fragments { IfOk result (λ made. AreFragments made.items) }
{
    let first = first_behind(spans, at);
    all_starting_from(alloc, &spans[first..], at)
}

/// The spans without what lies outside the range, which each of them meets.
fn all_inside(alloc: Global, spans: &[Span], range: &KeyRange) -> Result<Vec<Span>, AllocError>
    requires { All (λ t. IsTrue (meets t.range range.now)) spans.now }
    ensures { IfOk result (λ made. made.items ≡ map (λ t. starting_from range.now.lo (ending_by range.now.hi t)) spans.now) }
{
    let mut out = Vec::with_capacity(alloc, spans.len())?;
    for span in spans {
        let part = ending_by(span.copy()?, range.hi())?;
        out.push(starting_from(part, range.lo())?)?;
    }
    Ok(out)
}

/// The spans without what lies from the bound on, before which each of them starts.
fn all_ending_by(alloc: Global, spans: &[Span], at: &Bound) -> Result<Vec<Span>, AllocError>
    requires { All (λ t. IsTrue (starts_before at.now t)) spans.now }
    ensures { IfOk result (λ made. made.items ≡ map (ending_by at.now) spans.now) }
{
    let mut out = Vec::with_capacity(alloc, spans.len())?;
    for span in spans {
        out.push(ending_by(span.copy()?, at)?)?;
    }
    Ok(out)
}

/// The spans without what lies before the bound, behind which each of them ends.
fn all_starting_from(alloc: Global, spans: &[Span], at: &Bound) -> Result<Vec<Span>, AllocError>
    requires { All (λ t. IsTrue (is_below at.now t.range.hi)) spans.now }
    ensures { IfOk result (λ made. made.items ≡ map (starting_from at.now) spans.now) }
{
    let mut out = Vec::with_capacity(alloc, spans.len())?;
    for span in spans {
        out.push(starting_from(span.copy()?, at)?)?;
    }
    Ok(out)
}

/// The span without what lies from the bound on.
fn ending_by(span: Span, at: &Bound) -> Result<Span, AllocError>
    requires { IsTrue (is_below span.range.lo at.now) }
    ensures { IfOk result (λ part. part ≡ ending_by at.now span) }
{
    if !is_below(at.bytes(), span.range().hi().bytes()) {
        return Ok(span);
    }
    let seq = span.seq();
    let (lo, _) = span.into_range().into_bounds();
    let Ok(range) = KeyRange::new(lo, at.copy()?) else {
        unreachable!()
    };
    Ok(Span::new(range, seq))
}

/// The span without what lies before the bound.
fn starting_from(span: Span, at: &Bound) -> Result<Span, AllocError>
    requires { IsTrue (is_below at.now span.range.hi) }
    ensures { IfOk result (λ part. part ≡ starting_from at.now span) }
{
    if !is_below(span.range().lo().bytes(), at.bytes()) {
        return Ok(span);
    }
    let seq = span.seq();
    let (_, hi) = span.into_range().into_bounds();
    let Ok(range) = KeyRange::new(at.copy()?, hi) else {
        unreachable!()
    };
    Ok(Span::new(range, seq))
}
