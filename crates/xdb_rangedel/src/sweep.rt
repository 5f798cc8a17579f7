//! From spans to their fragments: the bounds are sorted, and each gap between neighbouring bounds
//! gets the numbers of the spans over it, the greatest first.
ghost use Rattle.std.specs.Prelude.{◌≡◌, ◌≤◌, ◌<◌, ◌^◌, ◌+◌, ◌-◌, ◌==◌, ◌&&◌, ℕ, [], ◌∷◌, ◌++◌, length, map, replicate, slice_index_or, IsTrue, IfOk, OnOk, if◌then◌else◌};
ghost use Rattle.std.specs.List.{All, AllPairs};
ghost use Rattle.xdb_key.specs.Order.{is_below};
ghost use Rattle.xdb_rangedel.specs.Members.{SameMembers};
ghost use Rattle.xdb_rangedel.specs.Pieces.{AreFragments, pieces, ends, is_ordered};
ghost use Rattle.xdb_rangedel.specs.Sweep.{place_of, laid, over_gap, is_between, IsRising, strip_of, FitsGaps, comes_first, AreColumns};

use std::alloc::{AllocError, Global};
use std::cmp::Reverse;
use std::marker::Model;
use xdb_key::{Bound, KeyRange, Span, is_below};

/// A span between bounds: it lies over the gaps from the place of its start on and before the place
/// of its end. In order of these, the greatest number comes first.
#[derive(Clone, Copy, Debug, PartialEq, Eq, PartialOrd, Ord)]
struct Strip {
    number: Reverse<u64>,
    from: usize,
    to: usize,
}

/// The numbers of the spans over one gap, falling.
#[derive(Debug, Drop)]
struct Column {
    numbers: Vec<u64>,
}

impl Model for Column {
    ghost use Rattle.std.specs.Prelude.{List, ℕ, ◌<◌, ◌^◌};
    ghost use Rattle.std.specs.List.{All};

    ghost Value = { List ℕ };

    ghost view = { λ c. c.numbers.items };

    ghost invariant = { λ c. All (λ n. n < 2 ^ 56) c.numbers.items };
}

/// The fragments of the spans, in order.
pub fn fragments(alloc: Global, spans: &[Span]) -> Result<Vec<Span>, AllocError>
    ensures fragments { IfOk result (λ made. AreFragments made.items) }
    ensures pieces { IfOk result (λ made. SameMembers made.items (pieces spans.now)) }
{
    let bounds = sorted_ends(alloc, spans)?;
    let strips = sorted_strips(alloc, spans, &bounds)?;
    let columns = columns(alloc, &strips, bounds.len())?;
    lay(alloc, &bounds, &columns)
}

/// The starts and ends of the spans.
fn all_ends(alloc: Global, spans: &[Span]) -> Result<Vec<Bound>, AllocError>
    ensures ends { IfOk result (λ made. made.items ≡ ends spans.now) }
    ensures ordered { OnOk result (All (λ t. IsTrue (is_ordered t)) spans.now) }
{
    let mut bounds = Vec::with_capacity(alloc, spans.len().saturating_mul(2))?;
    for span in spans {
        bounds.push(span.range().lo().copy()?)?;
        bounds.push(span.range().hi().copy()?)?;
    }
    Ok(bounds)
}

/// The starts and ends of the spans, rising, each once.
fn sorted_ends(alloc: Global, spans: &[Span]) -> Result<Vec<Bound>, AllocError>
    ensures ends { IfOk result (λ made. SameMembers made.items (ends spans.now)) }
    ensures rising { IfOk result (λ made. IsRising made.items) }
    ensures ordered { OnOk result (All (λ t. IsTrue (is_ordered t)) spans.now) }
{
    let mut bounds = all_ends(alloc, spans)?;
    bounds.sort_unstable();
    bounds.dedup();
    Ok(bounds)
}

/// How many of the bounds stand before this one.
fn place(bounds: &[Bound], bound: &Bound) -> usize
    requires { IsRising bounds.now }
    ensures { result ≡ place_of bounds.now bound.now }
{
    bounds.partition_point(|other| is_below(other.bytes(), bound.bytes()))
}

/// The spans as strips.
fn strips(alloc: Global, spans: &[Span], bounds: &[Bound]) -> Result<Vec<Strip>, AllocError>
    requires { IsRising bounds.now }
    ensures strips { IfOk result (λ made. made.items ≡ map (strip_of bounds.now) spans.now) }
    ensures fit { IfOk result (λ made. All (FitsGaps (length bounds.now)) made.items) }
{
    let mut strips = Vec::with_capacity(alloc, spans.len())?;
    for span in spans {
        strips.push(Strip {
            number: Reverse(span.seq()),
            from: place(bounds, span.range().lo()),
            to: place(bounds, span.range().hi()),
        })?;
    }
    Ok(strips)
}

/// The spans as strips, the greatest number first, and of one number the first start.
fn sorted_strips(alloc: Global, spans: &[Span], bounds: &[Bound]) -> Result<Vec<Strip>, AllocError>
    requires { IsRising bounds.now }
    ensures strips { IfOk result (λ made. SameMembers made.items (map (strip_of bounds.now) spans.now)) }
    ensures fit { IfOk result (λ made. All (FitsGaps (length bounds.now)) made.items) }
    ensures order { IfOk result (λ made. AllPairs (λ s t. IsTrue (comes_first s t)) made.items) }
{
    let mut strips = strips(alloc, spans, bounds)?;
    strips.sort_unstable();
    Ok(strips)
}

/// For each gap the numbers of the strips over it, falling. What an earlier strip of the same number
/// reached isn't visited again, so the steps are as many as the strips and the numbers found.
fn columns(alloc: Global, strips: &[Strip], gaps: usize) -> Result<Vec<Column>, AllocError>
    requires fit { All (FitsGaps gaps) strips.now }
    requires order { AllPairs (λ s t. IsTrue (comes_first s t)) strips.now }
    ensures { IfOk result (λ made. AreColumns strips.now gaps made.items) }
{
    let mut columns = empty_columns(alloc, gaps)?;
    let mut number = 0;
    let mut reached = 0;
    for strip in strips {
        let Reverse(seq) = strip.number;
        let done = reached_with(seq, number, reached);
        write(&mut columns, strip.from.max(done), strip.to, seq)?;
        number = seq;
        reached = strip.to.max(done);
    }
    Ok(columns)
}

/// Up to where the columns have the number already, if it is that of the strip before.
fn reached_with(seq: u64, number: u64, reached: usize) -> usize
    ensures { result ≡ (if seq == number then reached else 0) }
{
    if seq == number { reached } else { 0 }
}

fn empty_columns(alloc: Global, gaps: usize) -> Result<Vec<Column>, AllocError>
    ensures { IfOk result (λ made. made.items ≡ replicate gaps []) }
{
    let mut columns = Vec::with_capacity(alloc, gaps)?;
    for _gap in 0..gaps {
        let numbers = Vec::new(alloc);
        columns.push(Column { numbers })?;
    }
    Ok(columns)
}

/// Writes the number to each column from one place on and before another.
fn write(columns: &mut [Column], from: usize, to: usize, seq: u64) -> Result<(), AllocError>
    requires inside { to ≤ length columns.old }
    requires small { seq < 2 ^ 56 }
    ensures { OnOk result ((j : ℕ) → slice_index_or columns.new j []
        ≡ slice_index_or columns.old j [] ++ (if is_between from to j then seq ∷ [] else [])) }
{
    for at in from..to {
        let column = &mut columns[at];
        column.numbers.push(seq)?;
    }
    Ok(())
}

/// The fragments over each gap, gap by gap.
fn lay(alloc: Global, bounds: &[Bound], columns: &[Column]) -> Result<Vec<Span>, AllocError>
    requires rising { IsRising bounds.now }
    requires count { length columns.now ≡ length bounds.now }
    ensures { IfOk result (λ made. made.items ≡ laid bounds.now columns.now (length bounds.now - 1)) }
{
    let mut out = Vec::new(alloc);
    for end in 1..bounds.len() {
        lay_gap(&mut out, &bounds[end - 1], &bounds[end], &columns[end - 1])?;
    }
    Ok(out)
}

/// Appends a span from the one bound to the other for each number.
fn lay_gap(out: &mut Vec<Span>, lo: &Bound, hi: &Bound, column: &Column) -> Result<(), AllocError>
    requires { IsTrue (is_below lo.now hi.now) }
    ensures { OnOk result (out.new.items ≡ out.old.items ++ over_gap lo.now hi.now column.now) }
{
    for seq in &column.numbers {
        let Ok(range) = KeyRange::new(lo.copy()?, hi.copy()?) else {
            unreachable!()
        };
        out.push(Span::new(range, *seq))?;
    }
    Ok(())
}
