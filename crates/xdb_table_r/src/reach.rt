//! The extent of points and spans.
ghost use Rattle.std.specs.Prelude.{◌≡◌, List, ◌++◌, map, IfOk};
ghost use Rattle.xdb_key.specs.Entries.{Reach};
ghost use Rattle.xdb_table_r.specs.Reaches.{point_reach, span_reach, reaches, IsExtentOf, joined, widened};

use std::alloc::AllocError;
use std::marker::Model;
use xdb_key::{Bound, Entry, Extent, KeyRange, Span};

/// Bounds and numbers so far.
#[derive(Drop)]
pub struct Reaching {
    lo: Bound,
    hi: Bound,
    seq_lo: u64,
    seq_hi: u64,
}

impl Model for Reaching {
    ghost use Rattle.xdb_key.specs.Bounds.{bounds};
    ghost use Rattle.xdb_key.specs.Entries.{Reach, reach, IsReach};

    ghost Value = { Reach };

    ghost view = { λ r. reach (bounds r.lo r.hi) r.seq_lo r.seq_hi };

    ghost invariant = { λ r. IsReach (reach (bounds r.lo r.hi) r.seq_lo r.seq_hi) };
}

/// The extent of points and spans, None where there are none.
pub fn extent(points: &[Entry], spans: &[Span]) -> Result<Option<Extent>, AllocError>
    ensures { IfOk result (IsExtentOf (reaches points.now spans.now)) }
{
    let so_far = all_points(points)?;
    let all = with_spans(so_far, spans)?;
    match all {
        None => Ok(None),
        Some(all) => Ok(Some(finished(all))),
    }
}

fn all_points(points: &[Entry]) -> Result<Option<Reaching>, AllocError>
    ensures { IfOk result (IsExtentOf (map point_reach points.now)) }
{
    let mut so_far = None;
    for point in points {
        let one = of_point(point)?;
        so_far = Some(widened(so_far, one));
    }
    Ok(so_far)
}

fn with_spans(so_far: Option<Reaching>, spans: &[Span]) -> Result<Option<Reaching>, AllocError>
    ensures { (before : List Reach) → IsExtentOf before so_far → IfOk result (IsExtentOf (before ++ map span_reach spans.now)) }
{
    let mut so_far = so_far;
    for span in spans {
        let one = of_span(span)?;
        so_far = Some(widened(so_far, one));
    }
    Ok(so_far)
}

fn finished(all: Reaching) -> Extent
    ensures { result ≡ all }
{
    let Reaching {
        lo,
        hi,
        seq_lo,
        seq_hi,
    } = all;
    let Ok(range) = KeyRange::new(lo, hi) else {
        unreachable!()
    };
    Extent::new(range, seq_lo, seq_hi)
}

fn of_point(point: &Entry) -> Result<Reaching, AllocError>
    ensures { IfOk result (λ r. r ≡ point_reach point.now) }
{
    let lo = point.key().bound()?;
    let hi = point.key().successor()?;
    let seq = point.seq();
    Ok(Reaching {
        lo,
        hi,
        seq_lo: seq,
        seq_hi: seq,
    })
}

fn of_span(span: &Span) -> Result<Reaching, AllocError>
    ensures { IfOk result (λ r. r ≡ span_reach span.now) }
{
    let (lo, hi) = span.range().copy()?.into_bounds();
    let seq = span.seq();
    Ok(Reaching {
        lo,
        hi,
        seq_lo: seq,
        seq_hi: seq,
    })
}

fn widened(so_far: Option<Reaching>, one: Reaching) -> Reaching
    ensures { result ≡ widened so_far one }
{
    match so_far {
        None => one,
        Some(so_far) => joined(so_far, one),
    }
}

/// The least bounds and numbers of both.
fn joined(a: Reaching, b: Reaching) -> Reaching
    ensures { result ≡ joined a b }
{
    Reaching {
        lo: a.lo.min(b.lo),
        hi: b.hi.max(a.hi),
        seq_lo: a.seq_lo.min(b.seq_lo),
        seq_hi: a.seq_hi.max(b.seq_hi),
    }
}
