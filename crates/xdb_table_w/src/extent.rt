//! The extent of a table, from its first and last rows.
ghost use Rattle.std.specs.Prelude.{◌≡◌, ◌||◌, ◌≤◌, ◌<◌, ◌^◌, [], true, length, IfOk, IsTrue, is_some};
ghost use Rattle.xdb_key.specs.Bounds.{bounds};
ghost use Rattle.xdb_key.specs.Entries.{reach};
ghost use Rattle.xdb_key.specs.Limits.{IsKey};
ghost use Rattle.xdb_key.specs.Order.{is_below};
ghost use Rattle.xdb_block.specs.Kept.{last_key};
ghost use Rattle.xdb_block.specs.Rows.{user_part};
ghost use Rattle.xdb_table_w.specs.Extents.{lesser, greater, hull_end};

use crate::seqs::Seqs;
use std::alloc::{AllocError, Global};
use xdb_block::{BlockWriter, key_parts};
use xdb_key::{Bound, Extent, Key, KeyRange, is_below};

/// The bounds of points and of spans, where there are any.
#[derive(Drop)]
pub struct Ends {
    /// The first key.
    pub first: Option<Key>,
    /// The end of the last key's hull.
    pub last: Option<Bound>,
    /// The start of the first span, and the end of the last one.
    pub lo: Option<Bound>,
    pub hi: Option<Bound>,
}

/// The least range with the ends, and the numbers.
pub fn extent(ends: Ends, seqs: Seqs) -> Result<Extent, AllocError>
    requires some_lo { (is_some ends.first || is_some ends.lo) ≡ true }
    requires some_hi { (is_some ends.last || is_some ends.hi) ≡ true }
    requires ordered { IsTrue (is_below (lesser ends.first ends.lo) (greater ends.last ends.hi)) }
    requires numbers { seqs.lo ≤ seqs.hi }
    requires small { seqs.hi < 2 ^ 56 }
    ensures { IfOk result (λ e. e ≡ reach (bounds (lesser ends.first ends.lo) (greater ends.last ends.hi)) seqs.lo seqs.hi) }
{
    let lo = lesser(ends.first, ends.lo)?;
    let hi = greater(ends.last, ends.hi);
    let Ok(range) = KeyRange::new(lo, hi) else {
        unreachable!();
    };
    Ok(Extent::new(range, seqs.lo, seqs.hi))
}

fn lesser(key: Option<Key>, bound: Option<Bound>) -> Result<Bound, AllocError>
    requires { (is_some key || is_some bound) ≡ true }
    ensures { IfOk result (λ b. b ≡ lesser key bound) }
{
    match (key, bound) {
        (None, Some(bound)) => Ok(bound),
        (Some(key), None) => key.bound(),
        (Some(key), Some(bound)) => {
            if is_below(key.bytes(), bound.bytes()) {
                key.bound()
            } else {
                Ok(bound)
            }
        }
        (None, None) => unreachable!(),
    }
}

fn greater(a: Option<Bound>, b: Option<Bound>) -> Bound
    requires { (is_some a || is_some b) ≡ true }
    ensures { result ≡ greater a b }
{
    match (a, b) {
        (None, Some(bound)) | (Some(bound), None) => bound,
        (Some(a), Some(b)) => { if is_below(a.bytes(), b.bytes()) { b } else { a } }
        (None, None) => unreachable!(),
    }
}

/// The end of the hull of the last key of the index, if it has a row.
pub fn last_hull(alloc: Global, index: &BlockWriter) -> Result<Option<Bound>, AllocError>
    requires { 1 ≤ length index.now.rows → IsKey (user_part (last_key [] index.now.rows)) }
    ensures { IfOk result (λ b. b ≡ hull_end index.now.rows) }
{
    if index.count() == 0 {
        return Ok(None);
    }
    let (user, _) = key_parts(index.last_key());
    let mut bytes = Vec::from_slice(alloc, user)?;
    bytes.push(0)?;
    let Ok(bound) = Bound::new(bytes) else {
        unreachable!();
    };
    Ok(Some(bound))
}
