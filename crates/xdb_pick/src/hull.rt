//! Ranges that grow over others.
ghost use Rattle.std.specs.Prelude.{◌≡◌, IsTrue, IfOk};
ghost use Rattle.std.specs.List.{list_any};
ghost use Rattle.xdb_key.specs.Bounds.{meets};
ghost use Rattle.xdb_key.specs.Order.{is_below};
ghost use Rattle.xdb_pick.specs.Hulls.{lent, wider, swept};

use std::alloc::AllocError;
use std::marker::Model;
use xdb_key::{Bound, KeyRange, greater, is_below, lesser};

/// A range that may still grow. Its ends are those of other ranges, so growing takes no memory.
#[derive(Drop)]
pub struct Hull<'a> {
    lo: &'a Bound,
    hi: &'a Bound,
}

impl<'a> Model for Hull<'a> {
    ghost use Rattle.std.specs.Prelude.{IsTrue};
    ghost use Rattle.xdb_key.specs.Bounds.{Bounds, bounds};
    ghost use Rattle.xdb_key.specs.Order.{is_below};

    ghost Value = { Bounds };

    ghost view = { λ h. bounds h.lo.now h.hi.now };

    ghost invariant = { λ h. IsTrue (is_below h.lo.now h.hi.now) };
}

impl<'a> Hull<'a> {
    pub fn of(range: &'a KeyRange) -> Self
        ensures { result ≡ range.now }
    {
        Hull {
            lo: range.lo(),
            hi: range.hi(),
        }
    }

    pub fn meets(&self, range: &KeyRange) -> bool
        ensures { result ≡ meets self.now range.now }
    {
        is_below(self.lo.bytes(), range.hi().bytes())
            && is_below(range.lo().bytes(), self.hi.bytes())
    }

    /// The least range with both.
    pub fn wider(self, range: &'a KeyRange) -> Self
        ensures { result ≡ wider self.entry range.now }
    {
        Hull {
            lo: lesser(self.lo, range.lo()),
            hi: greater(self.hi, range.hi()),
        }
    }

    /// Whether it begins before it ends, as each hull does.
    pub fn has_key(&self) -> bool
        ensures all { IsTrue result }
        ensures has_key { IsTrue (is_below self.now.lo self.now.hi) }
    {
        is_below(self.lo.bytes(), self.hi.bytes())
    }

    /// The hull, widened by each of the ranges that it meets, one after the other.
    pub fn swept(self, ranges: &[&'a KeyRange]) -> Self
        ensures { result ≡ swept self.entry (lent ranges.now) }
    {
        let mut hull = self;
        for range in ranges {
            if hull.meets(range) {
                hull = hull.wider(range);
            }
        }
        hull
    }

    pub fn range(&self) -> Result<KeyRange, AllocError>
        ensures { IfOk result (λ range. range ≡ self.now) }
    {
        let lo = self.lo.copy()?;
        let hi = self.hi.copy()?;
        let Ok(range) = KeyRange::new(lo, hi) else {
            unreachable!()
        };
        Ok(range)
    }
}

/// Whether the range meets one of the others.
pub fn meets_one(range: &KeyRange, others: &[KeyRange]) -> bool
    ensures { result ≡ list_any (meets range.now) others.now }
{
    others.iter().any(|other| range.meets(other))
}
