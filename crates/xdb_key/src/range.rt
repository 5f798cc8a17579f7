ghost use Rattle.std.specs.Prelude.{◌≡◌, ◌↔◌, IsTrue, IfOk, is_ok};
ghost use Rattle.xdb_key.specs.Bounds.{bounds, holds, meets, covers, lesser, greater};
ghost use Rattle.xdb_key.specs.Order.{is_below};

use crate::{Bound, Inverted, Key, is_below, is_upto};
use std::alloc::AllocError;
use std::marker::Model;

/// The keys from a start on and below an end.
#[derive(Debug, Drop)]
pub struct KeyRange {
    lo: Bound,
    hi: Bound,
}

impl Model for KeyRange {
    ghost use Rattle.std.specs.Prelude.{IsTrue};
    ghost use Rattle.xdb_key.specs.Bounds.{Bounds, bounds};
    ghost use Rattle.xdb_key.specs.Order.{is_below};

    ghost Value = { Bounds };

    ghost view = { λ r. bounds r.lo r.hi };

    ghost invariant = { λ r. IsTrue (is_below r.lo r.hi) };
}

impl KeyRange {
    pub fn new(lo: Bound, hi: Bound) -> Result<Self, Inverted>
        ensures made { IfOk result (λ range. range ≡ bounds lo hi) }
        ensures ordered { is_ok result ≡ is_below lo hi }
    {
        if is_below(lo.bytes(), hi.bytes()) {
            Ok(KeyRange { lo, hi })
        } else {
            Err(Inverted)
        }
    }

    pub fn lo(&self) -> &Bound
        ensures lo { result.now ≡ self.now.lo }
        ensures ordered { IsTrue (is_below self.now.lo self.now.hi) }
    {
        &self.lo
    }

    pub fn hi(&self) -> &Bound
        ensures { result.now ≡ self.now.hi }
    {
        &self.hi
    }

    /// Gives the two bounds back, without memory.
    pub fn into_bounds(self) -> (Bound, Bound)
        ensures { result ≡ (self.lo, self.hi) }
    {
        (self.lo, self.hi)
    }

    pub fn copy(&self) -> Result<Self, AllocError>
        ensures { IfOk result (λ range. range ≡ self.now) }
    {
        let lo = self.lo.copy()?;
        let hi = self.hi.copy()?;
        Ok(KeyRange { lo, hi })
    }

    pub fn same(&self, other: &KeyRange) -> bool
        ensures { IsTrue result ↔ (self.now ≡ other.now) }
    {
        self.lo.same(&other.lo) && self.hi.same(&other.hi)
    }

    pub fn meets(&self, o: &KeyRange) -> bool
        ensures { result ≡ meets self.now o.now }
    {
        is_below(self.lo.bytes(), o.hi.bytes()) && is_below(o.lo.bytes(), self.hi.bytes())
    }

    pub fn holds(&self, k: &Key) -> bool
        ensures { result ≡ holds self.now k.now }
    {
        is_upto(self.lo.bytes(), k.bytes()) && is_below(k.bytes(), self.hi.bytes())
    }

    pub fn covers(&self, o: &KeyRange) -> bool
        ensures { result ≡ covers self.now o.now }
    {
        is_upto(self.lo.bytes(), o.lo.bytes()) && is_upto(o.hi.bytes(), self.hi.bytes())
    }
}

/// The lesser of two bounds. By value it is `min`, and the greater `max`, as `Bound` has an order.
pub fn lesser<'a>(a: &'a Bound, b: &'a Bound) -> &'a Bound
    ensures { result.now ≡ lesser a.now b.now }
{
    if is_below(b.bytes(), a.bytes()) { b } else { a }
}

/// The greater of two bounds.
pub fn greater<'a>(a: &'a Bound, b: &'a Bound) -> &'a Bound
    ensures { result.now ≡ greater a.now b.now }
{
    if is_below(a.bytes(), b.bytes()) { b } else { a }
}
