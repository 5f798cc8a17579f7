ghost use Rattle.std.specs.Prelude.{◌≡◌, ◌↔◌, ℕ, List, IsTrue, IsOk, IfOk, IfErr};
ghost use Rattle.std.specs.Cmp.Lexicographic.{pointwise, nat_list_eq_equiv, nat_list_cmp_total, texts_ties, texts_po};
ghost use Rattle.std.specs.Prelude.{Some, nat_eq, refl};
ghost use Rattle.std.proofs.Common.{rules};
ghost use Rattle.xdb_key.specs.Limits.{IsKey, IsBound};
ghost use Rattle.xdb_key.specs.Refused.{IsRefused};
ghost use Rattle.xdb_key.specs.Bounds.{key_hull, successor};
ghost use Rattle.xdb_key.specs.Order.{key_cmp};

use crate::{KeyNo, KeyRange, MAX_BOUND, MAX_KEY, compare};
use smallvec::SmallVec;
use std::alloc::{AllocError, Global};
use std::cmp::Ordering;
use std::marker::Model;

/// A user key: 1 to 1,024 bytes, in bytewise order. Up to 16 bytes stand in the key itself.
#[derive(Debug, Drop)]
pub struct Key {
    bytes: SmallVec<u8, 16>,
}

impl Model for Key {
    ghost Value = { List ℕ };

    ghost view = { λ k. k.bytes.items };

    ghost invariant = { λ k. IsKey k.bytes.items };
}

impl Key {
    pub fn new(bytes: Vec<u8>) -> Result<Self, KeyNo>
        ensures made { IfOk result (λ key. key ≡ bytes.items) }
        ensures succeeds { IsKey bytes.items → IsOk result }
        ensures refused { IfErr result (IsRefused MAX_KEY bytes.items) }
    {
        match bytes.len() {
            0 => Err(KeyNo::Empty),
            len if len > MAX_KEY => Err(KeyNo::TooLong { len }),
            _ => Ok(Key {
                bytes: SmallVec::from_vec(bytes),
            }),
        }
    }

    pub fn bytes(&self) -> &[u8]
        ensures bytes { result.now ≡ self.now }
        ensures key { IsKey self.now }
    {
        self.bytes.as_slice()
    }

    /// The allocator that the key is kept by.
    pub fn allocator(&self) -> Global {
        *self.bytes.allocator()
    }

    pub fn copy(&self) -> Result<Self, AllocError>
        ensures { IfOk result (λ key. key ≡ self.now) }
    {
        let bytes = SmallVec::from_slice(*self.bytes.allocator(), self.bytes.as_slice())?;
        Ok(Key { bytes })
    }

    /// The bound just after this key: no other byte string lies between.
    pub fn successor(&self) -> Result<Bound, AllocError>
        ensures { IfOk result (λ bound. bound ≡ successor self.now) }
    {
        let mut bytes = SmallVec::with_capacity(*self.bytes.allocator(), self.bytes.len() + 1)?;
        bytes.extend_from_slice(self.bytes.as_slice())?;
        bytes.push(0)?;
        Ok(Bound { bytes })
    }

    /// The key as a bound: the start of a range that begins with the key.
    pub fn bound(&self) -> Result<Bound, AllocError>
        ensures { IfOk result (λ bound. bound ≡ self.now) }
    {
        let bytes = SmallVec::from_slice(*self.bytes.allocator(), self.bytes.as_slice())?;
        Ok(Bound { bytes })
    }

    /// The range of this key alone.
    pub fn hull(&self) -> Result<KeyRange, AllocError>
        ensures { IfOk result (λ hull. hull ≡ key_hull self.now) }
    {
        let lo = self.bound()?;
        let hi = self.successor()?;
        let Ok(hull) = KeyRange::new(lo, hi) else {
            unreachable!()
        };
        Ok(hull)
    }

    pub fn same(&self, other: &Key) -> bool
        ensures { IsTrue result ↔ (self.now ≡ other.now) }
    {
        self.bytes.as_slice() == other.bytes.as_slice()
    }
}

impl PartialEq for Key {
    ghost eq = { pointwise nat_eq };

    ghost laws = { Prim.search rules };

    fn eq(&self, other: &Key) -> bool {
        self.bytes.as_slice() == other.bytes.as_slice()
    }
}

impl Eq for Key {
    ghost laws = { nat_list_eq_equiv };
}

impl Ord for Key {
    ghost cmp = { key_cmp };

    ghost total = { nat_list_cmp_total };

    ghost matches_partial_cmp = { λ _ _. refl };

    ghost matches_eq = { texts_ties };

    fn cmp(&self, other: &Key) -> Ordering {
        compare(self.bytes.as_slice(), other.bytes.as_slice())
    }
}

impl PartialOrd for Key {
    ghost partial_cmp = { λ x y. Some (key_cmp x y) };

    ghost laws = { texts_po };

    fn partial_cmp(&self, other: &Key) -> Option<Ordering> {
        Some(self.cmp(other))
    }
}

/// An end of a range: 1 to 1,025 bytes, in bytewise order. Up to 16 bytes stand in the bound itself.
#[derive(Debug, Drop)]
pub struct Bound {
    bytes: SmallVec<u8, 16>,
}

impl Model for Bound {
    ghost Value = { List ℕ };

    ghost view = { λ b. b.bytes.items };

    ghost invariant = { λ b. IsBound b.bytes.items };
}

impl Bound {
    pub fn new(bytes: Vec<u8>) -> Result<Self, KeyNo>
        ensures made { IfOk result (λ bound. bound ≡ bytes.items) }
        ensures succeeds { IsBound bytes.items → IsOk result }
        ensures refused { IfErr result (IsRefused MAX_BOUND bytes.items) }
    {
        match bytes.len() {
            0 => Err(KeyNo::Empty),
            len if len > MAX_BOUND => Err(KeyNo::TooLong { len }),
            _ => Ok(Bound {
                bytes: SmallVec::from_vec(bytes),
            }),
        }
    }

    pub fn bytes(&self) -> &[u8]
        ensures bytes { result.now ≡ self.now }
        ensures bound { IsBound self.now }
    {
        self.bytes.as_slice()
    }

    pub fn copy(&self) -> Result<Self, AllocError>
        ensures { IfOk result (λ bound. bound ≡ self.now) }
    {
        let bytes = SmallVec::from_slice(*self.bytes.allocator(), self.bytes.as_slice())?;
        Ok(Bound { bytes })
    }

    pub fn same(&self, other: &Bound) -> bool
        ensures { IsTrue result ↔ (self.now ≡ other.now) }
    {
        self.bytes.as_slice() == other.bytes.as_slice()
    }
}

impl PartialEq for Bound {
    ghost eq = { pointwise nat_eq };

    ghost laws = { Prim.search rules };

    fn eq(&self, other: &Bound) -> bool {
        self.bytes.as_slice() == other.bytes.as_slice()
    }
}

impl Eq for Bound {
    ghost laws = { nat_list_eq_equiv };
}

impl Ord for Bound {
    ghost cmp = { key_cmp };

    ghost total = { nat_list_cmp_total };

    ghost matches_partial_cmp = { λ _ _. refl };

    ghost matches_eq = { texts_ties };

    fn cmp(&self, other: &Bound) -> Ordering {
        compare(self.bytes.as_slice(), other.bytes.as_slice())
    }
}

impl PartialOrd for Bound {
    ghost partial_cmp = { λ x y. Some (key_cmp x y) };

    ghost laws = { texts_po };

    fn partial_cmp(&self, other: &Bound) -> Option<Ordering> {
        Some(self.cmp(other))
    }
}
