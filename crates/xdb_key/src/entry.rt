ghost use Rattle.std.specs.Prelude.{◌≡◌, ◌↔◌, ◌<◌, ◌≤◌, ◌^◌, [], IsTrue, IfOk};
ghost use Rattle.xdb_key.specs.Bounds.{bounds};
ghost use Rattle.xdb_key.specs.Entries.{point, tombstone, reach, IsPoint, IsReach};
ghost use Rattle.xdb_key.specs.InOrder.{comes_before};
ghost use Rattle.xdb_key.specs.Kinds.{trailer};

use crate::{Bound, Key, KeyRange, Kind, Val, compare};
use std::alloc::AllocError;
use std::marker::Model;
use std::sync::Arc;

/// A point: what is said of one key at one number. Its kind is `Set`, or `Del` without a value.
/// Copies share what they say.
#[derive(Debug, Drop)]
pub struct Entry {
    said: Arc<Said>,
}

/// What an entry says.
#[derive(Debug, Drop)]
struct Said {
    key: Key,
    seq: u64,
    kind: Kind,
    value: Val,
}

impl Model for Entry {
    ghost use Rattle.std.specs.Arc.{arc_value};
    ghost use Rattle.xdb_key.specs.Entries.{Point, point, IsPoint};

    ghost Value = { Point };

    ghost view = { λ e. let said = arc_value e.said in point said.key said.seq said.kind said.value };

    ghost invariant = { λ e. let said = arc_value e.said in IsPoint (point said.key said.seq said.kind said.value) };
}

impl Entry {
    pub fn set(key: Key, seq: u64, value: Val) -> Result<Self, AllocError>
        requires { seq < 2 ^ 56 }
        ensures { IfOk result (λ entry. entry ≡ point key seq Kind.Set value) }
    {
        let kind = Kind::Set;
        let said = Arc::new(
            key.allocator(),
            Said {
                key,
                seq,
                kind,
                value,
            },
        )?;
        Ok(Entry { said })
    }

    /// A delete at the number.
    pub fn del(key: Key, seq: u64) -> Result<Self, AllocError>
        requires { seq < 2 ^ 56 }
        ensures { IfOk result (λ entry. entry ≡ point key seq Kind.Del []) }
    {
        let alloc = key.allocator();
        let value = Val::empty(alloc);
        let kind = Kind::Del;
        let said = Arc::new(
            alloc,
            Said {
                key,
                seq,
                kind,
                value,
            },
        )?;
        Ok(Entry { said })
    }

    pub fn key(&self) -> &Key
        ensures { result.now ≡ self.now.key }
    {
        &self.said.key
    }

    pub fn seq(&self) -> u64
        ensures seq { result ≡ self.now.seq }
        ensures small { self.now.seq < 2 ^ 56 }
        ensures point { IsPoint self.now }
    {
        self.said.seq
    }

    pub fn kind(&self) -> Kind
        ensures { result ≡ self.now.kind }
    {
        self.said.kind
    }

    pub fn value(&self) -> &Val
        ensures { result.now ≡ self.now.value }
    {
        &self.said.value
    }

    /// The number and the kind behind it, as internal keys have them in their last 8 bytes.
    pub fn trailer(&self) -> u64
        ensures { result ≡ trailer self.now.seq self.now.kind }
    {
        self.said.seq * 256 + u64::from(self.said.kind.code())
    }

    /// Whether it stands before the other in internal order.
    pub fn comes_before(&self, other: &Entry) -> bool
        ensures { result ≡ comes_before self.now other.now }
    {
        compare(self.key().bytes(), other.key().bytes())
            .then(other.trailer().cmp(&self.trailer()))
            .is_lt()
    }

    /// An equal entry, which shares the bytes. It takes no memory; an error means that there are as
    /// many copies as may be.
    pub fn copy(&self) -> Result<Self, AllocError>
        ensures { IfOk result (λ entry. entry ≡ self.now) }
    {
        let said = Arc::try_clone(&self.said)?;
        Ok(Entry { said })
    }
}

/// A range tombstone: each key of the range is deleted at the number.
#[derive(Debug, Drop)]
pub struct Span {
    range: KeyRange,
    seq: u64,
}

impl Model for Span {
    ghost use Rattle.std.specs.Prelude.{◌<◌, ◌^◌};
    ghost use Rattle.xdb_key.specs.Entries.{Tombstone, tombstone};

    ghost Value = { Tombstone };

    ghost view = { λ s. tombstone s.range s.seq };

    ghost invariant = { λ s. s.seq < 2 ^ 56 };
}

impl Span {
    pub fn new(range: KeyRange, seq: u64) -> Self
        requires { seq < 2 ^ 56 }
        ensures { result ≡ tombstone range seq }
    {
        Span { range, seq }
    }

    pub fn range(&self) -> &KeyRange
        ensures { result.now ≡ self.now.range }
    {
        &self.range
    }

    pub fn seq(&self) -> u64
        ensures seq { result ≡ self.now.seq }
        ensures small { self.now.seq < 2 ^ 56 }
    {
        self.seq
    }

    /// Gives the range back, without memory.
    pub fn into_range(self) -> KeyRange
        ensures { result ≡ self.range }
    {
        self.range
    }

    pub fn copy(&self) -> Result<Self, AllocError>
        ensures { IfOk result (λ span. span ≡ self.now) }
    {
        let range = self.range.copy()?;
        Ok(Span {
            range,
            seq: self.seq,
        })
    }
}

/// What a file's content lies within: its keys, and the numbers of its entries and tombstones.
#[derive(Debug, Drop)]
pub struct Extent {
    range: KeyRange,
    seq_lo: u64,
    seq_hi: u64,
}

impl Model for Extent {
    ghost use Rattle.std.specs.Prelude.{◌<◌, ◌≤◌, ◌^◌};
    ghost use Rattle.xdb_key.specs.Entries.{Reach, reach};

    ghost Value = { Reach };

    ghost view = { λ e. reach e.range e.seq_lo e.seq_hi };

    ghost invariant = { λ e. (e.seq_lo ≤ e.seq_hi) × (e.seq_hi < 2 ^ 56) };
}

impl Extent {
    pub fn new(range: KeyRange, seq_lo: u64, seq_hi: u64) -> Self
        requires numbers { seq_lo ≤ seq_hi }
        requires small { seq_hi < 2 ^ 56 }
        ensures { result ≡ reach range seq_lo seq_hi }
    {
        Extent {
            range,
            seq_lo,
            seq_hi,
        }
    }

    pub fn range(&self) -> &KeyRange
        ensures { result.now ≡ bounds self.now.lo self.now.hi }
    {
        &self.range
    }

    pub fn lo(&self) -> &Bound
        ensures lo { result.now ≡ self.now.lo }
        ensures reach { IsReach self.now }
    {
        self.range.lo()
    }

    pub fn hi(&self) -> &Bound
        ensures { result.now ≡ self.now.hi }
    {
        self.range.hi()
    }

    pub fn seq_lo(&self) -> u64
        ensures { result ≡ self.now.seq_lo }
    {
        self.seq_lo
    }

    pub fn seq_hi(&self) -> u64
        ensures { result ≡ self.now.seq_hi }
    {
        self.seq_hi
    }

    pub fn copy(&self) -> Result<Self, AllocError>
        ensures { IfOk result (λ extent. extent ≡ self.now) }
    {
        let range = self.range.copy()?;
        Ok(Extent {
            range,
            seq_lo: self.seq_lo,
            seq_hi: self.seq_hi,
        })
    }
}
