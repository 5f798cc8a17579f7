ghost use Rattle.std.specs.Prelude.{◌≡◌, ◌≢◌, ◌↔◌, ◌<◌, ◌≤◌, ◌^◌, IsTrue, IfOk};
ghost use Rattle.xdb_key.specs.Entries.{reach, IsReach};
ghost use Rattle.xdb_key.specs.Limits.{IsBound};
ghost use Rattle.xdb_meta.specs.Table.{IsTable, physical, virtual, bounds_of, is_number, is_seq, is_synthetic};

use std::alloc::AllocError;
use std::marker::Model;
use xdb_key::{Bound, Extent, KeyRange, MAX_BOUND};

/// One more than the greatest number.
const END: u64 = 1 << 56;

/// What is known of a table without reading it, as `TableMetadata` in Pebble's manifest. A physical
/// table has a file of its own, under its number. A virtual table is a part of another table's file,
/// which is its backing; so several tables may share one file.
#[derive(Debug, Drop)]
pub struct TableMeta {
    num: u64,
    backing: u64,
    extent: Extent,
    synthetic: u64,
    size: u64,
    virt: bool,
}

impl Model for TableMeta {
    ghost use Rattle.xdb_meta.specs.Table.{Table, table, IsTable};

    ghost Value = { Table };

    ghost view = { λ t. table t.num t.backing t.extent t.synthetic t.size t.virt };

    ghost invariant = { λ t. IsTable (table t.num t.backing t.extent t.synthetic t.size t.virt) };
}

impl TableMeta {
    /// A table in a file of its own. Its size is that of its file, in bytes. A synthetic number stands
    /// for the number of each entry and tombstone; 0 is none.
    pub fn physical(num: u64, extent: Extent, synthetic: u64, size: u64) -> Self
        requires num { IsTrue (is_number num) }
        requires synthetic { IsTrue (is_synthetic extent.seq_lo extent.seq_hi synthetic) }
        requires size { IsTrue (is_number size) }
        ensures { result ≡ physical num extent synthetic size }
    {
        prove!(are_bounded(&extent));
        TableMeta {
            num,
            backing: num,
            extent,
            synthetic,
            size,
            virt: false,
        }
    }

    /// A part of the file of table `backing`. Its size is an estimate.
    pub fn virtual_(num: u64, backing: u64, extent: Extent, synthetic: u64, size: u64) -> Self
        requires num { IsTrue (is_number num) }
        requires backing { IsTrue (is_number backing) }
        requires other { backing ≢ num }
        requires synthetic { IsTrue (is_synthetic extent.seq_lo extent.seq_hi synthetic) }
        requires size { IsTrue (is_number size) }
        ensures { result ≡ virtual num backing extent synthetic size }
    {
        prove!(are_bounded(&extent));
        TableMeta {
            num,
            backing,
            extent,
            synthetic,
            size,
            virt: true,
        }
    }

    pub fn num(&self) -> u64
        ensures num { result ≡ self.now.num }
        ensures table { IsTable self.now }
    {
        self.num
    }

    /// The table whose file it lies in; its own number where it is physical.
    pub fn backing(&self) -> u64
        ensures backing { result ≡ self.now.backing }
        ensures number { IsTrue (is_number self.now.backing) }
    {
        self.backing
    }

    /// The keys and numbers that its content lies within.
    pub fn extent(&self) -> &Extent
        ensures { result.now ≡ reach (bounds_of self.now) self.now.seq_lo self.now.seq_hi }
    {
        &self.extent
    }

    pub fn range(&self) -> &KeyRange
        ensures { result.now ≡ bounds_of self.now }
    {
        self.extent.range()
    }

    pub fn lo(&self) -> &Bound
        ensures { result.now ≡ self.now.lo }
    {
        self.extent.lo()
    }

    pub fn hi(&self) -> &Bound
        ensures { result.now ≡ self.now.hi }
    {
        self.extent.hi()
    }

    pub fn seq_lo(&self) -> u64
        ensures seq_lo { result ≡ self.now.seq_lo }
        ensures small { self.now.seq_lo < 2 ^ 56 }
    {
        self.extent.seq_lo()
    }

    pub fn seq_hi(&self) -> u64
        ensures seq_hi { result ≡ self.now.seq_hi }
        ensures small { self.now.seq_hi < 2 ^ 56 }
        ensures ordered { self.now.seq_lo ≤ self.now.seq_hi }
    {
        self.extent.seq_hi()
    }

    /// The number that stands for all numbers in the file; 0 is none.
    pub fn synthetic(&self) -> u64
        ensures synthetic { result ≡ self.now.synthetic }
        ensures small { self.now.synthetic < 2 ^ 56 }
    {
        self.synthetic
    }

    /// In bytes.
    pub fn size(&self) -> u64
        ensures size { result ≡ self.now.size }
        ensures number { IsTrue (is_number self.now.size) }
    {
        self.size
    }

    /// Whether it lies in another table's file.
    pub fn virt(&self) -> bool
        ensures { result ≡ self.now.virt }
    {
        self.virt
    }

    pub fn copy(&self) -> Result<Self, AllocError>
        ensures { IfOk result (λ table. table ≡ self.now) }
    {
        let extent = self.extent.copy()?;
        Ok(TableMeta {
            num: self.num,
            backing: self.backing,
            extent,
            synthetic: self.synthetic,
            size: self.size,
            virt: self.virt,
        })
    }

    pub fn same(&self, other: &TableMeta) -> bool
        ensures { IsTrue result ↔ (self.now ≡ other.now) }
    {
        self.num == other.num
            && self.backing == other.backing
            && same_extent(&self.extent, &other.extent)
            && self.synthetic == other.synthetic
            && self.size == other.size
            && self.virt == other.virt
    }
}

/// Whether both ends of the extent have a bound's length, as each bound has.
fn are_bounded(extent: &Extent) -> bool
    ensures bounded { IsTrue result }
    ensures reach { IsReach extent.now }
    ensures lo { IsBound extent.now.lo }
    ensures hi { IsBound extent.now.hi }
{
    extent.lo().bytes().len() <= MAX_BOUND && extent.hi().bytes().len() <= MAX_BOUND
}

fn same_extent(a: &Extent, b: &Extent) -> bool
    ensures { IsTrue result ↔ (a.now ≡ b.now) }
{
    a.range().same(b.range()) && a.seq_lo() == b.seq_lo() && a.seq_hi() == b.seq_hi()
}

/// Whether it may be a file's number or a table's size.
pub fn is_number(n: u64) -> bool
    ensures { result ≡ is_number n }
{
    1 <= n && n < END
}

/// Whether it may be a sequence number.
pub fn is_seq(n: u64) -> bool
    ensures { result ≡ is_seq n }
{
    n < END
}

/// Whether it may be the synthetic number of a table with these least and greatest numbers.
pub fn is_synthetic(seq_lo: u64, seq_hi: u64, n: u64) -> bool
    ensures { result ≡ is_synthetic seq_lo seq_hi n }
{
    n == 0 || n == seq_lo && n == seq_hi
}
