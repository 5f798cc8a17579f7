//! What is given for a flush or a compaction, and what comes of it.
use std::alloc::Global;
use std::marker::{Model, PhantomData};
use xdb_device::FileRef;
use xdb_mem::MemParts;
use xdb_meta::TableMeta;
use xdb_order::Work;
use xdb_plain::Items;
use xdb_stripes::Floor;

/// What is given for a build. A flush has the whole content of its group in `mem`, and no tables; a compaction has
/// nothing in `mem`, and its inputs with their files.
#[derive(Drop)]
pub struct JobParts<F: FileRef> {
    mem: MemParts,
    tables: Items<(TableMeta, F)>,
    stripes: Items<u64>,
    floor: Floor,
    first: u64,
    count: u64,
}

impl<F: FileRef> Model for JobParts<F> {
    ghost use Rattle.xdb_build.specs.Given.{Given, IsGiven};

    ghost Value = { Given F };

    ghost view = { λ p. record { mem = p.mem; tables = p.tables; stripes = p.stripes; floor = p.floor; first = p.first; count = p.count } };

    ghost invariant = { λ p. IsGiven (record { mem = p.mem; tables = p.tables; stripes = p.stripes; floor = p.floor; first = p.first; count = p.count }) };
}

impl<F: FileRef> JobParts<F> {
    ghost use Rattle.std.specs.Prelude.{◌≡◌, ◌+◌, ◌^◌, ◌≤◌};
    ghost use Rattle.std.specs.List.Sorted.{IsNonDecreasing};
    ghost use Rattle.xdb_build.specs.Given.{IsGiven};

    /// The stripes are the numbers below which the content is still looked at, the least first. `first` and `count`
    /// are those of the file numbers that are reserved.
    pub fn new(
        mem: MemParts,
        tables: Vec<(TableMeta, F)>,
        stripes: Vec<u64>,
        floor: Floor,
        first: u64,
        count: u64,
    ) -> Self
        requires stripes { IsNonDecreasing stripes.items }
        requires first { 1 ≤ first }
        requires count { 1 ≤ count }
        requires upto { first + count ≤ 2 ^ 56 }
        ensures { result ≡ record { mem = mem; tables = tables.items; stripes = stripes.items; floor = floor; first = first; count = count } }
    {
        JobParts {
            mem,
            tables: Items::new(tables),
            stripes: Items::new(stripes),
            floor,
            first,
            count,
        }
    }

    pub fn mem(&self) -> &MemParts
        ensures { result.now ≡ self.now.mem }
    {
        &self.mem
    }

    /// In the order in which they were given.
    pub fn tables(&self) -> &[(TableMeta, F)]
        ensures { result.now ≡ self.now.tables }
    {
        self.tables.list()
    }

    pub fn stripes(&self) -> &[u64]
        ensures stripes { result.now ≡ self.now.stripes }
        ensures order { IsNonDecreasing self.now.stripes }
    {
        self.stripes.list()
    }

    pub fn floor(&self) -> &Floor
        ensures { result.now ≡ self.now.floor }
    {
        &self.floor
    }

    /// The first reserved file number.
    pub fn first(&self) -> u64
        ensures first { result ≡ self.now.first }
        ensures given { IsGiven self.now }
    {
        self.first
    }

    /// How many file numbers are reserved.
    pub fn count(&self) -> u64
        ensures count { result ≡ self.now.count }
        ensures given { IsGiven self.now }
    {
        self.count
    }
}

/// The tables that were built, in the order of their keys, and the file of each under its number.
#[derive(Drop)]
pub struct Built<F> {
    pub tables: Items<TableMeta>,
    pub files: Items<(u64, F)>,
}

/// The work of writing a group of memtables as a table.
pub struct FlushWork<F> {
    file: PhantomData<F>,
}

impl<F: FileRef> Work for FlushWork<F> {
    ghost use Rattle.xdb_build.specs.Fits.{FitsFlush};

    type In = JobParts<F>;

    type Out = Built<F>;

    ghost fits = { λ given out. FitsFlush F.size F.bytes given out };
}

/// The work of writing a compaction's inputs anew.
pub struct CompactWork<F> {
    file: PhantomData<F>,
}

impl<F: FileRef> Work for CompactWork<F> {
    ghost use Rattle.xdb_build.specs.Fits.{FitsCompaction};

    type In = JobParts<F>;

    type Out = Built<F>;

    ghost fits = { λ given out. FitsCompaction F.size F.bytes given out };
}
