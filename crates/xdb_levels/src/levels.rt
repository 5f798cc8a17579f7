ghost use Rattle.std.specs.Prelude.{◌≡◌, ◌≤◌, ◌<◌, ◌⊎◌, [], Some, replicate, IsTrue, IfOk, IfErr, OnOk};
ghost use Rattle.xdb_edit.specs.Plans.{meeting};
ghost use Rattle.xdb_edit.specs.Versions.{edited, applies, tables_of};
ghost use Rattle.xdb_levels.specs.Levels.{IsLevels, met, overlapping};
ghost use Rattle.xdb_levels.specs.Applying.{names_below, refusal};
ghost use Rattle.xdb_levels.specs.declared.error.ApplyNo.TheVariants.{Memory};

use crate::ApplyNo;
use crate::applying::{edited, have_ranges, missing, overlap};
use crate::overlapping::{numbers_meeting, only_meeting};
use crate::tables::Tables;
use smallvec::SmallVec;
use std::alloc::{AllocError, Global};
use std::marker::Model;
use xdb_edit::Edit;
use xdb_key::KeyRange;
use xdb_meta::TableMeta;

/// The tables of an engine, level by level, as `Version` in LevelDB and Pebble. L0 stands in the order of
/// the greatest sequence number and then the number, and its tables may overlap. Every other level stands
/// in the order of where a table begins and then the number, and its tables are apart.
#[derive(Debug, Drop)]
pub struct Levels<const N: usize> {
    levels: [Tables; N],
    alloc: Global,
}

/// The levels of an engine.
pub type Version = Levels<7>;

impl<const N: usize> Model for Levels<N> {
    ghost use Rattle.xdb_edit.specs.Versions.{LevelLists};
    ghost use Rattle.xdb_levels.specs.Levels.{IsLevels};

    ghost Value = { LevelLists };

    ghost view = { λ v. v.levels };

    ghost invariant = { λ v. IsLevels N v.levels };
}

impl<const N: usize> Levels<N> {
    /// Levels without tables. Takes no memory.
    pub fn new(alloc: Global) -> Self
        requires some { 1 ≤ N }
        requires few { N ≤ 16 }
        ensures { result ≡ replicate N [] }
    {
        Levels {
            levels: std::array::from_fn(|_| Tables::none(alloc)),
            alloc,
        }
    }

    /// The allocator that the tables are kept by.
    pub fn allocator(&self) -> Global {
        self.levels[0].allocator()
    }

    /// How many levels there are.
    pub fn count(&self) -> usize
        ensures count { result ≡ N }
        ensures levels { IsLevels N self.now }
    {
        let levels = &self.levels;
        levels.len()
    }

    /// The tables of a level, in its order.
    pub fn tables(&self, level: usize) -> &[TableMeta]
        requires { level < N }
        ensures tables { result.now ≡ tables_of self.now level }
        ensures levels { IsLevels N self.now }
    {
        self.levels[level].list()
    }

    /// The tables of a level among which all those are whose bounds meet the range: above L0 just these, found
    /// by two binary searches; in L0, where tables may overlap, all of its tables. Takes no memory.
    pub fn candidates(&self, level: usize, range: &KeyRange) -> &[TableMeta]
        requires { level < N }
        ensures meeting { meeting range.now result.now ≡ met self.now level range.now }
        ensures above_l0 { 1 ≤ level → result.now ≡ met self.now level range.now }
        ensures levels { IsLevels N self.now }
    {
        let tables = self.levels[level].list();
        if level == 0 {
            tables
        } else {
            only_meeting(tables, range)
        }
    }

    /// The numbers of the tables of a level whose bounds meet the range, in the order of the level. Above
    /// L0 two binary searches find them; in L0 each table is looked at.
    pub fn overlapping(
        &self,
        level: usize,
        range: &KeyRange,
    ) -> Result<SmallVec<u64, 8>, AllocError>
        requires { level < N }
        ensures { IfOk result (λ found. found.items ≡ overlapping self.now level range.now) }
    {
        numbers_meeting(self.allocator(), self.candidates(level, range), range)
    }

    /// The levels after the edit: what it removes goes, what it adds comes, each table at its place. The
    /// first removed table that isn't there is `NoSuchTable`; or else the first two neighbours that meet
    /// afterwards, in the least level above L0 that has such, are `Overlap`. These levels stay as they
    /// are. What stays is copied, so an edit costs as many steps as there are tables.
    pub fn apply(&self, edit: &Edit) -> Result<Self, ApplyNo>
        requires { IsTrue (names_below N edit.now) }
        ensures edited { IfOk result (λ made. made ≡ edited self.now edit.now) }
        ensures levels { IfOk result (IsLevels N) }
        // What the edit removes was there, and what it leaves doesn't overlap.
        ensures applies { OnOk result (IsTrue (applies self.now edit.now)) }
        // Which refusal, where it isn't want of memory.
        ensures refused { IfErr result (λ no. (no ≡ Memory) ⊎ (refusal self.now edit.now ≡ Some no)) }
    {
        prove!(have_ranges(edit.added()));
        if let Some(num) = missing(self.alloc, &self.levels, edit.removed())? {
            return Err(ApplyNo::NoSuchTable { num });
        }
        let levels = edited(self.alloc, &self.levels, edit)?;
        if let Some((a, b)) = overlap(&levels) {
            return Err(ApplyNo::Overlap { a, b });
        }
        Ok(Levels {
            levels,
            alloc: self.alloc,
        })
    }
}
