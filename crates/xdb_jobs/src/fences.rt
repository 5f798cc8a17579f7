//! The fences of open loads.
ghost use Rattle.std.specs.Prelude.{◌≡◌, ◌++◌, [], ◌∷◌, None, IfOk, OnErr, option_copied};
ghost use Rattle.std.specs.List.{list_any};
ghost use Rattle.xdb_key.specs.Bounds.{meets};
ghost use Rattle.xdb_key.specs.Ops.{touches};
ghost use Rattle.xdb_plain.specs.Fences.{any_meet};
ghost use Rattle.xdb_plain.specs.State.{same_name};
ghost use Rattle.xdb_jobs.specs.Fencing.{fence, found_fence, without_fence, first_meeting, first_touched, LoadsDiffer};

use std::alloc::{AllocError, Global};
use std::marker::Model;
use xdb_key::{KeyRange, Name, Op, compare};
use xdb_plain::Items;

/// The ranges that an open load keeps others from.
#[derive(Debug, Drop)]
pub struct Fence {
    pub load: Name,
    pub ranges: Items<KeyRange>,
}

impl Fence {
    fn is_of(&self, load: &Name) -> bool
        ensures { result ≡ same_name self.now.load load.now }
    {
        compare(self.load.bytes(), load.bytes()).is_eq()
    }

    /// Whether one of its ranges meets one of these.
    fn meets(&self, ranges: &[KeyRange]) -> bool
        ensures { result ≡ any_meet self.now.ranges ranges.now }
    {
        self.ranges.list().iter().any(|own| meets_one(own, ranges))
    }

    /// Whether one of the operations touches it.
    fn is_touched(&self, ops: &[Op]) -> bool
        ensures { result ≡ list_any (λ op. touches op self.now.ranges) ops.now }
    {
        let ranges = self.ranges.list();
        ops.iter().any(|op| op.touches(ranges))
    }
}

fn meets_one(range: &KeyRange, others: &[KeyRange]) -> bool
    ensures { result ≡ list_any (meets range.now) others.now }
{
    others.iter().any(|other| range.meets(other))
}

/// The fences of open loads, in the order of opening. No two are of one load.
#[derive(Debug, Drop)]
pub struct Fences {
    fences: Vec<Fence>,
}

impl Model for Fences {
    ghost use Rattle.std.specs.Prelude.{List};
    ghost use Rattle.xdb_jobs.specs.Fencing.{LoadsDiffer};
    ghost use Rattle.xdb_jobs.specs.declared.fences.Fence.{Fence};

    ghost Value = { List Fence };

    ghost view = { λ a. a.fences.items };

    ghost invariant = { λ a. LoadsDiffer a.fences.items };
}

impl Fences {
    /// None. Takes no memory.
    pub fn new(alloc: Global) -> Self
        ensures { result ≡ [] }
    {
        Fences {
            fences: Vec::new(alloc),
        }
    }

    /// The open fences, in the order of opening.
    pub fn list(&self) -> &[Fence]
        ensures list { result.now ≡ self.now }
        // What holds of all open fences.
        ensures loads { LoadsDiffer self.now }
    {
        &self.fences
    }

    /// The fence of the load, where it has one.
    pub fn get(&self, load: Name) -> Option<&Fence>
        ensures { option_copied result ≡ found_fence load self.now }
    {
        self.fences.iter().find(|fence| fence.is_of(&load))
    }

    /// Opens the fence of a load that has none, behind the others.
    pub fn open(&mut self, load: Name, ranges: Vec<KeyRange>) -> Result<(), AllocError>
        requires { found_fence load self.old ≡ None }
        ensures opened { IfOk result (λ _. self.new ≡ self.old ++ fence load ranges.items ∷ []) }
        ensures refused { OnErr result (self.new ≡ self.old) }
    {
        let ranges = Items::new(ranges);
        self.fences.push(Fence { load, ranges })?;
        Ok(())
    }

    /// Closes the fence of the load, where it has one. Takes no memory.
    pub fn close(&mut self, load: Name)
        ensures { self.new ≡ without_fence load self.old }
    {
        self.fences.retain(|fence| !fence.is_of(&load));
    }

    /// The load whose fence is the first, in the order of opening, that meets one of the ranges.
    pub fn first_meeting(&self, ranges: &[KeyRange]) -> Option<Name>
        ensures { result ≡ first_meeting ranges.now self.now }
    {
        let fence = self.fences.iter().find(|fence| fence.meets(ranges))?;
        Some(fence.load)
    }

    /// The load whose fence is the first, in the order of opening, that one of the operations touches.
    pub fn first_touched(&self, ops: &[Op]) -> Option<Name>
        ensures { result ≡ first_touched ops.now self.now }
    {
        let fence = self.fences.iter().find(|fence| fence.is_touched(ops))?;
        Some(fence.load)
    }
}
