ghost use Rattle.std.specs.Prelude.{◌≡◌, ℕ, ◌+◌, ◌<◌, ◌≤◌, ◌^◌, ◌==◌, List, [], ◌++◌, length, drop, Option, Some, None, IfOk, OnOk, OnErr, if◌then◌else◌, ◌↔◌, IsSome};
ghost use Rattle.std.specs.List.{list_any};
ghost use Rattle.std.specs.Option.{option_copied};
ghost use Rattle.xdb_key.specs.Groups.{first_touching, last_touching, group_touches};
ghost use Rattle.xdb_key.specs.Ops.{touches};
ghost use Rattle.xdb_key.specs.declared.op.Op.{Op};
ghost use Rattle.xdb_rangedel.specs.Content.{content_of, in_pieces};
ghost use Rattle.xdb_rangedel.specs.Members.{SameMembers};
ghost use Rattle.xdb_rangedel.specs.View.{restricted};
ghost use Rattle.xdb_rangedel.specs.Pieces.{AreFragments, pieces};
ghost use Rattle.xdb_mem.specs.InOrder.{AreInOrder};
ghost use Rattle.xdb_mem.specs.KeptQueue.{groups_from};
ghost use Rattle.xdb_mem.specs.Parts.{picked, clipped, items_below};
ghost use Rattle.xdb_mem.specs.Queue.{Queue, group, groups, all_ops, opening, last_number, committed, sealed_once, first_num, ops_in, IsQueue};

use crate::{Mem, MemParts, parts};
use std::alloc::{AllocError, Global};
use std::marker::Model;
use xdb_batch::Batch;
use xdb_key::{KeyRange, Op};

/// The groups of operations that aren't in a table yet, numbered from 1. The last one is active: it
/// takes what is committed. The others are sealed.
#[derive(Debug, Drop)]
pub struct MemQueue {
    /// The number of the first group.
    oldest: u64,
    /// From the oldest on. There is room for one more where the active group isn't empty.
    sealed: Vec<Mem>,
    active: Mem,
    /// The greatest number that was ever committed.
    greatest: u64,
}

impl Model for MemQueue {
    ghost use Rattle.std.specs.Prelude.{vec_capacity};
    ghost use Rattle.xdb_mem.specs.Queue.{Queue};
    ghost use Rattle.xdb_mem.specs.KeptQueue.{queue_of, IsKept};

    ghost Value = { Queue };

    ghost view = { λ q. queue_of q.oldest q.sealed.items q.active q.greatest };

    ghost invariant = { λ q. IsKept q.oldest q.sealed.items q.active q.greatest (vec_capacity q.sealed) };
}

impl MemQueue {
    /// One empty group, numbered 1. It takes no memory.
    pub fn new(alloc: Global) -> Self
        ensures { result ≡ opening }
    {
        MemQueue {
            oldest: 1,
            sealed: Vec::new(alloc),
            active: Mem::new(alloc),
            greatest: 0,
        }
    }

    /// Adds operation i of the batch, counted from 0, at number `first + i` to the active group, and
    /// makes room for the next seal. An error means that memory ran out, and leaves the queue as it
    /// was.
    pub fn commit(&mut self, first: u64, batch: &Batch) -> Result<(), AllocError>
        requires from { 1 ≤ first }
        requires upto { first + length batch.now ≤ 2 ^ 56 }
        // It is above every number that was ever committed.
        requires above { self.old.greatest < first }
        ensures added { OnOk result (self.new ≡ committed first batch.now self.old) }
        ensures unchanged { OnErr result (self.new ≡ self.old) }
    {
        self.sealed.try_reserve(1)?;
        self.active.insert(first, batch)?;
        self.greatest = last_number(self.greatest, first, batch.ops());
        Ok(())
    }

    /// Seals the active group, and answers its number; none where it is empty. It takes no memory.
    pub fn seal(&mut self) -> Option<u64>
        ensures answer { result ≡ (if length self.old.active.ops == 0 then None else Some self.old.active.num) }
        ensures after { self.new ≡ (if length self.old.active.ops == 0 then self.old else sealed_once self.old) }
    {
        if self.active.is_empty() {
            return None;
        }
        let num = self.oldest + self.sealed.len() as u64;
        let alloc = *self.sealed.allocator();
        let full = std::mem::replace(&mut self.active, Mem::new(alloc));
        let Ok(()) = self.sealed.push(full) else {
            unreachable!()
        };
        Some(num)
    }

    /// The number of the active group.
    pub fn active_group(&self) -> u64
        ensures num { result ≡ self.now.active.num }
        ensures queue { IsQueue self.now }
    {
        self.oldest + self.sealed.len() as u64
    }

    /// How many operations the active group has.
    pub fn active_ops(&self) -> usize
        ensures { result ≡ length self.now.active.ops }
    {
        self.active.len()
    }

    /// The greatest number that was ever committed, and 0 before the first commit.
    pub fn greatest(&self) -> u64
        ensures greatest { result ≡ self.now.greatest }
        ensures queue { IsQueue self.now }
    {
        self.greatest
    }

    /// The number of the oldest sealed group; none where no group is sealed.
    pub fn oldest_sealed(&self) -> Option<u64>
        ensures oldest { result ≡ first_num self.now.sealed }
        ensures some { IsSome result ↔ (1 ≤ length self.now.sealed) }
    {
        if self.sealed.is_empty() {
            None
        } else {
            Some(self.oldest)
        }
    }

    /// Removes the oldest sealed group.
    pub fn drop_oldest(&mut self)
        requires { 1 ≤ length self.old.sealed }
        ensures { self.new ≡ record self.old { sealed = drop 1 self.old.sealed } }
    {
        self.sealed.remove(0);
        self.oldest += 1;
    }

    /// The group of the number; none where there is no such unflushed group.
    pub fn group(&self, g: u64) -> Option<&Mem>
        ensures { option_copied result ≡ ops_in g (groups self.now) }
    {
        if g < self.oldest {
            return None;
        }
        let at = (g - self.oldest) as usize;
        if at < self.sealed.len() {
            return Some(&self.sealed[at]);
        }
        if at == self.sealed.len() {
            return Some(&self.active);
        }
        None
    }

    /// What the groups have in the range, with numbers below the limit. An error means that memory
    /// ran out.
    pub fn parts(&self, range: &KeyRange, below: u64) -> Result<MemParts, AllocError>
        ensures entries { IfOk result (λ parts. SameMembers parts.entries (picked range.now below (all_ops (groups self.now)))) }
        ensures order { IfOk result (λ parts. AreInOrder parts.entries) }
        ensures spans { IfOk result (λ parts. SameMembers parts.spans (pieces (clipped range.now below (all_ops (groups self.now))))) }
        ensures fragments { IfOk result (λ parts. AreFragments parts.spans) }
        // Both together are the content of the operations below the limit, in the range and in pieces.
        ensures content { IfOk result (λ parts. SameMembers (content_of parts.entries parts.spans)
            (in_pieces (restricted range.now (items_below below (all_ops (groups self.now)))))) }
    {
        let alloc = *self.sealed.allocator();
        let entries = parts::picked(alloc, &self.sealed, &self.active, range, below)?;
        let spans = parts::clipped(alloc, &self.sealed, &self.active, range, below)?;
        MemParts::new(alloc, entries, &spans)
    }

    /// The number of the first group with an operation that speaks of a key in one of the ranges.
    pub fn first_touching(&self, ranges: &[KeyRange]) -> Option<u64>
        ensures { result ≡ first_touching ranges.now (groups self.now) }
    {
        let sealed = first_in(self.oldest, &self.sealed, ranges);
        if sealed.is_some() {
            return sealed;
        }
        if touches(&self.active, ranges) {
            Some(self.active_group())
        } else {
            None
        }
    }

    /// The number of the last group with such an operation, numbered below the mark.
    pub fn last_touching(&self, ranges: &[KeyRange], below: u64) -> Option<u64>
        ensures { result ≡ last_touching ranges.now below (groups self.now) }
    {
        if self.active.touches_one_of(ranges, below) {
            Some(self.active_group())
        } else {
            last_in(self.oldest, &self.sealed, ranges, below)
        }
    }
}

/// The number of the last of the operations, which go on from `first`, or the number before them.
fn last_number(before: u64, first: u64, ops: &[Op]) -> u64
    requires { first + length ops.now ≤ 2 ^ 56 }
    ensures { result ≡ last_number before first ops.now }
{
    match ops {
        [] => before,
        [_, rest @ ..] => first + rest.len() as u64,
    }
}

/// Whether an operation speaks of a key in one of the ranges.
fn touches(mem: &Mem, ranges: &[KeyRange]) -> bool
    ensures { result ≡ list_any (λ o. touches o.1 ranges.now) mem.now }
{
    mem.touches_one_of(ranges, u64::MAX)
}

/// The number of the first of the groups, numbered from `oldest` on, with an operation that speaks of
/// a key in one of the ranges.
fn first_in(oldest: u64, groups: &[Mem], ranges: &[KeyRange]) -> Option<u64>
    requires { oldest + length groups.now ≤ 2 ^ 56 }
    ensures { result ≡ first_touching ranges.now (groups_from oldest groups.now) }
{
    let mut num = oldest;
    for mem in groups {
        if touches(mem, ranges) {
            return Some(num);
        }
        num += 1;
    }
    None
}

/// The number of the last of the groups, numbered from `oldest` on, with such an operation, numbered
/// below the mark.
fn last_in(oldest: u64, groups: &[Mem], ranges: &[KeyRange], below: u64) -> Option<u64>
    requires { oldest + length groups.now ≤ 2 ^ 56 }
    ensures { result ≡ last_touching ranges.now below (groups_from oldest groups.now) }
{
    let mut last = None;
    let mut num = oldest;
    for mem in groups {
        if mem.touches_one_of(ranges, below) {
            last = Some(num);
        }
        num += 1;
    }
    last
}
