ghost use Rattle.std.specs.Prelude.{◌≡◌, ◌+◌, ◌<◌, ◌≤◌, ◌^◌, ◌&&◌, ◌==◌, List, [], ◌++◌, length, nat_lt, vec_len, vec_capacity, IfOk, OnOk, OnErr};
ghost use Rattle.std.specs.List.{list_any};
ghost use Rattle.xdb_key.specs.Bounds.{meets};
ghost use Rattle.xdb_key.specs.Ops.{op_hull, touches};
ghost use Rattle.xdb_rangedel.specs.Members.{SameMembers};
ghost use Rattle.xdb_rangedel.specs.Pieces.{AreFragments, pieces};
ghost use Rattle.xdb_mem.specs.Numbered.{numbered, greatest_of, RisesWithin, points, spans};
ghost use Rattle.xdb_mem.specs.InOrder.{AreInOrder, AreNumbered};

use crate::span_list::SpanList;
use crate::{MemParts, numbering, sorted};
use std::alloc::{AllocError, Global};
use std::marker::Model;
use xdb_batch::Batch;
use xdb_key::{Entry, KeyRange, Span};

/// A memtable: the operations of one group, seen as the list of them with their sequence numbers.
#[derive(Debug, Drop)]
pub struct Mem {
    /// In internal order.
    entries: Vec<Entry>,
    /// In the order of their numbers.
    spans: SpanList,
    /// How many operations there are.
    len: usize,
}

impl Model for Mem {
    ghost use Rattle.std.specs.Prelude.{◌≡◌, ℕ, List, length};
    ghost use Rattle.xdb_key.specs.declared.op.Op.{Op};
    ghost use Rattle.xdb_mem.specs.Held.{ops_of, IsHeld};

    ghost Value = { List (ℕ × Op) };

    ghost view = { λ m. ops_of m.entries.items m.spans };

    ghost invariant = { λ m. IsHeld (ops_of m.entries.items m.spans) m.entries.items m.spans
        × (m.len ≡ length (ops_of m.entries.items m.spans)) };
}

impl Mem {
    /// No operations. It takes no memory.
    pub fn new(alloc: Global) -> Self
        ensures { result ≡ [] }
    {
        Mem {
            entries: Vec::new(alloc),
            spans: SpanList::new(alloc),
            len: 0,
        }
    }

    /// Adds the batch's operations, numbered from `first` on. Each key and value is copied once. An
    /// entry's place is found by one binary search; the entries behind it move by one place, 8 bytes
    /// each. An error means that memory ran out, and leaves the memtable as it was.
    pub fn insert(&mut self, first: u64, batch: &Batch) -> Result<(), AllocError>
        requires from { 1 ≤ first }
        requires upto { first + length batch.now ≤ 2 ^ 56 }
        requires above { greatest_of self.old < first }
        ensures added { OnOk result (self.new ≡ self.old ++ numbered first batch.now) }
        ensures unchanged { OnErr result (self.new ≡ self.old) }
    {
        let alloc = *self.entries.allocator();
        let ops = batch.ops();
        let entries = numbering::entries(alloc, first, ops)?;
        let spans = numbering::spans(alloc, first, ops)?;
        self.entries.try_reserve(entries.len())?;
        self.spans.append(spans)?;
        put_all(&mut self.entries, entries);
        self.len += ops.len();
        Ok(())
    }

    /// How many operations there are.
    pub fn len(&self) -> usize
        ensures { result ≡ length self.now }
    {
        self.len
    }

    pub fn is_empty(&self) -> bool
        ensures { result ≡ (length self.now == 0) }
    {
        self.len == 0
    }

    /// The sets and deletes in internal order: by user key, and at one user key the greatest number
    /// first.
    pub fn entries(&self) -> &[Entry]
        ensures members { SameMembers result.now (points self.now) }
        ensures order { AreInOrder result.now }
        ensures numbers { RisesWithin 1 (2 ^ 56) self.now }
    {
        &self.entries
    }

    /// The range deletes, in the order of their numbers.
    pub fn spans(&self) -> &[Span]
        ensures { result.now ≡ spans self.now }
    {
        self.spans.list()
    }

    /// The range deletes with their index.
    pub(crate) fn span_list(&self) -> &SpanList
        ensures { result.now ≡ spans self.now }
    {
        &self.spans
    }

    /// The whole content: a share of each entry, and fragments. An error means that memory ran out.
    pub fn parts(&self) -> Result<MemParts, AllocError>
        ensures entries { IfOk result (λ parts. SameMembers parts.entries (points self.now)) }
        ensures order { IfOk result (λ parts. AreInOrder parts.entries) }
        ensures spans { IfOk result (λ parts. SameMembers parts.spans (pieces (spans self.now))) }
        ensures fragments { IfOk result (λ parts. AreFragments parts.spans) }
    {
        let alloc = *self.entries.allocator();
        let entries = copied(alloc, self.entries())?;
        MemParts::new(alloc, entries, self.spans())
    }

    /// Whether an operation numbered below the mark speaks of a key of the range. Keys are found by
    /// binary search, range deletes by their index.
    pub fn touches(&self, range: &KeyRange, below: u64) -> bool
        ensures { result ≡ list_any (λ o. nat_lt o.0 below && meets (op_hull o.1) range.now) self.now }
    {
        let keys = sorted::in_range(&self.entries, range);
        any_below(keys, below) || self.spans.meets(range, below)
    }

    /// Whether an operation numbered below the mark speaks of a key in one of the ranges.
    pub(crate) fn touches_one_of(&self, ranges: &[KeyRange], below: u64) -> bool
        ensures touches { result ≡ list_any (λ o. nat_lt o.0 below && touches o.1 ranges.now) self.now }
        ensures numbers { RisesWithin 1 (2 ^ 56) self.now }
    {
        // With a field comes what every memtable keeps.
        let _ = &self.len;
        any_touched(self, ranges, below)
    }
}

fn copied(alloc: Global, entries: &[Entry]) -> Result<Vec<Entry>, AllocError>
    ensures { IfOk result (λ made. made.items ≡ entries.now) }
{
    let mut out = Vec::with_capacity(alloc, entries.len())?;
    for entry in entries {
        out.push(entry.copy()?)?;
    }
    Ok(out)
}

/// Adds the entries, for which there is room.
fn put_all(entries: &mut Vec<Entry>, mut new: Vec<Entry>)
    requires order { AreInOrder entries.old.items }
    requires numbers { AreNumbered (entries.old.items ++ new.items) }
    requires room { vec_len entries.old + vec_len new ≤ vec_capacity entries.old }
    ensures order { AreInOrder entries.new.items }
    ensures members { SameMembers entries.new.items (entries.old.items ++ new.items) }
{
    new.reverse();
    while let Some(entry) = new.pop() {
        let Ok(()) = sorted::put(entries, entry) else {
            unreachable!()
        };
    }
}

fn any_touched(mem: &Mem, ranges: &[KeyRange], below: u64) -> bool
    ensures { result ≡ list_any (λ r. list_any (λ o. nat_lt o.0 below && meets (op_hull o.1) r) mem.now) ranges.now }
{
    ranges.iter().any(|range| mem.touches(range, below))
}

fn any_below(entries: &[Entry], below: u64) -> bool
    ensures { result ≡ list_any (λ p. nat_lt p.seq below) entries.now }
{
    entries.iter().any(|entry| entry.seq() < below)
}
