ghost use Rattle.std.specs.Prelude.{◌≡◌, [], ◌++◌, nat_lt, ◌&&◌, IsTrue, OnOk, OnErr};
ghost use Rattle.std.specs.List.{All, filter_map, list_any};
ghost use Rattle.xdb_key.specs.Bounds.{meets};
ghost use Rattle.xdb_rangedel.specs.Members.{SameMembers};
ghost use Rattle.xdb_rangedel.specs.Pieces.{is_ordered};
ghost use Rattle.xdb_mem.specs.Blocks.{AreBlocks, spans_of};
ghost use Rattle.xdb_mem.specs.Parts.{part_below};

use crate::index::{self, Block};
use crate::parts;
use std::alloc::{AllocError, Global};
use std::marker::Model;
use xdb_key::{KeyRange, Span};

/// Range deletes in the order of their numbers, with an index by which those that meet a range are found.
#[derive(Debug, Drop)]
pub struct SpanList {
    list: Vec<Span>,
    index: Vec<Block>,
}

impl Model for SpanList {
    ghost use Rattle.std.specs.Prelude.{List};
    ghost use Rattle.xdb_key.specs.Entries.{Tombstone};
    ghost use Rattle.xdb_mem.specs.Blocks.{IsIndex};

    ghost Value = { List Tombstone };

    ghost view = { λ s. s.list.items };

    ghost invariant = { λ s. IsIndex s.list.items s.index.items };
}

impl SpanList {
    pub fn new(alloc: Global) -> Self
        ensures { result ≡ [] }
    {
        SpanList {
            list: Vec::new(alloc),
            index: Vec::new(alloc),
        }
    }

    /// Adds the spans. An error means that memory ran out, and leaves the list as it was.
    pub fn append(&mut self, mut more: Vec<Span>) -> Result<(), AllocError>
        ensures added { OnOk result (self.new ≡ self.old ++ more.items) }
        ensures unchanged { OnErr result (self.new ≡ self.old) }
    {
        // Most commits have none.
        if more.is_empty() {
            return Ok(());
        }
        let before = self.list.len();
        self.list.append(&mut more)?;
        match index::extend(&mut self.index, &self.list, before) {
            Ok(()) => Ok(()),
            Err(error) => {
                self.list.truncate(before);
                Err(error)
            }
        }
    }

    pub fn list(&self) -> &[Span]
        ensures { result.now ≡ self.now }
    {
        &self.list
    }

    /// Adds what the spans with numbers below the limit have in the range, in no order. Spans apart from
    /// the range are skipped.
    pub fn clip(&self, out: &mut Vec<Span>, range: &KeyRange, below: u64) -> Result<(), AllocError>
        ensures parts { OnOk result (SameMembers out.new.items (out.old.items ++ filter_map (part_below range.now below) self.now)) }
        ensures ordered { OnOk result (All (λ t. IsTrue (is_ordered t)) out.old.items → All (λ t. IsTrue (is_ordered t)) out.new.items) }
    {
        clip(out, &self.index, &self.list, range, below)
    }

    /// Whether a span with a number below the limit meets the range. Spans apart from it are skipped.
    pub fn meets(&self, range: &KeyRange, below: u64) -> bool
        ensures { result ≡ list_any (λ t. nat_lt t.seq below && meets t.range range.now) self.now }
    {
        meets(&self.index, &self.list, range, below)
    }
}

fn clip(
    out: &mut Vec<Span>,
    index: &[Block],
    spans: &[Span],
    range: &KeyRange,
    below: u64,
) -> Result<(), AllocError>
    requires { AreBlocks spans.now index.now }
    ensures parts { OnOk result (SameMembers out.new.items (out.old.items ++ filter_map (part_below range.now below) (spans_of spans.now index.now))) }
    ensures ordered { OnOk result (All (λ t. IsTrue (is_ordered t)) out.old.items → All (λ t. IsTrue (is_ordered t)) out.new.items) }
{
    let mut left = index::skip(index, spans, index.len(), range);
    while left > 0 {
        left -= 1;
        parts::add_part(out, index::span(index, spans, left), range, below)?;
        left = index::skip(index, spans, left, range);
    }
    Ok(())
}

fn meets(index: &[Block], spans: &[Span], range: &KeyRange, below: u64) -> bool
    requires { AreBlocks spans.now index.now }
    ensures { result ≡ list_any (λ t. nat_lt t.seq below && meets t.range range.now) (spans_of spans.now index.now) }
{
    let mut left = index::skip(index, spans, index.len(), range);
    while left > 0 {
        left -= 1;
        let span = index::span(index, spans, left);
        if is_met(span, range, below) {
            return true;
        }
        left = index::skip(index, spans, left, range);
    }
    false
}

fn is_met(span: &Span, range: &KeyRange, below: u64) -> bool
    ensures { result ≡ (nat_lt span.now.seq below && meets span.now.range range.now) }
{
    span.seq() < below && span.range().meets(range)
}
