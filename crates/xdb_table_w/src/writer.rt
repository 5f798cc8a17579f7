ghost use Rattle.std.specs.Prelude.{◌≡◌, ◌+◌, ◌^◌, ◌<◌, ◌≤◌, ◌==◌, [], ◌∷◌, ◌++◌, None, length, IfOk, OnOk, OnErr, IsTrue};
ghost use Rattle.xdb_table_w.specs.Content.{point_row, span_row, content, last_of, goes_behind, lies_behind};
ghost use Rattle.xdb_table_w.specs.Extents.{IsExtent};
ghost use Rattle.xdb_table_w.specs.Files.{IsTable};

use crate::INTERVAL;
use crate::extent::{Ends, extent, last_hull};
use crate::file::write_table;
use crate::internal::{is_behind, is_span_behind, set_internal};
use crate::parts::{close, end_block, first_copy, put_first, put_start};
use crate::seqs::{Seqs, both, widened};
use std::alloc::{AllocError, Global};
use std::marker::Model;
use std::mem;
use xdb_block::BlockWriter;
use xdb_key::{Bound, Entry, Extent, Key, Kind, Span};

/// A table file and its extent.
#[derive(Drop)]
pub struct Written {
    pub bytes: Vec<u8>,
    pub extent: Extent,
}

/// A table that is being written, seen as its points and spans so far, each as a row of a block.
#[derive(Drop)]
pub struct TableWriter {
    /// The point blocks that have ended, and the one under way.
    blocks: Vec<BlockWriter>,
    block: BlockWriter,
    spans: BlockWriter,
    /// The first point's key.
    first: Option<Key>,
    /// The start of the first span, and the end of the last one.
    lo: Option<Bound>,
    hi: Option<Bound>,
    point_seqs: Option<Seqs>,
    span_seqs: Option<Seqs>,
    /// The last point's internal key.
    last: Vec<u8>,
    /// Room for an internal key.
    key: Vec<u8>,
}

impl Model for TableWriter {
    ghost use Rattle.xdb_table_w.specs.Content.{Content, content};
    ghost use Rattle.xdb_table_w.specs.Halves.{points_in, IsHalf};

    ghost Value = { Content };

    ghost view = { λ w. content (points_in w.blocks.items w.block) w.spans.rows };

    ghost invariant = { λ w. IsHalf w.blocks.items w.block w.spans w.first w.last.items w.lo w.hi w.point_seqs w.span_seqs };
}

impl TableWriter {
    /// A table of nothing. It takes no memory.
    pub fn new(alloc: Global) -> Self
        ensures { result ≡ content [] [] }
    {
        TableWriter {
            blocks: Vec::new(alloc),
            block: BlockWriter::new(alloc, INTERVAL),
            spans: BlockWriter::new(alloc, INTERVAL),
            first: None,
            lo: None,
            hi: None,
            point_seqs: None,
            span_seqs: None,
            last: Vec::new(alloc),
            key: Vec::new(alloc),
        }
    }

    /// Whether the point's key is greater than the last one's in internal order.
    pub fn can_add(&self, e: &Entry) -> bool
        ensures { result ≡ goes_behind (last_of None self.now.points) (point_row e.now) }
    {
        match self.first {
            None => true,
            Some(_) => is_behind(&self.last, e.key().bytes(), e.seq(), e.kind()),
        }
    }

    /// Adds a point. Points rise in internal order. Where a block would pass 2^32 - 1 bytes, the answer
    /// here or of `finish` is want of memory.
    pub fn add(&mut self, e: &Entry) -> Result<(), AllocError>
        requires order { IsTrue (goes_behind (last_of None self.old.points) (point_row e.now)) }
        ensures added { OnOk result (self.new ≡ content (self.old.points ++ point_row e.now ∷ []) self.old.spans) }
        ensures unchanged { OnErr result (self.new ≡ self.old) }
    {
        let first = first_copy(&self.first, e.key())?;
        self.blocks.try_reserve(1)?;
        set_internal(&mut self.key, e.key().bytes(), e.seq(), e.kind())?;
        self.block.add(&self.key, e.value().bytes())?;
        put_first(&mut self.first, first);
        mem::swap(&mut self.last, &mut self.key);
        self.point_seqs = Some(widened(self.point_seqs, e.seq()));
        end_block(&mut self.blocks, &mut self.block);
        Ok(())
    }

    /// Whether the span may stand behind the last one.
    pub fn can_add_span(&self, s: &Span) -> bool
        ensures { result ≡ lies_behind (last_of None self.now.spans) (span_row s.now) }
    {
        match &self.hi {
            None => true,
            Some(hi) => is_span_behind(self.spans.last_key(), hi.bytes(), s),
        }
    }

    /// Whether nothing was added.
    pub fn is_empty(&self) -> bool
        ensures { result ≡ (length self.now.points + length self.now.spans == 0) }
    {
        self.first.is_none() && self.lo.is_none()
    }

    /// Adds a span. Spans stand in the order of fragments: each has the bounds of the one before it and a
    /// smaller number, or begins where that one ends or behind.
    pub fn add_span(&mut self, s: &Span) -> Result<(), AllocError>
        requires order { IsTrue (lies_behind (last_of None self.old.spans) (span_row s.now)) }
        ensures added { OnOk result (self.new ≡ content self.old.points (self.old.spans ++ span_row s.now ∷ [])) }
        ensures unchanged { OnErr result (self.new ≡ self.old) }
    {
        let lo = s.range().lo().copy()?;
        let hi = s.range().hi().copy()?;
        set_internal(&mut self.key, lo.bytes(), s.seq(), Kind::SpanDel)?;
        self.spans.add(&self.key, hi.bytes())?;
        put_start(&mut self.lo, lo);
        self.hi = Some(hi);
        self.span_seqs = Some(widened(self.span_seqs, s.seq()));
        Ok(())
    }

    /// The table file, and its extent. Something was added.
    pub fn finish(self) -> Result<Written, AllocError>
        requires { 1 ≤ length self.points + length self.spans }
        // The bytes are a table file of what was added.
        ensures table { IfOk result (λ w. IsTable 16 w.bytes.items self) }
        ensures extent { IfOk result (λ w. IsExtent self w.extent) }
        ensures short { IfOk result (λ w. length w.bytes.items < 2 ^ 56) }
    {
        let TableWriter {
            mut blocks,
            block,
            spans,
            first,
            lo,
            hi,
            point_seqs,
            span_seqs,
            ..
        } = self;
        let alloc = *blocks.allocator();
        close(&mut blocks, block)?;
        let (bytes, index) = write_table(alloc, &blocks, &spans)?;
        let last = last_hull(alloc, &index)?;
        let ends = Ends {
            first,
            last,
            lo,
            hi,
        };
        let Some(seqs) = both(point_seqs, span_seqs) else {
            unreachable!();
        };
        let extent = extent(ends, seqs)?;
        Ok(Written { bytes, extent })
    }
}
