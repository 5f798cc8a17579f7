//! The block of spans.
ghost use Rattle.std.specs.Prelude.{◌≡◌, ◌≤◌, true, [], None, IfOk, IfSome, IsErrOf};
ghost use Rattle.xdb_block.specs.declared.kind.BlockKind.{BlockKind};
ghost use Rattle.xdb_block.specs.Rows.{row, suits, Follow};
ghost use Rattle.xdb_device.specs.Counted.{Counted};
ghost use Rattle.xdb_table_r.specs.Parts.{behind};
ghost use Rattle.xdb_table_r.specs.Opening.{Tells, tombstone_of, tombstones, spans_at};

use crate::TableNo;
use crate::part::Part;
use crate::read::read_block;
use std::alloc::{AllocError, Global};
use xdb_block::{Block, BlockKind, key_parts};
use xdb_device::Reader;
use xdb_key::{Bound, KeyRange, Span};
use xdb_rangedel::Fragments;

/// The spans of a file, none where their block is left out.
pub fn read_spans<R: Reader>(
    alloc: Global,
    dev: &mut R,
    file: &R::File,
    backing: u64,
    part: Part,
) -> Result<Fragments, TableNo>
    requires { 1 ≤ part.len → behind part ≤ R.File.size file.now }
    ensures counted { Counted R.faults R.misses R.frame dev.old dev.new (IsErrOf result TableNo.ReadFault) }
    ensures told { R.told dev.new ≡ R.told dev.old }
    ensures tells { IfSome (R.File.bytes file.now) (λ told. Tells backing (λ spans. spans) result (spans_at part told)) }
{
    if part.len == 0 {
        let none = no_fragments(alloc)?;
        return Ok(none);
    }
    let block = read_block(alloc, dev, file, backing, BlockKind::Spans, part)?;
    let spans = fragments(alloc, &block)?;
    Ok(spans)
}

/// No spans.
pub fn no_fragments(alloc: Global) -> Result<Fragments, AllocError>
    ensures { IfOk result (λ made. made ≡ []) }
{
    let spans = Vec::new(alloc);
    let made = Fragments::from_spans(alloc, &spans)?;
    Ok(made)
}

/// The rows of a block of spans as fragments.
fn fragments(alloc: Global, block: &Block) -> Result<Fragments, AllocError>
    requires { Follow BlockKind.Spans None block.now }
    ensures { IfOk result (λ made. made ≡ tombstones block.now) }
{
    let spans = all_spans(alloc, block)?;
    let made = Fragments::from_spans(alloc, &spans)?;
    Ok(made)
}

fn all_spans(alloc: Global, block: &Block) -> Result<Vec<Span>, AllocError>
    requires { Follow BlockKind.Spans None block.now }
    ensures { IfOk result (λ made. made.items ≡ tombstones block.now) }
{
    let mut out = Vec::with_capacity(alloc, block.len())?;
    for i in 0..block.len() {
        out.push(span(alloc, block.key(i), block.value(i))?)?;
    }
    Ok(out)
}

/// The span of a row: its start and number from the internal key, and its end.
fn span(alloc: Global, key: &[u8], end: &[u8]) -> Result<Span, AllocError>
    requires { suits BlockKind.Spans (row key.now end.now) ≡ true }
    ensures { IfOk result (λ s. s ≡ tombstone_of (row key.now end.now)) }
{
    let (start, trailer) = key_parts(key);
    let (Ok(lo), Ok(hi)) = (
        Bound::new(start.to_vec(alloc)?),
        Bound::new(end.to_vec(alloc)?),
    ) else {
        unreachable!()
    };
    let Ok(range) = KeyRange::new(lo, hi) else {
        unreachable!()
    };
    Ok(Span::new(range, trailer / 256))
}
