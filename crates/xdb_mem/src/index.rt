//! The index of range deletes: their places in order of start, in blocks as in a Fenwick tree. A block ends
//! with its own place and goes back over 1, 2, 4, 8 or more; it tells the least start and the greatest
//! end among them, so whole blocks that lie apart from a range are skipped. Blocks one behind the other
//! are sorted runs, each longer than all behind it: new places are sorted together with the runs that
//! are no longer than what is behind them, so each place is sorted again O(log n) times.
ghost use Rattle.std.specs.Prelude.{◌≡◌, ℕ, ◌+◌, ◌-◌, ◌<◌, ◌≤◌, true, [], ◌++◌, length, take, slice_index_or, vec_len, vec_capacity, IfOk, OnOk, OnErr, IfSome};
ghost use Rattle.std.specs.List.{All};
ghost use Rattle.xdb_key.specs.Bounds.{meets};
ghost use Rattle.xdb_key.specs.Order.{is_upto};
ghost use Rattle.xdb_rangedel.specs.Members.{Has};
ghost use Rattle.xdb_mem.specs.Blocks.{span_at, places_of, hull_of, Lies, IsInside, GoBack, IsBlock, AreBlocks, IsIndex, AreApart};

use std::alloc::{AllocError, Global};
use xdb_key::{KeyRange, Span, is_below, is_upto};

/// A place of the list of range deletes, and what its block lies between.
#[derive(Clone, Copy, Debug)]
pub struct Block {
    place: usize,
    /// How many blocks stand before those that this one goes back over.
    from: usize,
    /// The place of the least start in the block.
    first: usize,
    /// The place of the greatest end in the block.
    last: usize,
}

/// Adds the places from `first` on. An error means that memory ran out, and changes nothing.
pub fn extend(blocks: &mut Vec<Block>, spans: &[Span], first: usize) -> Result<(), AllocError>
    requires bound { first ≤ length spans.now }
    requires index { IsIndex (take first spans.now) blocks.old.items }
    ensures index { OnOk result (IsIndex spans.now blocks.new.items) }
    ensures unchanged { OnErr result (blocks.new.items ≡ blocks.old.items) }
{
    let kept = run_end(blocks, spans.len());
    let mut places = places(*blocks.allocator(), &blocks[kept..])?;
    add_places(&mut places, first, spans.len())?;
    places.sort_by(|a, b| start(spans, *a).cmp(start(spans, *b)))?;
    blocks.try_reserve(places.len())?;
    blocks.truncate(kept);
    push_all(blocks, spans, &places);
    Ok(())
}

/// How many blocks stay where there are to be `count`: a run that is no longer than what is to stand
/// behind it goes into a new one.
fn run_end(blocks: &[Block], count: usize) -> usize
    requires { GoBack blocks.now }
    ensures { result ≤ length blocks.now }
{
    let mut end = blocks.len();
    while let Some(from) = short_run(blocks, end, count) {
        end = from;
    }
    end
}

/// Where the run that ends there starts, if it is no longer than what is to stand behind it.
fn short_run(blocks: &[Block], end: usize, count: usize) -> Option<usize>
    requires back { GoBack blocks.now }
    requires bound { end ≤ length blocks.now }
    ensures { IfSome result (λ from. from < end) }
{
    if end == 0 {
        return None;
    }
    let from = blocks[end - 1].from;
    if end - from > count.saturating_sub(end) {
        return None;
    }
    Some(from)
}

/// The places of the blocks.
fn places(alloc: Global, blocks: &[Block]) -> Result<Vec<usize>, AllocError>
    ensures { IfOk result (λ made. made.items ≡ places_of blocks.now) }
{
    let mut out = Vec::with_capacity(alloc, blocks.len())?;
    for block in blocks {
        out.push(block.place)?;
    }
    Ok(out)
}

/// Adds the places from one on and before another.
fn add_places(out: &mut Vec<usize>, from: usize, to: usize) -> Result<(), AllocError>
    ensures kept { OnOk result ((p : ℕ) → Has out.old.items p → Has out.new.items p) }
    ensures added { OnOk result ((p : ℕ) → from ≤ p → p < to → Has out.new.items p) }
    ensures inside { OnOk result (All (λ p. p < to) out.old.items → All (λ p. p < to) out.new.items) }
{
    for place in from..to {
        out.push(place)?;
    }
    Ok(())
}

/// The start of the span at the place.
fn start<'a>(spans: &'a [Span], place: usize) -> &'a [u8] {
    match spans.get(place) {
        Some(span) => span.range().lo().bytes(),
        None => &[],
    }
}

/// Adds a block for each place, for which there is room.
fn push_all(blocks: &mut Vec<Block>, spans: &[Span], places: &[usize])
    requires blocks { AreBlocks spans.now blocks.old.items }
    requires inside { All (λ p. p < length spans.now) places.now }
    requires room { vec_len blocks.old + length places.now ≤ vec_capacity blocks.old }
    ensures blocks { AreBlocks spans.now blocks.new.items }
    ensures places { places_of blocks.new.items ≡ places_of blocks.old.items ++ places.now }
{
    for place in places {
        let block = next(blocks, spans, *place);
        let Ok(()) = blocks.push(block) else {
            unreachable!()
        };
    }
}

/// The block of the place, behind those that are there.
fn next(blocks: &[Block], spans: &[Span], place: usize) -> Block
    requires blocks { AreBlocks spans.now blocks.now }
    requires inside { place < length spans.now }
    ensures block { IsBlock spans.now blocks.now result }
    ensures place { result.place ≡ place }
{
    let mut block = Block {
        place,
        from: blocks.len(),
        first: place,
        last: place,
    };
    while let Some(before) = as_long(blocks, block.from) {
        block = joined(spans, &before, &block);
    }
    block
}

/// The block that ends there, if it goes back over as many as stand from there on, the next one with them.
fn as_long(blocks: &[Block], end: usize) -> Option<Block>
    requires back { GoBack blocks.now }
    requires bound { end ≤ length blocks.now }
    ensures { IfSome result (λ b. (0 < end) × (b ≡ slice_index_or blocks.now (end - 1) b)) }
{
    if end == 0 {
        return None;
    }
    let before = blocks[end - 1];
    if end - before.from != blocks.len() - end + 1 {
        return None;
    }
    Some(before)
}

/// The block goes back over the one before it too.
fn joined(spans: &[Span], before: &Block, block: &Block) -> Block
    requires before { IsInside (length spans.now) before.now }
    requires block { IsInside (length spans.now) block.now }
    ensures place { result.place ≡ block.now.place }
    ensures from { result.from ≡ before.now.from }
    ensures inside { IsInside (length spans.now) result }
    ensures before { (p : ℕ) → Lies spans.now before.now p → Lies spans.now result p }
    ensures block { (p : ℕ) → Lies spans.now block.now p → Lies spans.now result p }
{
    Block {
        place: block.place,
        from: before.from,
        first: earlier_start(spans, before.first, block.first),
        last: later_end(spans, before.last, block.last),
    }
}

/// The place of the two whose start is the earlier one.
fn earlier_start(spans: &[Span], a: usize, b: usize) -> usize
    requires a { a < length spans.now }
    requires b { b < length spans.now }
    ensures inside { result < length spans.now }
    ensures a { is_upto (span_at spans.now result).range.lo (span_at spans.now a).range.lo ≡ true }
    ensures b { is_upto (span_at spans.now result).range.lo (span_at spans.now b).range.lo ≡ true }
{
    if is_below(lo(spans, b), lo(spans, a)) {
        b
    } else {
        a
    }
}

/// The place of the two whose end is the later one.
fn later_end(spans: &[Span], a: usize, b: usize) -> usize
    requires a { a < length spans.now }
    requires b { b < length spans.now }
    ensures inside { result < length spans.now }
    ensures a { is_upto (span_at spans.now a).range.hi (span_at spans.now result).range.hi ≡ true }
    ensures b { is_upto (span_at spans.now b).range.hi (span_at spans.now result).range.hi ≡ true }
{
    if is_below(hi(spans, a), hi(spans, b)) {
        b
    } else {
        a
    }
}

fn lo(spans: &[Span], place: usize) -> &[u8]
    requires { place < length spans.now }
    ensures { result.now ≡ (span_at spans.now place).range.lo }
{
    spans[place].range().lo().bytes()
}

fn hi(spans: &[Span], place: usize) -> &[u8]
    requires { place < length spans.now }
    ensures { result.now ≡ (span_at spans.now place).range.hi }
{
    spans[place].range().hi().bytes()
}

/// The span of the block.
pub fn span<'a>(blocks: &[Block], spans: &'a [Span], at: usize) -> &'a Span
    requires blocks { AreBlocks spans.now blocks.now }
    requires bound { at < length blocks.now }
    ensures { (d : Block) → result.now ≡ span_at spans.now (slice_index_or blocks.now at d).place }
{
    &spans[blocks[at].place]
}

/// How many of the first blocks are left where those at their end whose range deletes all lie apart from
/// the range are skipped.
pub fn skip(blocks: &[Block], spans: &[Span], end: usize, range: &KeyRange) -> usize
    requires blocks { AreBlocks spans.now blocks.now }
    requires bound { end ≤ length blocks.now }
    ensures bound { result ≤ end }
    ensures apart { AreApart spans.now blocks.now range.now result end }
{
    let mut left = end;
    while let Some(from) = apart(blocks, spans, left, range) {
        left = from;
    }
    left
}

/// Where the block that ends there starts, if it lies apart from the range.
fn apart(blocks: &[Block], spans: &[Span], end: usize, range: &KeyRange) -> Option<usize>
    requires blocks { AreBlocks spans.now blocks.now }
    requires bound { end ≤ length blocks.now }
    ensures before { IfSome result (λ from. from < end) }
    ensures apart { IfSome result (λ from. AreApart spans.now blocks.now range.now from end) }
{
    if end == 0 {
        return None;
    }
    let block = &blocks[end - 1];
    if reaches(spans, block, range) {
        return None;
    }
    Some(block.from)
}

/// Whether the bounds of the block leave room for a span that meets the range.
fn reaches(spans: &[Span], block: &Block, range: &KeyRange) -> bool
    requires { IsInside (length spans.now) block.now }
    ensures { result ≡ meets (hull_of spans.now block.now) range.now }
{
    is_below(lo(spans, block.first), range.hi().bytes())
        && is_below(range.lo().bytes(), hi(spans, block.last))
}
