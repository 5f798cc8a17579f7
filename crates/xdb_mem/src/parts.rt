ghost use Rattle.std.specs.Prelude.{◌≡◌, ◌<◌, ◌^◌, [], ◌++◌, nat_lt, IsTrue, IfSome, OnOk, IfOk};
ghost use Rattle.std.specs.List.{All, filter};
ghost use Rattle.std.specs.Option.{option_to_list};
ghost use Rattle.xdb_rangedel.specs.Clip.{part_in, later_of, earlier_of};
ghost use Rattle.xdb_rangedel.specs.Members.{SameMembers};
ghost use Rattle.xdb_rangedel.specs.Pieces.{AreFragments, pieces, is_ordered};
ghost use Rattle.xdb_mem.specs.Numbered.{RisesWithin, points, spans};
ghost use Rattle.xdb_mem.specs.InOrder.{AreInOrder, AreNumbered};
ghost use Rattle.xdb_mem.specs.KeptQueue.{joined};
ghost use Rattle.xdb_mem.specs.Parts.{picked, part_below, clipped};

use crate::{Mem, sorted};
use std::alloc::{AllocError, Global};
use std::marker::Model;
use xdb_key::{Bound, Entry, KeyRange, Span, is_below};
use xdb_rangedel::Fragments;

/// What memtables have in a range: entries in internal order, and fragments.
#[derive(Debug, Drop)]
pub struct MemParts {
    entries: Vec<Entry>,
    spans: Fragments,
}

impl Model for MemParts {
    ghost use Rattle.xdb_rangedel.specs.Pieces.{AreFragments};
    ghost use Rattle.xdb_mem.specs.InOrder.{AreInOrder};
    ghost use Rattle.xdb_mem.specs.Parts.{Parts};

    ghost Value = { Parts };

    ghost view = { λ p. record { entries = p.entries.items; spans = p.spans } };

    ghost invariant = { λ p. AreInOrder p.entries.items };
}

impl MemParts {
    /// No content. An error means that memory ran out.
    pub fn empty(alloc: Global) -> Result<Self, AllocError>
        ensures entries { IfOk result (λ parts. parts.entries ≡ []) }
        ensures spans { IfOk result (λ parts. parts.spans ≡ []) }
    {
        let spans = Fragments::from_spans(alloc, &[])?;
        let entries = Vec::new(alloc);
        Ok(MemParts { entries, spans })
    }

    /// The entries, and the spans cut at each other's bounds.
    pub(crate) fn new(
        alloc: Global,
        entries: Vec<Entry>,
        spans: &[Span],
    ) -> Result<Self, AllocError>
        requires { AreInOrder entries.items }
        ensures entries { IfOk result (λ parts. parts.entries ≡ entries.items) }
        ensures order { IfOk result (λ parts. AreInOrder parts.entries) }
        ensures spans { IfOk result (λ parts. SameMembers parts.spans (pieces spans.now)) }
        ensures fragments { IfOk result (λ parts. AreFragments parts.spans) }
    {
        let spans = Fragments::from_spans(alloc, spans)?;
        Ok(MemParts { entries, spans })
    }

    /// In internal order: by user key, and at one user key the greatest number first.
    pub fn entries(&self) -> &[Entry]
        ensures entries { result.now ≡ self.now.entries }
        ensures order { AreInOrder self.now.entries }
    {
        &self.entries
    }

    pub fn spans(&self) -> &Fragments
        ensures { result.now ≡ self.now.spans }
    {
        &self.spans
    }
}

/// The entries of the memtables in the range, with numbers below the limit.
pub fn picked(
    alloc: Global,
    sealed: &[Mem],
    active: &Mem,
    range: &KeyRange,
    below: u64,
) -> Result<Vec<Entry>, AllocError>
    requires { RisesWithin 1 (2 ^ 56) (joined sealed.now ++ active.now) }
    ensures order { IfOk result (λ made. AreInOrder made.items) }
    ensures members { IfOk result (λ made. SameMembers made.items (picked range.now below (joined sealed.now ++ active.now))) }
{
    let mut out = Vec::new(alloc);
    for mem in sealed {
        pick(&mut out, mem, range, below)?;
    }
    pick(&mut out, active, range, below)?;
    Ok(out)
}

/// Adds the entries of one memtable.
fn pick(out: &mut Vec<Entry>, mem: &Mem, range: &KeyRange, below: u64) -> Result<(), AllocError>
    requires order { AreInOrder out.old.items }
    requires numbers { AreNumbered (out.old.items ++ points mem.now) }
    ensures order { OnOk result (AreInOrder out.new.items) }
    ensures members { OnOk result (SameMembers out.new.items (out.old.items ++ picked range.now below mem.now)) }
{
    let found = sorted::in_range(mem.entries(), range);
    if out.is_empty() {
        // They stand in order, so none has to be put at its place.
        add_below(out, found, below)
    } else {
        put_below(out, found, below)
    }
}

/// Adds a copy of each entry with a number below the limit, behind those that are there.
fn add_below(out: &mut Vec<Entry>, entries: &[Entry], below: u64) -> Result<(), AllocError>
    ensures { OnOk result (out.new.items ≡ out.old.items ++ filter (λ p. nat_lt p.seq below) entries.now) }
{
    // Counted first: so what the entries say comes from memory several at a time, and not one by one
    // with their copies.
    let count = entries
        .iter()
        .filter(|entry| is_under(entry, below))
        .count();
    out.try_reserve(count)?;
    for entry in entries {
        if is_under(entry, below) {
            out.push(entry.copy()?)?;
        }
    }
    Ok(())
}

/// Adds a copy of each entry with a number below the limit, at its place.
fn put_below(out: &mut Vec<Entry>, entries: &[Entry], below: u64) -> Result<(), AllocError>
    requires order { AreInOrder out.old.items }
    requires numbers { AreNumbered (out.old.items ++ entries.now) }
    ensures order { AreInOrder out.new.items }
    ensures members { OnOk result (SameMembers out.new.items (out.old.items ++ filter (λ p. nat_lt p.seq below) entries.now)) }
{
    out.try_reserve(entries.len())?;
    for entry in entries {
        if is_under(entry, below) {
            sorted::put(out, entry.copy()?)?;
        }
    }
    Ok(())
}

fn is_under(entry: &Entry, below: u64) -> bool
    ensures { result ≡ nat_lt entry.now.seq below }
{
    entry.seq() < below
}

/// What the range deletes of the memtables with numbers below the limit have in the range.
pub fn clipped(
    alloc: Global,
    sealed: &[Mem],
    active: &Mem,
    range: &KeyRange,
    below: u64,
) -> Result<Vec<Span>, AllocError>
    ensures parts { IfOk result (λ made. SameMembers made.items (clipped range.now below (joined sealed.now ++ active.now))) }
    ensures ordered { IfOk result (λ made. All (λ t. IsTrue (is_ordered t)) made.items) }
{
    let mut out = Vec::new(alloc);
    for mem in sealed {
        mem.span_list().clip(&mut out, range, below)?;
    }
    active.span_list().clip(&mut out, range, below)?;
    Ok(out)
}

/// Adds what the span has in the range, where its number is below the limit.
pub fn add_part(
    out: &mut Vec<Span>,
    span: &Span,
    range: &KeyRange,
    below: u64,
) -> Result<(), AllocError>
    ensures part { OnOk result (out.new.items ≡ out.old.items ++ option_to_list (part_below range.now below span.now)) }
    ensures ordered { OnOk result (All (λ t. IsTrue (is_ordered t)) out.old.items → All (λ t. IsTrue (is_ordered t)) out.new.items) }
{
    if span.seq() < below {
        if let Some(part) = part(span, range)? {
            out.push(part)?;
        }
    }
    Ok(())
}

/// What the span has in the range.
fn part(span: &Span, range: &KeyRange) -> Result<Option<Span>, AllocError>
    ensures part { IfOk result (λ part. part ≡ part_in range.now span.now) }
    ensures ordered { IfOk result (λ part. IfSome part (λ t. IsTrue (is_ordered t))) }
{
    if !span.range().meets(range) {
        return Ok(None);
    }
    let lo = later(range.lo(), span.range().lo()).copy()?;
    let hi = earlier(range.hi(), span.range().hi()).copy()?;
    let Ok(inside) = KeyRange::new(lo, hi) else {
        unreachable!()
    };
    Ok(Some(Span::new(inside, span.seq())))
}

fn later<'a>(a: &'a Bound, b: &'a Bound) -> &'a Bound
    ensures { result.now ≡ later_of a.now b.now }
{
    if is_below(b.bytes(), a.bytes()) { a } else { b }
}

fn earlier<'a>(a: &'a Bound, b: &'a Bound) -> &'a Bound
    ensures { result.now ≡ earlier_of a.now b.now }
{
    if is_below(a.bytes(), b.bytes()) { a } else { b }
}
