//! The outputs of a compaction, one after another.
ghost use Rattle.std.specs.Prelude.{◌≡◌, ◌⊎◌, ℕ, List, [], ◌∷◌, ◌++◌, ◌+◌, ◌-◌, ◌<◌, ◌≤◌, true, length, map, drop, Some, IfOk, OnOk, OnErr, IsErrOf, IsTrue};
ghost use Rattle.std.specs.List.{slice_get};
ghost use Rattle.xdb_device.specs.Counted.{Counted};
ghost use Rattle.xdb_device.specs.Told.{Told};
ghost use Rattle.xdb_key.specs.Entries.{Point};
ghost use Rattle.xdb_key.specs.InOrder.{AreInOrder};
ghost use Rattle.xdb_rangedel.specs.Clip.{parts_before};
ghost use Rattle.xdb_rangedel.specs.Content.{content_of, entry_of};
ghost use Rattle.xdb_meta.specs.Table.{is_number};
ghost use Rattle.xdb_rangedel.specs.Members.{Has};
ghost use Rattle.xdb_work.specs.Work.{nums_of, IsNext, AreHeld};
ghost use Rattle.xdb_build.specs.Cuts.{IsOpen};
ghost use Rattle.xdb_build.specs.Given.{Given, reserved};
ghost use Rattle.xdb_build.specs.Series.{IsOutput, IsOneMore, Tries, Stops, EndsFrom, spans_left, BeginsAt, AreWritten};

use crate::JobParts;
use crate::cuts::output_end;
use crate::output::{create_table, table_of};
use std::alloc::{AllocError, Global};
use xdb_device::{Device, WorkCause};
use xdb_key::{Entry, KeyRange};
use xdb_meta::TableMeta;
use xdb_rangedel::Fragments;
use xdb_work::put;

/// What is written so far: the tables, the file of each under its number, and the numbers that were tried.
#[derive(Drop)]
pub struct Progress<F> {
    pub tables: Vec<TableMeta>,
    pub files: Vec<(u64, F)>,
    pub tried: Vec<u64>,
}

/// Writes the entries and the spans, of which there are some, as tables under the first of the reserved numbers. An
/// output ends before the next key once it is full, and the last that may be written takes the rest.
pub fn write_outputs<D: Device>(
    alloc: Global,
    given: &JobParts<D::File>,
    entries: &[Entry],
    spans: &Fragments,
    dev: &mut D,
    made: &mut Progress<D::File>,
) -> Result<(), WorkCause>
    requires order { AreInOrder entries.now }
    requires some { 1 ≤ length entries.now + length spans.now }
    requires no_tables { made.old.tables.items ≡ [] }
    requires no_files { made.old.files.items ≡ [] }
    requires none_tried { made.old.tried.items ≡ [] }
    ensures written { OnOk result (AreWritten D.File.size D.File.bytes given.now entries.now
        spans.now made.new (D.told dev.old) (D.told dev.new)) }
    ensures cause { OnErr result (IsErrOf result WorkCause.Fault
        ⊎ IsErrOf result WorkCause.Memory) }
    ensures counted { Counted D.faults D.misses D.frame dev.old dev.new
        (IsErrOf result WorkCause.Fault) }
    ensures stops { OnErr result (Stops (reserved given.now) made.new.tried.items
        (IsErrOf result WorkCause.Memory) (D.told dev.old) (D.told dev.new)) }
{
    let mut num = given.first();
    let last = num + (given.count() - 1);
    let mut from = 0;
    let mut to = output_end(entries, from, num < last);
    while to < entries.len() {
        write_next(alloc, entries, spans, from, to, num, dev, made)?;
        num += 1;
        from = to;
        to = output_end(entries, from, num < last);
    }
    write_last(alloc, entries, spans, from, num, dev, made)
}

/// Writes the output from one place among the entries to another, where the next one begins.
fn write_next<D: Device>(
    alloc: Global,
    entries: &[Entry],
    spans: &Fragments,
    from: usize,
    to: usize,
    num: u64,
    dev: &mut D,
    made: &mut Progress<D::File>,
) -> Result<(), WorkCause>
    requires num { IsTrue (is_number num) }
    requires order { AreInOrder entries.now }
    requires ends { EndsFrom entries.now from true to }
    requires inside { to < length entries.now }
    ensures goes { OnOk result ((g : Given D.File) (start : Told) → num + 1 < g.first + g.count
        → BeginsAt D.File.size D.File.bytes g entries.now spans.now from num made.old
        start (D.told dev.old)
        → BeginsAt D.File.size D.File.bytes g entries.now spans.now to (num + 1) made.new
        start (D.told dev.new)) }
    ensures cause { OnErr result (IsErrOf result WorkCause.Fault
        ⊎ IsErrOf result WorkCause.Memory) }
    ensures counted { Counted D.faults D.misses D.frame dev.old dev.new
        (IsErrOf result WorkCause.Fault) }
    ensures stops { OnErr result ((g : Given D.File) (start : Told)
        → BeginsAt D.File.size D.File.bytes g entries.now spans.now from num made.old
        start (D.told dev.old)
        → Stops (reserved g) made.new.tried.items (IsErrOf result WorkCause.Memory)
        start (D.told dev.new)) }
{
    let part = spans_between(entries, spans, from, to)?;
    add_output(alloc, num, &entries[from..to], &part, dev, made)
}

/// Writes the output that begins at the place and has all that is left.
fn write_last<D: Device>(
    alloc: Global,
    entries: &[Entry],
    spans: &Fragments,
    from: usize,
    num: u64,
    dev: &mut D,
    made: &mut Progress<D::File>,
) -> Result<(), WorkCause>
    requires num { IsTrue (is_number num) }
    requires order { AreInOrder entries.now }
    requires some { 1 ≤ length entries.now + length spans.now }
    requires inside { (from ≡ 0) ⊎ (from < length entries.now) }
    ensures written { OnOk result ((g : Given D.File) (start : Told)
        → (2 ≤ g.count - (num - g.first) → IsOpen (map entry_of (drop from entries.now)))
        → BeginsAt D.File.size D.File.bytes g entries.now spans.now from num made.old
        start (D.told dev.old)
        → AreWritten D.File.size D.File.bytes g entries.now spans.now made.new
        start (D.told dev.new)) }
    ensures cause { OnErr result (IsErrOf result WorkCause.Fault
        ⊎ IsErrOf result WorkCause.Memory) }
    ensures counted { Counted D.faults D.misses D.frame dev.old dev.new
        (IsErrOf result WorkCause.Fault) }
    ensures stops { OnErr result ((g : Given D.File) (start : Told)
        → BeginsAt D.File.size D.File.bytes g entries.now spans.now from num made.old
        start (D.told dev.old)
        → Stops (reserved g) made.new.tried.items (IsErrOf result WorkCause.Memory)
        start (D.told dev.new)) }
{
    if from == 0 {
        return add_output(alloc, num, entries, spans, dev, made);
    }
    let over = spans_behind(entries, spans, from)?;
    add_output(alloc, num, &entries[from..], &over, dev, made)
}

/// What the spans have up to the key at a place, from where an output begins on.
///
/// Each goes through its own part of the spans alone, but for the first and the last.
fn spans_between(
    entries: &[Entry],
    spans: &Fragments,
    from: usize,
    to: usize,
) -> Result<Fragments, AllocError>
    requires ends { EndsFrom entries.now from true to }
    requires inside { to < length entries.now }
    ensures { IfOk result (λ part. (p : Point) → slice_get entries.now to ≡ Some p
        → part ≡ parts_before p.key (spans_left entries.now from spans.now)) }
{
    let hi = entries[to].key().bound()?;
    if from == 0 {
        let (part, _) = spans.cut(&hi)?;
        return Ok(part);
    }
    let lo = entries[from].key().bound()?;
    let Ok(range) = KeyRange::new(lo, hi) else {
        unreachable!()
    };
    spans.clip(&range)
}

/// What the spans have from the key at a place on, which isn't the first.
fn spans_behind(entries: &[Entry], spans: &Fragments, from: usize) -> Result<Fragments, AllocError>
    requires later { 1 ≤ from }
    requires inside { from < length entries.now }
    ensures { IfOk result (λ over. over ≡ spans_left entries.now from spans.now) }
{
    let at = entries[from].key().bound()?;
    let (_, over) = spans.cut(&at)?;
    Ok(over)
}

/// Writes one output, and puts it behind the others.
fn add_output<D: Device>(
    alloc: Global,
    num: u64,
    entries: &[Entry],
    spans: &Fragments,
    dev: &mut D,
    made: &mut Progress<D::File>,
) -> Result<(), WorkCause>
    requires num { IsTrue (is_number num) }
    requires order { AreInOrder entries.now }
    requires some { 1 ≤ length entries.now + length spans.now }
    ensures more { OnOk result (IsOneMore D.File.size D.File.bytes num
        (content_of entries.now spans.now) made.old made.new (D.told dev.old) (D.told dev.new)) }
    ensures cause { OnErr result (IsErrOf result WorkCause.Fault
        ⊎ IsErrOf result WorkCause.Memory) }
    ensures counted { Counted D.faults D.misses D.frame dev.old dev.new
        (IsErrOf result WorkCause.Fault) }
    ensures stops { OnErr result ((reserved : List ℕ) (i : ℕ) (start : Told) → IsNext reserved i num
        → Tries reserved i made.old.tried.items start (D.told dev.old)
        → Stops reserved made.new.tried.items (IsErrOf result WorkCause.Memory)
        start (D.told dev.new)) }
{
    made.tables.try_reserve(1)?;
    made.files.try_reserve(1)?;
    let (meta, file) = write_output(alloc, num, entries, spans, dev, &mut made.tried)?;
    put(&mut made.tables, meta);
    put(&mut made.files, (num, file));
    Ok(())
}

/// Writes a table of the entries and the spans, of which there are some, and names its number once its file is tried.
fn write_output<D: Device>(
    alloc: Global,
    num: u64,
    entries: &[Entry],
    spans: &Fragments,
    dev: &mut D,
    tried: &mut Vec<u64>,
) -> Result<(TableMeta, D::File), WorkCause>
    requires num { IsTrue (is_number num) }
    requires order { AreInOrder entries.now }
    requires some { 1 ≤ length entries.now + length spans.now }
    ensures output { IfOk result (λ made. IsOutput D.File.size D.File.bytes num
        (content_of entries.now spans.now) made.0 (num, made.1)) }
    ensures cause { OnErr result (IsErrOf result WorkCause.Fault
        ⊎ IsErrOf result WorkCause.Memory) }
    ensures counted { Counted D.faults D.misses D.frame dev.old dev.new
        (IsErrOf result WorkCause.Fault) }
    ensures goes { OnOk result ((reserved : List ℕ) (i : ℕ) (start : Told) → IsNext reserved i num
        → Tries reserved i tried.old.items start (D.told dev.old)
        → Tries reserved (i + 1) tried.new.items start (D.told dev.new)) }
    ensures stops { OnErr result ((reserved : List ℕ) (i : ℕ) (start : Told) → IsNext reserved i num
        → Tries reserved i tried.old.items start (D.told dev.old)
        → Stops reserved tried.new.items (IsErrOf result WorkCause.Memory) start (D.told dev.new)) }
    ensures held { IfOk result (λ made. (files : List (ℕ × D.File)) → (Has (nums_of files) num → ⊥)
        → AreHeld D.File.size D.File.bytes (D.told dev.old).holds files
        → AreHeld D.File.size D.File.bytes (D.told dev.new).holds (files ++ (num, made.1) ∷ [])) }
{
    let table = table_of(alloc, entries, spans)?;
    tried.try_reserve(1)?;
    let (meta, file) = create_table(num, table, dev, tried)?;
    Ok((meta, file))
}
