//! All that tables have, in one: points in internal order, and fragments.
ghost use Rattle.std.specs.Prelude.{◌≡◌, ◌∷◌, ◌++◌, [], IfOk, IfErr, OnOk, IsErrOf};
ghost use Rattle.xdb_device.specs.Counted.{Counted};
ghost use Rattle.xdb_key.specs.InOrder.{internal_order};
ghost use Rattle.xdb_merge.specs.Merge.{layer_of};
ghost use Rattle.xdb_merge.specs.Steps.{IsLoaded, NamesDefect};
ghost use Rattle.xdb_merge.specs.Tables.{NamesDamage};
ghost use Rattle.xdb_rangedel.specs.Members.{SameMembers};
ghost use Rattle.xdb_rangedel.specs.Pieces.{AreFragments};
ghost use Rattle.xdb_build.specs.Gathered.{IsGathered};
ghost use Rattle.xdb_build.specs.Gathering.{AreReadOf, AreSortedOf, NamesOneDefect};

use std::alloc::{AllocError, Global};
use std::cmp::Ordering;
use xdb_device::{FileRef, Reader};
use xdb_key::{Entry, Span, compare};
use xdb_merge::laws::{content_is_of_tables, damage_is_of_tables};
use xdb_merge::open_views;
use xdb_meta::TableMeta;
use xdb_rangedel::Fragments;
use xdb_table_r::{TableNo, View, ViewCursor};

/// Reads the tables, each within its bounds and with its synthetic number, and gives all that they have.
pub fn gathered<F: FileRef, R: Reader<File = F>>(
    alloc: Global,
    tables: &[(TableMeta, F)],
    dev: &mut R,
) -> Result<(Vec<Entry>, Fragments), TableNo>
    ensures counted { Counted R.faults R.misses R.frame dev.old dev.new
        (IsErrOf result TableNo.ReadFault) }
    ensures told { R.told dev.new ≡ R.told dev.old }
    ensures damage { IfErr result (NamesDamage F.bytes tables.now) }
    ensures gathered { IfOk result (λ made. IsGathered F.bytes tables.now made.0.items made.1) }
{
    // Two laws that the proof cites.
    content_is_of_tables::<F>();
    damage_is_of_tables::<F>();
    let views = open_views(alloc, tables, dev)?;
    let (entries, spans) = read_views(alloc, views, dev)?;
    let sorted = in_order(entries)?;
    let fragments = Fragments::from_spans(alloc, &spans)?;
    Ok((sorted, fragments))
}

/// The points and the spans of all views, one view after another.
fn read_views<F: FileRef, R: Reader<File = F>>(
    alloc: Global,
    views: Vec<View<F>>,
    dev: &mut R,
) -> Result<(Vec<Entry>, Vec<Span>), TableNo>
    ensures counted { Counted R.faults R.misses R.frame dev.old dev.new
        (IsErrOf result TableNo.ReadFault) }
    ensures told { R.told dev.new ≡ R.told dev.old }
    ensures defect { IfErr result (NamesOneDefect F.bytes views.items) }
    ensures read { IfOk result (λ made. AreReadOf F.bytes views.items made.0.items made.1.items) }
{
    let mut entries = Vec::new(alloc);
    let mut spans = Vec::new(alloc);
    for view in views {
        let (cursor, fragments) = read_view(view, dev)?;
        add_entries(&mut entries, cursor.points())?;
        add_spans(&mut spans, fragments.list())?;
    }
    Ok((entries, spans))
}

/// A cursor of the view, which has read its points, and the view's spans.
fn read_view<F: FileRef, R: Reader<File = F>>(
    view: View<F>,
    dev: &mut R,
) -> Result<(ViewCursor<F>, Fragments), TableNo>
    ensures counted { Counted R.faults R.misses R.frame dev.old dev.new
        (IsErrOf result TableNo.ReadFault) }
    ensures told { R.told dev.new ≡ R.told dev.old }
    ensures defect { IfErr result (NamesDefect F.bytes (view ∷ [])) }
    ensures view { IfOk result (λ part. part.0.view ≡ view) }
    ensures loaded { IfOk result (λ part. IsLoaded F.bytes part.0) }
    ensures spans { IfOk result (λ part. SameMembers part.1 (layer_of part.0).spans) }
    ensures fragments { IfOk result (λ part. AreFragments part.1) }
{
    let spans = view.spans(dev)?;
    let mut cursor = view.cursor();
    cursor.load(dev)?;
    Ok((cursor, spans))
}

/// Appends copies of the entries.
fn add_entries(out: &mut Vec<Entry>, entries: &[Entry]) -> Result<(), AllocError>
    ensures { OnOk result (out.new.items ≡ out.old.items ++ entries.now) }
{
    for entry in entries {
        out.push(entry.copy()?)?;
    }
    Ok(())
}

/// Appends copies of the spans.
fn add_spans(out: &mut Vec<Span>, spans: &[Span]) -> Result<(), AllocError>
    ensures { OnOk result (out.new.items ≡ out.old.items ++ spans.now) }
{
    for span in spans {
        out.push(span.copy()?)?;
    }
    Ok(())
}

/// The entries in internal order. Of those that tie there, the first one stays.
///
/// The stable sort finds the runs in which they come, one of each view.
fn in_order(mut entries: Vec<Entry>) -> Result<Vec<Entry>, AllocError>
    ensures { IfOk result (λ made. AreSortedOf entries.items made.items) }
{
    entries.sort_by(|a, b| internal_order(a, b))?;
    entries.dedup_by(|next, last| internal_order(next, last).is_eq());
    Ok(entries)
}

fn internal_order(a: &Entry, b: &Entry) -> Ordering
    ensures { result ≡ internal_order a.now b.now }
{
    compare(a.key().bytes(), b.key().bytes()).then(b.trailer().cmp(&a.trailer()))
}
