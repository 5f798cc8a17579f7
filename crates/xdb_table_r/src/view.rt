ghost use Rattle.std.specs.Prelude.{◌≡◌, ◌^◌, ◌<◌, map, IfOk, IfErr, IfSome, IsErrOf, false, []};
ghost use Rattle.xdb_device.specs.Counted.{Counted};
ghost use Rattle.xdb_rangedel.specs.Members.{SameMembers};
ghost use Rattle.xdb_rangedel.specs.Pieces.{AreFragments};
ghost use Rattle.xdb_table_r.specs.Views.{range_of, span_for, spans_in, shown, keys_of};
ghost use Rattle.xdb_table_r.specs.Reaches.{TellsOf, range_before, range_from, part_at, Reaches, LiesWithin, IsEmpty};
ghost use Rattle.xdb_table_r.specs.Cursors.{walk};

use crate::TableNo;
use crate::cursor::ViewCursor;
use crate::reach::extent;
use crate::spans::no_fragments;
use crate::table::TableFile;
use crate::window::Window;
use std::alloc::{AllocError, Global};
use std::marker::Model;
use xdb_device::{FileRef, Reader};
use xdb_key::{Bound, Extent, KeyRange, Span, greater, is_below, lesser};
use xdb_rangedel::Fragments;

/// A part of a table: the points from a bound on and below another, and the spans cut to these bounds. Where
/// a synthetic number is given, it stands for all numbers.
#[derive(Drop)]
pub struct View<F: FileRef> {
    pub(crate) table: TableFile<F>,
    pub(crate) window: Window,
}

impl<F: FileRef> Model for View<F> {
    ghost use Rattle.std.specs.Prelude.{◌<◌, ◌^◌};
    ghost use Rattle.xdb_table_r.specs.Views.{Shown, shown};

    ghost Value = { Shown F };

    ghost view = { λ v. shown v.table v.window.lo v.window.hi v.window.synthetic };

    ghost invariant = { λ v. v.window.synthetic < 2 ^ 56 };
}

impl<F: FileRef> View<F> {
    /// The table from `lo` on and below `hi`. A synthetic number of 0 means that there is none.
    pub fn new(file: TableFile<F>, lo: Bound, hi: Bound, synthetic: u64) -> Self
        requires { synthetic < 2 ^ 56 }
        ensures { result ≡ shown file lo hi synthetic }
    {
        View {
            table: file,
            window: Window { lo, hi, synthetic },
        }
    }

    /// The number that stands for all numbers; 0 where there is none.
    pub fn synthetic(&self) -> u64
        ensures synthetic { result ≡ self.now.synthetic }
        ensures small { self.now.synthetic < 2 ^ 56 }
    {
        self.window.synthetic
    }

    /// A cursor over the view's points, before the first. It takes no memory and reads nothing.
    pub fn cursor(self) -> ViewCursor<F>
        ensures { result ≡ walk self false [] 0 }
    {
        ViewCursor::new(self)
    }

    /// The spans, cut to the view's bounds. They were read when the table was opened.
    pub fn spans<R: Reader<File = F>>(&self, dev: &mut R) -> Result<Fragments, TableNo>
        ensures same { dev.new ≡ dev.old }
        ensures spans { IfOk result (λ made. SameMembers made (spans_in (keys_of self.now) self.now.synthetic self.now.table.spans)) }
        ensures fragments { IfOk result AreFragments }
        ensures memory { IfErr result (λ e. e ≡ TableNo.Memory) }
    {
        let _ = dev;
        let made = clipped(self.table.allocator(), self.table.spans(), &self.window)?;
        Ok(made)
    }

    /// The extent of what the view holds before the bound, None where it holds nothing there.
    pub fn extent_left_of<R: Reader<File = F>>(
        &self,
        at: &Bound,
        dev: &mut R,
    ) -> Result<Option<Extent>, TableNo>
        ensures counted { Counted R.faults R.misses R.frame dev.old dev.new (IsErrOf result TableNo.ReadFault) }
        ensures told { R.told dev.new ≡ R.told dev.old }
        // Where that side is empty, nothing is read.
        ensures alone { IsEmpty (range_before (keys_of self.now) at.now) → dev.new ≡ dev.old }
        ensures within { IfOk result (λ e. IfSome e (LiesWithin (range_before (keys_of self.now) at.now))) }
        ensures tells { IfSome (F.bytes self.now.table.file) (λ b. TellsOf self.now.table.backing (Reaches (range_before (keys_of self.now) at.now) self.now.synthetic self.now.table.spans) result (part_at (range_before (keys_of self.now) at.now) self.now.synthetic self.now.table.index b)) }
    {
        let lo = self.window.lo.copy()?;
        let hi = lesser(&self.window.hi, at).copy()?;
        let synthetic = self.window.synthetic;
        extent_in(&self.table, &Window { lo, hi, synthetic }, dev)
    }

    /// The extent of what the view holds from the bound on, None where it holds nothing there.
    pub fn extent_right_of<R: Reader<File = F>>(
        &self,
        at: &Bound,
        dev: &mut R,
    ) -> Result<Option<Extent>, TableNo>
        ensures counted { Counted R.faults R.misses R.frame dev.old dev.new (IsErrOf result TableNo.ReadFault) }
        ensures told { R.told dev.new ≡ R.told dev.old }
        // Where that side is empty, nothing is read.
        ensures alone { IsEmpty (range_from (keys_of self.now) at.now) → dev.new ≡ dev.old }
        ensures within { IfOk result (λ e. IfSome e (LiesWithin (range_from (keys_of self.now) at.now))) }
        ensures tells { IfSome (F.bytes self.now.table.file) (λ b. TellsOf self.now.table.backing (Reaches (range_from (keys_of self.now) at.now) self.now.synthetic self.now.table.spans) result (part_at (range_from (keys_of self.now) at.now) self.now.synthetic self.now.table.index b)) }
    {
        let lo = greater(&self.window.lo, at).copy()?;
        let hi = self.window.hi.copy()?;
        let synthetic = self.window.synthetic;
        extent_in(&self.table, &Window { lo, hi, synthetic }, dev)
    }
}

/// What the window shows of the spans.
fn clipped(alloc: Global, spans: &Fragments, window: &Window) -> Result<Fragments, AllocError>
    requires { window.now.synthetic < 2 ^ 56 }
    ensures { IfOk result (λ made. SameMembers made (spans_in (range_of window.now) window.now.synthetic spans.now)) }
{
    let lo = window.lo.copy()?;
    let hi = window.hi.copy()?;
    match KeyRange::new(lo, hi) {
        Err(_) => no_fragments(alloc),
        Ok(range) => {
            let part = spans.clip(&range)?;
            renumbered(alloc, &part, window.synthetic)
        }
    }
}

/// The spans with the synthetic number in place of their own, where there is one.
fn renumbered(alloc: Global, spans: &Fragments, synthetic: u64) -> Result<Fragments, AllocError>
    requires { synthetic < 2 ^ 56 }
    ensures { IfOk result (λ made. SameMembers made (map (span_for synthetic) spans.now)) }
{
    let list = all_renumbered(alloc, spans.list(), synthetic)?;
    let made = Fragments::from_spans(alloc, &list)?;
    Ok(made)
}

fn all_renumbered(alloc: Global, spans: &[Span], synthetic: u64) -> Result<Vec<Span>, AllocError>
    requires { synthetic < 2 ^ 56 }
    ensures { IfOk result (λ made. made.items ≡ map (span_for synthetic) spans.now) }
{
    let mut out = Vec::with_capacity(alloc, spans.len())?;
    for span in spans {
        let seq = if synthetic == 0 {
            span.seq()
        } else {
            synthetic
        };
        let one = Span::new(span.range().copy()?, seq);
        out.push(one)?;
    }
    Ok(out)
}

/// The extent of what the window shows of a table.
fn extent_in<F: FileRef, R: Reader<File = F>>(
    table: &TableFile<F>,
    window: &Window,
    dev: &mut R,
) -> Result<Option<Extent>, TableNo>
    requires { window.now.synthetic < 2 ^ 56 }
    ensures counted { Counted R.faults R.misses R.frame dev.old dev.new (IsErrOf result TableNo.ReadFault) }
    ensures told { R.told dev.new ≡ R.told dev.old }
    ensures alone { IsEmpty (range_of window.now) → dev.new ≡ dev.old }
    ensures within { IfOk result (λ e. IfSome e (LiesWithin (range_of window.now))) }
    ensures tells { IfSome (F.bytes table.now.file) (λ b. TellsOf table.now.backing (Reaches (range_of window.now) window.now.synthetic table.now.spans) result (part_at (range_of window.now) window.now.synthetic table.now.index b)) }
{
    if !is_below(window.lo.bytes(), window.hi.bytes()) {
        return Ok(None);
    }
    let points = table.points(dev, window)?;
    let spans = clipped(table.allocator(), table.spans(), window)?;
    let all = extent(&points, spans.list())?;
    Ok(all)
}
