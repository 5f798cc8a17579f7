//! A view that a merged cursor goes over.
ghost use Rattle.std.specs.Prelude.{◌≡◌, true, [], ◌∷◌, IsOk, IfOk, OnOk, OnErr, IfErr, IsErrOf};
ghost use Rattle.std.specs.List.{AllByRecursion};
ghost use Rattle.xdb_device.specs.Counted.{Counted};
ghost use Rattle.xdb_merge.specs.Steps.{ArePaired, AreRead, IsLater, IsLoaded, NamesDefect, views};
ghost use Rattle.xdb_merge.specs.Sources.{unread, ShowsLayer, AreAlike};
ghost use Rattle.xdb_merge.specs.Merge.{layers};

use crate::layer::Layer;
use std::alloc::{AllocError, Global};
use std::marker::Model;
use xdb_device::{FileRef, Reader};
use xdb_mem::MemParts;
use xdb_rangedel::Fragments;
use xdb_table_r::{TableNo, View, ViewCursor};

/// A view's points, read by its cursor, and its spans, which are kept once the points are read.
#[derive(Drop)]
pub struct Source<F: FileRef> {
    cursor: ViewCursor<F>,
    spans: Fragments,
}

impl<F: FileRef> Model for Source<F> {
    ghost use Rattle.xdb_table_r.specs.Cursors.{Walk};
    ghost use Rattle.xdb_merge.specs.Sources.{HasSpans};

    ghost Value = { Walk F };

    ghost view = { λ s. s.cursor };

    ghost invariant = { λ s. HasSpans s.cursor s.spans };
}

impl<F: FileRef> Source<F> {
    /// Nothing is read yet.
    pub fn new(alloc: Global, view: View<F>) -> Result<Self, AllocError>
        ensures { IfOk result (λ made. made ≡ unread view) }
    {
        let spans = Fragments::from_spans(alloc, &[])?;
        Ok(Source {
            cursor: view.cursor(),
            spans,
        })
    }

    /// Reads the view, where it isn't read yet.
    pub fn load<R: Reader<File = F>>(&mut self, dev: &mut R) -> Result<(), TableNo>
        ensures counted { Counted R.faults R.misses R.frame dev.old dev.new
            (IsErrOf result TableNo.ReadFault) }
        ensures told { R.told dev.new ≡ R.told dev.old }
        ensures alone { self.old.read ≡ true → dev.new ≡ dev.old }
        ensures calm { self.old.read ≡ true → IsOk result }
        ensures later { IsLater F.bytes self.old self.new }
        ensures loaded { OnOk result (IsLoaded F.bytes self.new) }
        ensures defect { IfErr result (NamesDefect F.bytes (self.old.view ∷ [])) }
    {
        if self.cursor.is_read() {
            return Ok(());
        }
        let spans = self.cursor.view().spans(dev)?;
        self.cursor.load(dev)?;
        self.spans = spans;
        Ok(())
    }

    /// What is read of it.
    pub fn layer(&self) -> Layer<'_>
        ensures { ShowsLayer self.now result }
    {
        Layer::new(self.cursor.points(), &self.spans)
    }
}

/// Reads the views in their order, as far as they aren't read yet.
pub fn load_all<F: FileRef, R: Reader<File = F>>(
    sources: &mut Vec<Source<F>>,
    dev: &mut R,
) -> Result<(), TableNo>
    ensures counted { Counted R.faults R.misses R.frame dev.old dev.new
        (IsErrOf result TableNo.ReadFault) }
    ensures told { R.told dev.new ≡ R.told dev.old }
    ensures alone { AreRead sources.old.items → dev.new ≡ dev.old }
    ensures calm { AreRead sources.old.items → IsOk result }
    ensures later { ArePaired (IsLater F.bytes) sources.old.items sources.new.items }
    ensures read { OnOk result (AreRead sources.new.items) }
    ensures loaded { OnOk result (AllByRecursion (IsLoaded F.bytes) sources.new.items) }
    ensures defect { IfErr result (NamesDefect F.bytes (views sources.old.items)) }
{
    for source in sources.iter_mut() {
        source.load(dev)?;
    }
    Ok(())
}

/// The layers of the memtables and of all views, which are read.
pub fn layers<'a, F: FileRef>(
    mem: &'a MemParts,
    sources: &'a Vec<Source<F>>,
) -> Result<Vec<Layer<'a>>, AllocError>
    requires { AreRead sources.now.items }
    ensures { IfOk result (λ made. AreAlike made.items (layers mem.now sources.now.items)) }
{
    let mut made = Vec::with_capacity(*sources.allocator(), sources.len().saturating_add(1))?;
    made.push(Layer::new(mem.entries(), mem.spans()))?;
    for source in sources {
        made.push(source.layer())?;
    }
    Ok(made)
}
