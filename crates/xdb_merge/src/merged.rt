ghost use Rattle.std.specs.Prelude.{◌≡◌, map, IfOk, IfErr, IsErrOf};
ghost use Rattle.xdb_device.specs.Counted.{Counted};
ghost use Rattle.xdb_plain.specs.declared.question.Place.TheVariants.{Before};
ghost use Rattle.xdb_plain.specs.declared.question.Step.TheVariants as steps;
ghost use Rattle.xdb_merge.specs.Merge.{merge, layers};
ghost use Rattle.xdb_merge.specs.Moves.{step_of, IsLanded};
ghost use Rattle.xdb_merge.specs.Sources.{unread};
ghost use Rattle.xdb_merge.specs.Steps.{AreRead, IsStep};

use crate::moves::{Move, landed};
use crate::source::{Source, layers, load_all};
use std::alloc::{AllocError, Global};
use std::marker::Model;
use xdb_device::{FileRef, Reader};
use xdb_key::{Entry, Key, KeyRange};
use xdb_mem::MemParts;
use xdb_plain::Place;
use xdb_table_r::{TableNo, View};

/// A cursor over the pairs that memtables and views of tables have together, at a number and inside
/// bounds. Of each key the greatest number decides, and an entry wins a tie with a range tombstone. A pair
/// is answered as the entry that decides.
///
/// A cursor stands before the first pair at first. Its first call reads the views; a call that fails leaves
/// the place, and what it read stays read. What memtables have is borrowed, so a cursor costs nothing for it.
#[derive(Drop)]
pub struct Merged<'a, F: FileRef> {
    mem: &'a MemParts,
    sources: Vec<Source<F>>,
    bounds: KeyRange,
    at: u64,
    place: Place,
}

impl<'a, F: FileRef> Model for Merged<'a, F> {
    ghost use Rattle.xdb_merge.specs.Merge.{Merge, merge};

    ghost Value = { Merge F };

    ghost view = { λ m. merge m.mem.now m.sources.items m.bounds m.at m.place };
}

impl<'a, F: FileRef> Merged<'a, F> {
    /// A cursor before the first pair. Numbers from `at` on aren't seen. Nothing is read yet.
    pub fn new(
        mem: &'a MemParts,
        views: Vec<View<F>>,
        bounds: KeyRange,
        at: u64,
    ) -> Result<Self, AllocError>
        ensures { IfOk result (λ made. made ≡ merge mem.now (map unread views.items) bounds at Before) }
    {
        let sources = sources(*views.allocator(), views)?;
        Ok(Merged {
            mem,
            sources,
            bounds,
            at,
            place: Place::Before,
        })
    }

    /// The cursor at a place, as one that has gone there.
    pub fn with_place(self, place: Place) -> Self
        ensures { result
            ≡ merge self.entry.mem self.entry.walks self.entry.bounds self.entry.at place }
    {
        let Merged {
            mem,
            sources,
            bounds,
            at,
            place: _,
        } = self;
        Merged {
            mem,
            sources,
            bounds,
            at,
            place,
        }
    }

    /// Where it stands.
    pub fn place(&self) -> &Place
        ensures { result.now ≡ self.now.place }
    {
        &self.place
    }

    /// Gives back where it stands, without memory.
    pub fn into_place(self) -> Place
        ensures { result ≡ self.entry.place }
    {
        self.place
    }

    /// Goes to the next pair. Behind the last one it stays.
    pub fn next<R: Reader<File = F>>(&mut self, dev: &mut R) -> Result<Option<Entry>, TableNo>
        ensures counted { Counted R.faults R.misses R.frame dev.old dev.new
            (IsErrOf result TableNo.ReadFault) }
        ensures told { R.told dev.new ≡ R.told dev.old }
        // The views are read once: then the device isn't used, and only memory can be wanting.
        ensures alone { AreRead self.old.walks → dev.new ≡ dev.old }
        ensures calm { AreRead self.old.walks → IfErr result (λ no. no ≡ TableNo.Memory) }
        ensures step { IsStep F.bytes steps.Next self.old self.new result }
    {
        self.go(Move::Next, dev)
    }

    /// Goes to the pair before. Before the first one it stays.
    pub fn prev<R: Reader<File = F>>(&mut self, dev: &mut R) -> Result<Option<Entry>, TableNo>
        ensures counted { Counted R.faults R.misses R.frame dev.old dev.new
            (IsErrOf result TableNo.ReadFault) }
        ensures told { R.told dev.new ≡ R.told dev.old }
        // The views are read once: then the device isn't used, and only memory can be wanting.
        ensures alone { AreRead self.old.walks → dev.new ≡ dev.old }
        ensures calm { AreRead self.old.walks → IfErr result (λ no. no ≡ TableNo.Memory) }
        ensures step { IsStep F.bytes steps.Prev self.old self.new result }
    {
        self.go(Move::Prev, dev)
    }

    /// Goes to the first pair whose key isn't below this one, or behind the last pair.
    pub fn seek_ge<R: Reader<File = F>>(
        &mut self,
        key: &Key,
        dev: &mut R,
    ) -> Result<Option<Entry>, TableNo>
        ensures counted { Counted R.faults R.misses R.frame dev.old dev.new
            (IsErrOf result TableNo.ReadFault) }
        ensures told { R.told dev.new ≡ R.told dev.old }
        // The views are read once: then the device isn't used, and only memory can be wanting.
        ensures alone { AreRead self.old.walks → dev.new ≡ dev.old }
        ensures calm { AreRead self.old.walks → IfErr result (λ no. no ≡ TableNo.Memory) }
        ensures step { IsStep F.bytes (steps.Seek key.now) self.old self.new result }
    {
        self.go(Move::Ge(key), dev)
    }

    /// Goes to the last pair whose key is below this one, or before the first pair.
    pub fn seek_lt<R: Reader<File = F>>(
        &mut self,
        key: &Key,
        dev: &mut R,
    ) -> Result<Option<Entry>, TableNo>
        ensures counted { Counted R.faults R.misses R.frame dev.old dev.new
            (IsErrOf result TableNo.ReadFault) }
        ensures told { R.told dev.new ≡ R.told dev.old }
        // The views are read once: then the device isn't used, and only memory can be wanting.
        ensures alone { AreRead self.old.walks → dev.new ≡ dev.old }
        ensures calm { AreRead self.old.walks → IfErr result (λ no. no ≡ TableNo.Memory) }
        ensures step { IsStep F.bytes (steps.SeekLt key.now) self.old self.new result }
    {
        self.go(Move::Lt(key), dev)
    }

    /// Reads what isn't read yet, then moves.
    fn go<R: Reader<File = F>>(&mut self, to: Move, dev: &mut R) -> Result<Option<Entry>, TableNo>
        ensures counted { Counted R.faults R.misses R.frame dev.old dev.new
            (IsErrOf result TableNo.ReadFault) }
        ensures told { R.told dev.new ≡ R.told dev.old }
        ensures alone { AreRead self.old.walks → dev.new ≡ dev.old }
        ensures calm { AreRead self.old.walks → IfErr result (λ no. no ≡ TableNo.Memory) }
        ensures step { IsStep F.bytes (step_of to.entry) self.old self.new result }
    {
        load_all(&mut self.sources, dev)?;
        let (entry, place) = self.moved(to)?;
        self.place = place;
        Ok(entry)
    }

    /// The entry of the pair that the move leads to, and the new place.
    fn moved(&self, to: Move) -> Result<(Option<Entry>, Place), AllocError>
        requires { AreRead self.now.walks }
        ensures { IfOk result (λ l. IsLanded (layers self.now.mem self.now.walks) self.now.bounds
            self.now.at self.now.place (step_of to.entry) l.0 l.1) }
    {
        let layers = layers(self.mem, &self.sources)?;
        landed(&layers, &self.bounds, self.at, &self.place, to)
    }
}

fn sources<F: FileRef>(alloc: Global, views: Vec<View<F>>) -> Result<Vec<Source<F>>, AllocError>
    ensures { IfOk result (λ made. made.items ≡ map unread views.items) }
{
    let mut sources = Vec::with_capacity(alloc, views.len())?;
    for view in views {
        sources.push(Source::new(alloc, view)?)?;
    }
    Ok(sources)
}
