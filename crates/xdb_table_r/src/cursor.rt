//! A cursor over the points of a view. It reads all of them at its first call.
ghost use Rattle.std.specs.Prelude.{◌≡◌, ◌+◌, ◌≤◌, true, false, [], length, IfOk, OnOk, OnErr, IfSome, IsErrOf};
ghost use Rattle.std.specs.List.{AllPairs};
ghost use Rattle.std.specs.Prelude.{IsTrue};
ghost use Rattle.xdb_key.specs.Order.{is_upto, is_below};
ghost use Rattle.xdb_device.specs.Counted.{Counted};
ghost use Rattle.xdb_table_r.specs.Opening.{Tells};
ghost use Rattle.xdb_table_r.specs.Views.{view_at};
ghost use Rattle.xdb_table_r.specs.Cursors.{walk, IsWalk, ArePointsOf, at_place, below, next_place, prev_place, ge_place, lt_place};

use crate::TableNo;
use crate::view::View;
use std::alloc::AllocError;
use std::marker::Model;
use xdb_device::{FileRef, Reader};
use xdb_key::{Entry, Key, is_below};

/// A cursor over the points of a view, seen as these points, once they are read, and its place among them.
#[derive(Drop)]
pub struct ViewCursor<F: FileRef> {
    view: View<F>,
    read: bool,
    points: Vec<Entry>,
    place: usize,
}

impl<F: FileRef> Model for ViewCursor<F> {
    ghost use Rattle.xdb_table_r.specs.Cursors.{Walk, walk, IsWalk};

    ghost Value = { Walk F };

    ghost view = { λ c. walk c.view c.read c.points.items c.place };

    ghost invariant = { λ c. IsWalk F.bytes (walk c.view c.read c.points.items c.place) };
}

impl<F: FileRef> ViewCursor<F> {
    pub(crate) fn new(view: View<F>) -> Self
        ensures { result ≡ walk view false [] 0 }
    {
        let points = Vec::new(view.table.allocator());
        ViewCursor {
            view,
            read: false,
            points,
            place: 0,
        }
    }

    /// The view that the cursor goes over.
    pub fn view(&self) -> &View<F>
        ensures view { result.now ≡ self.now.view }
        ensures walk { IsWalk F.bytes self.now }
    {
        &self.view
    }

    /// Whether the points are read.
    pub fn is_read(&self) -> bool
        ensures read { result ≡ self.now.read }
        ensures walk { IsWalk F.bytes self.now }
    {
        self.read
    }

    /// The points, in order; none before they are read.
    pub fn points(&self) -> &[Entry]
        ensures points { result.now ≡ self.now.points }
        ensures walk { IsWalk F.bytes self.now }
    {
        &self.points
    }

    /// Reads the points, where they aren't read yet. The place stays.
    pub fn load<R: Reader<File = F>>(&mut self, dev: &mut R) -> Result<(), TableNo>
        ensures counted { Counted R.faults R.misses R.frame dev.old dev.new (IsErrOf result TableNo.ReadFault) }
        ensures told { R.told dev.new ≡ R.told dev.old }
        // The points are read once.
        ensures alone { self.old.read ≡ true → dev.new ≡ dev.old }
        ensures view { self.new.view ≡ self.old.view }
        ensures place { self.new.place ≡ self.old.place }
        ensures read { OnOk result (self.new.read ≡ true) }
        ensures left { OnErr result (self.new.read ≡ self.old.read) }
        ensures same { OnErr result (self.new.points ≡ self.old.points) }
        ensures kept { self.old.read ≡ true → self.new.points ≡ self.old.points }
        // Over a file that tells its bytes, the points are what they read as, or the first defect is named.
        ensures tells { IfSome (F.bytes self.old.view.table.file) (λ b. Tells self.old.view.table.backing (λ e. self.new.points) result (view_at self.old.view b)) }
        ensures walk { IsWalk F.bytes self.new }
    {
        load(&self.view, &mut self.read, &mut self.points, dev)
    }

    /// Goes to the next point and answers it. Behind the last point it stays.
    pub fn next<R: Reader<File = F>>(&mut self, dev: &mut R) -> Result<Option<Entry>, TableNo>
        ensures counted { Counted R.faults R.misses R.frame dev.old dev.new (IsErrOf result TableNo.ReadFault) }
        ensures told { R.told dev.new ≡ R.told dev.old }
        // The points are read once.
        ensures alone { self.old.read ≡ true → dev.new ≡ dev.old }
        ensures view { self.new.view ≡ self.old.view }
        ensures read { OnOk result (self.new.read ≡ true) }
        ensures kept { self.old.read ≡ true → self.new.points ≡ self.old.points }
        ensures points { self.new.read ≡ true → ArePointsOf F.bytes self.new.view self.new.points }
        // Over a file that tells its bytes, the points are what they read as, or the first defect is named.
        ensures tells { IfSome (F.bytes self.old.view.table.file) (λ b. Tells self.old.view.table.backing (λ e. self.new.points) result (view_at self.old.view b)) }
        ensures place { OnOk result (self.new.place ≡ next_place (length self.new.points) self.old.place) }
        ensures answer { IfOk result (λ e. e ≡ at_place self.new.points self.new.place) }
        ensures stays { OnErr result (self.new.place ≡ self.old.place) }
        ensures walk { IsWalk F.bytes self.new }
    {
        load(&self.view, &mut self.read, &mut self.points, dev)?;
        let place = self.place.min(self.points.len()) + 1;
        let entry = at_place(&self.points, place)?;
        self.place = place;
        Ok(entry)
    }

    /// Goes to the point before and answers it. Before the first point it stays.
    pub fn prev<R: Reader<File = F>>(&mut self, dev: &mut R) -> Result<Option<Entry>, TableNo>
        ensures counted { Counted R.faults R.misses R.frame dev.old dev.new (IsErrOf result TableNo.ReadFault) }
        ensures told { R.told dev.new ≡ R.told dev.old }
        // The points are read once.
        ensures alone { self.old.read ≡ true → dev.new ≡ dev.old }
        ensures view { self.new.view ≡ self.old.view }
        ensures read { OnOk result (self.new.read ≡ true) }
        ensures kept { self.old.read ≡ true → self.new.points ≡ self.old.points }
        ensures points { self.new.read ≡ true → ArePointsOf F.bytes self.new.view self.new.points }
        // Over a file that tells its bytes, the points are what they read as, or the first defect is named.
        ensures tells { IfSome (F.bytes self.old.view.table.file) (λ b. Tells self.old.view.table.backing (λ e. self.new.points) result (view_at self.old.view b)) }
        ensures place { OnOk result (self.new.place ≡ prev_place self.old.place) }
        ensures answer { IfOk result (λ e. e ≡ at_place self.new.points self.new.place) }
        ensures stays { OnErr result (self.new.place ≡ self.old.place) }
        ensures walk { IsWalk F.bytes self.new }
    {
        load(&self.view, &mut self.read, &mut self.points, dev)?;
        let place = self.place.saturating_sub(1);
        let entry = at_place(&self.points, place)?;
        self.place = place;
        Ok(entry)
    }

    /// Goes to the first point whose key isn't below this one, or behind the last point.
    pub fn seek_ge<R: Reader<File = F>>(
        &mut self,
        key: &Key,
        dev: &mut R,
    ) -> Result<Option<Entry>, TableNo>
        ensures counted { Counted R.faults R.misses R.frame dev.old dev.new (IsErrOf result TableNo.ReadFault) }
        ensures told { R.told dev.new ≡ R.told dev.old }
        // The points are read once.
        ensures alone { self.old.read ≡ true → dev.new ≡ dev.old }
        ensures view { self.new.view ≡ self.old.view }
        ensures read { OnOk result (self.new.read ≡ true) }
        ensures kept { self.old.read ≡ true → self.new.points ≡ self.old.points }
        ensures points { self.new.read ≡ true → ArePointsOf F.bytes self.new.view self.new.points }
        // Over a file that tells its bytes, the points are what they read as, or the first defect is named.
        ensures tells { IfSome (F.bytes self.old.view.table.file) (λ b. Tells self.old.view.table.backing (λ e. self.new.points) result (view_at self.old.view b)) }
        ensures place { OnOk result (self.new.place ≡ ge_place key.now self.new.points) }
        ensures answer { IfOk result (λ e. e ≡ at_place self.new.points self.new.place) }
        ensures stays { OnErr result (self.new.place ≡ self.old.place) }
        ensures walk { IsWalk F.bytes self.new }
    {
        load(&self.view, &mut self.read, &mut self.points, dev)?;
        let place = below(&self.points, key) + 1;
        let entry = at_place(&self.points, place)?;
        self.place = place;
        Ok(entry)
    }

    /// Goes to the last point whose key is below this one, or before the first point.
    pub fn seek_lt<R: Reader<File = F>>(
        &mut self,
        key: &Key,
        dev: &mut R,
    ) -> Result<Option<Entry>, TableNo>
        ensures counted { Counted R.faults R.misses R.frame dev.old dev.new (IsErrOf result TableNo.ReadFault) }
        ensures told { R.told dev.new ≡ R.told dev.old }
        // The points are read once.
        ensures alone { self.old.read ≡ true → dev.new ≡ dev.old }
        ensures view { self.new.view ≡ self.old.view }
        ensures read { OnOk result (self.new.read ≡ true) }
        ensures kept { self.old.read ≡ true → self.new.points ≡ self.old.points }
        ensures points { self.new.read ≡ true → ArePointsOf F.bytes self.new.view self.new.points }
        // Over a file that tells its bytes, the points are what they read as, or the first defect is named.
        ensures tells { IfSome (F.bytes self.old.view.table.file) (λ b. Tells self.old.view.table.backing (λ e. self.new.points) result (view_at self.old.view b)) }
        ensures place { OnOk result (self.new.place ≡ lt_place key.now self.new.points) }
        ensures answer { IfOk result (λ e. e ≡ at_place self.new.points self.new.place) }
        ensures stays { OnErr result (self.new.place ≡ self.old.place) }
        ensures walk { IsWalk F.bytes self.new }
    {
        load(&self.view, &mut self.read, &mut self.points, dev)?;
        let place = below(&self.points, key);
        let entry = at_place(&self.points, place)?;
        self.place = place;
        Ok(entry)
    }
}

/// Reads the points of a view, where they aren't read yet.
fn load<F: FileRef, R: Reader<File = F>>(
    view: &View<F>,
    read: &mut bool,
    points: &mut Vec<Entry>,
    dev: &mut R,
) -> Result<(), TableNo>
    requires unread { read.old ≡ false → points.old.items ≡ [] }
    requires known { read.old ≡ true → ArePointsOf F.bytes view.now points.old.items }
    ensures counted { Counted R.faults R.misses R.frame dev.old dev.new (IsErrOf result TableNo.ReadFault) }
    ensures told { R.told dev.new ≡ R.told dev.old }
    ensures alone { read.old ≡ true → dev.new ≡ dev.old }
    ensures read { OnOk result (read.new ≡ true) }
    ensures left { OnErr result (read.new ≡ read.old) }
    ensures same { OnErr result (points.new.items ≡ points.old.items) }
    ensures kept { read.old ≡ true → points.new.items ≡ points.old.items }
    ensures known { OnOk result (ArePointsOf F.bytes view.now points.new.items) }
    ensures tells { IfSome (F.bytes view.now.table.file) (λ b. Tells view.now.table.backing (λ e. points.new.items) result (view_at view.now b)) }
{
    if *read {
        return Ok(());
    }
    let list = view.table.points(dev, &view.window)?;
    *points = list;
    *read = true;
    Ok(())
}

/// The point at a place, copied.
fn at_place(points: &[Entry], place: usize) -> Result<Option<Entry>, AllocError>
    ensures { IfOk result (λ e. e ≡ at_place points.now place) }
{
    if place == 0 || place > points.len() {
        return Ok(None);
    }
    let entry = points[place - 1].copy()?;
    Ok(Some(entry))
}

/// How many points have keys below this one, by binary search.
fn below(points: &[Entry], key: &Key) -> usize
    requires { AllPairs (λ a b. IsTrue (is_upto a.key b.key)) points.now }
    ensures below { result ≡ below key.now points.now }
    ensures within { result ≤ length points.now }
{
    points.partition_point(|entry| stands_before(entry, key))
}

fn stands_before(entry: &Entry, key: &Key) -> bool
    ensures { result ≡ is_below entry.now.key key.now }
{
    is_below(entry.key().bytes(), key.bytes())
}
