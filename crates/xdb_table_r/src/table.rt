ghost use Rattle.std.specs.Prelude.{◌≡◌, ◌^◌, ◌<◌, ◌≤◌, true, length, None, IfOk, IfErr, IfSome, IsErrOf};
ghost use Rattle.xdb_block.specs.declared.kind.BlockKind.{BlockKind};
ghost use Rattle.xdb_block.specs.Rows.{Follow};
ghost use Rattle.xdb_device.specs.Counted.{Counted};
ghost use Rattle.xdb_table_r.specs.Parts.{follow_on};
ghost use Rattle.xdb_table_r.specs.Opening.{Tells, LiesIn, points_end, footer_at, index_at, opened, opened_at};
ghost use Rattle.xdb_table_r.specs.Tables.{listed, IsOpen};
ghost use Rattle.xdb_table_r.specs.Views.{range_of, seen_at, AreSeen};

use crate::TableNo;
use crate::footer::{self, layout, points_end};
use crate::handle::follow_on;
use crate::part::Layout;
use crate::points::read_all;
use crate::read::{read_block, read_range};
use crate::spans::read_spans;
use crate::window::Window;
use std::alloc::Global;
use std::marker::Model;
use xdb_block::{Block, BlockKind};
use xdb_device::{FileRef, Reader};
use xdb_key::Entry;
use xdb_rangedel::Fragments;

/// A table file whose footer, index and spans were read. Its points are read when they are asked for.
#[derive(Drop)]
pub struct TableFile<F: FileRef> {
    alloc: Global,
    file: F,
    backing: u64,
    spans: Fragments,
    /// None where there are no points.
    index: Option<Block>,
    /// Where the point blocks end.
    end: u64,
}

impl<F: FileRef> Model for TableFile<F> {
    ghost use Rattle.xdb_table_r.specs.Tables.{Table, table, listed, IsOpen};

    ghost Value = { Table F };

    ghost view = { λ t. table t.file t.backing t.spans (listed t.index) t.end };

    ghost invariant = { λ t. IsOpen F.size F.bytes (table t.file t.backing t.spans (listed t.index) t.end) };
}

impl<F: FileRef> TableFile<F> {
    /// Opens the file with the number `backing`: reads its footer, its index and its spans, in this order,
    /// and names the first of them that isn't in the grammar. It reads within the file, whatever the
    /// numbers in it say. What it keeps takes more memory than the blocks read: an index is kept with
    /// whole keys, up to 16 times its length.
    pub fn open<R: Reader<File = F>>(
        alloc: Global,
        file: F,
        backing: u64,
        dev: &mut R,
    ) -> Result<Self, TableNo>
        ensures counted { Counted R.faults R.misses R.frame dev.old dev.new (IsErrOf result TableNo.ReadFault) }
        ensures told { R.told dev.new ≡ R.told dev.old }
        // Over a file that tells its bytes, the table is what they read as, or the first defect is named.
        ensures tells { IfSome (F.bytes file) (λ b. Tells backing (λ t. opened t.spans t.index t.end) result (opened_at b)) }
        ensures file { IfOk result (λ t. t.file ≡ file) }
        ensures backing { IfOk result (λ t. t.backing ≡ backing) }
        ensures open { IfOk result (IsOpen F.size F.bytes) }
    {
        let layout = read_layout(alloc, dev, &file, backing)?;
        let index = read_index(alloc, dev, &file, backing, layout)?;
        let spans = read_spans(alloc, dev, &file, backing, layout.spans)?;
        let end = points_end(layout);
        Ok(TableFile {
            alloc,
            file,
            backing,
            spans,
            index,
            end,
        })
    }
}

impl<F: FileRef> TableFile<F> {
    /// The points that the window shows, in order.
    pub(crate) fn points<R: Reader<File = F>>(
        &self,
        dev: &mut R,
        window: &Window,
    ) -> Result<Vec<Entry>, TableNo>
        requires small { window.now.synthetic < 2 ^ 56 }
        ensures counted { Counted R.faults R.misses R.frame dev.old dev.new (IsErrOf result TableNo.ReadFault) }
        ensures told { R.told dev.new ≡ R.told dev.old }
        ensures tells { IfSome (F.bytes self.now.file) (λ b. Tells self.now.backing (λ out. out.items) result (seen_at (range_of window.now) window.now.synthetic self.now.index b)) }
        ensures seen { IfOk result (λ out. AreSeen (range_of window.now) window.now.synthetic out.items) }
    {
        match &self.index {
            None => Ok(Vec::new(self.alloc)),
            Some(index) => {
                read_all(
                    self.alloc,
                    dev,
                    &self.file,
                    self.backing,
                    index,
                    self.end,
                    window,
                )
            }
        }
    }

    /// The spans, as they stand in the file.
    pub(crate) fn spans(&self) -> &Fragments
        ensures { result.now ≡ self.now.spans }
    {
        &self.spans
    }

    /// The allocator that the table is kept by.
    pub(crate) fn allocator(&self) -> Global {
        self.alloc
    }
}

/// The length of a file, also of its bytes where it tells them.
fn size_of<F: FileRef>(file: &F) -> u64
    ensures size { result ≡ F.size file.now }
    ensures told { IfSome (F.bytes file.now) (λ b. length b ≡ result) }
{
    file.len()
}

/// What the footer says of a file.
fn read_layout<R: Reader>(
    alloc: Global,
    dev: &mut R,
    file: &R::File,
    backing: u64,
) -> Result<Layout, TableNo>
    ensures counted { Counted R.faults R.misses R.frame dev.old dev.new (IsErrOf result TableNo.ReadFault) }
    ensures told { R.told dev.new ≡ R.told dev.old }
    ensures tells { IfSome (R.File.bytes file.now) (λ told. Tells backing (λ l. l) result (footer_at told)) }
    ensures lies { IfOk result (LiesIn (R.File.size file.now)) }
{
    let size = size_of(file);
    if size < footer::LEN {
        return Err(TableNo::Damaged { backing, at: 0 });
    }
    let end = size - footer::LEN;
    let bytes = read_range(alloc, dev, file, end, size)?;
    match layout(end, &bytes) {
        Some(layout) => Ok(layout),
        None => Err(TableNo::Damaged { backing, at: end }),
    }
}

/// The index of a file, none where it is left out. Its point blocks follow one another.
fn read_index<R: Reader>(
    alloc: Global,
    dev: &mut R,
    file: &R::File,
    backing: u64,
    layout: Layout,
) -> Result<Option<Block>, TableNo>
    requires { LiesIn (R.File.size file.now) layout }
    ensures counted { Counted R.faults R.misses R.frame dev.old dev.new (IsErrOf result TableNo.ReadFault) }
    ensures told { R.told dev.new ≡ R.told dev.old }
    ensures tells { IfSome (R.File.bytes file.now) (λ told. Tells backing listed result (index_at layout told)) }
    ensures tiles { IfOk result (λ index. follow_on 0 (points_end layout) (listed index) ≡ true) }
    ensures rows { IfOk result (λ index. Follow BlockKind.Index None (listed index)) }
{
    let part = layout.index;
    if part.len == 0 {
        return Ok(None);
    }
    let block = read_block(alloc, dev, file, backing, BlockKind::Index, part)?;
    if !follow_on(&block, points_end(layout)) {
        return Err(TableNo::Damaged {
            backing,
            at: part.at,
        });
    }
    Ok(Some(block))
}
