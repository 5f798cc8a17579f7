//! One output: a table in a file of its own.
ghost use Rattle.std.specs.Prelude.{◌≡◌, ◌+◌, ◌^◌, ◌<◌, ◌≤◌, [], ◌∷◌, ◌++◌, length, map, Some, vec_capacity, IfOk, IfSome, OnOk, IsErrOf, IsTrue};
ghost use Rattle.xdb_device.specs.Counted.{Counted};
ghost use Rattle.xdb_device.specs.Told.{Created};
ghost use Rattle.xdb_halves.specs.Beside.{IsExtent};
ghost use Rattle.std.specs.List.{All};
ghost use Rattle.xdb_key.specs.Entries.{IsPoint};
ghost use Rattle.xdb_key.specs.InOrder.{AreInOrder};
ghost use Rattle.xdb_meta.specs.Table.{physical, is_number};
ghost use Rattle.xdb_rangedel.specs.Content.{content_of};
ghost use Rattle.xdb_table_w.specs.Content.{content, point_row};
ghost use Rattle.xdb_build.specs.Outputs.{file_content};

use std::alloc::{AllocError, Global};
use xdb_device::{DevNo, Device, FileRef};
use xdb_key::Entry;
use xdb_meta::TableMeta;
use xdb_rangedel::Fragments;
use xdb_table_w::{TableWriter, Written};
use xdb_work::{add_spans, create};

/// The table file of the entries and the fragments, of which there are some, and its extent.
pub fn table_of(alloc: Global, entries: &[Entry], spans: &Fragments) -> Result<Written, AllocError>
    requires order { AreInOrder entries.now }
    requires some { 1 ≤ length entries.now + length spans.now }
    ensures content { IfOk result (λ made. file_content made.bytes.items
        ≡ content_of entries.now spans.now) }
    ensures extent { IfOk result (λ made. IsExtent (content_of entries.now spans.now)
        (Some made.extent)) }
    ensures long { IfOk result (λ made. (1 ≤ length made.bytes.items)
        × (length made.bytes.items < 2 ^ 56)) }
{
    prove!(are_points(entries));
    // That the numbers of the spans are small comes with their list.
    let _spans = spans.list();
    let mut writer = TableWriter::new(alloc);
    add_entries(&mut writer, entries)?;
    add_spans(&mut writer, spans)?;
    writer.finish()
}

/// Whether each number is a sequence number, as that of each entry is.
fn are_points(entries: &[Entry]) -> bool
    ensures all { IsTrue result }
    ensures points { All IsPoint entries.now }
{
    for entry in entries {
        if entry.seq() >= 1 << 56 {
            return false;
        }
    }
    true
}

/// Adds the entries to an empty table.
fn add_entries(writer: &mut TableWriter, entries: &[Entry]) -> Result<(), AllocError>
    requires order { AreInOrder entries.now }
    requires points { All IsPoint entries.now }
    requires empty { writer.old ≡ content [] [] }
    ensures { OnOk result (writer.new ≡ content (map point_row entries.now) []) }
{
    for entry in entries {
        writer.add(entry)?;
    }
    Ok(())
}

/// Creates the table's file under the number, and names that among the numbers that were tried, for which there is
/// room.
pub fn create_table<D: Device>(
    num: u64,
    table: Written,
    dev: &mut D,
    tried: &mut Vec<u64>,
) -> Result<(TableMeta, D::File), DevNo>
    requires num { IsTrue (is_number num) }
    requires long { (1 ≤ length table.bytes.items) × (length table.bytes.items < 2 ^ 56) }
    requires room { length tried.old.items + 1 ≤ vec_capacity tried.old }
    ensures tried { tried.new.items ≡ tried.old.items ++ num ∷ [] }
    ensures capacity { vec_capacity tried.old ≤ vec_capacity tried.new }
    ensures counted { Counted D.faults D.misses D.frame dev.old dev.new
        (IsErrOf result DevNo.Failed) }
    ensures told { Created num table.bytes.items result (D.told dev.old) (D.told dev.new) }
    ensures table { IfOk result (λ made. made.0
        ≡ physical num table.extent 0 (length table.bytes.items)) }
    ensures size { IfOk result (λ made. D.File.size made.1 ≡ length table.bytes.items) }
    ensures bytes { IfOk result (λ made. IfSome (D.File.bytes made.1)
        (λ told. told ≡ table.bytes.items)) }
{
    let Written { bytes, extent } = table;
    let file = create(dev, num, &bytes, tried)?;
    let size = file.len();
    Ok((TableMeta::physical(num, extent, 0, size), file))
}
