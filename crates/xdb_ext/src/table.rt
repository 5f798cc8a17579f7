ghost use Rattle.std.specs.Prelude.{◌≡◌, ◌≤◌, ◌<◌, ◌^◌, [], ◌++◌, length, map, None, Some, Err, IfOk, OnOk, IfSome, IfNone, IsOkUnless, IsTrue};
ghost use Rattle.std.specs.List.{All};
ghost use Rattle.std.specs.Option.{option_to_list};
ghost use Rattle.xdb_key.specs.Entries.{Point};
ghost use Rattle.xdb_key.specs.Ops.{is_table};
ghost use Rattle.xdb_rangedel.specs.Pieces.{is_ordered};
ghost use Rattle.xdb_table_w.specs.Content.{content, point_row, last_of, goes_behind};
ghost use Rattle.xdb_ext.specs.Operations.{point_of, points_of, span_of, spans_of, IsFileOf};
ghost use Rattle.xdb_ext.specs.Refusing.{refusal_of};
ghost use Rattle.xdb_ext.specs.TableBounds.{IsExtentOf};

use crate::{ExtNo, MAX_OPS};
use std::alloc::{AllocError, Global};
use xdb_key::{Entry, Extent, Op, Span, disorder};
use xdb_rangedel::Fragments;
use xdb_table_w::{TableWriter, Written};
use xdb_work::add_spans;

/// The number of all that an external table holds. A load gives it a number of its own.
const NUMBER: u64 = 0;

/// The file of an external table, and its extent.
#[derive(Drop)]
pub struct ExtTable {
    pub bytes: Vec<u8>,
    pub extent: Extent,
}

impl ExtTable {
    /// The table of 1 to 4,096 operations whose points rise strictly by key. Its spans act before its
    /// points, wherever they stand.
    pub fn build(alloc: Global, ops: &[Op]) -> Result<ExtTable, ExtNo>
        ensures file { IfOk result (λ t. IsFileOf ops.now t.bytes.items) }
        ensures extent { IfOk result (λ t. IsExtentOf ops.now t.extent) }
        ensures long { IfOk result (λ t. (1 ≤ length t.bytes.items) × (length t.bytes.items < 2 ^ 56)) }
        ensures refused { IfSome (refusal_of ops.now) (λ no. result ≡ Err no) }
        ensures succeeds { IfNone (refusal_of ops.now) (IsOkUnless result ExtNo.Memory) }
    {
        if ops.is_empty() {
            return Err(ExtNo::EmptyTable);
        }
        if ops.len() > MAX_OPS {
            return Err(ExtNo::TooMany);
        }
        if let Some(at) = disorder(ops) {
            return Err(ExtNo::OutOfOrder { at });
        }
        Ok(write(alloc, ops)?)
    }
}

/// Whether the operations make a table: they are 1 to 4,096, and their points rise strictly by key.
pub fn is_table(ops: &[Op]) -> bool
    ensures { result ≡ is_table ops.now }
{
    !ops.is_empty() && ops.len() <= MAX_OPS && disorder(ops).is_none()
}

/// The table of operations that make one.
pub fn write(alloc: Global, ops: &[Op]) -> Result<ExtTable, AllocError>
    requires { IsTrue (is_table ops.now) }
    ensures file { IfOk result (λ t. IsFileOf ops.now t.bytes.items) }
    ensures extent { IfOk result (λ t. IsExtentOf ops.now t.extent) }
    ensures long { IfOk result (λ t. (1 ≤ length t.bytes.items) × (length t.bytes.items < 2 ^ 56)) }
{
    let fragments = Fragments::from_spans(alloc, &spans(alloc, ops)?)?;
    let mut writer = TableWriter::new(alloc);
    add_points(&mut writer, ops)?;
    add_spans(&mut writer, &fragments)?;
    let Written { bytes, extent } = writer.finish()?;
    Ok(ExtTable { bytes, extent })
}

/// The range deletes, in their order.
fn spans(alloc: Global, ops: &[Op]) -> Result<Vec<Span>, AllocError>
    ensures made { IfOk result (λ made. made.items ≡ spans_of ops.now) }
    ensures ordered { IfOk result (λ made. All (λ t. IsTrue (is_ordered t)) made.items) }
{
    let mut out = Vec::new(alloc);
    for op in ops {
        add_span(&mut out, op)?;
    }
    Ok(out)
}

/// Adds the operation, where it is a range delete.
fn add_span(out: &mut Vec<Span>, op: &Op) -> Result<(), AllocError>
    ensures added { OnOk result (out.new.items ≡ out.old.items ++ option_to_list (span_of op.now)) }
    ensures ordered { All (λ t. IsTrue (is_ordered t)) out.old.items → OnOk result (All (λ t. IsTrue (is_ordered t)) out.new.items) }
{
    if let Op::DelSpan { range } = op {
        out.push(Span::new(range.copy()?, NUMBER))?;
    }
    Ok(())
}

/// Writes the points.
fn add_points(writer: &mut TableWriter, ops: &[Op]) -> Result<(), AllocError>
    requires order { IsTrue (is_table ops.now) }
    requires empty { writer.old ≡ content [] [] }
    ensures { OnOk result (writer.new ≡ content (map point_row (points_of ops.now)) []) }
{
    for op in ops {
        add_point(writer, op)?;
    }
    Ok(())
}

/// Writes the operation, where it is a point.
fn add_point(writer: &mut TableWriter, op: &Op) -> Result<(), AllocError>
    requires { (p : Point) → point_of op.now ≡ Some p → IsTrue (goes_behind (last_of None writer.old.points) (point_row p)) }
    ensures { OnOk result (writer.new ≡ content (writer.old.points ++ map point_row (option_to_list (point_of op.now))) writer.old.spans) }
{
    match entry(op)? {
        Some(entry) => writer.add(&entry),
        None => Ok(()),
    }
}

/// The operation as an entry, where it is a point.
fn entry(op: &Op) -> Result<Option<Entry>, AllocError>
    ensures { IfOk result (λ entry. entry ≡ point_of op.now) }
{
    match op {
        Op::Set { key, value } => {
            let key = key.copy()?;
            Ok(Some(Entry::set(key, NUMBER, value.copy()?)?))
        }
        Op::Del { key } => Ok(Some(Entry::del(key.copy()?, NUMBER)?)),
        Op::DelSpan { .. } => Ok(None),
    }
}
