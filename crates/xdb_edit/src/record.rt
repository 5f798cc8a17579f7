//! The records of an edit: how each is read, and how it is written.
ghost use Rattle.std.specs.Prelude.{◌≡◌, ◌-◌, ◌<◌, ◌≤◌, ◌++◌, length, IsTrue, IfOk, OnOk};
ghost use Rattle.xdb_meta.specs.Table.{IsTable, is_number};
ghost use Rattle.xdb_edit.specs.Records.{rank_of, is_before, is_level};
ghost use Rattle.xdb_edit.specs.Spelling.{table_bytes, physical_bytes, virtual_bytes, record_bytes};
ghost use Rattle.xdb_edit.specs.Reading.{Gives, table_at, removed_at, new_backing_at, physical_at, virtual_at, fields_at, record_at};

use crate::input::Input;
use crate::{EditBad, number, range};
use std::alloc::AllocError;
use xdb_key::{Extent, VarintNo, put_varint, read_varint};
use xdb_meta::{TableMeta, is_number, is_seq, is_synthetic};

const REMOVED: u64 = 1;

const NEW_BACKING: u64 = 2;

const PHYSICAL: u64 = 3;

const VIRTUAL: u64 = 4;

/// One record of an edit.
#[derive(Debug, Drop)]
pub enum Record {
    Removed { level: u8, num: u64 },
    NewBacking { num: u64 },
    Added { level: u8, table: TableMeta },
}

/// Where a record stands: all removals, then all new files, then all additions, each by level and number.
#[derive(Clone, Copy, Debug)]
pub struct Rank {
    pub kind: u8,
    pub level: u8,
    pub num: u64,
}

impl Rank {
    /// Before the rank of each record.
    pub const FRONT: Rank = Rank {
        kind: 0,
        level: 0,
        num: 0,
    };

    pub fn is_before(&self, other: &Rank) -> bool
        ensures { result ≡ is_before self.now other.now }
    {
        self.kind < other.kind
            || self.kind == other.kind
                && (self.level < other.level || self.level == other.level && self.num < other.num)
    }
}

impl Record {
    pub fn rank(&self) -> Rank
        ensures { result ≡ rank_of self.now }
    {
        match self {
            Record::Removed { level, num } => Rank {
                kind: 1,
                level: *level,
                num: *num,
            },
            Record::NewBacking { num } => Rank {
                kind: 2,
                level: 0,
                num: *num,
            },
            Record::Added { level, table } => Rank {
                kind: 3,
                level: *level,
                num: table.num(),
            },
        }
    }
}

/// What a record of each tag has, field by field: the field's kind, and its range, which may depend on
/// the fields before it. What both kinds of table end with stands once. `$each` is done with the fields.
macro_rules! fields {
    (REMOVED, $each:ident $with:tt, $level:ident $num:ident) => {
        $each!($with,
            $level: number if is_level($level),
            $num: number if is_number($num)
        );
    };
    (NEW_BACKING, $each:ident $with:tt, $num:ident) => {
        $each!($with,
            $num: number if is_number($num)
        );
    };
    (PHYSICAL, $each:ident $with:tt, $level:ident $num:ident) => {
        $each!($with,
            $level: number if is_level($level),
            $num: number if is_number($num)
        );
    };
    (VIRTUAL, $each:ident $with:tt, $level:ident $num:ident $backing:ident) => {
        $each!($with,
            $level: number if is_level($level),
            $num: number if is_number($num),
            $backing: number if is_number($backing) && $backing != $num
        );
    };
    (TABLE, $each:ident $with:tt,
        $range:ident $seq_lo:ident $seq_hi:ident $synthetic:ident $size:ident) => {
        $each!($with,
            $range: range,
            $seq_lo: number if is_seq($seq_lo),
            $seq_hi: number if is_seq($seq_hi) && $seq_lo <= $seq_hi,
            $synthetic: number if is_synthetic($seq_lo, $seq_hi, $synthetic),
            $size: number if is_number($size)
        );
    };
}

/// Reads the fields from the left, and stops at the first defect.
macro_rules! read {
    (($input:ident $bytes:ident), $($name:ident: $kind:ident $(if $in_range:expr)?),*) => {
        $(
            let field = $bytes;
            let ($name, $bytes) = $kind::read($input, field)?;
            $(if !($in_range) {
                return Err($input.bad_field(field));
            })?
        )*
    };
}

/// Appends the fields.
macro_rules! put {
    (($out:ident), $($name:ident: $kind:ident $(if $in_range:expr)?),*) => {
        $($kind::put($out, $name)?;)*
    };
}

fn is_level(level: u64) -> bool
    ensures { result ≡ is_level level }
{
    level < 7
}

#[tactic(auto, unfolding(crate::specs::Reading::removed_at, crate::specs::Reading::number_at))]
fn removed_of(input: Input, bytes: &[u8]) -> Result<(Record, &[u8]), EditBad>
    requires { length bytes.now ≤ input.len }
    ensures gives { Gives (λ x. (x.0, x.1.now)) result (removed_at input.len bytes.now) }
    ensures shorter { IfOk result (λ x. length x.1.now < length bytes.now) }
{
    fields!(REMOVED, read(input bytes), level num);
    let level = level as u8;
    Ok((Record::Removed { level, num }, bytes))
}

#[tactic(auto, unfolding(crate::specs::Reading::new_backing_at, crate::specs::Reading::number_at))]
fn new_backing_of(input: Input, bytes: &[u8]) -> Result<(Record, &[u8]), EditBad>
    requires { length bytes.now ≤ input.len }
    ensures gives { Gives (λ x. (x.0, x.1.now)) result (new_backing_at input.len bytes.now) }
    ensures shorter { IfOk result (λ x. length x.1.now < length bytes.now) }
{
    fields!(NEW_BACKING, read(input bytes), num);
    Ok((Record::NewBacking { num }, bytes))
}

#[tactic(auto, unfolding(crate::specs::Reading::physical_at, crate::specs::Reading::number_at))]
fn physical_of(input: Input, bytes: &[u8]) -> Result<(Record, &[u8]), EditBad>
    requires { length bytes.now ≤ input.len }
    ensures gives { Gives (λ x. (x.0, x.1.now)) result (physical_at input.len bytes.now) }
    ensures shorter { IfOk result (λ x. length x.1.now < length bytes.now) }
{
    fields!(PHYSICAL, read(input bytes), level num);
    let (table, bytes) = table_of(input, num, num, bytes)?;
    let level = level as u8;
    Ok((Record::Added { level, table }, bytes))
}

#[tactic(auto, unfolding(crate::specs::Reading::virtual_at, crate::specs::Reading::number_at))]
fn virtual_of(input: Input, bytes: &[u8]) -> Result<(Record, &[u8]), EditBad>
    requires { length bytes.now ≤ input.len }
    ensures gives { Gives (λ x. (x.0, x.1.now)) result (virtual_at input.len bytes.now) }
    ensures shorter { IfOk result (λ x. length x.1.now < length bytes.now) }
{
    fields!(VIRTUAL, read(input bytes), level num backing);
    let (table, bytes) = table_of(input, num, backing, bytes)?;
    let level = level as u8;
    Ok((Record::Added { level, table }, bytes))
}

/// What both kinds of table end with, made into the table of this number and backing.
#[tactic(auto, unfolding(crate::specs::Reading::table_at, crate::specs::Reading::number_at))]
fn table_of(
    input: Input,
    num: u64,
    backing: u64,
    bytes: &[u8],
) -> Result<(TableMeta, &[u8]), EditBad>
    requires len { length bytes.now ≤ input.len }
    requires num { IsTrue (is_number num) }
    requires backing { IsTrue (is_number backing) }
    ensures gives { Gives (λ x. (x.0, x.1.now)) result (table_at num backing input.len bytes.now) }
    ensures shorter { IfOk result (λ x. length x.1.now < length bytes.now) }
{
    fields!(TABLE, read(input bytes), range seq_lo seq_hi synthetic size);
    let extent = Extent::new(range, seq_lo, seq_hi);
    let table = if backing == num {
        TableMeta::physical(num, extent, synthetic, size)
    } else {
        TableMeta::virtual_(num, backing, extent, synthetic, size)
    };
    Ok((table, bytes))
}

#[tactic(auto, unfolding(crate::specs::Reading::fields_at))]
fn fields_of(input: Input, tag: u64, at: usize, bytes: &[u8]) -> Result<(Record, &[u8]), EditBad>
    requires { length bytes.now ≤ input.len }
    ensures gives { Gives (λ x. (x.0, x.1.now)) result (fields_at tag at input.len bytes.now) }
    ensures shorter { IfOk result (λ x. length x.1.now < length bytes.now) }
{
    match tag {
        REMOVED => removed_of(input, bytes),
        NEW_BACKING => new_backing_of(input, bytes),
        PHYSICAL => physical_of(input, bytes),
        VIRTUAL => virtual_of(input, bytes),
        tag => Err(EditBad::BadTag { tag, at }),
    }
}

/// The record at the front, and the bytes after it.
#[tactic(auto, unfolding(crate::specs::Reading::record_at))]
pub fn record_of(input: Input, bytes: &[u8]) -> Result<(Record, &[u8]), EditBad>
    requires { length bytes.now ≤ input.len }
    ensures gives { Gives (λ x. (x.0, x.1.now)) result (record_at input.len bytes.now) }
    ensures shorter { IfOk result (λ x. length x.1.now < length bytes.now) }
{
    let at = input.len - bytes.len();
    match read_varint(bytes) {
        Ok((tag, rest)) => fields_of(input, tag, at, rest),
        Err(VarintNo::Short) => Err(EditBad::Short { at: input.len }),
        Err(VarintNo::TooLarge | VarintNo::Overlong) => Err(EditBad::BadTag { tag: 0, at }),
    }
}

pub fn put_removed(out: &mut Vec<u8>, level: u8, num: u64) -> Result<(), AllocError>
    requires { IsTrue (is_number num) }
    ensures { OnOk result (out.new.items ≡ out.old.items ++ record_bytes (Record.Removed level num)) }
{
    let level = u64::from(level);
    put_varint(out, REMOVED)?;
    fields!(REMOVED, put(out), level num);
    Ok(())
}

pub fn put_new_backing(out: &mut Vec<u8>, num: u64) -> Result<(), AllocError>
    requires { IsTrue (is_number num) }
    ensures { OnOk result (out.new.items ≡ out.old.items ++ record_bytes (Record.NewBacking num)) }
{
    put_varint(out, NEW_BACKING)?;
    fields!(NEW_BACKING, put(out), num);
    Ok(())
}

pub fn put_added(out: &mut Vec<u8>, level: u8, table: &TableMeta) -> Result<(), AllocError>
    ensures written { OnOk result (out.new.items ≡ out.old.items ++ record_bytes (Record.Added level table.now)) }
    ensures table { IsTable table.now }
{
    if table.virt() {
        put_virtual(out, level, table)
    } else {
        put_physical(out, level, table)
    }
}

fn put_physical(out: &mut Vec<u8>, level: u8, table: &TableMeta) -> Result<(), AllocError>
    ensures written { OnOk result (out.new.items ≡ out.old.items ++ physical_bytes level table.now) }
    ensures table { IsTable table.now }
{
    let level = u64::from(level);
    let num = table.num();
    put_varint(out, PHYSICAL)?;
    fields!(PHYSICAL, put(out), level num);
    put_table(out, table)
}

fn put_virtual(out: &mut Vec<u8>, level: u8, table: &TableMeta) -> Result<(), AllocError>
    ensures written { OnOk result (out.new.items ≡ out.old.items ++ virtual_bytes level table.now) }
    ensures table { IsTable table.now }
{
    let level = u64::from(level);
    let num = table.num();
    let backing = table.backing();
    put_varint(out, VIRTUAL)?;
    fields!(VIRTUAL, put(out), level num backing);
    put_table(out, table)
}

fn put_table(out: &mut Vec<u8>, table: &TableMeta) -> Result<(), AllocError>
    ensures { OnOk result (out.new.items ≡ out.old.items ++ table_bytes table.now) }
{
    let range = table.range();
    let seq_lo = table.seq_lo();
    let seq_hi = table.seq_hi();
    let synthetic = table.synthetic();
    let size = table.size();
    fields!(TABLE, put(out), range seq_lo seq_hi synthetic size);
    Ok(())
}
