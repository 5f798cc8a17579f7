//! What is shown of the engine's inside: levels and their tables, counts, and the states of snapshots.
ghost use Rattle.std.specs.Prelude.{◌≡◌, ◌==◌, ◌++◌, ◌∷◌, map, length, codes, OnOk, OnErr, if◌then◌else◌};
ghost use Rattle.xdb_text.specs.Kept.{Kept};
ghost use Rattle.xdb_plain.specs.Printed.{spaced, or_none, table_number, table_word, level_words, levels_words, count_word, state_text, snap_word};

use crate::words::{push_behind, push_decimal, push_number, push_word};
use std::alloc::AllocError;
use xdb_key::{Name, SnapState};
use xdb_meta::TableMeta;
use xdb_plain::{CountList, Items, SnapList, TableLists};

/// The levels with tables, and each one's tables.
pub fn push_levels(out: &mut Vec<u8>, levels: &TableLists) -> Result<(), AllocError>
    ensures printed { OnOk result (out.new.items ≡ out.old.items ++ 32 ∷ or_none (levels_words levels.now)) }
    ensures kept { OnErr result (Kept out.old.items out.new.items) }
{
    let start = out.len();
    push_full_levels(out, levels.list())?;
    push_none(out, start)
}

/// The numbers of files and their counts.
pub fn push_counts(out: &mut Vec<u8>, counts: &CountList) -> Result<(), AllocError>
    ensures printed { OnOk result (out.new.items ≡ out.old.items ++ 32 ∷ or_none (map count_word counts.now)) }
    ensures kept { OnErr result (Kept out.old.items out.new.items) }
{
    let start = out.len();
    push_each_count(out, counts.list())?;
    push_none(out, start)
}

/// The snapshots and their states.
pub fn push_snaps(out: &mut Vec<u8>, snaps: &SnapList) -> Result<(), AllocError>
    ensures printed { OnOk result (out.new.items ≡ out.old.items ++ 32 ∷ or_none (map snap_word snaps.now)) }
    ensures kept { OnErr result (Kept out.old.items out.new.items) }
{
    let start = out.len();
    push_each_snap(out, snaps.list())?;
    push_none(out, start)
}

/// The word `none`, where nothing was printed since the buffer had this length.
fn push_none(out: &mut Vec<u8>, start: usize) -> Result<(), AllocError>
    ensures printed { OnOk result (out.new.items ≡ (if length out.old.items == start then out.old.items ++ 32 ∷ codes "none" else out.old.items)) }
    ensures kept { OnErr result (Kept out.old.items out.new.items) }
{
    if out.len() == start {
        return push_word(out, b"none");
    }
    Ok(())
}

fn push_full_levels(out: &mut Vec<u8>, levels: &[Items<TableMeta>]) -> Result<(), AllocError>
    ensures printed { OnOk result (out.new.items ≡ out.old.items ++ spaced (levels_words levels.now)) }
    ensures kept { OnErr result (Kept out.old.items out.new.items) }
{
    for (level, tables) in levels.iter().enumerate() {
        push_level(out, level, tables.list())?;
    }
    Ok(())
}

/// A level with tables is `L`, its number and its tables.
fn push_level(out: &mut Vec<u8>, level: usize, tables: &[TableMeta]) -> Result<(), AllocError>
    ensures printed { OnOk result (out.new.items ≡ out.old.items ++ spaced (level_words level tables.now)) }
    ensures kept { OnErr result (Kept out.old.items out.new.items) }
{
    if tables.is_empty() {
        return Ok(());
    }
    push_word(out, b"L")?;
    push_decimal(out, level as u64)?;
    push_tables(out, tables)
}

fn push_tables(out: &mut Vec<u8>, tables: &[TableMeta]) -> Result<(), AllocError>
    ensures printed { OnOk result (out.new.items ≡ out.old.items ++ spaced (map table_word tables.now)) }
    ensures kept { OnErr result (Kept out.old.items out.new.items) }
{
    for table in tables {
        push_table(out, table)?;
    }
    Ok(())
}

/// A table and its bounds, as `2@1[a,b)`.
fn push_table(out: &mut Vec<u8>, table: &TableMeta) -> Result<(), AllocError>
    ensures printed { OnOk result (out.new.items ≡ out.old.items ++ 32 ∷ table_word table.now) }
    ensures kept { OnErr result (Kept out.old.items out.new.items) }
{
    push_table_number(out, table)?;
    push_behind(out, b'[', table.lo().bytes())?;
    push_behind(out, b',', table.hi().bytes())?;
    out.push(b')')?;
    Ok(())
}

/// A table's number, and for a part of another table's file `@` and that file's.
fn push_table_number(out: &mut Vec<u8>, table: &TableMeta) -> Result<(), AllocError>
    ensures printed { OnOk result (out.new.items ≡ out.old.items ++ 32 ∷ table_number table.now) }
    ensures kept { OnErr result (Kept out.old.items out.new.items) }
{
    push_number(out, table.num())?;
    if table.virt() {
        out.push(b'@')?;
        push_decimal(out, table.backing())?;
    }
    Ok(())
}

fn push_each_count(out: &mut Vec<u8>, counts: &[(u64, u64)]) -> Result<(), AllocError>
    ensures printed { OnOk result (out.new.items ≡ out.old.items ++ spaced (map count_word counts.now)) }
    ensures kept { OnErr result (Kept out.old.items out.new.items) }
{
    for (num, count) in counts {
        push_count(out, *num, *count)?;
    }
    Ok(())
}

fn push_count(out: &mut Vec<u8>, num: u64, count: u64) -> Result<(), AllocError>
    ensures printed { OnOk result (out.new.items ≡ out.old.items ++ 32 ∷ count_word (num, count)) }
    ensures kept { OnErr result (Kept out.old.items out.new.items) }
{
    push_number(out, num)?;
    out.push(b'=')?;
    push_decimal(out, count)
}

fn push_each_snap(out: &mut Vec<u8>, snaps: &[(Name, SnapState)]) -> Result<(), AllocError>
    ensures printed { OnOk result (out.new.items ≡ out.old.items ++ spaced (map snap_word snaps.now)) }
    ensures kept { OnErr result (Kept out.old.items out.new.items) }
{
    for (name, state) in snaps {
        push_snap(out, *name, *state)?;
    }
    Ok(())
}

fn push_snap(out: &mut Vec<u8>, name: Name, state: SnapState) -> Result<(), AllocError>
    ensures printed { OnOk result (out.new.items ≡ out.old.items ++ 32 ∷ snap_word (name, state)) }
    ensures kept { OnErr result (Kept out.old.items out.new.items) }
{
    push_word(out, name.bytes())?;
    out.push(b'=')?;
    push_state(out, state)
}

fn push_state(out: &mut Vec<u8>, state: SnapState) -> Result<(), AllocError>
    ensures printed { OnOk result (out.new.items ≡ out.old.items ++ state_text state) }
    ensures kept { OnErr result (Kept out.old.items out.new.items) }
{
    match state {
        SnapState::Pinned { group } => {
            out.extend_from_slice(b"pinned/")?;
            push_decimal(out, group)
        }
        SnapState::FileOnly => out.extend_from_slice(b"file-only"),
        SnapState::Excised { load } => {
            out.extend_from_slice(b"excised/")?;
            out.extend_from_slice(load.bytes())
        }
    }
}
