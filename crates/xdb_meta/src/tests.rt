use crate::{TableMeta, is_number, is_seq, is_synthetic};
use std::alloc::Global;
use std::test::Fail;
use xdb_key::{Bound, Extent, KeyRange};

/// The greatest number.
const MOST: u64 = (1 << 56) - 1;

fn bound(alloc: Global, text: &str) -> Result<Bound, Fail> {
    Ok(Bound::new(text.as_bytes().to_vec(alloc)?)?)
}

fn range(alloc: Global, lo: &str, hi: &str) -> Result<KeyRange, Fail> {
    Ok(KeyRange::new(bound(alloc, lo)?, bound(alloc, hi)?)?)
}

fn whole(alloc: Global) -> Result<TableMeta, Fail> {
    let extent = Extent::new(range(alloc, "a", "m")?, 2, 5);
    Ok(TableMeta::physical(1, extent, 0, 85))
}

fn half(alloc: Global) -> Result<TableMeta, Fail> {
    let extent = Extent::new(range(alloc, "a", "c")?, 2, 5);
    Ok(TableMeta::virtual_(2, 1, extent, 0, 43))
}

/// A table whose numbers and size are the greatest.
fn greatest(alloc: Global) -> Result<TableMeta, Fail> {
    let extent = Extent::new(range(alloc, "a", "c")?, MOST, MOST);
    Ok(TableMeta::physical(MOST, extent, MOST, MOST))
}

/// A table that was copied so often, each time from the copy before.
fn copied(table: TableMeta, times: usize) -> Result<TableMeta, Fail> {
    let mut table = table;
    for _ in 0..times {
        table = table.copy()?;
    }
    Ok(table)
}

fn spans(table: &TableMeta, lo: &[u8], hi: &[u8]) -> bool {
    table.lo().bytes() == lo
        && table.hi().bytes() == hi
        && table.range().same(table.extent().range())
}

fn whole_is(whole: &TableMeta) -> bool {
    whole.num() == 1 && whole.backing() == 1 && !whole.virt() && whole.size() == 85
}

fn half_is(half: &TableMeta) -> bool {
    half.num() == 2
        && half.backing() == 1
        && half.virt()
        && half.seq_lo() == 2
        && half.seq_hi() == 5
        && half.synthetic() == 0
        && half.size() == 43
        && spans(half, b"a", b"c")
}

fn greatest_is(table: &TableMeta) -> bool {
    table.num() == MOST
        && table.backing() == MOST
        && table.seq_lo() == MOST
        && table.seq_hi() == MOST
        && table.synthetic() == MOST
        && table.size() == MOST
}

/// The whole table, and the half after so many copies.
fn tables(alloc: Global, times: usize) -> Result<Vec<TableMeta>, Fail> {
    let mut tables = Vec::new(alloc);
    tables.push(whole(alloc)?)?;
    tables.push(copied(half(alloc)?, times)?)?;
    Ok(tables)
}

fn tables_are(tables: &[TableMeta]) -> bool {
    match tables {
        [whole, half] => whole_is(whole) && half_is(half) && !whole.same(half),
        _ => false,
    }
}

fn is_copied(table: &TableMeta) -> Result<bool, Fail> {
    Ok(table.copy()?.same(table))
}

#[test]
fn tables_keep_their_parts(rt: HostRuntime) -> Result<(), Fail> {
    let tables = tables(rt.alloc(), 1)?;
    assert!(rt; tables_are(&tables));
    Ok(())
}

#[test]
fn copies_are_the_same(rt: HostRuntime) -> Result<(), Fail> {
    let table = whole(rt.alloc())?;
    let same = is_copied(&table)?;
    assert!(rt; same);
    Ok(())
}

#[test]
fn thousand_copies(rt: HostRuntime) -> Result<(), Fail> {
    let tables = tables(rt.alloc(), 10_000)?;
    assert!(rt; tables_are(&tables));
    Ok(())
}

#[test]
fn numbers_at_their_end(rt: HostRuntime) -> Result<(), Fail> {
    let table = greatest(rt.alloc())?;
    assert!(rt; greatest_is(&table));
    Ok(())
}

#[test]
fn numbers_in_their_ranges(rt: HostRuntime) {
    assert!(rt; is_number(1) && is_number(MOST) && !is_number(0) && !is_number(MOST + 1));
    assert!(rt; is_seq(0) && is_seq(MOST) && !is_seq(MOST + 1));
    assert!(rt; is_synthetic(3, 5, 0) && is_synthetic(3, 3, 3));
    assert!(rt; !is_synthetic(3, 5, 3) && !is_synthetic(3, 5, 5) && !is_synthetic(3, 3, 4));
}
