ghost use Rattle.std.specs.Prelude.{◌≡◌, ◌==◌, ◌||◌, not, map, IfOk, IsTrue};
ghost use Rattle.std.specs.List.{list_all};
ghost use Rattle.xdb_edit.specs.Versions.{applies};
ghost use Rattle.xdb_levels.specs.Applying.{names_below};
ghost use Rattle.xdb_lists.specs.Numbers.{is_among};
ghost use Rattle.xdb_vset.specs.Seen.{named};

use crate::VersionSet;
use std::alloc::Global;
use std::test::Fail;
use xdb_edit::Edit;
use xdb_key::{Bound, Extent, KeyRange};
use xdb_meta::{TableMeta, is_number, is_seq};

/// Takes the least dead number and uses it up.
fn spend_next(set: &mut VersionSet<u8>) -> Option<u64>
    ensures { set.new.slots ≡ set.old.slots }
{
    match set.take_dead() {
        Some(dead) => {
            let num = dead.num();
            set.spend(dead);
            Some(num)
        }
        None => None,
    }
}

/// A table of L0 over all keys from "a" to "z", in its own file or in another one.
fn table(alloc: Global, num: u64, backing: u64) -> Result<TableMeta, Fail> {
    if !is_number(num) || !is_number(backing) || !is_seq(num) {
        return Err(Fail::from("no table has such a number"));
    }
    let lo = Bound::new(b"a".to_vec(alloc)?)?;
    let hi = Bound::new(b"z".to_vec(alloc)?)?;
    let extent = Extent::new(KeyRange::new(lo, hi)?, 0, num);
    if num == backing {
        Ok(TableMeta::physical(num, extent, 0, 85))
    } else {
        Ok(TableMeta::virtual_(num, backing, extent, 0, 43))
    }
}

/// An edit of L0: tables removed, files that are new, and tables added, each with its file.
fn edit(alloc: Global, removed: &[u64], new: &[u64], added: &[(u64, u64)]) -> Result<Edit, Fail> {
    let mut gone = Vec::new(alloc);
    for num in removed {
        gone.push((0, *num))?;
    }
    let mut tables = Vec::new(alloc);
    for (num, backing) in added {
        tables.push((0, table(alloc, *num, *backing)?))?;
    }
    Ok(Edit::new(gone, Vec::from_slice(alloc, new)?, tables)?)
}

/// Whether each level that the edit names is one of a version.
fn names_levels(edit: &Edit) -> bool
    ensures { IsTrue result → IsTrue (names_below 7 edit.now) }
{
    for (level, _) in edit.removed() {
        if *level >= 7 {
            return false;
        }
    }
    for (level, _) in edit.added() {
        if *level >= 7 {
            return false;
        }
    }
    true
}

fn is_new(nums: &[u64], num: u64) -> bool
    ensures { result ≡ is_among num nums.now }
{
    for new in nums {
        if *new == num {
            return true;
        }
    }
    false
}

/// Whether the file is named already, or is new.
fn is_there(set: &VersionSet<u8>, new: &[u64], backing: u64) -> bool
    ensures { result ≡ (not (named set.now backing == 0) || is_among backing new.now) }
{
    set.file(backing).is_some() || is_new(new, backing)
}

/// Whether each file that a table comes to lie in is there.
fn is_backed(set: &VersionSet<u8>, edit: &Edit) -> bool
    ensures { IsTrue result → IsTrue (list_all (λ a. not (named set.now a.1.backing == 0) || is_among a.1.backing edit.now.new_backings) edit.now.added) }
{
    for (_, table) in edit.added() {
        if !is_there(set, edit.new_backings(), table.backing()) {
            return false;
        }
    }
    true
}

/// A file for each number.
fn files_of(alloc: Global, nums: &[u64]) -> Result<Vec<(u64, u8)>, Fail>
    ensures { IfOk result (λ files. map (λ f. f.0) files.items ≡ nums.now) }
{
    let mut files = Vec::new(alloc);
    for num in nums {
        files.push((*num, 10))?;
    }
    Ok(files)
}

/// Whether the edit may be installed.
fn fits(set: &VersionSet<u8>, edit: &Edit) -> bool
    ensures levels { IsTrue result → IsTrue (names_below 7 edit.now) }
    ensures applies { IsTrue result → IsTrue (applies set.now.current.levels edit.now) }
    ensures backed { IsTrue result → IsTrue (list_all (λ a. not (named set.now a.1.backing == 0) || is_among a.1.backing edit.now.new_backings) edit.now.added) }
{
    names_levels(edit) && set.current().apply(edit).is_ok() && is_backed(set, edit)
}

fn install(alloc: Global, set: &mut VersionSet<u8>, edit: Edit) -> Result<(), Fail>
    ensures { set.new.slots ≡ set.old.slots }
{
    if !fits(set, &edit) {
        return Err(Fail::from("the edit doesn't fit"));
    }
    let files = files_of(alloc, edit.new_backings())?;
    set.install(edit, files)?;
    Ok(())
}

/// Whether these files are named, so often each.
fn counts_are(set: &VersionSet<u8>, wanted: &[(u64, u64)]) -> bool {
    match set.counts() {
        Ok(counts) => counts.as_slice() == wanted,
        Err(_) => false,
    }
}

/// A table of a held version is cut in two, which share its file.
fn cuts(alloc: Global, set: &mut VersionSet<u8>) -> Result<bool, Fail> {
    let ticket = set.ticket()?;
    install(alloc, set, edit(alloc, &[], &[1], &[(1, 1)])?)?;
    let held = set.hold(ticket);
    install(alloc, set, edit(alloc, &[1], &[], &[(2, 1), (3, 1)])?)?;
    let shared = held.version() == 1 && counts_are(set, &[(1, 3)]);
    set.release(held);
    let cut = counts_are(set, &[(1, 2)]) && set.file(1) == Some(&10) && set.dead_len() == 0;
    install(alloc, set, edit(alloc, &[2, 3], &[], &[])?)?;
    let gone = counts_are(set, &[]) && set.file(1).is_none();
    let first = spend_next(set);
    Ok(shared && cut && gone && first == Some(1) && spend_next(set).is_none())
}

#[test]
fn halves_of_a_held_table_are_counted(rt: HostRuntime) -> Result<(), Fail> {
    let mut set: VersionSet<u8> = VersionSet::new(rt.alloc());
    let right = cuts(rt.alloc(), &mut set)?;
    assert!(rt; right);
    Ok(())
}

/// A version is held by two holds, and replaced.
fn holds_twice(alloc: Global, set: &mut VersionSet<u8>) -> Result<bool, Fail> {
    let first = set.ticket()?;
    let second = set.ticket()?;
    install(alloc, set, edit(alloc, &[], &[1, 2], &[(1, 1)])?)?;
    let held = set.hold(second);
    let same = set.hold_same(first, &held);
    install(alloc, set, edit(alloc, &[1], &[], &[])?)?;
    let both = counts_are(set, &[(1, 1)]) && set.held(&same).tables(0).len() == 1;
    set.release(held);
    let one = counts_are(set, &[(1, 1)]) && set.current().tables(0).is_empty();
    set.release(same);
    // No table ever lay in the second file.
    let dead = spend_next(set);
    Ok(both && one && dead == Some(1) && spend_next(set) == Some(2))
}

#[test]
fn a_version_held_twice_counts_once(rt: HostRuntime) -> Result<(), Fail> {
    let mut set: VersionSet<u8> = VersionSet::new(rt.alloc());
    let right = holds_twice(rt.alloc(), &mut set)?;
    assert!(rt; right);
    Ok(())
}

/// Numbers are known again while they are dead, and once they were taken.
fn takes(set: &mut VersionSet<u8>) -> Result<bool, Fail> {
    set.room(4)?;
    set.known(&[3, 1]);
    set.known(&[3, 2]);
    let three = set.dead_len() == 3;
    let first = spend_next(set);
    let second = spend_next(set);
    set.room(1)?;
    set.known(&[1]);
    let third = spend_next(set);
    Ok(
        three
            && first == Some(1)
            && second == Some(2)
            && third == Some(3)
            && spend_next(set).is_none(),
    )
}

#[test]
fn each_dead_number_is_taken_once(rt: HostRuntime) -> Result<(), Fail> {
    let mut set: VersionSet<u8> = VersionSet::new(rt.alloc());
    let right = takes(&mut set)?;
    assert!(rt; right);
    Ok(())
}

/// Installs a table in a new file so many times, each in place of the one before, and reaps the file of that one.
fn churn(alloc: Global, set: &mut VersionSet<u8>, files: u64) -> Result<bool, Fail> {
    install(alloc, set, edit(alloc, &[], &[1], &[(1, 1)])?)?;
    let mut reaped = 1;
    for num in 2..=files {
        install(alloc, set, edit(alloc, &[num - 1], &[num], &[(num, num)])?)?;
        if spend_next(set) == Some(num - 1) {
            reaped = num;
        }
    }
    Ok(reaped == files && spend_next(set).is_none() && counts_are(set, &[(files, 1)]))
}

#[test]
fn ten_thousand_files_come_and_go(rt: HostRuntime) -> Result<(), Fail> {
    let mut set: VersionSet<u8> = VersionSet::new(rt.alloc());
    let right = churn(rt.alloc(), &mut set, 10_000)?;
    // All numbers are known, all but one were taken, and two files are named at once.
    assert!(rt; right && set.capacity() <= 2 * (10_000 + 9_999 + 2 + 2));
    Ok(())
}
