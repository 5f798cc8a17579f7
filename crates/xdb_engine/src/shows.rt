//! What is shown of the engine's inside.
ghost use Rattle.std.specs.Prelude.{◌≡◌, ◌≤◌, IfOk};
ghost use Rattle.xdb_plain.specs.declared.act.Act.TheVariants as act;
ghost use Rattle.xdb_plain.specs.declared.act.By.TheVariants.{Db};
ghost use Rattle.xdb_steps.specs.Notes.{plain_note};
ghost use Rattle.xdb_engine.specs.Notes.{IsPlain};
ghost use Rattle.xdb_engine.specs.Shows.{shown_of};
ghost use Rattle.xdb_engine.specs.State.{Steps};
ghost use Rattle.xdb_engine.specs.View.{Adds};

use crate::Engine;
use crate::notes::Verdict;
use crate::state::State;
use std::alloc::{AllocError, Global};
use std::sync::ledger::Ledger;
use xdb_device::FileRef;
use xdb_levels::Version;
use xdb_meta::TableMeta;
use xdb_plain::{Act, By, Items, Reply, ShowWhat, TableLists};
use xdb_vset::VersionSet;

impl<F: FileRef, L: Ledger> Engine<F, L> {
    /// The owner is shown the tables of the current version, the counts of the files that they and
    /// the held versions name, or the open snapshots. The reply is `Memory` where an allocation fails.
    pub fn show(&mut self, what: ShowWhat) -> Reply
        requires room { 1 ≤ self.old.spare }
        ensures note { Adds self.old self.new (plain_note Db (act.Show what) result) }
        ensures questions { self.new.questions ≡ self.old.questions }
    {
        let verdict = show(self.alloc, &self.state, what);
        self.history.push(verdict.note);
        verdict.reply
    }
}

fn show<F: FileRef>(alloc: Global, state: &State<F>, what: ShowWhat) -> Verdict
    ensures note { IsPlain Db (act.Show what) result }
    ensures step { Steps F.bytes 0 state.now state.now result.note }
{
    // With the current version comes what holds of every set.
    let _current = state.files.current();
    let act = Act::Show { what };
    match shown_twice(alloc, &state.files, what) {
        Ok((noted, reply)) => Verdict::new(alloc, By::Db, act, noted, reply),
        Err(AllocError) => Verdict::new(alloc, By::Db, act, Reply::Memory, Reply::Memory),
    }
}

/// For the note, and for the caller.
fn shown_twice<F>(
    alloc: Global,
    files: &VersionSet<F>,
    what: ShowWhat,
) -> Result<(Reply, Reply), AllocError>
    ensures noted { IfOk result (λ shown. shown.0 ≡ shown_of files.now what) }
    ensures reply { IfOk result (λ shown. shown.1 ≡ shown_of files.now what) }
{
    let noted = shown(alloc, files, what)?;
    let reply = shown(alloc, files, what)?;
    Ok((noted, reply))
}

/// No snapshot is open.
fn shown<F>(alloc: Global, files: &VersionSet<F>, what: ShowWhat) -> Result<Reply, AllocError>
    ensures { IfOk result (λ reply. reply ≡ shown_of files.now what) }
{
    match what {
        ShowWhat::Levels => Ok(Reply::Levels(copy_levels(alloc, files.current())?)),
        ShowWhat::Counts => Ok(Reply::Counts(Items::new(files.counts()?))),
        ShowWhat::Snaps => Ok(Reply::Snaps(Items::new(Vec::new(alloc)))),
    }
}

fn copy_levels(alloc: Global, version: &Version) -> Result<TableLists, AllocError>
    ensures { IfOk result (λ levels. levels ≡ version.now) }
{
    let count = version.count();
    let mut levels = Vec::with_capacity(alloc, count)?;
    for level in 0..count {
        levels.push(copy_tables(alloc, version.tables(level))?)?;
    }
    Ok(Items::new(levels))
}

fn copy_tables(alloc: Global, tables: &[TableMeta]) -> Result<Items<TableMeta>, AllocError>
    ensures { IfOk result (λ copy. copy ≡ tables.now) }
{
    let mut copy = Vec::with_capacity(alloc, tables.len())?;
    for table in tables {
        copy.push(table.copy()?)?;
    }
    Ok(Items::new(copy))
}
