ghost use Rattle.std.specs.Prelude.{◌≡◌, ◌++◌, [], ◌∷◌, IsTrue, IfOk, OnOk, Ok, All};
ghost use Rattle.std.specs.List.{list_all, flat_map};
ghost use Rattle.xdb_edit.specs.Changes.{Changes, changes, joined, no_changes};
ghost use Rattle.xdb_edit.specs.Records.{IsEdit, records_of, changes_of, fits, rises, front};
ghost use Rattle.xdb_edit.specs.Spelling.{edit_bytes, record_bytes};
ghost use Rattle.xdb_edit.specs.Reading.{Gives, edit_at};
ghost use Rattle.xdb_meta.specs.Table.{IsTable, is_number};

use crate::EditBad;
use crate::input::Input;
use crate::record::{Rank, Record, put_added, put_new_backing, put_removed, record_of};
use std::alloc::{AllocError, Global};
use std::marker::Model;
use xdb_meta::TableMeta;

/// What makes a version of the version before it, as `VersionEdit` in Pebble and LevelDB: tables that go,
/// files that are new, and tables that come, each with its level.
#[derive(Debug, Drop)]
pub struct Edit {
    /// Apart, since most notes of a history have no edit: so the place for one is a pointer.
    lists: Box<Lists>,
}

impl Model for Edit {
    ghost use Rattle.xdb_edit.specs.Changes.{Changes};

    ghost Value = { Changes };

    ghost view = { λ e. e.lists.value };
}

impl Edit {
    /// Tables removed and added are named by their level and number. An error means that memory ran out.
    pub fn new(
        removed: Vec<(u8, u64)>,
        new_backings: Vec<u64>,
        added: Vec<(u8, TableMeta)>,
    ) -> Result<Self, AllocError>
        ensures { IfOk result (λ edit. edit ≡ changes removed.items new_backings.items added.items) }
    {
        Edit::of(Lists {
            removed,
            new_backings,
            added,
        })
    }

    fn of(lists: Lists) -> Result<Self, AllocError>
        ensures { IfOk result (λ edit. edit ≡ lists) }
    {
        let lists = Box::new(*lists.removed.allocator(), lists)?;
        Ok(Edit { lists })
    }

    pub fn removed(&self) -> &[(u8, u64)]
        ensures { result.now ≡ self.now.removed }
    {
        let lists: &Lists = &self.lists;
        &lists.removed
    }

    pub fn new_backings(&self) -> &[u64]
        ensures { result.now ≡ self.now.new_backings }
    {
        let lists: &Lists = &self.lists;
        &lists.new_backings
    }

    pub fn added(&self) -> &[(u8, TableMeta)]
        ensures { result.now ≡ self.now.added }
    {
        let lists: &Lists = &self.lists;
        &lists.added
    }

    pub fn copy(&self) -> Result<Self, AllocError>
        ensures { IfOk result (λ edit. edit ≡ self.now) }
    {
        let lists: &Lists = &self.lists;
        Edit::of(lists.copy()?)
    }

    /// The one spelling of the edit.
    pub fn encode(&self) -> Result<Vec<u8>, AllocError>
        // The records rise by kind, level and number.
        requires order { IsTrue (rises front (records_of self.now)) }
        // Levels are 0 to 6, and numbers 1 to 2^56 - 1.
        requires ranges { IsTrue (list_all fits (records_of self.now)) }
        ensures spelled { IfOk result (λ bytes. bytes.items ≡ edit_bytes self.now) }
        // What is written is read again.
        ensures again { IfOk result (λ bytes. edit_at bytes.items ≡ Ok self.now) }
    {
        let lists: &Lists = &self.lists;
        lists.encode()
    }

    /// The edit that the bytes spell. Each edit has one spelling, and every other input is refused for
    /// its first defect from left to right.
    pub fn decode(alloc: Global, bytes: &[u8]) -> Result<Self, EditBad>
        // What is read is spelled so.
        ensures found { IfOk result (λ edit. IsEdit edit × (bytes.now ≡ edit_bytes edit)) }
        // What is spelled so is read, unless memory runs out.
        ensures only { (edit : Changes) → IsEdit edit → bytes.now ≡ edit_bytes edit → Gives (λ e. e) result (Ok edit) }
        // Which defect is the first.
        ensures exact { Gives (λ e. e) result (edit_at bytes.now) }
    {
        read_edit(alloc, bytes)
    }
}

/// What an edit says.
#[derive(Debug, Drop)]
struct Lists {
    removed: Vec<(u8, u64)>,
    new_backings: Vec<u64>,
    added: Vec<(u8, TableMeta)>,
}

impl Model for Lists {
    ghost use Rattle.xdb_edit.specs.Changes.{Changes, changes};

    ghost Value = { Changes };

    ghost view = { λ l. changes l.removed.items l.new_backings.items l.added.items };
}

impl Lists {
    fn empty(alloc: Global) -> Self
        ensures { result ≡ no_changes }
    {
        Lists {
            removed: Vec::new(alloc),
            new_backings: Vec::new(alloc),
            added: Vec::new(alloc),
        }
    }

    fn copy(&self) -> Result<Self, AllocError>
        ensures { IfOk result (λ lists. lists ≡ self.now) }
    {
        let alloc = *self.removed.allocator();
        let removed = Vec::from_slice(alloc, &self.removed)?;
        let new_backings = Vec::from_slice(alloc, &self.new_backings)?;
        let added = copy_added(alloc, &self.added)?;
        Ok(Lists {
            removed,
            new_backings,
            added,
        })
    }

    fn encode(&self) -> Result<Vec<u8>, AllocError>
        requires order { IsTrue (rises front (records_of self.now)) }
        requires ranges { IsTrue (list_all fits (records_of self.now)) }
        ensures spelled { IfOk result (λ bytes. bytes.items ≡ edit_bytes self.now) }
        ensures again { IfOk result (λ bytes. edit_at bytes.items ≡ Ok self.now) }
    {
        let mut out = Vec::new(*self.removed.allocator());
        put_all_removed(&mut out, &self.removed)?;
        put_all_new_backings(&mut out, &self.new_backings)?;
        put_all_added(&mut out, &self.added)?;
        Ok(out)
    }

    /// Puts the record behind those of its kind.
    fn keep(&mut self, last: Record) -> Result<(), AllocError>
        ensures { OnOk result (self.new ≡ joined self.old (changes_of (last ∷ []))) }
    {
        match last {
            Record::Removed { level, num } => self.removed.push((level, num))?,
            Record::NewBacking { num } => self.new_backings.push(num)?,
            Record::Added { level, table } => self.added.push((level, table))?,
        }
        Ok(())
    }
}

fn copy_added(alloc: Global, added: &[(u8, TableMeta)]) -> Result<Vec<(u8, TableMeta)>, AllocError>
    ensures { IfOk result (λ copy. copy.items ≡ added.now) }
{
    let mut copy = Vec::with_capacity(alloc, added.len())?;
    for (level, table) in added {
        copy.push((*level, table.copy()?))?;
    }
    Ok(copy)
}

fn put_all_removed(out: &mut Vec<u8>, removed: &[(u8, u64)]) -> Result<(), AllocError>
    requires { IsTrue (list_all (λ p. fits (Record.Removed p.0 p.1)) removed.now) }
    ensures { OnOk result (out.new.items ≡ out.old.items ++ flat_map (λ p. record_bytes (Record.Removed p.0 p.1)) removed.now) }
{
    for (level, num) in removed {
        put_removed(out, *level, *num)?;
    }
    Ok(())
}

fn put_all_new_backings(out: &mut Vec<u8>, nums: &[u64]) -> Result<(), AllocError>
    requires { IsTrue (list_all is_number nums.now) }
    ensures { OnOk result (out.new.items ≡ out.old.items ++ flat_map (λ num. record_bytes (Record.NewBacking num)) nums.now) }
{
    for num in nums {
        put_new_backing(out, *num)?;
    }
    Ok(())
}

fn put_all_added(out: &mut Vec<u8>, added: &[(u8, TableMeta)]) -> Result<(), AllocError>
    ensures written { OnOk result (out.new.items ≡ out.old.items ++ flat_map (λ p. record_bytes (Record.Added p.0 p.1)) added.now) }
    ensures tables { OnOk result (All (λ p. IsTable p.1) added.now) }
{
    for (level, table) in added {
        put_added(out, *level, table)?;
    }
    Ok(())
}

fn read_edit(alloc: Global, bytes: &[u8]) -> Result<Edit, EditBad>
    ensures { Gives (λ e. e) result (edit_at bytes.now) }
{
    let lists = read_all(alloc, bytes)?;
    Ok(Edit::of(lists)?)
}

/// Reads record after record; each has to stand behind the last.
fn read_all(alloc: Global, bytes: &[u8]) -> Result<Lists, EditBad>
    ensures { Gives (λ l. l) result (edit_at bytes.now) }
{
    let input = Input {
        alloc,
        len: bytes.len(),
    };
    let mut lists = Lists::empty(alloc);
    let mut last = Rank::FRONT;
    let mut rest = bytes;
    while !rest.is_empty() {
        let at = input.len - rest.len();
        let (record, after) = record_of(input, rest)?;
        let rank = record.rank();
        if !last.is_before(&rank) {
            return Err(EditBad::BadOrder { at });
        }
        lists.keep(record)?;
        last = rank;
        rest = after;
    }
    Ok(lists)
}
