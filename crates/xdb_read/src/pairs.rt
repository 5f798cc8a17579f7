//! A cursor over what the parts of a question have, and the pairs that it comes to.
ghost use Rattle.std.specs.Prelude.{◌≡◌, take, [], IfOk, IfErr, OnOk, IsErrOf};
ghost use Rattle.xdb_device.specs.Counted.{Counted};
ghost use Rattle.xdb_merge.specs.Steps.{answer_of};
ghost use Rattle.xdb_merge.specs.Tables.{tables_in, AreTold, NamesDamage};
ghost use Rattle.xdb_plain.specs.Answers.{landing, moved};
ghost use Rattle.xdb_read.specs.Pairs.{IsCursor, Leads, Adds, pairs_of, step_from, start_along, step_along, along};

use crate::ReadParts;
use std::alloc::{AllocError, Global};
use xdb_device::{FileRef, Reader};
use xdb_key::{Entry, Key, KeyRange, Val};
use xdb_merge::{Merged, open_views_in};
use xdb_plain::{Items, Pairs, Place, Step};
use xdb_table_r::TableNo;

/// A way over pairs.
#[derive(Clone, Copy)]
pub enum Way {
    /// From the first pair on.
    Up,
    /// From the last pair down.
    Down,
}

/// A cursor at a place among the pairs that the parts have of the keys. Tables that can't have any of
/// them aren't opened.
fn cursor<'a, F: FileRef, R: Reader<File = F>>(
    alloc: Global,
    parts: &'a ReadParts<F>,
    keys: KeyRange,
    place: Place,
    dev: &mut R,
) -> Result<Merged<'a, F>, TableNo>
    ensures counted { Counted R.faults R.misses R.frame dev.old dev.new
        (IsErrOf result TableNo.ReadFault) }
    ensures told { R.told dev.new ≡ R.told dev.old }
    ensures alone { tables_in keys parts.now.tables ≡ [] → dev.new ≡ dev.old }
    ensures calm { tables_in keys parts.now.tables ≡ []
        → IfErr result (λ no. no ≡ TableNo.Memory) }
    ensures damage { IfErr result (NamesDamage F.bytes (tables_in keys parts.now.tables)) }
    ensures cursor { IfOk result (IsCursor F.bytes parts.now) }
    ensures keys { IfOk result (λ pairs. pairs.bounds ≡ keys) }
    ensures place { IfOk result (λ pairs. pairs.place ≡ place) }
{
    let views = open_views_in(alloc, parts.tables.list(), &keys, dev)?;
    let pairs = Merged::new(&parts.mem, views, keys, parts.at)?;
    Ok(pairs.with_place(place))
}

/// The entry of the pair that a step leads to from where it begins: the first pair is the next one
/// there, and the last one the one before.
fn go<'a, F: FileRef, R: Reader<File = F>>(
    parts: &ReadParts<F>,
    pairs: &mut Merged<'a, F>,
    step: &Step,
    dev: &mut R,
) -> Result<Option<Entry>, TableNo>
    requires cursor { IsCursor F.bytes parts.now pairs.old }
    ensures counted { Counted R.faults R.misses R.frame dev.old dev.new
        (IsErrOf result TableNo.ReadFault) }
    ensures told { R.told dev.new ≡ R.told dev.old }
    ensures alone { tables_in pairs.old.bounds parts.now.tables ≡ [] → dev.new ≡ dev.old }
    ensures calm { tables_in pairs.old.bounds parts.now.tables ≡ []
        → IfErr result (λ no. no ≡ TableNo.Memory) }
    ensures leads { Leads F.bytes parts.now (step_from step.now) pairs.old pairs.new result }
{
    match step {
        Step::First | Step::Next => pairs.next(dev),
        Step::Last | Step::Prev => pairs.prev(dev),
        Step::Seek { key } => pairs.seek_ge(key, dev),
        Step::SeekLt { key } => pairs.seek_lt(key, dev),
    }
}

/// The entry of the pair that a step leads to among those of the keys, and its place. It begins at
/// the place, for a step to a neighbour; else it has to begin where the step does.
pub fn step_at<F: FileRef, R: Reader<File = F>>(
    alloc: Global,
    parts: &ReadParts<F>,
    keys: KeyRange,
    place: Place,
    step: &Step,
    dev: &mut R,
) -> Result<(Option<Entry>, Place), TableNo>
    ensures counted { Counted R.faults R.misses R.frame dev.old dev.new
        (IsErrOf result TableNo.ReadFault) }
    ensures told { R.told dev.new ≡ R.told dev.old }
    ensures alone { tables_in keys parts.now.tables ≡ [] → dev.new ≡ dev.old }
    ensures calm { tables_in keys parts.now.tables ≡ []
        → IfErr result (λ no. no ≡ TableNo.Memory) }
    ensures damage { IfErr result (NamesDamage F.bytes (tables_in keys parts.now.tables)) }
    ensures lands { AreTold F.bytes parts.now.tables → IfOk result (λ l.
        landing (answer_of l.0) l.1
        ≡ moved (pairs_of F.bytes parts.now keys) place (step_from step.now)) }
{
    let mut pairs = cursor(alloc, parts, keys, place, dev)?;
    let entry = go(parts, &mut pairs, step, dev)?;
    Ok((entry, pairs.into_place()))
}

/// Where a way begins.
fn start_along(way: Way) -> Place
    ensures { result ≡ start_along way }
{
    match way {
        Way::Up => Place::Before,
        Way::Down => Place::After,
    }
}

fn step_along(way: Way) -> Step
    ensures { result ≡ step_along way }
{
    match way {
        Way::Up => Step::Next,
        Way::Down => Step::Prev,
    }
}

/// Copies of the pairs of the keys on a way, as many as `most`.
pub fn pairs_along<F: FileRef, R: Reader<File = F>>(
    alloc: Global,
    parts: &ReadParts<F>,
    keys: KeyRange,
    way: Way,
    most: u32,
    dev: &mut R,
) -> Result<Pairs, TableNo>
    ensures counted { Counted R.faults R.misses R.frame dev.old dev.new
        (IsErrOf result TableNo.ReadFault) }
    ensures told { R.told dev.new ≡ R.told dev.old }
    ensures alone { tables_in keys parts.now.tables ≡ [] → dev.new ≡ dev.old }
    ensures calm { tables_in keys parts.now.tables ≡ []
        → IfErr result (λ no. no ≡ TableNo.Memory) }
    ensures damage { IfErr result (NamesDamage F.bytes (tables_in keys parts.now.tables)) }
    ensures pairs { AreTold F.bytes parts.now.tables → IfOk result (λ found.
        found ≡ take most (along way (pairs_of F.bytes parts.now keys))) }
{
    let mut pairs = cursor(alloc, parts, keys, start_along(way), dev)?;
    let mut found = Vec::new(alloc);
    add_all(&mut found, parts, &mut pairs, way, most, dev)?;
    Ok(Items::new(found))
}

/// Adds copies of the pairs that the cursor comes to on its way, as many as `most`.
fn add_all<'a, F: FileRef, R: Reader<File = F>>(
    found: &mut Vec<(Key, Val)>,
    parts: &ReadParts<F>,
    pairs: &mut Merged<'a, F>,
    way: Way,
    most: u32,
    dev: &mut R,
) -> Result<(), TableNo>
    requires cursor { IsCursor F.bytes parts.now pairs.old }
    requires start { pairs.old.place ≡ start_along way }
    requires none { found.old.items ≡ [] }
    ensures counted { Counted R.faults R.misses R.frame dev.old dev.new
        (IsErrOf result TableNo.ReadFault) }
    ensures told { R.told dev.new ≡ R.told dev.old }
    ensures alone { tables_in pairs.old.bounds parts.now.tables ≡ [] → dev.new ≡ dev.old }
    ensures calm { tables_in pairs.old.bounds parts.now.tables ≡ []
        → IfErr result (λ no. no ≡ TableNo.Memory) }
    ensures damage { IfErr result
        (NamesDamage F.bytes (tables_in pairs.old.bounds parts.now.tables)) }
    ensures pairs { AreTold F.bytes parts.now.tables → OnOk result (found.new.items
        ≡ take most (along way (pairs_of F.bytes parts.now pairs.old.bounds))) }
{
    for _ in 0..most {
        if !add_next(found, parts, pairs, way, dev)? {
            return Ok(());
        }
    }
    Ok(())
}

/// Adds a copy of the next pair on the way, and answers whether there is one.
fn add_next<'a, F: FileRef, R: Reader<File = F>>(
    found: &mut Vec<(Key, Val)>,
    parts: &ReadParts<F>,
    pairs: &mut Merged<'a, F>,
    way: Way,
    dev: &mut R,
) -> Result<bool, TableNo>
    requires cursor { IsCursor F.bytes parts.now pairs.old }
    ensures counted { Counted R.faults R.misses R.frame dev.old dev.new
        (IsErrOf result TableNo.ReadFault) }
    ensures told { R.told dev.new ≡ R.told dev.old }
    ensures alone { tables_in pairs.old.bounds parts.now.tables ≡ [] → dev.new ≡ dev.old }
    ensures calm { tables_in pairs.old.bounds parts.now.tables ≡ []
        → IfErr result (λ no. no ≡ TableNo.Memory) }
    ensures damage { IfErr result
        (NamesDamage F.bytes (tables_in pairs.old.bounds parts.now.tables)) }
    ensures cursor { IsCursor F.bytes parts.now pairs.new }
    ensures keys { pairs.new.bounds ≡ pairs.old.bounds }
    ensures adds { IfOk result (Adds F.bytes parts.now (step_along way) pairs.old pairs.new
        found.old.items found.new.items) }
{
    match go(parts, pairs, &step_along(way), dev)? {
        Some(entry) => {
            found.push(pair(&entry)?)?;
            Ok(true)
        }
        None => Ok(false),
    }
}

/// A copy of the entry's key and value.
fn pair(entry: &Entry) -> Result<(Key, Val), AllocError>
    ensures { IfOk result (λ pair. pair ≡ (entry.now.key, entry.now.value)) }
{
    Ok((entry.key().copy()?, entry.value().copy()?))
}
