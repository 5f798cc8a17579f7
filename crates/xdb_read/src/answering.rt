//! The answer to a question over what its parts hold.
ghost use Rattle.std.specs.Prelude.{◌≡◌, take, [], IfOk, IfErr, IsErrOf};
ghost use Rattle.std.specs.FinMap.{get};
ghost use Rattle.std.specs.Option.{option_map};
ghost use Rattle.xdb_device.specs.Counted.{Counted};
ghost use Rattle.xdb_key.specs.Bounds.{key_hull};
ghost use Rattle.xdb_merge.specs.Steps.{answer_of};
ghost use Rattle.xdb_merge.specs.Tables.{tables_in, AreTold, NamesDamage};
ghost use Rattle.xdb_plain.specs.Answers.{landing, moved, pairs_in, value_or_absent};
ghost use Rattle.xdb_plain.specs.declared.answer.Answer.TheVariants.{Found};
ghost use Rattle.xdb_read.specs.Asked.{common, tables_of, tables_asked};
ghost use Rattle.xdb_read.specs.Fits.{parts_map, meant, ReadFits};
ghost use Rattle.xdb_read.specs.Pairs.{start_of, along};

use crate::keys::{common, hull_in};
use crate::pairs::{Way, pairs_along, step_at};
use crate::{ReadDone, ReadParts};
use std::alloc::{AllocError, Global};
use xdb_device::{FileRef, Reader};
use xdb_key::{Entry, Key, KeyRange};
use xdb_plain::{Answer, Items, Place, Question, Step};
use xdb_table_r::TableNo;

/// Answers a question. Of the tables those alone are read that may have keys that it asks for, each
/// from the start: an error is the first that is met.
pub fn answer<F: FileRef, R: Reader<File = F>>(
    alloc: Global,
    parts: &ReadParts<F>,
    dev: &mut R,
) -> Result<ReadDone, TableNo>
    ensures counted { Counted R.faults R.misses R.frame dev.old dev.new
        (IsErrOf result TableNo.ReadFault) }
    ensures told { R.told dev.new ≡ R.told dev.old }
    // Where no table may have such keys, the device isn't used, and only memory can be wanting.
    ensures alone { tables_asked parts.now ≡ [] → dev.new ≡ dev.old }
    ensures calm { tables_asked parts.now ≡ [] → IfErr result (λ no. no ≡ TableNo.Memory) }
    // Over a file that tells its bytes, only a defect is called one.
    ensures damage { IfErr result (NamesDamage F.bytes (tables_asked parts.now)) }
    ensures fits { IfOk result (ReadFits F.bytes parts.now) }
{
    let (answer, place) = answered(alloc, parts, dev)?;
    let again = answer.copy()?;
    Ok(ReadDone {
        answer,
        again,
        place,
    })
}

/// The answer, and the place that a move leads to.
fn answered<F: FileRef, R: Reader<File = F>>(
    alloc: Global,
    parts: &ReadParts<F>,
    dev: &mut R,
) -> Result<(Answer, Place), TableNo>
    ensures counted { Counted R.faults R.misses R.frame dev.old dev.new
        (IsErrOf result TableNo.ReadFault) }
    ensures told { R.told dev.new ≡ R.told dev.old }
    ensures alone { tables_asked parts.now ≡ [] → dev.new ≡ dev.old }
    ensures calm { tables_asked parts.now ≡ [] → IfErr result (λ no. no ≡ TableNo.Memory) }
    ensures damage { IfErr result (NamesDamage F.bytes (tables_asked parts.now)) }
    ensures right { AreTold F.bytes parts.now.tables → IfOk result (λ l.
        landing l.0 l.1 ≡ meant F.bytes parts.now) }
{
    match &parts.question {
        Question::Get { key, .. } => {
            let answer = value(alloc, parts, key, dev)?;
            Ok((answer, Place::Before))
        }
        Question::Scan { range, most, .. } => {
            let answer = found(alloc, parts, range, Way::Up, *most, dev)?;
            Ok((answer, Place::Before))
        }
        Question::RScan { range, most, .. } => {
            let answer = found(alloc, parts, range, Way::Down, *most, dev)?;
            Ok((answer, Place::Before))
        }
        Question::Move { step, .. } => moved(alloc, parts, step, dev),
    }
}

/// The value of a key.
fn value<F: FileRef, R: Reader<File = F>>(
    alloc: Global,
    parts: &ReadParts<F>,
    key: &Key,
    dev: &mut R,
) -> Result<Answer, TableNo>
    ensures counted { Counted R.faults R.misses R.frame dev.old dev.new
        (IsErrOf result TableNo.ReadFault) }
    ensures told { R.told dev.new ≡ R.told dev.old }
    ensures alone { tables_of (common parts.now.bounds (key_hull key.now)) parts.now.tables ≡ []
        → dev.new ≡ dev.old }
    ensures calm { tables_of (common parts.now.bounds (key_hull key.now)) parts.now.tables ≡ []
        → IfErr result (λ no. no ≡ TableNo.Memory) }
    ensures damage { IfErr result (NamesDamage F.bytes
        (tables_of (common parts.now.bounds (key_hull key.now)) parts.now.tables)) }
    ensures right { AreTold F.bytes parts.now.tables → IfOk result (λ answer.
        answer ≡ value_or_absent (get (parts_map F.bytes parts.now) key.now)) }
{
    let Some(keys) = hull_in(&parts.bounds, key)? else {
        return Ok(Answer::Absent);
    };
    let (entry, _place) = step_at(alloc, parts, keys, Place::Before, &Step::First, dev)?;
    Ok(value_or_absent(&entry)?)
}

fn value_or_absent(entry: &Option<Entry>) -> Result<Answer, AllocError>
    ensures { IfOk result (λ answer.
        answer ≡ value_or_absent (option_map (λ p. p.value) entry.now)) }
{
    match entry {
        Some(entry) => Ok(Answer::Value(entry.value().copy()?)),
        None => Ok(Answer::Absent),
    }
}

/// The pairs of a range on a way, as many as `most`.
fn found<F: FileRef, R: Reader<File = F>>(
    alloc: Global,
    parts: &ReadParts<F>,
    range: &KeyRange,
    way: Way,
    most: u32,
    dev: &mut R,
) -> Result<Answer, TableNo>
    ensures counted { Counted R.faults R.misses R.frame dev.old dev.new
        (IsErrOf result TableNo.ReadFault) }
    ensures told { R.told dev.new ≡ R.told dev.old }
    ensures alone { tables_of (common parts.now.bounds range.now) parts.now.tables ≡ []
        → dev.new ≡ dev.old }
    ensures calm { tables_of (common parts.now.bounds range.now) parts.now.tables ≡ []
        → IfErr result (λ no. no ≡ TableNo.Memory) }
    ensures damage { IfErr result (NamesDamage F.bytes
        (tables_of (common parts.now.bounds range.now) parts.now.tables)) }
    ensures right { AreTold F.bytes parts.now.tables → IfOk result (λ answer.
        answer ≡ Found (take most (along way (pairs_in range.now (parts_map F.bytes parts.now))))) }
{
    let Some(keys) = common(&parts.bounds, range)? else {
        return Ok(Answer::Found(Items::new(Vec::new(alloc))));
    };
    let found = pairs_along(alloc, parts, keys, way, most, dev)?;
    Ok(Answer::Found(found))
}

/// The pair that a step from the place of the parts leads to, and its place.
fn moved<F: FileRef, R: Reader<File = F>>(
    alloc: Global,
    parts: &ReadParts<F>,
    step: &Step,
    dev: &mut R,
) -> Result<(Answer, Place), TableNo>
    ensures counted { Counted R.faults R.misses R.frame dev.old dev.new
        (IsErrOf result TableNo.ReadFault) }
    ensures told { R.told dev.new ≡ R.told dev.old }
    ensures alone { tables_in parts.now.bounds parts.now.tables ≡ [] → dev.new ≡ dev.old }
    ensures calm { tables_in parts.now.bounds parts.now.tables ≡ []
        → IfErr result (λ no. no ≡ TableNo.Memory) }
    ensures damage { IfErr result
        (NamesDamage F.bytes (tables_in parts.now.bounds parts.now.tables)) }
    ensures right { AreTold F.bytes parts.now.tables → IfOk result (λ l. landing l.0 l.1
        ≡ moved (pairs_in parts.now.bounds (parts_map F.bytes parts.now)) parts.now.place step.now) }
{
    let bounds = parts.bounds.copy()?;
    let start = start_of(&parts.place, step)?;
    let (entry, place) = step_at(alloc, parts, bounds, start, step, dev)?;
    let answer = pair_or_end(&entry)?;
    Ok((answer, place))
}

/// Where a step begins.
fn start_of(place: &Place, step: &Step) -> Result<Place, AllocError>
    ensures { IfOk result (λ start. start ≡ start_of place.now step.now) }
{
    match step {
        Step::First | Step::Seek { .. } | Step::SeekLt { .. } => Ok(Place::Before),
        Step::Last => Ok(Place::After),
        Step::Next | Step::Prev => copied(place),
    }
}

fn copied(place: &Place) -> Result<Place, AllocError>
    ensures { IfOk result (λ copy. copy ≡ place.now) }
{
    match place {
        Place::Before => Ok(Place::Before),
        Place::On { key } => Ok(Place::On { key: key.copy()? }),
        Place::After => Ok(Place::After),
    }
}

fn pair_or_end(entry: &Option<Entry>) -> Result<Answer, AllocError>
    ensures { IfOk result (λ answer. answer ≡ answer_of entry.now) }
{
    match entry {
        Some(entry) => Ok(Answer::Pair(entry.key().copy()?, entry.value().copy()?)),
        None => Ok(Answer::End),
    }
}
