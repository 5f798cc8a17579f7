//! Work that is under way: done, and its result brought or its failure told.
ghost use Rattle.std.specs.Prelude.{◌≡◌, ◌≤◌, [], Some, IfOk};
ghost use Rattle.xdb_engine.specs.Questions.{question_by};
ghost use Rattle.xdb_plain.specs.declared.act.By.TheVariants.{Db};
ghost use Rattle.xdb_plain.specs.declared.script.Cmd.TheVariants as cmd;
ghost use Rattle.xdb_read.specs.Fits.{ReadFits};
ghost use Rattle.xdb_run.specs.Running.{IsReady, TakesLine};
ghost use Rattle.xdb_run.specs.Working.{IsWorkedOn, EndsWork};

use std::alloc::{AllocError, Global};
use std::sync::ledger::Ledger;
use xdb_device::{FileRef, Reader};
use xdb_engine::{Engine, Given, Id, Outcome};
use xdb_plain::Act;
use xdb_read::{ReadDone, ReadParts, answer};
use xdb_table_r::TableNo;

/// How work ended.
#[derive(Clone, Copy, Debug, PartialEq, Eq)]
pub enum WorkEnd {
    /// There is no such work to do.
    NoSuch,
    /// Its result is kept.
    Kept,
    /// An allocation failed, and a note tells so.
    Failed,
}

/// The work of a question, with a note where there is none to do.
pub fn work<F: FileRef, L: Ledger, R: Reader<File = F>>(
    alloc: Global,
    engine: &mut Engine<F, L>,
    ask: u64,
    dev: &mut R,
)
    requires ready { IsReady engine.old }
    ensures line { TakesLine engine.old engine.new (Some Db) (cmd.Work ask) }
    ensures alone { dev.new ≡ dev.old }
{
    if let WorkEnd::NoSuch = bring(alloc, engine, Id::Ask(ask), dev) {
        engine.no_such(Act::Work { ask });
    }
}

/// Does work that is under way and has no result yet, and brings its result or tells its failure.
pub fn bring<F: FileRef, L: Ledger, R: Reader<File = F>>(
    alloc: Global,
    engine: &mut Engine<F, L>,
    id: Id,
    dev: &mut R,
) -> WorkEnd
    requires room { 1 ≤ engine.old.spare }
    ensures ends { EndsWork F.bytes (question_by id engine.old.questions) result engine.old
        engine.new }
    ensures alone { dev.new ≡ dev.old }
{
    match worked_on(alloc, engine, &id, dev) {
        Some(Ok(done)) => {
            engine.bring(id, Outcome::Read(done));
            WorkEnd::Kept
        }
        Some(Err(AllocError)) => {
            engine.lack(id, Vec::new(alloc));
            WorkEnd::Failed
        }
        None => WorkEnd::NoSuch,
    }
}

/// What comes of work that is under way and has no result yet.
fn worked_on<F: FileRef, L: Ledger, R: Reader<File = F>>(
    alloc: Global,
    engine: &Engine<F, L>,
    id: &Id,
    dev: &mut R,
) -> Option<Result<ReadDone, AllocError>>
    ensures worked { IsWorkedOn F.bytes (question_by id.now engine.now.questions) result }
    ensures alone { dev.new ≡ dev.old }
{
    if engine.is_kept(id) {
        return None;
    }
    let Given::Read(parts) = engine.given(id)?;
    Some(answered(alloc, parts, dev))
}

/// The answer over parts without tables: nothing is read, so only memory can be wanting.
fn answered<F: FileRef, R: Reader<File = F>>(
    alloc: Global,
    parts: &ReadParts<F>,
    dev: &mut R,
) -> Result<ReadDone, AllocError>
    requires { parts.now.tables ≡ [] }
    ensures fits { IfOk result (ReadFits F.bytes parts.now) }
    ensures alone { dev.new ≡ dev.old }
{
    match answer(alloc, parts, dev) {
        Ok(done) => Ok(done),
        Err(TableNo::Memory) => Err(AllocError),
        Err(TableNo::ReadFault | TableNo::Damaged { .. }) => unreachable!(),
    }
}
