//! A line is made room for and handed to the file of its topic.
ghost use Rattle.std.specs.Prelude.{◌≡◌, IsTrue, OnOk};
ghost use Rattle.xdb_run.specs.Built.{is_run};
ghost use Rattle.xdb_run.specs.Running.{IsReady, TakesLine};

use crate::{commits, reads, works};
use std::alloc::{AllocError, Global};
use std::sync::ledger::Ledger;
use xdb_device::{FileRef, Reader};
use xdb_engine::Engine;
use xdb_plain::{By, Cmd, Line};

/// Takes a line. An error means that an allocation failed outside a step.
pub fn take<F: FileRef, L: Ledger, R: Reader<File = F>>(
    alloc: Global,
    engine: &mut Engine<F, L>,
    line: Line,
    dev: &mut R,
) -> Result<(), AllocError>
    requires { IsTrue (is_run line) }
    ensures line { OnOk result (TakesLine engine.old engine.new line.by line.cmd) }
    ensures alone { dev.new ≡ dev.old }
{
    prepare(engine)?;
    dispatch(alloc, engine, line, dev);
    Ok(())
}

/// Makes room for the notes of a line.
fn prepare<F: FileRef, L: Ledger>(engine: &mut Engine<F, L>) -> Result<(), AllocError>
    ensures ready { OnOk result (IsReady engine.new) }
    ensures same { engine.new ≡ record engine.old { spare = engine.new.spare } }
{
    engine.ready()?;
    // With the notes comes what they say of the open questions.
    let _notes = engine.notes();
    Ok(())
}

/// Hands a line to the file of its topic.
fn dispatch<F: FileRef, L: Ledger, R: Reader<File = F>>(
    alloc: Global,
    engine: &mut Engine<F, L>,
    line: Line,
    dev: &mut R,
)
    requires run { IsTrue (is_run line) }
    requires ready { IsReady engine.old }
    ensures line { TakesLine engine.old engine.new line.by line.cmd }
    ensures alone { dev.new ≡ dev.old }
{
    let Line { by, cmd, .. } = line;
    match (by, cmd) {
        (Some(By::Client(client)), Cmd::Commit { form, ops }) => {
            commits::commit(engine, client, form, ops);
        }
        (Some(By::Client(client)), Cmd::Ask { question, parted }) => {
            reads::ask(alloc, engine, client, question, parted, dev);
        }
        (Some(By::Client(client)), Cmd::Settle { ask }) => reads::settle(engine, client, ask),
        (Some(By::Db), Cmd::Seal) => commits::seal(engine),
        (Some(By::Db), Cmd::Work { ask }) => works::work(alloc, engine, ask, dev),
        (None, Cmd::Table { .. }) => (),
        _ => unreachable!(),
    }
}
