//! A script from its first line to its last.
ghost use Rattle.std.specs.Prelude.{◌≡◌, [], false, IsTrue, None, IfOk, OnOk};
ghost use Rattle.std.specs.List.{list_all};
ghost use Rattle.xdb_engine.specs.Files.{AreTold};
ghost use Rattle.xdb_plain.specs.Failures.{faults, has_damage};
ghost use Rattle.xdb_plain.specs.Legal.{IsRight};
ghost use Rattle.xdb_plain.specs.Runs.{IsRunOf};
ghost use Rattle.xdb_run.specs.Built.{first_unbuilt, is_run};
ghost use Rattle.xdb_run.specs.Outside.{RoseBy};
ghost use Rattle.xdb_run.specs.Running.{HasTakenLines};

use crate::{RunNo, lines};
use std::alloc::{AllocError, Global};
use std::marker::Brand;
use std::sync::ledger::{Blank, Ledger};
use xdb_device::{Device, FaultBook, FileRef, Reader};
use xdb_engine::Engine;
use xdb_history::History;
use xdb_plain::{Line, Script};

/// Runs a script on one thread, one line after another, and gives its history. Files go to the device
/// and are read from it; no command that writes one is built yet.
pub fn run_script<D: Device>(alloc: Global, script: Script, dev: &mut D) -> Result<History, RunNo>
    requires built { first_unbuilt script ≡ None }
    ensures right { IfOk result (λ history. IsRight 1 1 history.notes) }
    ensures run { IfOk result (λ history. IsRunOf 1 1 script history.notes) }

    // Faults are told only as far as the device's count rose, and damage only over files that don't
    // tell their bytes.
    ensures faults { IfOk result (λ history.
        RoseBy (faults history.notes) (D.faults dev.old) (D.faults dev.new)) }
    ensures undamaged { AreTold D.File.bytes
        → IfOk result (λ history. has_damage history.notes ≡ false) }

    ensures alone { dev.new ≡ dev.old }
{
    run_script_named::<D, Brand>(alloc, Blank::new(1), script, dev)
}

/// The same, for any ledger of faults, with its blank of one part.
pub fn run_script_named<D: Device, L: Ledger>(
    alloc: Global,
    blank: Blank,
    script: Script,
    dev: &mut D,
) -> Result<History, RunNo>
    requires name { blank.name ≡ L.name }
    requires parts { blank.parts ≡ L.parts }
    requires one { blank.parts ≡ 1 }
    requires built { first_unbuilt script ≡ None }
    ensures right { IfOk result (λ history. IsRight 1 1 history.notes) }
    ensures run { IfOk result (λ history. IsRunOf 1 1 script history.notes) }
    ensures faults { IfOk result (λ history.
        RoseBy (faults history.notes) (D.faults dev.old) (D.faults dev.new)) }
    ensures undamaged { AreTold D.File.bytes
        → IfOk result (λ history. has_damage history.notes ≡ false) }
    ensures alone { dev.new ≡ dev.old }
{
    let (book, shares) = FaultBook::<L>::split(alloc, blank, 1)?;
    let mut engine: Engine<D::File, L> = Engine::new(alloc, 1, 1, book);
    take_all(alloc, &mut engine, script.into_lines(), dev)?;
    // No file is there yet that could be removed.
    let (history, mut book) = engine.into_history();
    // What the notes tell of faults is in the book, which is the sum of its shares.
    book.sum(shares);
    Ok(history)
}

/// Takes one line after another. The memory of lines that were taken is given back as the run goes on.
fn take_all<F: FileRef, L: Ledger, R: Reader<File = F>>(
    alloc: Global,
    engine: &mut Engine<F, L>,
    script: Vec<Line>,
    dev: &mut R,
) -> Result<(), AllocError>
    requires run { IsTrue (list_all is_run script.items) }
    requires fresh { HasTakenLines [] engine.old }
    ensures taken { OnOk result (HasTakenLines script.items engine.new) }
    ensures alone { dev.new ≡ dev.old }
{
    let mut left = script;
    left.reverse();
    while let Some(line) = left.pop() {
        lines::take(alloc, engine, line, dev)?;
        shorten(&mut left);
    }
    Ok(())
}

/// Gives memory back where less than half of it is used.
fn shorten(lines: &mut Vec<Line>)
    ensures { lines.new.items ≡ lines.old.items }
{
    if lines.len() < lines.capacity() / 2 {
        lines.shrink_to_fit();
    }
}
