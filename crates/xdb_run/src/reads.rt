//! Questions, in parts and whole.
ghost use Rattle.std.specs.Prelude.{◌≡◌, IsTrue, Some, true, false};
ghost use Rattle.xdb_plain.specs.Steps.{is_client};
ghost use Rattle.xdb_plain.specs.declared.act.By.TheVariants.{Client};
ghost use Rattle.xdb_plain.specs.declared.script.Cmd.TheVariants as cmd;
ghost use Rattle.xdb_run.specs.Running.{IsReady, TakesLine};

use crate::works::{self, WorkEnd};
use std::alloc::Global;
use std::sync::ledger::Ledger;
use xdb_device::{FileRef, Reader};
use xdb_engine::{Engine, Id};
use xdb_plain::{Question, Reply};

/// A question in parts is only asked. Any other is answered at once.
pub fn ask<F: FileRef, L: Ledger, R: Reader<File = F>>(
    alloc: Global,
    engine: &mut Engine<F, L>,
    client: u8,
    question: Question,
    parted: bool,
    dev: &mut R,
)
    requires client { IsTrue (is_client (Client client)) }
    requires ready { IsReady engine.old }
    ensures line { TakesLine engine.old engine.new (Some (Client client)) (cmd.Ask question parted) }
    ensures alone { dev.new ≡ dev.old }
{
    if parted {
        engine.ask(client, question, true);
    } else {
        read(alloc, engine, client, question, dev);
    }
}

/// Asks, does the work, and settles where the work had a result.
fn read<F: FileRef, L: Ledger, R: Reader<File = F>>(
    alloc: Global,
    engine: &mut Engine<F, L>,
    client: u8,
    question: Question,
    dev: &mut R,
)
    requires client { IsTrue (is_client (Client client)) }
    requires ready { IsReady engine.old }
    ensures line { TakesLine engine.old engine.new (Some (Client client)) (cmd.Ask question false) }
    ensures alone { dev.new ≡ dev.old }
{
    let (reply, _hand) = engine.ask(client, question, false);
    let Reply::Asked(number) = reply else {
        return;
    };
    if let WorkEnd::Kept = works::bring(alloc, engine, Id::Ask(number), dev) {
        engine.settle(client, number);
    }
}

pub fn settle<F: FileRef, L: Ledger>(engine: &mut Engine<F, L>, client: u8, ask: u64)
    requires client { IsTrue (is_client (Client client)) }
    requires ready { IsReady engine.old }
    ensures { TakesLine engine.old engine.new (Some (Client client)) (cmd.Settle ask) }
{
    engine.settle(client, ask);
}
