//! Commits, and the sealing of groups.
ghost use Rattle.std.specs.Prelude.{IsTrue, Some};
ghost use Rattle.xdb_plain.specs.Scripts.{are_batch};
ghost use Rattle.xdb_plain.specs.Steps.{is_client};
ghost use Rattle.xdb_plain.specs.declared.act.By.TheVariants.{Client, Db};
ghost use Rattle.xdb_plain.specs.declared.script.Cmd.TheVariants as cmd;
ghost use Rattle.xdb_run.specs.Running.{IsReady, TakesLine};

use std::sync::ledger::Ledger;
use xdb_batch::Batch;
use xdb_device::FileRef;
use xdb_engine::Engine;
use xdb_key::Ops;
use xdb_plain::CommitForm;

pub fn commit<F: FileRef, L: Ledger>(
    engine: &mut Engine<F, L>,
    client: u8,
    form: CommitForm,
    ops: Ops,
)
    requires client { IsTrue (is_client (Client client)) }
    requires batch { IsTrue (are_batch ops) }
    requires ready { IsReady engine.old }
    ensures { TakesLine engine.old engine.new (Some (Client client)) (cmd.Commit form ops) }
{
    let Ok(batch) = Batch::from_ops(ops.into_list()) else {
        unreachable!()
    };
    engine.commit(client, form, batch);
}

pub fn seal<F: FileRef, L: Ledger>(engine: &mut Engine<F, L>)
    requires ready { IsReady engine.old }
    ensures { TakesLine engine.old engine.new (Some Db) cmd.Seal }
{
    engine.seal();
}
