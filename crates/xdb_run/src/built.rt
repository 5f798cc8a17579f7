//! Which commands are built.
ghost use Rattle.std.specs.Prelude.{◌≡◌, IsTrue};
ghost use Rattle.xdb_plain.specs.Scripts.{is_script};
ghost use Rattle.xdb_run.specs.Built.{is_built, is_read, first_unbuilt};

use xdb_plain::{Cmd, Question, Script};

/// The number of the first line whose verb isn't built. Such a script isn't run.
pub fn first_unbuilt(script: &Script) -> Option<u64>
    ensures first { result ≡ first_unbuilt script.now }
    ensures script { IsTrue (is_script script.now) }
{
    script
        .lines()
        .iter()
        .find(|line| !is_built(&line.cmd))
        .map(|line| line.number)
}

fn is_built(cmd: &Cmd) -> bool
    ensures { result ≡ is_built cmd.now }
{
    match cmd {
        Cmd::Ask { question, .. } => is_read(question),
        Cmd::Table { .. }
        | Cmd::Commit { .. }
        | Cmd::Settle { .. }
        | Cmd::Seal
        | Cmd::Work { .. } => true,
        _ => false,
    }
}

fn is_read(question: &Question) -> bool
    ensures { result ≡ is_read question.now }
{
    !matches!(question, Question::Move { .. })
}
