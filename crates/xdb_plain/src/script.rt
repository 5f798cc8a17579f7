ghost use Rattle.std.specs.Prelude.{◌≡◌, List, IsTrue};
ghost use Rattle.xdb_plain.specs.Scripts.{is_script};
ghost use Rattle.xdb_plain.specs.declared.script.Line.{Line};

use crate::{By, CommitForm, Items, LoadTable, Question, ShowWhat, StatusForm, Which};
use std::marker::Model;
use xdb_key::{KeyRange, Name, Ops};

/// A command of a script.
#[derive(Debug, Drop)]
pub enum Cmd {
    /// Defines a table for the lines below.
    Table {
        table: LoadTable,
    },
    Commit {
        form: CommitForm,
        ops: Ops,
    },
    /// A question; a parted one is only asked, and answered by a later command.
    Ask {
        question: Question,
        parted: bool,
    },
    Settle {
        ask: u64,
    },
    Snap {
        name: Name,
        ranges: Items<KeyRange>,
    },
    Drop {
        name: Name,
    },
    Status {
        name: Name,
        form: StatusForm,
    },
    Cursor {
        name: Name,
        range: KeyRange,
        at: Option<Name>,
    },
    Shut {
        name: Name,
    },
    /// Opens a load of tables that lines above define.
    Load {
        load: Name,
        tables: Items<Name>,
        span: Option<KeyRange>,
    },
    Install {
        load: Name,
    },
    Seal,
    FlushTake,
    Put {
        job: u64,
    },
    CompactTake {
        which: Which,
    },
    /// The work of a flush or a compaction.
    Build {
        job: u64,
    },
    /// The work of a question.
    Work {
        ask: u64,
    },
    /// A flush from its beginning to its end.
    Flush,
    /// A compaction from its beginning to its end.
    Compact {
        which: Which,
    },
    Reap,
    Show {
        what: ShowWhat,
    },
}

/// A line of a script that means something.
#[derive(Debug, Drop)]
pub struct Line {
    /// The line's number in the script, from 1.
    pub number: u64,
    /// Who says it; nobody says the definition of a table.
    pub by: Option<By>,
    pub cmd: Cmd,
}

/// The lines of a script in their order. Each is by one who may say it, keeps the limits, and loads only
/// tables that lines above it define.
#[derive(Debug, Drop)]
pub struct Script {
    lines: Vec<Line>,
}

impl Model for Script {
    ghost use Rattle.std.specs.Prelude.{List, IsTrue};
    ghost use Rattle.xdb_plain.specs.Scripts.{is_script};
    ghost use Rattle.xdb_plain.specs.declared.script.Line.{Line};

    ghost Value = { List Line };

    ghost view = { λ s. s.lines.items };

    ghost invariant = { λ s. IsTrue (is_script s.lines.items) };
}

impl Script {
    pub fn new(lines: Vec<Line>) -> Self
        requires { IsTrue (is_script lines.items) }
        ensures { result ≡ lines.items }
    {
        Script { lines }
    }

    pub fn lines(&self) -> &[Line]
        ensures lines { result.now ≡ self.now }
        ensures script { IsTrue (is_script self.now) }
    {
        &self.lines
    }

    /// Gives the lines back, without memory.
    pub fn into_lines(self) -> Vec<Line>
        ensures lines { result.items ≡ self }
        ensures script { IsTrue (is_script self) }
    {
        self.lines
    }
}
