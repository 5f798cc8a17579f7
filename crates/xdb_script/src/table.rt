//! The tables that a script defines.
ghost use Rattle.std.specs.Prelude.{◌≡◌, ◌||◌, ℕ, List, [], true, OnOk, is_some, is_none};
ghost use Rattle.std.specs.Ordering.{eq_by_cmp};
ghost use Rattle.xdb_key.specs.Order.{key_cmp};
ghost use Rattle.xdb_key.specs.Ops.{disorder};
ghost use Rattle.xdb_plain.specs.Scripts.{found_table, are_defined};
ghost use Rattle.xdb_script.specs.Answers.{Answers, as_tables, has_name, ruled, texts};
ghost use Rattle.xdb_script.specs.Reading.{table_read, named_table_read};
ghost use Rattle.xdb_script.specs.Rules.{tables_stand, points_rise};

use crate::Why;
use crate::error::LineNo;
use crate::numbers::read_name;
use crate::operations::{ops_shape, read_ops, rising};
use std::alloc::{AllocError, Global};
use std::collections::BTreeSet;
use std::marker::Model;
use xdb_key::{Name, Ops, disorder};
use xdb_plain::{Cmd, LoadTable};

/// The names of the tables that lines so far define.
#[derive(Drop)]
pub struct Tables {
    names: BTreeSet<Name>,
}

impl Model for Tables {
    ghost use Rattle.std.specs.Prelude.{ℕ, List};

    ghost Value = { List (List ℕ) };

    ghost view = { λ t. t.names.keys };
}

impl Tables {
    pub fn new(alloc: Global) -> Self
        ensures { result ≡ [] }
    {
        Tables {
            names: BTreeSet::new(alloc),
        }
    }

    pub fn define(&mut self, name: Name) -> Result<(), AllocError>
        ensures { OnOk result ((n : List ℕ) → has_name self.new n ≡ (eq_by_cmp key_cmp name n || has_name self.old n)) }
    {
        self.names.insert(name)?;
        Ok(())
    }

    #[tactic(auto, using(crate::proofs::Named::found_named))]
    fn has(&self, name: &Name) -> bool
        ensures { result ≡ is_some (found_table name.now (as_tables self.now)) }
    {
        self.names.contains(name)
    }

    /// Whether the tables of a load are there, and a table that is defined is new.
    pub fn stand(&self, cmd: &Cmd) -> bool
        ensures stand { result ≡ tables_stand (as_tables self.now) cmd.now }
        ensures rise { points_rise cmd.now ≡ true }
    {
        match cmd {
            Cmd::Load { tables, .. } => self.have(tables.list()),
            Cmd::Table { table } => self.lack(table),
            _ => true,
        }
    }

    fn have(&self, names: &[Name]) -> bool
        ensures { result ≡ are_defined names.now (as_tables self.now) }
    {
        names.iter().all(|name| self.has(name))
    }

    #[tactic(auto, using(crate::proofs::Named::none_not))]
    fn lack(&self, table: &LoadTable) -> bool
        ensures lack { result ≡ is_none (found_table table.now.name (as_tables self.now)) }
        ensures rise { is_none (disorder table.now.ops) ≡ true }
    {
        let ops = table.ops();
        prove!(!ops.is_empty());
        !self.has(&table.name())
    }
}

/// A table's name and its operations.
pub fn read_table(alloc: Global, tables: &Tables, words: &[&[u8]]) -> Result<Cmd, LineNo>
    ensures { Answers (λ cmd. cmd) result (ruled tables.now (table_read (texts words.now))) }
{
    match words {
        [] => Err(LineNo::Bad(Why::Shape)),
        [name, operands @ ..] => read_named(alloc, tables, name, operands),
    }
}

fn read_named(
    alloc: Global,
    tables: &Tables,
    name: &[u8],
    operands: &[&[u8]],
) -> Result<Cmd, LineNo>
    ensures { Answers (λ cmd. cmd) result (ruled tables.now (named_table_read name.now (texts operands.now))) }
{
    let parts = ops_shape(alloc, operands)?;
    let name = read_name(name)?;
    let drafts = read_ops(alloc, &parts)?;
    let ops = rising(alloc, drafts)?;
    if tables.has(&name) {
        return Err(LineNo::Bad(Why::Table));
    }
    if disorder(&ops).is_some() {
        return Err(LineNo::Bad(Why::Order));
    }
    Ok(Cmd::Table {
        table: LoadTable::new(name, Ops::new(ops)),
    })
}
