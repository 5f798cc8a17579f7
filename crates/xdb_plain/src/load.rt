ghost use Rattle.std.specs.Prelude.{◌≡◌, ◌↔◌, IsTrue, IfOk};
ghost use Rattle.xdb_key.specs.Ops.{is_table};
ghost use Rattle.xdb_plain.specs.Tables.{TableOps, table_ops};

use std::alloc::AllocError;
use std::marker::Model;
use xdb_key::{Name, Op, Ops};

/// A table to be loaded: 1 to 4,096 operations, of which the spans act first, and whose points rise.
#[derive(Debug, Drop)]
pub struct LoadTable {
    name: Name,
    ops: Ops,
}

impl Model for LoadTable {
    ghost use Rattle.std.specs.Prelude.{IsTrue};
    ghost use Rattle.xdb_key.specs.Ops.{is_table};
    ghost use Rattle.xdb_plain.specs.Tables.{TableOps, table_ops};

    ghost Value = { TableOps };

    ghost view = { λ t. table_ops t.name t.ops };

    ghost invariant = { λ t. IsTrue (is_table t.ops) };
}

impl LoadTable {
    pub fn new(name: Name, ops: Ops) -> Self
        requires { IsTrue (is_table ops) }
        ensures { result ≡ table_ops name ops }
    {
        LoadTable { name, ops }
    }

    pub fn name(&self) -> Name
        ensures { result ≡ self.now.name }
    {
        self.name
    }

    pub fn ops(&self) -> &[Op]
        ensures ops { result.now ≡ self.now.ops }
        ensures table { IsTrue (is_table self.now.ops) }
    {
        self.ops.list()
    }

    pub fn copy(&self) -> Result<Self, AllocError>
        ensures { IfOk result (λ table. table ≡ self.now) }
    {
        let ops = self.ops.copy()?;
        Ok(LoadTable {
            name: self.name,
            ops,
        })
    }
}
