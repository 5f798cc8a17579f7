//! The tables of one level.
ghost use Rattle.std.specs.Prelude.{◌≡◌, []};
ghost use Rattle.xdb_edit.specs.Versions.{table_cmp};

use std::alloc::Global;
use std::cmp::Ordering;
use std::marker::Model;
use xdb_key::compare as compare_keys;
use xdb_meta::TableMeta;

/// The tables of one level, in its order.
#[derive(Debug, Drop)]
pub struct Tables {
    tables: Vec<TableMeta>,
}

impl Model for Tables {
    ghost use Rattle.std.specs.Prelude.{List};
    ghost use Rattle.xdb_meta.specs.Table.{Table};

    ghost Value = { List Table };

    ghost view = { λ a. a.tables.items };
}

impl Tables {
    pub fn new(tables: Vec<TableMeta>) -> Self
        ensures { result ≡ tables.items }
    {
        Tables { tables }
    }

    pub fn none(alloc: Global) -> Self
        ensures { result ≡ [] }
    {
        Tables {
            tables: Vec::new(alloc),
        }
    }

    pub fn allocator(&self) -> Global {
        *self.tables.allocator()
    }

    pub fn list(&self) -> &[TableMeta]
        ensures { result.now ≡ self.now }
    {
        &self.tables
    }
}

/// The order of a level: of L0 by greatest sequence number, of every other one by where a table begins;
/// then by number.
pub fn compare(level: u8, a: &TableMeta, b: &TableMeta) -> Ordering
    ensures { result ≡ table_cmp level a.now b.now }
{
    let first = if level == 0 {
        a.seq_hi().cmp(&b.seq_hi())
    } else {
        compare_keys(a.lo().bytes(), b.lo().bytes())
    };
    first.then(a.num().cmp(&b.num()))
}
