//! Tables named by level and number, among which one is found by binary search.
ghost use Rattle.std.specs.Prelude.{◌≡◌, ◌++◌, ◌+◌, ◌≤◌, ℕ, [], length, map, IfOk, OnOk};
ghost use Rattle.xdb_levels.specs.Names.{is_named, names_from};

use crate::tables::Tables;
use std::alloc::{AllocError, Global};
use std::marker::Model;
use xdb_meta::TableMeta;

/// Levels and numbers, rising.
#[derive(Debug, Drop)]
pub struct Names {
    names: Vec<(u8, u64)>,
}

impl Model for Names {
    ghost use Rattle.std.specs.Prelude.{List, ℕ};
    ghost use Rattle.std.specs.List.Sorted.{IsSorted};
    ghost use Rattle.xdb_levels.specs.Names.{name_cmp};

    ghost Value = { List (ℕ × ℕ) };

    ghost view = { λ a. a.names.items };

    ghost invariant = { λ a. IsSorted name_cmp a.names.items };
}

impl Names {
    pub fn sorted(mut names: Vec<(u8, u64)>) -> Self
        ensures { (level num : ℕ) → is_named result level num ≡ is_named names.items level num }
    {
        names.sort_unstable();
        Names { names }
    }

    pub fn has(&self, level: u8, num: u64) -> bool
        ensures { result ≡ is_named self.now level num }
    {
        self.names.binary_search(&(level, num)).is_ok()
    }
}

/// The names of all tables of the levels.
pub fn names_of(alloc: Global, levels: &[Tables]) -> Result<Vec<(u8, u64)>, AllocError>
    requires { length levels.now ≤ 16 }
    ensures { IfOk result (λ names. names.items ≡ names_from 0 levels.now) }
{
    let mut names = Vec::new(alloc);
    let mut level: u8 = 0;
    for tables in levels {
        put_names(&mut names, level, tables.list())?;
        level += 1;
    }
    Ok(names)
}

fn put_names(out: &mut Vec<(u8, u64)>, level: u8, tables: &[TableMeta]) -> Result<(), AllocError>
    ensures { OnOk result (out.new.items ≡ out.old.items ++ map (λ t. (level, t.num)) tables.now) }
{
    for table in tables {
        out.push((level, table.num()))?;
    }
    Ok(())
}
