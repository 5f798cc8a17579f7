//! Where a loaded table may stand.
ghost use Rattle.std.specs.Prelude.{◌≡◌, ◌<◌};
ghost use Rattle.std.specs.List.{list_any};
ghost use Rattle.xdb_key.specs.Bounds.{meets};
ghost use Rattle.xdb_meta.specs.Table.{bounds_of};
ghost use Rattle.xdb_edit.specs.Plans.{place, free_levels};
ghost use Rattle.xdb_edit.specs.Versions.{tables_of};

use crate::hull::meets_one;
use xdb_key::KeyRange;
use xdb_levels::Version;
use xdb_meta::TableMeta;

/// The greatest level such that no table of it or above it meets the bounds; 0 where there is none, and where
/// a running compaction meets them, of which `running` are the hulls. Takes no memory.
pub fn place(v: &Version, running: &[KeyRange], bounds: &KeyRange) -> usize
    ensures { result ≡ place v.now running.now bounds.now }
{
    if meets_one(bounds, running) {
        return 0;
    }
    free_levels(v, bounds).saturating_sub(1)
}

/// How many levels from L0 on have no table that meets the bounds.
fn free_levels(v: &Version, bounds: &KeyRange) -> usize
    ensures { result ≡ free_levels v.now bounds.now }
{
    let levels = v.count();
    for level in 0..levels {
        if is_met(v, level, bounds) {
            return level;
        }
    }
    levels
}

/// Whether a table of the level meets the bounds.
fn is_met(v: &Version, level: usize, bounds: &KeyRange) -> bool
    requires { level < 7 }
    ensures { result ≡ list_any (λ t. meets bounds.now (bounds_of t)) (tables_of v.now level) }
{
    meet(v.candidates(level, bounds), bounds)
}

/// Whether one of the tables meets the bounds.
fn meet(tables: &[TableMeta], bounds: &KeyRange) -> bool
    ensures { result ≡ list_any (λ t. meets bounds.now (bounds_of t)) tables.now }
{
    tables.iter().any(|table| bounds.meets(table.range()))
}
