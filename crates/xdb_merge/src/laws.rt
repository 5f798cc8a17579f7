//! Laws of the definitions, each a function that does nothing.
ghost use Rattle.std.specs.Prelude.{◌≡◌, ◌++◌, ℕ, List, IsTrue};
ghost use Rattle.std.specs.List.{AllByRecursion};
ghost use Rattle.xdb_key.specs.Bounds.{Bounds, holds};
ghost use Rattle.xdb_mem.specs.Parts.{Parts};
ghost use Rattle.xdb_meta.specs.Table.{Table};
ghost use Rattle.xdb_rangedel.specs.Content.{content_of, newest};
ghost use Rattle.xdb_table_r.specs.Cursors.{Walk};
ghost use Rattle.xdb_table_r.specs.Views.{Shown};
ghost use Rattle.xdb_table_r.specs.declared.error.TableNo.{TableNo};
ghost use Rattle.xdb_merge.specs.Layers.{content_of_layers};
ghost use Rattle.xdb_merge.specs.Merge.{layers};
ghost use Rattle.xdb_merge.specs.Steps.{IsLoaded, NamesDefect, views};
ghost use Rattle.xdb_merge.specs.Tables.{AreViewsOf, AreTold, tables_in, content_of_tables, NamesDamage};

use xdb_device::FileRef;

/// What a merged cursor goes over, once the views of tables are read whose files tell their bytes: the content of
/// the memtables and of the tables.
pub fn content_is_of_tables<F: FileRef>()
    ensures { (mem : Parts) (tables : List (Table × F)) (walks : List (Walk F))
        → AreViewsOf F.bytes tables (views walks) → AllByRecursion (IsLoaded F.bytes) walks
        → AreTold F.bytes tables
        → content_of_layers (layers mem walks)
        ≡ content_of mem.entries mem.spans ++ content_of_tables F.bytes tables }
{}

/// A defect that a merged cursor names is one of a table.
pub fn damage_is_of_tables<F: FileRef>()
    ensures { (tables : List (Table × F)) (vs : List (Shown F)) (no : TableNo)
        → AreViewsOf F.bytes tables vs → NamesDefect F.bytes vs no → NamesDamage F.bytes tables no }
{}

/// In a range, the tables that may have keys of it say what all tables say.
pub fn others_say_nothing<F: FileRef>()
    ensures { (tables : List (Table × F)) (r : Bounds) (limit : ℕ) (k : List ℕ) → IsTrue (holds r k)
        → newest (content_of_tables F.bytes (tables_in r tables)) limit k
        ≡ newest (content_of_tables F.bytes tables) limit k }
{}
