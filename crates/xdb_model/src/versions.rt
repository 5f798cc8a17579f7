//! What the versions of every legal history keep.
ghost use Rattle.std.specs.Prelude.{◌≡◌, ◌∷◌, ◌++◌, ℕ, List, Some, IsTrue};
ghost use Rattle.std.specs.List.{AllByRecursion};
ghost use Rattle.xdb_meta.specs.Table.{Table};
ghost use Rattle.xdb_edit.specs.Changes.{Changes};
ghost use Rattle.xdb_edit.specs.Versions.{applies, is_disjoint, are_disjoint};
ghost use Rattle.xdb_plain.specs.Legal.{IsLegal, after_all};
ghost use Rattle.xdb_plain.specs.State.{opening};
ghost use Rattle.xdb_plain.specs.declared.note.Note.{Note};
ghost use Rattle.xdb_plain.specs.declared.reply.Reply.TheVariants as reply;
ghost use Rattle.xdb_model.specs.Apart.{AreApart, IsOrderly, CompactionsFit};
ghost use Rattle.xdb_model.specs.Named.{IsUnnamed, AddsNone};

/// From the note that takes a number on, no table of a current version stands on the file, and no edit adds
/// such a table.
pub fn taken_files_are_named_no_more()
    ensures versions { (first_seq first_file : ℕ) (before : List Note) (taking : Note) (between later : List Note) (num : ℕ)
        → IsLegal first_seq first_file (before ++ taking ∷ between ++ later) → taking.reply ≡ reply.Took num
        → IsUnnamed num (after_all (opening first_seq first_file) (before ++ taking ∷ between)).current }
    ensures taken { (first_seq first_file : ℕ) (notes : List Note) → IsLegal first_seq first_file notes
        → AllByRecursion (λ n. IsUnnamed n (after_all (opening first_seq first_file) notes).current) (after_all (opening first_seq first_file) notes).taken }
    ensures edits { (first_seq first_file : ℕ) (before : List Note) (taking : Note) (between : List Note) (note : Note) (later : List Note) (num : ℕ)
        → IsLegal first_seq first_file (before ++ taking ∷ between ++ note ∷ later) → taking.reply ≡ reply.Took num
        → AddsNone num note.edit }
{}

/// No two running compactions have hulls that meet. While a compaction runs and isn't cancelled, its inputs are
/// tables of their levels and lie in its hull. At the level that it writes to they are all that meets the hull, and
/// so it is at the level that it takes from, unless that is L0.
pub fn compactions_keep_apart()
    ensures { (first_seq first_file : ℕ) (notes : List Note) → IsLegal first_seq first_file notes
        → CompactionsFit (after_all (opening first_seq first_file) notes) }
{}

/// Where no two outputs of a compaction meet, and the span of each load is a range, the levels above L0 are
/// disjoint. That outputs lie in the hull is asked of every history.
pub fn levels_are_disjoint()
    ensures { (first_seq first_file : ℕ) (notes : List Note) → IsLegal first_seq first_file notes → AllByRecursion IsOrderly notes
        → IsTrue (are_disjoint (after_all (opening first_seq first_file) notes).current.levels) }
{}

/// Each edit of such a history applies to the version that it finds: what it removes is there, and what it leaves
/// doesn't overlap.
pub fn edits_apply()
    ensures { (first_seq first_file : ℕ) (before : List Note) (note : Note) (later : List Note) (e : Changes)
        → IsLegal first_seq first_file (before ++ note ∷ later) → AllByRecursion IsOrderly (before ++ note ∷ later) → note.edit ≡ Some e
        → IsTrue (applies (after_all (opening first_seq first_file) before).current.levels e) }
{}

/// No two tables meet of which each ends before those behind it begin.
pub fn disjoint_tables_are_apart()
    ensures { (ts : List Table) → IsTrue (is_disjoint ts) → AreApart ts }
{}
