//! Laws of the definitions, each a function that does nothing.
ghost use Rattle.std.specs.Prelude.{◌≡◌, [], ◌∷◌, ◌++◌, ℕ, List, Ok, Some, IsTrue};
ghost use Rattle.std.specs.List.{list_all};
ghost use Rattle.xdb_key.specs.Reading.{AreBytes};
ghost use Rattle.xdb_edit.specs.Changes.{Changes, changes};
ghost use Rattle.xdb_edit.specs.Records.{IsEdit};
ghost use Rattle.xdb_edit.specs.Spelling.{edit_bytes};
ghost use Rattle.xdb_edit.specs.Reading.{edit_at};
ghost use Rattle.xdb_edit.specs.Samples.{small_table};
ghost use Rattle.xdb_edit.specs.Versions.{LevelLists, no_tables, edited, version_of, missing, overlap, applies, are_sorted, are_disjoint, has_range, have_ranges, tables_of};

/// What is spelled is read again.
pub fn edit_is_read_again()
    ensures { (e : Changes) → IsEdit e → edit_at (edit_bytes e) ≡ Ok e }
{}

/// What is read is spelled so.
pub fn edit_is_spelled_so()
    ensures { (bytes : List ℕ) (e : Changes) → AreBytes bytes → edit_at bytes ≡ Ok e → IsEdit e × (bytes ≡ edit_bytes e) }
{}

/// An edit keeps each level in its order; where it applies, the levels above L0 stay apart too.
pub fn edits_keep_levels()
    ensures sorted { (levels : LevelLists) (e : Changes) → IsTrue (are_sorted levels) → IsTrue (are_sorted (edited levels e)) }
    ensures ranges { (levels : LevelLists) (e : Changes) → IsTrue (list_all (λ a. has_range a.1) e.added) → IsTrue (have_ranges levels) → IsTrue (have_ranges (edited levels e)) }
    ensures disjoint { (levels : LevelLists) (e : Changes) → IsTrue (are_sorted levels) → IsTrue (have_ranges levels) → IsTrue (list_all (λ a. has_range a.1) e.added) → IsTrue (applies levels e) → IsTrue (are_disjoint (edited levels e)) }
{}

/// A history that is longer by one edit leads to the version after that edit.
pub fn version_goes_on()
    ensures { (es : List Changes) (e : Changes) → version_of (es ++ e ∷ []) ≡ edited (version_of es) e }
{}

/// Small edits of a version without tables.
pub fn small_edits()
    ensures missing { missing no_tables (changes ((0, 9) ∷ []) [] []) ≡ Some 9 }
    ensures overlap { overlap (edited no_tables (changes [] [] ((1, small_table 2 98 100 1 9) ∷ (1, small_table 1 97 99 1 9) ∷ []))) ≡ Some (1, 2) }
    ensures l0_may_overlap { IsTrue (applies no_tables (changes [] [] ((0, small_table 1 97 99 1 9) ∷ (0, small_table 2 98 100 1 9) ∷ []))) }
    // L0 stands by the greatest sequence number.
    ensures order_of_l0 { tables_of (edited no_tables (changes [] [] ((0, small_table 1 97 99 8 9) ∷ (0, small_table 2 98 100 5 9) ∷ []))) 0 ≡ small_table 2 98 100 5 9 ∷ small_table 1 97 99 8 9 ∷ [] }
    ensures replaced { version_of (changes [] (1 ∷ []) ((0, small_table 1 97 99 1 9) ∷ []) ∷ changes ((0, 1) ∷ []) [] ((2, small_table 3 97 98 1 5) ∷ []) ∷ []) ≡ edited no_tables (changes [] [] ((2, small_table 3 97 98 1 5) ∷ [])) }
{}
