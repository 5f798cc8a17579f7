//! Laws of the definitions, each a function that does nothing.
ghost use Rattle.std.specs.Prelude.{◌≡◌, [], IsTrue};
ghost use Rattle.xdb_edit.specs.Changes.{Changes};
ghost use Rattle.xdb_edit.specs.Records.{IsEdit};
ghost use Rattle.xdb_levels.specs.Applying.{names_below};

/// The levels that an edit names are those of a version.
pub fn edits_name_levels()
    ensures { (e : Changes) → IsEdit e → IsTrue (names_below 7 e) }
{}
