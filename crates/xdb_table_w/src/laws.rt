//! Laws of the definitions, each a function that does nothing.
ghost use Rattle.std.specs.Prelude.{◌≡◌, ◌<◌, ◌^◌, ◌∷◌, ◌++◌, List, None, All, map, IsTrue};
ghost use Rattle.xdb_key.specs.Entries.{Tombstone};
ghost use Rattle.xdb_rangedel.specs.Pieces.{AreFragments};
ghost use Rattle.xdb_table_w.specs.Content.{span_row, last_of, lies_behind};

/// Fragments stand in the order in which spans are added to a table.
pub fn fragments_stand_in_order()
    ensures { (before : List Tombstone) (t : Tombstone) (after : List Tombstone) → AreFragments (before ++ t ∷ after) → All (λ s. s.seq < 2 ^ 56) (before ++ t ∷ after) → IsTrue (lies_behind (last_of None (map span_row before)) (span_row t)) }
{}
