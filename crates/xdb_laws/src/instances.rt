//! Small contents that meet the premises of the laws, so that none speaks of nothing.
ghost use Rattle.std.specs.Prelude.{◌≡◌, ℕ, ◌++◌, ◌∷◌, [], IsTrue, false};
ghost use Rattle.xdb_key.specs.Bounds.{meets, covers};
ghost use Rattle.xdb_rangedel.specs.Content.{Item, here};
ghost use Rattle.xdb_rangedel.specs.Layers.{IsAllBelow};
ghost use Rattle.xdb_rangedel.specs.Members.{Has, SameMembers};
ghost use Rattle.xdb_stripes.specs.Floors.{floor_holds};
ghost use Rattle.xdb_stripes.specs.Keeps.{IsLimit};
ghost use Rattle.xdb_laws.specs.Compaction.{LiesBetween, ChangesAround, ShareNoKey, LiesWithin, IsCompaction, places_before, upper_of, lower_of};
ghost use Rattle.xdb_laws.specs.Flush.{IsFlush, groups_before, levels_before};
ghost use Rattle.xdb_laws.specs.Ordered.{Ordered, IsNumberedUpTo, StandsByNumber, AreLeftOf, joined, places, whole};
ghost use Rattle.xdb_laws.specs.Rewrite.{AreLimits};
ghost use Rattle.xdb_laws.specs.Tables.{IsUnderWay, IsPut, IsFlushPut, contents};
ghost use Rattle.xdb_laws.specs.Small.{small_content, small_groups, small_version, small_edit, small_l0, flushed_content, flushed_table, small_flush, small_marks, small_move, small_floor, small_level, letters, put};

/// A flush under a stripe: one put goes, and a range delete stays. The places are in order, as
/// a commit and a seal need them too; and numbers and marks are below the next one.
pub fn a_flush_is_one()
    ensures order { Ordered (places (groups_before small_flush) (levels_before small_flush)) }
    ensures flush { IsFlush (4 ∷ []) small_flush }
    ensures limits { AreLimits small_flush.group (4 ∷ []) small_marks }
    ensures numbers { IsNumberedUpTo 10 (whole (groups_before small_flush)
        (levels_before small_flush)) small_marks }
{}

/// A table that was flushed, and one that was loaded, each by its number.
pub fn tables_stand_by_number()
    ensures flushed { StandsByNumber (joined (groups_before small_flush)) 10 3 (put 97 3 ∷ []) }
    ensures loaded { StandsByNumber (joined (groups_before small_flush)) 10 8 (put 100 8 ∷ []) }
{}

/// A compaction from its take on: what it takes, what comes to stand above meanwhile, and what it
/// makes.
pub fn a_compaction_is_one()
    ensures taken { Ordered ([] ++ (small_level ++ small_move.below)) }
    ensures inputs { SameMembers (joined small_level) (small_move.rest ++ small_move.given) }
    ensures others { LiesWithin (letters 100 101 ∷ []) small_move.rest }
    ensures bounds { LiesWithin (letters 97 98 ∷ letters 98 99 ∷ []) small_move.given }
    ensures apart { meets (letters 97 99) (letters 100 101) ≡ false }
    ensures hull { IsTrue (covers (letters 97 99) (letters 97 98))
        × IsTrue (covers (letters 97 99) (letters 98 99)) }
    ensures floor { LiesWithin (letters 98 99 ∷ []) (lower_of small_move) }
    ensures meanwhile { ChangesAround 6 small_move.given small_move.rest (lower_of small_move)
        (upper_of small_move) (lower_of small_move) }
    ensures order { Ordered (places_before small_move) }
    ensures compaction { IsCompaction [] small_floor small_move }
{}

/// The same compaction over the tables of a version: under way, and its edit.
pub fn an_edit_puts_a_compaction()
    ensures order { Ordered (places small_groups (contents small_content small_version)) }
    ensures under_way { IsUnderWay small_content small_groups small_version 0 small_edit.removed
        small_move.given small_floor }
    ensures put { IsPut small_content small_groups small_version 0 small_edit small_move.given []
        small_floor }
{}

/// The edit of a flush over these tables, where the group behind has put b at 10.
pub fn an_edit_puts_a_flush()
    ensures order { Ordered (places ((put 98 9 ∷ []) ∷ (put 98 10 ∷ []) ∷ [])
        (contents flushed_content small_version)) }
    ensures put { IsFlushPut flushed_content (put 98 9 ∷ [])
        ((put 98 10 ∷ []) ∷ []) small_l0 flushed_table [] 11 }
{}
