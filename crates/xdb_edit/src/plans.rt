//! What plans keep, and what plans and places are over three small versions, each a function that does
//! nothing.
ghost use Rattle.std.specs.Prelude.{◌≡◌, [], ◌∷◌, ◌++◌, ℕ, suc, List, Some, None, IsTrue};
ghost use Rattle.std.specs.List.{list_all};
ghost use Rattle.xdb_key.specs.Bounds.{Bounds, covers};
ghost use Rattle.xdb_meta.specs.Table.{bounds_of};
ghost use Rattle.xdb_edit.specs.Plans.{Planned, meeting, plan_for, pick, place};
ghost use Rattle.xdb_edit.specs.Samples.{letters, crowded, heavy, sparse};
ghost use Rattle.xdb_edit.specs.Versions.{LevelLists, tables_of};

/// A plan has taken in all that it meets: each table of its two levels that meets its hull lies in it.
pub fn plans_are_full()
    ensures { (levels : LevelLists) (running : List Bounds) (level : ℕ) (range : Bounds) (p : Planned) → plan_for levels running level range ≡ Some p
        → IsTrue (list_all (λ t. covers p.hull (bounds_of t)) (meeting p.hull (tables_of levels p.level ++ tables_of levels (suc p.level)))) }
{}

/// A plan grows over the tables that it meets, one after the other, but not beyond the next level.
pub fn crowded_level()
    // 1 draws in 2, then 3, then 5; and 6 of L1, which lies under 1.
    ensures grows { plan_for crowded [] 0 (letters 97 98) ≡ Some (record {
      level = 0;
      inputs = (0, 1) ∷ (0, 2) ∷ (0, 3) ∷ (1, 5) ∷ (1, 6) ∷ [];
      hull = letters 97 112;
      floor = letters 107 113 ∷ [];
    }) }
    ensures apart { plan_for crowded [] 0 (letters 120 121) ≡ Some (record {
      level = 0;
      inputs = (0, 4) ∷ [];
      hull = letters 120 122;
      floor = letters 107 113 ∷ [];
    }) }
    ensures nothing { plan_for crowded [] 0 (letters 112 120) ≡ None }
    ensures running { plan_for crowded (letters 111 113 ∷ []) 0 (letters 97 98) ≡ None }
    // L0 is due, and 1 is the first of its tables; with a running compaction over its hull, 4 is.
    ensures picked { pick crowded [] ≡ plan_for crowded [] 0 (letters 97 98) }
    ensures picked_beside { pick crowded (letters 98 99 ∷ []) ≡ plan_for crowded [] 0 (letters 120 121) }
    ensures place_at_0 { place crowded [] (letters 100 101) ≡ 0 }
    ensures place_under { place crowded [] (letters 113 114) ≡ 6 }
{}

/// A level that is due is tried by the numbers of its tables, and a plan stays within two levels.
pub fn heavy_level()
    ensures picked { pick heavy [] ≡ Some (record {
      level = 1;
      inputs = (1, 8) ∷ [];
      hull = letters 109 112;
      floor = letters 97 122 ∷ [];
    }) }
    ensures next_picked { pick heavy (letters 111 112 ∷ []) ≡ Some (record {
      level = 1;
      inputs = (1, 9) ∷ (2, 3) ∷ [];
      hull = letters 97 104;
      floor = letters 97 122 ∷ [];
    }) }
    ensures none_free { pick heavy (letters 111 112 ∷ letters 103 104 ∷ []) ≡ None }
    ensures no_next_level { plan_for heavy [] 6 (letters 97 122) ≡ None }
    ensures place_over { place heavy [] (letters 113 114) ≡ 5 }
    ensures place_over_l2 { place heavy [] (letters 103 104) ≡ 1 }
{}

/// A table goes as far down as nothing at or above its level meets it.
pub fn sparse_levels()
    ensures not_due { pick sparse [] ≡ None }
    ensures last { place sparse [] (letters 102 104) ≡ 6 }
    ensures over_l5 { place sparse [] (letters 99 100) ≡ 4 }
    ensures over_l2 { place sparse [] (letters 98 100) ≡ 1 }
    ensures in_l0 { place sparse [] (letters 109 110) ≡ 0 }
    ensures running { place sparse (letters 103 105 ∷ []) (letters 102 104) ≡ 0 }
    ensures beside_running { place sparse (letters 104 105 ∷ []) (letters 102 104) ≡ 6 }
    ensures moves_down { plan_for sparse [] 5 (letters 99 100) ≡ Some (record {
      level = 5;
      inputs = (5, 1) ∷ [];
      hull = letters 99 101;
      floor = [];
    }) }
{}
