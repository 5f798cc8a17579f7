//! Small contents that meet the premises of the laws of excises, loads, snapshots and questions.
ghost use Rattle.std.specs.Prelude.{◌≡◌, ℕ, ◌<◌, ◌++◌, ◌∷◌, [], IsTrue, Some, None, codes};
ghost use Rattle.xdb_key.specs.Groups.{first_touching};
ghost use Rattle.xdb_key.specs.declared.state.SnapState.TheVariants.{Pinned, FileOnly};
ghost use Rattle.xdb_edit.specs.Plans.{place};
ghost use Rattle.xdb_edit.specs.Samples.{sparse};
ghost use Rattle.xdb_plain.specs.Changes.{new_snap};
ghost use Rattle.xdb_plain.specs.Fences.{fence};
ghost use Rattle.xdb_plain.specs.Snapshots.{turns};
ghost use Rattle.xdb_plain.specs.State.{groups};
ghost use Rattle.xdb_rangedel.specs.Content.{IsImage};
ghost use Rattle.xdb_rangedel.specs.View.{view};
ghost use Rattle.xdb_mem.specs.Parts.{items};
ghost use Rattle.xdb_mem.specs.Queue.{all_ops};
ghost use Rattle.xdb_laws.specs.Excises.{Excised, keys_before, keys_behind, AreHalfBounds, half};
ghost use Rattle.xdb_laws.specs.LoadEdit.{AreInputsBeside, HalvesLieApart, IsLoadEdit};
ghost use Rattle.xdb_laws.specs.Loads.{HasOperations, IsAround, IsInstall};
ghost use Rattle.xdb_laws.specs.Ordered.{Ordered, places};
ghost use Rattle.xdb_laws.specs.Parts.{IsHandout};
ghost use Rattle.xdb_laws.specs.Placement.{RiseByNumber, IsCut, Joins};
ghost use Rattle.xdb_laws.specs.Small.{letters};
ghost use Rattle.xdb_laws.specs.SmallLoad.{small_span, small_file, small_shown, small_left, small_right, left_half, right_half, small_groups, small_mem, small_other, small_ops, small_tables, first_file, first_load, second_load, small_before, small_rest, small_install, small_state, small_handout, load_content, load_edit, load_groups};
ghost use Rattle.xdb_laws.specs.Tables.{contents};

/// A span that is taken out of a table, of memtables that it doesn't touch and of a table beside
/// it.
pub fn an_excise_is_one()
    ensures before { AreHalfBounds small_file (keys_before small_shown small_span) 0
        (Some small_left) }
    ensures behind { AreHalfBounds small_file (keys_behind small_shown small_span) 0
        (Some small_right) }
    ensures nothing { AreHalfBounds small_file (keys_behind small_shown (letters 98 104)) 0 None }
    ensures shown { view small_file small_shown 0 ≡ small_file }
    ensures halves { half small_file 0 (Some small_left) ++ half small_file 0 (Some small_right)
        ≡ left_half ++ right_half }
    ensures silent { first_touching (fence small_tables (Some small_span)) small_groups ≡ None }
    ensures groups { items (all_ops small_groups) ≡ small_mem }
    ensures excised { Excised (Some small_span) small_before small_rest }
    ensures cut { IsCut ((7, small_file) ∷ []) ((7, left_half) ∷ (7, right_half) ∷ [])
        ((small_other ∷ []) ∷ []) ((small_other ∷ []) ∷ []) }
{}

/// A load with a span: its file, its install, and where its tables come to stand.
pub fn a_load_is_one()
    ensures file { HasOperations small_ops first_file }
    ensures around { IsAround small_ops (letters 98 100) }
    ensures install { IsInstall small_install }
    ensures order { Ordered (places (small_mem ∷ [])
        ((left_half ∷ right_half ∷ []) ∷ (small_other ∷ []) ∷ [])) }
    ensures joins { Joins 10 (small_mem ∷ []) (left_half ∷ right_half ∷ []) (first_load ∷ [])
        ((small_other ∷ []) ∷ []) ((second_load ∷ []) ∷ [])
        ((small_other ∷ second_load ∷ []) ∷ []) }
    ensures placed { 2 < place sparse (letters 109 110 ∷ []) (letters 99 101) }
    ensures rise { RiseByNumber ((7, left_half) ∷ (7, right_half) ∷ []) }
{}

/// The same load as the edit of a version.
pub fn an_edit_installs_a_load()
    ensures order { Ordered (places load_groups (contents load_content load_edit.levels)) }
    ensures edit { IsLoadEdit load_content load_groups load_edit }
    ensures beside { AreInputsBeside load_edit ((1, 2) ∷ []) }
    ensures apart { HalvesLieApart load_edit }
{}

/// A snapshot that is pinned, one that is file-only and one that turns; and parts that are handed
/// out.
pub fn a_snapshot_is_one()
    ensures map { IsImage (items (all_ops (groups small_state)) ++ (small_file ++ small_other)) 10
        small_state.map }
    ensures pinned { (new_snap small_state (codes "s")
        (letters 97 100 ∷ letters 107 110 ∷ [])).state ≡ Pinned 2 }
    ensures file_only { (new_snap small_state (codes "s") (letters 97 100 ∷ [])).state ≡ FileOnly }
    ensures turns { IsTrue (turns []
        (new_snap small_state (codes "s") (letters 107 110 ∷ []))) }
    ensures handed { IsHandout small_handout }
{}
