//! Loads: what the install of a load makes of the content, and where its tables come to stand.
ghost use Rattle.std.specs.Prelude.{◌≡◌, ℕ, ◌+◌, ◌≤◌, ◌<◌, ◌⊎◌, true, false, List, ◌∷◌, ◌++◌, map, filter, Bool, Option, Some, None, IsTrue};
ghost use Rattle.xdb_key.specs.Bounds.{Bounds, meets};
ghost use Rattle.xdb_key.specs.declared.op.Op.{Op};
ghost use Rattle.xdb_edit.specs.Plans.{place};
ghost use Rattle.xdb_edit.specs.Versions.{LevelLists, tables_of, table_cmp, is_sorted};
ghost use Rattle.xdb_meta.specs.Table.{Table, bounds_of};
ghost use Rattle.xdb_plain.specs.Changes.{one_for};
ghost use Rattle.xdb_plain.specs.PlainMap.{PlainMap, loaded};
ghost use Rattle.xdb_plain.specs.Tables.{TableOps};
ghost use Rattle.xdb_rangedel.specs.Content.{Item, seq_of, newest, IsImage, IsClear};
ghost use Rattle.xdb_rangedel.specs.Layers.{IsAllBelow, IsDrawn};
ghost use Rattle.xdb_rangedel.specs.Members.{Has, SameMembers};
ghost use Rattle.xdb_rangedel.specs.View.{view};
ghost use Rattle.xdb_stripes.specs.declared.floor.Floor.{Floor};
ghost use Rattle.xdb_laws.specs.Compaction.{ShareNoKey, ChangesAround};
ghost use Rattle.xdb_laws.specs.Excises.{is_cut, KeepsTo};
ghost use Rattle.xdb_laws.specs.LoadEdit.{LoadEdit, IsEditOf, HalvesLieApart, NumbersDiffer, TiesAreApart, StandInTurn, AreInputsBeside, IsLoadEdit, levels_after, install_of};
ghost use Rattle.xdb_laws.specs.Loads.{items_at, HasOperations, IsAround, AreLoadable, AreLoadsOf, Install, IsInstall, next_after};
ghost use Rattle.xdb_laws.specs.Ordered.{Ordered, IsNewer, IsNumberedUpTo, StandsByNumber, joined, places, whole};
ghost use Rattle.xdb_laws.specs.Placement.{RiseByNumber, without_numbers, AreApart, at_level, levels_from, beside_number, Joins};
ghost use Rattle.xdb_laws.specs.Rewrite.{IsRewrite};
ghost use Rattle.xdb_laws.specs.Tables.{is_input, inputs_from, IsUnderWay, StandByNumber, contents};

/// The file of a loaded table, shown in the table's bounds with the load's number, is its
/// operations at that number, written anew.
pub fn loaded_files_show_their_operations()
    ensures { (number : ℕ) (ops : List Op) (file : List Item) (r : Bounds) → 0 < number
        → HasOperations ops file → IsAround ops r
        → IsRewrite (items_at number ops) (view file r number) }
{}

/// The install of a load, with a span or without: the image behind it is the map that the load
/// makes of the map before, and up to the old next number all is said as before of each key outside
/// the span.
pub fn loads_act()
    ensures image { (x : Install) (m : PlainMap) → IsInstall x → IsImage x.old x.next m
        → IsImage x.new (next_after x) (loaded m x.tables x.out) }
    ensures marks { (x : Install) → IsInstall x → (limit : ℕ) (k : List ℕ) → limit ≤ x.next
        → is_cut x.out k ≡ false → newest x.new limit k ≡ newest x.old limit k }
    ensures numbers { (x : Install) (marks : List ℕ) → IsInstall x
        → IsNumberedUpTo x.next x.old marks → IsNumberedUpTo (next_after x) x.new marks }
    ensures clear { (x : Install) → IsInstall x → IsClear x.new }
{}

/// A table that is placed below L0 meets no table at its level or above it, and no running
/// compaction; and tables whose bounds don't meet share no key.
pub fn placed_tables_meet_nothing_above()
    ensures levels { (levels : LevelLists) (running : List Bounds) (b : Bounds) (i : ℕ) (t : Table)
        → 0 < place levels running b → i ≤ place levels running b → Has (tables_of levels i) t
        → meets b (bounds_of t) ≡ false }
    ensures running { (levels : LevelLists) (running : List Bounds) (b hull : Bounds)
        → 0 < place levels running b → Has running hull → meets b hull ≡ false }
    ensures apart { (r o : Bounds) (a b : List Item) → KeepsTo r a → KeepsTo o b → meets r o ≡ false
        → ShareNoKey a b }
{}

/// The tables of one load share no key, and neither do those of them that come to one level and to
/// another.
pub fn loads_share_no_key()
    ensures tables { (number : ℕ) (tables : List TableOps) (loads : List (List Item))
        → AreLoadable tables
        → AreLoadsOf number tables loads → AreApart loads }
    ensures levels { (brought : List (ℕ × List Item)) (levels : ℕ) → AreApart (without_numbers brought)
        → AreApart (at_level 0 brought ++ map joined (levels_from 1 levels brought)) }
{}

/// Loaded tables that share no key with what stands where they come to, or above it, or with each
/// other, keep the order of all places. Those that come to L0 stand last there, and may share keys
/// with all but the groups. A running compaction goes on to lie between what stands above it and
/// below it, where what comes below it has none of its keys.
pub fn loaded_tables_keep_order()
    ensures order { (next : ℕ) (groups l0 fresh : List (List Item))
        (lower coming filled : List (List (List Item)))
        → Ordered (places groups (l0 ∷ lower)) → Joins next groups l0 fresh lower coming filled
        → Ordered (places groups ((l0 ++ fresh) ∷ filled)) }
    ensures number { (unflushed table : List Item) (next : ℕ)
        → ((i : Item) → Has table i → seq_of i ≡ next)
        → StandsByNumber unflushed (next + 1) next table }
    ensures around { (next : ℕ)
        (given upper lower left_upper left_lower in_upper in_lower new_upper new_lower : List Item)
        → IsDrawn upper left_upper → IsDrawn lower left_lower
        → ((i : Item) → Has in_upper i → seq_of i ≡ next) → ShareNoKey given in_lower
        → SameMembers new_upper (left_upper ++ in_upper)
        → SameMembers new_lower (left_lower ++ in_lower)
        → ChangesAround next given upper lower new_upper new_lower }
{}

/// Tables of L0 go on to stand by their numbers, and to share no key where these are equal: with
/// those of a load behind them, with one that was flushed put among them, and where some of them
/// go.
pub fn l0_rises_by_number()
    ensures loaded { (next : ℕ) (l0 : List (ℕ × List Item)) (fresh : List (List Item))
        → RiseByNumber l0
        → ((t : ℕ × List Item) → Has l0 t → t.0 < next) → AreApart fresh
        → RiseByNumber (l0 ++ beside_number next fresh) }
    ensures flushed { (older newer : List (ℕ × List Item)) (greatest : ℕ) (table : List Item)
        → RiseByNumber (older ++ newer) → ((t : ℕ × List Item) → Has older t → t.0 ≤ greatest)
        → ((t : ℕ × List Item) → Has newer t → greatest ≤ t.0)
        → ((t : ℕ × List Item) → Has (older ++ newer) t → t.0 ≡ greatest → ShareNoKey t.1 table)
        → RiseByNumber (older ++ ((greatest, table) ∷ newer)) }
    ensures group { (unflushed group table other : List Item) (next greatest number : ℕ)
        → StandsByNumber unflushed next number other → ((i : Item) → Has group i → Has unflushed i)
        → IsNewer group other → IsDrawn group table → IsAllBelow (greatest + 1) table
        → number ≡ greatest
        → ShareNoKey other table }
    ensures less { (keeps : ℕ × List Item → Bool) (l0 : List (ℕ × List Item)) → RiseByNumber l0
        → RiseByNumber (filter keeps l0) }
{}

/// The edit of a load, on tables that were in order, installs all content, leaves all places in
/// order, and each table of L0 by its number.
pub fn loads_edit_levels()
    ensures install { (content : Table → List Item) (groups : List (List Item)) (x : LoadEdit)
        → IsLoadEdit content groups x
        → IsAllBelow x.next (whole groups (contents content x.levels))
        → IsClear (whole groups (contents content x.levels))
        → IsInstall (install_of content groups x) }
    ensures order { (content : Table → List Item) (groups : List (List Item)) (x : LoadEdit)
        → IsLoadEdit content groups x → Ordered (places groups (contents content x.levels))
        → IsAllBelow x.next (whole groups (contents content x.levels))
        → Ordered (places groups (contents content (levels_after x))) }
    ensures numbers { (content : Table → List Item) (groups : List (List Item)) (x : LoadEdit)
        → IsLoadEdit content groups x
        → StandByNumber content (joined groups) x.next (tables_of x.levels 0)
        → StandByNumber content (joined groups) (x.next + one_for x.tables)
        (tables_of (levels_after x) 0) }
{}

/// A running compaction that a load doesn't cancel, since its span meets none of the inputs, keeps
/// its inputs, and stays under way: what it was given keeps to its hull, which no loaded table
/// meets but in L0.
pub fn loads_keep_compactions_under_way()
    ensures under_way { (content : Table → List Item) (groups : List (List Item)) (x : LoadEdit)
        (level : ℕ) (inputs : List (ℕ × ℕ)) (given : List Item) (floor : Floor) (hull : Bounds)
        → IsLoadEdit content groups x → IsAllBelow x.next given → Has x.running hull
        → KeepsTo hull given → AreInputsBeside x inputs
        → IsUnderWay content groups x.levels level inputs given floor
        → IsUnderWay content groups (levels_after x) level inputs given floor }
    ensures inputs { (content : Table → List Item) (groups : List (List Item)) (x : LoadEdit)
        (inputs : List (ℕ × ℕ)) → IsLoadEdit content groups x → AreInputsBeside x inputs
        → ((a : ℕ × Table) → Has x.edit.added a → is_input inputs a.0 a.1 ≡ false)
        → SameMembers (inputs_from inputs 0 (levels_after x)) (inputs_from inputs 0 x.levels) }
{}

/// Tables of L0 that have one greatest number don't meet, and still don't behind the edit of a
/// load, with one table more whose greatest number is new, and where some of them go; so where they
/// are sorted, and their own numbers differ, they stand in turn.
pub fn l0_stays_in_turn()
    ensures turn { (ts : List Table) → is_sorted (table_cmp 0) ts ≡ true → NumbersDiffer ts
        → TiesAreApart ts → StandInTurn ts }
    ensures loaded { (x : LoadEdit) → IsEditOf x → TiesAreApart (tables_of x.levels 0)
        → HalvesLieApart x → TiesAreApart (tables_of (levels_after x) 0) }
    ensures other { (ts us : List Table) (t : Table) → TiesAreApart ts
        → ((u : Table) → Has ts u → u.seq_hi ≡ t.seq_hi → ⊥)
        → ((u : Table) → Has us u → Has ts u ⊎ (t ≡ u)) → TiesAreApart us }
{}
