//! What edits do to the tables of a version, and with them to all that an engine has.
ghost use Rattle.std.specs.Prelude.{◌≡◌, ℕ, suc, ◌<◌, ◌≤◌, ◌+◌, List, [], ◌∷◌, ◌++◌, length, take, drop, true, IsTrue};
ghost use Rattle.xdb_edit.specs.Changes.{Changes};
ghost use Rattle.xdb_edit.specs.Versions.{LevelLists, edited, table_cmp, added_to, tables_of, is_sorted};
ghost use Rattle.xdb_key.specs.declared.op.Op.{Op};
ghost use Rattle.xdb_meta.specs.Table.{Table};
ghost use Rattle.xdb_mem.specs.Numbered.{numbered};
ghost use Rattle.xdb_mem.specs.Parts.{items};
ghost use Rattle.xdb_rangedel.specs.Content.{Item, here};
ghost use Rattle.xdb_rangedel.specs.Layers.{IsAllBelow, IsDrawn};
ghost use Rattle.xdb_rangedel.specs.Members.{Has, SameMembers};
ghost use Rattle.xdb_stripes.specs.Floors.{floor_holds};
ghost use Rattle.xdb_stripes.specs.Keeps.{IsLimit};
ghost use Rattle.xdb_stripes.specs.declared.floor.Floor.{Floor};
ghost use Rattle.xdb_laws.specs.Compaction.{ShareNoKey};
ghost use Rattle.xdb_laws.specs.Image.{image};
ghost use Rattle.xdb_laws.specs.Ordered.{Ordered, IsNumberedUpTo, joined, places, whole};
ghost use Rattle.xdb_laws.specs.Tables.{IsUnderWay, IsCompactionEdit, IsPut, IsFlushPut, StandByNumber, flush_edit, contents, content_of, inputs_from, others_from, stands_below};

/// A table that a flush adds to L0 stands before the tables whose greatest number is at least its
/// own, and behind the others; the levels below stay.
pub fn flushes_edit_l0()
    ensures { (l0 : List Table) (lower : LevelLists) (t : Table) (files : List ℕ)
        → is_sorted (table_cmp 0) l0 ≡ true → (older newer : List Table) × (l0 ≡ older ++ newer)
        × (edited (l0 ∷ lower) (flush_edit t files) ≡ (older ++ (t ∷ newer)) ∷ lower)
        × ((u : Table) → Has newer u → t.seq_hi ≤ u.seq_hi) }
{}

/// The edit that puts what a flush made keeps the order of all places, the numbers, and the image
/// at each stripe and above all numbers of the group; and the tables of L0 go on to stand by
/// number.
pub fn flushes_edit_levels()
    ensures order { (content : Table → List Item) (group : List Item) (groups : List (List Item))
        (l0 : List Table) (lower : LevelLists) (t : Table) (files stripes : List ℕ) (next : ℕ)
        → Ordered (places (group ∷ groups) (contents content (l0 ∷ lower)))
        → IsFlushPut content group groups l0 t stripes next
        → Ordered (places groups (contents content (edited (l0 ∷ lower) (flush_edit t files)))) }
    ensures image { (content : Table → List Item) (group : List Item) (groups : List (List Item))
        (l0 : List Table) (lower : LevelLists) (t : Table) (files stripes : List ℕ) (next : ℕ)
        → Ordered (places (group ∷ groups) (contents content (l0 ∷ lower)))
        → IsFlushPut content group groups l0 t stripes next
        → (limit : ℕ) → IsLimit group stripes limit
        → image (whole (group ∷ groups) (contents content (l0 ∷ lower))) limit
        ≡ image (whole groups (contents content (edited (l0 ∷ lower) (flush_edit t files)))) limit }
    ensures numbers { (content : Table → List Item) (group : List Item) (groups : List (List Item))
        (l0 : List Table) (lower : LevelLists) (t : Table) (files stripes : List ℕ) (next : ℕ)
        → IsFlushPut content group groups l0 t stripes next → (marks : List ℕ)
        → IsNumberedUpTo next (whole (group ∷ groups) (contents content (l0 ∷ lower))) marks
        → IsNumberedUpTo next
        (whole groups (contents content (edited (l0 ∷ lower) (flush_edit t files)))) marks }
    ensures stand { (content : Table → List Item) (group : List Item) (groups : List (List Item))
        (l0 : List Table) (lower : LevelLists) (t : Table) (files stripes : List ℕ) (next : ℕ)
        → IsFlushPut content group groups l0 t stripes next
        → StandByNumber content (joined groups) next
        (tables_of (edited (l0 ∷ lower) (flush_edit t files)) 0) }
{}

/// The edit that puts what a compaction made keeps the order of all places, the numbers, and the
/// image at each stripe and above all numbers of what was given.
pub fn compactions_edit_levels()
    ensures order { (content : Table → List Item) (groups : List (List Item)) (levels : LevelLists)
        (level : ℕ) (e : Changes) (given : List Item) (stripes : List ℕ) (floor : Floor)
        → suc level < length levels → Ordered (places groups (contents content levels))
        → IsPut content groups levels level e given stripes floor
        → Ordered (places groups (contents content (edited levels e))) }
    ensures image { (content : Table → List Item) (groups : List (List Item)) (levels : LevelLists)
        (level : ℕ) (e : Changes) (given : List Item) (stripes : List ℕ) (floor : Floor)
        → suc level < length levels → Ordered (places groups (contents content levels))
        → IsPut content groups levels level e given stripes floor
        → (limit : ℕ) → IsLimit given stripes limit
        → image (whole groups (contents content levels)) limit
        ≡ image (whole groups (contents content (edited levels e))) limit }
    ensures numbers { (content : Table → List Item) (groups : List (List Item))
        (levels : LevelLists) (level : ℕ) (e : Changes) (given : List Item) (stripes : List ℕ) (floor : Floor)
        → suc level < length levels → IsPut content groups levels level e given stripes floor
        → (next : ℕ) (marks : List ℕ)
        → IsNumberedUpTo next (whole groups (contents content levels)) marks
        → IsNumberedUpTo next (whole groups (contents content (edited levels e))) marks }
{}

/// The tables of two neighbouring levels that a compaction takes lie between all else.
pub fn compactions_get_under_way()
    ensures { (content : Table → List Item) (groups : List (List Item)) (levels : LevelLists)
        (level : ℕ) (inputs : List (ℕ × ℕ)) (given : List Item) (floor : Floor)
        → Ordered (places groups (contents content levels))
        → ((r : ℕ × ℕ) → Has inputs r → (level ≤ r.0) × (r.0 ≤ suc level))
        → SameMembers given (content_of content (inputs_from inputs 0 levels))
        → ShareNoKey (content_of content (others_from inputs level (take 2 (drop level levels))))
        given
        → ((k : List ℕ) (i : Item) → Has (stands_below content levels level) i → IsTrue (here k i)
        → IsTrue (floor_holds floor k))
        → IsUnderWay content groups levels level inputs given floor }
{}

/// A compaction stays under way while operations are committed, the active group is sealed, the
/// oldest group is flushed, and another compaction over other keys is put.
pub fn compactions_stay_under_way()
    ensures committed { (content : Table → List Item)
        (sealed : List (List Item)) (active : List Item) (levels : LevelLists)
        (level : ℕ) (inputs : List (ℕ × ℕ)) (given : List Item) (floor : Floor)
        (next : ℕ) (ops : List Op) → IsAllBelow next given
        → IsUnderWay content (sealed ++ active ∷ []) levels level inputs given floor
        → IsUnderWay content (sealed ++ (active ++ items (numbered next ops)) ∷ []) levels
        level inputs given floor }
    ensures sealed { (content : Table → List Item) (groups : List (List Item)) (levels : LevelLists)
        (level : ℕ) (inputs : List (ℕ × ℕ)) (given : List Item) (floor : Floor)
        → IsUnderWay content groups levels level inputs given floor
        → IsUnderWay content (groups ++ [] ∷ []) levels level inputs given floor }
    ensures flushed { (content : Table → List Item) (group : List Item) (groups : List (List Item))
        (l0 : List Table) (lower : LevelLists) (t : Table) (files : List ℕ)
        (level : ℕ) (inputs : List (ℕ × ℕ)) (given : List Item) (floor : Floor)
        → is_sorted (table_cmp 0) l0 ≡ true → IsDrawn group (content t)
        → IsUnderWay content (group ∷ groups) (l0 ∷ lower) level inputs given floor
        → IsUnderWay content groups (edited (l0 ∷ lower) (flush_edit t files))
        level inputs given floor }
    ensures compacted { (content : Table → List Item) (groups : List (List Item))
        (levels : LevelLists) (level other : ℕ) (inputs : List (ℕ × ℕ)) (given taken : List Item)
        (floor : Floor) (e : Changes)
        → IsUnderWay content groups levels level inputs given floor → IsCompactionEdit other e
        → SameMembers taken (content_of content (inputs_from e.removed 0 levels))
        → IsDrawn taken (content_of content (added_to e (suc other)))
        → ((r : ℕ × ℕ) → Has inputs r → Has e.removed r → ⊥) → ShareNoKey given taken
        → IsUnderWay content groups (edited levels e) level inputs given floor }
{}
