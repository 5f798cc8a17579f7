//! The order of all places that have content: groups, tables of L0, and levels below it.
ghost use Rattle.std.specs.Prelude.{◌≡◌, ℕ, ◌+◌, Bool, List, [], ◌∷◌, ◌++◌, map, filter, length};
ghost use Rattle.xdb_key.specs.Groups.{Group};
ghost use Rattle.xdb_key.specs.declared.op.Op.{Op};
ghost use Rattle.xdb_rangedel.specs.Content.{Item, seq_of, IsClear};
ghost use Rattle.xdb_rangedel.specs.Layers.{IsAllBelow};
ghost use Rattle.xdb_rangedel.specs.Members.{Has, SameMembers};
ghost use Rattle.xdb_mem.specs.Numbered.{numbered};
ghost use Rattle.xdb_mem.specs.Parts.{items};
ghost use Rattle.xdb_mem.specs.Queue.{all_ops};
ghost use Rattle.xdb_laws.specs.Image.{image};
ghost use Rattle.xdb_laws.specs.Ordered.{Ordered, IsNewer, IsNumberedUpTo, AreLeftOf, joined, places, whole};
ghost use Rattle.xdb_laws.specs.Rewrite.{AreLimits};

/// Of places in order the former are newer at each key than the latter, each part is in order
/// too, and all that they have is clear; and parts of which one is newer stand in order together.
pub fn ordered_places_are_layers()
    ensures layers { (upper lower : List (List Item)) → Ordered (upper ++ lower)
        → IsNewer (joined upper) (joined lower) }
    ensures upper { (upper lower : List (List Item)) → Ordered (upper ++ lower) → Ordered upper }
    ensures lower { (upper lower : List (List Item)) → Ordered (upper ++ lower) → Ordered lower }
    ensures clear { (cs : List (List Item)) → Ordered cs → IsClear (joined cs) }
    ensures together { (upper lower : List (List Item)) → Ordered upper → Ordered lower
        → IsNewer (joined upper) (joined lower) → Ordered (upper ++ lower) }
{}

/// The places of an engine have all that it has, which is clear where they are in order; those of
/// some levels stand before those of the levels below.
pub fn places_have_all()
    ensures members { (groups : List (List Item)) (levels : List (List (List Item)))
        → SameMembers (joined (places groups levels)) (whole groups levels) }
    ensures clear { (groups : List (List Item)) (levels : List (List (List Item)))
        → Ordered (places groups levels) → IsClear (whole groups levels) }
    ensures split { (groups l0 level : List (List Item)) (upper lower : List (List (List Item)))
        → places groups (l0 ∷ (upper ++ (level ∷ lower)))
        ≡ places groups (l0 ∷ upper) ++ (joined level ∷ map joined lower) }
    ensures operations { (gs : List Group)
        → joined (map (λ g. items g.ops) gs) ≡ items (all_ops gs) }
{}

/// Only what places have matters: order stays where some of it goes, or where a place is written in
/// another order, and of a clear content the image is that of its members.
pub fn members_are_all()
    ensures left { (places left below : List (List Item)) → AreLeftOf places left
        → Ordered (places ++ below)
        → Ordered (left ++ below) }
    ensures filter { (keeps : List Item → Bool) (cs : List (List Item))
        → AreLeftOf cs (filter keeps cs) }
    ensures same { (upper below : List (List Item)) (c d : List Item) → SameMembers c d
        → Ordered (upper ++ (c ∷ below)) → Ordered (upper ++ (d ∷ below)) }
    ensures image { (c d : List Item) (limit : ℕ) → IsClear c → SameMembers c d
        → image c limit ≡ image d limit }
{}

/// A commit keeps the order of all places.
pub fn commits_keep_order()
    ensures { (sealed : List (List Item)) (active : List Item) (levels : List (List (List Item)))
        (next : ℕ) (ops : List Op) → Ordered (places (sealed ++ active ∷ []) levels)
        → IsAllBelow next (whole (sealed ++ active ∷ []) levels)
        → Ordered (places (sealed ++ (active ++ items (numbered next ops)) ∷ []) levels) }
{}

/// A seal keeps the order of all places, and what they have.
pub fn seals_keep_order()
    ensures order { (groups : List (List Item)) (levels : List (List (List Item)))
        → Ordered (places groups levels) → Ordered (places (groups ++ [] ∷ []) levels) }
    ensures same { (groups : List (List Item)) (levels : List (List (List Item)))
        → whole (groups ++ [] ∷ []) levels ≡ whole groups levels }
{}

/// Numbers stay below the next one, and marks up to it: as operations are committed, as a snapshot
/// is made, and where content has no new numbers.
pub fn numbers_stay_below()
    ensures committed { (next : ℕ) (c : List Item) (marks : List ℕ) (ops : List Op)
        → IsNumberedUpTo next c marks
        → IsNumberedUpTo (next + length ops) (c ++ items (numbered next ops)) marks }
    ensures marked { (next : ℕ) (c : List Item) (marks : List ℕ) → IsNumberedUpTo next c marks
        → IsNumberedUpTo next c (marks ++ next ∷ []) }
    ensures drawn { (next : ℕ) (c d : List Item) (marks : List ℕ) → IsNumberedUpTo next c marks
        → ((i : Item) → Has d i → (j : Item) × Has c j × (seq_of j ≡ seq_of i))
        → IsNumberedUpTo next d marks }
{}

/// The marks that a job takes as its stripes are limits of what it is given, and so is each mark
/// that is made later, since it lies above all numbers of what was given.
pub fn marks_stay_limits()
    ensures taken { (given : List Item) (marks : List ℕ) → AreLimits given marks marks }
    ensures made { (next : ℕ) (given : List Item) (stripes marks : List ℕ) → IsAllBelow next given
        → AreLimits given stripes marks → AreLimits given stripes (marks ++ next ∷ []) }
{}
