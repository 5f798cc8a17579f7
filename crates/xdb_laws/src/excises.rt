//! Excises: what a span takes out of the content, and that what is left stands in order.
ghost use Rattle.std.specs.Prelude.{◌≡◌, ℕ, false, List, ◌∷◌, ◌++◌, Option, Some, None, IsTrue};
ghost use Rattle.xdb_key.specs.Bounds.{Bounds, meets, covers};
ghost use Rattle.xdb_key.specs.Groups.{Group, first_touching};
ghost use Rattle.xdb_key.specs.Order.{is_below};
ghost use Rattle.xdb_rangedel.specs.Content.{Item, seq_of};
ghost use Rattle.xdb_rangedel.specs.Layers.{IsDrawn};
ghost use Rattle.xdb_rangedel.specs.Members.{Has};
ghost use Rattle.xdb_rangedel.specs.View.{view, HasOrderedSpans};
ghost use Rattle.xdb_mem.specs.Parts.{items};
ghost use Rattle.xdb_mem.specs.Queue.{all_ops};
ghost use Rattle.xdb_laws.specs.Compaction.{ShareNoKey};
ghost use Rattle.xdb_laws.specs.Excises.{Excised, AreExcised, IsSilentIn, KeepsTo, keys_before, keys_behind, AreHalfBounds, half};
ghost use Rattle.xdb_laws.specs.Ordered.{Ordered, StandsByNumber, joined, places};
ghost use Rattle.xdb_laws.specs.Placement.{without_numbers, IsCut};

/// A span is taken out of all content where it is taken out of each part: a table gives way to its
/// halves, and a part that says nothing of the span's keys, or keeps to bounds that it doesn't
/// meet, stays as it is.
pub fn spans_are_taken_out()
    ensures joined { (out : Option Bounds) (a b c d : List Item) → Excised out a b → Excised out c d
        → Excised out (a ++ c) (b ++ d) }
    ensures each { (out : Option Bounds) (olds news : List (List Item)) → AreExcised out olds news
        → Excised out (joined olds) (joined news) }
    ensures silent { (out : Bounds) (c : List Item) → IsSilentIn out c → Excised (Some out) c c }
    ensures beside { (out r : Bounds) (c : List Item) → KeepsTo r c → meets r out ≡ false
        → Excised (Some out) c c }
    ensures halves { (file : List Item) (shown out : Bounds) (synthetic : ℕ)
        (left right : Option Bounds)
        → IsTrue (is_below out.lo out.hi)
        → AreHalfBounds file (keys_before shown out) synthetic left
        → AreHalfBounds file (keys_behind shown out) synthetic right
        → Excised (Some out) (view file shown synthetic)
        (half file synthetic left ++ half file synthetic right) }
    ensures nothing { (c : List Item) → Excised None c c }
{}

/// A half is just what its table shows on its side. It has nothing that the table hasn't, and no
/// numbers but the table's; and the two halves of a table share no key.
pub fn halves_are_parts()
    ensures side { (file : List Item) (side : Bounds) (synthetic : ℕ) (b : Option Bounds)
        → HasOrderedSpans file → AreHalfBounds file side synthetic b
        → half file synthetic b ≡ view file side synthetic }
    ensures drawn { (file : List Item) (side shown : Bounds) (synthetic : ℕ) (b : Option Bounds)
        → IsTrue (covers shown side) → AreHalfBounds file side synthetic b
        → IsDrawn (view file shown synthetic) (half file synthetic b) }
    ensures numbers { (file : List Item) (side shown : Bounds) (synthetic : ℕ) (b : Option Bounds)
        → IsTrue (covers shown side) → AreHalfBounds file side synthetic b
        → (i : Item) → Has (half file synthetic b) i
        → (j : Item) × Has (view file shown synthetic) j × (seq_of j ≡ seq_of i) }
    ensures apart { (file : List Item) (shown out : Bounds) (synthetic : ℕ)
        (left right : Option Bounds)
        → IsTrue (is_below out.lo out.hi)
        → AreHalfBounds file (keys_before shown out) synthetic left
        → AreHalfBounds file (keys_behind shown out) synthetic right
        → ShareNoKey (half file synthetic left) (half file synthetic right) }
{}

/// Groups of which no operation touches a fence say nothing of its keys, and share none with what
/// keeps to one of its ranges.
pub fn untouched_groups_are_silent()
    ensures silent { (fence : List Bounds) (gs : List Group) (r : Bounds)
        → first_touching fence gs ≡ None
        → Has fence r → IsSilentIn r (items (all_ops gs)) }
    ensures apart { (r : Bounds) (a b : List Item) → IsSilentIn r a → KeepsTo r b → ShareNoKey a b }
{}

/// What a span leaves of all tables stands in order as they did, and each table of L0 by the number
/// of the one that it was cut from.
pub fn cut_tables_keep_order()
    ensures order { (groups : List (List Item)) (l0 cut : List (ℕ × List Item))
        (lower left : List (List (List Item)))
        → Ordered (places groups (without_numbers l0 ∷ lower)) → IsCut l0 cut lower left
        → Ordered (places groups (without_numbers cut ∷ left)) }
    ensures number { (unflushed old new : List Item) (next greatest : ℕ)
        → StandsByNumber unflushed next greatest old
        → ((i : Item) → Has new i → (j : Item) × Has old j × (seq_of j ≡ seq_of i))
        → StandsByNumber unflushed next greatest new }
{}
