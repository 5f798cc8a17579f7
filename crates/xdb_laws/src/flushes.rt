//! Flushes: the oldest group becomes a table of L0.
ghost use Rattle.std.specs.Prelude.{◌≡◌, ℕ, ◌+◌, ◌<◌, ◌≤◌, ◌⊎◌, List, map};
ghost use Rattle.xdb_rangedel.specs.Content.{Item, seq_of};
ghost use Rattle.xdb_rangedel.specs.Layers.{IsAllBelow};
ghost use Rattle.xdb_rangedel.specs.Members.{Has};
ghost use Rattle.xdb_stripes.specs.Keeps.{IsLimit};
ghost use Rattle.xdb_laws.specs.Image.{image};
ghost use Rattle.xdb_laws.specs.Flush.{Flush, IsFlush, groups_before, levels_before, levels_after};
ghost use Rattle.xdb_laws.specs.Ordered.{Ordered, IsNumberedUpTo, StandsByNumber, joined, places, whole};

/// A flush keeps the order of all places, the numbers, and the image at each stripe and above
/// all numbers of the group, so also in each range.
pub fn flushes_keep_content()
    ensures order { (stripes : List ℕ) (f : Flush)
        → Ordered (places (groups_before f) (levels_before f))
        → IsFlush stripes f → Ordered (places f.groups (levels_after f)) }
    ensures image { (stripes : List ℕ) (f : Flush)
        → Ordered (places (groups_before f) (levels_before f))
        → IsFlush stripes f → (limit : ℕ) → IsLimit f.group stripes limit
        → image (whole (groups_before f) (levels_before f)) limit
        ≡ image (whole f.groups (levels_after f)) limit }
    ensures numbers { (stripes : List ℕ) (f : Flush) (next : ℕ) (marks : List ℕ) → IsFlush stripes f
        → IsNumberedUpTo next (whole (groups_before f) (levels_before f)) marks
        → IsNumberedUpTo next (whole f.groups (levels_after f)) marks }
{}

/// Where each table of L0 stands by its number, a new table's place among them is one where it
/// may stand: behind it stand only loaded tables of greater numbers. It stands by its number too;
/// and each goes on to do so, also once operations with numbers from the next one on have come.
pub fn flushed_tables_find_their_place()
    ensures place { (unflushed table : List Item) (next greatest : ℕ) (newer : List (ℕ × List Item))
        → ((u : ℕ × List Item) → Has newer u
        → StandsByNumber unflushed next u.0 u.1 × (greatest ≤ u.0))
        → IsAllBelow (greatest + 1) table
        → ((i : Item) → Has table i → (j : Item) × Has unflushed j × (seq_of j ≡ seq_of i))
        → (i j : Item) → Has table i → Has (joined (map (λ u. u.1) newer)) j → seq_of i ≤ seq_of j }
    ensures new { (group rest table : List Item) (next greatest : ℕ) → IsAllBelow next group
        → ((i j : Item) → Has group i → Has rest j → seq_of i < seq_of j)
        → ((i : Item) → Has table i → (j : Item) × Has group j × (seq_of j ≡ seq_of i))
        → IsAllBelow (greatest + 1) table → ((i : Item) × Has table i × (seq_of i ≡ greatest))
        → StandsByNumber rest next greatest table }
    ensures stays { (unflushed more table : List Item) (next later greatest : ℕ)
        → StandsByNumber unflushed next greatest table → next ≤ later
        → ((i : Item) → Has more i → Has unflushed i ⊎ (next ≤ seq_of i))
        → StandsByNumber more later greatest table }
{}
