//! Laws of the definitions, each a function that does nothing.
ghost use Rattle.std.specs.Prelude.{ℕ, ◌++◌, List};
ghost use Rattle.xdb_key.specs.Bounds.{Bounds};
ghost use Rattle.xdb_key.specs.Entries.{Point, Tombstone};
ghost use Rattle.xdb_key.specs.declared.op.Op.{Op};
ghost use Rattle.xdb_rangedel.specs.Content.{IsClear, content_of, in_pieces};
ghost use Rattle.xdb_rangedel.specs.Layers.{IsNewerAt};
ghost use Rattle.xdb_rangedel.specs.Members.{SameMembers};
ghost use Rattle.xdb_rangedel.specs.Pieces.{pieces};
ghost use Rattle.xdb_rangedel.specs.View.{restricted};
ghost use Rattle.xdb_mem.specs.Numbered.{RisesWithin, points, spans};
ghost use Rattle.xdb_mem.specs.Parts.{picked, clipped, items, items_below};

/// The entries and the range tombstones of operations are together their content.
pub fn operations_are_a_content()
    ensures group { (ops : List (ℕ × Op)) → SameMembers (content_of (points ops) (spans ops)) (items ops) }
    ensures parts { (r : Bounds) (limit : ℕ) (ops : List (ℕ × Op)) (es : List Point) (ts : List Tombstone)
        → SameMembers es (picked r limit ops) → SameMembers ts (pieces (clipped r limit ops))
        → SameMembers (content_of es ts) (in_pieces (restricted r (items_below limit ops))) }
{}

/// Where numbers rise the content is clear, and later operations stand above earlier ones at every key.
pub fn rising_numbers_are_clear()
    ensures clear { (low high : ℕ) (ops : List (ℕ × Op)) → RisesWithin low high ops → IsClear (items ops) }
    ensures newer { (low high : ℕ) (older newer : List (ℕ × Op)) (k : List ℕ) → RisesWithin low high (older ++ newer)
        → IsNewerAt k (items newer) (items older) }
{}
