//! Laws of the definitions, each a function that does nothing.
ghost use Rattle.std.specs.Prelude.{ℕ, List, Option};
ghost use Rattle.xdb_rangedel.specs.Members.{SameMembers};
ghost use Rattle.xdb_rangedel.specs.Content.{Item, IsClear, in_pieces};
ghost use Rattle.xdb_rangedel.specs.Layers.{IsDrawn};
ghost use Rattle.xdb_stripes.specs.declared.floor.Floor.{Floor};
ghost use Rattle.xdb_stripes.specs.Thinned.{thinned};
ghost use Rattle.xdb_stripes.specs.Keeps.{Keeps};

/// Whatever the stripes and the floor, a clear content that is thinned says at each stripe, and
/// above all its numbers, what it said before, but for deletes of keys that the floor doesn't
/// hold; no entry is new, and each span lies in one that was there, with its number.
pub fn thinning_keeps()
    ensures { (c : List Item) (stripes : List ℕ) (floor : Floor) → IsClear c
        → Keeps c (thinned c stripes floor) stripes floor }
{}

/// Each item that is left is one of the content, or a piece of one, so what holds of the numbers
/// and of the clearness of a content holds of what is left.
pub fn thinned_is_drawn()
    ensures { (c : List Item) (stripes : List ℕ) (floor : Floor)
        → IsDrawn c (thinned c stripes floor) }
{}

/// What is left depends on the members of the pieces alone.
pub fn thinned_by_members()
    ensures { (c d : List Item) (stripes : List ℕ) (floor : Floor)
        → SameMembers (in_pieces c) (in_pieces d)
        → SameMembers (thinned c stripes floor) (thinned d stripes floor) }
{}
