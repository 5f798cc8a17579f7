//! Laws of the definitions, each a function that does nothing.
ghost use Rattle.std.specs.Prelude.{◌≡◌, ◌↔◌, ◌≤◌, ℕ, List, None, IsTrue};
ghost use Rattle.xdb_key.specs.Bounds.{Bounds};
ghost use Rattle.xdb_key.specs.Entries.{Point, Tombstone};
ghost use Rattle.xdb_key.specs.Ops.{is_table};
ghost use Rattle.xdb_key.specs.declared.op.Op.{Op};
ghost use Rattle.xdb_rangedel.specs.Content.{content_of, in_pieces, verdict, verdict_by, value_at, IsClear};
ghost use Rattle.xdb_rangedel.specs.Members.{Has, SameMembers};
ghost use Rattle.xdb_rangedel.specs.Pieces.{pieces};
ghost use Rattle.xdb_ext.specs.Operations.{points_of, spans_of, ops_content};
ghost use Rattle.xdb_ext.specs.Refusing.{refusal_of};
ghost use Rattle.xdb_ext.specs.TableBounds.{AreBounds};

/// Operations are refused exactly where they make no table.
pub fn refused_where_no_table()
    ensures { (ops : List Op) → (refusal_of ops ≡ None) ↔ IsTrue (is_table ops) }
{}

/// A table says of the key of each of its points what the point says: none of its range deletes deletes it.
pub fn points_stay()
    ensures { (ops : List Op) (p : Point) (limit : ℕ) → IsTrue (is_table ops) → Has (points_of ops) p → 1 ≤ limit
        → verdict (ops_content ops) limit p.key ≡ verdict_by (value_at p.kind p.value) }
{}

/// In a table no two points of one key say different things.
pub fn tables_are_clear()
    ensures { (ops : List Op) → IsTrue (is_table ops) → IsClear (ops_content ops) }
{}

/// What a table file has is the content of the operations with its range deletes in pieces.
pub fn file_has_pieces()
    ensures { (ops : List Op) (fragments : List Tombstone) → SameMembers fragments (pieces (spans_of ops))
        → SameMembers (content_of (points_of ops) fragments) (in_pieces (ops_content ops)) }
{}

/// A table's bounds are one.
pub fn bounds_are_one()
    ensures { (ops : List Op) (a b : Bounds) → AreBounds ops a → AreBounds ops b → a ≡ b }
{}
