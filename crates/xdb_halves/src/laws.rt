//! Laws of the definitions, each a function that does nothing.
ghost use Rattle.std.specs.Prelude.{◌≡◌, ◌↔◌, ℕ, List, None, IsTrue, if◌then◌else◌};
ghost use Rattle.xdb_key.specs.Bounds.{Bounds, bounds, covers, holds};
ghost use Rattle.xdb_key.specs.Entries.{Reach};
ghost use Rattle.xdb_key.specs.Order.{is_below, is_upto};
ghost use Rattle.xdb_rangedel.specs.Content.{Item, newest};
ghost use Rattle.xdb_rangedel.specs.Layers.{IsSilentAt};
ghost use Rattle.xdb_rangedel.specs.View.{view, HasOrderedSpans};
ghost use Rattle.xdb_table_r.specs.Reaches.{LiesWithin};
ghost use Rattle.xdb_halves.specs.Beside.{left_of, right_of, IsExtent};

/// What lies within a side lies inside the bounds that are shown, and on that side of the span.
pub fn sides_are_apart()
    ensures left { (shown out : Bounds) (e : Reach) → LiesWithin (left_of shown out) e
        → IsTrue (covers shown (bounds e.lo e.hi)) × IsTrue (is_upto e.hi out.lo) }
    ensures right { (shown out : Bounds) (e : Reach) → LiesWithin (right_of shown out) e
        → IsTrue (covers shown (bounds e.lo e.hi)) × IsTrue (is_upto out.hi e.lo) }
{}

/// At a key on its side of the span a view of that side says what the view says, and nothing at any other key.
pub fn sides_say_what_the_view_says()
    ensures left { (c : List Item) (shown out : Bounds) (synthetic limit : ℕ) (k : List ℕ)
        → newest (view c (left_of shown out) synthetic) limit k
        ≡ (if is_below k out.lo then newest (view c shown synthetic) limit k else None) }
    ensures right { (c : List Item) (shown out : Bounds) (synthetic limit : ℕ) (k : List ℕ)
        → newest (view c (right_of shown out) synthetic) limit k
        ≡ (if is_upto out.hi k then newest (view c shown synthetic) limit k else None) }
{}

/// A side has no half exactly where the content holds nothing at any of the side's keys.
pub fn half_is_there_where_something_is()
    ensures { (c : List Item) (r : Bounds) (synthetic : ℕ) → HasOrderedSpans c
        → IsExtent (view c r synthetic) None ↔ ((k : List ℕ) → IsTrue (holds r k) → IsSilentAt k c) }
{}
