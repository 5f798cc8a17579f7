//! Laws of the definitions, each a function that does nothing.
ghost use Rattle.std.specs.Prelude.{◌≡◌, ℕ, ◌≤◌, false, ◌&&◌, List, [], ◌++◌, map, ◌↔◌, IsTrue, Option, Some, None, nat_lt, if◌then◌else◌};
ghost use Rattle.std.specs.FinMap.{FinMap};
ghost use Rattle.std.specs.List.{All};
ghost use Rattle.std.specs.Option.{option_map};
ghost use Rattle.xdb_key.specs.Order.{key_cmp, is_below, is_upto};
ghost use Rattle.xdb_key.specs.Bounds.{Bounds, holds};
ghost use Rattle.xdb_key.specs.Entries.{Point, Tombstone};
ghost use Rattle.xdb_rangedel.specs.Members.{Has, SameMembers};
ghost use Rattle.xdb_rangedel.specs.Cover.{cover_of};
ghost use Rattle.xdb_rangedel.specs.Pieces.{pieces, is_ordered, IsPiece, AreFragments};
ghost use Rattle.xdb_rangedel.specs.Clip.{parts_before, parts_from, parts_in};
ghost use Rattle.xdb_rangedel.specs.Content.{Item, entry, span, Mark, here, rank, said, mark, deleted_at, is_seen, newer, newest, verdict, IsImage, IsClear, entries_in, spans_in, in_pieces, entry_of, content_of};
ghost use Rattle.xdb_rangedel.specs.View.{restricted, renumbered, view, lies_in, HasOrderedSpans};
ghost use Rattle.xdb_rangedel.specs.Layers.{IsGreatest, IsAllBelow, IsAllFrom, IsSilentAt, IsNewerAt, IsOverAt, over, IsDrawn};

/// The newest of joined contents is the newer of their newest.
pub fn newest_of_joined()
    ensures joined { (a b : List Item) (limit : ℕ) (k : List ℕ)
        → newest (a ++ b) limit k ≡ newer (newest a limit k) (newest b limit k) }
    ensures replaced { (a b d c : List Item) (limit : ℕ) (k : List ℕ) → newest b limit k ≡ newest d limit k
        → newest (a ++ (b ++ c)) limit k ≡ newest (a ++ (d ++ c)) limit k }
{}

/// The newest mark is that of the greatest item below the limit, and there is none where no item is.
pub fn greatest_decides()
    ensures none { (c : List Item) (limit : ℕ) (k : List ℕ) → newest c limit k ≡ None
        → (i : Item) → Has c i → IsTrue (is_seen limit k i) → ⊥ }
    ensures some { (c : List Item) (limit : ℕ) (k : List ℕ) (m : Mark) → newest c limit k ≡ Some m
        → (i : Item) × IsGreatest c limit k i × (mark i ≡ m) }
    ensures clear { (c : List Item) (limit : ℕ) (k : List ℕ) (i : Item) → IsClear c → IsGreatest c limit k i
        → newest c limit k ≡ Some (mark i) }
{}

/// In a clear content neither order nor repetition matters.
pub fn order_is_nothing()
    ensures { (a b : List Item) (limit : ℕ) (k : List ℕ) → SameMembers a b → IsClear a
        → newest a limit k ≡ newest b limit k }
{}

/// Above all numbers the limit may rise, and what is numbered from the limit on isn't seen.
pub fn limits_hide_numbers()
    ensures raised { (c : List Item) (limit more : ℕ) (k : List ℕ) → IsAllBelow limit c → limit ≤ more
        → newest c more k ≡ newest c limit k }
    ensures hidden { (c : List Item) (limit : ℕ) (k : List ℕ) → IsAllFrom limit c → newest c limit k ≡ None }
{}

/// A content that holds nothing at a key says nothing of it, and what it is joined to says the same.
pub fn silent_says_nothing()
    ensures nothing { (c : List Item) (limit : ℕ) (k : List ℕ) → IsSilentAt k c → newest c limit k ≡ None }
    ensures before { (a c : List Item) (limit : ℕ) (k : List ℕ) → IsSilentAt k c
        → newest (c ++ a) limit k ≡ newest a limit k }
    ensures behind { (a c : List Item) (limit : ℕ) (k : List ℕ) → IsSilentAt k c
        → newest (a ++ c) limit k ≡ newest a limit k }
{}

/// A content has one image at a number.
pub fn image_is_one()
    ensures { (c : List Item) (limit : ℕ) (m n : FinMap key_cmp (List ℕ)) → IsImage c limit m → IsImage c limit n
        → m ≡ n }
{}

/// Where all that the upper content holds at a key is newer, the verdict is the upper's, unless it
/// says nothing; and which of the two comes first in the list is nothing.
pub fn layers()
    ensures newer { (k : List ℕ) (upper lower : List Item) → IsNewerAt k upper lower → IsOverAt k upper lower }
    ensures layered { (k : List ℕ) (upper lower : List Item) (limit : ℕ) → IsOverAt k upper lower
        → verdict (upper ++ lower) limit k ≡ over (verdict upper limit k) (verdict lower limit k) }
    ensures swapped { (k : List ℕ) (upper lower : List Item) (limit : ℕ) → IsOverAt k upper lower
        → newest (lower ++ upper) limit k ≡ newest (upper ++ lower) limit k }
    ensures replaced { (k : List ℕ) (limit : ℕ) (upper part new lower : List Item)
        → IsOverAt k upper (part ++ lower) → IsOverAt k part lower
        → IsOverAt k upper (new ++ lower) → IsOverAt k new lower
        → verdict part limit k ≡ verdict new limit k
        → verdict (upper ++ (part ++ lower)) limit k ≡ verdict (upper ++ (new ++ lower)) limit k }
{}

/// What is drawn from a content keeps it clear, and stays newer and older.
pub fn drawn()
    ensures entry { (old new : List Item) (key : List ℕ) (seq : ℕ) (v : Option (List ℕ)) → IsDrawn old new
        → Has new (entry key seq v) → Has old (entry key seq v) }
    ensures clear { (old new : List Item) → IsDrawn old new → IsClear old → IsClear new }
    ensures newer { (k : List ℕ) (upper lower new_upper new_lower : List Item)
        → IsDrawn upper new_upper → IsDrawn lower new_lower → IsNewerAt k upper lower
        → IsNewerAt k new_upper new_lower }
    ensures again { (a b c : List Item) → IsDrawn a b → IsDrawn b c → IsDrawn a c }
{}

/// The cover is the greatest number below the limit of a span that holds the key, whatever the order.
pub fn cover_is_greatest()
    ensures none { (ts : List Tombstone) (k : List ℕ) (limit : ℕ) → cover_of ts k limit ≡ None
        → (t : Tombstone) → Has ts t → IsTrue (holds t.range k && nat_lt t.seq limit) → ⊥ }
    ensures some { (ts : List Tombstone) (k : List ℕ) (limit n : ℕ) → cover_of ts k limit ≡ Some n
        → ((t : Tombstone) × Has ts t × IsTrue (holds t.range k && nat_lt t.seq limit) × (t.seq ≡ n))
        × ((u : Tombstone) → Has ts u → IsTrue (holds u.range k && nat_lt u.seq limit) → u.seq ≤ n) }
    ensures order { (xs ys : List Tombstone) → SameMembers xs ys → (k : List ℕ) (limit : ℕ)
        → cover_of xs k limit ≡ cover_of ys k limit }
{}

/// What covers a key in a part of the spans is what covers it in all of them, where the part reaches.
pub fn cover_of_parts()
    ensures range { (r : Bounds) (ts : List Tombstone) (k : List ℕ) (limit : ℕ)
        → cover_of (parts_in r ts) k limit ≡ (if holds r k then cover_of ts k limit else None) }
    ensures before { (at : List ℕ) (ts : List Tombstone) (k : List ℕ) (limit : ℕ)
        → cover_of (parts_before at ts) k limit ≡ (if is_below k at then cover_of ts k limit else None) }
    ensures from { (at : List ℕ) (ts : List Tombstone) (k : List ℕ) (limit : ℕ)
        → cover_of (parts_from at ts) k limit ≡ (if is_upto at k then cover_of ts k limit else None) }
    ensures pieces { (ts : List Tombstone) (k : List ℕ) (limit : ℕ)
        → cover_of (pieces ts) k limit ≡ cover_of ts k limit }
{}

/// The part of a content in a range says inside what the content says, and nothing outside. It is
/// drawn from the content.
pub fn part_in_range()
    ensures says { (r : Bounds) (c : List Item) (limit : ℕ) (k : List ℕ)
        → newest (restricted r c) limit k ≡ (if holds r k then newest c limit k else None) }
    ensures drawn { (r : Bounds) (c : List Item) → IsDrawn c (restricted r c) }
{}

/// The view in a range says inside what the content says, with the synthetic number where there is
/// one, and nothing outside. It is drawn from the content, and has all of it that speaks of a key of the
/// range (`kept`). Each of its items lies in the range; so it is empty exactly where the content holds
/// nothing at any key of the range, and always where the range is empty or ends before it begins.
pub fn view_of_range()
    ensures says { (c : List Item) (r : Bounds) (synthetic limit : ℕ) (k : List ℕ)
        → newest (view c r synthetic) limit k
        ≡ (if holds r k then newest (renumbered synthetic c) limit k else None) }
    ensures drawn { (c : List Item) (r : Bounds) (synthetic : ℕ)
        → IsDrawn (renumbered synthetic c) (view c r synthetic) }
    ensures kept { (c : List Item) (r : Bounds) (synthetic : ℕ) (k : List ℕ) (i : Item)
        → Has (renumbered synthetic c) i → IsTrue (holds r k) → IsTrue (here k i)
        → (j : Item) × Has (view c r synthetic) j × IsTrue (here k j)
        × (rank j ≡ rank i) × (said j ≡ said i) }
    ensures entries { (c : List Item) (r : Bounds) (synthetic : ℕ)
        (key : List ℕ) (seq : ℕ) (v : Option (List ℕ))
        → Has (view c r synthetic) (entry key seq v)
        ↔ (Has (renumbered synthetic c) (entry key seq v) × IsTrue (holds r key)) }
    ensures inside { (c : List Item) (r : Bounds) (synthetic : ℕ) (i : Item) → HasOrderedSpans c
        → Has (view c r synthetic) i → IsTrue (lies_in r i) }
    ensures ordered { (c : List Item) (r : Bounds) (synthetic : ℕ) → HasOrderedSpans c
        → HasOrderedSpans (view c r synthetic) }
    ensures empty { (c : List Item) (r : Bounds) (synthetic : ℕ) → HasOrderedSpans c
        → (view c r synthetic ≡ []) ↔ ((k : List ℕ) → IsTrue (holds r k) → IsSilentAt k c) }
    ensures nothing { (c : List Item) (r : Bounds) (synthetic : ℕ)
        → is_below r.lo r.hi ≡ false → view c r synthetic ≡ [] }
{}

/// Spans say of a key that it was deleted at the number that covers it; a content says the same
/// with its spans in pieces, and is the newer of what its entries and its spans say.
pub fn spans_in_content()
    ensures covered { (ts : List Tombstone) (limit : ℕ) (k : List ℕ)
        → newest (map span ts) limit k ≡ option_map deleted_at (cover_of ts k limit) }
    ensures apart { (c : List Item) (limit : ℕ) (k : List ℕ)
        → newest c limit k ≡ newer (newest (entries_in c) limit k) (newest (map span (spans_in c)) limit k) }
    ensures pieces { (c : List Item) (limit : ℕ) (k : List ℕ) → newest (in_pieces c) limit k ≡ newest c limit k }
    ensures drawn { (c : List Item) → IsDrawn c (in_pieces c) }
    ensures alike { (xs ys : List Tombstone) (limit : ℕ) (k : List ℕ) → cover_of xs k limit ≡ cover_of ys k limit
        → newest (map span xs) limit k ≡ newest (map span ys) limit k }
{}

/// The pieces of spans are the parts from one bound to the next, each with the numbers of the spans
/// over it.
pub fn pieces_lie_between_bounds()
    ensures tell { (ts : List Tombstone) → All (λ s. IsTrue (is_ordered s)) ts
        → (t : Tombstone) → Has (pieces ts) t → IsPiece ts t }
    ensures there { (ts : List Tombstone) (t : Tombstone) → IsPiece ts t → Has (pieces ts) t }
{}

/// Parts of fragments are fragments, fragments are their own pieces, and only one list of fragments
/// has given members.
pub fn fragments_stay()
    ensures range { (r : Bounds) (ts : List Tombstone) → IsTrue (is_below r.lo r.hi) → AreFragments ts
        → AreFragments (parts_in r ts) }
    ensures before { (at : List ℕ) (ts : List Tombstone) → AreFragments ts → AreFragments (parts_before at ts) }
    ensures from { (at : List ℕ) (ts : List Tombstone) → AreFragments ts → AreFragments (parts_from at ts) }
    ensures themselves { (ts : List Tombstone) → AreFragments ts → SameMembers (pieces ts) ts }
    ensures one { (xs ys : List Tombstone) → AreFragments xs → AreFragments ys → SameMembers xs ys → xs ≡ ys }
{}

/// The entries and the spans of the content that is kept as two lists are these lists.
pub fn content_of_two_lists()
    ensures entries { (ps : List Point) (ts : List Tombstone) → entries_in (content_of ps ts) ≡ map entry_of ps }
    ensures spans { (ps : List Point) (ts : List Tombstone) → spans_in (content_of ps ts) ≡ ts }
{}
