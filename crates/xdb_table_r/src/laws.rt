//! Laws of the definitions, each a function that does nothing.
ghost use Rattle.std.specs.Prelude.{◌≡◌, ◌^◌, ◌<◌, ℕ, List, length, Ok};
ghost use Rattle.xdb_key.specs.Bounds.{Bounds};
ghost use Rattle.xdb_key.specs.Entries.{Tombstone};
ghost use Rattle.xdb_key.specs.Reading.{AreBytes};
ghost use Rattle.xdb_rangedel.specs.Content.{content_of};
ghost use Rattle.xdb_rangedel.specs.Members.{SameMembers};
ghost use Rattle.xdb_rangedel.specs.View.{view};
ghost use Rattle.xdb_block.specs.Rows.{Row};
ghost use Rattle.xdb_table_w.specs.Content.{Content};
ghost use Rattle.xdb_table_w.specs.Files.{parts, index, IsTable};
ghost use Rattle.xdb_table_r.specs.Opening.{tombstones, opened, opened_at};
ghost use Rattle.xdb_table_r.specs.Points.{points_at};
ghost use Rattle.xdb_table_r.specs.Grammar.{IsTableOf};
ghost use Rattle.xdb_table_r.specs.Contents.{content_in};
ghost use Rattle.xdb_table_r.specs.Views.{points_in, spans_in};

/// A file that is spelled as a table of a content, and shorter than 2^63 bytes, is read as this content.
pub fn table_is_read_again()
    ensures opened { (bytes : List ℕ) (c : Content) (t : IsTable 16 bytes c) → length bytes < 2 ^ 63 → opened_at bytes ≡ Ok (opened (tombstones c.spans) (index 16 t.blocks) (length (parts 16 t.blocks))) }
    ensures points { (bytes : List ℕ) (c : Content) (t : IsTable 16 bytes c) → length bytes < 2 ^ 63 → points_at (index 16 t.blocks) bytes ≡ Ok c.points }
{}

/// What is read is spelled so: bytes that open, and whose point blocks all read without a defect, are a table
/// file of just the points and spans that were read.
pub fn table_is_spelled_so()
    ensures { (bytes : List ℕ) (ts : List Tombstone) (rows : List Row) (end : ℕ) (points : List Row) → AreBytes bytes → opened_at bytes ≡ Ok (opened ts rows end) → points_at rows bytes ≡ Ok points → IsTableOf bytes points ts }
{}

/// What a range shows of a table's points and spans is the view of the table's content, whatever the range.
/// `members` is for spans that are known by their members alone.
pub fn shown_is_the_view()
    ensures whole { (r : Bounds) (synthetic : ℕ) (rows : List Row) (ts : List Tombstone)
        → content_of (points_in r synthetic rows) (spans_in r synthetic ts) ≡ view (content_in rows ts) r synthetic }
    ensures members { (r : Bounds) (synthetic : ℕ) (rows : List Row) (ts made : List Tombstone)
        → SameMembers made (spans_in r synthetic ts)
        → SameMembers (content_of (points_in r synthetic rows) made) (view (content_in rows ts) r synthetic) }
{}

/// A file shorter than 2^63 bytes is a table of one content alone.
pub fn table_has_one_content()
    ensures points { (bytes : List ℕ) (c d : Content) → IsTable 16 bytes c → IsTable 16 bytes d → length bytes < 2 ^ 63 → c.points ≡ d.points }
    ensures spans { (bytes : List ℕ) (c d : Content) → IsTable 16 bytes c → IsTable 16 bytes d → length bytes < 2 ^ 63 → tombstones c.spans ≡ tombstones d.spans }
{}
