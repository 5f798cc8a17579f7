//! Questions and cursors: what is handed out for a range shows there what the answer is about.
ghost use Rattle.std.specs.Prelude.{◌≡◌, ℕ, List, map, IsTrue};
ghost use Rattle.std.specs.List.{flat_map};
ghost use Rattle.xdb_key.specs.Bounds.{Bounds, holds, covers};
ghost use Rattle.xdb_plain.specs.PlainMap.{PlainMap};
ghost use Rattle.xdb_plain.specs.Snapshots.{is_pinned, is_file_only};
ghost use Rattle.xdb_plain.specs.State.{Snapshot};
ghost use Rattle.xdb_rangedel.specs.Content.{Item, newest, IsImage, IsClear};
ghost use Rattle.xdb_rangedel.specs.Members.{Has};
ghost use Rattle.xdb_rangedel.specs.View.{view};
ghost use Rattle.xdb_laws.specs.Excises.{KeepsTo};
ghost use Rattle.xdb_laws.specs.Image.{image, AreAlikeIn};
ghost use Rattle.xdb_laws.specs.Ordered.{joined};
ghost use Rattle.xdb_laws.specs.Parts.{content_of_all, Handout, all_of, handed_of, IsHandout};
ghost use Rattle.xdb_laws.specs.Snapshots.{KeepsCopy};

/// A table, as a view of its file, speaks of keys in its bounds alone; and what tables have level
/// by level is what all of them have.
pub fn tables_keep_to_their_bounds()
    ensures bounds { (file : List Item) (r : Bounds) (synthetic : ℕ)
        → KeepsTo r (view file r synthetic) }
    ensures levels { (levels : List (List (Bounds × List Item)))
        → flat_map joined (map (map (λ t. t.1)) levels)
        ≡ content_of_all (flat_map (λ ts. ts) levels) }
{}

/// Inside the range what is handed out says what all that is there says, so its image is the map,
/// or whatever else that of all is, as a cursor's copy. And it is clear.
pub fn handed_parts_are_the_content()
    ensures says { (h : Handout) → IsHandout h → (k : List ℕ) → IsTrue (holds h.range k)
        → newest (handed_of h) h.limit k ≡ newest (all_of h) h.limit k }
    ensures clear { (h : Handout) → IsHandout h → IsClear (handed_of h) }
    ensures map { (h : Handout) → IsHandout h → (m : PlainMap) → IsImage (all_of h) h.limit m
        → AreAlikeIn h.range (image (handed_of h) h.limit) m }
    ensures copy { (h : Handout) → IsHandout h → (copy : PlainMap)
        → AreAlikeIn h.range (image (all_of h) h.limit) copy
        → AreAlikeIn h.range (image (handed_of h) h.limit) copy }
{}

/// For a question or a cursor on a snapshot, inside one of its ranges and at its mark: while it is
/// pinned, memtables and the current version have its copy there, and once it is file-only the
/// version that it holds, alone.
pub fn handed_parts_are_the_copy()
    ensures pinned { (s : Snapshot) (range : Bounds) (h : Handout) (held : List Item)
        → IsTrue (is_pinned s.state) → KeepsCopy s (all_of h) held
        → Has s.ranges range → IsTrue (covers range h.range) → h.limit ≡ s.mark → IsHandout h
        → AreAlikeIn h.range (image (handed_of h) s.mark) s.copy }
    ensures file_only { (s : Snapshot) (range : Bounds) (h : Handout) (all : List Item)
        → IsTrue (is_file_only s.state) → KeepsCopy s all (content_of_all h.tables)
        → Has s.ranges range → IsTrue (covers range h.range) → h.limit ≡ s.mark → IsHandout h
        → AreAlikeIn h.range (image (content_of_all h.handed) s.mark) s.copy }
{}
