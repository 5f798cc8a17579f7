//! Snapshots: what shows a snapshot's copy, from its making to its end.
ghost use Rattle.std.specs.Prelude.{◌≡◌, ℕ, ◌≤◌, List, ◌++◌, IsTrue, if◌then◌else◌};
ghost use Rattle.xdb_key.specs.Bounds.{Bounds, holds};
ghost use Rattle.xdb_key.specs.Groups.{Group};
ghost use Rattle.xdb_key.specs.declared.op.Op.{Op};
ghost use Rattle.xdb_plain.specs.Changes.{new_snap};
ghost use Rattle.xdb_plain.specs.Snapshots.{is_file_only, turns, turned, excised};
ghost use Rattle.xdb_plain.specs.State.{Plain, Snapshot, groups};
ghost use Rattle.xdb_rangedel.specs.Content.{Item, newest, IsImage};
ghost use Rattle.xdb_rangedel.specs.Members.{Has};
ghost use Rattle.xdb_mem.specs.Numbered.{numbered};
ghost use Rattle.xdb_mem.specs.Parts.{items};
ghost use Rattle.xdb_mem.specs.Queue.{all_ops};
ghost use Rattle.xdb_laws.specs.Image.{image};
ghost use Rattle.xdb_laws.specs.Loads.{Install, IsInstall};
ghost use Rattle.xdb_laws.specs.Snapshots.{KeepsCopy};

/// At its making a snapshot's copy is shown: by memtables and tables together, and by the tables
/// alone where no group touches its ranges.
pub fn made_snapshots_show_the_map()
    ensures { (p : Plain) (name : List ℕ) (ranges : List Bounds) (tables : List Item)
        → IsImage (items (all_ops (groups p)) ++ tables) p.next p.map
        → KeepsCopy (new_snap p name ranges) (items (all_ops (groups p)) ++ tables) tables }
{}

/// A copy goes on to be shown where all that is there says the same of the ranges at the mark, as
/// behind a commit. Of a file-only snapshot's copy nothing matters but the held version.
pub fn snapshots_keep_their_copies()
    ensures ranges { (s : Snapshot) (c d held : List Item)
        → ((r : Bounds) (k : List ℕ) → Has s.ranges r → IsTrue (holds r k)
        → newest d s.mark k ≡ newest c s.mark k)
        → KeepsCopy s c held → KeepsCopy s d held }
    ensures image { (s : Snapshot) (c d held : List Item) → image c s.mark ≡ image d s.mark
        → KeepsCopy s c held → KeepsCopy s d held }
    ensures committed { (s : Snapshot) (ops : List (ℕ × Op)) (tables held : List Item) (next : ℕ)
        (more : List Op) → s.mark ≤ next → KeepsCopy s (items ops ++ tables) held
        → KeepsCopy s (items (ops ++ numbered next more) ++ tables) held }
    ensures held { (s : Snapshot) (c d held : List Item) → IsTrue (is_file_only s.state)
        → KeepsCopy s c held → KeepsCopy s d held }
{}

/// The turn: with the groups that a flush leaves, a pinned snapshot that none of them touches below
/// its mark is shown by the version just installed, which it holds from then on.
pub fn turned_snapshots_show_their_copies()
    ensures { (gs : List Group) (s : Snapshot) (tables held : List Item)
        → KeepsCopy s (items (all_ops gs) ++ tables) held
        → KeepsCopy (turned gs s) (items (all_ops gs) ++ tables)
        (if turns gs s then tables else held) }
{}

/// The install of a load: a pinned snapshot that its span meets is excised and owes nothing, and
/// any other keeps its copy.
pub fn excised_snapshots_owe_nothing()
    ensures { (x : Install) (held : List Item) (load : List ℕ) (s : Snapshot) → IsInstall x
        → s.mark ≤ x.next → KeepsCopy s x.old held → KeepsCopy (excised load x.out s) x.new held }
{}
