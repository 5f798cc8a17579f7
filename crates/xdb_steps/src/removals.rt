//! Files that are taken for removal, and what is shown of files.
ghost use Rattle.std.specs.Prelude.{◌≡◌, ℕ, ◌==◌, ◌||◌, ◌∷◌, [], Bool, true, List, IsTrue};
ghost use Rattle.xdb_edit.specs.Versions.{LevelLists};
ghost use Rattle.xdb_lists.specs.Numbers.{is_among};
ghost use Rattle.xdb_plain.specs.Counts.{counts, dead};
ghost use Rattle.xdb_plain.specs.State.{Plain};
ghost use Rattle.xdb_plain.specs.declared.act.Act.TheVariants as act;
ghost use Rattle.xdb_plain.specs.declared.act.By.TheVariants.{Db};
ghost use Rattle.xdb_plain.specs.declared.act.ShowWhat.{ShowWhat};
ghost use Rattle.xdb_plain.specs.declared.act.ShowWhat.TheVariants as show;
ghost use Rattle.xdb_plain.specs.declared.reply.Reply.TheVariants.{Nothing, Took, Stuck, Memory, Levels, Counts, Snaps};
ghost use Rattle.xdb_steps.specs.Between.{Held};
ghost use Rattle.xdb_steps.specs.Core.{Core, holders, reaped_core};
ghost use Rattle.xdb_steps.specs.Keeps.{Agrees};
ghost use Rattle.xdb_steps.specs.Notes.{plain_note};
ghost use Rattle.xdb_steps.specs.Step.{HeldStep};

/// The least dead number is taken, if there is one.
pub fn reaps_are_steps()
    ensures nothing { (told : Bool) (c : Core) (p : Plain) → Agrees c p
        → Held c.files.holds (holders c) → dead p ≡ []
        → HeldStep (IsTrue told) 0 c c p (plain_note Db act.Reap Nothing) }
    ensures took { (told : Bool) (c : Core) (p : Plain) (n : ℕ) (others taken : List ℕ)
        → Agrees c p → Held c.files.holds (holders c) → dead p ≡ n ∷ others
        → ((m : ℕ) → is_among m taken ≡ (m == n || is_among m c.files.taken))
        → HeldStep (IsTrue told) 0 c (reaped_core c taken) p (plain_note Db act.Reap (Took n)) }
{}

/// A file that was taken can't be removed: its device failed, which was booked, or memory was wanting.
pub fn removals_are_steps()
    ensures stuck { (told : Bool) (c : Core) (p : Plain) (num : ℕ) → Agrees c p
        → Held c.files.holds (holders c)
        → is_among num c.files.taken ≡ true
        → HeldStep (IsTrue told) 1 c c p (plain_note Db (act.Remove num) Stuck) }
    ensures lacking { (told : Bool) (c : Core) (p : Plain) (num : ℕ) → Agrees c p
        → Held c.files.holds (holders c)
        → is_among num c.files.taken ≡ true
        → HeldStep (IsTrue told) 0 c c p (plain_note Db (act.Remove num) Memory) }
{}

/// The current version, the counts and the snapshots are shown, of which there are none.
pub fn shows_are_steps()
    ensures lacking { (told : Bool) (c : Core) (p : Plain) (what : ShowWhat) → Agrees c p
        → Held c.files.holds (holders c)
        → HeldStep (IsTrue told) 0 c c p (plain_note Db (act.Show what) Memory) }
    ensures levels { (told : Bool) (c : Core) (p : Plain) (ls : LevelLists) → Agrees c p
        → Held c.files.holds (holders c)
        → ls ≡ c.files.current.levels
        → HeldStep (IsTrue told) 0 c c p (plain_note Db (act.Show show.Levels) (Levels ls)) }
    ensures counts { (told : Bool) (c : Core) (p : Plain) (cs : List (ℕ × ℕ)) → Agrees c p
        → Held c.files.holds (holders c) → cs ≡ counts p
        → HeldStep (IsTrue told) 0 c c p (plain_note Db (act.Show show.Counts) (Counts cs)) }
    ensures snaps { (told : Bool) (c : Core) (p : Plain) → Agrees c p
        → Held c.files.holds (holders c)
        → HeldStep (IsTrue told) 0 c c p (plain_note Db (act.Show show.Snaps) (Snaps [])) }
{}
