//! Flushes: taken, put, and ended in vain.
ghost use Rattle.std.specs.Prelude.{◌≡◌, ℕ, ◌+◌, ◌<◌, ◌≤◌, ◌^◌, ◌||◌, ◌∷◌, [], Bool, true, false, List, IsTrue, None, Some};
ghost use Rattle.xdb_edit.specs.Changes.{Changes};
ghost use Rattle.xdb_edit.specs.Records.{IsEdit};
ghost use Rattle.xdb_edit.specs.Versions.{edited};
ghost use Rattle.xdb_laws.specs.Tables.{contents};
ghost use Rattle.xdb_lists.specs.Numbers.{is_among};
ghost use Rattle.xdb_meta.specs.Table.{Table};
ghost use Rattle.xdb_model.specs.Flushes.{FlushesFit};
ghost use Rattle.xdb_model.specs.Numbered.{JobsFit, LevelsFit};
ghost use Rattle.xdb_plain.specs.Edits.{IsFlushOf};
ghost use Rattle.xdb_plain.specs.Failures.{faults, is_damage};
ghost use Rattle.xdb_plain.specs.Outcomes.{outcome, fails};
ghost use Rattle.xdb_plain.specs.State.{Plain, flush_of};
ghost use Rattle.xdb_plain.specs.Steps.{AreTried};
ghost use Rattle.xdb_plain.specs.declared.act.Act.TheVariants as act;
ghost use Rattle.xdb_plain.specs.declared.act.By.TheVariants.{Db};
ghost use Rattle.xdb_plain.specs.declared.reply.Reply.{Reply};
ghost use Rattle.xdb_plain.specs.declared.reply.Reply.TheVariants.{Nothing, NoSuch, NotYet, Spent, Memory, Job as Started};
ghost use Rattle.xdb_rangedel.specs.Content.{Item};
ghost use Rattle.xdb_steps.specs.Between.{Held, HasOldest};
ghost use Rattle.xdb_steps.specs.Core.{Core, RunningJob, holders, running_job, flush_idle, flushing_core, flushed_core, vain_core};
ghost use Rattle.xdb_steps.specs.Flush.{IsFlushed};
ghost use Rattle.xdb_steps.specs.Keeps.{Agrees};
ghost use Rattle.xdb_steps.specs.Notes.{plain_note, put_note, end_note};
ghost use Rattle.xdb_steps.specs.Step.{HeldStep};

/// A flush is taken of the oldest sealed group, whose content it is given, under the next numbers.
pub fn flush_takes_are_steps()
    ensures nothing { (told : Bool) (c : Core) (p : Plain) → Agrees c p
        → Held c.files.holds (holders c)
        → flush_idle c ≡ true
        → HeldStep (IsTrue told) 0 c c p (plain_note Db act.FlushTake Nothing) }
    ensures spent { (told : Bool) (c : Core) (p : Plain) → Agrees c p
        → Held c.files.holds (holders c)
        → flush_idle c ≡ false → 2 ^ 56 < c.numbers.file + 1
        → HeldStep (IsTrue told) 0 c c p (plain_note Db act.FlushTake Spent) }
    ensures lacking { (told : Bool) (c : Core) (p : Plain) → Agrees c p
        → Held c.files.holds (holders c)
        → flush_idle c ≡ false → c.numbers.file + 1 ≤ 2 ^ 56
        → HeldStep (IsTrue told) 0 c c p (plain_note Db act.FlushTake Memory) }
    ensures taken { (told : Bool) (c : Core) (p : Plain) (group : ℕ) (content : List Item)
        (stripes : List ℕ)
        → Agrees c p → Held c.files.holds (holders c) → HasOldest c.mem.sealed group content
        → flush_idle c ≡ false → c.numbers.file + 1 ≤ 2 ^ 56
        → HeldStep (IsTrue told) 0 c (flushing_core c group content stripes) p
        (plain_note Db act.FlushTake (Started (c.numbers.started + 1))) }
{}

/// A flush that runs is put where its result is there: its table comes into the current version in
/// place of the oldest sealed group. What each table has, the new one and those that stand already,
/// is a function of the table.
pub fn flush_puts_are_steps()
    ensures none { (told : Bool) (c : Core) (p : Plain) (num : ℕ) → Agrees c p
        → Held c.files.holds (holders c)
        → running_job num c.jobs ≡ None
        → HeldStep (IsTrue told) 0 c c p (plain_note Db (act.Put num) NoSuch) }
    ensures early { (told : Bool) (c : Core) (p : Plain) (num : ℕ) (r : RunningJob) (group : ℕ)
        → Agrees c p → Held c.files.holds (holders c) → running_job num c.jobs ≡ Some r
        → r.job.kind ≡ flush_of group
        → HeldStep (IsTrue told) 0 c c p (plain_note Db (act.Put num) NotYet) }
    ensures lacking { (told : Bool) (c : Core) (p : Plain) (num : ℕ) (r : RunningJob) (group : ℕ)
        → Agrees c p → Held c.files.holds (holders c) → running_job num c.jobs ≡ Some r
        → r.job.kind ≡ flush_of group
        → HeldStep (IsTrue told) 0 c c p (plain_note Db (act.Put num) Memory) }
    ensures installed { (told : Bool) (c : Core) (p : Plain) (num : ℕ) (r : RunningJob) (group : ℕ)
        (e : Changes) (table : Table) (content : Table → List Item) (known : List ℕ)
        → Agrees c p → Held c.files.holds (holders c) → JobsFit p → FlushesFit p
        → LevelsFit p
        → running_job num c.jobs ≡ Some r → r.job.kind ≡ flush_of group → IsEdit e
        → IsFlushOf r.job e → e.added ≡ (0, table) ∷ []
        → ((n : ℕ) → is_among n known ≡ (is_among n e.new_backings || is_among n c.files.known))
        → c.files.contents ≡ contents content c.files.current.levels
        → (IsTrue told → IsFlushed r table (content table))
        → HeldStep (IsTrue told) 0 c
        (flushed_core c num e (contents content (edited c.files.current.levels e)) known) p
        (put_note num e []) }
{}

/// A flush ends in vain: a device failed, which was booked, or memory was wanting, or a file was damaged that doesn't
/// tell its bytes. The number of its own file is known from then on where it was tried.
pub fn flush_ends_are_steps()
    ensures { (told : Bool) (c : Core) (p : Plain) (num : ℕ) (r : RunningJob) (group : ℕ)
        (reply : Reply) (rise : ℕ) (tried known : List ℕ)
        → Agrees c p → Held c.files.holds (holders c) → JobsFit p
        → running_job num c.jobs ≡ Some r → r.job.kind ≡ flush_of group
        → outcome reply ≡ fails → rise ≡ faults (end_note num reply [] tried ∷ [])
        → (IsTrue told → is_damage reply ≡ false) → AreTried r.job.first 1 tried
        → ((n : ℕ) → is_among n known ≡ (is_among n tried || is_among n c.files.known))
        → HeldStep (IsTrue told) rise c (vain_core c num known) p (end_note num reply [] tried) }
{}
