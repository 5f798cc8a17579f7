//! Commits and seals.
ghost use Rattle.std.specs.Prelude.{◌≡◌, ℕ, ◌+◌, ◌<◌, ◌≤◌, ◌^◌, Bool, true, false, List, length, IsTrue};
ghost use Rattle.xdb_key.specs.declared.op.Op.{Op};
ghost use Rattle.xdb_mem.specs.Queue.{sealed_once};
ghost use Rattle.xdb_plain.specs.Edits.{is_empty};
ghost use Rattle.xdb_plain.specs.State.{Plain};
ghost use Rattle.xdb_plain.specs.Steps.{is_client};
ghost use Rattle.xdb_plain.specs.declared.act.Act.TheVariants as act;
ghost use Rattle.xdb_plain.specs.declared.act.By.{By};
ghost use Rattle.xdb_plain.specs.declared.act.By.TheVariants.{Db};
ghost use Rattle.xdb_plain.specs.declared.act.CommitForm.{CommitForm};
ghost use Rattle.xdb_plain.specs.declared.reply.Reply.TheVariants.{Done, Spent, Memory, Nothing, Group};
ghost use Rattle.xdb_steps.specs.Core.{Core, committed_core, sealed_core};
ghost use Rattle.xdb_steps.specs.Keeps.{Agrees};
ghost use Rattle.xdb_steps.specs.Notes.{plain_note};
ghost use Rattle.xdb_steps.specs.Step.{Step};

/// A commit takes effect where there are numbers for its operations, or memory is wanting; else it is spent.
pub fn commits_are_steps()
    ensures done { (told : Bool) (c : Core) (p : Plain) (by : By) (form : CommitForm)
        (ops : List Op) → Agrees c p → IsTrue (is_client by)
        → c.numbers.next + length ops ≤ 2 ^ 56
        → Step (IsTrue told) 0 c (committed_core c ops) p
        (plain_note by (act.Commit form ops) Done) }
    ensures lacking { (told : Bool) (c : Core) (p : Plain) (by : By) (form : CommitForm)
        (ops : List Op) → Agrees c p → IsTrue (is_client by)
        → c.numbers.next + length ops ≤ 2 ^ 56
        → Step (IsTrue told) 0 c c p (plain_note by (act.Commit form ops) Memory) }
    ensures spent { (told : Bool) (c : Core) (p : Plain) (by : By) (form : CommitForm)
        (ops : List Op) → Agrees c p → IsTrue (is_client by)
        → 2 ^ 56 < c.numbers.next + length ops
        → Step (IsTrue told) 0 c c p (plain_note by (act.Commit form ops) Spent) }
{}

/// A seal closes the active group where it has operations.
pub fn seals_are_steps()
    ensures group { (told : Bool) (c : Core) (p : Plain) → Agrees c p
        → is_empty c.mem.active.ops ≡ false
        → Step (IsTrue told) 0 c (sealed_core c) p
        (plain_note Db act.Seal (Group c.mem.active.num)) }
    ensures nothing { (told : Bool) (c : Core) (p : Plain) → Agrees c p
        → is_empty c.mem.active.ops ≡ true
        → Step (IsTrue told) 0 c c p (plain_note Db act.Seal Nothing) }
{}
