//! What a reply tells of the state in which it may stand.
ghost use Rattle.std.specs.Prelude.{◌≡◌, ◌∷◌, ℕ, List, Option, Some, None};
ghost use Rattle.xdb_key.specs.Bounds.{Bounds};
ghost use Rattle.xdb_key.specs.Groups.{last_touching};
ghost use Rattle.xdb_key.specs.declared.op.Op.{Op};
ghost use Rattle.xdb_plain.specs.Counts.{dead};
ghost use Rattle.xdb_plain.specs.Fences.{fence, fence_touched, fence_met};
ghost use Rattle.xdb_plain.specs.State.{Plain, groups, found_load, found_job};
ghost use Rattle.xdb_plain.specs.Tables.{TableOps};
ghost use Rattle.xdb_plain.specs.Steps.{MayStand, HasEdit};
ghost use Rattle.xdb_plain.specs.declared.act.Act.TheVariants as act;
ghost use Rattle.xdb_plain.specs.declared.act.CommitForm.{CommitForm};
ghost use Rattle.xdb_plain.specs.declared.note.Note.{Note};
ghost use Rattle.xdb_plain.specs.declared.reply.Reply.TheVariants as reply;
ghost use Rattle.xdb_model.specs.Causes.{WaitsFor, CancelledBy};

/// `Waits` names the first group that touches the fence of the load.
pub fn waits_for_a_group()
    ensures { (p : Plain) (note : Note) (load : List ℕ) (g : ℕ)
        → MayStand p note → note.act ≡ act.Install load → note.reply ≡ reply.Waits g
        → WaitsFor (found_load load p.loads) (groups p) g }
{}

/// `Fenced` names the first open load whose fence an operation touches.
pub fn fenced_by_a_load()
    ensures { (p : Plain) (note : Note) (form : CommitForm) (ops : List Op) (load : List ℕ)
        → MayStand p note → note.act ≡ act.Commit form ops → note.reply ≡ reply.Fenced load
        → fence_touched ops p.loads ≡ Some load }
{}

/// `Cancelled` names the load that cancelled the compaction, and changes no tables.
pub fn cancelled_by_a_load()
    ensures canceller { (p : Plain) (note : Note) (job : ℕ) (load : List ℕ)
        → MayStand p note → note.act ≡ act.Put job → note.reply ≡ reply.Cancelled load
        → CancelledBy (found_job job p.jobs) load }
    ensures no_edit { (p : Plain) (note : Note) (load : List ℕ)
        → MayStand p note → note.reply ≡ reply.Cancelled load → note.edit ≡ None }
{}

/// `Took` is the least dead number.
pub fn took_the_least()
    ensures { (p : Plain) (note : Note) (num : ℕ)
        → MayStand p note → note.act ≡ act.Reap → note.reply ≡ reply.Took num
        → (others : List ℕ) × (dead p ≡ num ∷ others) }
{}

/// What is installed has an edit that fits.
pub fn installed_has_an_edit()
    ensures { (p : Plain) (note : Note) → MayStand p note → note.reply ≡ reply.Installed
        → HasEdit p note.act note.edit }
{}

/// A snapshot is pinned by the last group that touches its ranges below its mark, and file-only where there is
/// none.
pub fn snapshots_begin_by_groups()
    ensures pinned { (p : Plain) (note : Note) (name : List ℕ) (ranges : List Bounds) (g : ℕ)
        → MayStand p note → note.act ≡ act.Snap name ranges → note.reply ≡ reply.Pinned g
        → last_touching ranges p.next (groups p) ≡ Some g }
    ensures file_only { (p : Plain) (note : Note) (name : List ℕ) (ranges : List Bounds)
        → MayStand p note → note.act ≡ act.Snap name ranges → note.reply ≡ reply.FileOnly
        → last_touching ranges p.next (groups p) ≡ None }
{}

/// `Fenced` at the opening of a load names the first open load whose fence its span or a table meets.
pub fn opening_fenced_by_a_load()
    ensures { (p : Plain) (note : Note) (load : List ℕ) (tables : List TableOps) (span : Option Bounds) (other : List ℕ)
        → MayStand p note → note.act ≡ act.LoadOpen load tables span → note.reply ≡ reply.Fenced other
        → fence_met (fence tables span) p.loads ≡ Some other }
{}
