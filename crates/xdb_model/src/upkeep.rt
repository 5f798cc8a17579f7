//! Flushes and compactions begin just where they are due.
ghost use Rattle.std.specs.Prelude.{◌≡◌, ◌+◌, [], ℕ, true, false, length, nat_lt, IsTrue};
ghost use Rattle.xdb_plain.specs.Replies.{lacks_files};
ghost use Rattle.xdb_plain.specs.State.{Plain};
ghost use Rattle.xdb_plain.specs.Steps.{MayStand};
ghost use Rattle.xdb_plain.specs.Upkeep.{flush_due, compact_due};
ghost use Rattle.xdb_plain.specs.Workers.{IsQuiet};
ghost use Rattle.xdb_plain.specs.declared.act.Act.TheVariants as act;
ghost use Rattle.xdb_plain.specs.declared.act.Which.TheVariants.{Auto};
ghost use Rattle.xdb_plain.specs.declared.note.Note.{Note};
ghost use Rattle.xdb_plain.specs.declared.reply.Reply.TheVariants as reply;
ghost use Rattle.xdb_model.specs.Upkeep.{IsFlushReply, IsCompactReply};

/// A flush begins only where one is due, and `Nothing` tells that none is.
pub fn flushes_begin_where_due()
    ensures begins { (p : Plain) (note : Note) (job : ℕ)
        → MayStand p note → note.act ≡ act.FlushTake → note.reply ≡ reply.Job job → flush_due p ≡ true }
    ensures nothing { (p : Plain) (note : Note)
        → MayStand p note → note.act ≡ act.FlushTake → note.reply ≡ reply.Nothing → flush_due p ≡ false }
    ensures replies { (p : Plain) (note : Note) → MayStand p note → note.act ≡ act.FlushTake
        → IsFlushReply (flush_due p) (lacks_files p 1) (p.started + 1) note.reply }
{}

/// The same of the compaction that is most wanted.
pub fn compactions_begin_where_due()
    ensures begins { (p : Plain) (note : Note) (job : ℕ)
        → MayStand p note → note.act ≡ act.CompactTake Auto → note.reply ≡ reply.Job job → compact_due p ≡ true }
    ensures nothing { (p : Plain) (note : Note)
        → MayStand p note → note.act ≡ act.CompactTake Auto → note.reply ≡ reply.Nothing → compact_due p ≡ false }
    ensures replies { (p : Plain) (note : Note) → MayStand p note → note.act ≡ act.CompactTake Auto
        → IsCompactReply (compact_due p) (lacks_files p 64) (p.started + 1) note.reply }
{}

/// Where no job runs, fewer than 256 operations are in the active group and nothing is due, all is quiet; and where
/// all is quiet, nothing is due.
pub fn nothing_due_is_quiet()
    ensures quiet { (p : Plain) → p.jobs ≡ [] → IsTrue (nat_lt (length p.active.ops) 256)
        → flush_due p ≡ false → compact_due p ≡ false → IsQuiet p }
    ensures none_due { (p : Plain) → IsQuiet p → (flush_due p ≡ false) × (compact_due p ≡ false) }
{}
