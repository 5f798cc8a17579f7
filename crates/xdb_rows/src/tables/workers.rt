//! Runs of scripts by workers.
ghost use Rattle.std.specs.Prelude.{◌∷◌, [], ◌++◌};
ghost use Rattle.xdb_plain.specs.Legal.{IsRight, TellHolds};
ghost use Rattle.xdb_plain.specs.State.{opening};
ghost use Rattle.xdb_plain.specs.Workers.{IsThreadsOf};
ghost use Rattle.xdb_rows.specs.Judged.{AreThreadsCases};
ghost use Rattle.xdb_rows.specs.Tables.Runs.{from_7};
ghost use Rattle.xdb_rows.specs.Tables.Workers.{left_over, active_group, compaction_left, failed_at_last, dead_left, due_replies, load_waits, await_waits, clients_in_order, reads_between, defined_for_all, took, ends_in_vain, puts_lines, AreCome, ways, miscounted, under_way_wrong};

/// No sealed group and no job is left.
pub fn left_over()
    ensures { AreThreadsCases left_over }
{}

/// The active group is left with fewer than 256 operations.
pub fn active_group()
    ensures { AreThreadsCases active_group }
{}

/// No compaction is left to do.
pub fn compaction_left()
    ensures { AreThreadsCases compaction_left }
{}

/// Work may be left where the last flush or compaction failed, behind all that clients did.
pub fn failed_at_last()
    ensures { AreThreadsCases failed_at_last }
{}

/// Nothing dead is left.
pub fn dead_left()
    ensures { AreThreadsCases dead_left }
{}

/// Workers look for no work that isn't there, and put only what was built.
pub fn due_replies()
    ensures { AreThreadsCases due_replies }
{}

/// Loads wait at most as often as something failed.
pub fn load_waits()
    ensures { AreThreadsCases load_waits }
{}

/// So do those who wait for snapshots.
pub fn await_waits()
    ensures { AreThreadsCases await_waits }
{}

/// Each client's lines have their notes, in order.
pub fn clients_in_order()
    ensures { AreThreadsCases clients_in_order }
{}

/// A read is answered before its client's next command.
pub fn reads_between()
    ensures { AreThreadsCases reads_between }
{}

/// A table is defined for every client.
pub fn defined_for_all()
    ensures { AreThreadsCases defined_for_all }
{}

/// A run may begin with other numbers.
pub fn other_first_numbers()
    ensures right { IsRight 1 7 (from_7 ++ took 7 ∷ ends_in_vain ∷ []) }
    ensures holds { TellHolds (opening 1 7) (from_7 ++ took 7 ∷ ends_in_vain ∷ []) }
    ensures run { IsThreadsOf 1 7 puts_lines (from_7 ++ took 7 ∷ ends_in_vain ∷ []) }
    ensures no_run { IsThreadsOf 1 7 puts_lines (from_7 ++ ends_in_vain ∷ []) → ⊥ }
{}

/// How far a client may have come.
pub fn ways()
    ensures { AreCome ways }
{}

/// What is done is counted right.
pub fn miscounted()
    ensures { AreCome miscounted }
{}

/// What is under way is the beginning of the next line's block.
pub fn under_way_wrong()
    ensures { AreCome under_way_wrong }
{}
