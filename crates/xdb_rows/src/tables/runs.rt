//! Runs of scripts on one thread.
ghost use Rattle.std.specs.Prelude.{◌∷◌, [], ◌++◌};
ghost use Rattle.xdb_plain.specs.Legal.{IsRight, TellHolds};
ghost use Rattle.xdb_plain.specs.Runs.{IsRunOf};
ghost use Rattle.xdb_plain.specs.State.{opening};
ghost use Rattle.xdb_rows.specs.Judged.{AreRunCases};
ghost use Rattle.xdb_rows.specs.Tables.Runs.{puts, builds, whole_flushes, whole_compactions, reaps, reaps_of_nothing, drains, reads, settles, works, openings, named_tables, lines_in_order, clients_notes, owners_notes, every_command, from_7_lines, from_7, took};

/// A put waits until its job is built.
pub fn puts()
    ensures { AreRunCases puts }
{}

/// A build prints its failure, and that there is nothing to build.
pub fn builds()
    ensures { AreRunCases builds }
{}

/// A flush has a beginning and an end.
pub fn whole_flushes()
    ensures { AreRunCases whole_flushes }
{}

/// So has a compaction.
pub fn whole_compactions()
    ensures { AreRunCases whole_compactions }
{}

/// A reap takes all that is dead.
pub fn reaps()
    ensures { AreRunCases reaps }
{}

/// It says that there is none only where there was none at first.
pub fn reaps_of_nothing()
    ensures { AreRunCases reaps_of_nothing }
{}

/// The end of a run takes all that is dead.
pub fn drains()
    ensures { AreRunCases drains }
{}

/// A read has its answer, its failure or its refusal.
pub fn reads()
    ensures { AreRunCases reads }
{}

/// A question in parts is settled once it was worked at.
pub fn settles()
    ensures { AreRunCases settles }
{}

/// The work at a question prints its failure, and that there is nothing to work at.
pub fn works()
    ensures { AreRunCases works }
{}

/// A load's opening ends.
pub fn openings()
    ensures { AreRunCases openings }
{}

/// A load has the tables of its names.
pub fn named_tables()
    ensures { AreRunCases named_tables }
{}

/// Each line has its note, in order.
pub fn lines_in_order()
    ensures { AreRunCases lines_in_order }
{}

/// Clients' commands are noted as they are said.
pub fn clients_notes()
    ensures { AreRunCases clients_notes }
{}

/// So are the owner's.
pub fn owners_notes()
    ensures { AreRunCases owners_notes }
{}

/// Each command can have its note.
pub fn every_command()
    ensures { AreRunCases every_command }
{}

/// A run may begin with other numbers.
pub fn other_first_numbers()
    ensures right { IsRight 1 7 (from_7 ++ took 7 ∷ []) }
    ensures holds { TellHolds (opening 1 7) (from_7 ++ took 7 ∷ []) }
    ensures run { IsRunOf 1 7 from_7_lines (from_7 ++ took 7 ∷ []) }
    ensures no_run { IsRunOf 1 7 from_7_lines from_7 → ⊥ }
{}
