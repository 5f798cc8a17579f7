//! The order of replies: of two that would stand, the first stands.
ghost use Rattle.xdb_rows.specs.Judged.{AreCases};
ghost use Rattle.xdb_rows.specs.Tables.Orders.{orders_of_work, orders_of_puts, orders_of_openings, orders_of_openings_at_16, orders_of_installs, orders_of_snapshots, orders_of_snapshots_at_64, orders_of_cursors, orders_of_cursors_at_64, orders_of_questions, orders_of_questions_at_64, busy_with_moves, failures_of_work};

/// Commits, and the beginnings of flushes and compactions.
pub fn orders_of_work()
    ensures { AreCases orders_of_work }
{}

/// The end of a compaction that was cancelled.
pub fn orders_of_puts()
    ensures { AreCases orders_of_puts }
{}

/// Openings of loads.
pub fn orders_of_openings()
    ensures { AreCases orders_of_openings }
{}

/// Openings with 16 open loads.
pub fn orders_of_openings_at_16()
    ensures { AreCases orders_of_openings_at_16 }
{}

/// Installs of loads.
pub fn orders_of_installs()
    ensures { AreCases orders_of_installs }
{}

/// Snapshots.
pub fn orders_of_snapshots()
    ensures { AreCases orders_of_snapshots }
{}

/// Snapshots with 64 open ones.
pub fn orders_of_snapshots_at_64()
    ensures { AreCases orders_of_snapshots_at_64 }
{}

/// Cursors.
pub fn orders_of_cursors()
    ensures { AreCases orders_of_cursors }
{}

/// Cursors with 64 open ones.
pub fn orders_of_cursors_at_64()
    ensures { AreCases orders_of_cursors_at_64 }
{}

/// Questions, and cursors that are shut.
pub fn orders_of_questions()
    ensures { AreCases orders_of_questions }
{}

/// Questions with 64 open ones.
pub fn orders_of_questions_at_64()
    ensures { AreCases orders_of_questions_at_64 }
{}

/// A cursor is busy with its own question.
pub fn busy_with_moves()
    ensures { AreCases busy_with_moves }
{}

/// Work that is under way may fail.
pub fn failures_of_work()
    ensures { AreCases failures_of_work }
{}
