//! What histories tell of failures, removals and reservations, and what is due.
ghost use Rattle.xdb_rows.specs.Tables.Told.{AreEqual, fault_counts, damage_told, failures_counted, removals, jobs_reserve, loads_reserve, flushes_due, compactions_due};

/// Failing devices are counted, and nothing else is.
pub fn fault_counts()
    ensures { AreEqual fault_counts }
{}

/// Damage is told, and a history without failures.
pub fn damage_told()
    ensures { AreEqual damage_told }
{}

/// What counts as a failure among workers, and what a run may end with.
pub fn failures_counted()
    ensures { AreEqual failures_counted }
{}

/// Numbers taken, left and removed.
pub fn removals()
    ensures { AreEqual removals }
{}

/// Flushes and compactions reserve numbers.
pub fn jobs_reserve()
    ensures { AreEqual jobs_reserve }
{}

/// So do loads with tables.
pub fn loads_reserve()
    ensures { AreEqual loads_reserve }
{}

/// A flush is due.
pub fn flushes_due()
    ensures { AreEqual flushes_due }
{}

/// A compaction is due.
pub fn compactions_due()
    ensures { AreEqual compactions_due }
{}
