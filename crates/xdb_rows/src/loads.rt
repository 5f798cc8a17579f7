//! Loads of tables.
ghost use Rattle.xdb_rows.specs.Judged.{IsWorked};
ghost use Rattle.xdb_rows.specs.Loads as row;

/// A fence, and a retry.
pub fn fence_and_retry()
    ensures { IsWorked row.fence_and_retry_script row.fence_and_retry row.fence_and_retry_text }
{}

/// Tables that meet, and a load of nothing.
pub fn refused_tables()
    ensures { IsWorked row.refused_tables_script row.refused_tables row.refused_tables_text }
{}

/// A load waits for what isn't in tables yet, and goes on top of it.
pub fn load_waits()
    ensures { IsWorked row.load_waits_script row.load_waits row.load_waits_text }
{}

/// A load whose table couldn't be written frees its name, and its number is tried.
pub fn load_fails()
    ensures { IsWorked row.load_fails_script row.load_fails row.load_fails_text }
{}
