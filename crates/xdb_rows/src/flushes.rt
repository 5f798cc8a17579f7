//! Flushes, removals and compactions.
ghost use Rattle.xdb_rows.specs.Judged.{IsWorked};
ghost use Rattle.xdb_rows.specs.Flushes as row;

/// A change between the take of a flush and its put.
pub fn change_between_take_and_put()
    ensures { IsWorked row.change_between_take_and_put_script row.change_between_take_and_put row.change_between_take_and_put_text }
{}

/// One fault of the device licenses one line.
pub fn one_fault_one_line()
    ensures { IsWorked row.one_fault_one_line_script row.one_fault_one_line row.one_fault_one_line_text }
{}

/// A read that fails.
pub fn read_fails()
    ensures { IsWorked row.read_fails_script row.read_fails row.read_fails_text }
{}

/// A flush whose file is begun in vain, and cannot be removed.
pub fn flush_and_removal_fail()
    ensures { IsWorked row.flush_and_removal_fail_script row.flush_and_removal_fail row.flush_and_removal_fail_text }
{}

/// A delete and what it deletes leave nothing.
pub fn compaction_to_nothing()
    ensures { IsWorked row.compaction_to_nothing_script row.compaction_to_nothing row.compaction_to_nothing_text }
{}
