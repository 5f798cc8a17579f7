//! Commits and reads.
ghost use Rattle.std.specs.Prelude.{◌-◌, ◌^◌};
ghost use Rattle.xdb_rows.specs.Judged.{IsWorked, IsWorkedFrom};
ghost use Rattle.xdb_rows.specs.Reads as row;

/// Empty script.
pub fn empty_script()
    ensures { IsWorked row.empty_script_script row.empty_script row.empty_script_text }
{}

/// Stored run.
pub fn stored_run()
    ensures { IsWorked row.stored_run_script row.stored_run row.stored_run_text }
{}

/// Two clients.
pub fn two_clients()
    ensures { IsWorked row.two_clients_script row.two_clients row.two_clients_text }
{}

/// The order inside a batch.
pub fn batch_order()
    ensures { IsWorked row.batch_order_script row.batch_order row.batch_order_text }
{}

/// A question in parts has the answer of its asking.
pub fn question_in_parts()
    ensures { IsWorked row.question_in_parts_script row.question_in_parts row.question_in_parts_text }
{}

/// A read at a snapshot that there isn't.
pub fn read_at_nothing()
    ensures { IsWorked row.read_at_nothing_script row.read_at_nothing row.read_at_nothing_text }
{}

/// The last sequence numbers, from 2^56 - 1 on.
pub fn last_numbers()
    ensures { IsWorkedFrom (2 ^ 56 - 1) 1 row.last_numbers_script row.last_numbers row.last_numbers_text }
{}
