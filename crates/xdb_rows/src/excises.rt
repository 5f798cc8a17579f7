//! Loads that cut out a span.
ghost use Rattle.xdb_rows.specs.Judged.{IsWorked};
ghost use Rattle.xdb_rows.specs.Excises as row;

/// Two halves over one backing.
pub fn two_halves()
    ensures { IsWorked row.two_halves_script row.two_halves row.two_halves_text }
{}

/// A table wholly inside the span, and reaping twice.
pub fn whole_table_reaped()
    ensures { IsWorked row.whole_table_reaped_script row.whole_table_reaped row.whole_table_reaped_text }
{}

/// A removal that fails.
pub fn removal_fails()
    ensures { IsWorked row.removal_fails_script row.removal_fails row.removal_fails_text }
{}

/// An excise that deletes no key: it begins behind the first and ends at the last.
pub fn excise_of_nothing()
    ensures { IsWorked row.excise_of_nothing_script row.excise_of_nothing row.excise_of_nothing_text }
{}

/// A compaction has the file numbers 2 to 65, so the halves have 66 and 67.
pub fn cancelled_compaction()
    ensures { IsWorked row.cancelled_compaction_script row.cancelled_compaction row.cancelled_compaction_text }
{}

/// An excise beside the hull of a compaction, with a table that reaches over both.
pub fn excise_beside_hull()
    ensures { IsWorked row.excise_beside_hull_script row.excise_beside_hull row.excise_beside_hull_text }
{}

/// The answer of the question's moment.
pub fn answer_of_the_asking()
    ensures { IsWorked row.answer_of_the_asking_script row.answer_of_the_asking row.answer_of_the_asking_text }
{}

/// A range delete across the span is clipped in both halves.
pub fn tombstone_clipped()
    ensures { IsWorked row.tombstone_clipped_script row.tombstone_clipped row.tombstone_clipped_text }
{}

/// Longest key.
pub fn longest_key()
    ensures { IsWorked row.longest_key_script row.longest_key row.longest_key_text }
{}

/// A node receives a range.
pub fn receive_range()
    ensures { IsWorked row.receive_range_script row.receive_range row.receive_range_text }
{}
