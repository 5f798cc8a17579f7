//! Snapshots: what pins, turns and excises them.
ghost use Rattle.xdb_rows.specs.Judged.{AreCases};
ghost use Rattle.xdb_rows.specs.Tables.Snapshots.{pinned_by_groups, turned_at_flushes, turned_at_no_compaction, excised_by_spans, excised_by_the_first, excised_while_pinned, ranges_of_snapshots, shown_by_name, names_of_snapshots, inside_of_ranges};

/// The last group that touches the ranges pins a snapshot.
pub fn pinned_by_groups()
    ensures { AreCases pinned_by_groups }
{}

/// A snapshot turns at the flush after which no group touches its ranges below its mark.
pub fn turned_at_flushes()
    ensures { AreCases turned_at_flushes }
{}

/// A compaction turns none.
pub fn turned_at_no_compaction()
    ensures { AreCases turned_at_no_compaction }
{}

/// A span that meets any of its ranges excises it.
pub fn excised_by_spans()
    ensures { AreCases excised_by_spans }
{}

/// The first load that does is named.
pub fn excised_by_the_first()
    ensures { AreCases excised_by_the_first }
{}

/// A snapshot that isn't pinned isn't excised.
pub fn excised_while_pinned()
    ensures { AreCases excised_while_pinned }
{}

/// The ranges of a snapshot rise.
pub fn ranges_of_snapshots()
    ensures { AreCases ranges_of_snapshots }
{}

/// Snapshots are shown by name.
pub fn shown_by_name()
    ensures { AreCases shown_by_name }
{}

/// A name is in use until its snapshot is dropped.
pub fn names_of_snapshots()
    ensures { AreCases names_of_snapshots }
{}

/// What looks at a snapshot lies inside one of its ranges.
pub fn inside_of_ranges()
    ensures { AreCases inside_of_ranges }
{}
