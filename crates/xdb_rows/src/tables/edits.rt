//! Changes of tables.
ghost use Rattle.xdb_rows.specs.Judged.{AreCases};
ghost use Rattle.xdb_rows.specs.Tables.Edits.{halves_in_order, half_fields, halves_of_levels, edges_of_the_span, loaded_bounds, loaded_numbers, places, places_and_hulls, flushes, flushes_beside_others, outputs, most_outputs, outputs_of_levels, counts_of_versions, counts_of_halves, order_of_levels};

/// Halves have the next file numbers, table by table in the order of removal, left before right.
pub fn halves_in_order()
    ensures { AreCases halves_in_order }
{}

/// A half lies beside the span in its table, and has its numbers and half its size.
pub fn half_fields()
    ensures { AreCases half_fields }
{}

/// Tables are cut level by level, and halves are cut as tables are.
pub fn halves_of_levels()
    ensures { AreCases halves_of_levels }
{}

/// Which tables a span meets.
pub fn edges_of_the_span()
    ensures { AreCases edges_of_the_span }
{}

/// A loaded table has the least range that is over its operations.
pub fn loaded_bounds()
    ensures { AreCases loaded_bounds }
{}

/// The file numbers and the sequence number of loaded tables.
pub fn loaded_numbers()
    ensures { AreCases loaded_numbers }
{}

/// The level of a loaded table.
pub fn places()
    ensures { AreCases places }
{}

/// A loaded table that meets a running compaction stands in L0.
pub fn places_and_hulls()
    ensures { AreCases places_and_hulls }
{}

/// A flush adds one table.
pub fn flushes()
    ensures { AreCases flushes }
{}

/// What stands beside a flush doesn't change it.
pub fn flushes_beside_others()
    ensures { AreCases flushes_beside_others }
{}

/// What a compaction adds.
pub fn outputs()
    ensures { AreCases outputs }
{}

/// A compaction adds 64 tables at most.
pub fn most_outputs()
    ensures { AreCases most_outputs }
{}

/// What compactions take from one level and write to the next.
pub fn outputs_of_levels()
    ensures { AreCases outputs_of_levels }
{}

/// A file counts once for each table of each version in use.
pub fn counts_of_versions()
    ensures { AreCases counts_of_versions }
{}

/// Halves count beside their table.
pub fn counts_of_halves()
    ensures { AreCases counts_of_halves }
{}

/// How levels are ordered after an edit.
pub fn order_of_levels()
    ensures { AreCases order_of_levels }
{}
