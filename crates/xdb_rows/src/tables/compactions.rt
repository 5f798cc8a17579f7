//! Compactions and places.
ghost use Rattle.xdb_rows.specs.Judged.{AreCases};
ghost use Rattle.xdb_rows.specs.Tables.Compactions.{blocked_by_cancelled, cancelled_by_the_first, cancelled_by_spans, cancelled_apart, placed_beside_running, placed_above, placed_above_halves};

/// A cancelled compaction keeps plans and places off until it is put.
pub fn blocked_by_cancelled()
    ensures { AreCases blocked_by_cancelled }
{}

/// The first load that cancels is named.
pub fn cancelled_by_the_first()
    ensures { AreCases cancelled_by_the_first }
{}

/// A span that meets the hull cancels.
pub fn cancelled_by_spans()
    ensures { AreCases cancelled_by_spans }
{}

/// It cancels those whose hull it meets.
pub fn cancelled_apart()
    ensures { AreCases cancelled_apart }
{}

/// The hull of a running compaction keeps loaded tables in L0.
pub fn placed_beside_running()
    ensures { AreCases placed_beside_running }
{}

/// A loaded table goes as far down as it can.
pub fn placed_above()
    ensures { AreCases placed_above }
{}

/// It has its place in what the halves leave.
pub fn placed_above_halves()
    ensures { AreCases placed_above_halves }
{}
