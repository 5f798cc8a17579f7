//! Plans of compactions.
ghost use Rattle.xdb_rows.specs.Judged.{AreCases};
ghost use Rattle.xdb_rows.specs.Tables.Plans.{inputs_of_chains, inputs_of_two_levels, plans_at_levels, plans_beside_running, picks_of_l0, picks_beside_running, picks_by_sizes, picks_of_l5, picks_of_levels};

/// The hull grows over what it meets.
pub fn inputs_of_chains()
    ensures { AreCases inputs_of_chains }
{}

/// Also over the tables of the next level.
pub fn inputs_of_two_levels()
    ensures { AreCases inputs_of_two_levels }
{}

/// There is a plan where a level above L6 has tables in the range.
pub fn plans_at_levels()
    ensures { AreCases plans_at_levels }
{}

/// There is none where the hull meets that of a running compaction.
pub fn plans_beside_running()
    ensures { AreCases plans_beside_running }
{}

/// L0 is due with four tables, which are tried by their sequence numbers.
pub fn picks_of_l0()
    ensures { AreCases picks_of_l0 }
{}

/// The next table is tried where a running compaction is over the first.
pub fn picks_beside_running()
    ensures { AreCases picks_beside_running }
{}

/// A level below L0 is due by its sizes.
pub fn picks_by_sizes()
    ensures { AreCases picks_by_sizes }
{}

/// Its tables are tried by their numbers.
pub fn picks_of_l5()
    ensures { AreCases picks_of_l5 }
{}

/// Levels are tried from the first on.
pub fn picks_of_levels()
    ensures { AreCases picks_of_levels }
{}
