//! Fences of open loads.
ghost use Rattle.xdb_rows.specs.Judged.{AreCases};
ghost use Rattle.xdb_rows.specs.Tables.Fences.{fences_in_order, fences_of_spans, fences_of_tables, fences_of_loads, overlaps_in_order, seals_at_openings, waits_for_groups, names_of_loads};

/// The first open load whose fence is met is named.
pub fn fences_in_order()
    ensures { AreCases fences_in_order }
{}

/// Every operation is asked, and what only touches a span is beside it.
pub fn fences_of_spans()
    ensures { AreCases fences_of_spans }
{}

/// The bounds of each table are fenced.
pub fn fences_of_tables()
    ensures { AreCases fences_of_tables }
{}

/// Loads are kept out by span and by tables.
pub fn fences_of_loads()
    ensures { AreCases fences_of_loads }
{}

/// The first two tables that meet are named.
pub fn overlaps_in_order()
    ensures { AreCases overlaps_in_order }
{}

/// The active group is sealed where it has an operation in the fence.
pub fn seals_at_openings()
    ensures { AreCases seals_at_openings }
{}

/// An install waits for the first group that touches the fence.
pub fn waits_for_groups()
    ensures { AreCases waits_for_groups }
{}

/// A load's name is in use until its opening fails.
pub fn names_of_loads()
    ensures { AreCases names_of_loads }
{}
