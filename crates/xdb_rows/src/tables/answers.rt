//! What reads and moves find.
ghost use Rattle.xdb_rows.specs.Judged.{AreCases};
ghost use Rattle.xdb_rows.specs.Tables.Answers as row;

/// What a get finds.
pub fn gets_told()
    ensures { AreCases row.gets_told }
{}

/// Which pairs a scan finds, and in which direction.
pub fn scans_told()
    ensures { AreCases row.scans_told }
{}

/// Answers of a scan that aren't its own.
pub fn scans_not_told()
    ensures { AreCases row.scans_not_told }
{}

/// How commits act on the map.
pub fn commits_told()
    ensures { AreCases row.commits_told }
{}

/// A commit that is refused doesn't act.
pub fn refused_commits_told()
    ensures { AreCases row.refused_commits_told }
{}

/// A read at a snapshot finds what was there at its making.
pub fn snapshots_told()
    ensures { AreCases row.snapshots_told }
{}

/// A cursor looks at its own copy.
pub fn cursors_told()
    ensures { AreCases row.cursors_told }
{}

/// A cursor goes pair by pair.
pub fn steps_walked()
    ensures { AreCases row.steps_walked }
{}

/// A cursor goes to a key.
pub fn seeks_walked()
    ensures { AreCases row.seeks_walked }
{}

/// A cursor over a range without pairs.
pub fn nothing_walked()
    ensures { AreCases row.nothing_walked }
{}

/// What moves a cursor, and what doesn't.
pub fn places_kept()
    ensures { AreCases row.places_kept }
{}

/// An answer is that of the question's asking.
pub fn answers_kept()
    ensures { AreCases row.answers_kept }
{}

/// How a load's tables act on the map.
pub fn loads_told()
    ensures { AreCases row.loads_told }
{}

/// How spans, and several tables and loads, act on the map.
pub fn spans_told()
    ensures { AreCases row.spans_told }
{}

/// Tables of a load act one after the other.
pub fn tables_in_turn()
    ensures { row.TablesInTurn }
{}
