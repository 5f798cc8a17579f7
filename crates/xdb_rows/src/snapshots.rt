//! Snapshots and cursors.
ghost use Rattle.xdb_rows.specs.Judged.{IsWorked};
ghost use Rattle.xdb_rows.specs.Snapshots as row;

/// A snapshot that is file-only at once outlives an excise.
pub fn file_only_survives_excise()
    ensures { IsWorked row.file_only_survives_excise_script row.file_only_survives_excise row.file_only_survives_excise_text }
{}

/// A snapshot turns just before the install.
pub fn turns_before_install()
    ensures { IsWorked row.turns_before_install_script row.turns_before_install row.turns_before_install_text }
{}

/// The one refusal of a snapshot's read; the whole snapshot is refused, also in the range that the span misses.
pub fn snapshot_refused()
    ensures { IsWorked row.snapshot_refused_script row.snapshot_refused row.snapshot_refused_text }
{}

/// Snapshot refusals.
pub fn snapshot_refusals()
    ensures { IsWorked row.snapshot_refusals_script row.snapshot_refusals row.snapshot_refusals_text }
{}

/// So many snapshots are made, and the next is one too many.
pub fn too_many_snapshots()
    ensures { IsWorked (row.too_many_snapshots_script 64) (row.too_many_snapshots 64) (row.too_many_snapshots_text 64) }
{}

/// A snapshot that is pinned, and turns at a flush.
pub fn pinned_and_turned()
    ensures { IsWorked row.pinned_and_turned_script row.pinned_and_turned row.pinned_and_turned_text }
{}

/// A cursor looks at what there was when it was opened.
pub fn cursor_moves()
    ensures { IsWorked row.cursor_moves_script row.cursor_moves row.cursor_moves_text }
{}

/// A cursor over an excise, and a busy cursor.
pub fn cursor_over_excise()
    ensures { IsWorked row.cursor_over_excise_script row.cursor_over_excise row.cursor_over_excise_text }
{}
