//! How many of a kind may be open at a time.
ghost use Rattle.xdb_rows.specs.Judged.{AreCases};
ghost use Rattle.xdb_rows.specs.Tables.Limits.{limit_of_loads, limit_of_snapshots, limit_of_cursors, limit_of_questions, limit_of_compactions, flushes_beside_compactions, room_after_compactions, room_after_cancelling};

/// 16 loads.
pub fn limit_of_loads()
    ensures { AreCases limit_of_loads }
{}

/// 64 snapshots.
pub fn limit_of_snapshots()
    ensures { AreCases limit_of_snapshots }
{}

/// 64 cursors.
pub fn limit_of_cursors()
    ensures { AreCases limit_of_cursors }
{}

/// 64 open questions.
pub fn limit_of_questions()
    ensures { AreCases limit_of_questions }
{}

/// 4 compactions.
pub fn limit_of_compactions()
    ensures { AreCases limit_of_compactions }
{}

/// A flush isn't one of them.
pub fn flushes_beside_compactions()
    ensures { AreCases flushes_beside_compactions }
{}

/// A compaction that failed or was put makes room.
pub fn room_after_compactions()
    ensures { AreCases room_after_compactions }
{}

/// A compaction that was cancelled counts until it is put.
pub fn room_after_cancelling()
    ensures { AreCases room_after_cancelling }
{}
