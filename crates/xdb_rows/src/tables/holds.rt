//! Holds of versions, and what ends what began.
ghost use Rattle.xdb_rows.specs.Judged.{AreCases};
ghost use Rattle.xdb_rows.specs.Tables.Holds.{takes, failed_jobs, cancelled_jobs, failed_in_parts, failed_in_one, answers_taken, held_versions, numbers_of_holds, turning_snapshots, pinned_snapshots, excised_snapshots, openings, opening_or_open, makers};

/// A compaction takes a hold, and a flush none.
pub fn takes()
    ensures { AreCases takes }
{}

/// A compaction that fails lets go.
pub fn failed_jobs()
    ensures { AreCases failed_jobs }
{}

/// One that is cancelled lets go at its put.
pub fn cancelled_jobs()
    ensures { AreCases cancelled_jobs }
{}

/// A question in parts that fails lets go.
pub fn failed_in_parts()
    ensures { AreCases failed_in_parts }
{}

/// A question that isn't parted fails by the one who asked, and lets go.
pub fn failed_in_one()
    ensures { AreCases failed_in_one }
{}

/// Any client takes an answer.
pub fn answers_taken()
    ensures { AreCases answers_taken }
{}

/// Which version is held.
pub fn held_versions()
    ensures { AreCases held_versions }
{}

/// What is held has a new number, and only what is begun holds.
pub fn numbers_of_holds()
    ensures { AreCases numbers_of_holds }
{}

/// Snapshots that turn take their holds.
pub fn turning_snapshots()
    ensures { AreCases turning_snapshots }
{}

/// A pinned snapshot holds nothing.
pub fn pinned_snapshots()
    ensures { AreCases pinned_snapshots }
{}

/// Nor does one that was excised.
pub fn excised_snapshots()
    ensures { AreCases excised_snapshots }
{}

/// An opening ends with what was to be opened.
pub fn openings()
    ensures { AreCases openings }
{}

/// A load is installed once it is open.
pub fn opening_or_open()
    ensures { AreCases opening_or_open }
{}

/// Who makes which step.
pub fn makers()
    ensures { AreCases makers }
{}
