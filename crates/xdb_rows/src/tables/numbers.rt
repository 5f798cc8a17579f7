//! Sequence numbers and file numbers up to the last.
ghost use Rattle.xdb_rows.specs.Judged.{AreCases};
ghost use Rattle.xdb_rows.specs.Tables.Numbers.{numbers_of_commits, numbers_kept_back, numbers_of_openings, numbers_of_installs, files_of_flushes, files_of_compactions, files_of_loads, files_of_halves};

/// A commit takes one sequence number for each operation.
pub fn numbers_of_commits()
    ensures { AreCases numbers_of_commits }
{}

/// An open load with tables keeps one back, and a span alone none.
pub fn numbers_kept_back()
    ensures { AreCases numbers_kept_back }
{}

/// The opening of a load with tables needs one.
pub fn numbers_of_openings()
    ensures { AreCases numbers_of_openings }
{}

/// An install takes the one that was kept back.
pub fn numbers_of_installs()
    ensures { AreCases numbers_of_installs }
{}

/// A flush has one file number.
pub fn files_of_flushes()
    ensures { AreCases files_of_flushes }
{}

/// A compaction has 64.
pub fn files_of_compactions()
    ensures { AreCases files_of_compactions }
{}

/// A load has one for each table.
pub fn files_of_loads()
    ensures { AreCases files_of_loads }
{}

/// A half has one, at the install.
pub fn files_of_halves()
    ensures { AreCases files_of_halves }
{}
