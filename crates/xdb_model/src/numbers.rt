//! In every legal history groups, jobs, questions and files are numbered in order, and levels stand in theirs.
ghost use Rattle.std.specs.Prelude.{◌≡◌, ◌++◌, ℕ, List};
ghost use Rattle.xdb_rangedel.specs.Members.{Has};
ghost use Rattle.xdb_meta.specs.Table.{Table};
ghost use Rattle.xdb_edit.specs.Versions.{tables_of};
ghost use Rattle.xdb_plain.specs.Legal.{IsLegal, after_all};
ghost use Rattle.xdb_plain.specs.State.{opening};
ghost use Rattle.xdb_plain.specs.declared.note.Note.{Note};
ghost use Rattle.xdb_model.specs.Flushes.{FlushesFit};
ghost use Rattle.xdb_model.specs.Numbered.{GroupsFit, JobsFit, QuestionsFit, FilesFit, LevelsFit, AreDistinct, TakenFit, TablesFit};

/// The groups' numbers go up by one from the oldest to the active one, and every sealed group holds
/// operations.
pub fn groups_are_numbered()
    ensures { (first_seq first_file : ℕ) (notes : List Note) → IsLegal first_seq first_file notes
        → GroupsFit (after_all (opening first_seq first_file) notes) }
{}

/// The running jobs' numbers rise, and the next job's number is above them.
pub fn jobs_are_numbered()
    ensures { (first_seq first_file : ℕ) (notes : List Note)
        → JobsFit (after_all (opening first_seq first_file) notes) }
{}

/// The open questions' numbers rise, and the next question's number is above them.
pub fn questions_are_numbered()
    ensures { (first_seq first_file : ℕ) (notes : List Note) → IsLegal first_seq first_file notes
        → QuestionsFit (after_all (opening first_seq first_file) notes) }
{}

/// The file numbers that running jobs and loads have lie below the next one. Since each is given from the next
/// one on, none is given twice.
pub fn file_numbers_are_given_in_order()
    ensures { (first_seq first_file : ℕ) (notes : List Note) → IsLegal first_seq first_file notes
        → FilesFit (after_all (opening first_seq first_file) notes) }
{}

/// The current version has seven levels, each in its order.
pub fn levels_are_sorted()
    ensures { (first_seq first_file : ℕ) (notes : List Note)
        → LevelsFit (after_all (opening first_seq first_file) notes) }
{}

/// No number is taken twice.
pub fn numbers_are_taken_once()
    ensures { (first_seq first_file : ℕ) (notes : List Note) → IsLegal first_seq first_file notes
        → AreDistinct (after_all (opening first_seq first_file) notes).taken }
{}

/// Each number that was taken lies below the next one, and no running job and no open load has it.
pub fn taken_numbers_are_given_to_none()
    ensures { (first_seq first_file : ℕ) (notes : List Note) → IsLegal first_seq first_file notes
        → TakenFit (after_all (opening first_seq first_file) notes) }
{}

/// At most one flush runs, and it is of the oldest sealed group.
pub fn flushes_are_of_the_oldest()
    ensures { (first_seq first_file : ℕ) (notes : List Note) → IsLegal first_seq first_file notes
        → FlushesFit (after_all (opening first_seq first_file) notes) }
{}

/// No two tables of a level of the current version have the same number. Each number lies below the next one, and
/// no running job and no open load has it.
pub fn tables_are_numbered()
    ensures { (first_seq first_file : ℕ) (notes : List Note) → IsLegal first_seq first_file notes
        → TablesFit (after_all (opening first_seq first_file) notes) }
{}

/// A number at a level is always that of one table: a later version has no other one there under it.
pub fn numbers_tell_tables()
    ensures { (first_seq first_file : ℕ) (before between : List Note) (level : ℕ) (t u : Table) → IsLegal first_seq first_file (before ++ between)
        → Has (tables_of (after_all (opening first_seq first_file) before).current.levels level) t
        → Has (tables_of (after_all (opening first_seq first_file) (before ++ between)).current.levels level) u
        → t.num ≡ u.num → t ≡ u }
{}
