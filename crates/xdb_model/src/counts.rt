//! What is held is in use, and what is in use is counted.
ghost use Rattle.std.specs.Prelude.{◌≡◌, ℕ, List};
ghost use Rattle.std.specs.List.{AllByRecursion};
ghost use Rattle.xdb_rangedel.specs.Members.{Has};
ghost use Rattle.xdb_plain.specs.Counts.{backings, count};
ghost use Rattle.xdb_plain.specs.Legal.{IsLegal, after_all};
ghost use Rattle.xdb_plain.specs.State.{Plain, Version, Hold, opening};
ghost use Rattle.xdb_plain.specs.declared.note.Note.{Note};
ghost use Rattle.xdb_model.specs.Counted.{IsReferenced, IsCounted, standing, WasCurrent};

/// Each hold is of a version that is in use.
pub fn holds_are_of_versions_in_use()
    ensures { (p : Plain) (h : Hold) → Has p.holds h → IsReferenced p h.version.num }
{}

/// Each file that a table of the current version stands on has a count.
pub fn current_files_are_counted()
    ensures { (p : Plain) (backing : ℕ) → Has (backings p.current) backing → IsCounted p backing }
{}

/// Each version that is held was the current one at some place of the history, so what holds of every current
/// version holds of it.
pub fn held_versions_were_current()
    ensures { (first_seq first_file : ℕ) (notes : List Note)
        → AllByRecursion (λ h. WasCurrent (opening first_seq first_file) notes h.version) (after_all (opening first_seq first_file) notes).holds }
{}

/// Versions in use that have one number are one.
pub fn versions_are_told_by_number()
    ensures { (first_seq first_file : ℕ) (notes : List Note) (v w : Version)
        → Has (standing (after_all (opening first_seq first_file) notes)) v → Has (standing (after_all (opening first_seq first_file) notes)) w
        → v.num ≡ w.num → v ≡ w }
{}

/// The count of a number that was taken is 0, then and later: no version in use stands on the file.
pub fn taken_files_have_no_count()
    ensures { (first_seq first_file : ℕ) (notes : List Note) → IsLegal first_seq first_file notes
        → AllByRecursion (λ n. count (after_all (opening first_seq first_file) notes) n ≡ 0) (after_all (opening first_seq first_file) notes).taken }
{}
