//! File numbers are reserved in order, files have only such numbers, and what is removed was taken.
ghost use Rattle.std.specs.Prelude.{◌≡◌, ◌∷◌, ◌++◌, [], ◌≤◌, ◌<◌, ◌==◌, ℕ, List, Some, None, length, not, filter, true, false};
ghost use Rattle.std.specs.List.{range_with_len, AllByRecursion};
ghost use Rattle.xdb_rangedel.specs.Members.{Has};
ghost use Rattle.xdb_plain.specs.Changes.{new_files};
ghost use Rattle.xdb_plain.specs.Counts.{backings, is_among, job_numbers};
ghost use Rattle.xdb_plain.specs.Legal.{IsLegal, after_all};
ghost use Rattle.xdb_plain.specs.Removals.{took, taken_in, left_by, left_in, removed_in};
ghost use Rattle.xdb_plain.specs.Reservations.{reserved_by, reserved_in};
ghost use Rattle.xdb_plain.specs.State.{Plain, opening};
ghost use Rattle.xdb_plain.specs.Steps.{MayStand};
ghost use Rattle.xdb_plain.specs.declared.act.Act.TheVariants as act;
ghost use Rattle.xdb_plain.specs.declared.note.Note.{Note};
ghost use Rattle.xdb_plain.specs.declared.reply.Reply.TheVariants as reply;
ghost use Rattle.xdb_model.specs.Counted.{standing};
ghost use Rattle.xdb_model.specs.Numbered.{AreDistinct};
ghost use Rattle.xdb_model.specs.Reserved.{RiseWithin, AreReserved};

/// A note adds the numbers that it reserves to those that the notes before it reserved.
pub fn reservations_go_on()
    ensures { (p : Plain) (notes : List Note) (note : Note)
        → reserved_in p (notes ++ note ∷ []) ≡ reserved_in p notes ++ reserved_by (after_all p notes) note }
{}

/// The numbers that notes reserve rise strictly from the next one on, so none is reserved twice, and the next number
/// behind the notes is above them.
pub fn numbers_are_reserved_once()
    ensures rise { (p : Plain) (notes : List Note) → RiseWithin p.file (after_all p notes).file (reserved_in p notes) }
    ensures within { (p : Plain) (notes : List Note)
        → AllByRecursion (λ n. (p.file ≤ n) × (n < (after_all p notes).file)) (reserved_in p notes) }
    ensures once { (p : Plain) (notes : List Note) → AreDistinct (reserved_in p notes) }
{}

/// The numbers that running jobs and loads have were reserved, and so was each number that is known or was taken, and
/// each that a table of a version in use stands on. What a note makes or tries was reserved before it. Halves of
/// tables have numbers that aren't reserved: they have no files.
pub fn numbers_of_files_were_reserved()
    ensures jobs { (first_seq first_file : ℕ) (notes : List Note) → IsLegal first_seq first_file notes
        → AllByRecursion (λ j. AreReserved (opening first_seq first_file) notes (range_with_len j.first (job_numbers j.kind)))
        (after_all (opening first_seq first_file) notes).jobs }
    ensures loads { (first_seq first_file : ℕ) (notes : List Note) → IsLegal first_seq first_file notes
        → AllByRecursion (λ l. AreReserved (opening first_seq first_file) notes (range_with_len l.first (length l.tables)))
        (after_all (opening first_seq first_file) notes).loads }
    ensures known { (first_seq first_file : ℕ) (notes : List Note) → IsLegal first_seq first_file notes
        → AreReserved (opening first_seq first_file) notes (after_all (opening first_seq first_file) notes).known }
    ensures taken { (first_seq first_file : ℕ) (notes : List Note) → IsLegal first_seq first_file notes
        → AreReserved (opening first_seq first_file) notes (after_all (opening first_seq first_file) notes).taken }
    ensures tables { (first_seq first_file : ℕ) (notes : List Note) → IsLegal first_seq first_file notes
        → AllByRecursion (λ v. AreReserved (opening first_seq first_file) notes (backings v))
        (standing (after_all (opening first_seq first_file) notes)) }
    ensures made { (first_seq first_file : ℕ) (before : List Note) (note : Note) (later : List Note)
        → IsLegal first_seq first_file (before ++ note ∷ later)
        → AreReserved (opening first_seq first_file) before (new_files note.edit) }
    ensures tried { (first_seq first_file : ℕ) (before : List Note) (note : Note) (later : List Note)
        → IsLegal first_seq first_file (before ++ note ∷ later)
        → AreReserved (opening first_seq first_file) before note.tried }
{}

/// A number that is taken is the last of those that were removed, unless its removal failed. Where the failure is
/// told right behind, the others are as before; where it is told later, the number is no longer among them.
pub fn removals_go_on()
    ensures stays { (notes : List Note) (note : Note) → took note.reply ≡ None → left_by note.act ≡ None
        → removed_in (notes ++ note ∷ []) ≡ removed_in notes }
    ensures takes { (notes : List Note) (note : Note) (num : ℕ)
        → took note.reply ≡ Some num → left_by note.act ≡ None → is_among num (left_in notes) ≡ false
        → removed_in (notes ++ note ∷ []) ≡ removed_in notes ++ num ∷ [] }
    ensures leaves { (notes : List Note) (taking removing : Note) (num : ℕ)
        → took taking.reply ≡ Some num → left_by taking.act ≡ None
        → took removing.reply ≡ None → left_by removing.act ≡ Some num → is_among num (taken_in notes) ≡ false
        → removed_in ((notes ++ taking ∷ []) ++ removing ∷ []) ≡ removed_in notes }
    ensures leaves_later { (notes : List Note) (note : Note) (num : ℕ)
        → took note.reply ≡ None → left_by note.act ≡ Some num
        → removed_in (notes ++ note ∷ []) ≡ filter (λ n. not (n == num)) (removed_in notes) }
{}

/// In a legal history the number that a note takes was neither taken nor left before, and a removal that failed is of
/// a number that was taken.
pub fn removals_are_of_taken_files()
    ensures taking { (first_seq first_file : ℕ) (notes : List Note) (note : Note) (num : ℕ)
        → IsLegal first_seq first_file notes → MayStand (after_all (opening first_seq first_file) notes) note
        → note.reply ≡ reply.Took num
        → (left_by note.act ≡ None) × (is_among num (taken_in notes) ≡ false) × (is_among num (left_in notes) ≡ false) }
    ensures removing { (p : Plain) (note : Note) (num : ℕ) → MayStand p note → note.act ≡ act.Remove num
        → (took note.reply ≡ None) × (is_among num p.taken ≡ true) }
    ensures left { (first_seq first_file : ℕ) (notes : List Note) → IsLegal first_seq first_file notes
        → AllByRecursion (Has (taken_in notes)) (left_in notes) }
{}

/// Each file that was removed was taken, and isn't told to be left. The state has all that were taken, and in a legal
/// history none is removed twice.
pub fn removed_files_were_taken()
    ensures taken { (notes : List Note) → AllByRecursion (Has (taken_in notes)) (removed_in notes) }
    ensures not_left { (notes : List Note) → AllByRecursion (λ num. is_among num (left_in notes) ≡ false) (removed_in notes) }
    ensures state { (p : Plain) (notes : List Note) → (after_all p notes).taken ≡ p.taken ++ taken_in notes }
    ensures once { (first_seq first_file : ℕ) (notes : List Note) → IsLegal first_seq first_file notes → AreDistinct (removed_in notes) }
{}
