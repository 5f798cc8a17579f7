//! A read through a snapshot is refused only where an excise that meets its ranges was installed while the
//! snapshot was pinned.
ghost use Rattle.std.specs.Prelude.{◌≡◌, ◌⊎◌, ℕ, Bool, List, true, Option, Some, None};
ghost use Rattle.std.specs.List.{list_any, AllByRecursion};
ghost use Rattle.xdb_key.specs.Bounds.{Bounds, covers};
ghost use Rattle.xdb_rangedel.specs.Members.{Has};
ghost use Rattle.xdb_plain.specs.Changes.{after};
ghost use Rattle.xdb_plain.specs.Outcomes.{outcome};
ghost use Rattle.xdb_plain.specs.Legal.{IsLegal, after_all};
ghost use Rattle.xdb_plain.specs.State.{Plain, Snapshot, opening, found_snap, found_question};
ghost use Rattle.xdb_plain.specs.Steps.{MayStand};
ghost use Rattle.xdb_plain.specs.declared.act.Act.TheVariants as act;
ghost use Rattle.xdb_plain.specs.declared.note.Note.{Note};
ghost use Rattle.xdb_plain.specs.declared.question.Question.{Question};
ghost use Rattle.xdb_model.specs.Progress.{GoesOn};
ghost use Rattle.xdb_model.specs.Refusals.{snap_of, lies_in, IsReadReply, IsCursorReply, drops, Explained};

/// A question that is asked through an open snapshot, inside one of its ranges, is opened, or memory is
/// wanting, or 64 questions are open, or the snapshot is excised.
pub fn reads_are_seldom_refused()
    ensures { (p : Plain) (note : Note) (ask : ℕ) (question : Question) (parted : Bool) (name : List ℕ) (s : Snapshot)
        → MayStand p note → note.act ≡ act.Ask ask question parted → found_question ask p.questions ≡ None
        → snap_of question ≡ Some name → found_snap name p.snaps ≡ Some s → list_any (lies_in question) s.ranges ≡ true
        → IsReadReply p s.state note.reply }
{}

/// A cursor over a range of an open snapshot is opened, or its name is in use, or memory is wanting, or 64
/// cursors are open, or the snapshot is excised.
pub fn cursors_are_seldom_refused()
    ensures { (p : Plain) (note : Note) (cursor : List ℕ) (range : Bounds) (name : List ℕ) (s : Snapshot)
        → MayStand p note → note.act ≡ act.Cursor cursor range (Some name)
        → found_snap name p.snaps ≡ Some s → list_any (λ r. covers r range) s.ranges ≡ true
        → IsCursorReply p cursor s.state note.reply }
{}

/// In every legal history each open snapshot that is excised was pinned when a load was installed whose span
/// meets one of its ranges.
pub fn refusals_are_explained()
    ensures { (first_seq first_file : ℕ) (notes : List Note) → IsLegal first_seq first_file notes
        → AllByRecursion (Explained (opening first_seq first_file) notes) (after_all (opening first_seq first_file) notes).snaps }
{}

/// An open snapshot is dropped by a note, or goes on: a pinned one may stay so by the same group, turn file-only
/// or be excised, and every other one stays as it is.
pub fn states_go_one_way()
    ensures { (p : Plain) (note : Note) (s : Snapshot) → Has p.snaps s
        → (drops s.name note.act (outcome note.reply) ≡ true) ⊎ GoesOn s (after p note).snaps }
{}
