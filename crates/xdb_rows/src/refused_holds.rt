//! Holds that are told wrong, and an answer that isn't kept.
ghost use Rattle.std.specs.Prelude.{◌∷◌, [], take, true, false, codes};
ghost use Rattle.xdb_plain.specs.declared.act.Act.TheVariants.{Put, Snap, Drop, Settle};
ghost use Rattle.xdb_plain.specs.declared.answer.Answer.TheVariants.{Value};
ghost use Rattle.xdb_plain.specs.declared.note.HoldNote.TheVariants.{Hold};
ghost use Rattle.xdb_plain.specs.declared.question.Question.TheVariants.{Move};
ghost use Rattle.xdb_plain.specs.declared.question.Step.TheVariants.{First};
ghost use Rattle.xdb_plain.specs.declared.reply.Reply.TheVariants as reply;
ghost use Rattle.xdb_rows.specs.Notes.{c1, db, holding, trying, from_to, ask_held, get, get_at, let_go, table_of_key, put_flush};
ghost use Rattle.xdb_rows.specs.Reads.{question_in_parts};
ghost use Rattle.xdb_rows.specs.Snapshots.{file_only_survives_excise, turns_before_install, pinned_and_turned, cursor_over_excise};
ghost use Rattle.xdb_rows.specs.Excises.{cancelled_compaction};
ghost use Rattle.xdb_rows.specs.Judged.{TellsWrongHolds, AnswersWrong};

/// A snapshot that is file-only holds its version.
pub fn file_only_without_hold()
    ensures { TellsWrongHolds (take 4 file_only_survives_excise) (c1 (Snap (codes "s1") (from_to (codes "a") (codes "m") ∷ [])) reply.FileOnly) }
{}

/// A pinned one holds none.
pub fn pinned_with_hold()
    ensures { TellsWrongHolds (take 1 turns_before_install) (holding (c1 (Snap (codes "s1") (from_to (codes "a") (codes "m") ∷ [])) (reply.Pinned 1)) (Hold 1 0 ∷ [])) }
{}

/// A snapshot that turns takes its hold.
pub fn turning_without_hold()
    ensures { TellsWrongHolds (take 5 turns_before_install) (put_flush 1 (table_of_key 1 (codes "b") 1)) }
{}

/// It holds the version that the flush leads to.
pub fn hold_of_the_version_before()
    ensures { TellsWrongHolds (take 5 turns_before_install) (holding (put_flush 1 (table_of_key 1 (codes "b") 1)) (Hold 1 0 ∷ [])) }
{}

/// A read through a snapshot holds the snapshot's version.
pub fn hold_of_the_current_version()
    ensures { TellsWrongHolds (take 7 file_only_survives_excise) (ask_held 1 (get_at (codes "b") (codes "s1")) false (Hold 2 2)) }
{}

/// A move holds its cursor's version.
pub fn move_of_the_current_version()
    ensures { TellsWrongHolds (take 7 cursor_over_excise) (ask_held 1 (Move (codes "k") First) true (Hold 2 2)) }
{}

/// A snapshot that is dropped lets go.
pub fn drop_without_release()
    ensures { TellsWrongHolds (take 11 pinned_and_turned) (c1 (Drop (codes "s1")) reply.Dropped) }
{}

/// It lets go of its own hold.
pub fn release_of_another()
    ensures { TellsWrongHolds (take 8 pinned_and_turned) (let_go (Drop (codes "s1")) reply.Dropped 2) }
{}

/// A compaction that is cancelled lets go.
pub fn cancelled_without_release()
    ensures { TellsWrongHolds (take 7 cancelled_compaction) (trying (db (Put 2) (reply.Cancelled (codes "l1"))) (2 ∷ [])) }
{}

/// Holds have numbers of their own.
pub fn hold_under_a_number_in_use()
    ensures { TellsWrongHolds (take 5 cursor_over_excise) (ask_held 1 (get (codes "b")) false (Hold 1 1)) }
{}

/// The answer is that of the asking.
pub fn answer_at_settle()
    ensures { AnswersWrong (take 4 question_in_parts) (let_go (Settle 1) (reply.Answered (Value (codes "2"))) 1) }
{}
