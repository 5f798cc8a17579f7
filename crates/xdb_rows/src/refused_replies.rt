//! Replies that may not stand.
ghost use Rattle.std.specs.Prelude.{◌∷◌, [], take, false, None, codes};
ghost use Rattle.xdb_edit.specs.Changes.{changes};
ghost use Rattle.xdb_plain.specs.declared.act.Act.TheVariants.{Seal, FlushTake, Put, LoadOpen, Install, Snap, Status, Ask, Settle, Reap, Remove, Show};
ghost use Rattle.xdb_plain.specs.declared.act.By.TheVariants.{Client};
ghost use Rattle.xdb_plain.specs.declared.answer.Answer.TheVariants.{Value};
ghost use Rattle.xdb_plain.specs.declared.note.HoldNote.TheVariants.{Hold, Release};
ghost use Rattle.xdb_plain.specs.declared.question.Question.TheVariants.{Move};
ghost use Rattle.xdb_plain.specs.declared.question.Step.TheVariants.{Next};
ghost use Rattle.xdb_plain.specs.declared.act.ShowWhat.TheVariants as show;
ghost use Rattle.xdb_plain.specs.declared.act.StatusForm.TheVariants as status_form;
ghost use Rattle.xdb_plain.specs.declared.reply.Reply.TheVariants as reply;
ghost use Rattle.xdb_rows.specs.Notes.{note, c1, c2, db, holding, changing, trying, ask_held, ask_answered, from_to, from_upto, file_table, put, ask_refused, get, get_at, install, levels_0};
ghost use Rattle.xdb_rows.specs.Reads.{stored_run, question_in_parts};
ghost use Rattle.xdb_rows.specs.Flushes.{change_between_take_and_put, compaction_to_nothing};
ghost use Rattle.xdb_rows.specs.Snapshots.{file_only_survives_excise, snapshot_refused, too_many_snapshots, pinned_and_turned, cursor_over_excise};
ghost use Rattle.xdb_rows.specs.Loads.{fence_and_retry, a_and_c, only_b, a_to_c, load_waits, only_a, load_fails};
ghost use Rattle.xdb_rows.specs.Excises.{a_to_e, two_halves, whole_table_reaped, cancelled_compaction, excise_beside_hull};
ghost use Rattle.xdb_rows.specs.Judged.{MayNotStand, StandsNot};

/// An operation that touches an open load's fence is not done.
pub fn commit_inside_a_fence()
    ensures { MayNotStand (take 2 fence_and_retry) (c1 (put (codes "c") (codes "2")) reply.Done) }
{}

/// An operation beside the fence is not fenced.
pub fn fenced_beside_a_fence()
    ensures { MayNotStand (take 2 fence_and_retry) (c1 (put (codes "x") (codes "3")) (reply.Fenced (codes "l1"))) }
{}

/// Fenced names the load whose fence it is.
pub fn fenced_by_another_name()
    ensures { MayNotStand (take 2 fence_and_retry) (c1 (put (codes "c") (codes "2")) (reply.Fenced (codes "l2"))) }
{}

/// There are numbers left.
pub fn spent_too_early()
    ensures { MayNotStand [] (c1 (put (codes "a") (codes "1")) reply.Spent) }
{}

/// An empty group isn't sealed.
pub fn seal_of_nothing()
    ensures { MayNotStand [] (db Seal (reply.Group 1)) }
{}

/// The sealed group is the active one.
pub fn seal_under_the_next_number()
    ensures { MayNotStand (take 1 stored_run) (db Seal (reply.Group 2)) }
{}

/// One flush runs at a time.
pub fn second_flush()
    ensures { MayNotStand (take 3 change_between_take_and_put) (db FlushTake (reply.Job 2)) }
{}

/// Jobs are numbered in order.
pub fn job_under_another_number()
    ensures { MayNotStand (take 2 change_between_take_and_put) (db FlushTake (reply.Job 2)) }
{}

/// What isn't running isn't put.
pub fn put_of_no_job()
    ensures { MayNotStand (take 7 change_between_take_and_put) (db (Put 1) reply.NotYet) }
{}

/// A load waits for groups with operations in its fence.
pub fn install_over_unflushed()
    ensures { MayNotStand (take 4 fence_and_retry) (install (codes "l1") (changes [] [] [])) }
{}

/// It waits for the first such group.
pub fn waits_for_another_group()
    ensures { MayNotStand (take 4 fence_and_retry) (c1 (Install (codes "l1")) (reply.Waits 2)) }
{}

/// It doesn't wait once that group is flushed.
pub fn waits_for_nothing()
    ensures { MayNotStand (take 7 fence_and_retry) (c1 (Install (codes "l1")) (reply.Waits 1)) }
{}

/// A compaction whose hull met the span of a load isn't installed.
pub fn installs_though_cancelled()
    ensures { MayNotStand (take 7 cancelled_compaction) (holding (changing (db (Put 2) reply.Installed) (changes ((0, 1) ∷ []) (2 ∷ []) ((1, file_table 2 (from_upto (codes "a") (codes "d")) 1 2 90) ∷ []))) (Release 1 ∷ [])) }
{}

/// Cancelled names the load that did it.
pub fn cancelled_by_another()
    ensures { MayNotStand (take 7 cancelled_compaction) (holding (trying (db (Put 2) (reply.Cancelled (codes "l2"))) (2 ∷ [])) (Release 1 ∷ [])) }
{}

/// A span beside the hull cancels nothing.
pub fn cancelled_beside_the_hull()
    ensures { MayNotStand (take 10 excise_beside_hull) (holding (db (Put 2) (reply.Cancelled (codes "l2"))) (Release 1 ∷ [])) }
{}

/// A snapshot is pinned while a group touches its ranges below its mark.
pub fn turns_too_early()
    ensures { MayNotStand (take 3 pinned_and_turned) (c1 (Status (codes "s1") status_form.Status) reply.FileOnly) }
{}

/// It is pinned by the last such group.
pub fn pinned_by_another_group()
    ensures { MayNotStand (take 6 snapshot_refused) (c1 (Snap (codes "s1") (from_to (codes "a") (codes "c") ∷ from_to (codes "p") (codes "t") ∷ [])) (reply.Pinned 1)) }
{}

/// It is file-only once its last such group is flushed.
pub fn stays_pinned()
    ensures { MayNotStand (take 6 pinned_and_turned) (c1 (Status (codes "s1") status_form.Status) (reply.Pinned 1)) }
{}

/// A snapshot that was excised stays so.
pub fn file_only_though_excised()
    ensures { MayNotStand (take 9 snapshot_refused) (c1 (Status (codes "s1") status_form.Status) reply.FileOnly) }
{}

/// An excise doesn't refuse a snapshot that was file-only.
pub fn excised_though_file_only()
    ensures { MayNotStand (take 7 file_only_survives_excise) (ask_refused (get_at (codes "b") (codes "s1")) (reply.Excised (codes "l1"))) }
{}

/// No read goes through a snapshot that was excised.
pub fn read_though_excised()
    ensures { MayNotStand (take 9 snapshot_refused) (ask_held 1 (get_at (codes "q") (codes "s1")) false (Hold 1 2)) }
{}

/// No read goes beside the ranges of a snapshot.
pub fn read_outside()
    ensures { MayNotStand (take 5 file_only_survives_excise) (ask_held 1 (get_at (codes "z") (codes "s1")) false (Hold 2 1)) }
{}

/// With 63 snapshots there is room for one more.
pub fn too_many_at_63()
    ensures { MayNotStand (take 63 (too_many_snapshots 63)) (c1 (Snap (codes "last") (from_to (codes "a") (codes "m") ∷ [])) reply.TooMany) }
{}

/// With 64 there isn't.
pub fn one_more_than_64()
    ensures { MayNotStand (take 64 (too_many_snapshots 64)) (holding (c1 (Snap (codes "last") (from_to (codes "a") (codes "m") ∷ [])) reply.FileOnly) (Hold 65 0 ∷ [])) }
{}

/// A cursor answers one question at a time.
pub fn question_on_a_busy_cursor()
    ensures { MayNotStand (take 8 cursor_over_excise) (ask_held 2 (Move (codes "k") Next) false (Hold 3 1)) }
{}

/// Questions are numbered in order.
pub fn question_under_another_number()
    ensures { MayNotStand (take 1 stored_run) (ask_held 2 (get (codes "a")) false (Hold 1 0)) }
{}

/// A refused question has the number 0.
pub fn refused_ask_with_a_number()
    ensures { MayNotStand [] (c1 (Ask 1 (get_at (codes "a") (codes "s9")) false) reply.NoSuch) }
{}

/// A question has one answer. No second one is that which is kept, so this alone is judged: that it stands nowhere.
pub fn settled_twice()
    ensures { StandsNot (take 5 question_in_parts) (c1 (Settle 1) (reply.Answered (Value (codes "1")))) }
{}

/// It isn't waited for once it has its answer.
pub fn waits_after_its_answer()
    ensures { MayNotStand (take 5 question_in_parts) (c1 (Settle 1) reply.NotYet) }
{}

/// An answer belongs to the question that was asked.
pub fn answer_to_another_question()
    ensures { MayNotStand (take 2 stored_run) (ask_answered 1 (get (codes "b")) 1 (reply.Answered (Value (codes "1")))) }
{}

/// The first pair is named in its order.
pub fn overlap_the_other_way()
    ensures { MayNotStand [] (c1 (LoadOpen (codes "l1") (a_and_c ∷ only_b ∷ []) None) (reply.Overlap (codes "t2") (codes "t1"))) }
{}

/// An opening is ended by the client who began it.
pub fn opening_ended_by_another()
    ensures { MayNotStand (take 1 load_fails) (c2 (LoadOpen (codes "l1") (only_a ∷ []) None) reply.Opened) }
{}

/// A load's name is in use until its opening fails.
pub fn opened_twice()
    ensures { MayNotStand (take 2 load_waits) (c1 (LoadOpen (codes "l1") (a_to_c ∷ []) None) reply.Opening) }
{}

/// A dead number is taken.
pub fn never_dead()
    ensures { MayNotStand (take 7 whole_table_reaped) (db Reap reply.Nothing) }
{}

/// A file that a cursor's version stands on isn't dead.
pub fn live_number_taken()
    ensures { MayNotStand (take 12 cursor_over_excise) (db Reap (reply.Took 1)) }
{}

/// The least dead number is taken first.
pub fn greatest_number_taken()
    ensures { MayNotStand (take 15 compaction_to_nothing) (db Reap (reply.Took 2)) }
{}

/// A number is taken once.
pub fn taken_twice()
    ensures { MayNotStand (take 8 whole_table_reaped) (db Reap (reply.Took 1)) }
{}

/// Only what was taken is removed.
pub fn removal_of_a_live_file()
    ensures { MayNotStand (take 4 whole_table_reaped) (db (Remove 1) reply.Stuck) }
{}

/// Two halves count twice.
pub fn count_once_per_version()
    ensures { MayNotStand (take 7 two_halves) (db (Show show.Counts) (reply.Counts ((1, 1) ∷ []))) }
{}

/// What is shown is the current version.
pub fn levels_of_the_version_before()
    ensures { MayNotStand (take 6 two_halves) (db (Show show.Levels) (reply.Levels (levels_0 (a_to_e ∷ [])))) }
{}

/// There are 16 clients.
pub fn client_17()
    ensures { MayNotStand [] (note (Client 17) (put (codes "a") (codes "1")) reply.Done) }
{}

/// Commits are made by clients.
pub fn commit_by_the_owner()
    ensures { MayNotStand [] (db (put (codes "a") (codes "1")) reply.Done) }
{}
