//! Edits and tried numbers that may not stand.
ghost use Rattle.std.specs.Prelude.{◌∷◌, [], take, codes};
ghost use Rattle.xdb_key.specs.Bounds.{successor};
ghost use Rattle.xdb_edit.specs.Changes.{changes};
ghost use Rattle.xdb_plain.specs.declared.act.Act.TheVariants.{Seal, Put, Install};
ghost use Rattle.xdb_plain.specs.declared.note.HoldNote.TheVariants.{Release};
ghost use Rattle.xdb_plain.specs.declared.reply.Reply.TheVariants as reply;
ghost use Rattle.xdb_rows.specs.Notes.{c1, db, holding, changing, trying, ask_answered, from_to, from_upto, file_table, loaded_table, half_of, get, table_of_key, put_flush, install};
ghost use Rattle.xdb_rows.specs.Reads.{stored_run};
ghost use Rattle.xdb_rows.specs.Flushes.{change_between_take_and_put, compaction_to_nothing};
ghost use Rattle.xdb_rows.specs.Loads.{load_waits};
ghost use Rattle.xdb_rows.specs.Excises.{a_to_e, left_of_five, two_halves, cancelled_compaction, a_to_b, excise_beside_hull, loaded_m, half_b, half_a_m, half_n_z, tombstone_clipped};
ghost use Rattle.xdb_rows.specs.Judged.{MayNotStand};

/// What is installed has an edit.
pub fn install_without_an_edit()
    ensures { MayNotStand (take 5 two_halves) (c1 (Install (codes "l1")) reply.Installed) }
{}

/// Nothing else has one.
pub fn edit_without_an_install()
    ensures { MayNotStand (take 1 stored_run) (changing (db Seal (reply.Group 1)) (changes [] [] [])) }
{}

/// Each table that the span meets goes.
pub fn crossed_table_left_in()
    ensures { MayNotStand (take 5 two_halves) (install (codes "l1") (changes [] [] [])) }
{}

/// No other table goes.
pub fn table_beside_the_span_removed()
    ensures { MayNotStand (take 9 excise_beside_hull) (install (codes "l2") (changes ((0, 2) ∷ (6, 1) ∷ []) [] [])) }
{}

/// Halves have the next file numbers.
pub fn half_under_another_number()
    ensures { MayNotStand (take 5 two_halves) (install (codes "l1") (changes ((0, 1) ∷ []) [] ((0, half_of a_to_e 3 (from_upto (codes "a") (codes "a"))) ∷ []))) }
{}

/// A half stands on its table's file.
pub fn half_over_another_backing()
    ensures { MayNotStand (take 5 two_halves) (install (codes "l1") (changes ((0, 1) ∷ []) [] ((0, record left_of_five { backing = 9 }) ∷ []))) }
{}

/// A half stands in its table's level.
pub fn half_in_another_level()
    ensures { MayNotStand (take 5 two_halves) (install (codes "l1") (changes ((0, 1) ∷ []) [] ((1, left_of_five) ∷ []))) }
{}

/// A half lies beside the span.
pub fn half_into_the_span()
    ensures { MayNotStand (take 5 two_halves) (install (codes "l1") (changes ((0, 1) ∷ []) [] ((0, half_of a_to_e 2 (from_to (codes "a") (codes "c"))) ∷ []))) }
{}

/// A half lies in its table's bounds.
pub fn half_beyond_its_table()
    ensures { MayNotStand (take 5 two_halves) (install (codes "l1") (changes ((0, 1) ∷ []) [] ((0, half_of a_to_e 2 (from_to (codes "d") (codes "x"))) ∷ []))) }
{}

/// A half has half the size.
pub fn half_of_the_whole_size()
    ensures { MayNotStand (take 5 two_halves) (install (codes "l1") (changes ((0, 1) ∷ []) [] ((0, record left_of_five { size = 120 }) ∷ []))) }
{}

/// A half has its table's sequence numbers.
pub fn half_with_other_numbers()
    ensures { MayNotStand (take 5 two_halves) (install (codes "l1") (changes ((0, 1) ∷ []) [] ((0, record left_of_five { seq_hi = 4 }) ∷ []))) }
{}

/// The left half comes first.
pub fn right_half_first()
    ensures { MayNotStand (take 5 two_halves) (install (codes "l1") (changes ((0, 1) ∷ []) [] ((0, half_of a_to_e 2 (from_to (codes "d") (successor (codes "e")))) ∷ (0, half_of a_to_e 3 (from_upto (codes "a") (codes "a"))) ∷ []))) }
{}

/// A table has at most two halves.
pub fn three_parts()
    ensures { MayNotStand (take 5 two_halves) (install (codes "l1") (changes ((0, 1) ∷ []) [] ((0, half_of a_to_e 2 (from_upto (codes "a") (codes "a"))) ∷ (0, half_of a_to_e 3 (from_to (codes "d") (codes "e"))) ∷ (0, half_of a_to_e 4 (from_upto (codes "e") (codes "e"))) ∷ []))) }
{}

/// A loaded table goes as far down as it can.
pub fn loaded_table_too_high()
    ensures { MayNotStand (take 10 tombstone_clipped) (install (codes "l1") (changes ((0, 1) ∷ (0, 2) ∷ []) (3 ∷ []) ((0, half_b) ∷ (0, half_a_m) ∷ (0, half_n_z) ∷ (5, loaded_m) ∷ []))) }
{}

/// It goes on top of what it meets.
pub fn loaded_table_too_deep()
    ensures { MayNotStand (take 7 load_waits) (install (codes "l1") (changes [] (1 ∷ []) ((6, loaded_table 1 (from_upto (codes "a") (codes "c")) 2 90) ∷ []))) }
{}

/// It has the next sequence number.
pub fn loaded_table_with_another_number()
    ensures { MayNotStand (take 10 tombstone_clipped) (install (codes "l1") (changes ((0, 1) ∷ (0, 2) ∷ []) (3 ∷ []) ((0, half_b) ∷ (0, half_a_m) ∷ (0, half_n_z) ∷ (6, record loaded_m { seq_lo = 5; seq_hi = 5; synthetic = 5 }) ∷ []))) }
{}

/// It has that number for all that it holds.
pub fn loaded_table_without_its_number()
    ensures { MayNotStand (take 10 tombstone_clipped) (install (codes "l1") (changes ((0, 1) ∷ (0, 2) ∷ []) (3 ∷ []) ((0, half_b) ∷ (0, half_a_m) ∷ (0, half_n_z) ∷ (6, record loaded_m { synthetic = 0 }) ∷ []))) }
{}

/// Each table of a load comes in.
pub fn loaded_table_left_out()
    ensures { MayNotStand (take 10 tombstone_clipped) (install (codes "l1") (changes ((0, 1) ∷ (0, 2) ∷ []) (3 ∷ []) ((0, half_b) ∷ (0, half_a_m) ∷ (0, half_n_z) ∷ []))) }
{}

/// A flush has the file number that its job has.
pub fn flush_under_another_number()
    ensures { MayNotStand (take 6 change_between_take_and_put) (put_flush 1 (table_of_key 2 (codes "a") 1)) }
{}

/// A flush goes into L0.
pub fn flush_into_another_level()
    ensures { MayNotStand (take 6 change_between_take_and_put) (changing (db (Put 1) reply.Installed) (changes [] (1 ∷ []) ((1, table_of_key 1 (codes "a") 1) ∷ []))) }
{}

/// A flush adds one table.
pub fn flush_of_nothing()
    ensures { MayNotStand (take 6 change_between_take_and_put) (changing (db (Put 1) reply.Installed) (changes [] (1 ∷ []) [])) }
{}

/// A compaction removes all its inputs.
pub fn input_left_in()
    ensures { MayNotStand (take 11 compaction_to_nothing) (holding (changing (db (Put 3) reply.Installed) (changes ((0, 1) ∷ []) [] [])) (Release 1 ∷ [])) }
{}

/// What it adds lies in its hull.
pub fn output_outside_the_hull()
    ensures { MayNotStand (take 10 excise_beside_hull) (holding (changing (db (Put 2) reply.Installed) (changes ((0, 2) ∷ []) (3 ∷ []) ((1, file_table 3 (from_upto (codes "a") (codes "c")) 2 3 90) ∷ []))) (Release 1 ∷ [])) }
{}

/// What it adds stands in the next level.
pub fn output_in_the_same_level()
    ensures { MayNotStand (take 10 excise_beside_hull) (holding (changing (db (Put 2) reply.Installed) (changes ((0, 2) ∷ []) (3 ∷ []) ((0, a_to_b 3) ∷ []))) (Release 1 ∷ [])) }
{}

/// It uses its numbers from the first on.
pub fn output_under_a_later_number()
    ensures { MayNotStand (take 10 excise_beside_hull) (holding (changing (db (Put 2) reply.Installed) (changes ((0, 2) ∷ []) (4 ∷ []) ((1, a_to_b 4) ∷ []))) (Release 1 ∷ [])) }
{}

/// What a job tried is among the numbers that it had.
pub fn tried_beyond_its_numbers()
    ensures { MayNotStand (take 7 cancelled_compaction) (holding (trying (db (Put 2) (reply.Cancelled (codes "l1"))) (66 ∷ [])) (Release 1 ∷ [])) }
{}

/// Tried numbers rise.
pub fn tried_falling()
    ensures { MayNotStand (take 7 cancelled_compaction) (holding (trying (db (Put 2) (reply.Cancelled (codes "l1"))) (3 ∷ 2 ∷ [])) (Release 1 ∷ [])) }
{}

/// Nothing else tries a number.
pub fn tried_in_a_read()
    ensures { MayNotStand (take 2 stored_run) (trying (ask_answered 1 (get (codes "a")) 1 reply.Fault) (1 ∷ [])) }
{}
