//! Worked scripts, each a function that does nothing.
ghost use Rattle.std.specs.Prelude.{◌∷◌, ◌++◌, [], true, false, Some, None, replicate, codes};
ghost use Rattle.xdb_key.specs.Bounds.{bounds};
ghost use Rattle.xdb_key.specs.declared.op.Op.TheVariants as op;
ghost use Rattle.xdb_plain.specs.Tables.{table_ops};
ghost use Rattle.xdb_plain.specs.declared.act.By.TheVariants.{Client, Db};
ghost use Rattle.xdb_plain.specs.declared.act.CommitForm.TheVariants as form;
ghost use Rattle.xdb_plain.specs.declared.act.StatusForm.TheVariants as status;
ghost use Rattle.xdb_plain.specs.declared.act.Which.TheVariants.{Auto, At};
ghost use Rattle.xdb_plain.specs.declared.act.ShowWhat.TheVariants as show;
ghost use Rattle.xdb_plain.specs.declared.question.Question.TheVariants.{Get, Scan, RScan, Move};
ghost use Rattle.xdb_plain.specs.declared.question.Step.TheVariants.{First, Last, Next, Prev, Seek, SeekLt};
ghost use Rattle.xdb_plain.specs.declared.script.Cmd.TheVariants as cmd;
ghost use Rattle.xdb_script.specs.Reading.{line_of};
ghost use Rattle.xdb_script.specs.Rows.{Refused, RefusedByWorkers, Reads, ReadByWorkers, text};
ghost use Rattle.xdb_script.specs.declared.error.Why.TheVariants as why;

/// Words are separated by one space, and none stands at an end.
pub fn bad_spaces()
    ensures alone { Refused (codes " ") 1 why.Spaces }
    ensures before { Refused (codes " c1 get a") 1 why.Spaces }
    ensures behind { Refused (codes "c1 get a ") 1 why.Spaces }
    ensures two { Refused (codes "c1  get a") 1 why.Spaces }
    ensures who_behind { Refused (codes "x  get a") 1 why.Spaces }
{}

/// Clients have the numbers from 1 to 16, without leading zeros; the owner doesn't speak among workers.
pub fn bad_who()
    ensures seventeen { Refused (codes "c17 put a 1") 1 why.Who }
    ensures zero { Refused (codes "c0 put a 1") 1 why.Who }
    ensures leading { Refused (codes "c01 put a 1") 1 why.Who }
    ensures owner { RefusedByWorkers (codes "db seal") 1 why.Who }
    ensures verb_behind { Refused (codes "x walk") 1 why.Who }
{}

/// Clients and the owner have verbs of their own; among workers no question is in parts.
pub fn bad_verb()
    ensures walk { Refused (codes "c1 walk a") 1 why.Verb }
    ensures missing { Refused (codes "c1") 1 why.Verb }
    ensures of_owner { Refused (codes "c1 seal") 1 why.Verb }
    ensures of_client { Refused (codes "db get a") 1 why.Verb }
    ensures begin { RefusedByWorkers (codes "c1 begin get a") 1 why.Verb }
    ensures settle { RefusedByWorkers (codes "c1 settle 1") 1 why.Verb }
{}

/// The number of words, fixed words and semicolons are tested before any word is read.
pub fn bad_shape()
    ensures put { Refused (codes "c1 put a") 1 why.Shape }
    ensures begin_nothing { Refused (codes "c1 begin") 1 why.Shape }
    ensures begin_put { Refused (codes "c1 begin put a 1") 1 why.Shape }
    ensures semicolon { Refused (codes "c1 batch set ; 1") 1 why.Shape }
    ensures semicolon_last { Refused (codes "c1 batch set a 1 ;") 1 why.Shape }
    ensures excise_one { Refused (codes "c1 load l1 excise a") 1 why.Shape }
    ensures excise_none { Refused (codes "c1 load l1 t excise") 1 why.Shape }
    ensures fixed { Refused (codes "c1 get a by s") 1 why.Shape }
    ensures odd { Refused (codes "c1 snap s a b c") 1 why.Shape }
    ensures level { Refused (codes "db compact 1") 1 why.Shape }
    ensures token_before { Refused (codes "c1 get %61 by s") 1 why.Shape }
{}

/// The first bad word from the left decides.
pub fn bad_words()
    ensures token { Refused (codes "c1 put %61 1") 1 why.Token }
    ensures upper { Refused (codes "c1 put %2A 1") 1 why.Token }
    ensures cut { Refused (codes "c1 put a %2") 1 why.Token }
    ensures quote { Refused (codes "c1 put a \"") 1 why.Token }
    ensures empty_key { Refused (codes "c1 put \"\" 1") 1 why.Length }
    ensures long_key { Refused (codes "c1 put " ++ replicate 1025 107 ++ codes " 1") 1 why.Length }
    ensures name { Refused (codes "c1 load excise a b") 1 why.Name }
    ensures fixed_name { Refused (codes "c1 drop at") 1 why.Name }
    ensures limit { Refused (codes "c1 scan a b 1001") 1 why.Number }
    ensures leading { Refused (codes "c1 scan a b 01") 1 why.Number }
    ensures zero { Refused (codes "c1 settle 0") 1 why.Number }
    ensures level { Refused (codes "db compact 7 a b") 1 why.Number }
    ensures first_left { Refused (codes "c1 scan %61 b 0") 1 why.Token }
    ensures first_right { Refused (codes "c1 snap S %61 b") 1 why.Name }
{}

/// What is tested behind all words: ranges, then tables, then their order.
pub fn bad_rules()
    ensures range { Refused (codes "c1 delspan b b") 1 why.Range }
    ensures excise { Refused (codes "c1 load l1 excise excise b") 1 why.Range }
    ensures table { Refused (codes "c1 load l1 t9") 1 why.Table }
    ensures order { Refused (codes "table t1 set b 1 ; set a 2") 1 why.Order }
    ensures same { Refused (codes "table t1 set a 1 ; del a") 1 why.Order }
{}

/// The first bad line is named, counted with empty lines and comments.
pub fn bad_line_among_others()
    ensures fifth { Refused (text (codes "c1 get a" ∷ codes "c2 put a x/1" ∷ [] ∷ codes "# n" ∷ []) ++ codes "c1 walk a") 5 why.Verb }
    ensures first { Refused (text (codes "c1 put a" ∷ codes "c17 put a 1" ∷ [])) 1 why.Shape }
    ensures below { Refused (text (codes "c1 load l1 t1" ∷ codes "table t1 set a 1" ∷ [])) 1 why.Table }
    ensures again { Refused (text (codes "table t1 set a 1" ∷ codes "table t1 set b 1" ∷ [])) 2 why.Table }
    ensures comment { Refused (text (codes "#" ∷ codes " #" ∷ [])) 2 why.Spaces }
{}

/// Empty lines and comments mean nothing.
pub fn nothing_said()
    ensures none { Reads [] [] }
    ensures empty_line { Reads (text ([] ∷ [])) [] }
    ensures comments { Reads (text (codes "#  x" ∷ [] ∷ codes "#" ∷ [])) [] }
{}

/// Lines are numbered among all lines; the last may lack its line feed.
pub fn counted_lines()
    ensures { Reads (text (codes "c1 get a" ∷ codes "c2 put a x/1" ∷ [] ∷ codes "# n" ∷ []) ++ codes "c1 get a") (line_of 1 (Some (Client 1)) (cmd.Ask (Get (codes "a") None) false) ∷ line_of 2 (Some (Client 2)) (cmd.Commit form.Put (op.Set (codes "a") (codes "x/1") ∷ [])) ∷ line_of 5 (Some (Client 1)) (cmd.Ask (Get (codes "a") None) false) ∷ []) }
{}

/// Commits of one operation and of several.
pub fn commits()
    ensures escaped { Reads (codes "c16 put %25%00 \"\"") (line_of 1 (Some (Client 16)) (cmd.Commit form.Put (op.Set (37 ∷ 0 ∷ []) [] ∷ [])) ∷ []) }
    ensures batch { Reads (codes "c1 batch set a 1 ; del b ; delspan c d") (line_of 1 (Some (Client 1)) (cmd.Commit form.Batch (op.Set (codes "a") (codes "1") ∷ op.Del (codes "b") ∷ op.DelSpan (bounds (codes "c") (codes "d")) ∷ [])) ∷ []) }
{}

/// Questions at a snapshot, in parts, and by a cursor.
pub fn questions()
    ensures scan { Reads (codes "c1 rscan a b 1000 at s1") (line_of 1 (Some (Client 1)) (cmd.Ask (RScan (bounds (codes "a") (codes "b")) 1000 (Some (codes "s1"))) false) ∷ []) }
    ensures begin { Reads (text (codes "c1 begin seek c k" ∷ codes "c1 settle 72057594037927935" ∷ [])) (line_of 1 (Some (Client 1)) (cmd.Ask (Move (codes "c") (Seek (codes "k"))) true) ∷ line_of 2 (Some (Client 1)) (cmd.Settle 72057594037927935) ∷ []) }
    ensures workers { ReadByWorkers (codes "c1 last c") (line_of 1 (Some (Client 1)) (cmd.Ask (Move (codes "c") Last) false) ∷ []) }
{}

/// A table, and loads with and without tables and a span.
pub fn loads()
    ensures tables { Reads (text (codes "table t1 delspan a b ; set a 1" ∷ codes "c1 load l1 t1 t1 excise a excise" ∷ [])) (line_of 1 None (cmd.Table (table_ops (codes "t1") (op.DelSpan (bounds (codes "a") (codes "b")) ∷ op.Set (codes "a") (codes "1") ∷ []))) ∷ line_of 2 (Some (Client 1)) (cmd.Load (codes "l1") (codes "t1" ∷ codes "t1" ∷ []) (Some (bounds (codes "a") (codes "excise")))) ∷ []) }
    ensures nothing { Reads (codes "c1 load l1") (line_of 1 (Some (Client 1)) (cmd.Load (codes "l1") [] None) ∷ []) }
{}

/// What the owner says.
pub fn of_owner()
    ensures { Reads (text (codes "db compact-take 6 a b" ∷ codes "db compact auto" ∷ codes "db put 1" ∷ codes "db show snaps" ∷ [])) (line_of 1 (Some Db) (cmd.CompactTake (At 6 (bounds (codes "a") (codes "b")))) ∷ line_of 2 (Some Db) (cmd.Compact Auto) ∷ line_of 3 (Some Db) (cmd.Put 1) ∷ line_of 4 (Some Db) (cmd.Show show.Snaps) ∷ []) }
{}

/// Snapshots and cursors.
pub fn snapshots()
    ensures { Reads (text (codes "c1 snap s a b c d" ∷ codes "c1 await s" ∷ codes "c1 cursor k a b at s" ∷ [])) (line_of 1 (Some (Client 1)) (cmd.Snap (codes "s") (bounds (codes "a") (codes "b") ∷ bounds (codes "c") (codes "d") ∷ [])) ∷ line_of 2 (Some (Client 1)) (cmd.Status (codes "s") status.Await) ∷ line_of 3 (Some (Client 1)) (cmd.Cursor (codes "k") (bounds (codes "a") (codes "b")) (Some (codes "s"))) ∷ []) }
{}

/// The verbs that no other row has.
pub fn other_verbs()
    ensures client { ReadByWorkers (text (codes "c3 del a" ∷ codes "c3 delspan a b" ∷ codes "c3 get a at s" ∷ codes "c3 scan a b 1" ∷ codes "c3 first c" ∷ codes "c3 next c" ∷ codes "c3 prev c" ∷ codes "c3 seeklt c k" ∷ [])) (line_of 1 (Some (Client 3)) (cmd.Commit form.Del (op.Del (codes "a") ∷ [])) ∷ line_of 2 (Some (Client 3)) (cmd.Commit form.DelSpan (op.DelSpan (bounds (codes "a") (codes "b")) ∷ [])) ∷ line_of 3 (Some (Client 3)) (cmd.Ask (Get (codes "a") (Some (codes "s"))) false) ∷ line_of 4 (Some (Client 3)) (cmd.Ask (Scan (bounds (codes "a") (codes "b")) 1 None) false) ∷ line_of 5 (Some (Client 3)) (cmd.Ask (Move (codes "c") First) false) ∷ line_of 6 (Some (Client 3)) (cmd.Ask (Move (codes "c") Next) false) ∷ line_of 7 (Some (Client 3)) (cmd.Ask (Move (codes "c") Prev) false) ∷ line_of 8 (Some (Client 3)) (cmd.Ask (Move (codes "c") (SeekLt (codes "k"))) false) ∷ []) }
    ensures names { ReadByWorkers (text (codes "c3 drop s" ∷ codes "c3 status s" ∷ codes "c3 shut k" ∷ codes "c3 install l" ∷ [])) (line_of 1 (Some (Client 3)) (cmd.Drop (codes "s")) ∷ line_of 2 (Some (Client 3)) (cmd.Status (codes "s") status.Status) ∷ line_of 3 (Some (Client 3)) (cmd.Shut (codes "k")) ∷ line_of 4 (Some (Client 3)) (cmd.Install (codes "l")) ∷ []) }
    ensures owner { Reads (text (codes "db seal" ∷ codes "db flush-take" ∷ codes "db build 7" ∷ codes "db work 7" ∷ codes "db flush" ∷ codes "db compact-take auto" ∷ codes "db compact 0 a b" ∷ codes "db reap" ∷ codes "db show levels" ∷ codes "db show counts" ∷ [])) (line_of 1 (Some Db) (cmd.Seal) ∷ line_of 2 (Some Db) (cmd.FlushTake) ∷ line_of 3 (Some Db) (cmd.Build 7) ∷ line_of 4 (Some Db) (cmd.Work 7) ∷ line_of 5 (Some Db) (cmd.Flush) ∷ line_of 6 (Some Db) (cmd.CompactTake Auto) ∷ line_of 7 (Some Db) (cmd.Compact (At 0 (bounds (codes "a") (codes "b")))) ∷ line_of 8 (Some Db) (cmd.Reap) ∷ line_of 9 (Some Db) (cmd.Show show.Levels) ∷ line_of 10 (Some Db) (cmd.Show show.Counts) ∷ []) }
{}
