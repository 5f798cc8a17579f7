//! Content that is written anew, as in the files of tables.
ghost use Rattle.std.specs.Prelude.{◌≡◌, ℕ, ◌++◌, List, map, IsTrue};
ghost use Rattle.xdb_key.specs.Bounds.{Bounds};
ghost use Rattle.xdb_rangedel.specs.Content.{Item, IsClear, newest, entries_in, spans_in, span};
ghost use Rattle.xdb_rangedel.specs.Members.{Has, SameMembers};
ghost use Rattle.xdb_rangedel.specs.Pieces.{cut_all};
ghost use Rattle.xdb_rangedel.specs.View.{view, lies_in};
ghost use Rattle.xdb_laws.specs.Ordered.{joined};
ghost use Rattle.xdb_laws.specs.Rewrite.{IsRewrite, AreRewrites};

/// Clear content says the same once it is written anew, and so it does when that is written anew.
pub fn rewrites_say_the_same()
    ensures says { (old new : List Item) (limit : ℕ) (k : List ℕ) → IsClear old → IsRewrite old new
        → newest new limit k ≡ newest old limit k }
    ensures again { (a b c : List Item) → IsRewrite a b → IsRewrite b c → IsRewrite a c }
{}

/// Content is written anew where it keeps its members, where its spans are cut at some bounds,
/// where bounds that it lies in are put to it, and where each of its parts is written anew.
pub fn members_are_written_anew()
    ensures same { (c d : List Item) → SameMembers d c → IsRewrite c d }
    ensures cut { (c d : List Item) (ats : List (List ℕ))
        → SameMembers d (entries_in c ++ map span (cut_all ats (spans_in c))) → IsRewrite c d }
    ensures shown { (c : List Item) (r : Bounds) → ((i : Item) → Has c i → IsTrue (lies_in r i))
        → IsRewrite c (view c r 0) }
    ensures parts { (olds news : List (List Item)) → AreRewrites olds news
        → IsRewrite (joined olds) (joined news) }
{}
