//! Laws of the definitions, each a function that does nothing.
ghost use Rattle.std.specs.Prelude.{◌≡◌, ℕ, List, [], ◌∷◌, IsSome};
ghost use Rattle.std.specs.List.{AllByRecursion, flat_map};
ghost use Rattle.xdb_merge.specs.Tables.{content_of_tables};
ghost use Rattle.xdb_meta.specs.Table.{Table};
ghost use Rattle.xdb_rangedel.specs.Members.{SameMembers};
ghost use Rattle.xdb_build.specs.Fits.{IsFlushed};
ghost use Rattle.xdb_build.specs.Given.{Given, mem_content, left_of};
ghost use Rattle.xdb_build.specs.Outputs.{HasFragments, IsInFile, IsReachOf, Pairwise, AreTold, contents, with_files};

use xdb_device::FileRef;

/// Within its bounds, which are the least, a table shows all that its file has, if the file tells its bytes.
pub fn outputs_show_their_files<F: FileRef>()
    ensures tables { (tables : List Table) (files : List (ℕ × F))
        → Pairwise (IsInFile F.size) tables files → AreTold F.bytes files
        → Pairwise IsReachOf tables (contents F.bytes files)
        → AllByRecursion HasFragments (contents F.bytes files)
        → content_of_tables F.bytes (with_files tables files)
        ≡ flat_map (λ o. o) (contents F.bytes files) }
    ensures flushed { (g : Given F) (table : Table) (file : ℕ × F)
        → IsFlushed F.size F.bytes g table file → IsSome (F.bytes file.1)
        → SameMembers (content_of_tables F.bytes ((table, file.1) ∷ []))
        (left_of g (mem_content g)) }
{}
