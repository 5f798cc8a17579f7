//! Laws of the definitions, each a function that does nothing.
ghost use Rattle.std.specs.Prelude.{◌≡◌, ◌≤◌, ℕ, List, None, Ok, IsTrue};
ghost use Rattle.std.specs.List.{AllPairs};
ghost use Rattle.xdb_key.specs.Reading.{AreBytes};
ghost use Rattle.xdb_block.specs.declared.kind.BlockKind.{BlockKind};
ghost use Rattle.xdb_block.specs.declared.kind.BlockKind.TheVariants.{Spans};
ghost use Rattle.xdb_block.specs.Reading.{block_at};
ghost use Rattle.xdb_block.specs.Rows.{Row, Follow, is_apart};
ghost use Rattle.xdb_block.specs.Spelling.{IsBlock, block_bytes};

/// What is spelled is read again, for any restart interval from 1 on.
pub fn block_is_read_again()
    ensures { (interval : ℕ) (kind : BlockKind) (rows : List Row) → 1 ≤ interval → IsBlock interval kind rows → block_at interval kind (block_bytes interval rows) ≡ Ok rows }
{}

/// What is read is spelled so, for any restart interval.
pub fn block_is_spelled_so()
    ensures spelled { (interval : ℕ) (kind : BlockKind) (bytes : List ℕ) (rows : List Row) → AreBytes bytes → block_at interval kind bytes ≡ Ok rows → bytes ≡ block_bytes interval rows }
    ensures within { (interval : ℕ) (kind : BlockKind) (bytes : List ℕ) (rows : List Row) → AreBytes bytes → block_at interval kind bytes ≡ Ok rows → IsBlock interval kind rows }
{}

/// Spans of a block that are apart from the ones just before them are apart from all before them: any two
/// have equal bounds, or the later one begins where the earlier one ends or behind.
pub fn spans_are_apart()
    ensures { (rows : List Row) → Follow Spans None rows → AllPairs (λ a b. IsTrue (is_apart a b)) rows }
{}
