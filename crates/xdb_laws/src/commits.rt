//! Operations that are committed.
ghost use Rattle.std.specs.Prelude.{ℕ, ◌+◌, ◌++◌, List, length};
ghost use Rattle.xdb_key.specs.declared.op.Op.{Op};
ghost use Rattle.xdb_plain.specs.PlainMap.{PlainMap, acted_all};
ghost use Rattle.xdb_rangedel.specs.Content.{Item, IsImage};
ghost use Rattle.xdb_rangedel.specs.Layers.{IsAllBelow};
ghost use Rattle.xdb_mem.specs.Numbered.{numbered};
ghost use Rattle.xdb_mem.specs.Parts.{items};
ghost use Rattle.xdb_laws.specs.Image.{image};

/// A commit: operations numbered from the next number on join a content that lies below it, and act on its image.
pub fn commits_act()
    ensures image { (c : List Item) (next : ℕ) (m : PlainMap) (ops : List Op) → IsImage c next m → IsAllBelow next c
        → IsImage (c ++ items (numbered next ops)) (next + length ops) (acted_all m ops) }
    ensures below { (c : List Item) (next : ℕ) (m : PlainMap) (ops : List Op) → IsImage c next m → IsAllBelow next c
        → IsAllBelow (next + length ops) (c ++ items (numbered next ops)) }
{}
