//! The map that a content stands for.
ghost use Rattle.std.specs.Prelude.{ℕ, List};
ghost use Rattle.xdb_key.specs.Bounds.{Bounds};
ghost use Rattle.xdb_plain.specs.PlainMap.{PlainMap};
ghost use Rattle.xdb_rangedel.specs.Content.{Item, IsImage};
ghost use Rattle.xdb_laws.specs.Image.{image, inside, AreAlikeIn};

/// The image of a content has each key whose verdict is a value, with that value.
pub fn image_is_what_is_said()
    ensures image { (c : List Item) (limit : ℕ) → IsImage c limit (image c limit) }
    ensures inside { (r : Bounds) (m : PlainMap) → AreAlikeIn r (inside r m) m }
{}
