//! Laws of the definitions, each a function that does nothing.
ghost use Rattle.std.specs.Prelude.{◌≡◌, ◌<◌, ◌^◌, ℕ, List, length, Ok};
ghost use Rattle.xdb_key.specs.Ops.{batch_len};
ghost use Rattle.xdb_key.specs.Reading.{AreBytes};
ghost use Rattle.xdb_key.specs.Varint.{varint, varint_len};
ghost use Rattle.xdb_key.specs.declared.op.Op.{Op};
ghost use Rattle.xdb_batch.specs.Reading.{batch_at};
ghost use Rattle.xdb_batch.specs.Spelling.{IsBatch, batch_bytes};

/// What is spelled is read again.
pub fn batch_is_read_again()
    ensures { (first : ℕ) (ops : List Op) → IsBatch first ops → batch_at (batch_bytes first ops) ≡ Ok (first, ops) }
{}

/// What is read is spelled so.
pub fn batch_is_spelled_so()
    ensures spelled { (bytes : List ℕ) (first : ℕ) (ops : List Op) → AreBytes bytes → batch_at bytes ≡ Ok (first, ops) → bytes ≡ batch_bytes first ops }
    ensures within { (bytes : List ℕ) (first : ℕ) (ops : List Op) → AreBytes bytes → batch_at bytes ≡ Ok (first, ops) → IsBatch first ops }
{}

/// A spelling has the length that is counted without it.
pub fn lengths_are_counted()
    ensures number { (n : ℕ) → n < 2 ^ 63 → length (varint n) ≡ varint_len n }
    ensures batch { (first : ℕ) (ops : List Op) → IsBatch first ops → length (batch_bytes first ops) ≡ batch_len ops }
{}
