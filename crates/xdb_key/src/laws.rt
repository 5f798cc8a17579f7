//! Laws of the definitions, each a function that does nothing.
ghost use Rattle.std.specs.Prelude.{◌≡◌, ◌<◌, ◌^◌, ◌++◌, ℕ, List, Ok, true, false, not};
ghost use Rattle.std.specs.Cmp.{IsTotalOrder};
ghost use Rattle.std.specs.FinMap.{IsAntisymmetric};
ghost use Rattle.xdb_key.specs.Order.{key_cmp, is_below, is_upto};
ghost use Rattle.xdb_key.specs.Reading.{AreBytes};
ghost use Rattle.xdb_key.specs.Varint.{varint, varint_at};
ghost use Rattle.xdb_key.specs.Bounds.{Bounds, holds, meets, key_hull, successor, lesser, greater};
ghost use Rattle.xdb_key.specs.Entries.{Point};
ghost use Rattle.xdb_key.specs.InOrder.{internal_order, comes_before};

/// The order of byte strings is total, and strings that tie are one.
pub fn order_is_total()
    ensures total { IsTotalOrder key_cmp }
    ensures exact { IsAntisymmetric key_cmp }
{}

/// `is_below` and `is_upto` are the strict and the weak form of one total order.
pub fn order_chains()
    ensures below { (a b c : List ℕ) → is_below a b ≡ true → is_below b c ≡ true → is_below a c ≡ true }
    ensures below_upto { (a b c : List ℕ) → is_below a b ≡ true → is_upto b c ≡ true → is_below a c ≡ true }
    ensures upto_below { (a b c : List ℕ) → is_upto a b ≡ true → is_below b c ≡ true → is_below a c ≡ true }
    ensures upto { (a b c : List ℕ) → is_upto a b ≡ true → is_upto b c ≡ true → is_upto a c ≡ true }
    ensures one { (a b : List ℕ) → is_upto a b ≡ true → is_upto b a ≡ true → a ≡ b }
    ensures turned { (a b : List ℕ) → is_upto a b ≡ not (is_below b a) }
    ensures weaker { (a b : List ℕ) → is_below a b ≡ true → is_upto a b ≡ true }
{}

/// Nothing lies between a key and its successor.
pub fn successor_is_next()
    ensures { (a k : List ℕ) → is_below a (successor k) ≡ is_upto a k }
{}

/// A key's hull meets just the ranges that hold the key.
pub fn hull_meets_where_held()
    ensures hull { (k : List ℕ) (r : Bounds) → meets (key_hull k) r ≡ holds r k }
    ensures symmetric { (r o : Bounds) → meets r o ≡ meets o r }
{}

/// The lesser of two bounds is the greatest one up to both, and the greater the least one from both on.
pub fn lesser_and_greater()
    ensures lesser_first { (a b : List ℕ) → is_upto (lesser a b) a ≡ true }
    ensures lesser_second { (a b : List ℕ) → is_upto (lesser a b) b ≡ true }
    ensures upto_lesser { (c a b : List ℕ) → is_upto c a ≡ true → is_upto c b ≡ true → is_upto c (lesser a b) ≡ true }
    ensures first_greater { (a b : List ℕ) → is_upto a (greater a b) ≡ true }
    ensures second_greater { (a b : List ℕ) → is_upto b (greater a b) ≡ true }
    ensures greater_upto { (c a b : List ℕ) → is_upto a c ≡ true → is_upto b c ≡ true → is_upto (greater a b) c ≡ true }
    ensures lesser_turned { (a b : List ℕ) → lesser a b ≡ lesser b a }
    ensures greater_turned { (a b : List ℕ) → greater a b ≡ greater b a }
{}

/// Internal order is total. It rises by key, and entries that tie have one key and one number.
pub fn internal_order_is_total()
    ensures total { IsTotalOrder internal_order }
    ensures chain { (p q r : Point) → comes_before p q ≡ true → comes_before q r ≡ true → comes_before p r ≡ true }
    ensures keys { (p q : Point) → comes_before p q ≡ true → is_upto p.key q.key ≡ true }
    ensures tied { (p q : Point) → comes_before p q ≡ false → comes_before q p ≡ false → (p.key ≡ q.key) × (p.seq ≡ q.seq) }
{}

/// What is spelled is read again, whatever follows it.
pub fn varint_is_read_again()
    ensures { (n : ℕ) (rest : List ℕ) → n < 2 ^ 63 → varint_at (varint n ++ rest) ≡ Ok (n, rest) }
{}

/// What is read is spelled so.
pub fn varint_is_spelled_so()
    ensures { (bytes rest : List ℕ) (n : ℕ) → AreBytes bytes → varint_at bytes ≡ Ok (n, rest) → (n < 2 ^ 63) × (bytes ≡ varint n ++ rest) }
{}
