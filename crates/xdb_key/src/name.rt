ghost use Rattle.std.specs.Prelude.{◌≡◌, ◌↔◌, ℕ, List, false, length, take, replicate, IsTrue, MatchOption, Some, nat_eq, refl};
ghost use Rattle.std.specs.Cmp.Lexicographic.{pointwise, nat_list_eq_equiv, nat_list_cmp_total, texts_ties, texts_po};
ghost use Rattle.std.specs.List.{list_all};
ghost use Rattle.std.proofs.Common.{rules};
ghost use Rattle.xdb_key.specs.Name.{is_name, is_name_byte, is_fixed_word, starts_lower, is_lower};
ghost use Rattle.xdb_key.specs.Order.{key_cmp};

use crate::compare;
use std::cmp::Ordering;
use std::marker::Model;

/// The most bytes that a name has.
const MOST: usize = 16;

/// A name of a snapshot, a cursor, a load or a table: 1 to 16 lower-case letters and digits, a letter
/// first, and neither `at` nor `excise`. It is kept inline.
#[derive(Clone, Copy, Debug)]
pub struct Name {
    // the bytes, and zeros behind them
    bytes: [u8; 16],
    len: usize,
}

impl Model for Name {
    ghost use Rattle.std.specs.Prelude.{ℕ, List, length, take};
    ghost use Rattle.xdb_key.specs.NameKept.{IsKept, kept, kept-taken};

    ghost Value = { List ℕ };

    ghost view = { λ n. take n.len n.bytes };

    ghost invariant = { λ n. IsKept n.bytes n.len };

    ghost inverse = { λ bytes. record { bytes = kept bytes; len = length bytes } };

    ghost inverse_ok = { λ n h. λ i. record { bytes = (kept-taken n.bytes n.len h).0 i; len = (kept-taken n.bytes n.len h).1 i } };
}

impl Name {
    /// The name of these bytes, where they are one. It takes no memory.
    pub fn new(bytes: &[u8]) -> Option<Self>
        ensures { MatchOption result (is_name bytes.now ≡ false) (λ name. (name ≡ bytes.now) × IsTrue (is_name bytes.now)) }
    {
        if !is_name(bytes) {
            return None;
        }
        let mut kept = [0u8; MOST];
        kept[..bytes.len()].copy_from_slice(bytes);
        Some(Name {
            bytes: kept,
            len: bytes.len(),
        })
    }

    pub fn bytes(&self) -> &[u8]
        ensures bytes { result.now ≡ self.now }
        ensures name { IsTrue (is_name self.now) }
    {
        &self.bytes[..self.len]
    }

    pub fn same(&self, other: &Name) -> bool
        ensures { IsTrue result ↔ (self.now ≡ other.now) }
    {
        self.bytes() == other.bytes()
    }
}

fn is_name(bytes: &[u8]) -> bool
    ensures { result ≡ is_name bytes.now }
{
    starts_lower(bytes) && are_name_bytes(bytes) && bytes.len() <= MOST && !is_fixed_word(bytes)
}

fn starts_lower(bytes: &[u8]) -> bool
    ensures { result ≡ starts_lower bytes.now }
{
    match bytes {
        [] => false,
        [first, ..] => is_lower(*first),
    }
}

fn is_lower(byte: u8) -> bool
    ensures { result ≡ is_lower byte }
{
    b'a' <= byte && byte <= b'z'
}

fn is_name_byte(byte: u8) -> bool
    ensures { result ≡ is_name_byte byte }
{
    is_lower(byte) || (b'0' <= byte && byte <= b'9')
}

fn are_name_bytes(bytes: &[u8]) -> bool
    ensures { result ≡ list_all is_name_byte bytes.now }
{
    bytes.iter().all(|byte| is_name_byte(*byte))
}

fn is_fixed_word(bytes: &[u8]) -> bool
    ensures { result ≡ is_fixed_word bytes.now }
{
    compare(bytes, b"at").is_eq() || compare(bytes, b"excise").is_eq()
}

impl PartialEq for Name {
    ghost eq = { pointwise nat_eq };

    ghost laws = { Prim.search rules };

    fn eq(&self, other: &Name) -> bool {
        self.bytes() == other.bytes()
    }
}

impl Eq for Name {
    ghost laws = { nat_list_eq_equiv };
}

impl Ord for Name {
    ghost cmp = { key_cmp };

    ghost total = { nat_list_cmp_total };

    ghost matches_partial_cmp = { λ _ _. refl };

    ghost matches_eq = { texts_ties };

    fn cmp(&self, other: &Name) -> Ordering {
        compare(self.bytes(), other.bytes())
    }
}

impl PartialOrd for Name {
    ghost partial_cmp = { λ x y. Some (key_cmp x y) };

    ghost laws = { texts_po };

    fn partial_cmp(&self, other: &Name) -> Option<Ordering> {
        Some(self.cmp(other))
    }
}
