ghost use Rattle.std.specs.Prelude.{◌≡◌};
ghost use Rattle.xdb_key.specs.Order.{key_cmp, is_below, is_upto};

use std::cmp::Ordering;

/// The order of keys and bounds: bytewise, a proper prefix first.
pub fn compare(a: &[u8], b: &[u8]) -> Ordering
    ensures { result ≡ key_cmp a.now b.now }
{
    a.cmp(b)
}

/// Whether the first stands before the second.
pub fn is_below(a: &[u8], b: &[u8]) -> bool
    ensures { result ≡ is_below a.now b.now }
{
    compare(a, b).is_lt()
}

/// Whether the first stands before the second, or is equal to it.
pub fn is_upto(a: &[u8], b: &[u8]) -> bool
    ensures { result ≡ is_upto a.now b.now }
{
    compare(a, b).is_le()
}
