//! What a key shares with the key before it.
ghost use Rattle.std.specs.Prelude.{◌≡◌, nat_eq};
ghost use Rattle.std.specs.List.{common_prefix_len};
ghost use Rattle.xdb_block.specs.Spelling.{left_out};

/// How many bytes an entry leaves out of its key: a restart none, and another entry the longest front that
/// the key shares with the one before it.
pub fn left_out(restart: bool, last: &[u8], key: &[u8]) -> usize
    ensures { result ≡ left_out restart last.now key.now }
{
    if restart { 0 } else { shared_len(last, key) }
}

/// How long the longest common front is.
fn shared_len(a: &[u8], b: &[u8]) -> usize
    ensures { result ≡ common_prefix_len nat_eq a.now b.now }
{
    let mut len = 0;
    while len < a.len() && len < b.len() && a[len] == b[len] {
        len += 1;
    }
    len
}
