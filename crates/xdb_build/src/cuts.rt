//! Where outputs end.
ghost use Rattle.std.specs.Prelude.{◌≡◌, ◌∷◌, ◌++◌, [], ◌+◌, ◌≤◌, ◌<◌, ◌⊎◌, false, length, IsTrue};
ghost use Rattle.xdb_key.specs.Entries.{Point};
ghost use Rattle.xdb_key.specs.InOrder.{AreInOrder};
ghost use Rattle.xdb_rangedel.specs.Content.{entry_of};
ghost use Rattle.xdb_rangedel.specs.Members.{Has};
ghost use Rattle.xdb_build.specs.Cuts.{weight};
ghost use Rattle.xdb_build.specs.Series.{AreBefore, EndsAt, EndsFrom};

use xdb_key::{Entry, Kind};

/// The weight from which on an output ends before the next user key.
const FULL: usize = 65_536;

/// Where the output ends that begins at a place: it has all that is left, where no other may follow.
pub fn output_end(entries: &[Entry], from: usize, more: bool) -> usize
    requires order { AreInOrder entries.now }
    requires within { from ≤ length entries.now }
    ensures ends { EndsFrom entries.now from more result }
{
    if !more {
        return entries.len();
    }
    from + output_len(&entries[from..])
}

/// How many of the entries the next output has.
fn output_len(entries: &[Entry]) -> usize
    requires { AreInOrder entries.now }
    ensures { EndsAt entries.now result }
{
    let mut total = 0;
    for at in 0..entries.len() {
        let entry = &entries[at];
        if total >= FULL && !has_last_key(&entries[..at], entry) {
            return at;
        }
        total = heavier(total, entry);
    }
    entries.len()
}

/// Whether the last of the entries has the key of the one behind them.
fn has_last_key(before: &[Entry], entry: &Entry) -> bool
    ensures yes { IsTrue result → (q : Point) × Has before.now q × (q.key ≡ entry.now.key) }
    ensures no { result ≡ false → AreInOrder (before.now ++ entry.now ∷ [])
        → AreBefore before.now entry.now.key }
{
    match before.last() {
        Some(last) => last.key().same(entry.key()),
        None => false,
    }
}

/// The weight with one more entry. Once it is full, it needn't be exact.
fn heavier(total: usize, entry: &Entry) -> usize
    ensures { (result ≡ total + weight (entry_of entry.now))
        ⊎ ((65536 ≤ result) × (65536 ≤ total + weight (entry_of entry.now))) }
{
    if total >= FULL {
        return total;
    }
    total.saturating_add(weight(entry))
}

/// The lengths of key and value, and 8.
fn weight(entry: &Entry) -> usize
    ensures { result ≡ weight (entry_of entry.now) }
{
    let key = entry.key().bytes().len();
    match entry.kind() {
        Kind::Set => key + 8 + entry.value().bytes().len(),
        Kind::Del | Kind::SpanDel => key + 8,
    }
}
