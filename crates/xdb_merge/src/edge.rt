ghost use Rattle.std.specs.Prelude.{◌≡◌};
ghost use Rattle.xdb_merge.specs.Search.{is_from, edge_key};

use xdb_key::{Key, is_below, is_upto};

/// Where a search begins.
#[derive(Clone, Copy)]
pub enum Edge<'a> {
    At(&'a [u8]),
    /// At the first key that stands behind this one.
    Behind(&'a [u8]),
}

/// Whether the key isn't before the edge.
pub fn is_from(edge: Edge, key: &Key) -> bool
    ensures { result ≡ is_from edge.entry key.now }
{
    match edge {
        Edge::At(start) => is_upto(start, key.bytes()),
        Edge::Behind(start) => is_below(start, key.bytes()),
    }
}

/// The key that the edge lies at.
pub fn edge_key(edge: Edge) -> &[u8]
    ensures { result.now ≡ edge_key edge.entry }
{
    match edge {
        Edge::At(start) | Edge::Behind(start) => start,
    }
}
