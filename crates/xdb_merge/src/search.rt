//! The next pair and the one before: the nearest key of all layers, what decides there, and on where it shows
//! no value.
ghost use Rattle.std.specs.Prelude.{◌≡◌, ◌&&◌, not, map, IfSome};
ghost use Rattle.std.specs.List.{filter};
ghost use Rattle.std.specs.Option.{option_copied, option_map};
ghost use Rattle.xdb_plain.specs.Answers.{first_of, last_of};
ghost use Rattle.xdb_rangedel.specs.Content.{entry_of, mark, newest};
ghost use Rattle.xdb_rangedel.specs.Cover.{cover_of, greater};
ghost use Rattle.xdb_merge.specs.Layers.{entries_of, spans_of, content_of_layers};
ghost use Rattle.xdb_merge.specs.Merge.{pairs_of};
ghost use Rattle.xdb_merge.specs.Steps.{Decides};
ghost use Rattle.xdb_merge.specs.Search.{is_from, is_before, forwards, backwards, IsNearest, nearer, newer_entry, IsNewest, is_set, is_hidden, is_shown, shown, IsDecider, pair_of, StartsIn, end_in};

use crate::edge::{Edge, edge_key};
use crate::layer::Layer;
use xdb_key::{Entry, Key, KeyRange, Kind, is_below, is_upto};

/// The entry that decides the first pair from the edge on, inside the bounds and at numbers below `at`.
pub fn first_pair<'a>(
    layers: &[Layer<'a>],
    bounds: &'a KeyRange,
    at: u64,
    edge: Edge<'a>,
) -> Option<&'a Entry>
    ensures pair { option_map pair_of (option_copied result)
        ≡ first_of (filter (λ pair. is_from edge.entry pair.0)
        (pairs_of layers.now bounds.now at)) }
    ensures decides { IfSome (option_copied result) (Decides (content_of_layers layers.now) at) }
{
    let mut from = start(bounds, edge);
    while let Some(key) = first_key(layers, from) {
        if !is_below(key.bytes(), bounds.hi().bytes()) {
            return None;
        }
        if let Some(entry) = decide(layers, at, key) {
            return Some(entry);
        }
        from = Edge::Behind(key.bytes());
    }
    None
}

/// The entry that decides the last pair before the end, inside the bounds and at numbers below `at`.
pub fn last_pair<'a>(
    layers: &[Layer<'a>],
    bounds: &'a KeyRange,
    at: u64,
    end: &'a [u8],
) -> Option<&'a Entry>
    ensures pair { option_map pair_of (option_copied result)
        ≡ last_of (filter (λ pair. is_before end.now pair.0)
        (pairs_of layers.now bounds.now at)) }
    ensures decides { IfSome (option_copied result) (Decides (content_of_layers layers.now) at) }
{
    let mut before = lesser_end(bounds, end);
    while let Some(key) = last_key(layers, before) {
        if !is_upto(bounds.lo().bytes(), key.bytes()) {
            return None;
        }
        if let Some(entry) = decide(layers, at, key) {
            return Some(entry);
        }
        before = key.bytes();
    }
    None
}

/// The edge, or the start of the bounds where it lies before it.
fn start<'a>(bounds: &'a KeyRange, edge: Edge<'a>) -> Edge<'a>
    ensures { StartsIn bounds.now edge.entry result }
{
    let lo = bounds.lo().bytes();
    if is_below(edge_key(edge), lo) {
        Edge::At(lo)
    } else {
        edge
    }
}

/// The end, or the end of the bounds where it lies behind it.
fn lesser_end<'a>(bounds: &'a KeyRange, end: &'a [u8]) -> &'a [u8]
    ensures { result.now ≡ end_in bounds.now end.now }
{
    let hi = bounds.hi().bytes();
    if is_below(hi, end) { hi } else { end }
}

/// The least key of the layers from the edge on.
fn first_key<'a>(layers: &[Layer<'a>], edge: Edge) -> Option<&'a Key>
    ensures { IsNearest forwards (is_from edge.entry) (entries_of layers.now)
        (option_copied result) }
{
    let mut best = None;
    for layer in layers {
        best = lesser(best, layer.first_from(edge));
    }
    best
}

/// The greatest key of the layers before the end.
fn last_key<'a>(layers: &[Layer<'a>], end: &[u8]) -> Option<&'a Key>
    ensures { IsNearest backwards (is_before end.now) (entries_of layers.now)
        (option_copied result) }
{
    let mut best = None;
    for layer in layers {
        best = greater(best, layer.last_before(end));
    }
    best
}

fn lesser<'a>(a: Option<&'a Key>, b: Option<&'a Key>) -> Option<&'a Key>
    ensures { option_copied result
        ≡ nearer forwards (option_copied a.entry) (option_copied b.entry) }
{
    match (a, b) {
        (None, _) => b,
        (_, None) => a,
        (Some(first), Some(second)) => {
            if is_upto(first.bytes(), second.bytes()) {
                a
            } else {
                b
            }
        }
    }
}

fn greater<'a>(a: Option<&'a Key>, b: Option<&'a Key>) -> Option<&'a Key>
    ensures { option_copied result
        ≡ nearer backwards (option_copied a.entry) (option_copied b.entry) }
{
    match (a, b) {
        (None, _) => b,
        (_, None) => a,
        (Some(first), Some(second)) => {
            if is_upto(second.bytes(), first.bytes()) {
                a
            } else {
                b
            }
        }
    }
}

/// The entry that gives the key its value, at numbers below `at`; None where it has none.
fn decide<'a>(layers: &[Layer<'a>], at: u64, key: &Key) -> Option<&'a Entry>
    ensures { IsDecider (content_of_layers layers.now) at key.now (option_copied result) }
{
    shown(newest(layers, at, key), cover(layers, at, key))
}

/// The entry, unless it is a delete or the span's number hides it.
fn shown(entry: Option<&Entry>, cover: Option<u64>) -> Option<&Entry>
    ensures { option_copied result ≡ shown cover (option_copied entry.entry) }
{
    match entry {
        Some(found) if is_shown(found, cover) => entry,
        _ => None,
    }
}

/// Whether the entry sets a value, and the number of the span that covers its key isn't greater.
fn is_shown(entry: &Entry, cover: Option<u64>) -> bool
    ensures { result ≡ is_shown cover entry.now }
{
    is_set(entry.kind()) && !is_hidden(entry.seq(), cover)
}

fn is_set(kind: Kind) -> bool
    ensures { result ≡ is_set kind }
{
    match kind {
        Kind::Set => true,
        Kind::Del | Kind::SpanDel => false,
    }
}

/// A point wins a tie with a span.
fn is_hidden(seq: u64, cover: Option<u64>) -> bool
    ensures { result ≡ is_hidden seq cover }
{
    match cover {
        Some(number) => seq < number,
        None => false,
    }
}

/// The key's entry of the greatest number below `at`, in all layers.
fn newest<'a>(layers: &[Layer<'a>], at: u64, key: &Key) -> Option<&'a Entry>
    ensures { IsNewest at key.now (entries_of layers.now) (option_copied result) }
{
    let mut best = None;
    for layer in layers {
        best = newer(best, layer.first_seen(at, key));
    }
    best
}

fn newer<'a>(a: Option<&'a Entry>, b: Option<&'a Entry>) -> Option<&'a Entry>
    ensures { option_copied result ≡ newer_entry (option_copied a.entry) (option_copied b.entry) }
{
    match (a, b) {
        (None, _) => b,
        (_, None) => a,
        (Some(first), Some(second)) => { if first.seq() < second.seq() { b } else { a } }
    }
}

/// The greatest number below `at` of a span over the key, in all layers.
fn cover(layers: &[Layer], at: u64, key: &Key) -> Option<u64>
    ensures { result ≡ cover_of (spans_of layers.now) key.now at }
{
    let mut best = None;
    for layer in layers {
        best = greater_number(best, layer.cover(at, key));
    }
    best
}

fn greater_number(a: Option<u64>, b: Option<u64>) -> Option<u64>
    ensures { result ≡ greater a b }
{
    match (a, b) {
        (None, _) => b,
        (_, None) => a,
        (Some(first), Some(second)) => { if first < second { b } else { a } }
    }
}
