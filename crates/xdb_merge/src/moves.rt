//! What a move of a merged cursor leads to among the pairs of its layers.
ghost use Rattle.std.specs.Prelude.{◌≡◌, IfOk, IfSome};
ghost use Rattle.std.specs.Option.{option_copied, option_map};
ghost use Rattle.xdb_plain.specs.Answers.{landing, at_or_after, at_or_before, next_from, prev_from};
ghost use Rattle.xdb_merge.specs.Layers.{content_of_layers};
ghost use Rattle.xdb_merge.specs.Merge.{pairs_of};
ghost use Rattle.xdb_merge.specs.Moves.{step_of, IsLanded};
ghost use Rattle.xdb_merge.specs.Search.{pair_of};
ghost use Rattle.xdb_merge.specs.Steps.{answer_of, Decides};

use crate::edge::Edge;
use crate::layer::Layer;
use crate::search::{first_pair, last_pair};
use std::alloc::AllocError;
use xdb_key::{Entry, Key, KeyRange};
use xdb_plain::Place;

/// Where a merged cursor is asked to go.
#[derive(Clone, Copy)]
pub enum Move<'a> {
    Next,
    Prev,
    /// To the first pair whose key isn't below this one.
    Ge(&'a Key),
    /// To the last pair whose key is below this one.
    Lt(&'a Key),
}

/// The entry of the pair that the move leads to, copied, and the new place.
pub fn landed<'a>(
    layers: &[Layer<'a>],
    bounds: &'a KeyRange,
    at: u64,
    place: &'a Place,
    to: Move<'a>,
) -> Result<(Option<Entry>, Place), AllocError>
    ensures { IfOk result (λ l. IsLanded layers.now bounds.now at place.now (step_of to.entry)
        l.0 l.1) }
{
    match to {
        Move::Next => at_or_after(next_pair(layers, bounds, at, place)),
        Move::Prev => at_or_before(prev_pair(layers, bounds, at, place)),
        Move::Ge(key) => at_or_after(first_pair(layers, bounds, at, Edge::At(key.bytes()))),
        Move::Lt(key) => at_or_before(last_pair(layers, bounds, at, key.bytes())),
    }
}

/// The first pair behind the place.
fn next_pair<'a>(
    layers: &[Layer<'a>],
    bounds: &'a KeyRange,
    at: u64,
    place: &'a Place,
) -> Option<&'a Entry>
    ensures moves { at_or_after (option_map pair_of (option_copied result))
        ≡ next_from (pairs_of layers.now bounds.now at) place.now }
    ensures decides { IfSome (option_copied result) (Decides (content_of_layers layers.now) at) }
{
    match place {
        Place::Before => first_pair(layers, bounds, at, Edge::At(bounds.lo().bytes())),
        Place::On { key } => first_pair(layers, bounds, at, Edge::Behind(key.bytes())),
        Place::After => None,
    }
}

/// The last pair before the place.
fn prev_pair<'a>(
    layers: &[Layer<'a>],
    bounds: &'a KeyRange,
    at: u64,
    place: &'a Place,
) -> Option<&'a Entry>
    ensures moves { at_or_before (option_map pair_of (option_copied result))
        ≡ prev_from (pairs_of layers.now bounds.now at) place.now }
    ensures decides { IfSome (option_copied result) (Decides (content_of_layers layers.now) at) }
{
    match place {
        Place::Before => None,
        Place::On { key } => last_pair(layers, bounds, at, key.bytes()),
        Place::After => last_pair(layers, bounds, at, bounds.hi().bytes()),
    }
}

/// At the entry, or behind the last pair.
fn at_or_after(entry: Option<&Entry>) -> Result<(Option<Entry>, Place), AllocError>
    ensures same { IfOk result (λ l. l.0 ≡ option_copied entry.entry) }
    ensures place { IfOk result (λ l. landing (answer_of l.0) l.1
        ≡ at_or_after (option_map pair_of (option_copied entry.entry))) }
{
    match entry {
        Some(entry) => on(entry),
        None => Ok((None, Place::After)),
    }
}

/// At the entry, or before the first pair.
fn at_or_before(entry: Option<&Entry>) -> Result<(Option<Entry>, Place), AllocError>
    ensures same { IfOk result (λ l. l.0 ≡ option_copied entry.entry) }
    ensures place { IfOk result (λ l. landing (answer_of l.0) l.1
        ≡ at_or_before (option_map pair_of (option_copied entry.entry))) }
{
    match entry {
        Some(entry) => on(entry),
        None => Ok((None, Place::Before)),
    }
}

fn on(entry: &Entry) -> Result<(Option<Entry>, Place), AllocError>
    ensures same { IfOk result (λ l. l.0 ≡ Some entry.now) }
    ensures place { IfOk result (λ l. l.1 ≡ Place.On entry.now.key) }
{
    let key = entry.key().copy()?;
    Ok((Some(entry.copy()?), Place::On { key }))
}
