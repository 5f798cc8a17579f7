ghost use Rattle.std.specs.Prelude.{◌≡◌, ◌≤◌, length};
ghost use Rattle.std.specs.Option.{option_copied};
ghost use Rattle.xdb_rangedel.specs.Cover.{cover_of};
ghost use Rattle.xdb_merge.specs.Layers.{layer, AreSorted};
ghost use Rattle.xdb_merge.specs.Search.{is_from, is_before, forwards, backwards, IsNearest, is_short, Splits, is_passed, first_seen};

use crate::edge::{Edge, is_from};
use std::marker::Model;
use xdb_key::{Entry, Key, is_below, is_upto};
use xdb_rangedel::Fragments;

/// What memtables or one table have.
#[derive(Drop)]
pub struct Layer<'a> {
    entries: &'a [Entry],
    spans: &'a Fragments,
}

impl<'a> Model for Layer<'a> {
    ghost use Rattle.xdb_mem.specs.Parts.{Parts};
    ghost use Rattle.xdb_merge.specs.Layers.{layer, AreSorted};

    ghost Value = { Parts };

    ghost view = { λ l. layer l.entries.now l.spans.now };

    ghost invariant = { λ l. AreSorted l.entries.now };
}

impl<'a> Layer<'a> {
    pub fn new(entries: &'a [Entry], spans: &'a Fragments) -> Self
        requires { AreSorted entries.now }
        ensures { result ≡ layer entries.now spans.now }
    {
        Layer { entries, spans }
    }

    /// The least key from the edge on.
    pub fn first_from(&self, edge: Edge) -> Option<&'a Key>
        ensures { IsNearest forwards (is_from edge.entry) self.now.entries (option_copied result) }
    {
        first_from(self.entries, edge)
    }

    /// The greatest key before the end.
    pub fn last_before(&self, end: &[u8]) -> Option<&'a Key>
        ensures { IsNearest backwards (is_before end.now) self.now.entries (option_copied result) }
    {
        last_before(self.entries, end)
    }

    /// The key's entry that has the greatest number below `at`.
    pub fn first_seen(&self, at: u64, key: &Key) -> Option<&'a Entry>
        ensures first { option_copied result ≡ first_seen at key.now self.now.entries }
        ensures sorted { AreSorted self.now.entries }
    {
        first_seen(self.entries, at, key)
    }

    /// The greatest number below `at` of a span that holds the key.
    pub fn cover(&self, at: u64, key: &Key) -> Option<u64>
        ensures { result ≡ cover_of self.now.spans key.now at }
    {
        self.spans.cover(key, at)
    }
}

fn first_from<'a>(entries: &'a [Entry], edge: Edge) -> Option<&'a Key>
    requires { AreSorted entries.now }
    ensures { IsNearest forwards (is_from edge.entry) entries.now (option_copied result) }
{
    let place = place_from(entries, edge);
    if place < entries.len() {
        let entry = &entries[place];
        return Some(entry.key());
    }
    None
}

fn last_before<'a>(entries: &'a [Entry], end: &[u8]) -> Option<&'a Key>
    requires { AreSorted entries.now }
    ensures { IsNearest backwards (is_before end.now) entries.now (option_copied result) }
{
    let place = place_from(entries, Edge::At(end));
    if place > 0 {
        let entry = &entries[place - 1];
        return Some(entry.key());
    }
    None
}

fn first_seen<'a>(entries: &'a [Entry], at: u64, key: &Key) -> Option<&'a Entry>
    requires { AreSorted entries.now }
    ensures { option_copied result ≡ first_seen at key.now entries.now }
{
    let place = entries.partition_point(|entry| is_passed(entry, at, key));
    if place < entries.len() {
        let entry = &entries[place];
        if is_upto(entry.key().bytes(), key.bytes()) {
            return Some(entry);
        }
    }
    None
}

/// The place of the first entry from the edge on.
fn place_from(entries: &[Entry], edge: Edge) -> usize
    requires { AreSorted entries.now }
    ensures bound { result ≤ length entries.now }
    ensures split { Splits (is_short edge.entry) entries.now result }
{
    entries.partition_point(|entry| !is_from(edge, entry.key()))
}

/// Whether the entry stands before each one of the key with a number below `at`.
fn is_passed(entry: &Entry, at: u64, key: &Key) -> bool
    ensures { result ≡ is_passed at key.now entry.now }
{
    is_below(entry.key().bytes(), key.bytes())
        || (at <= entry.seq() && is_upto(entry.key().bytes(), key.bytes()))
}
