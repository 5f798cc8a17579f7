ghost use Rattle.std.specs.Prelude.{◌≡◌, ◌++◌, ◌||◌, ℕ, List, [], ◌∷◌, map, filter, Some, None, true, OnOk, OnErr, IfOk, MatchResult, IsTrue};
ghost use Rattle.std.specs.Option.{option_map, option_copied};
ghost use Rattle.xdb_lists.specs.Numbers.{is_among, NumbersRise};
ghost use Rattle.xdb_snap.specs.Listed.{AreListed, named, without, changed};
ghost use Rattle.xdb_snap.specs.Changes.{made, refusal, cause, ticket_of, may_give, may_turn, without_ticket, turned, excised};
ghost use Rattle.xdb_snap.specs.Pinned.{pinned_marks};

use crate::{MOST_SNAPS, Snap, SnapNo, listed};
use std::alloc::{AllocError, Global};
use std::marker::Model;
use xdb_key::{KeyRange, Name, SnapState};

/// The open snapshots, in the order of their making. `H` is a hold of a version, and `T` room for one.
#[derive(Debug, Drop)]
pub struct Snaps<H, T> {
    snaps: Vec<Snap<H, T>>,
}

impl<H, T> Model for Snaps<H, T> {
    ghost use Rattle.std.specs.Prelude.{List};
    ghost use Rattle.xdb_snap.specs.declared.snap.Snap.{Snap};
    ghost use Rattle.xdb_snap.specs.Listed.{AreListed};

    ghost Value = { List (Snap H T) };

    ghost view = { λ a. a.snaps.items };

    ghost invariant = { λ a. AreListed a.snaps.items };
}

impl<H: Drop, T: Drop> Snaps<H, T> {
    /// No snapshot is open. Takes no memory.
    pub fn new(alloc: Global) -> Self
        ensures { result ≡ [] }
    {
        Snaps {
            snaps: Vec::new(alloc),
        }
    }

    pub fn list(&self) -> &[Snap<H, T>]
        ensures list { result.now ≡ self.now }
        // What holds of the open snapshots at any time.
        ensures listed { AreListed self.now }
    {
        &self.snaps
    }

    /// The open snapshot of the name.
    pub fn get(&self, name: &Name) -> Option<&Snap<H, T>>
        ensures { option_copied result ≡ named name.now self.now }
    {
        listed::find(&self.snaps, name)
    }

    pub fn state(&self, name: &Name) -> Option<SnapState>
        ensures { result ≡ option_map (λ s. s.state) (named name.now self.now) }
    {
        let snap = self.get(name)?;
        Some(snap.state)
    }

    /// The marks of the pinned snapshots, rising, each once.
    pub fn pinned_seqs(&self) -> Result<Vec<u64>, AllocError>
        ensures rising { IfOk result (λ marks. NumbersRise marks.items) }
        ensures pinned { IfOk result (λ marks. (n : ℕ) → is_among n marks.items ≡ is_among n (pinned_marks self.now)) }
    {
        let mut marks = listed::pinned_marks(*self.snaps.allocator(), &self.snaps)?;
        marks.sort_unstable();
        marks.dedup();
        Ok(marks)
    }

    /// Opens a snapshot, with room for its hold.
    pub fn make(
        &mut self,
        name: Name,
        ranges: Vec<KeyRange>,
        mark: u64,
        state: SnapState,
        ticket: T,
    ) -> Result<(), SnapNo>
        ensures made { OnOk result (self.new ≡ self.old ++ made name ranges.items mark state ticket ∷ []) }
        // The first refusal that applies, or else want of memory.
        ensures refused { MatchResult result (λ _. refusal name ranges.items self.old ≡ None) (λ no. refusal name ranges.items self.old ≡ cause no) }
        ensures err { OnErr result (self.new ≡ self.old) }
    {
        if self.get(&name).is_some() {
            return Err(SnapNo::NameInUse);
        }
        if !listed::are_rising(&ranges) {
            return Err(SnapNo::BadRanges);
        }
        if self.snaps.len() >= MOST_SNAPS {
            return Err(SnapNo::TooMany);
        }
        self.snaps
            .push(Snap::new(name, ranges, mark, state, ticket))?;
        Ok(())
    }

    /// Lets the snapshot of the name go.
    pub fn remove(&mut self, name: &Name) -> Option<Snap<H, T>>
        ensures removed { result ≡ named name.now self.old }
        ensures rest { self.new ≡ without name.now self.old }
    {
        listed::take_out(&mut self.snaps, name)
    }

    /// Takes the snapshot's room for a hold.
    pub fn take_ticket(&mut self, name: &Name) -> T
        requires { may_give (named name.now self.old) ≡ true }
        ensures ticket { Some result ≡ ticket_of (named name.now self.old) }
        ensures rest { self.new ≡ changed name.now without_ticket self.old }
    {
        listed::take_ticket(&mut self.snaps, name)
    }

    /// The snapshot is file-only from now on, and has the hold.
    pub fn turn(&mut self, name: &Name, hold: H)
        requires { may_turn (named name.now self.old) ≡ true }
        ensures { self.new ≡ changed name.now (turned hold) self.old }
    {
        listed::turn(&mut self.snaps, name, hold);
    }

    /// Each pinned snapshot that the span of the load meets is excised from now on. Takes no memory.
    pub fn excised(&mut self, span: &KeyRange, load: Name)
        ensures { self.new ≡ map (excised load span.now) self.old }
    {
        listed::excise(&mut self.snaps, span, load);
    }

    /// How many snapshots there is room for.
    #[cfg(test)]
    pub fn capacity(&self) -> usize {
        self.snaps.capacity()
    }
}
