//! The history of an engine, with the room that was promised for more notes.
ghost use Rattle.std.specs.Prelude.{◌≡◌, ◌+◌, ◌<◌, ◌≤◌, ◌^◌, ◌++◌, ◌∷◌, [], length, OnOk, OnErr};
ghost use Rattle.xdb_plain.specs.Legal.{IsLegal};
ghost use Rattle.xdb_plain.specs.Steps.{MayStand};
ghost use Rattle.xdb_history.specs.Recorded.{state_of};

use crate::removals::Removals;
use std::alloc::{AllocError, Global};
use std::marker::Model;
use xdb_history::History;
use xdb_plain::Note;

/// Notes in their order. Room for a note counts only once there is room for the number that its step
/// may take.
#[derive(Drop)]
pub struct Journal {
    history: History,
    spare: usize,
}

impl Model for Journal {
    ghost use Rattle.std.specs.Prelude.{◌≤◌};
    ghost use Rattle.xdb_history.specs.Recorded.{Recorded};

    ghost Value = { Recorded };

    ghost view = { λ j. record j.history { spare = j.spare } };

    ghost invariant = { λ j. j.spare ≤ j.history.spare };
}

impl Journal {
    /// Without notes, from these first numbers on.
    pub fn new(alloc: Global, first_seq: u64, first_file: u64) -> Self
        requires seq { 1 ≤ first_seq }
        requires seq_end { first_seq ≤ 2 ^ 56 }
        requires file { 1 ≤ first_file }
        requires file_end { first_file ≤ 2 ^ 56 }
        ensures seq { result.first_seq ≡ first_seq }
        ensures file { result.first_file ≡ first_file }
        ensures notes { result.notes ≡ [] }
        ensures spare { result.spare ≡ 0 }
    {
        Journal {
            history: History::new(alloc, first_seq, first_file),
            spare: 0,
        }
    }

    /// Makes room for so many more notes, and as many numbers that are taken.
    pub fn reserve(&mut self, removals: &mut Removals, more: usize) -> Result<(), AllocError>
        requires { self.old.spare ≤ removals.old.room }
        ensures same { self.new ≡ record self.old { spare = self.new.spare } }
        ensures room { OnOk result (more ≤ self.new.spare) }
        ensures no_less { self.old.spare ≤ self.new.spare }
        ensures unchanged { OnErr result (self.new ≡ self.old) }
        ensures numbers { removals.new.numbers ≡ removals.old.numbers }
        ensures both { self.new.spare ≤ removals.new.room }
    {
        self.history.reserve(more)?;
        removals.reserve(more)?;
        if self.spare < more {
            self.spare = more;
        }
        Ok(())
    }

    /// For how many more notes there is room.
    pub fn spare(&self) -> usize
        ensures { result ≡ self.now.spare }
    {
        self.spare
    }

    /// Puts a note behind the others. It takes no memory.
    pub fn push(&mut self, note: Note)
        requires room { 1 ≤ self.old.spare }
        requires stands { MayStand (state_of self.old) note }
        ensures seq { self.new.first_seq ≡ self.old.first_seq }
        ensures file { self.new.first_file ≡ self.old.first_file }
        ensures notes { self.new.notes ≡ self.old.notes ++ note ∷ [] }
        ensures spare { self.new.spare + 1 ≡ self.old.spare }
    {
        self.history.push(note);
        self.spare -= 1;
    }

    pub fn notes(&self) -> &[Note]
        ensures notes { result.now ≡ self.now.notes }
        ensures legal { IsLegal self.now.first_seq self.now.first_file self.now.notes }
        ensures short { length self.now.notes < 2 ^ 64 }
    {
        self.history.notes()
    }

    pub fn into_history(self) -> History
        ensures seq { result.first_seq ≡ self.first_seq }
        ensures file { result.first_file ≡ self.first_file }
        ensures notes { result.notes ≡ self.notes }
    {
        self.history
    }
}
