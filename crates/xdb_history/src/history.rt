ghost use Rattle.std.specs.Prelude.{◌≡◌, ◌+◌, ◌<◌, ◌≤◌, ◌^◌, ◌++◌, [], ◌∷◌, length, OnOk, OnErr};
ghost use Rattle.xdb_plain.specs.Legal.{IsLegal};
ghost use Rattle.xdb_plain.specs.Steps.{MayStand};
ghost use Rattle.xdb_history.specs.Recorded.{state_of};

use std::alloc::{AllocError, Global};
use std::marker::Model;
use xdb_plain::Note;

/// Notes in their order. Each is a step from the state that those before it lead to.
#[derive(Debug, Drop)]
pub struct History {
    first_seq: u64,
    first_file: u64,
    notes: Vec<Note>,
}

impl Model for History {
    ghost use Rattle.std.specs.Prelude.{◌-◌, vec_len, vec_capacity};
    ghost use Rattle.xdb_plain.specs.Legal.{IsLegal};
    ghost use Rattle.xdb_history.specs.Recorded.{Recorded};

    ghost Value = { Recorded };

    ghost view = { λ h. record {
      first_seq = h.first_seq;
      first_file = h.first_file;
      notes = h.notes.items;
      spare = vec_capacity h.notes - vec_len h.notes;
    } };

    ghost invariant = { λ h. IsLegal h.first_seq h.first_file h.notes.items };
}

impl History {
    /// A history without notes, whose first sequence number and first file number are these.
    pub fn new(alloc: Global, first_seq: u64, first_file: u64) -> Self
        requires seq { 1 ≤ first_seq }
        requires seq_end { first_seq ≤ 2 ^ 56 }
        requires file { 1 ≤ first_file }
        requires file_end { first_file ≤ 2 ^ 56 }
        ensures seq { result.first_seq ≡ first_seq }
        ensures file { result.first_file ≡ first_file }
        ensures notes { result.notes ≡ [] }
    {
        History {
            first_seq,
            first_file,
            notes: Vec::new(alloc),
        }
    }

    /// Makes room for so many more notes.
    pub fn reserve(&mut self, more: usize) -> Result<(), AllocError>
        ensures seq { self.new.first_seq ≡ self.old.first_seq }
        ensures file { self.new.first_file ≡ self.old.first_file }
        ensures notes { self.new.notes ≡ self.old.notes }
        ensures room { OnOk result (more ≤ self.new.spare) }
        ensures no_less { self.old.spare ≤ self.new.spare }
        ensures unchanged { OnErr result (self.new ≡ self.old) }
    {
        self.notes.try_reserve(more)
    }

    /// For how many more notes there is room.
    pub fn spare(&self) -> usize
        ensures { result ≡ self.now.spare }
    {
        self.notes.capacity() - self.notes.len()
    }

    /// Puts a note behind the others. It takes no memory.
    pub fn push(&mut self, note: Note)
        requires room { 1 ≤ self.old.spare }
        requires stands { MayStand (state_of self.old) note }
        ensures seq { self.new.first_seq ≡ self.old.first_seq }
        ensures file { self.new.first_file ≡ self.old.first_file }
        ensures notes { self.new.notes ≡ self.old.notes ++ note ∷ [] }
        ensures spare { self.new.spare + 1 ≡ self.old.spare }
    {
        self.notes.push_reserved(note);
    }

    pub fn notes(&self) -> &[Note]
        ensures notes { result.now ≡ self.now.notes }
        ensures legal { IsLegal self.now.first_seq self.now.first_file self.now.notes }
        ensures short { length self.now.notes < 2 ^ 64 }
    {
        &self.notes
    }

    /// Gives the notes back, without memory.
    pub fn into_notes(self) -> Vec<Note>
        ensures notes { result.items ≡ self.notes }
        ensures legal { IsLegal self.first_seq self.first_file self.notes }
    {
        self.notes
    }
}
