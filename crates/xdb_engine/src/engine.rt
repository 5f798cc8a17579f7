//! The engine. Its calls stand with their topics.
ghost use Rattle.std.specs.Prelude.{◌≡◌, ◌+◌, ◌*◌, ◌≤◌, ◌^◌, [], false, length, map, All, IfSome, OnOk, OnErr};
ghost use Rattle.xdb_plain.specs.Counts.{dead};
ghost use Rattle.xdb_plain.specs.Failures.{faults, has_damage};
ghost use Rattle.xdb_plain.specs.Legal.{IsRight, TellHolds};
ghost use Rattle.xdb_plain.specs.State.{opening};
ghost use Rattle.xdb_engine.specs.Files.{AreTold};
ghost use Rattle.xdb_engine.specs.Questions.{plain_question, FitsGiven, HasNumber};
ghost use Rattle.xdb_engine.specs.View.{plain_of};

use crate::journal::Journal;
use crate::removals::Removals;
use crate::state::State;
use std::alloc::{AllocError, Global};
use std::marker::Model;
use std::sync::ledger::Ledger;
use xdb_device::{FaultBook, FileRef};
use xdb_history::History;
use xdb_plain::Note;

/// The value under the version lock, over files of one type and a ledger of faults.
///
/// Each recorded call asks for room for one note (`ready` makes it), adds exactly one note, and
/// answers that note's reply.
#[derive(Drop)]
pub struct Engine<F: FileRef, L: Ledger> {
    pub(crate) alloc: Global,
    pub(crate) state: State<F>,
    pub(crate) history: Journal,
    /// Whose files are being removed.
    pub(crate) removals: Removals,
    pub(crate) book: FaultBook<L>,
}

impl<F: FileRef, L: Ledger> Model for Engine<F, L> {
    ghost use Rattle.xdb_engine.specs.Files.{AreTold};
    ghost use Rattle.xdb_engine.specs.State.{StateStands};
    ghost use Rattle.xdb_engine.specs.View.{EngineView, engine_view};

    ghost Value = { EngineView F };

    ghost view = { λ e. engine_view e.history e.state.asks e.removals.numbers e.book };

    ghost invariant = { λ e. StateStands F.bytes (AreTold F.bytes) e.state e.history e.removals e.book };
}

impl<F: FileRef, L: Ledger> Engine<F, L> {
    /// An engine with an empty map, whose next sequence number and next file number are these. The
    /// book is a fresh one.
    pub fn new(alloc: Global, first_seq: u64, first_file: u64, book: FaultBook<L>) -> Self
        requires seq { 1 ≤ first_seq }
        requires seq_end { first_seq ≤ 2 ^ 56 }
        requires file { 1 ≤ first_file }
        requires file_end { first_file ≤ 2 ^ 56 }
        requires book { book ≡ 0 }
        ensures seq { result.first_seq ≡ first_seq }
        ensures file { result.first_file ≡ first_file }
        ensures notes { result.notes ≡ [] }
        ensures questions { result.questions ≡ [] }
        ensures removals { result.removals ≡ [] }
        ensures book { result.book ≡ 0 }
    {
        Engine {
            alloc,
            state: State::new(alloc, first_seq, first_file),
            history: Journal::new(alloc, first_seq, first_file),
            removals: Removals::new(alloc),
            book,
        }
    }

    /// Makes room for the notes of what is open or being removed, and for four more. An error means that memory ran
    /// out.
    pub fn ready(&mut self) -> Result<(), AllocError>
        ensures room { OnOk result
            (4 + 2 * (length self.new.questions + length self.new.removals) ≤ self.new.spare) }
        ensures no_less { self.old.spare ≤ self.new.spare }
        ensures same { self.new ≡ record self.old { spare = self.new.spare } }
        ensures unchanged { OnErr result (self.new ≡ self.old) }
    {
        let Some(more) = notes_for(self.state.asks.len(), self.removals.len()) else {
            return Err(AllocError);
        };
        self.history.reserve(&mut self.removals, more)
    }

    /// For how many more notes there is room.
    pub fn spare(&self) -> usize
        ensures { result ≡ self.now.spare }
    {
        self.history.spare()
    }

    /// The history so far.
    pub fn notes(&self) -> &[Note]
        ensures notes { result.now ≡ self.now.notes }
        ensures right { IsRight self.now.first_seq self.now.first_file self.now.notes }
        // Each note tells the holds of versions that its step takes and lets go.
        ensures holds { TellHolds (opening self.now.first_seq self.now.first_file) self.now.notes }
        // What the parts of each open question mean is its answer.
        ensures questions { map plain_question self.now.questions ≡ (plain_of self.now).questions }
        // Each has a number that was given, and was asked by a client.
        ensures numbered { All (HasNumber (plain_of self.now).asked) self.now.questions }
        // What is kept for one fits what was handed out for it.
        ensures fits { All (FitsGiven F.bytes) self.now.questions }
        // The book is the number of failures of devices that the notes tell.
        ensures book { self.now.book ≡ faults self.now.notes }
        ensures undamaged { AreTold F.bytes → has_damage self.now.notes ≡ false }
    {
        // With the number of the questions comes what holds of them.
        let _open = self.state.asks.len();
        self.history.notes()
    }

    /// Ends the engine.
    pub fn into_history(self) -> (History, FaultBook<L>)
        ensures seq { result.0.first_seq ≡ self.first_seq }
        ensures file { result.0.first_file ≡ self.first_file }
        ensures notes { result.0.notes ≡ self.notes }
        ensures book { result.1 ≡ self.book }
        ensures right { IsRight self.first_seq self.first_file self.notes }
        ensures holds { TellHolds (opening self.first_seq self.first_file) self.notes }
        // The notes tell of as many failures of devices as were booked, and of no damage over files
        // that tell their bytes.
        ensures booked { result.1 ≡ faults self.notes }
        ensures undamaged { AreTold F.bytes → has_damage self.notes ≡ false }
        // No file is there yet that could be removed.
        ensures clean { dead (plain_of self) ≡ [] }
    {
        (self.history.into_history(), self.book)
    }
}

/// How many notes so many questions and removals may need.
fn notes_for(questions: usize, removals: usize) -> Option<usize>
    ensures { IfSome result (λ more. more ≡ 4 + 2 * (questions + removals)) }
{
    questions
        .checked_add(removals)?
        .checked_mul(2)?
        .checked_add(4)
}
