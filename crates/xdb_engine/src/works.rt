//! Work that is under way, by what it is for.
ghost use Rattle.std.specs.Prelude.{◌≡◌, [], None, Some, map, IfSome, IsSome};
ghost use Rattle.std.specs.Option.{option_map, option_copied};
ghost use Rattle.xdb_read.specs.Fits.{ReadFits};
ghost use Rattle.xdb_vset.specs.Seen.{Seen};
ghost use Rattle.xdb_engine.specs.Holds.{ask_holds};
ghost use Rattle.xdb_engine.specs.Questions.{AreAsks, is_kept, parts_by, plain_question, question_by, with_result, LooksBy};
ghost use Rattle.xdb_engine.specs.View.{with_questions, lent_parts, FitsQuestion, IsBroughtTo};

use crate::asks::Asks;
use crate::{Engine, Given, Id, OpenRead, Outcome};
use std::sync::ledger::Ledger;
use xdb_device::FileRef;
use xdb_read::ReadDone;

impl<F: FileRef, L: Ledger> Engine<F, L> {
    /// Looks for the result of work that is under way where none is kept, and answers whether one is
    /// kept then. It isn't recorded; it takes no memory and never waits.
    pub fn arrived(&mut self, id: Id) -> bool
        ensures looked { LooksBy F.bytes id self.old.questions self.new.questions result }
        ensures same { self.new ≡ with_questions self.old self.new.questions }
    {
        look(&mut self.state.asks, id)
    }

    /// Keeps the result of work that is under way and has none. It isn't recorded, and takes no
    /// memory.
    pub fn bring(&mut self, id: Id, out: Outcome)
        requires there { IsSome (question_by id self.old.questions) }
        requires waits { IfSome (question_by id self.old.questions) (λ q. q.kept ≡ None) }
        requires fits { IfSome (question_by id self.old.questions) (λ q. FitsQuestion F.bytes q out) }
        ensures { IsBroughtTo id out self.old self.new }
    {
        let Outcome::Read(done) = out;
        bring(&mut self.state.asks, id, done);
    }

    /// What was handed out for work that is under way; none where there is no such work.
    pub fn given(&self, id: &Id) -> Option<Given<'_, F>>
        ensures lent { lent_parts result ≡ parts_by id.now self.now.questions }
        // No tables are handed out yet.
        ensures bare { IfSome (lent_parts result) (λ parts. parts.tables ≡ []) }
    {
        let question = find(&self.state.asks, *id)?;
        Some(Given::Read(question.given()))
    }

    /// Whether a result is kept for work that is under way.
    pub fn is_kept(&self, id: &Id) -> bool
        ensures { result ≡ is_kept (question_by id.now self.now.questions) }
    {
        match find(&self.state.asks, *id) {
            Some(question) => question.is_kept(),
            None => false,
        }
    }

    /// The first file number and the number of file numbers that work under way may use. A question
    /// has none.
    pub fn reserved(&self, id: &Id) -> Option<(u64, u64)>
        ensures { result ≡ option_map (λ q. (0, 0)) (question_by id.now self.now.questions) }
    {
        find(&self.state.asks, *id).map(|_| (0, 0))
    }
}

fn find<F: FileRef>(asks: &Asks<F>, id: Id) -> Option<&OpenRead<F>>
    ensures found { option_copied result ≡ question_by id asks.now }
    ensures asks { AreAsks F.bytes asks.now }
{
    // With the number of the questions comes what holds of them.
    let _open = asks.len();
    match id {
        Id::Ask(ask) => asks.find(ask),
        Id::Job(_) | Id::Load(_) => None,
    }
}

fn look<F: FileRef>(asks: &mut Asks<F>, id: Id) -> bool
    ensures looks { LooksBy F.bytes id asks.old asks.new result }
    ensures same { map plain_question asks.new ≡ map plain_question asks.old }
    ensures holds { (set : Seen F) → ask_holds set asks.new ≡ ask_holds set asks.old }
{
    match id {
        Id::Ask(ask) => asks.look(ask),
        Id::Job(_) | Id::Load(_) => false,
    }
}

fn bring<F: FileRef>(asks: &mut Asks<F>, id: Id, done: ReadDone)
    requires there { IsSome (question_by id asks.old) }
    requires fits { IfSome (question_by id asks.old) (λ q. ReadFits F.bytes q.given done) }
    ensures placed { IfSome (question_by id asks.old) (λ q. asks.new ≡ with_result q done asks.old) }
    ensures same { map plain_question asks.new ≡ map plain_question asks.old }
    ensures holds { (set : Seen F) → ask_holds set asks.new ≡ ask_holds set asks.old }
{
    let Id::Ask(ask) = id else { unreachable!() };
    asks.bring(ask, done);
}
