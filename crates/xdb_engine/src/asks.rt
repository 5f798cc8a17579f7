//! The open questions of an engine, in the order of their numbers.
ghost use Rattle.std.specs.Prelude.{◌≡◌, ◌<◌, ◌++◌, ◌∷◌, [], All, length, map, IfOk, IfSome, IsSome, None, Some, OnErr};
ghost use Rattle.std.specs.Option.{option_copied};
ghost use Rattle.xdb_lists.specs.Keyed.{IsRising};
ghost use Rattle.xdb_plain.specs.declared.act.Act.TheVariants as act;
ghost use Rattle.xdb_rangedel.specs.Content.{IsClear};
ghost use Rattle.xdb_read.specs.Fits.{mem_content, ReadFits};
ghost use Rattle.xdb_engine.specs.Questions.{AreAsks, IsPlaceOf, LooksFor, plain_question, question_of, with_result};
ghost use Rattle.xdb_engine.specs.Ends.{IsSettled, failure, failure_hold, failure_leaves};
ghost use Rattle.xdb_engine.specs.Holds.{ask_holds};
ghost use Rattle.xdb_engine.specs.Opening.{IsOpenBehind};
ghost use Rattle.xdb_vset.specs.Seen.{Seen};

use crate::OpenRead;
use crate::holds::hold_current;
use crate::questions::{AskedRead, Failure, Settled};
use std::alloc::{AllocError, Global};
use std::marker::Model;
use xdb_device::FileRef;
use xdb_plain::{Act, HoldNote, Items, Reply};
use xdb_read::ReadDone;
use xdb_vset::VersionSet;

/// As many questions may be open.
pub const MOST_QUESTIONS: usize = 64;

/// The open questions. What each was handed has no tables and is clear, and what is kept for one fits
/// that.
#[derive(Drop)]
pub struct Asks<F: FileRef> {
    questions: Vec<OpenRead<F>>,
}

impl<F: FileRef> Model for Asks<F> {
    ghost use Rattle.std.specs.Prelude.{List};
    ghost use Rattle.xdb_engine.specs.Questions.{Asking, AreAsks};

    ghost Value = { List (Asking F) };

    ghost view = { λ a. a.questions.items };

    ghost invariant = { λ a. AreAsks F.bytes a.questions.items };
}

impl<F: FileRef> Asks<F> {
    /// None. It takes no memory.
    pub fn new(alloc: Global) -> Self
        ensures { result ≡ [] }
    {
        Asks {
            questions: Vec::new(alloc),
        }
    }

    pub fn len(&self) -> usize
        ensures len { result ≡ length self.now }
        // What holds of the open questions at any time.
        ensures asks { AreAsks F.bytes self.now }
    {
        self.questions.len()
    }

    /// The question of the number.
    pub fn find(&self, ask: u64) -> Option<&OpenRead<F>>
        ensures found { option_copied result ≡ question_of ask self.now }
        ensures asks { AreAsks F.bytes self.now }
    {
        let at = place(&self.questions, ask)?;
        Some(&self.questions[at])
    }

    /// Opens a question behind the others, which holds the current version, and answers what the note
    /// of the step tells of that.
    pub fn open(
        &mut self,
        alloc: Global,
        files: &mut VersionSet<F>,
        question: AskedRead<F>,
    ) -> Result<Items<HoldNote>, AllocError>
        requires few { length self.old < 64 }
        requires last { All (λ q. q.ask < question.number) self.old }
        requires same { question.question ≡ question.work.given.question }
        requires bare { question.work.given.tables ≡ [] }
        requires clear { IsClear (mem_content question.work.given) }
        requires waits { question.work.kept ≡ None }
        ensures opened { IfOk result (IsOpenBehind question self.old self.new files.old files.new) }
        ensures unchanged { OnErr result (self.new ≡ self.old) }
        ensures kept { OnErr result (files.new ≡ files.old) }
    {
        self.questions.try_reserve(1)?;
        let (hold, taking) = hold_current(alloc, files)?;
        self.questions.push_reserved(OpenRead::new(question, hold));
        Ok(taking)
    }

    /// Ends the question where its result is kept. It takes no memory.
    pub fn settle(&mut self, ask: u64) -> Settled
        ensures settled { IsSettled ask (question_of ask self.old) self.old self.new result }
        // So that the caller has it of what was kept.
        ensures asks { AreAsks F.bytes self.old }
    {
        let Some(at) = place(&self.questions, ask) else {
            return early(ask, Reply::NoSuch, Reply::NoSuch);
        };
        if !self.questions[at].is_kept() {
            return early(ask, Reply::NotYet, Reply::NotYet);
        }
        self.questions.remove(at).into_answer()
    }

    /// Ends the question in vain. It takes no memory.
    pub fn fail(&mut self, ask: u64) -> Failure
        requires { IsSome (question_of ask self.old) }
        ensures told { (result.by, result.act) ≡ failure (question_of ask self.old) }
        ensures hold { Some result.hold ≡ failure_hold (question_of ask self.old) }
        ensures leaves { self.new ≡ failure_leaves (question_of ask self.old) self.old }
    {
        let Some(at) = place(&self.questions, ask) else {
            unreachable!()
        };
        self.questions.remove(at).into_failure()
    }

    /// Looks for the result of the question where none is kept, and answers whether one is kept then.
    pub fn look(&mut self, ask: u64) -> bool
        ensures looks { LooksFor F.bytes (question_of ask self.old) self.old self.new result }
        ensures same { map plain_question self.new ≡ map plain_question self.old }
        ensures holds { (set : Seen F) → ask_holds set self.new ≡ ask_holds set self.old }
    {
        let Some(at) = place(&self.questions, ask) else {
            return false;
        };
        let question = &mut self.questions[at];
        question.arrived()
    }

    /// Keeps the result of the question.
    pub fn bring(&mut self, ask: u64, done: ReadDone)
        requires there { IsSome (question_of ask self.old) }
        requires fits { IfSome (question_of ask self.old) (λ q. ReadFits F.bytes q.given done) }
        ensures placed { IfSome (question_of ask self.old) (λ q. self.new ≡ with_result q done self.old) }
        ensures same { map plain_question self.new ≡ map plain_question self.old }
        ensures holds { (set : Seen F) → ask_holds set self.new ≡ ask_holds set self.old }
    {
        let Some(at) = place(&self.questions, ask) else {
            unreachable!()
        };
        let question = &mut self.questions[at];
        question.bring(done);
    }
}

/// The place of the question of the number.
fn place<F: FileRef>(questions: &[OpenRead<F>], ask: u64) -> Option<usize>
    requires { IsRising (λ q. q.ask) questions.now }
    ensures { IsPlaceOf ask questions.now result }
{
    match questions.binary_search_by(|other| other.number().cmp(&ask)) {
        Ok(at) => Some(at),
        Err(_) => None,
    }
}

/// The settle of no question, or of one whose result isn't kept.
fn early(ask: u64, noted: Reply, told: Reply) -> Settled
    ensures act { result.act ≡ act.Settle ask }
    ensures noted { result.noted ≡ noted }
    ensures told { result.told ≡ told }
    ensures hold { result.hold ≡ None }
{
    let act = Act::Settle { ask };
    Settled {
        act,
        noted,
        told,
        hold: None,
    }
}
