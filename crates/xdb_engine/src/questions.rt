//! An open question, and how it ends.
ghost use Rattle.std.specs.Prelude.{◌≡◌, Some, is_some, IsSome};
ghost use Rattle.xdb_read.specs.Fits.{ReadFits};
ghost use Rattle.xdb_engine.specs.Opening.{read_of};
ghost use Rattle.xdb_engine.specs.Questions.{with_story, FitsGiven, LooksUnlessKept};
ghost use Rattle.xdb_engine.specs.Ends.{answer_act, answer_of, failure};

use crate::holds::VersionHold;
use std::marker::Model;
use xdb_device::FileRef;
use xdb_order::Pending;
use xdb_plain::{Act, By, Question, Reply};
use xdb_read::{ReadDone, ReadParts, ReadWork};

/// A question as it is asked, before it holds its version.
#[derive(Drop)]
pub struct AskedRead<F: FileRef> {
    pub number: u64,
    pub by: By,
    pub parted: bool,
    /// The question once more, for the note of its end.
    pub question: Question,
    pub work: Pending<ReadWork<F>>,
}

/// A question that was asked and has no reply yet.
#[derive(Drop)]
pub struct OpenRead<F: FileRef> {
    asked: AskedRead<F>,
    hold: VersionHold,
}

impl<F: FileRef> Model for OpenRead<F> {
    ghost use Rattle.std.specs.Prelude.{◌≡◌};
    ghost use Rattle.xdb_engine.specs.Questions.{Asking, asking};

    ghost Value = { Asking F };

    ghost view = { λ q. let a = q.asked in
        asking a.number a.by a.parted a.work.given q.hold a.work.story a.work.kept };

    ghost invariant = { λ q. q.asked.question ≡ q.asked.work.given.question };
}

/// What comes of a settle: the act of its note, its reply twice, and the hold that the question had.
#[derive(Drop)]
pub struct Settled {
    pub act: Act,
    pub noted: Reply,
    pub told: Reply,
    pub hold: Option<VersionHold>,
}

/// What comes of a question that ends in vain: who tells that and as what, and the hold that it had.
#[derive(Drop)]
pub struct Failure {
    pub by: By,
    pub act: Act,
    pub hold: VersionHold,
}

impl<F: FileRef> OpenRead<F> {
    /// Its desk hasn't looked for the result yet, or in vain.
    pub fn new(asked: AskedRead<F>, hold: VersionHold) -> Self
        requires { asked.question ≡ asked.work.given.question }
        ensures { result ≡ read_of asked hold }
    {
        OpenRead { asked, hold }
    }

    pub fn number(&self) -> u64
        ensures { result ≡ self.now.ask }
    {
        self.asked.number
    }

    pub fn given(&self) -> &ReadParts<F>
        ensures { result.now ≡ self.now.given }
    {
        self.asked.work.given()
    }

    /// Whether its result is kept.
    pub fn is_kept(&self) -> bool
        ensures kept { result ≡ is_some self.now.kept }
        ensures fits { FitsGiven F.bytes self.now }
    {
        self.asked.work.is_kept()
    }

    /// Looks for the result where none is kept, and answers whether one is kept then. It never waits.
    pub fn arrived(&mut self) -> bool
        ensures same { self.new ≡ with_story self.old self.new.story self.new.kept }
        ensures look { LooksUnlessKept self.old.kept self.old self.new }
        ensures tells { result ≡ is_some self.new.kept }
        ensures fits { FitsGiven F.bytes self.new }
    {
        self.asked.work.arrived()
    }

    /// Keeps a result.
    pub fn bring(&mut self, done: ReadDone)
        requires { ReadFits F.bytes self.old.given done }
        ensures kept { self.new ≡ with_story self.old self.old.story (Some done) }
        ensures same { self.new ≡ with_story self.old self.new.story self.new.kept }
        ensures fits { FitsGiven F.bytes self.new }
    {
        self.asked.work.bring(done);
    }

    /// Ends it with its answer, where its result is kept.
    pub fn into_answer(self) -> Settled
        requires { IsSome self.kept }
        ensures act { result.act ≡ answer_act self }
        ensures noted { result.noted ≡ answer_of self.kept }
        ensures told { result.told ≡ answer_of self.kept }
        ensures hold { result.hold ≡ Some self.hold }
    {
        let OpenRead { asked, hold } = self;
        let AskedRead {
            number,
            parted,
            question,
            work,
            ..
        } = asked;
        let Some(done) = work.into_kept() else {
            unreachable!()
        };
        let act = if parted {
            Act::Settle { ask: number }
        } else {
            Act::Ask {
                ask: number,
                question,
                parted,
            }
        };
        Settled {
            act,
            noted: Reply::Answered(done.answer),
            told: Reply::Answered(done.again),
            hold: Some(hold),
        }
    }

    /// Ends it in vain.
    pub fn into_failure(self) -> Failure
        ensures told { (result.by, result.act) ≡ failure (Some self) }
        ensures hold { result.hold ≡ self.hold }
    {
        let OpenRead { asked, hold } = self;
        let AskedRead {
            number,
            by,
            parted,
            question,
            ..
        } = asked;
        if parted {
            let act = Act::Work { ask: number };
            Failure {
                by: By::Db,
                act,
                hold,
            }
        } else {
            let act = Act::Ask {
                ask: number,
                question,
                parted,
            };
            Failure { by, act, hold }
        }
    }
}
