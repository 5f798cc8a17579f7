//! Questions: how they are asked and answered.
ghost use Rattle.std.specs.Prelude.{◌≡◌, ◌<◌, ◌≤◌, All, length, map, IfOk, OnErr, IsTrue, Some};
ghost use Rattle.xdb_key.specs.Bounds.{key_hull};
ghost use Rattle.xdb_laws.specs.Answered.{question_bounds, is_of_now};
ghost use Rattle.xdb_mem.specs.Numbered.{RisesWithin};
ghost use Rattle.xdb_mem.specs.Queue.{groups, all_ops};
ghost use Rattle.xdb_plain.specs.Steps.{is_client, asked_number};
ghost use Rattle.xdb_plain.specs.declared.act.Act.TheVariants as act;
ghost use Rattle.xdb_plain.specs.declared.act.By.TheVariants.{Client};
ghost use Rattle.xdb_steps.specs.Parts.Asks.{IsNumbered};
ghost use Rattle.xdb_engine.specs.Asks.{ArePartsOf, IsOpened, IsAskedIn, IsAskedOf};
ghost use Rattle.xdb_engine.specs.Ends.{settle_note, settle_reply, after_settle};
ghost use Rattle.xdb_engine.specs.Holds.{holds_since};
ghost use Rattle.xdb_engine.specs.Questions.{plain_question, question_of};
ghost use Rattle.xdb_engine.specs.State.{ClientSteps, SetStands};
ghost use Rattle.xdb_engine.specs.Notes.{IsHolding, ask_note};
ghost use Rattle.xdb_engine.specs.View.{Adds};

use crate::Engine;
use crate::asks::MOST_QUESTIONS;
use crate::holds::let_go;
use crate::notes::Verdict;
use crate::questions::{AskedRead, Settled};
use crate::state::State;
use std::alloc::{AllocError, Global};
use std::sync::ledger::Ledger;
use xdb_device::FileRef;
use xdb_key::{Key, KeyRange};
use xdb_mem::MemQueue;
use xdb_order::{Hand, Pending, order};
use xdb_plain::{Act, By, HoldNote, Items, Place, Question, Reply};
use xdb_read::{ReadParts, ReadWork};

impl<F: FileRef, L: Ledger> Engine<F, L> {
    /// A client asks, in parts or not. The reply is `NoSuch` where the snapshot or the cursor isn't
    /// there, `TooMany` with 64 open questions, `Memory`, or `Asked`; with this one comes the hand for
    /// the work.
    pub fn ask(
        &mut self,
        client: u8,
        question: Question,
        parted: bool,
    ) -> (Reply, Option<Hand<ReadWork<F>>>)
        requires room { 1 ≤ self.old.spare }
        requires client { IsTrue (is_client (Client client)) }
        ensures note { Adds self.old self.new (ask_note (Client client) question parted result.0
            (holds_since self.old.questions self.new.questions)) }
        // What is handed out, and the questions that are open then.
        ensures asked { IsAskedOf self.old self.new (Client client) question parted result.0 result.1 }
    {
        let by = By::Client(client);
        let (verdict, hand) = ask(self.alloc, &mut self.state, by, question, parted);
        self.history.push(verdict.note);
        (verdict.reply, hand)
    }

    /// A client takes the answer to an open question: `NoSuch` where no question has the number,
    /// `NotYet` where its result isn't kept, or `Answered`. It takes no memory.
    pub fn settle(&mut self, client: u8, ask: u64) -> Reply
        requires room { 1 ≤ self.old.spare }
        requires client { IsTrue (is_client (Client client)) }
        ensures note { Adds self.old self.new (settle_note (Client client) ask self.old.questions result) }
        ensures reply { result ≡ settle_reply (question_of ask self.old.questions) }
        ensures questions { self.new.questions ≡ after_settle ask self.old.questions }
    {
        let verdict = settle(self.alloc, &mut self.state, By::Client(client), ask);
        self.history.push(verdict.note);
        verdict.reply
    }
}

/// Opens the question behind the others, and hands its parts out.
fn ask<F: FileRef>(
    alloc: Global,
    state: &mut State<F>,
    by: By,
    question: Question,
    parted: bool,
) -> (Verdict, Option<Hand<ReadWork<F>>>)
    requires rising { RisesWithin 1 state.old.numbers.next (all_ops (groups state.old.mem)) }
    requires numbered { All (IsNumbered state.old.numbers.asked)
        (map plain_question state.old.asks) }
    ensures note { IsHolding by (act.Ask (asked_number result.0.reply) question parted)
        (holds_since state.old.asks state.new.asks) result.0 }
    ensures asked { IsAskedIn state.old state.new by question parted result.0.reply result.1 }
    ensures step { ClientSteps F.bytes by state.old state.new result.0.note }
{
    if !is_of_now(&question) {
        let act = act_of(0, question, parted);
        return (
            Verdict::new(alloc, by, act, Reply::NoSuch, Reply::NoSuch),
            None,
        );
    }
    if state.asks.len() >= MOST_QUESTIONS {
        let act = act_of(0, question, parted);
        return (
            Verdict::new(alloc, by, act, Reply::TooMany, Reply::TooMany),
            None,
        );
    }
    match open(alloc, state, by, &question, parted) {
        Ok(NewQuestion { ask, hand, holds }) => {
            let act = act_of(ask, question, parted);
            let (noted, reply) = (Reply::Asked(ask), Reply::Asked(ask));
            let verdict = Verdict::holding(alloc, by, act, holds, noted, reply);
            (verdict, Some(hand))
        }
        Err(AllocError) => {
            let act = act_of(0, question, parted);
            (
                Verdict::new(alloc, by, act, Reply::Memory, Reply::Memory),
                None,
            )
        }
    }
}

fn act_of(ask: u64, question: Question, parted: bool) -> Act
    ensures { result ≡ act.Ask ask question parted }
{
    Act::Ask {
        ask,
        question,
        parted,
    }
}

/// A question that was opened: its number, the hand for its work, and what the note tells of its hold.
#[derive(Drop)]
pub struct NewQuestion<F: FileRef> {
    pub ask: u64,
    pub hand: Hand<ReadWork<F>>,
    pub holds: Items<HoldNote>,
}

/// Opens a question with the next number. Without a further number there is no room for it either.
fn open<F: FileRef>(
    alloc: Global,
    state: &mut State<F>,
    by: By,
    question: &Question,
    parted: bool,
) -> Result<NewQuestion<F>, AllocError>
    requires now { IsTrue (is_of_now question.now) }
    requires few { length state.old.asks < 64 }
    requires rising { RisesWithin 1 state.old.numbers.next (all_ops (groups state.old.mem)) }
    requires numbered { All (IsNumbered state.old.numbers.asked)
        (map plain_question state.old.asks) }
    ensures opened { IfOk result (IsOpened state.old state.new by question.now parted) }
    ensures unchanged { OnErr result (state.new ≡ state.old) }
{
    let Some(ask) = state.numbers.asked.checked_add(1) else {
        return Err(AllocError);
    };
    let parts = parts_of(alloc, &state.mem, state.numbers.next, question)?;
    let again = question.copy()?;
    let (desk, hand) = order(alloc, parts)?;
    let asked = AskedRead {
        number: ask,
        by,
        parted,
        question: again,
        work: Pending::new(desk),
    };
    let holds = state.asks.open(alloc, &mut state.files, asked)?;
    state.numbers.asked = ask;
    Ok(NewQuestion { ask, hand, holds })
}

/// What the question's answer needs.
fn parts_of<F>(
    alloc: Global,
    queue: &MemQueue,
    next: u64,
    question: &Question,
) -> Result<ReadParts<F>, AllocError>
    requires { IsTrue (is_of_now question.now) }
    ensures { IfOk result (ArePartsOf (groups queue.now) next question.now) }
{
    let bounds = bounds_of(question)?;
    let mem = queue.parts(&bounds, next)?;
    Ok(ReadParts {
        question: question.copy()?,
        place: Place::Before,
        bounds,
        at: next,
        mem,
        tables: Items::new(Vec::new(alloc)),
    })
}

/// The keys that the question speaks of.
fn bounds_of(question: &Question) -> Result<KeyRange, AllocError>
    requires { IsTrue (is_of_now question.now) }
    ensures { IfOk result (λ bounds. question_bounds question.now ≡ Some bounds) }
{
    match question {
        Question::Get { key, .. } => hull(key),
        Question::Scan { range, .. } | Question::RScan { range, .. } => range.copy(),
        Question::Move { .. } => unreachable!(),
    }
}

/// The range of the key alone.
fn hull(key: &Key) -> Result<KeyRange, AllocError>
    ensures { IfOk result (λ hull. hull ≡ key_hull key.now) }
{
    let lo = key.bound()?;
    let hi = key.successor()?;
    let Ok(hull) = KeyRange::new(lo, hi) else {
        unreachable!()
    };
    Ok(hull)
}

/// Whether the question is about what stands now.
fn is_of_now(question: &Question) -> bool
    ensures { result ≡ is_of_now question.now }
{
    match question {
        Question::Get { at, .. } | Question::Scan { at, .. } | Question::RScan { at, .. } => {
            at.is_none()
        }
        Question::Move { .. } => false,
    }
}

/// Ends the question where its result is kept.
fn settle<F: FileRef>(alloc: Global, state: &mut State<F>, by: By, ask: u64) -> Verdict
    requires set { SetStands F.bytes state.old }
    ensures note { result.note ≡ settle_note by ask state.old.asks result.reply }
    ensures reply { result.reply ≡ settle_reply (question_of ask state.old.asks) }
    ensures asks { state.new.asks ≡ after_settle ask state.old.asks }
    ensures step { ClientSteps F.bytes by state.old state.new result.note }
{
    let Settled {
        act,
        noted,
        told,
        hold,
    } = state.asks.settle(ask);
    let holds = let_go(alloc, &mut state.files, hold);
    Verdict::holding(alloc, by, act, holds, noted, told)
}
