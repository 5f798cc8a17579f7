//! Files that nothing needs any more: their numbers are taken, and what can't be removed is told.
ghost use Rattle.std.specs.Prelude.{◌≡◌, ◌+◌, ◌≤◌, ◌++◌, ◌∷◌, [], length, IsTrue, OnErr, OnOk, Err, Some};
ghost use Rattle.xdb_device.specs.Faults.{Rose};
ghost use Rattle.xdb_device.specs.Rig.{removal_of, risen_of, spent_of};
ghost use Rattle.xdb_device.specs.declared.fault.DevNo.TheVariants.{Failed};
ghost use Rattle.xdb_lists.specs.Numbers.{is_among};
ghost use Rattle.xdb_plain.specs.Counts.{dead};
ghost use Rattle.xdb_plain.specs.declared.act.Act.TheVariants as act;
ghost use Rattle.xdb_plain.specs.declared.act.By.TheVariants.{Db};
ghost use Rattle.xdb_plain.specs.declared.reply.Reply.TheVariants.{Stuck};
ghost use Rattle.xdb_steps.specs.Notes.{plain_note};
ghost use Rattle.xdb_engine.specs.Charges.{Charges, ChargesIf};
ghost use Rattle.xdb_engine.specs.Notes.{IsPlain};
ghost use Rattle.xdb_engine.specs.Removals.{reap_reply, taken_by, without_number};
ghost use Rattle.xdb_engine.specs.State.{Steps};
ghost use Rattle.xdb_engine.specs.Reaped.{EndsRemoval, is_stuck, stays_note};
ghost use Rattle.xdb_engine.specs.View.{Adds, AddsFault, plain_of};

use crate::Engine;
use crate::notes::Verdict;
use crate::state::State;
use std::alloc::{AllocError, Global};
use std::marker::Model;
use std::sync::ledger::Ledger;
use xdb_device::{DevNo, FileRef, Reader, Rig};
use xdb_plain::{Act, By, Reply};
use xdb_vset::Dead;

/// The numbers that were taken, each until its removal ends.
#[derive(Debug, Drop)]
pub struct Removals {
    numbers: Vec<u64>,
}

impl Model for Removals {
    ghost use Rattle.std.specs.Prelude.{◌-◌, vec_len};
    ghost use Rattle.std.specs.Vec.{vec_capacity};
    ghost use Rattle.xdb_engine.specs.Removals.{Removing, removing};

    ghost Value = { Removing };

    ghost view = { λ r. removing r.numbers.items (vec_capacity r.numbers - vec_len r.numbers) };
}

impl Removals {
    pub fn new(alloc: Global) -> Self
        ensures { result.numbers ≡ [] }
    {
        Removals {
            numbers: Vec::new(alloc),
        }
    }

    pub fn len(&self) -> usize
        ensures { result ≡ length self.now.numbers }
    {
        self.numbers.len()
    }

    /// Makes room for so many more.
    pub fn reserve(&mut self, more: usize) -> Result<(), AllocError>
        ensures numbers { self.new.numbers ≡ self.old.numbers }
        ensures room { OnOk result (more ≤ self.new.room) }
        ensures no_less { self.old.room ≤ self.new.room }
    {
        self.numbers.try_reserve(more)
    }

    /// A number is taken, if one is. It takes no memory.
    fn add(&mut self, dead: &Option<Dead>)
        requires { 1 ≤ self.old.room }
        ensures numbers { self.new.numbers ≡ self.old.numbers ++ taken_by dead.now }
        ensures room { self.old.room ≤ self.new.room + 1 }
    {
        if let Some(dead) = dead {
            self.numbers.push_reserved(dead.num());
        }
    }

    fn has(&self, num: u64) -> bool
        ensures { result ≡ is_among num self.now.numbers }
    {
        self.numbers.iter().any(|other| *other == num)
    }

    /// Takes the number out.
    fn take_out(&mut self, num: u64)
        ensures numbers { self.new.numbers ≡ without_number num self.old.numbers }
        ensures room { self.old.room ≤ self.new.room }
    {
        self.numbers.retain(|other| *other != num);
    }
}

impl<F: FileRef, L: Ledger> Engine<F, L> {
    /// How many numbers are dead.
    pub fn dead_len(&self) -> usize
        ensures { result ≡ length (dead (plain_of self.now)) }
    {
        // With the current version comes what holds of every set.
        let _current = self.state.files.current();
        self.state.files.dead_len()
    }

    /// The owner takes the least dead number, and removes its file then: `Took`, or `Nothing` where no
    /// number is dead. It takes no memory.
    pub fn reap(&mut self) -> (Reply, Option<Dead>)
        requires room { 1 ≤ self.old.spare }
        ensures note { Adds self.old self.new (plain_note Db act.Reap result.0) }
        ensures reply { result.0 ≡ reap_reply result.1 }
        ensures questions { self.new.questions ≡ self.old.questions }
        ensures removals { self.new.removals ≡ self.old.removals ++ taken_by result.1 }
    {
        let (verdict, dead) = reap(self.alloc, &mut self.state);
        self.removals.add(&dead);
        self.history.push(verdict.note);
        (verdict.reply, dead)
    }

    /// The file of a number that was taken couldn't be removed: the last removal through the rig
    /// failed, which is booked. It takes no memory.
    pub fn stuck<R: Reader>(&mut self, num: u64, rig: &mut Rig<'_, R, L>) -> Reply
        requires room { 1 ≤ self.old.spare }
        requires taken { IsTrue (is_among num (plain_of self.old).taken) }
        requires removal { removal_of rig.old ≡ Some (num, Err Failed) }
        requires unspent { Rose (spent_of rig.old) (risen_of rig.old) }
        ensures note { AddsFault self.old self.new (plain_note Db (act.Remove num) result) }
        ensures reply { result ≡ Stuck }
        ensures questions { self.new.questions ≡ self.old.questions }
        ensures removals { self.new.removals ≡ self.old.removals }
        ensures charged { Charges rig.old rig.new }
    {
        let verdict = stays(self.alloc, num, Reply::Stuck, Reply::Stuck);
        self.book.charge(rig);
        self.history.push(verdict.note);
        verdict.reply
    }

    /// The removal of a dead number's file ended. Where it failed, which is booked, or memory was
    /// wanting, a note tells so. The number isn't tried again. Where this engine doesn't wait for the
    /// removal, nothing is told. It takes no memory.
    pub fn reaped<R: Reader>(
        &mut self,
        dead: Dead,
        answer: Result<(), DevNo>,
        rig: &mut Rig<'_, R, L>,
    )
        requires removal { removal_of rig.old ≡ Some (dead, answer) }
        requires room { OnErr answer (1 ≤ self.old.spare) }
        requires unspent { answer ≡ Err Failed → Rose (spent_of rig.old) (risen_of rig.old) }
        ensures ends { EndsRemoval dead answer self.old self.new }
        ensures charged { ChargesIf (is_stuck dead answer self.old.removals) rig.old rig.new }
    {
        let num = dead.num();
        self.state.files.spend(dead);
        if !self.removals.has(num) {
            return;
        }
        self.removals.take_out(num);
        match answer {
            Ok(()) => (),
            Err(DevNo::Failed) => {
                let verdict = stays(self.alloc, num, Reply::Stuck, Reply::Stuck);
                self.book.charge(rig);
                self.history.push(verdict.note);
            }
            Err(DevNo::Memory) => {
                let verdict = stays(self.alloc, num, Reply::Memory, Reply::Memory);
                self.history.push(verdict.note);
            }
        }
    }
}

/// The file of the number stays.
fn stays(alloc: Global, num: u64, noted: Reply, reply: Reply) -> Verdict
    requires { noted ≡ reply }
    ensures note { result.note ≡ stays_note num reply }
    ensures reply { result.reply ≡ reply }
{
    Verdict::new(alloc, By::Db, Act::Remove { num }, noted, reply)
}

/// Takes the least dead number.
fn reap<F: FileRef>(alloc: Global, state: &mut State<F>) -> (Verdict, Option<Dead>)
    ensures note { IsPlain Db act.Reap result.0 }
    ensures reply { result.0.reply ≡ reap_reply result.1 }
    ensures step { Steps F.bytes 0 state.old state.new result.0.note }
    ensures asks { state.new.asks ≡ state.old.asks }
{
    // With the current version comes what holds of every set.
    let _current = state.files.current();
    if state.files.dead_len() == 0 {
        let verdict = Verdict::new(alloc, By::Db, Act::Reap, Reply::Nothing, Reply::Nothing);
        return (verdict, None);
    }
    let Some(dead) = state.files.take_dead() else {
        unreachable!()
    };
    let (noted, reply) = (Reply::Took(dead.num()), Reply::Took(dead.num()));
    let verdict = Verdict::new(alloc, By::Db, Act::Reap, noted, reply);
    (verdict, Some(dead))
}
