//! Commits and seals.
ghost use Rattle.std.specs.Prelude.{◌≡◌, ◌<◌, ◌≤◌, ◌^◌, length, IsTrue};
ghost use Rattle.xdb_mem.specs.Queue.{Queue};
ghost use Rattle.xdb_plain.specs.Fences.{fence_touched};
ghost use Rattle.xdb_plain.specs.Steps.{is_client};
ghost use Rattle.xdb_plain.specs.declared.act.Act.TheVariants as act;
ghost use Rattle.xdb_plain.specs.declared.act.By.TheVariants.{Client, Db};
ghost use Rattle.xdb_steps.specs.Notes.{plain_note};
ghost use Rattle.xdb_engine.specs.State.{Steps, ClientSteps};
ghost use Rattle.xdb_engine.specs.Notes.{IsPlain, commit_note};
ghost use Rattle.xdb_engine.specs.View.{plain_of, Adds};

use crate::Engine;
use crate::notes::Verdict;
use crate::state::State;
use std::alloc::{AllocError, Global};
use std::sync::ledger::Ledger;
use xdb_batch::Batch;
use xdb_device::FileRef;
use xdb_key::{Name, Op};
use xdb_plain::{Act, By, CommitForm, Reply};

/// Sequence numbers are below this one.
const END: u64 = 1 << 56;

impl<F: FileRef, L: Ledger> Engine<F, L> {
    /// Operations of a client take effect, in their order. The reply is `Fenced` by the first open
    /// load whose fence they touch, `Spent` where numbers are wanting, `Memory`, or `Done`.
    pub fn commit(&mut self, client: u8, form: CommitForm, batch: Batch) -> Reply
        requires room { 1 ≤ self.old.spare }
        requires client { IsTrue (is_client (Client client)) }
        ensures note { Adds self.old self.new (commit_note (Client client) form batch result) }
        ensures questions { self.new.questions ≡ self.old.questions }
    {
        let verdict = commit(self.alloc, &mut self.state, By::Client(client), form, batch);
        self.history.push(verdict.note);
        verdict.reply
    }

    /// Seals the active group: the reply is its number, or `Nothing` where it is empty. It takes no
    /// memory.
    pub fn seal(&mut self) -> Reply
        requires room { 1 ≤ self.old.spare }
        ensures note { Adds self.old self.new (plain_note Db act.Seal result) }
        ensures questions { self.new.questions ≡ self.old.questions }
    {
        let verdict = seal(self.alloc, &mut self.state);
        self.history.push(verdict.note);
        verdict.reply
    }

    /// The first open load, in order of opening, whose fence one of the operations touches. No load
    /// is built yet, so there is none.
    pub fn fence_on(&self, _ops: &[Op]) -> Option<Name>
        ensures { result ≡ fence_touched _ops.now (plain_of self.now).loads }
    {
        // With a field of the engine comes what every engine keeps.
        let _next = self.state.numbers.next;
        None
    }

    /// The number of the active group.
    pub fn active_group(&self) -> u64
        ensures { result ≡ (plain_of self.now).active.num }
    {
        self.state.mem.active_group()
    }

    /// How many operations the active group has.
    pub fn active_ops(&self) -> usize
        ensures { result ≡ length (plain_of self.now).active.ops }
    {
        self.state.mem.active_ops()
    }
}

/// Commits the operations under the numbers from the next one on, where these are there and memory
/// is.
fn commit<F: FileRef>(
    alloc: Global,
    state: &mut State<F>,
    by: By,
    form: CommitForm,
    batch: Batch,
) -> Verdict
    requires above { state.old.mem.greatest < state.old.numbers.next }
    requires upto { state.old.numbers.next ≤ 2 ^ 56 }
    ensures note { IsPlain by (act.Commit form batch) result }
    ensures step { ClientSteps F.bytes by state.old state.new result.note }
    ensures asks { state.new.asks ≡ state.old.asks }
{
    let next = state.numbers.next;
    let count = batch.ops().len() as u64;
    if END - next < count {
        let act = act_of(form, batch);
        return Verdict::new(alloc, by, act, Reply::Spent, Reply::Spent);
    }
    if state.mem.commit(next, &batch).is_err() {
        let act = act_of(form, batch);
        return Verdict::new(alloc, by, act, Reply::Memory, Reply::Memory);
    }
    state.numbers.next = next + count;
    let act = act_of(form, batch);
    Verdict::new(alloc, by, act, Reply::Done, Reply::Done)
}

fn act_of(form: CommitForm, batch: Batch) -> Act
    ensures { result ≡ act.Commit form batch }
{
    Act::Commit {
        form,
        ops: batch.into_ops(),
    }
}

/// Seals the active group where it has operations.
fn seal<F: FileRef>(alloc: Global, state: &mut State<F>) -> Verdict
    ensures note { IsPlain Db act.Seal result }
    ensures step { Steps F.bytes 0 state.old state.new result.note }
    ensures asks { state.new.asks ≡ state.old.asks }
{
    match state.mem.seal() {
        None => Verdict::new(alloc, By::Db, Act::Seal, Reply::Nothing, Reply::Nothing),
        Some(group) => {
            Verdict::new(
                alloc,
                By::Db,
                Act::Seal,
                Reply::Group(group),
                Reply::Group(group),
            )
        }
    }
}
