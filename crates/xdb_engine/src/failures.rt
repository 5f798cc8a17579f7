//! Work that ends in vain, and work that there is none of.
ghost use Rattle.std.specs.Prelude.{◌≡◌, ◌≤◌, [], IsTrue, IsSome};
ghost use Rattle.xdb_plain.specs.declared.act.By.TheVariants.{Db};
ghost use Rattle.xdb_plain.specs.declared.reply.Reply.TheVariants as reply;
ghost use Rattle.xdb_steps.specs.Notes.{plain_note, is_work};
ghost use Rattle.xdb_engine.specs.Ends.{lack_note, after_failure};
ghost use Rattle.xdb_engine.specs.Questions.{question_by};
ghost use Rattle.xdb_engine.specs.State.{SetStands, Steps};
ghost use Rattle.xdb_engine.specs.View.{Adds};

use crate::holds::let_go;
use crate::notes::Verdict;
use crate::questions::Failure;
use crate::state::State;
use crate::{Engine, Id};
use std::alloc::Global;
use std::sync::ledger::Ledger;
use xdb_device::FileRef;
use xdb_plain::{Act, By, Reply};

impl<F: FileRef, L: Ledger> Engine<F, L> {
    /// Work that is under way ends for want of memory. No number was tried for a question. It takes no
    /// memory.
    pub fn lack(&mut self, id: Id, tried: Vec<u64>) -> Reply
        requires room { 1 ≤ self.old.spare }
        requires there { IsSome (question_by id self.old.questions) }
        requires tried { tried.items ≡ [] }
        ensures note { Adds self.old self.new (lack_note id self.old.questions result) }
        ensures reply { result ≡ reply.Memory }
        ensures questions { self.new.questions ≡ after_failure id self.old.questions }
    {
        let verdict = lack(self.alloc, &mut self.state, id);
        self.history.push(verdict.note);
        verdict.reply
    }

    /// There is no such job or question to work on.
    pub fn no_such(&mut self, act: Act) -> Reply
        requires room { 1 ≤ self.old.spare }
        requires work { IsTrue (is_work act) }
        ensures note { Adds self.old self.new (plain_note Db act result) }
        ensures reply { result ≡ reply.NoSuch }
        ensures questions { self.new.questions ≡ self.old.questions }
    {
        let verdict = Verdict::new(self.alloc, By::Db, act, Reply::NoSuch, Reply::NoSuch);
        self.history.push(verdict.note);
        verdict.reply
    }
}

/// Ends the question for want of memory.
fn lack<F: FileRef>(alloc: Global, state: &mut State<F>, id: Id) -> Verdict
    requires there { IsSome (question_by id state.old.asks) }
    requires set { SetStands F.bytes state.old }
    ensures note { result.note ≡ lack_note id state.old.asks result.reply }
    ensures reply { result.reply ≡ reply.Memory }
    ensures asks { state.new.asks ≡ after_failure id state.old.asks }
    ensures step { Steps F.bytes 0 state.old state.new result.note }
{
    let Id::Ask(ask) = id else { unreachable!() };
    let Failure { by, act, hold } = state.asks.fail(ask);
    let holds = let_go(alloc, &mut state.files, Some(hold));
    Verdict::holding(alloc, by, act, holds, Reply::Memory, Reply::Memory)
}
