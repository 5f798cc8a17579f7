// Notes are pushed in the room that was made for them, some thousand of them too.
ghost use Rattle.std.specs.Prelude.{◌≡◌, ◌+◌, ◌≤◌, [], None};
ghost use Rattle.xdb_plain.specs.State.{opening};
ghost use Rattle.xdb_plain.specs.declared.act.Act.TheVariants as act;
ghost use Rattle.xdb_plain.specs.declared.act.By.TheVariants as by;
ghost use Rattle.xdb_plain.specs.declared.reply.Reply.TheVariants as reply;
ghost use Rattle.xdb_history.specs.Recorded.{state_of};

use crate::History;
use std::alloc::{AllocError, Global};
use xdb_plain::{Act, By, Items, Note, Reply};

/// An empty group isn't sealed.
fn sealed_nothing(alloc: Global) -> Note
    ensures { result ≡ record { by = by.Db; act = act.Seal; reply = reply.Nothing; edit = None; holds = []; tried = [] } }
{
    Note {
        by: By::Db,
        act: Act::Seal,
        reply: Reply::Nothing,
        edit: None,
        holds: Items::new(Vec::new(alloc)),
        tried: Items::new(Vec::new(alloc)),
    }
}

/// Puts such a note behind others that leave the opening state.
fn push_nothing(alloc: Global, history: &mut History)
    requires room { 1 ≤ history.old.spare }
    requires here { state_of history.old ≡ opening 1 1 }
    ensures spare { history.new.spare + 1 ≡ history.old.spare }
    ensures here { state_of history.new ≡ opening 1 1 }
{
    history.push(sealed_nothing(alloc));
}

/// Room for a note more, and the note, so many times.
fn push_all(alloc: Global, history: &mut History, count: u64) -> Result<(), AllocError>
    requires { state_of history.old ≡ opening 1 1 }
{
    for _ in 0..count {
        history.reserve(1)?;
        push_nothing(alloc, history);
    }
    Ok(())
}

/// There are so many notes, in at most about twice the room that they need.
fn fits(history: &History, count: usize) -> bool {
    history.notes().len() == count && history.spare() <= count + 8
}

#[test]
fn notes_are_pushed_in_reserved_room(rt: HostRuntime) -> Result<(), AllocError> {
    let alloc = rt.alloc();
    let mut history = History::new(alloc, 1, 1);
    history.reserve(2)?;
    let room = history.spare();
    push_nothing(alloc, &mut history);
    assert!(rt; room >= 2 && history.spare() == room - 1 && fits(&history, 1));
    assert!(rt; history.into_notes().len() == 1);
    Ok(())
}

#[test]
fn some_thousand_notes_are_pushed(rt: HostRuntime) -> Result<(), AllocError> {
    let alloc = rt.alloc();
    let mut history = History::new(alloc, 1, 1);
    push_all(alloc, &mut history, 5000)?;
    assert!(rt; fits(&history, 5000));
    Ok(())
}
