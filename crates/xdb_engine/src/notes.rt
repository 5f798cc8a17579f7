ghost use Rattle.std.specs.Prelude.{◌≡◌};
ghost use Rattle.xdb_engine.specs.Notes.{IsPlain, IsHolding};

use std::alloc::Global;
use xdb_plain::{Act, By, HoldNote, Items, Note, Reply};

/// What comes of a recorded call: its note for the history, and its reply for the caller.
#[derive(Debug, Drop)]
pub struct Verdict {
    pub note: Note,
    pub reply: Reply,
}

impl Verdict {
    /// A step that changes no tables, holds no version and tries no number. Its reply is there twice,
    /// once for the note, so this takes no memory.
    pub fn new(alloc: Global, by: By, act: Act, noted: Reply, reply: Reply) -> Self
        requires { noted ≡ reply }
        ensures note { IsPlain by act result }
        ensures reply { result.reply ≡ reply }
    {
        let holds = Items::new(Vec::new(alloc));
        Self::holding(alloc, by, act, holds, noted, reply)
    }

    /// The same of a step that takes these holds or lets go of them.
    pub fn holding(
        alloc: Global,
        by: By,
        act: Act,
        holds: Items<HoldNote>,
        noted: Reply,
        reply: Reply,
    ) -> Self
        requires { noted ≡ reply }
        ensures note { IsHolding by act holds result }
        ensures reply { result.reply ≡ reply }
    {
        let note = Note {
            by,
            act,
            reply: noted,
            edit: None,
            holds,
            tried: Items::new(Vec::new(alloc)),
        };
        Verdict { note, reply }
    }
}
