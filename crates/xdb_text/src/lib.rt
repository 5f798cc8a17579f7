//! The printed lines of a history: each note's command, an arrow and the reply.
#![tactic(auto)]

ghost use Rattle.std.specs.Prelude.{◌≡◌, ◌++◌, IfOk, OnOk, OnErr};
ghost use Rattle.xdb_text.specs.Kept.{Kept};
ghost use Rattle.xdb_plain.specs.Printed.{is_asked, is_opening, is_silent, line_of, text_of};

mod commands;
mod replies;
mod tables;
#[cfg(test)]
mod tests;
mod words;

use commands::{push_act, push_by};
use replies::push_reply;
pub use std::alloc::AllocError as Memory;
use std::alloc::{AllocError, Global};
pub use words::is_plain;
use words::push_word;
use xdb_plain::{Act, Note, Reply};

/// The lines of the notes, in order.
pub fn text(alloc: Global, notes: &[Note]) -> Result<Vec<u8>, AllocError>
    ensures { IfOk result (λ text. text.items ≡ text_of notes.now) }
{
    let mut out = Vec::new(alloc);
    for note in notes {
        line(note, &mut out)?;
    }
    Ok(out)
}

/// Appends the line of the note, or nothing where it has none. After an error, which is want of
/// memory, `out` is as it was.
pub fn line(note: &Note, out: &mut Vec<u8>) -> Result<(), AllocError>
    ensures printed { OnOk result (out.new.items ≡ out.old.items ++ line_of note.now) }
    ensures kept { OnErr result (out.new.items ≡ out.old.items) }
{
    let start = out.len();
    let printed = push_line(out, note);
    if printed.is_err() {
        out.truncate(start);
    }
    printed
}

fn push_line(out: &mut Vec<u8>, note: &Note) -> Result<(), AllocError>
    ensures printed { OnOk result (out.new.items ≡ out.old.items ++ line_of note.now) }
    ensures kept { OnErr result (Kept out.old.items out.new.items) }
{
    if is_silent(&note.act, &note.reply) {
        return Ok(());
    }
    push_by(out, note.by)?;
    push_act(out, &note.act)?;
    push_word(out, b"->")?;
    push_reply(out, &note.act, &note.reply)?;
    out.push(b'\n')?;
    Ok(())
}

/// Whether a note prints nothing: a read's line is printed with its answer, and a load's when its
/// opening ends.
fn is_silent(act: &Act, reply: &Reply) -> bool
    ensures { result ≡ is_silent act.now reply.now }
{
    match act {
        Act::Ask { parted, .. } => !*parted && is_asked(reply),
        Act::LoadOpen { .. } => is_opening(reply),
        _ => false,
    }
}

fn is_asked(reply: &Reply) -> bool
    ensures { result ≡ is_asked reply.now }
{
    matches!(reply, Reply::Asked(_))
}

fn is_opening(reply: &Reply) -> bool
    ensures { result ≡ is_opening reply.now }
{
    matches!(reply, Reply::Opening)
}
