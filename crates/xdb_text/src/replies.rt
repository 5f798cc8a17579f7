//! The texts of replies, each with a space before it.
ghost use Rattle.std.specs.Prelude.{◌≡◌, ◌++◌, ◌∷◌, map, OnOk, OnErr};
ghost use Rattle.xdb_text.specs.Kept.{Kept};
ghost use Rattle.xdb_plain.specs.Printed.{spaced, pair_word, answer_text, nothing_text, reply_text};

use crate::tables::{push_counts, push_levels, push_snaps};
use crate::words::{push_behind, push_named, push_number, push_numbered, push_string, push_word};
use std::alloc::AllocError;
use xdb_key::{Key, Val};
use xdb_plain::{Act, Answer, Reply};

/// The reply to an act.
pub fn push_reply(out: &mut Vec<u8>, act: &Act, reply: &Reply) -> Result<(), AllocError>
    ensures printed { OnOk result (out.new.items ≡ out.old.items ++ 32 ∷ reply_text act.now reply.now) }
    ensures kept { OnErr result (Kept out.old.items out.new.items) }
{
    match reply {
        Reply::Done => push_word(out, b"done"),
        Reply::Installed => push_word(out, b"installed"),
        Reply::Opened => push_word(out, b"opened"),
        Reply::Opening => push_word(out, b"opening"),
        Reply::Dropped => push_word(out, b"dropped"),
        Reply::Shut => push_word(out, b"shut"),
        Reply::CursorOn => push_word(out, b"open"),
        Reply::Answered(answer) => push_answer(out, answer),
        Reply::Asked(ask) => push_numbered(out, b"asked", *ask),
        Reply::Group(group) => push_numbered(out, b"group", *group),
        Reply::Job(job) => push_numbered(out, b"job", *job),
        Reply::Took(num) => push_number(out, *num),
        Reply::FileOnly => push_word(out, b"file-only"),
        Reply::Pinned(group) => push_numbered(out, b"pinned", *group),
        Reply::Excised(load) => push_named(out, b"excised", *load),
        Reply::Fenced(load) => push_named(out, b"fenced", *load),
        Reply::Waits(group) => push_numbered(out, b"waits", *group),
        Reply::Cancelled(load) => push_named(out, b"cancelled", *load),
        Reply::Busy(ask) => push_numbered(out, b"busy", *ask),
        Reply::Overlap(first, second) => {
            push_named(out, b"overlap", *first)?;
            push_word(out, second.bytes())
        }
        Reply::Nothing => push_nothing(out, act),
        Reply::NoSuch => push_word(out, b"no-such"),
        Reply::Outside => push_word(out, b"outside"),
        Reply::NameInUse => push_word(out, b"name-in-use"),
        Reply::TooMany => push_word(out, b"too-many"),
        Reply::BadRanges => push_word(out, b"bad-ranges"),
        Reply::Spent => push_word(out, b"spent"),
        Reply::NotYet => push_word(out, b"not-yet"),
        Reply::Fault => push_word(out, b"fault"),
        Reply::Stuck => push_word(out, b"stuck"),
        Reply::Memory => push_word(out, b"memory"),
        Reply::Damaged(backing, at) => {
            push_numbered(out, b"damaged", *backing)?;
            push_number(out, *at)
        }
        Reply::Levels(levels) => push_levels(out, levels),
        Reply::Counts(counts) => push_counts(out, counts),
        Reply::Snaps(snaps) => push_snaps(out, snaps),
    }
}

/// That there is nothing to be done.
fn push_nothing(out: &mut Vec<u8>, act: &Act) -> Result<(), AllocError>
    ensures printed { OnOk result (out.new.items ≡ out.old.items ++ 32 ∷ nothing_text act.now) }
    ensures kept { OnErr result (Kept out.old.items out.new.items) }
{
    match act {
        Act::LoadOpen { .. } => push_word(out, b"nothing"),
        _ => push_word(out, b"none"),
    }
}

fn push_answer(out: &mut Vec<u8>, answer: &Answer) -> Result<(), AllocError>
    ensures printed { OnOk result (out.new.items ≡ out.old.items ++ 32 ∷ answer_text answer.now) }
    ensures kept { OnErr result (Kept out.old.items out.new.items) }
{
    match answer {
        Answer::Value(value) => {
            push_word(out, b"value")?;
            push_string(out, value.bytes())
        }
        Answer::Absent => push_word(out, b"none"),
        Answer::Found(pairs) => {
            push_word(out, b"found")?;
            push_pairs(out, pairs.list())
        }
        Answer::Pair(key, value) => {
            push_word(out, b"at")?;
            push_pair(out, key, value)
        }
        Answer::End => push_word(out, b"end"),
    }
}

fn push_pairs(out: &mut Vec<u8>, pairs: &[(Key, Val)]) -> Result<(), AllocError>
    ensures printed { OnOk result (out.new.items ≡ out.old.items ++ spaced (map pair_word pairs.now)) }
    ensures kept { OnErr result (Kept out.old.items out.new.items) }
{
    for (key, value) in pairs {
        push_pair(out, key, value)?;
    }
    Ok(())
}

fn push_pair(out: &mut Vec<u8>, key: &Key, value: &Val) -> Result<(), AllocError>
    ensures printed { OnOk result (out.new.items ≡ out.old.items ++ 32 ∷ pair_word (key.now, value.now)) }
    ensures kept { OnErr result (Kept out.old.items out.new.items) }
{
    push_string(out, key.bytes())?;
    push_behind(out, b'=', value.bytes())
}
