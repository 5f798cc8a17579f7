//! The words of commands, each with a space before it.
ghost use Rattle.std.specs.Prelude.{◌≡◌, ◌++◌, ◌∷◌, [], map, codes, OnOk, OnErr};
ghost use Rattle.std.specs.List.{flat_map};
ghost use Rattle.std.specs.Option.{option_copied};
ghost use Rattle.xdb_text.specs.Kept.{Kept};
ghost use Rattle.xdb_plain.specs.Printed.{spaced};
ghost use Rattle.xdb_plain.specs.Words.{by_word, range_words, span_words, op_words, ops_words, commit_words, scan_words, move_words, question_words, ask_words, status_verb, snap_words, cursor_words, excise_words, load_words, which_words, show_words, act_words};

use crate::words::{
    push_at, push_decimal, push_named, push_number, push_numbered, push_range, push_string,
    push_word,
};
use std::alloc::AllocError;
use xdb_key::{KeyRange, Name, Op};
use xdb_plain::{Act, By, CommitForm, LoadTable, Question, ShowWhat, StatusForm, Step, Which};

/// Who speaks, at the beginning of a line.
pub fn push_by(out: &mut Vec<u8>, by: By) -> Result<(), AllocError>
    ensures printed { OnOk result (out.new.items ≡ out.old.items ++ by_word by) }
    ensures kept { OnErr result (Kept out.old.items out.new.items) }
{
    match by {
        By::Client(client) => {
            out.push(b'c')?;
            push_decimal(out, u64::from(client))
        }
        By::Db => out.extend_from_slice(b"db"),
    }
}

/// The words of the command that an act is printed as.
pub fn push_act(out: &mut Vec<u8>, act: &Act) -> Result<(), AllocError>
    ensures printed { OnOk result (out.new.items ≡ out.old.items ++ spaced (act_words act.now)) }
    ensures kept { OnErr result (Kept out.old.items out.new.items) }
{
    match act {
        Act::Commit { form, ops } => push_commit(out, *form, ops.list()),
        Act::Seal => push_word(out, b"seal"),
        Act::FlushTake => push_word(out, b"flush-take"),
        Act::CompactTake { which } => push_which(out, b"compact-take", which),
        Act::Put { job } => push_numbered(out, b"put", *job),
        Act::Build { job } => push_numbered(out, b"build", *job),
        Act::Work { ask } => push_numbered(out, b"work", *ask),
        Act::LoadOpen { load, tables, span } => push_load(out, *load, tables.list(), span.as_ref()),
        Act::LoadKept { load } => push_named(out, b"load", *load),
        Act::Install { load } => push_named(out, b"install", *load),
        Act::Snap { name, ranges } => push_snap(out, *name, ranges.list()),
        Act::Drop { name } => push_named(out, b"drop", *name),
        Act::Status { name, form } => push_status(out, *name, *form),
        Act::Cursor { name, range, at } => push_cursor(out, *name, range, *at),
        Act::Shut { name } => push_named(out, b"shut", *name),
        Act::Ask {
            question,
            parted,
            ..
        } => push_ask(out, question, *parted),
        Act::Settle { ask } => push_numbered(out, b"settle", *ask),
        Act::Reap => push_word(out, b"reap"),
        Act::Remove { num } => push_numbered(out, b"remove", *num),
        Act::Show { what } => push_show(out, *what),
    }
}

/// A commit of one operation goes by its form, and every other one is a batch.
fn push_commit(out: &mut Vec<u8>, form: CommitForm, ops: &[Op]) -> Result<(), AllocError>
    ensures printed { OnOk result (out.new.items ≡ out.old.items ++ spaced (commit_words form ops.now)) }
    ensures kept { OnErr result (Kept out.old.items out.new.items) }
{
    match (form, ops) {
        (CommitForm::Put, [Op::Set { key, value }]) => {
            push_word(out, b"put")?;
            push_string(out, key.bytes())?;
            push_string(out, value.bytes())
        }
        (CommitForm::Del, [Op::Del { key }]) => {
            push_word(out, b"del")?;
            push_string(out, key.bytes())
        }
        (CommitForm::DelSpan, [Op::DelSpan { range }]) => push_span(out, b"delspan", range),
        _ => {
            push_word(out, b"batch")?;
            push_ops(out, ops)
        }
    }
}

fn push_ops(out: &mut Vec<u8>, ops: &[Op]) -> Result<(), AllocError>
    ensures printed { OnOk result (out.new.items ≡ out.old.items ++ spaced (ops_words ops.now)) }
    ensures kept { OnErr result (Kept out.old.items out.new.items) }
{
    let Some((first, others)) = ops.split_first() else {
        return Ok(());
    };
    push_op(out, first)?;
    push_next_ops(out, others)
}

/// Operations behind another one.
fn push_next_ops(out: &mut Vec<u8>, ops: &[Op]) -> Result<(), AllocError>
    ensures printed { OnOk result (out.new.items ≡ out.old.items ++ spaced (flat_map (λ next. codes ";" ∷ op_words next) ops.now)) }
    ensures kept { OnErr result (Kept out.old.items out.new.items) }
{
    for op in ops {
        push_next_op(out, op)?;
    }
    Ok(())
}

fn push_next_op(out: &mut Vec<u8>, op: &Op) -> Result<(), AllocError>
    ensures printed { OnOk result (out.new.items ≡ out.old.items ++ spaced (codes ";" ∷ op_words op.now)) }
    ensures kept { OnErr result (Kept out.old.items out.new.items) }
{
    push_word(out, b";")?;
    push_op(out, op)
}

fn push_op(out: &mut Vec<u8>, op: &Op) -> Result<(), AllocError>
    ensures printed { OnOk result (out.new.items ≡ out.old.items ++ spaced (op_words op.now)) }
    ensures kept { OnErr result (Kept out.old.items out.new.items) }
{
    match op {
        Op::Set { key, value } => {
            push_word(out, b"set")?;
            push_string(out, key.bytes())?;
            push_string(out, value.bytes())
        }
        Op::Del { key } => {
            push_word(out, b"del")?;
            push_string(out, key.bytes())
        }
        Op::DelSpan { range } => push_span(out, b"delspan", range),
    }
}

/// A verb and a range.
fn push_span(out: &mut Vec<u8>, verb: &[u8], range: &KeyRange) -> Result<(), AllocError>
    ensures printed { OnOk result (out.new.items ≡ out.old.items ++ spaced (span_words verb.now range.now)) }
    ensures kept { OnErr result (Kept out.old.items out.new.items) }
{
    push_word(out, verb)?;
    push_range(out, range)
}

/// A compaction begins by itself, or at a level and a range.
fn push_which(out: &mut Vec<u8>, verb: &[u8], which: &Which) -> Result<(), AllocError>
    ensures printed { OnOk result (out.new.items ≡ out.old.items ++ spaced (which_words verb.now which.now)) }
    ensures kept { OnErr result (Kept out.old.items out.new.items) }
{
    push_word(out, verb)?;
    match which {
        Which::Auto => push_word(out, b"auto"),
        Which::At { level, range } => {
            push_number(out, u64::from(*level))?;
            push_range(out, range)
        }
    }
}

fn push_load(
    out: &mut Vec<u8>,
    load: Name,
    tables: &[LoadTable],
    span: Option<&KeyRange>,
) -> Result<(), AllocError>
    ensures printed { OnOk result (out.new.items ≡ out.old.items ++ spaced (load_words load (map (λ t. t.name) tables.now) (option_copied span.entry))) }
    ensures kept { OnErr result (Kept out.old.items out.new.items) }
{
    push_named(out, b"load", load)?;
    push_names(out, tables)?;
    push_excise(out, span)
}

/// The names of the tables.
fn push_names(out: &mut Vec<u8>, tables: &[LoadTable]) -> Result<(), AllocError>
    ensures printed { OnOk result (out.new.items ≡ out.old.items ++ spaced (map (λ t. t.name) tables.now)) }
    ensures kept { OnErr result (Kept out.old.items out.new.items) }
{
    for table in tables {
        push_word(out, table.name().bytes())?;
    }
    Ok(())
}

/// The span that a load cuts out, where it is one.
fn push_excise(out: &mut Vec<u8>, span: Option<&KeyRange>) -> Result<(), AllocError>
    ensures printed { OnOk result (out.new.items ≡ out.old.items ++ spaced (excise_words (option_copied span.entry))) }
    ensures kept { OnErr result (Kept out.old.items out.new.items) }
{
    match span {
        Some(range) => push_span(out, b"excise", range),
        None => Ok(()),
    }
}

fn push_snap(out: &mut Vec<u8>, name: Name, ranges: &[KeyRange]) -> Result<(), AllocError>
    ensures printed { OnOk result (out.new.items ≡ out.old.items ++ spaced (snap_words name ranges.now)) }
    ensures kept { OnErr result (Kept out.old.items out.new.items) }
{
    push_named(out, b"snap", name)?;
    push_ranges(out, ranges)
}

fn push_ranges(out: &mut Vec<u8>, ranges: &[KeyRange]) -> Result<(), AllocError>
    ensures printed { OnOk result (out.new.items ≡ out.old.items ++ spaced (flat_map range_words ranges.now)) }
    ensures kept { OnErr result (Kept out.old.items out.new.items) }
{
    for range in ranges {
        push_range(out, range)?;
    }
    Ok(())
}

fn push_status(out: &mut Vec<u8>, name: Name, form: StatusForm) -> Result<(), AllocError>
    ensures printed { OnOk result (out.new.items ≡ out.old.items ++ spaced (status_verb form ∷ name ∷ [])) }
    ensures kept { OnErr result (Kept out.old.items out.new.items) }
{
    match form {
        StatusForm::Status => push_named(out, b"status", name),
        StatusForm::Await => push_named(out, b"await", name),
    }
}

fn push_cursor(
    out: &mut Vec<u8>,
    name: Name,
    range: &KeyRange,
    at: Option<Name>,
) -> Result<(), AllocError>
    ensures printed { OnOk result (out.new.items ≡ out.old.items ++ spaced (cursor_words name range.now at)) }
    ensures kept { OnErr result (Kept out.old.items out.new.items) }
{
    push_named(out, b"cursor", name)?;
    push_range(out, range)?;
    push_at(out, at)
}

/// A question, which begins with `begin` where it is asked in parts.
fn push_ask(out: &mut Vec<u8>, question: &Question, parted: bool) -> Result<(), AllocError>
    ensures printed { OnOk result (out.new.items ≡ out.old.items ++ spaced (ask_words question.now parted)) }
    ensures kept { OnErr result (Kept out.old.items out.new.items) }
{
    if parted {
        push_word(out, b"begin")?;
    }
    push_question(out, question)
}

fn push_question(out: &mut Vec<u8>, question: &Question) -> Result<(), AllocError>
    ensures printed { OnOk result (out.new.items ≡ out.old.items ++ spaced (question_words question.now)) }
    ensures kept { OnErr result (Kept out.old.items out.new.items) }
{
    match question {
        Question::Get { key, at } => {
            push_word(out, b"get")?;
            push_string(out, key.bytes())?;
            push_at(out, *at)
        }
        Question::Scan { range, most, at } => push_scan(out, b"scan", range, *most, *at),
        Question::RScan { range, most, at } => push_scan(out, b"rscan", range, *most, *at),
        Question::Move { cursor, step } => push_move(out, *cursor, step),
    }
}

fn push_scan(
    out: &mut Vec<u8>,
    verb: &[u8],
    range: &KeyRange,
    most: u32,
    at: Option<Name>,
) -> Result<(), AllocError>
    ensures printed { OnOk result (out.new.items ≡ out.old.items ++ spaced (scan_words verb.now range.now most at)) }
    ensures kept { OnErr result (Kept out.old.items out.new.items) }
{
    push_span(out, verb, range)?;
    push_number(out, u64::from(most))?;
    push_at(out, at)
}

fn push_move(out: &mut Vec<u8>, cursor: Name, step: &Step) -> Result<(), AllocError>
    ensures printed { OnOk result (out.new.items ≡ out.old.items ++ spaced (move_words cursor step.now)) }
    ensures kept { OnErr result (Kept out.old.items out.new.items) }
{
    match step {
        Step::First => push_named(out, b"first", cursor),
        Step::Last => push_named(out, b"last", cursor),
        Step::Next => push_named(out, b"next", cursor),
        Step::Prev => push_named(out, b"prev", cursor),
        Step::Seek { key } => {
            push_named(out, b"seek", cursor)?;
            push_string(out, key.bytes())
        }
        Step::SeekLt { key } => {
            push_named(out, b"seeklt", cursor)?;
            push_string(out, key.bytes())
        }
    }
}

fn push_show(out: &mut Vec<u8>, what: ShowWhat) -> Result<(), AllocError>
    ensures printed { OnOk result (out.new.items ≡ out.old.items ++ spaced (show_words what)) }
    ensures kept { OnErr result (Kept out.old.items out.new.items) }
{
    push_word(out, b"show")?;
    match what {
        ShowWhat::Levels => push_word(out, b"levels"),
        ShowWhat::Counts => push_word(out, b"counts"),
        ShowWhat::Snaps => push_word(out, b"snaps"),
    }
}
