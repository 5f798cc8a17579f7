//! What clients say.
ghost use Rattle.std.specs.Prelude.{◌≡◌, ◌≤◌, ◌∷◌, [], length, map, IfOk};
ghost use Rattle.std.specs.List.{position_or_len};
ghost use Rattle.std.specs.Option.{option_map};
ghost use Rattle.xdb_plain.specs.declared.script.Cmd.TheVariants as cmd;
ghost use Rattle.xdb_script.specs.Answers.{Answers, RisesAs, ranged, texts};
ghost use Rattle.xdb_script.specs.Drafts.{pair_texts};
ghost use Rattle.xdb_script.specs.Fields.{all_read, some_read, name_read};
ghost use Rattle.xdb_script.specs.Reading.{pair_read, commit_read, set_read, del_read, span_read, batch_read, pairs_shape, named_read, snap_read, cursor_read, is_excise, up_to_excise, excise_shape, load_read, client_read, client_line};
ghost use Rattle.xdb_script.specs.Rules.{ranges, span_ranges};
ghost use Rattle.xdb_plain.specs.declared.act.CommitForm.TheVariants as form;

use crate::ask::{read_ask, read_begin};
use crate::error::LineNo;
use crate::numbers::read_name;
use crate::operands::{Pair, at_shape, only_name, only_number, read_at, read_pair, rising};
use crate::operations::{self, ops_shape, read_del, read_ops, read_set, read_span};
use crate::verbs::{self, ClientVerb};
use crate::{ScriptForm, Why};
use std::alloc::{AllocError, Global};
use xdb_key::{KeyRange, Name, Op, Ops};
use xdb_plain::{Cmd, CommitForm, Items, StatusForm};

/// The most ranges that a snapshot has.
const MAX_RANGES: usize = 8;

/// The most tables that a load has.
const MAX_TABLES: usize = 16;

/// The command of a client, whose verb comes first.
pub fn read_client(alloc: Global, form: ScriptForm, words: &[&[u8]]) -> Result<Cmd, LineNo>
    ensures { Answers (λ cmd. cmd) result (ranged ranges (client_line form (texts words.now))) }
{
    let [word, operands @ ..] = words else {
        return Err(LineNo::Bad(Why::Verb));
    };
    match ClientVerb::of(form, word) {
        Some(verb) => read_said(alloc, verb, operands),
        None => Err(LineNo::Bad(Why::Verb)),
    }
}

fn read_said(alloc: Global, verb: ClientVerb, words: &[&[u8]]) -> Result<Cmd, LineNo>
    ensures { Answers (λ cmd. cmd) result (ranged ranges (client_read verb (texts words.now))) }
{
    match verb {
        ClientVerb::Put => read_put(alloc, words),
        ClientVerb::Del => read_del_key(alloc, words),
        ClientVerb::DelSpan => read_del_span(alloc, words),
        ClientVerb::Batch => read_batch(alloc, words),
        ClientVerb::Read(verb) => read_ask(alloc, verb, words, false),
        ClientVerb::Begin => read_begin(alloc, words),
        ClientVerb::Settle => {
            let ask = only_number(words)?;
            Ok(Cmd::Settle { ask })
        }
        ClientVerb::Snap => read_snap(alloc, words),
        ClientVerb::Drop => {
            let name = only_name(words)?;
            Ok(Cmd::Drop { name })
        }
        ClientVerb::Status => read_status(StatusForm::Status, words),
        ClientVerb::Await => read_status(StatusForm::Await, words),
        ClientVerb::Cursor => read_cursor(alloc, words),
        ClientVerb::Shut => {
            let name = only_name(words)?;
            Ok(Cmd::Shut { name })
        }
        ClientVerb::Load => read_load(alloc, words),
        ClientVerb::Install => {
            let load = only_name(words)?;
            Ok(Cmd::Install { load })
        }
    }
}

// ---- commits

fn read_put(alloc: Global, words: &[&[u8]]) -> Result<Cmd, LineNo>
    ensures { Answers (λ cmd. cmd) result (ranged ranges (commit_read form.Put (set_read (texts words.now)))) }
{
    let (key, value) = read_set(alloc, words)?;
    let cmd = commit_one(alloc, CommitForm::Put, Op::Set { key, value })?;
    Ok(cmd)
}

fn read_del_key(alloc: Global, words: &[&[u8]]) -> Result<Cmd, LineNo>
    ensures { Answers (λ cmd. cmd) result (ranged ranges (commit_read form.Del (del_read (texts words.now)))) }
{
    let key = read_del(alloc, words)?;
    let cmd = commit_one(alloc, CommitForm::Del, Op::Del { key })?;
    Ok(cmd)
}

fn read_del_span(alloc: Global, words: &[&[u8]]) -> Result<Cmd, LineNo>
    ensures { Answers (λ cmd. cmd) result (ranged ranges (commit_read form.DelSpan (span_read (texts words.now)))) }
{
    let range = read_span(alloc, words)?.rising()?;
    let cmd = commit_one(alloc, CommitForm::DelSpan, Op::DelSpan { range })?;
    Ok(cmd)
}

fn commit_one(alloc: Global, form: CommitForm, op: Op) -> Result<Cmd, AllocError>
    ensures { IfOk result (λ made. made ≡ cmd.Commit form (op ∷ [])) }
{
    // The history keeps them: no more room than for the one.
    let mut ops = Vec::with_capacity(alloc, 1)?;
    ops.push(op)?;
    Ok(Cmd::Commit {
        form,
        ops: Ops::new(ops),
    })
}

#[tactic(auto, using(crate::proofs::Ranged::committed))]
fn read_batch(alloc: Global, words: &[&[u8]]) -> Result<Cmd, LineNo>
    ensures { Answers (λ cmd. cmd) result (ranged ranges (batch_read (texts words.now))) }
{
    let parts = ops_shape(alloc, words)?;
    let drafts = read_ops(alloc, &parts)?;
    let ops = operations::rising(alloc, drafts)?;
    Ok(Cmd::Commit {
        form: CommitForm::Batch,
        ops: Ops::new(ops),
    })
}

// ---- snapshots and cursors

/// A name and 1 to 8 pairs.
#[tactic(auto, using(crate::proofs::Ranged::snapped))]
fn read_snap(alloc: Global, words: &[&[u8]]) -> Result<Cmd, LineNo>
    ensures { Answers (λ cmd. cmd) result (ranged ranges (snap_read (texts words.now))) }
{
    let [name, bounds @ ..] = words else {
        return Err(LineNo::Bad(Why::Shape));
    };
    let pairs = pairs_shape(alloc, bounds)?;
    if pairs.len() < 1 || MAX_RANGES < pairs.len() {
        return Err(LineNo::Bad(Why::Shape));
    }
    let name = read_name(name)?;
    let pairs = read_pairs(alloc, &pairs)?;
    let ranges = rising(alloc, pairs)?;
    Ok(Cmd::Snap {
        name,
        ranges: Items::new(ranges),
    })
}

/// Words by twos.
fn pairs_shape<'a>(alloc: Global, words: &[&'a [u8]]) -> Result<Vec<(&'a [u8], &'a [u8])>, LineNo>
    ensures { Answers (λ pairs. map pair_texts pairs.items) result (pairs_shape (texts words.now)) }
{
    let mut pairs = Vec::with_capacity(alloc, words.len() / 2)?;
    let mut rest = words;
    while let [lo, hi, after @ ..] = rest {
        pairs.push((*lo, *hi))?;
        rest = after;
    }
    if rest.is_empty() {
        Ok(pairs)
    } else {
        Err(LineNo::Bad(Why::Shape))
    }
}

fn read_pairs(alloc: Global, pairs: &[(&[u8], &[u8])]) -> Result<Vec<Pair>, LineNo>
    ensures { Answers (λ read. read.items) result (all_read pair_read (map pair_texts pairs.now)) }
{
    let mut read = Vec::with_capacity(alloc, pairs.len())?;
    for pair in pairs {
        read.push(read_pair(alloc, pair.0, pair.1)?)?;
    }
    Ok(read)
}

fn read_status(form: StatusForm, words: &[&[u8]]) -> Result<Cmd, LineNo>
    ensures { Answers (λ cmd. cmd) result (ranged ranges (named_read (λ name. cmd.Status name form) (texts words.now))) }
{
    let name = only_name(words)?;
    Ok(Cmd::Status { name, form })
}

fn read_cursor(alloc: Global, words: &[&[u8]]) -> Result<Cmd, LineNo>
    ensures { Answers (λ cmd. cmd) result (ranged ranges (cursor_read (texts words.now))) }
{
    let [name, lo, hi, at @ ..] = words else {
        return Err(LineNo::Bad(Why::Shape));
    };
    let snap = at_shape(at)?;
    let name = read_name(name)?;
    let pair = read_pair(alloc, lo, hi)?;
    let at = read_at(snap)?;
    let range = pair.rising()?;
    Ok(Cmd::Cursor { name, range, at })
}

// ---- loads

/// A name and up to 16 tables, and what is to be cut out.
fn read_load(alloc: Global, words: &[&[u8]]) -> Result<Cmd, LineNo>
    ensures { Answers (λ cmd. cmd) result (ranged ranges (load_read (texts words.now))) }
{
    let [load, operands @ ..] = words else {
        return Err(LineNo::Bad(Why::Shape));
    };
    let (tables, excise) = up_to_excise(operands);
    if MAX_TABLES < tables.len() {
        return Err(LineNo::Bad(Why::Shape));
    }
    let excise = excise_shape(excise)?;
    let load = read_name(load)?;
    let tables = read_names(alloc, tables)?;
    let span = rising_span(read_excise(alloc, excise)?)?;
    Ok(Cmd::Load {
        load,
        tables: Items::new(tables),
        span,
    })
}

/// The words before the first `excise`, and those from it on.
fn up_to_excise<'a, 'b>(words: &'a [&'b [u8]]) -> (&'a [&'b [u8]], &'a [&'b [u8]])
    ensures { (texts result.0.now, texts result.1.now) ≡ up_to_excise (texts words.now) }
{
    words.split_at(excise_at(words))
}

/// The place of the first `excise`, or the number of words where there is none.
fn excise_at(words: &[&[u8]]) -> usize
    ensures first { result ≡ position_or_len (λ word. is_excise word.now) words.now }
    ensures within { result ≤ length words.now }
{
    for (at, word) in words.iter().enumerate() {
        if verbs::is_word(word, b"excise") {
            return at;
        }
    }
    words.len()
}

/// The two words behind `excise`, where there are words.
fn excise_shape<'a>(words: &[&'a [u8]]) -> Result<Option<(&'a [u8], &'a [u8])>, LineNo>
    ensures { Answers (λ pair. option_map pair_texts pair) result (excise_shape (texts words.now)) }
{
    match words {
        [] => Ok(None),
        [_, lo, hi] => Ok(Some((lo, hi))),
        _ => Err(LineNo::Bad(Why::Shape)),
    }
}

fn read_names(alloc: Global, words: &[&[u8]]) -> Result<Vec<Name>, LineNo>
    ensures { Answers (λ names. names.items) result (all_read name_read (texts words.now)) }
{
    let mut names = Vec::with_capacity(alloc, words.len())?;
    for word in words {
        names.push(read_name(word)?)?;
    }
    Ok(names)
}

fn read_excise(alloc: Global, pair: Option<(&[u8], &[u8])>) -> Result<Option<Pair>, LineNo>
    ensures { Answers (λ span. span) result (some_read pair_read (option_map pair_texts pair.entry)) }
{
    match pair {
        Some((lo, hi)) => {
            let pair = read_pair(alloc, lo, hi)?;
            Ok(Some(pair))
        }
        None => Ok(None),
    }
}

fn rising_span(span: Option<Pair>) -> Result<Option<KeyRange>, LineNo>
    ensures { RisesAs span_ranges result span }
{
    match span {
        Some(pair) => {
            let range = pair.rising()?;
            Ok(Some(range))
        }
        None => Ok(None),
    }
}
