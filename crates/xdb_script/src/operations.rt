//! Operations of a commit or a table.
ghost use Rattle.std.specs.Prelude.{◌≡◌, List, map, Ok, IfOk};
ghost use Rattle.std.specs.List.{flat_map, list_all, slice_split};
ghost use Rattle.xdb_key.specs.declared.op.Op.TheVariants as op;
ghost use Rattle.xdb_script.specs.Answers.{Answers, ranged, texts};
ghost use Rattle.xdb_script.specs.Drafts.{drafted};
ghost use Rattle.xdb_script.specs.Fields.{all_read};
ghost use Rattle.xdb_script.specs.Reading.{set_read, del_read, span_read, op_read, is_op_shape, is_semicolon, ops_shape};
ghost use Rattle.xdb_script.specs.Rules.{op_ranges};

use crate::error::LineNo;
use crate::operands::{Pair, only_word, read_pair, two_words};
use crate::strings::{read_key, read_value};
use crate::{Why, verbs};
use std::alloc::{AllocError, Global};
use xdb_key::{Key, Op, Val};

/// The most operations of a batch or a table.
const MAX_OPS: usize = 4096;

/// An operation that was read, but for the order of its bounds.
#[derive(Debug, Drop)]
pub enum Draft {
    Set { key: Key, value: Val },
    Del { key: Key },
    DelSpan { pair: Pair },
}

impl Draft {
    /// The operation, where its start is below its end.
    fn rising(self) -> Result<Op, LineNo>
        ensures { Answers (λ op. op) result (ranged op_ranges (Ok (drafted self))) }
    {
        match self {
            Draft::Set { key, value } => Ok(Op::Set { key, value }),
            Draft::Del { key } => Ok(Op::Del { key }),
            Draft::DelSpan { pair } => Ok(Op::DelSpan {
                range: pair.rising()?,
            }),
        }
    }
}

/// The words of 1 to 4,096 operations between semicolons.
pub fn ops_shape<'a, 'b>(
    alloc: Global,
    words: &'a [&'b [u8]],
) -> Result<Vec<&'a [&'b [u8]]>, LineNo>
    ensures { Answers (λ parts. map (λ part. texts part.now) parts.items) result (ops_shape (texts words.now)) }
{
    let parts = split_ops(alloc, words)?;
    if are_op_shapes(&parts) && parts.len() <= MAX_OPS {
        Ok(parts)
    } else {
        Err(LineNo::Bad(Why::Shape))
    }
}

fn split_ops<'a, 'b>(
    alloc: Global,
    words: &'a [&'b [u8]],
) -> Result<Vec<&'a [&'b [u8]]>, AllocError>
    ensures { IfOk result (λ parts. map (λ part. part.now) parts.items ≡ slice_split (λ word. is_semicolon word.now) words.now) }
{
    words
        .split(|word| verbs::is_word(word, b";"))
        .collect(alloc)
}

fn are_op_shapes(parts: &[&[&[u8]]]) -> bool
    ensures { result ≡ list_all (λ part. is_op_shape (texts part.now)) parts.now }
{
    parts.iter().all(|part| is_op_shape(part))
}

/// Whether the verb is one of the three, with as many words as it wants.
fn is_op_shape(words: &[&[u8]]) -> bool
    ensures { result ≡ is_op_shape (texts words.now) }
{
    match words {
        [] => false,
        [verb, operands @ ..] => {
            (verbs::is_word(verb, b"set") && operands.len() == 2)
                || (verbs::is_word(verb, b"del") && operands.len() == 1)
                || (verbs::is_word(verb, b"delspan") && operands.len() == 2)
        }
    }
}

/// The operations of such words, one after another.
pub fn read_ops(alloc: Global, parts: &[&[&[u8]]]) -> Result<Vec<Draft>, LineNo>
    ensures { Answers (λ drafts. map drafted drafts.items) result (all_read op_read (map (λ part. texts part.now) parts.now)) }
{
    let mut drafts = Vec::with_capacity(alloc, parts.len())?;
    for part in parts {
        drafts.push(read_op(alloc, part)?)?;
    }
    Ok(drafts)
}

fn read_op(alloc: Global, words: &[&[u8]]) -> Result<Draft, LineNo>
    ensures { Answers drafted result (op_read (texts words.now)) }
{
    let [verb, operands @ ..] = words else {
        return Err(LineNo::Bad(Why::Shape));
    };
    if verbs::is_word(verb, b"set") {
        let (key, value) = read_set(alloc, operands)?;
        return Ok(Draft::Set { key, value });
    }
    if verbs::is_word(verb, b"del") {
        let key = read_del(alloc, operands)?;
        return Ok(Draft::Del { key });
    }
    if verbs::is_word(verb, b"delspan") {
        let pair = read_span(alloc, operands)?;
        return Ok(Draft::DelSpan { pair });
    }
    Err(LineNo::Bad(Why::Shape))
}

pub fn read_set(alloc: Global, words: &[&[u8]]) -> Result<(Key, Val), LineNo>
    ensures { Answers (λ pair. op.Set pair.0 pair.1) result (set_read (texts words.now)) }
{
    let (key, value) = two_words(words)?;
    let key = read_key(alloc, key)?;
    let value = read_value(alloc, value)?;
    Ok((key, value))
}

pub fn read_del(alloc: Global, words: &[&[u8]]) -> Result<Key, LineNo>
    ensures { Answers (λ key. op.Del key) result (del_read (texts words.now)) }
{
    let key = read_key(alloc, only_word(words)?)?;
    Ok(key)
}

pub fn read_span(alloc: Global, words: &[&[u8]]) -> Result<Pair, LineNo>
    ensures { Answers (λ pair. op.DelSpan pair) result (span_read (texts words.now)) }
{
    let (lo, hi) = two_words(words)?;
    let pair = read_pair(alloc, lo, hi)?;
    Ok(pair)
}

/// The operations of the drafts, where the range of each rises.
pub fn rising(alloc: Global, drafts: Vec<Draft>) -> Result<Vec<Op>, LineNo>
    ensures { Answers (λ ops. ops.items) result (ranged (λ ops. flat_map op_ranges ops) (Ok (map drafted drafts.items))) }
{
    let mut ops = Vec::with_capacity(alloc, drafts.len())?;
    for draft in drafts {
        ops.push(draft.rising()?)?;
    }
    Ok(ops)
}
