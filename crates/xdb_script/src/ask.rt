//! Questions.
ghost use Rattle.xdb_plain.specs.declared.question.Question.TheVariants as question;
ghost use Rattle.xdb_plain.specs.declared.question.Step.TheVariants as step;
ghost use Rattle.xdb_script.specs.Answers.{Answers, ranged, texts};
ghost use Rattle.xdb_script.specs.Reading.{get_read, scan_read, move_read, seek_read, question_read, ask_read, begin_read};
ghost use Rattle.xdb_script.specs.Rules.{ranges, question_ranges};

use crate::Why;
use crate::error::LineNo;
use crate::numbers::{read_name, read_number};
use crate::operands::{at_shape, only_word, read_at, read_pair, two_words};
use crate::strings::read_key;
use crate::verbs::ReadVerb;
use std::alloc::Global;
use xdb_key::{Key, KeyRange, Name};
use xdb_plain::{Cmd, Question, Step};

/// A question in parts, which stands behind `begin`.
pub fn read_begin(alloc: Global, words: &[&[u8]]) -> Result<Cmd, LineNo>
    ensures { Answers (λ cmd. cmd) result (ranged ranges (begin_read (texts words.now))) }
{
    let [word, operands @ ..] = words else {
        return Err(LineNo::Bad(Why::Shape));
    };
    match ReadVerb::of(word) {
        Some(verb) => read_ask(alloc, verb, operands, true),
        None => Err(LineNo::Bad(Why::Shape)),
    }
}

/// The command that asks the question of a verb, in parts or whole.
#[tactic(auto, using(crate::proofs::Ranged::asked))]
pub fn read_ask(alloc: Global, verb: ReadVerb, words: &[&[u8]], parted: bool) -> Result<Cmd, LineNo>
    ensures { Answers (λ cmd. cmd) result (ranged ranges (ask_read (question_read verb (texts words.now)) parted)) }
{
    let question = read_question(alloc, verb, words)?;
    Ok(Cmd::Ask { question, parted })
}

/// The question of a verb and the words behind it.
fn read_question(alloc: Global, verb: ReadVerb, words: &[&[u8]]) -> Result<Question, LineNo>
    ensures { Answers (λ question. question) result (ranged question_ranges (question_read verb (texts words.now))) }
{
    match verb {
        ReadVerb::Get => read_get(alloc, words),
        ReadVerb::Scan => {
            let Scan { range, most, at } = read_scan(alloc, words)?;
            Ok(Question::Scan { range, most, at })
        }
        ReadVerb::RScan => {
            let Scan { range, most, at } = read_scan(alloc, words)?;
            Ok(Question::RScan { range, most, at })
        }
        ReadVerb::First => read_move(Step::First, words),
        ReadVerb::Last => read_move(Step::Last, words),
        ReadVerb::Next => read_move(Step::Next, words),
        ReadVerb::Prev => read_move(Step::Prev, words),
        ReadVerb::Seek => {
            let (cursor, key) = read_seek(alloc, words)?;
            let step = Step::Seek { key };
            Ok(Question::Move { cursor, step })
        }
        ReadVerb::SeekLt => {
            let (cursor, key) = read_seek(alloc, words)?;
            let step = Step::SeekLt { key };
            Ok(Question::Move { cursor, step })
        }
    }
}

fn read_get(alloc: Global, words: &[&[u8]]) -> Result<Question, LineNo>
    ensures { Answers (λ question. question) result (ranged question_ranges (get_read (texts words.now))) }
{
    let [key, at @ ..] = words else {
        return Err(LineNo::Bad(Why::Shape));
    };
    let snap = at_shape(at)?;
    let key = read_key(alloc, key)?;
    let at = read_at(snap)?;
    Ok(Question::Get { key, at })
}

/// What a scan wants, upwards or downwards.
#[derive(Debug, Drop)]
struct Scan {
    range: KeyRange,
    most: u32,
    at: Option<Name>,
}

fn read_scan(alloc: Global, words: &[&[u8]]) -> Result<Scan, LineNo>
    ensures up { Answers (λ s. question.Scan s.range s.most s.at) result (ranged question_ranges (scan_read (λ range most at. question.Scan range most at) (texts words.now))) }
    ensures down { Answers (λ s. question.RScan s.range s.most s.at) result (ranged question_ranges (scan_read (λ range most at. question.RScan range most at) (texts words.now))) }
{
    let [lo, hi, most, at @ ..] = words else {
        return Err(LineNo::Bad(Why::Shape));
    };
    let snap = at_shape(at)?;
    let pair = read_pair(alloc, lo, hi)?;
    let most = read_number(1, 1000, most)? as u32;
    let at = read_at(snap)?;
    let range = pair.rising()?;
    Ok(Scan { range, most, at })
}

fn read_move(step: Step, words: &[&[u8]]) -> Result<Question, LineNo>
    ensures { Answers (λ question. question) result (ranged question_ranges (move_read step (texts words.now))) }
{
    let cursor = read_name(only_word(words)?)?;
    Ok(Question::Move { cursor, step })
}

/// The cursor and the key of a move to a key.
fn read_seek(alloc: Global, words: &[&[u8]]) -> Result<(Name, Key), LineNo>
    ensures seek { Answers (λ p. question.Move p.0 (step.Seek p.1)) result (ranged question_ranges (seek_read (λ key. step.Seek key) (texts words.now))) }
    ensures seeklt { Answers (λ p. question.Move p.0 (step.SeekLt p.1)) result (ranged question_ranges (seek_read (λ key. step.SeekLt key) (texts words.now))) }
{
    let (cursor, key) = two_words(words)?;
    let cursor = read_name(cursor)?;
    let key = read_key(alloc, key)?;
    Ok((cursor, key))
}
