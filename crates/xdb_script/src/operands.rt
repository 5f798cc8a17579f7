//! What stands behind verbs in more than one place: pairs of bounds, `at` and a snapshot, names and numbers.
ghost use Rattle.std.specs.Prelude.{◌≡◌, Ok};
ghost use Rattle.std.specs.Option.{option_map};
ghost use Rattle.xdb_script.specs.Answers.{Answers, Rises, ranged, texts};
ghost use Rattle.xdb_script.specs.Fields.{name_read, some_read};
ghost use Rattle.xdb_script.specs.Reading.{pair_read, at_shape, only_word, two_words, only_name, only_number};

use crate::error::LineNo;
use crate::numbers::{read_name, read_number};
use crate::strings::read_bound;
use crate::{Why, verbs};
use std::alloc::Global;
use std::marker::Model;
use xdb_key::{Bound, Inverted, KeyRange, Name};

/// Two bounds, of which it isn't tested yet that the first is below the second: the words behind them come
/// first.
#[derive(Debug, Drop)]
pub struct Pair {
    lo: Bound,
    hi: Bound,
}

impl Model for Pair {
    ghost use Rattle.xdb_key.specs.Bounds.{Bounds, bounds};

    ghost Value = { Bounds };

    ghost view = { λ p. bounds p.lo p.hi };
}

impl Pair {
    /// The range, where the start is below the end.
    pub fn rising(self) -> Result<KeyRange, LineNo>
        ensures { Rises result self }
    {
        match KeyRange::new(self.lo, self.hi) {
            Ok(range) => Ok(range),
            Err(Inverted) => Err(LineNo::Bad(Why::Range)),
        }
    }
}

pub fn read_pair(alloc: Global, lo: &[u8], hi: &[u8]) -> Result<Pair, LineNo>
    ensures { Answers (λ pair. pair) result (pair_read (lo.now, hi.now)) }
{
    let lo = read_bound(alloc, lo)?;
    let hi = read_bound(alloc, hi)?;
    Ok(Pair { lo, hi })
}

/// The ranges of the pairs, where each of them rises.
pub fn rising(alloc: Global, pairs: Vec<Pair>) -> Result<Vec<KeyRange>, LineNo>
    ensures { Answers (λ ranges. ranges.items) result (ranged (λ pairs. pairs) (Ok pairs.items)) }
{
    let mut ranges = Vec::with_capacity(alloc, pairs.len())?;
    for pair in pairs {
        ranges.push(pair.rising()?)?;
    }
    Ok(ranges)
}

/// The only word that there is.
pub fn only_word<'a>(words: &[&'a [u8]]) -> Result<&'a [u8], LineNo>
    ensures { Answers (λ word. word.now) result (only_word (texts words.now)) }
{
    match words {
        [word] => Ok(word),
        _ => Err(LineNo::Bad(Why::Shape)),
    }
}

/// The only two words that there are.
pub fn two_words<'a>(words: &[&'a [u8]]) -> Result<(&'a [u8], &'a [u8]), LineNo>
    ensures { Answers (λ pair. (pair.0.now, pair.1.now)) result (two_words (texts words.now)) }
{
    match words {
        [first, second] => Ok((first, second)),
        _ => Err(LineNo::Bad(Why::Shape)),
    }
}

/// The word of a snapshot behind `at`, where there are words.
pub fn at_shape<'a>(words: &[&'a [u8]]) -> Result<Option<&'a [u8]>, LineNo>
    ensures { Answers (λ snap. option_map (λ word. word.now) snap) result (at_shape (texts words.now)) }
{
    match words {
        [] => Ok(None),
        [fixed, snap] if verbs::is_word(fixed, b"at") => Ok(Some(snap)),
        _ => Err(LineNo::Bad(Why::Shape)),
    }
}

/// The name of a snapshot, where there is one.
pub fn read_at(snap: Option<&[u8]>) -> Result<Option<Name>, LineNo>
    ensures { Answers (λ name. name) result (some_read name_read (option_map (λ word. word.now) snap.entry)) }
{
    match snap {
        Some(word) => Ok(Some(read_name(word)?)),
        None => Ok(None),
    }
}

/// The name that is the only word.
pub fn only_name(words: &[&[u8]]) -> Result<Name, LineNo>
    ensures { Answers (λ name. name) result (only_name (texts words.now)) }
{
    read_name(only_word(words)?)
}

/// The number of a job or a question that is the only word.
pub fn only_number(words: &[&[u8]]) -> Result<u64, LineNo>
    ensures { Answers (λ n. n) result (only_number (texts words.now)) }
{
    read_number(1, (1 << 56) - 1, only_word(words)?)
}
