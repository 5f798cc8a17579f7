//! What the owner says.
ghost use Rattle.std.specs.Prelude.{◌≡◌};
ghost use Rattle.std.specs.Option.{option_map};
ghost use Rattle.xdb_plain.specs.declared.script.Cmd.TheVariants as cmd;
ghost use Rattle.xdb_script.specs.Answers.{Answers, ranged, texts};
ghost use Rattle.xdb_script.specs.Reading.{no_words, which_shape, which_read, show_read, db_read, db_line};
ghost use Rattle.xdb_script.specs.Rules.{ranges};

use crate::Why;
use crate::error::LineNo;
use crate::numbers::read_number;
use crate::operands::{only_number, only_word, read_pair};
use crate::verbs::{self, DbVerb};
use std::alloc::Global;
use xdb_plain::{Cmd, ShowWhat, Which};

/// The command of the owner, whose verb comes first.
pub fn read_owner(alloc: Global, words: &[&[u8]]) -> Result<Cmd, LineNo>
    ensures { Answers (λ cmd. cmd) result (ranged ranges (db_line (texts words.now))) }
{
    let [word, operands @ ..] = words else {
        return Err(LineNo::Bad(Why::Verb));
    };
    match DbVerb::of(word) {
        Some(verb) => read_said(alloc, verb, operands),
        None => Err(LineNo::Bad(Why::Verb)),
    }
}

fn read_said(alloc: Global, verb: DbVerb, words: &[&[u8]]) -> Result<Cmd, LineNo>
    ensures { Answers (λ cmd. cmd) result (ranged ranges (db_read verb (texts words.now))) }
{
    match verb {
        DbVerb::Seal => {
            no_words(words)?;
            Ok(Cmd::Seal)
        }
        DbVerb::FlushTake => {
            no_words(words)?;
            Ok(Cmd::FlushTake)
        }
        DbVerb::Put => {
            let job = only_number(words)?;
            Ok(Cmd::Put { job })
        }
        DbVerb::CompactTake => {
            let which = read_which(alloc, words)?;
            Ok(Cmd::CompactTake { which })
        }
        DbVerb::Build => {
            let job = only_number(words)?;
            Ok(Cmd::Build { job })
        }
        DbVerb::Work => {
            let ask = only_number(words)?;
            Ok(Cmd::Work { ask })
        }
        DbVerb::Flush => {
            no_words(words)?;
            Ok(Cmd::Flush)
        }
        DbVerb::Compact => {
            let which = read_which(alloc, words)?;
            Ok(Cmd::Compact { which })
        }
        DbVerb::Reap => {
            no_words(words)?;
            Ok(Cmd::Reap)
        }
        DbVerb::Show => {
            let what = read_show(words)?;
            Ok(Cmd::Show { what })
        }
    }
}

fn no_words(words: &[&[u8]]) -> Result<(), LineNo>
    ensures { Answers (λ none. none) result (no_words (texts words.now)) }
{
    if words.is_empty() {
        Ok(())
    } else {
        Err(LineNo::Bad(Why::Shape))
    }
}

/// `auto`, or a level and a range.
fn read_which(alloc: Global, words: &[&[u8]]) -> Result<Which, LineNo>
    ensures take { Answers (λ which. cmd.CompactTake which) result (ranged ranges (which_read (λ which. cmd.CompactTake which) (texts words.now))) }
    ensures whole { Answers (λ which. cmd.Compact which) result (ranged ranges (which_read (λ which. cmd.Compact which) (texts words.now))) }
{
    let Some((level, lo, hi)) = which_shape(words)? else {
        return Ok(Which::Auto);
    };
    let level = read_number(0, 6, level)? as u8;
    let pair = read_pair(alloc, lo, hi)?;
    let range = pair.rising()?;
    Ok(Which::At { level, range })
}

/// The words of a level and of two bounds, where `auto` doesn't stand in their place.
fn which_shape<'a>(words: &[&'a [u8]]) -> Result<Option<(&'a [u8], &'a [u8], &'a [u8])>, LineNo>
    ensures { Answers (λ at. option_map (λ w. (w.0.now, w.1.now, w.2.now)) at) result (which_shape (texts words.now)) }
{
    match words {
        [word] if verbs::is_word(word, b"auto") => Ok(None),
        [level, lo, hi] => Ok(Some((level, lo, hi))),
        _ => Err(LineNo::Bad(Why::Shape)),
    }
}

fn read_show(words: &[&[u8]]) -> Result<ShowWhat, LineNo>
    ensures { Answers (λ what. cmd.Show what) result (show_read (texts words.now)) }
{
    let word = only_word(words)?;
    if verbs::is_word(word, b"levels") {
        Ok(ShowWhat::Levels)
    } else if verbs::is_word(word, b"counts") {
        Ok(ShowWhat::Counts)
    } else if verbs::is_word(word, b"snaps") {
        Ok(ShowWhat::Snaps)
    } else {
        Err(LineNo::Bad(Why::Shape))
    }
}
