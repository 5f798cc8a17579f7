//! One line.
ghost use Rattle.std.specs.Prelude.{◌≡◌, true, Ok, Err, IfOk, if◌then◌else◌};
ghost use Rattle.std.specs.List.{list_all};
ghost use Rattle.xdb_script.specs.Answers.{Answers, as_tables, ruled, texts};
ghost use Rattle.xdb_script.specs.Grammar.{words_in};
ghost use Rattle.xdb_script.specs.Rules.{tables_stand, points_rise};
ghost use Rattle.xdb_script.specs.Reading.{who_read, client_of, client_line, db_line, cmd_read, is_clean, spoken_read, clean_read, line_read};

use crate::client::read_client;
use crate::error::LineNo;
use crate::numbers::number_in;
use crate::owner::read_owner;
use crate::table::{Tables, read_table};
use crate::{ScriptForm, Why, verbs};
use std::alloc::{AllocError, Global};
use xdb_plain::{By, Cmd, Line};

/// The line of a number, where these tables are defined above it.
pub fn read_line(
    alloc: Global,
    form: ScriptForm,
    tables: &Tables,
    number: u64,
    part: &[u8],
) -> Result<Line, LineNo>
    ensures { Answers (λ line. line) result (line_read form (as_tables tables.now) number (words_in part.now)) }
{
    let words = split_words(alloc, part)?;
    read_words(alloc, form, tables, number, &words)
}

/// The words between spaces.
fn split_words(alloc: Global, part: &[u8]) -> Result<Vec<&[u8]>, AllocError>
    ensures { IfOk result (λ words. texts words.items ≡ words_in part.now) }
{
    part.split(|byte| *byte == b' ').collect(alloc)
}

fn read_words(
    alloc: Global,
    form: ScriptForm,
    tables: &Tables,
    number: u64,
    words: &[&[u8]],
) -> Result<Line, LineNo>
    ensures { Answers (λ line. line) result (line_read form (as_tables tables.now) number (texts words.now)) }
{
    match words {
        [] => Err(LineNo::Bad(Why::Spaces)),
        [who, operands @ ..] => read_clean(alloc, form, tables, number, who, operands),
    }
}

#[tactic(auto, using(crate::proofs::Named::clean_texts))]
fn read_clean(
    alloc: Global,
    form: ScriptForm,
    tables: &Tables,
    number: u64,
    who: &[u8],
    operands: &[&[u8]],
) -> Result<Line, LineNo>
    ensures { Answers (λ line. line) result (clean_read form (as_tables tables.now) number who.now (texts operands.now)) }
{
    if is_clean(who) && are_clean(operands) {
        read_spoken(alloc, form, tables, number, who, operands)
    } else {
        Err(LineNo::Bad(Why::Spaces))
    }
}

fn are_clean(words: &[&[u8]]) -> bool
    ensures { result ≡ list_all (λ word. is_clean word.now) words.now }
{
    words.iter().all(|word| is_clean(word))
}

/// Whether there is a byte, and each is a printable character of ASCII.
fn is_clean(word: &[u8]) -> bool
    ensures { result ≡ is_clean word.now }
{
    if word.is_empty() {
        return false;
    }
    word.iter().all(|byte| b'!' <= *byte && *byte <= b'~')
}

fn read_spoken(
    alloc: Global,
    form: ScriptForm,
    tables: &Tables,
    number: u64,
    who: &[u8],
    operands: &[&[u8]],
) -> Result<Line, LineNo>
    ensures { Answers (λ line. line) result (spoken_read form (as_tables tables.now) number who.now (texts operands.now)) }
{
    let by = read_who(form, who)?;
    let cmd = read_cmd(alloc, form, tables, by, operands)?;
    Ok(Line { number, by, cmd })
}

/// Who speaks: nobody before a table, the owner, or a client.
fn read_who(form: ScriptForm, word: &[u8]) -> Result<Option<By>, LineNo>
    ensures { Answers (λ by. by) result (who_read form word.now) }
{
    if verbs::is_word(word, b"table") {
        return Ok(None);
    }
    if verbs::is_word(word, b"db") {
        return match form {
            ScriptForm::Run => Ok(Some(By::Db)),
            ScriptForm::Threads => Err(LineNo::Bad(Why::Who)),
        };
    }
    read_client_of(word)
}

/// The client of a word from `c1` to `c16`.
fn read_client_of(word: &[u8]) -> Result<Option<By>, LineNo>
    ensures { Answers (λ by. by) result (client_of word.now) }
{
    let [first, digits @ ..] = word else {
        return Err(LineNo::Bad(Why::Who));
    };
    if *first != b'c' {
        return Err(LineNo::Bad(Why::Who));
    }
    match number_in(1, 16, digits) {
        Some(client) => Ok(Some(By::Client(client as u8))),
        None => Err(LineNo::Bad(Why::Who)),
    }
}

/// The command of the one who speaks, which keeps all rules.
fn read_cmd(
    alloc: Global,
    form: ScriptForm,
    tables: &Tables,
    by: Option<By>,
    words: &[&[u8]],
) -> Result<Cmd, LineNo>
    ensures { Answers (λ cmd. cmd) result (ruled tables.now (cmd_read form by (texts words.now))) }
{
    match by {
        None => read_table(alloc, tables, words),
        Some(By::Client(_)) => read_of_client(alloc, form, tables, words),
        Some(By::Db) => read_of_owner(alloc, tables, words),
    }
}

fn read_of_client(
    alloc: Global,
    form: ScriptForm,
    tables: &Tables,
    words: &[&[u8]],
) -> Result<Cmd, LineNo>
    ensures { Answers (λ cmd. cmd) result (ruled tables.now (client_line form (texts words.now))) }
{
    let cmd = read_client(alloc, form, words)?;
    standing(tables, cmd)
}

fn read_of_owner(alloc: Global, tables: &Tables, words: &[&[u8]]) -> Result<Cmd, LineNo>
    ensures { Answers (λ cmd. cmd) result (ruled tables.now (db_line (texts words.now))) }
{
    let cmd = read_owner(alloc, words)?;
    standing(tables, cmd)
}

/// The command, where its tables are there.
fn standing(tables: &Tables, cmd: Cmd) -> Result<Cmd, LineNo>
    ensures stand { Answers (λ cmd. cmd) result (if tables_stand (as_tables tables.now) cmd then Ok cmd else Err Why.Table) }
    ensures rise { points_rise cmd ≡ true }
{
    if tables.stand(&cmd) {
        Ok(cmd)
    } else {
        Err(LineNo::Bad(Why::Table))
    }
}
