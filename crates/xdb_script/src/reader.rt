//! Whole scripts.
ghost use Rattle.std.specs.Prelude.{◌≡◌, ◌≤◌, ◌<◌, ℕ, List, [], length, filter, is_some, IfOk, IfErr, OnOk};
ghost use Rattle.xdb_plain.specs.Scripts.{found_table, tables_below};
ghost use Rattle.xdb_plain.specs.declared.script.Line.{Line};
ghost use Rattle.xdb_script.specs.Answers.{as_tables, has_name};
ghost use Rattle.xdb_script.specs.Defects.{script_read, lines_read, long_line, first_defect};
ghost use Rattle.xdb_script.specs.Grammar.{Spells, most_bytes, is_line_feed, words_in, says_something, said_in};
ghost use Rattle.xdb_script.specs.Reading.{line_read};
ghost use Rattle.xdb_script.specs.Whole.{IsAnswer, IsAnswered, IsOnly, IsFirst, IsTaken, IsStopped, at_line_no};

use crate::error::LineNo;
use crate::line::read_line;
use crate::table::Tables;
use crate::{ScriptForm, ScriptNo, Why};
use std::alloc::{AllocError, Global};
use xdb_plain::{Cmd, Line, Script};

/// The most bytes that a script has.
const MAX_SCRIPT: usize = 1_048_576;

/// The script that the bytes spell. Names of tables are kept in an ordered set.
pub fn parse(alloc: Global, bytes: &[u8], form: ScriptForm) -> Result<Script, ScriptNo>
    ensures answers { IsAnswer result (script_read form bytes.now) }
    ensures found { IfOk result (λ script. Spells form bytes.now script) }
    ensures only { (lines : List Line) → Spells form bytes.now lines → IsOnly result lines }
    ensures exact { IfErr result (λ refusal. IsFirst refusal (first_defect form bytes.now)) }
{
    read_script(alloc, bytes, form)
}

fn read_script(alloc: Global, bytes: &[u8], form: ScriptForm) -> Result<Script, ScriptNo>
    ensures { IsAnswer result (script_read form bytes.now) }
{
    if bytes.len() > MAX_SCRIPT {
        return Err(ScriptNo::BadLine {
            line: long_line(bytes),
            why: Why::Long,
        });
    }
    read_short(alloc, bytes, form)
}

fn read_short(alloc: Global, bytes: &[u8], form: ScriptForm) -> Result<Script, ScriptNo>
    requires { length bytes.now ≤ most_bytes }
    ensures { IsAnswer result (script_read form bytes.now) }
{
    let lines = read_lines(alloc, bytes, form)?;
    Ok(Script::new(lines))
}

/// The number of the line with the first byte past the most: one more than the line feeds before that byte.
fn long_line(bytes: &[u8]) -> u64
    requires { most_bytes < length bytes.now }
    ensures { result ≡ long_line bytes.now }
{
    let (front, _) = bytes.split_at(MAX_SCRIPT);
    1 + line_feeds(front) as u64
}

fn line_feeds(bytes: &[u8]) -> usize
    ensures feeds { result ≡ length (filter is_line_feed bytes.now) }
    ensures few { result ≤ length bytes.now }
{
    bytes.iter().filter(|byte| **byte == b'\n').count()
}

fn read_lines(alloc: Global, bytes: &[u8], form: ScriptForm) -> Result<Vec<Line>, ScriptNo>
    requires { length bytes.now ≤ most_bytes }
    ensures { IsAnswered (λ lines. lines.items) result (lines_read form [] (said_in bytes.now)) }
{
    let mut tables = Tables::new(alloc);
    let mut lines = Vec::new(alloc);
    let mut number = 0;
    for part in bytes.split(|byte| *byte == b'\n') {
        number += 1;
        take_part(alloc, form, number, part, &mut tables, &mut lines)?;
    }
    Ok(lines)
}

/// Reads the part where it says something, and knows its table from then on.
fn take_part(
    alloc: Global,
    form: ScriptForm,
    number: u64,
    part: &[u8],
    tables: &mut Tables,
    lines: &mut Vec<Line>,
) -> Result<(), ScriptNo>
    ensures taken { OnOk result (IsTaken (says_something part.now) (line_read form (as_tables tables.old) number (words_in part.now)) tables.old tables.new lines.old.items lines.new.items) }
    ensures stopped { IfErr result (IsStopped (says_something part.now) number (line_read form (as_tables tables.old) number (words_in part.now))) }
{
    if !says_something(part) {
        return Ok(());
    }
    let line = match read_line(alloc, form, tables, number, part) {
        Ok(line) => line,
        Err(refusal) => return Err(at_line(number, refusal)),
    };
    define(tables, &line.cmd)?;
    lines.push(line)?;
    Ok(())
}

fn at_line(line: u64, refusal: LineNo) -> ScriptNo
    ensures { result ≡ at_line_no line refusal }
{
    match refusal {
        LineNo::Bad(why) => ScriptNo::BadLine { line, why },
        LineNo::Memory => ScriptNo::Memory,
    }
}

/// Whether the line is neither empty nor a comment.
fn says_something(part: &[u8]) -> bool
    ensures { result ≡ says_something part.now }
{
    match part {
        [] => false,
        [first, ..] => *first != b'#',
    }
}

/// The table of the command is known from then on, where it defines one.
fn define(tables: &mut Tables, cmd: &Cmd) -> Result<(), AllocError>
    ensures { OnOk result ((name : List ℕ) → has_name tables.new name ≡ is_some (found_table name (tables_below (as_tables tables.old) cmd.now))) }
{
    match cmd {
        Cmd::Table { table } => tables.define(table.name()),
        _ => Ok(()),
    }
}
