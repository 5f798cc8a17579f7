use crate::draws::Draws;
use crate::generate;
use std::alloc::{AllocError, Global};
use std::test::Fail;
use xdb_key::{KeyRange, Name, Op};
use xdb_plain::{By, Cmd, CommitForm, Line, Question, Script, Which};

fn push(out: &mut Vec<u8>, word: &[u8]) -> Result<(), AllocError> {
    out.push(b' ')?;
    out.extend_from_slice(word)
}

fn push_range(out: &mut Vec<u8>, range: &KeyRange) -> Result<(), AllocError> {
    push(out, range.lo().bytes())?;
    push(out, range.hi().bytes())
}

fn push_commit(out: &mut Vec<u8>, form: CommitForm, ops: &[Op]) -> Result<(), AllocError> {
    match (form, ops) {
        (CommitForm::Put, [Op::Set { key, value }]) => {
            push(out, b"put")?;
            push(out, key.bytes())?;
            push(out, value.bytes())
        }
        (CommitForm::Del, [Op::Del { key }]) => {
            push(out, b"del")?;
            push(out, key.bytes())
        }
        (CommitForm::DelSpan, [Op::DelSpan { range }]) => {
            push(out, b"delspan")?;
            push_range(out, range)
        }
        _ => push(out, b"?"),
    }
}

fn push_question(out: &mut Vec<u8>, question: &Question) -> Result<(), AllocError> {
    match question {
        Question::Get { key, at: None } => {
            push(out, b"get")?;
            push(out, key.bytes())
        }
        Question::Scan {
            range,
            most: 10,
            at: None,
        } => {
            push(out, b"scan")?;
            push_range(out, range)?;
            push(out, b"10")
        }
        _ => push(out, b"?"),
    }
}

fn push_load(
    out: &mut Vec<u8>,
    load: &[u8],
    tables: &[Name],
    span: &KeyRange,
) -> Result<(), AllocError> {
    push(out, b"load")?;
    push(out, load)?;
    for table in tables {
        push(out, table.bytes())?;
    }
    push(out, b"excise")?;
    push_range(out, span)
}

fn push_snap(out: &mut Vec<u8>, name: &[u8], ranges: &[KeyRange]) -> Result<(), AllocError> {
    push(out, b"snap")?;
    push(out, name)?;
    match ranges {
        [range] => push_range(out, range),
        _ => push(out, b"?"),
    }
}

fn push_named(out: &mut Vec<u8>, verb: &[u8], name: &[u8]) -> Result<(), AllocError> {
    push(out, verb)?;
    push(out, name)
}

fn push_cmd(out: &mut Vec<u8>, cmd: &Cmd) -> Result<(), AllocError> {
    match cmd {
        Cmd::Commit { form, ops } => push_commit(out, *form, ops.list()),
        Cmd::Ask {
            question,
            parted: false,
        } => push_question(out, question),
        Cmd::Load {
            load,
            tables,
            span: Some(span),
        } => push_load(out, load.bytes(), tables.list(), span),
        Cmd::Install { load } => push_named(out, b"install", load.bytes()),
        Cmd::Snap { name, ranges } => push_snap(out, name.bytes(), ranges.list()),
        Cmd::Drop { name } => push_named(out, b"drop", name.bytes()),
        Cmd::Seal => push(out, b"seal"),
        Cmd::Flush => push(out, b"flush"),
        Cmd::Compact { which: Which::Auto } => push(out, b"compact auto"),
        _ => push(out, b"?"),
    }
}

/// The words of a generated line; other lines have a question mark.
fn spelled(alloc: Global, line: &Line) -> Result<Vec<u8>, AllocError> {
    let who = match line.by {
        Some(By::Client(1)) => "c1",
        Some(By::Db) => "db",
        _ => "?",
    };
    let mut out = Vec::from_slice(alloc, who.as_bytes())?;
    push_cmd(&mut out, &line.cmd)?;
    Ok(out)
}

/// Whether the line of this number is spelled so.
fn has_line(alloc: Global, script: &Script, number: u64, words: &str) -> Result<bool, Fail> {
    match script.lines().iter().find(|line| line.number == number) {
        Some(line) => Ok(spelled(alloc, line)?.as_slice() == words.as_bytes()),
        None => Ok(false),
    }
}

/// The place, from 1, of the last line that isn't spelled so, or 0 where each is.
fn wrong_lines(alloc: Global, script: &Script, lines: &[(u64, &str)]) -> Result<usize, Fail> {
    let mut wrong = 0;
    for (at, (number, words)) in lines.iter().enumerate() {
        if !has_line(alloc, script, *number, words)? {
            wrong = at + 1;
        }
    }
    Ok(wrong)
}

#[test]
fn seven_draws_so(rt: HostRuntime) -> Result<(), Fail> {
    let mut draws = Draws::new(7);
    let first = draws.draw(10) == 8 && draws.draw(1000) == 866;
    let second = draws.draw(10) == 0 && draws.draw(1000) == 750;
    assert!(rt; first && second);
    Ok(())
}

/// The first two lines, the first of each kind, and those of operations 500, 700, 900, 1,400 and 1,800.
const LINES: [(u64, &str); 19] = [
    (1, "c1 get k0866"),
    (2, "c1 put k0750 v2"),
    (9, "c1 del k0399"),
    (15, "c1 scan k0804 k0854 10"),
    (19, "c1 delspan k0709 k0714"),
    (500, "db seal"),
    (501, "db flush"),
    (502, "db compact auto"),
    (702, "c1 load l700 excise k0862 k0872"),
    (703, "db seal"),
    (704, "db flush"),
    (705, "c1 install l700"),
    (905, "c1 snap s900 k0000 k9999"),
    (1407, "c1 load l1400 excise k0168 k0178"),
    (1408, "db seal"),
    (1409, "db flush"),
    (1410, "c1 install l1400"),
    (1812, "c1 drop s900"),
    (1813, "c1 snap s1800 k0000 k9999"),
];

#[test]
fn each_rule_makes_its_lines(rt: HostRuntime) -> Result<(), Fail> {
    let script = generate(rt.alloc(), 1800, 7)?;
    let wrong = wrong_lines(rt.alloc(), &script, &LINES)?;
    assert!(rt; wrong == 0 && script.lines().len() == 1813);
    Ok(())
}

/// The last lines of 50,000 operations.
const LAST_LINES: [(u64, &str); 6] = [
    (50_403, "c1 scan k0734 k0784 10"),
    (50_404, "c1 delspan k0907 k0912"),
    (50_405, "c1 get k0342"),
    (50_406, "db seal"),
    (50_407, "db flush"),
    (50_408, "db compact auto"),
];

#[test]
fn fifty_thousand_operations(rt: HostRuntime) -> Result<(), Fail> {
    let script = generate(rt.alloc(), 50_000, 7)?;
    let wrong = wrong_lines(rt.alloc(), &script, &LAST_LINES)?;
    let lines = script.into_lines();
    assert!(rt; wrong == 0 && lines.len() == 50_408 && lines.capacity() <= 2 * lines.len());
    Ok(())
}
