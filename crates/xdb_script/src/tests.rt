use crate::{ScriptForm, ScriptNo, Why, parse};
use std::alloc::Global;
use std::test::Fail;
use xdb_plain::{By, Cmd, Line, Script};

/// Each verb of clients and of the owner, a table, a comment and an empty line.
const WHOLE: &[u8] =
    b"# every verb\n\ntable t1 delspan a b ; set a 1 ; del b\nc1 put a %25\nc1 del a\n\
c1 delspan a b\nc1 batch set a 1 ; del b ; delspan c d\nc1 get a at s1\nc1 scan a b 1000\n\
c1 rscan a b 1 at s1\nc1 first k\nc1 last k\nc1 next k\nc1 prev k\nc1 seek k a\nc1 seeklt k a\n\
c1 begin get a\nc1 settle 72057594037927935\nc1 snap s1 a b c d\nc1 drop s1\nc1 status s1\n\
c1 await s1\nc1 cursor k a b at s1\nc1 shut k\nc1 load l1 t1 t1 excise a b\nc1 load l2\n\
c16 install l1\ndb seal\ndb flush-take\ndb put 1\ndb compact-take auto\ndb compact-take 6 a b\n\
db build 1\ndb work 1\ndb flush\ndb compact auto\ndb compact 0 a b\ndb reap\ndb show levels\n\
db show counts\ndb show snaps";

/// The line and the reason of a refusal.
fn refusal(alloc: Global, bytes: &[u8], form: ScriptForm) -> Result<Option<(u64, Why)>, Fail> {
    match parse(alloc, bytes, form) {
        Ok(_) => Ok(None),
        Err(ScriptNo::BadLine { line, why }) => Ok(Some((line, why))),
        Err(ScriptNo::Memory) => Err(Fail::from("memory")),
    }
}

/// That of a script which repeats a part so often between two others.
fn refusal_between(
    alloc: Global,
    head: &[u8],
    part: &[u8],
    times: usize,
    tail: &[u8],
) -> Result<Option<(u64, Why)>, Fail> {
    let mut script = head.to_vec(alloc)?;
    for _ in 0..times {
        script.extend_from_slice(part)?;
    }
    script.extend_from_slice(tail)?;
    refusal(alloc, &script, ScriptForm::Run)
}

#[test]
fn refusals_in_words(rt: HostRuntime) -> Result<(), Fail> {
    for (why, text) in [
        (Why::Long, "line 7: long"),
        (Why::Spaces, "line 7: spaces"),
        (Why::Who, "line 7: who"),
        (Why::Verb, "line 7: verb"),
        (Why::Shape, "line 7: shape"),
        (Why::Token, "line 7: token"),
        (Why::Length, "line 7: length"),
        (Why::Name, "line 7: name"),
        (Why::Number, "line 7: number"),
        (Why::Range, "line 7: range"),
        (Why::Table, "line 7: table"),
        (Why::Order, "line 7: order"),
    ] {
        let no = ScriptNo::BadLine { line: 7, why };
        let shown = format!(in rt.alloc(); "{no}")?;
        assert!(rt; shown.as_str() == text);
    }
    Ok(())
}

#[test]
fn refusals_at_line_1_and_behind_others(rt: HostRuntime) -> Result<(), Fail> {
    let lines: [(&[u8], Why); 34] = [
        (b" ", Why::Spaces),
        (b"c1  walk a", Why::Spaces),
        (b"c1 get a\r", Why::Spaces),
        (b"c17 put a 1", Why::Who),
        (b"c0 put a 1", Why::Who),
        (b"c01 walk", Why::Who),
        (b"c1", Why::Verb),
        (b"c1 walk a", Why::Verb),
        (b"db get a", Why::Verb),
        (b"c1 put a", Why::Shape),
        (b"c1 batch set ; 1", Why::Shape),
        (b"c1 batch set a 1 ;", Why::Shape),
        (b"c1 begin put %61 1", Why::Shape),
        (b"c1 load l1 t excise", Why::Shape),
        (b"c1 snap s a", Why::Shape),
        (b"db compact 1", Why::Shape),
        (b"c1 put %61 1", Why::Token),
        (b"c1 put %2A 1", Why::Token),
        (b"c1 scan %61 b 0", Why::Token),
        (b"c1 put \"\" 1", Why::Length),
        (b"c1 get \"\"", Why::Length),
        (b"c1 load excise a b", Why::Name),
        (b"c1 snap S %61 b", Why::Name),
        (b"c1 scan b a 0", Why::Number),
        (b"c1 scan a b 1001", Why::Number),
        (b"db compact 7 a b", Why::Number),
        (b"c1 delspan b b", Why::Range),
        (b"c1 load l1 t9 excise b a", Why::Range),
        (b"table t1 delspan b a ; set b 1 ; set a 2", Why::Range),
        (b"c1 load l1 t9", Why::Table),
        (b"c1 load l1 t1\ntable t1 set a 1", Why::Table),
        (b"table t1 set b 1 ; set a 2", Why::Order),
        (b"table t1 set a 1 ; del a", Why::Order),
        (b"c1 settle 0", Why::Number),
    ];
    for (line, why) in lines {
        let first = refusal(rt.alloc(), line, ScriptForm::Run)?;
        let fourth = refusal_between(rt.alloc(), b"c1 get a\n\n#  n\n", line, 1, b"")?;
        assert!(rt; first == Some((1, why)) && fourth == Some((4, why)));
    }
    Ok(())
}

#[test]
fn tables_are_defined_once(rt: HostRuntime) -> Result<(), Fail> {
    let twice = b"table t1 set a 1\ntable t2 del a\ntable t1 set b 2 ; set a 1";
    let third = refusal(rt.alloc(), twice, ScriptForm::Run)?;
    let known = b"table t2 set a 1\ntable t1 set a 1\nc1 load l1 t1 t2\nc1 load l2 t3";
    let fourth = refusal(rt.alloc(), known, ScriptForm::Run)?;
    assert!(rt; third == Some((3, Why::Table)) && fourth == Some((4, Why::Table)));
    Ok(())
}

/// A script of 1,048,576 bytes is read, and the line of one byte more is named, also behind a bad line.
#[test]
fn long_scripts(rt: HostRuntime) -> Result<(), Fail> {
    let rows: [(&[u8], usize, Option<(u64, Why)>); 3] = [
        (b"", 1_048_576, None),
        (b"", 1_048_577, Some((1_048_577, Why::Long))),
        (b"c1 walk a\n", 1_048_577, Some((1_048_568, Why::Long))),
    ];
    for (head, feeds, refused) in rows {
        let found = refusal_between(rt.alloc(), head, b"\n", feeds, b"")?;
        assert!(rt; found == refused);
    }
    Ok(())
}

fn is_for(refusal: Option<(u64, Why)>, why: Why) -> bool {
    matches!(refusal, Some((_, found)) if found == why)
}

/// So many parts are read, and one more is refused.
#[test]
fn limits_of_lengths_and_counts(rt: HostRuntime) -> Result<(), Fail> {
    let rows: [(&[u8], &[u8], usize, &[u8], Why); 10] = [
        (b"c1 put ", b"k", 1024, b" 1", Why::Length),
        (b"c1 put k ", b"v", 65_536, b"", Why::Length),
        (b"c1 put k ", b"%00", 65_536, b"", Why::Length),
        (b"c1 delspan a ", b"b", 1025, b"", Why::Length),
        (b"c1 drop ", b"s", 16, b"", Why::Name),
        (b"c1 batch del a", b" ; del a", 4095, b"", Why::Shape),
        (b"table t del a", b" ; delspan a b", 4095, b"", Why::Shape),
        (b"c1 snap s", b" a b", 8, b"", Why::Shape),
        (b"table t del a\nc1 load l", b" t", 16, b"", Why::Shape),
        (b"c1 scan a b 1", b"0", 3, b"", Why::Number),
    ];
    for (head, part, most, tail, why) in rows {
        let read = refusal_between(rt.alloc(), head, part, most, tail)?;
        let more = refusal_between(rt.alloc(), head, part, most.saturating_add(1), tail)?;
        assert!(rt; read.is_none() && is_for(more, why));
    }
    Ok(())
}

#[test]
fn limits_of_numbers(rt: HostRuntime) -> Result<(), Fail> {
    let number = Some((1, Why::Number));
    let rows: [(&[u8], Option<(u64, Why)>); 8] = [
        (b"c1 scan a b 1", None),
        (b"c1 scan a b 0", number),
        (b"c1 settle 72057594037927935", None),
        (b"c1 settle 72057594037927936", number),
        (b"db put 72057594037927935", None),
        (b"db put 72057594037927936", number),
        (b"db compact-take 6 a b", None),
        (b"db compact-take 7 a b", number),
    ];
    for (line, refused) in rows {
        let found = refusal(rt.alloc(), line, ScriptForm::Run)?;
        assert!(rt; found == refused);
    }
    Ok(())
}

/// So many tables, each of a name of its own, and a load of the last one.
fn many_tables(alloc: Global, count: u32) -> Result<Vec<u8>, Fail> {
    let mut script = Vec::new(alloc);
    for number in 0..count {
        let line = format!(in alloc; "table t{number} set a 1\n")?;
        script.extend_from_slice(line.as_bytes())?;
    }
    script.extend_from_slice(b"c1 load l t19999")?;
    Ok(script)
}

/// Whether there are so many lines, each with its number, and a load comes last.
fn ends_with_a_load(lines: &[Line], count: usize) -> bool {
    let numbered = lines
        .iter()
        .zip(1..)
        .all(|(line, number)| line.number == number);
    let loads = lines
        .last()
        .is_some_and(|line| matches!(&line.cmd, Cmd::Load { .. }));
    lines.len() == count && numbered && loads
}

/// Twenty thousand names of tables are kept, and the last one is found.
#[test]
fn many_tables_are_known(rt: HostRuntime) -> Result<(), Fail> {
    let bytes = many_tables(rt.alloc(), 20_000)?;
    let script = parse(rt.alloc(), &bytes, ScriptForm::Run)?;
    assert!(rt; ends_with_a_load(script.lines(), 20_001));
    Ok(())
}

#[test]
fn a_table_below_many_is_unknown(rt: HostRuntime) -> Result<(), Fail> {
    let bytes = many_tables(rt.alloc(), 19_999)?;
    let found = refusal(rt.alloc(), &bytes, ScriptForm::Run)?;
    assert!(rt; found == Some((20_000, Why::Table)));
    Ok(())
}

#[test]
fn scripts_for_workers(rt: HostRuntime) -> Result<(), Fail> {
    let lines: [(&[u8], Option<(u64, Why)>); 5] = [
        (b"db seal", Some((1, Why::Who))),
        (b"c1 begin get a", Some((1, Why::Verb))),
        (b"c1 settle 1", Some((1, Why::Verb))),
        (b"table t1 set a 1\nc1 load l1 t1", None),
        (b"c1 await s\nc1 last k", None),
    ];
    for (script, refused) in lines {
        let found = refusal(rt.alloc(), script, ScriptForm::Threads)?;
        assert!(rt; found == refused);
    }
    Ok(())
}

/// Whether there are 39 lines, with a table first and the install at line 27.
fn is_whole(script: &Script) -> bool {
    let lines = script.lines();
    lines.len() == 39
        && lines.first().is_some_and(|line| is_table(line))
        && lines.get(24).is_some_and(|line| is_install(line))
}

fn is_table(line: &Line) -> bool {
    line.number == 3
        && line.by.is_none()
        && matches!(&line.cmd, Cmd::Table { table } if table.ops().len() == 3)
}

fn is_install(line: &Line) -> bool {
    line.number == 27
        && line.by == Some(By::Client(16))
        && matches!(&line.cmd, Cmd::Install { load } if load.bytes() == b"l1".as_slice())
}

#[test]
fn the_whole_language(rt: HostRuntime) -> Result<(), Fail> {
    let script = parse(rt.alloc(), WHOLE, ScriptForm::Run)?;
    assert!(rt; is_whole(&script));
    Ok(())
}
