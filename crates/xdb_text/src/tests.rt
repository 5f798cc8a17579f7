use crate::{is_plain, line, text};
use std::alloc::Global;
use std::test::Fail;
use xdb_key::{Bound, Extent, Key, KeyRange, Name, Op, Ops, SnapState, Val, disorder};
use xdb_meta::TableMeta;
use xdb_plain::{
    Act, Answer, By, CommitForm, Items, LoadTable, Note, Question, Reply, ShowWhat, StatusForm,
    Step, Which,
};

/// Steps whose lines are looked at together.
#[derive(Clone, Copy)]
enum Steps {
    RepliesOfOneWord,
    RepliesWithNumbersAndNames,
    Answers,
    Tables,
    Snapshots,
    Commands,
    Commits,
    Loads,
    Ranges,
    Reads,
    Moves,
    Bytes,
    Long,
}

fn name(text: &str) -> Result<Name, Fail> {
    match Name::new(text.as_bytes()) {
        Some(name) => Ok(name),
        None => Err(Fail::from("it is no name")),
    }
}

fn key(alloc: Global, text: &str) -> Result<Key, Fail> {
    Ok(Key::new(text.as_bytes().to_vec(alloc)?)?)
}

fn value(alloc: Global, text: &str) -> Result<Val, Fail> {
    Ok(Val::new(text.as_bytes().to_vec(alloc)?))
}

fn range(alloc: Global, lo: &str, hi: &str) -> Result<KeyRange, Fail> {
    let lo = Bound::new(lo.as_bytes().to_vec(alloc)?)?;
    let hi = Bound::new(hi.as_bytes().to_vec(alloc)?)?;
    Ok(KeyRange::new(lo, hi)?)
}

fn add(notes: &mut Vec<Note>, by: By, act: Act, reply: Reply) -> Result<(), Fail> {
    let alloc = *notes.allocator();
    notes.push(Note {
        by,
        act,
        reply,
        edit: None,
        holds: Items::new(Vec::new(alloc)),
        tried: Items::new(Vec::new(alloc)),
    })?;
    Ok(())
}

/// A step of the owner with this reply.
fn reply(notes: &mut Vec<Note>, reply: Reply) -> Result<(), Fail> {
    add(notes, By::Db, Act::Seal, reply)
}

/// A step of the owner.
fn owner(notes: &mut Vec<Note>, act: Act) -> Result<(), Fail> {
    add(notes, By::Db, act, Reply::Nothing)
}

/// A step of client 1.
fn client(notes: &mut Vec<Note>, act: Act) -> Result<(), Fail> {
    add(notes, By::Client(1), act, Reply::Nothing)
}

fn fill(notes: &mut Vec<Note>, steps: Steps) -> Result<(), Fail> {
    match steps {
        Steps::RepliesOfOneWord => replies_of_one_word(notes),
        Steps::RepliesWithNumbersAndNames => replies_with_numbers_and_names(notes),
        Steps::Answers => answers(notes),
        Steps::Tables => tables(notes),
        Steps::Snapshots => snapshots(notes),
        Steps::Commands => commands(notes),
        Steps::Commits => commits(notes),
        Steps::Loads => loads(notes),
        Steps::Ranges => ranges(notes),
        Steps::Reads => reads(notes),
        Steps::Moves => moves(notes),
        Steps::Bytes => bytes(notes),
        Steps::Long => long(notes),
    }
}

fn notes(alloc: Global, steps: Steps) -> Result<Vec<Note>, Fail> {
    let mut notes = Vec::new(alloc);
    fill(&mut notes, steps)?;
    Ok(notes)
}

fn printed(alloc: Global, steps: Steps) -> Result<Vec<u8>, Fail> {
    let notes = notes(alloc, steps)?;
    Ok(text(alloc, &notes)?)
}

/// Whether the steps have these lines.
fn print_as(alloc: Global, steps: Steps, lines: &[u8]) -> Result<bool, Fail> {
    let printed = printed(alloc, steps)?;
    Ok(printed.as_slice() == lines)
}

fn replies_of_one_word(notes: &mut Vec<Note>) -> Result<(), Fail> {
    reply(notes, Reply::Done)?;
    reply(notes, Reply::Installed)?;
    reply(notes, Reply::Opened)?;
    reply(notes, Reply::Dropped)?;
    reply(notes, Reply::Shut)?;
    reply(notes, Reply::CursorOn)?;
    reply(notes, Reply::Answered(Answer::Absent))?;
    reply(notes, Reply::Answered(Answer::End))?;
    reply(notes, Reply::FileOnly)?;
    reply(notes, Reply::Nothing)?;
    reply(notes, Reply::NoSuch)?;
    reply(notes, Reply::Outside)?;
    reply(notes, Reply::NameInUse)?;
    reply(notes, Reply::TooMany)?;
    reply(notes, Reply::BadRanges)?;
    reply(notes, Reply::Spent)?;
    reply(notes, Reply::NotYet)?;
    reply(notes, Reply::Fault)?;
    reply(notes, Reply::Stuck)?;
    reply(notes, Reply::Memory)
}

fn replies_with_numbers_and_names(notes: &mut Vec<Note>) -> Result<(), Fail> {
    let first = name("l1")?;
    let second = name("t")?;
    reply(notes, Reply::Asked(3))?;
    reply(notes, Reply::Group(2))?;
    reply(notes, Reply::Job(10))?;
    reply(notes, Reply::Took((1 << 56) - 1))?;
    reply(notes, Reply::Took(u64::MAX))?;
    reply(notes, Reply::Pinned(4))?;
    reply(notes, Reply::Excised(first))?;
    reply(notes, Reply::Fenced(first))?;
    reply(notes, Reply::Waits(1))?;
    reply(notes, Reply::Cancelled(first))?;
    reply(notes, Reply::Busy(7))?;
    reply(notes, Reply::Overlap(first, second))?;
    reply(notes, Reply::Damaged(8, 0))
}

/// The pairs b=1 and a=2.
fn two_pairs(alloc: Global) -> Result<Vec<(Key, Val)>, Fail> {
    let mut pairs = Vec::new(alloc);
    pairs.push((key(alloc, "b")?, value(alloc, "1")?))?;
    pairs.push((key(alloc, "a")?, value(alloc, "2")?))?;
    Ok(pairs)
}

fn answers(notes: &mut Vec<Note>) -> Result<(), Fail> {
    let alloc = *notes.allocator();
    reply(notes, Reply::Answered(Answer::Value(value(alloc, "")?)))?;
    let pair = Answer::Pair(key(alloc, "k")?, value(alloc, "x=y")?);
    reply(notes, Reply::Answered(pair))?;
    let none = Answer::Found(Items::new(Vec::new(alloc)));
    reply(notes, Reply::Answered(none))?;
    let found = Answer::Found(Items::new(two_pairs(alloc)?));
    reply(notes, Reply::Answered(found))
}

/// Tables 1 and 2 in the level, the second as a part of the first one's file.
fn two_tables(alloc: Global) -> Result<Items<TableMeta>, Fail> {
    let mut tables = Vec::new(alloc);
    let whole = Extent::new(range(alloc, "a", "b c")?, 1, 5);
    tables.push(TableMeta::physical(1, whole, 0, 43))?;
    let part = Extent::new(range(alloc, "a", "b")?, 1, 5);
    tables.push(TableMeta::virtual_(2, 1, part, 0, 43))?;
    Ok(Items::new(tables))
}

/// Tables in the first and the last of three levels, or one level without tables.
fn levels(alloc: Global, some: bool) -> Result<Reply, Fail> {
    let mut levels = Vec::new(alloc);
    if some {
        levels.push(two_tables(alloc)?)?;
    }
    levels.push(Items::new(Vec::new(alloc)))?;
    if some {
        levels.push(two_tables(alloc)?)?;
    }
    Ok(Reply::Levels(Items::new(levels)))
}

fn tables(notes: &mut Vec<Note>) -> Result<(), Fail> {
    let alloc = *notes.allocator();
    reply(notes, levels(alloc, false)?)?;
    reply(notes, levels(alloc, true)?)?;
    reply(notes, Reply::Counts(Items::new(Vec::new(alloc))))?;
    let counts = vec![in alloc; (1, 2), (4, 1)]?;
    reply(notes, Reply::Counts(Items::new(counts)))
}

fn snapshots(notes: &mut Vec<Note>) -> Result<(), Fail> {
    let alloc = *notes.allocator();
    reply(notes, Reply::Snaps(Items::new(Vec::new(alloc))))?;
    let (first, second, load) = (name("s")?, name("s2")?, name("l")?);
    let snaps = vec![in alloc;
        (first, SnapState::FileOnly),
        (second, SnapState::Pinned { group: 3 }),
        (load, SnapState::Excised { load }),
    ]?;
    reply(notes, Reply::Snaps(Items::new(snaps)))
}

fn commands(notes: &mut Vec<Note>) -> Result<(), Fail> {
    let name = name("s")?;
    owner(notes, Act::FlushTake)?;
    owner(notes, Act::CompactTake { which: Which::Auto })?;
    owner(notes, Act::Put { job: 2 })?;
    owner(notes, Act::Build { job: 2 })?;
    owner(notes, Act::Work { ask: 3 })?;
    owner(notes, Act::Reap)?;
    owner(notes, Act::Remove { num: 9 })?;
    for what in [ShowWhat::Levels, ShowWhat::Counts, ShowWhat::Snaps] {
        owner(notes, Act::Show { what })?;
    }
    client(notes, Act::LoadKept { load: name })?;
    client(notes, Act::Drop { name })?;
    for form in [StatusForm::Status, StatusForm::Await] {
        client(notes, Act::Status { name, form })?;
    }
    client(notes, Act::Shut { name })?;
    client(notes, Act::Settle { ask: 3 })?;
    let install = Act::Install { load: name };
    add(notes, By::Client(16), install, Reply::Nothing)
}

fn set(alloc: Global) -> Result<Op, Fail> {
    let key = key(alloc, "k")?;
    let value = value(alloc, "v")?;
    Ok(Op::Set { key, value })
}

fn del(alloc: Global) -> Result<Op, Fail> {
    let key = key(alloc, "k")?;
    Ok(Op::Del { key })
}

fn del_span(alloc: Global) -> Result<Op, Fail> {
    let range = range(alloc, "a", "b")?;
    Ok(Op::DelSpan { range })
}

/// Commits the operation.
fn commit(notes: &mut Vec<Note>, form: CommitForm, op: Op) -> Result<(), Fail> {
    let ops = Ops::new(vec![in *notes.allocator(); op]?);
    let act = Act::Commit { form, ops };
    add(notes, By::Client(1), act, Reply::Done)
}

/// Commits three operations.
fn commit_three(notes: &mut Vec<Note>, form: CommitForm) -> Result<(), Fail> {
    let alloc = *notes.allocator();
    let mut ops = Vec::new(alloc);
    ops.push(set(alloc)?)?;
    ops.push(del(alloc)?)?;
    ops.push(del_span(alloc)?)?;
    let ops = Ops::new(ops);
    let act = Act::Commit { form, ops };
    add(notes, By::Client(2), act, Reply::Done)
}

fn commits(notes: &mut Vec<Note>) -> Result<(), Fail> {
    let alloc = *notes.allocator();
    commit(notes, CommitForm::Put, set(alloc)?)?;
    commit(notes, CommitForm::Del, del(alloc)?)?;
    commit(notes, CommitForm::DelSpan, del_span(alloc)?)?;
    commit(notes, CommitForm::Del, set(alloc)?)?;
    commit(notes, CommitForm::Batch, set(alloc)?)?;
    commit_three(notes, CommitForm::Put)
}

/// A table of one delete.
fn table(alloc: Global, text: &str) -> Result<LoadTable, Fail> {
    let name = name(text)?;
    let key = key(alloc, "a")?;
    let ops = vec![in alloc; Op::Del { key }]?;
    if ops.len() != 1 || disorder(&ops).is_some() {
        return Err(Fail::from("they are no table"));
    }
    Ok(LoadTable::new(name, Ops::new(ops)))
}

fn two_tables_to_load(alloc: Global) -> Result<Vec<LoadTable>, Fail> {
    let mut tables = Vec::new(alloc);
    tables.push(table(alloc, "t")?)?;
    tables.push(table(alloc, "u")?)?;
    Ok(tables)
}

/// A load of two tables with a span.
fn load(notes: &mut Vec<Note>, reply: Reply) -> Result<(), Fail> {
    let alloc = *notes.allocator();
    let load = name("l")?;
    let tables = Items::new(two_tables_to_load(alloc)?);
    let span = Some(range(alloc, "a", "b")?);
    let act = Act::LoadOpen { load, tables, span };
    add(notes, By::Client(3), act, reply)
}

fn loads(notes: &mut Vec<Note>) -> Result<(), Fail> {
    load(notes, Reply::Opening)?;
    load(notes, Reply::Opened)?;
    load(notes, Reply::Memory)?;
    load(notes, Reply::Nothing)
}

fn two_ranges(alloc: Global) -> Result<Vec<KeyRange>, Fail> {
    let mut ranges = Vec::new(alloc);
    ranges.push(range(alloc, "a", "b")?)?;
    ranges.push(range(alloc, "c", "d")?)?;
    Ok(ranges)
}

fn cursor(notes: &mut Vec<Note>, at: Option<Name>) -> Result<(), Fail> {
    let name = name("s")?;
    let range = range(*notes.allocator(), "a", "b")?;
    let act = Act::Cursor { name, range, at };
    add(notes, By::Client(1), act, Reply::CursorOn)
}

fn ranges(notes: &mut Vec<Note>) -> Result<(), Fail> {
    let alloc = *notes.allocator();
    let name = name("s")?;
    let ranges = Items::new(two_ranges(alloc)?);
    let act = Act::Snap { name, ranges };
    add(notes, By::Client(1), act, Reply::FileOnly)?;
    let range = range(alloc, "a", "b")?;
    let which = Which::At { level: 6, range };
    add(notes, By::Db, Act::CompactTake { which }, Reply::Job(1))?;
    cursor(notes, None)?;
    cursor(notes, Some(name))
}

/// A copy of the question is asked.
fn ask(notes: &mut Vec<Note>, question: &Question, parted: bool, reply: Reply) -> Result<(), Fail> {
    let question = question.copy()?;
    let act = Act::Ask {
        ask: 3,
        question,
        parted,
    };
    add(notes, By::Client(1), act, reply)
}

fn get(alloc: Global) -> Result<Question, Fail> {
    let at = Some(name("s")?);
    let key = key(alloc, "k")?;
    Ok(Question::Get { key, at })
}

fn gets(notes: &mut Vec<Note>) -> Result<(), Fail> {
    let get = get(*notes.allocator())?;
    for parted in [false, true] {
        ask(notes, &get, parted, Reply::Asked(3))?;
        ask(notes, &get, parted, Reply::NoSuch)?;
        ask(notes, &get, parted, Reply::Fault)?;
    }
    ask(notes, &get, false, Reply::Answered(Answer::Absent))
}

fn scan(notes: &mut Vec<Note>) -> Result<(), Fail> {
    let scan = Question::Scan {
        range: range(*notes.allocator(), "a", "b")?,
        most: 1000,
        at: None,
    };
    ask(notes, &scan, false, Reply::Fault)
}

fn rscan(notes: &mut Vec<Note>) -> Result<(), Fail> {
    let at = Some(name("s")?);
    let rscan = Question::RScan {
        range: range(*notes.allocator(), "a", "b")?,
        most: 1,
        at,
    };
    ask(notes, &rscan, false, Reply::Fault)
}

fn reads(notes: &mut Vec<Note>) -> Result<(), Fail> {
    gets(notes)?;
    scan(notes)?;
    rscan(notes)
}

fn go(notes: &mut Vec<Note>, step: Step) -> Result<(), Fail> {
    let cursor = name("c")?;
    let question = Question::Move { cursor, step };
    ask(notes, &question, false, Reply::Answered(Answer::End))
}

fn moves(notes: &mut Vec<Note>) -> Result<(), Fail> {
    let alloc = *notes.allocator();
    go(notes, Step::First)?;
    go(notes, Step::Last)?;
    go(notes, Step::Next)?;
    go(notes, Step::Prev)?;
    let key_k = key(alloc, "k")?;
    go(notes, Step::Seek { key: key_k })?;
    let key_k = key(alloc, "k")?;
    go(notes, Step::SeekLt { key: key_k })
}

/// A value of the sixteen bytes from this one on.
fn sixteen(alloc: Global, start: u8) -> Result<Val, Fail> {
    let mut bytes = Vec::new(alloc);
    for step in 0..16 {
        bytes.push(start.wrapping_add(step))?;
    }
    Ok(Val::new(bytes))
}

/// Each byte, in values of sixteen.
fn bytes(notes: &mut Vec<Note>) -> Result<(), Fail> {
    let alloc = *notes.allocator();
    for row in 0..16u8 {
        let value = sixteen(alloc, row.wrapping_mul(16))?;
        reply(notes, Reply::Answered(Answer::Value(value)))?;
    }
    Ok(())
}

/// Five thousand steps, and then a value of as many bytes as one may have.
fn long(notes: &mut Vec<Note>) -> Result<(), Fail> {
    for job in 1..5001 {
        owner(notes, Act::Put { job })?;
    }
    let value = Val::new(vec![in *notes.allocator(); b' '; 65_536]?);
    reply(notes, Reply::Answered(Answer::Value(value)))
}

#[test]
fn replies_have_their_words(rt: HostRuntime) -> Result<(), Fail> {
    let rows: [(Steps, &[u8]); 5] = [
        (
            Steps::RepliesOfOneWord,
            b"db seal -> done\ndb seal -> installed\ndb seal -> opened\ndb seal -> dropped\n\
db seal -> shut\ndb seal -> open\ndb seal -> none\ndb seal -> end\ndb seal -> file-only\n\
db seal -> none\ndb seal -> no-such\ndb seal -> outside\ndb seal -> name-in-use\n\
db seal -> too-many\ndb seal -> bad-ranges\ndb seal -> spent\ndb seal -> not-yet\n\
db seal -> fault\ndb seal -> stuck\ndb seal -> memory\n",
        ),
        (
            Steps::RepliesWithNumbersAndNames,
            b"db seal -> asked 3\ndb seal -> group 2\ndb seal -> job 10\n\
db seal -> 72057594037927935\ndb seal -> 18446744073709551615\ndb seal -> pinned 4\n\
db seal -> excised l1\ndb seal -> fenced l1\ndb seal -> waits 1\ndb seal -> cancelled l1\n\
db seal -> busy 7\ndb seal -> overlap l1 t\ndb seal -> damaged 8 0\n",
        ),
        (
            Steps::Answers,
            b"db seal -> value \"\"\ndb seal -> at k=x%3dy\ndb seal -> found\n\
db seal -> found b=1 a=2\n",
        ),
        (
            Steps::Tables,
            b"db seal -> none\ndb seal -> L0 1[a,b%20c) 2@1[a,b) L2 1[a,b%20c) 2@1[a,b)\n\
db seal -> none\ndb seal -> 1=2 4=1\n",
        ),
        (
            Steps::Snapshots,
            b"db seal -> none\ndb seal -> s=file-only s2=pinned/3 l=excised/l\n",
        ),
    ];
    for (steps, lines) in rows {
        let same = print_as(rt.alloc(), steps, lines)?;
        assert!(rt; same);
    }
    Ok(())
}

#[test]
fn commands_have_their_words(rt: HostRuntime) -> Result<(), Fail> {
    let rows: [(Steps, &[u8]); 3] = [
        (
            Steps::Commands,
            b"db flush-take -> none\ndb compact-take auto -> none\ndb put 2 -> none\n\
db build 2 -> none\ndb work 3 -> none\ndb reap -> none\ndb remove 9 -> none\n\
db show levels -> none\ndb show counts -> none\ndb show snaps -> none\nc1 load s -> none\n\
c1 drop s -> none\nc1 status s -> none\nc1 await s -> none\nc1 shut s -> none\n\
c1 settle 3 -> none\nc16 install s -> none\n",
        ),
        (
            Steps::Commits,
            b"c1 put k v -> done\nc1 del k -> done\nc1 delspan a b -> done\n\
c1 batch set k v -> done\nc1 batch set k v -> done\n\
c2 batch set k v ; del k ; delspan a b -> done\n",
        ),
        (
            Steps::Ranges,
            b"c1 snap s a b c d -> file-only\ndb compact-take 6 a b -> job 1\n\
c1 cursor s a b -> open\nc1 cursor s a b at s -> open\n",
        ),
    ];
    for (steps, lines) in rows {
        let same = print_as(rt.alloc(), steps, lines)?;
        assert!(rt; same);
    }
    Ok(())
}

#[test]
fn loads_and_reads_print_when_they_end(rt: HostRuntime) -> Result<(), Fail> {
    let rows: [(Steps, &[u8]); 3] = [
        (
            Steps::Loads,
            b"c3 load l t u excise a b -> opened\nc3 load l t u excise a b -> memory\n\
c3 load l t u excise a b -> nothing\n",
        ),
        (
            Steps::Reads,
            b"c1 get k at s -> no-such\nc1 get k at s -> fault\nc1 begin get k at s -> asked 3\n\
c1 begin get k at s -> no-such\nc1 begin get k at s -> fault\nc1 get k at s -> none\n\
c1 scan a b 1000 -> fault\nc1 rscan a b 1 at s -> fault\n",
        ),
        (
            Steps::Moves,
            b"c1 first c -> end\nc1 last c -> end\nc1 next c -> end\nc1 prev c -> end\n\
c1 seek c k -> end\nc1 seeklt c k -> end\n",
        ),
    ];
    for (steps, lines) in rows {
        let same = print_as(rt.alloc(), steps, lines)?;
        assert!(rt; same);
    }
    Ok(())
}

#[test]
fn every_byte_is_spelled(rt: HostRuntime) -> Result<(), Fail> {
    let lines = b"db seal -> value %00%01%02%03%04%05%06%07%08%09%0a%0b%0c%0d%0e%0f\n\
db seal -> value %10%11%12%13%14%15%16%17%18%19%1a%1b%1c%1d%1e%1f\n\
db seal -> value %20%21%22%23%24%25%26%27%28%29%2a%2b%2c-./\n\
db seal -> value 0123456789%3a%3b%3c%3d%3e%3f\n\
db seal -> value %40ABCDEFGHIJKLMNO\n\
db seal -> value PQRSTUVWXYZ%5b%5c%5d%5e_\n\
db seal -> value %60abcdefghijklmno\n\
db seal -> value pqrstuvwxyz%7b%7c%7d%7e%7f\n\
db seal -> value %80%81%82%83%84%85%86%87%88%89%8a%8b%8c%8d%8e%8f\n\
db seal -> value %90%91%92%93%94%95%96%97%98%99%9a%9b%9c%9d%9e%9f\n\
db seal -> value %a0%a1%a2%a3%a4%a5%a6%a7%a8%a9%aa%ab%ac%ad%ae%af\n\
db seal -> value %b0%b1%b2%b3%b4%b5%b6%b7%b8%b9%ba%bb%bc%bd%be%bf\n\
db seal -> value %c0%c1%c2%c3%c4%c5%c6%c7%c8%c9%ca%cb%cc%cd%ce%cf\n\
db seal -> value %d0%d1%d2%d3%d4%d5%d6%d7%d8%d9%da%db%dc%dd%de%df\n\
db seal -> value %e0%e1%e2%e3%e4%e5%e6%e7%e8%e9%ea%eb%ec%ed%ee%ef\n\
db seal -> value %f0%f1%f2%f3%f4%f5%f6%f7%f8%f9%fa%fb%fc%fd%fe%ff\n";
    let same = print_as(rt.alloc(), Steps::Bytes, lines)?;
    assert!(rt; same);
    Ok(())
}

#[test]
fn bytes_that_stand_for_themselves(rt: HostRuntime) {
    let plain = b"-./0123456789ABCDEFGHIJKLMNOPQRSTUVWXYZ_abcdefghijklmnopqrstuvwxyz";
    for byte in 0..=255u8 {
        assert!(rt; is_plain(byte) == plain.contains(&byte));
    }
}

/// Appends the lines of the steps, one by one.
fn append(out: &mut Vec<u8>, steps: Steps) -> Result<(), Fail> {
    let notes = notes(*out.allocator(), steps)?;
    for note in &notes {
        line(note, out)?;
    }
    Ok(())
}

#[test]
fn lines_are_appended(rt: HostRuntime) -> Result<(), Fail> {
    let mut out = b"c9 reap\n".to_vec(rt.alloc())?;
    append(&mut out, Steps::Snapshots)?;
    let lines = b"c9 reap\ndb seal -> none\ndb seal -> s=file-only s2=pinned/3 l=excised/l\n";
    assert!(rt; out.as_slice() == lines.as_slice());
    Ok(())
}

#[test]
fn no_history_has_no_lines(rt: HostRuntime) -> Result<(), Fail> {
    let out = text(rt.alloc(), &[])?;
    assert!(rt; out.is_empty());
    Ok(())
}

/// The lines of the jobs have 16 bytes each beside their numbers, which have 18,893 digits together.
/// A space is spelled with three bytes.
fn is_long(out: &[u8]) -> bool {
    if out.len() != 5000 * 16 + 18_893 + 17 + 3 * 65_536 + 1 {
        return false;
    }
    let (jobs, value) = out.split_at(98_893);
    jobs.starts_with(b"db put 1 -> none\ndb put 2 -> none\n")
        && jobs.ends_with(b"db put 4999 -> none\ndb put 5000 -> none\n")
        && value.starts_with(b"db seal -> value %20%20")
        && value.ends_with(b"%20%20\n")
}

#[test]
fn a_long_history_is_printed(rt: HostRuntime) -> Result<(), Fail> {
    let out = printed(rt.alloc(), Steps::Long)?;
    assert!(rt; is_long(&out));
    Ok(())
}

fn is_del_of_a(table: &LoadTable) -> bool {
    let dels = matches!(table.ops(), [Op::Del { key }] if key.bytes() == b"a".as_slice());
    table.name().bytes() == b"t".as_slice() && dels
}

fn copied_table(alloc: Global) -> Result<LoadTable, Fail> {
    let table = table(alloc, "t")?;
    Ok(table.copy()?)
}

#[test]
fn a_table_is_copied(rt: HostRuntime) -> Result<(), Fail> {
    let copy = copied_table(rt.alloc())?;
    assert!(rt; is_del_of_a(&copy));
    Ok(())
}
