// What no clause says: that calls answer anything but want of memory where memory is ample, that a delivered result
// is found, and that some thousand calls leave no more room than is needed.
ghost use Rattle.std.specs.Prelude.{◌≡◌, ◌+◌, ◌≤◌, ◌^◌};

use crate::{Engine, Id};
use std::alloc::Global;
use std::marker::Brand;
use std::sync::ledger::{Blank, Ledger};
use std::test::Fail;
use xdb_batch::Batch;
use xdb_device::{FaultBook, MemDevice, MemFile};
use xdb_key::Key;
use xdb_order::Hand;
use xdb_plain::{Act, Answer, CommitForm, Question, Reply, ShowWhat};
use xdb_read::{ReadWork, answer};
use xdb_vset::VersionSet;

/// A reply without what it owns; of a value its first byte.
#[derive(Clone, Copy, Debug, PartialEq, Eq)]
enum Told {
    Done,
    Spent,
    Nothing,
    Group(u64),
    Asked(u64),
    TooMany,
    NotYet,
    NoSuch,
    Value(u8),
    Memory,
    Other,
}

fn kind_of(reply: &Reply) -> Told {
    match reply {
        Reply::Done => Told::Done,
        Reply::Spent => Told::Spent,
        Reply::Nothing => Told::Nothing,
        Reply::Group(group) => Told::Group(*group),
        Reply::Asked(ask) => Told::Asked(*ask),
        Reply::TooMany => Told::TooMany,
        Reply::NotYet => Told::NotYet,
        Reply::NoSuch => Told::NoSuch,
        Reply::Memory => Told::Memory,
        Reply::Answered(Answer::Value(value)) => match value.bytes() {
            [first, ..] => Told::Value(*first),
            [] => Told::Other,
        },
        _ => Told::Other,
    }
}

/// The key of two bytes.
fn key(alloc: Global, number: u16) -> Result<Key, Fail> {
    Ok(Key::new(number.to_be_bytes().to_vec(alloc)?)?)
}

/// So many sets of the key, to the values `1`, `2` and so on.
fn sets(alloc: Global, number: u16, count: u8) -> Result<Batch, Fail> {
    let mut batch = Batch::new(alloc);
    for value in 0..count {
        batch.set(key(alloc, number)?, [b'1' + value % 9].to_vec(alloc)?)?;
    }
    Ok(batch)
}

fn commit<L: Ledger>(
    alloc: Global,
    engine: &mut Engine<MemFile, L>,
    number: u16,
    count: u8,
) -> Result<Told, Fail>
    requires { 1 ≤ engine.old.spare }
    ensures { engine.old.spare ≤ engine.new.spare + 1 }
{
    let batch = sets(alloc, number, count)?;
    Ok(kind_of(&engine.commit(1, CommitForm::Batch, batch)))
}

fn settle<L: Ledger>(engine: &mut Engine<MemFile, L>, ask: u64) -> Told
    requires { 1 ≤ engine.old.spare }
    ensures { engine.old.spare ≤ engine.new.spare + 1 }
{
    kind_of(&engine.settle(2, ask))
}

/// What a question for the key replies, and its hand.
fn ask<L: Ledger>(
    alloc: Global,
    engine: &mut Engine<MemFile, L>,
    number: u16,
    parted: bool,
) -> Result<(Told, Option<Hand<ReadWork<MemFile>>>), Fail>
    requires { 1 ≤ engine.old.spare }
    ensures { engine.old.spare ≤ engine.new.spare + 1 }
{
    let question = Question::Get {
        key: key(alloc, number)?,
        at: None,
    };
    let (reply, hand) = engine.ask(1, question, parted);
    Ok((kind_of(&reply), hand))
}

fn deliver(alloc: Global, hand: Hand<ReadWork<MemFile>>) -> Result<(), Fail> {
    let mut dev = MemDevice::new(alloc, Vec::new(alloc));
    let done = answer(alloc, hand.given(), &mut dev)?;
    hand.deliver(done);
    Ok(())
}

/// The last sequence number is there, and none beyond.
fn last_numbers<L: Ledger>(alloc: Global, engine: &mut Engine<MemFile, L>) -> Result<bool, Fail> {
    for (count, reply) in [(2, Told::Spent), (1, Told::Done), (1, Told::Spent)] {
        engine.ready()?;
        if commit(alloc, engine, 1, count)? != reply {
            return Ok(false);
        }
    }
    Ok(engine.notes().len() == 3)
}

fn seals<L: Ledger>(alloc: Global, engine: &mut Engine<MemFile, L>) -> Result<bool, Fail> {
    engine.ready()?;
    let empty = kind_of(&engine.seal());
    let done = commit(alloc, engine, 1, 1)?;
    let held = engine.active_ops();
    Ok(
        empty == Told::Nothing
            && done == Told::Done
            && held == 1
            && kind_of(&engine.seal()) == Told::Group(1)
            && engine.active_group() == 2
            && engine.active_ops() == 0,
    )
}

/// The question's answer is found at its desk, and is that of the asking.
fn asked_before<L: Ledger>(alloc: Global, engine: &mut Engine<MemFile, L>) -> Result<bool, Fail> {
    engine.ready()?;
    commit(alloc, engine, 1, 1)?;
    match ask(alloc, engine, 1, true)? {
        (Told::Asked(1), Some(hand)) => settled_behind(alloc, engine, hand),
        _ => Ok(false),
    }
}

fn settled_behind<L: Ledger>(
    alloc: Global,
    engine: &mut Engine<MemFile, L>,
    hand: Hand<ReadWork<MemFile>>,
) -> Result<bool, Fail> {
    engine.ready()?;
    commit(alloc, engine, 1, 2)?;
    let early = settle(engine, 1);
    deliver(alloc, hand)?;
    Ok(
        early == Told::NotYet
            && engine.arrived(Id::Ask(1))
            && settle(engine, 1) == Told::Value(b'1')
            && settle(engine, 1) == Told::NoSuch,
    )
}

/// A read that isn't in parts ends for want of memory; then there is no such work, and no load.
fn lack<L: Ledger>(alloc: Global, engine: &mut Engine<MemFile, L>) -> Result<bool, Fail> {
    engine.ready()?;
    let (asked, hand) = ask(alloc, engine, 1, false)?;
    Ok(
        asked == Told::Asked(1)
            && hand.is_some()
            && engine.reserved(&Id::Ask(1)).is_some()
            && kind_of(&engine.lack(Id::Ask(1), Vec::new(alloc))) == Told::Memory
            && kind_of(&engine.no_such(Act::Work { ask: 1 })) == Told::NoSuch
            && engine.given(&Id::Ask(1)).is_none()
            && engine.fence_on(&[]).is_none(),
    )
}

/// Some thousand commits, questions and answers. At the end no question is open, and the notes have at most
/// about twice the room that they need.
fn thousands<L: Ledger>(alloc: Global, engine: &mut Engine<MemFile, L>) -> Result<bool, Fail> {
    for turn in 1..=1000 {
        if !turn_is_right(alloc, engine, turn)? {
            return Ok(false);
        }
    }
    Ok(
        engine.notes().len() == 3 * 1000
            && engine.spare() <= 3 * 1000 + 64
            && engine.active_ops() == 1000
            && engine.given(&Id::Ask(1000)).is_none(),
    )
}

/// A commit, and a question for what it set.
fn turn_is_right<L: Ledger>(
    alloc: Global,
    engine: &mut Engine<MemFile, L>,
    turn: u16,
) -> Result<bool, Fail> {
    engine.ready()?;
    commit(alloc, engine, turn, 1)?;
    let number = u64::from(turn);
    match ask(alloc, engine, turn, true)? {
        (Told::Asked(asked), Some(hand)) if asked == number => deliver(alloc, hand)?,
        _ => return Ok(false),
    }
    Ok(engine.arrived(Id::Ask(number)) && settle(engine, number) == Told::Value(b'1'))
}

/// As many questions as may be open, and one more.
fn most_questions<L: Ledger>(alloc: Global, engine: &mut Engine<MemFile, L>) -> Result<bool, Fail> {
    for number in 1..=64 {
        engine.ready()?;
        if ask(alloc, engine, 1, true)?.0 != Told::Asked(number) {
            return Ok(false);
        }
    }
    engine.ready()?;
    Ok(ask(alloc, engine, 1, true)?.0 == Told::TooMany)
}

/// There are no files yet: what is shown says so, and nothing is dead.
fn inside<L: Ledger>(alloc: Global, engine: &mut Engine<MemFile, L>) -> Result<bool, Fail> {
    engine.ready()?;
    let levels = is_shown(&engine.show(ShowWhat::Levels));
    let counts = is_shown(&engine.show(ShowWhat::Counts));
    let snaps = is_shown(&engine.show(ShowWhat::Snaps));
    Ok(levels && counts && snaps && engine.dead_len() == 0 && takes_nothing(alloc, engine))
}

/// Seven levels without tables, no counts, or no snapshots.
fn is_shown(reply: &Reply) -> bool {
    match reply {
        Reply::Levels(levels) => levels.list().len() == 7,
        Reply::Counts(counts) => counts.list().is_empty(),
        Reply::Snaps(snaps) => snaps.list().is_empty(),
        _ => false,
    }
}

fn takes_nothing<L: Ledger>(alloc: Global, engine: &mut Engine<MemFile, L>) -> bool
    requires { 1 ≤ engine.old.spare }
{
    let (reply, dead) = engine.reap();
    let told = kind_of(&reply) == Told::Nothing;
    match dead {
        None => told,
        Some(dead) => {
            VersionSet::<MemFile>::new(alloc).spend(dead);
            false
        }
    }
}

/// What is played on an engine of its own, and its first sequence number.
#[derive(Clone, Copy, Debug)]
enum Scene {
    LastNumbers,
    Seals,
    AskedBefore,
    Lack,
    Inside,
    Thousands,
    MostQuestions,
}

fn first_number(scene: Scene) -> u64
    ensures low { 1 ≤ result }
    ensures high { result ≤ 2 ^ 56 }
{
    match scene {
        Scene::LastNumbers => (1 << 56) - 1,
        _ => 1,
    }
}

fn play<L: Ledger>(
    alloc: Global,
    engine: &mut Engine<MemFile, L>,
    scene: Scene,
) -> Result<bool, Fail> {
    match scene {
        Scene::LastNumbers => last_numbers(alloc, engine),
        Scene::Seals => seals(alloc, engine),
        Scene::AskedBefore => asked_before(alloc, engine),
        Scene::Lack => lack(alloc, engine),
        Scene::Inside => inside(alloc, engine),
        Scene::Thousands => thousands(alloc, engine),
        Scene::MostQuestions => most_questions(alloc, engine),
    }
}

fn plays<L: Ledger>(alloc: Global, blank: Blank, scene: Scene) -> Result<bool, Fail>
    requires name { blank.name ≡ L.name }
    requires parts { blank.parts ≡ L.parts }
    requires one { blank.parts ≡ 1 }
{
    let (book, _shares) = FaultBook::<L>::split(alloc, blank, 1)?;
    let mut engine: Engine<MemFile, L> = Engine::new(alloc, first_number(scene), 1, book);
    play(alloc, &mut engine, scene)
}

#[test]
fn each_scene_is_right(rt: HostRuntime) -> Result<(), Fail> {
    for scene in [
        Scene::LastNumbers,
        Scene::Seals,
        Scene::AskedBefore,
        Scene::Lack,
        Scene::Inside,
        Scene::MostQuestions,
        Scene::Thousands,
    ] {
        let right = plays::<Brand>(rt.alloc(), Blank::new(1), scene)?;
        assert!(rt; right, "scene {scene:?}");
    }
    Ok(())
}
