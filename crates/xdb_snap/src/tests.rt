ghost use Rattle.std.specs.Prelude.{◌≡◌};
ghost use Rattle.xdb_snap.specs.Listed.{named};
ghost use Rattle.xdb_snap.specs.Changes.{is_excised, may_give, may_turn};

use crate::{SnapNo, Snaps};
use std::alloc::Global;
use std::test::Fail;
use xdb_key::{Bound, KeyRange, Name, SnapState};

/// Snapshots whose tickets and holds are numbers.
type Book = Snaps<u64, u64>;

/// A snapshot: its ranges, its mark, which is its ticket too, and its group, or 0 if it is file-only at once.
type Row<'a> = (&'a [(&'static str, &'static str)], u64, u64);

#[derive(Clone, Copy)]
enum Want {
    Pinned(u64),
    FileOnly,
    Excised(&'static str),
    Gone,
}

fn range(alloc: Global, lo: &str, hi: &str) -> Result<KeyRange, Fail> {
    let lo = Bound::new(lo.as_bytes().to_vec(alloc)?)?;
    let hi = Bound::new(hi.as_bytes().to_vec(alloc)?)?;
    Ok(KeyRange::new(lo, hi)?)
}

fn ranges(alloc: Global, rows: &[(&'static str, &'static str)]) -> Result<Vec<KeyRange>, Fail> {
    let mut ranges = Vec::new(alloc);
    for (lo, hi) in rows {
        ranges.push(range(alloc, lo, hi)?)?;
    }
    Ok(ranges)
}

/// Makes a snapshot, and answers why not.
fn make(
    alloc: Global,
    snaps: &mut Book,
    name: &[u8],
    row: Row<'_>,
) -> Result<Option<SnapNo>, Fail> {
    let Some(name) = Name::new(name) else {
        return Err(Fail::from("no name"));
    };
    let (rows, mark, group) = row;
    let state = if group == 0 {
        SnapState::FileOnly
    } else {
        SnapState::Pinned { group }
    };
    match snaps.make(name, ranges(alloc, rows)?, mark, state, mark) {
        Ok(()) => Ok(None),
        Err(SnapNo::Memory) => Err(Fail::from("out of memory")),
        Err(no) => Ok(Some(no)),
    }
}

fn is_excised(state: &SnapState) -> bool
    ensures { result ≡ is_excised state.now }
{
    match state {
        SnapState::Excised { .. } => true,
        SnapState::Pinned { .. } | SnapState::FileOnly => false,
    }
}

fn may_give(snaps: &Book, name: &Name) -> bool
    ensures { result ≡ may_give (named name.now snaps.now) }
{
    match snaps.get(name) {
        Some(snap) => !is_excised(&snap.state) && snap.ticket.is_some(),
        None => false,
    }
}

fn may_turn(snaps: &Book, name: &Name) -> bool
    ensures { result ≡ may_turn (named name.now snaps.now) }
{
    match snaps.get(name) {
        Some(snap) => !is_excised(&snap.state) && snap.ticket.is_none() && snap.hold.is_none(),
        None => false,
    }
}

/// Turns the snapshot, with its ticket as its hold.
fn turn(snaps: &mut Book, name: &[u8]) -> bool {
    let Some(name) = Name::new(name) else {
        return false;
    };
    if !may_give(snaps, &name) {
        return false;
    }
    let ticket = snaps.take_ticket(&name);
    if !may_turn(snaps, &name) {
        return false;
    }
    snaps.turn(&name, ticket);
    true
}

/// Cuts the range out for a load.
fn excise(alloc: Global, snaps: &mut Book, lo: &str, hi: &str, load: &[u8]) -> Result<(), Fail> {
    let Some(load) = Name::new(load) else {
        return Err(Fail::from("no name"));
    };
    let span = range(alloc, lo, hi)?;
    snaps.excised(&span, load);
    Ok(())
}

/// Lets the snapshot go, and answers its hold.
fn drop_one(snaps: &mut Book, name: &[u8]) -> Option<u64> {
    let name = Name::new(name)?;
    let snap = snaps.remove(&name)?;
    snap.hold
}

fn is_state(state: &SnapState, want: Want) -> bool {
    match state {
        SnapState::Pinned { group } => is_pinned_by(*group, want),
        SnapState::FileOnly => matches!(want, Want::FileOnly),
        SnapState::Excised { load } => is_excised_by(load, want),
    }
}

fn is_pinned_by(group: u64, want: Want) -> bool {
    match want {
        Want::Pinned(wanted) => group == wanted,
        _ => false,
    }
}

fn is_excised_by(load: &Name, want: Want) -> bool {
    match want {
        Want::Excised(by) => load.bytes() == by.as_bytes(),
        _ => false,
    }
}

fn is_found(state: Option<&SnapState>, want: Want) -> bool {
    match state {
        Some(state) => is_state(state, want),
        None => matches!(want, Want::Gone),
    }
}

fn is(snaps: &Book, name: &[u8], want: Want) -> bool {
    let Some(name) = Name::new(name) else {
        return false;
    };
    let state = snaps.state(&name);
    is_found(state.as_ref(), want)
}

fn are(snaps: &Book, wants: &[(&'static str, Want)]) -> bool {
    for (name, want) in wants {
        if !is(snaps, name.as_bytes(), *want) {
            return false;
        }
    }
    true
}

fn marks_are(snaps: &Book, wanted: &[u64]) -> Result<bool, Fail> {
    let marks = snaps.pinned_seqs()?;
    Ok(marks.as_slice() == wanted)
}

/// Four snapshots: three are pinned, two of them by one mark, and one is file-only at once.
fn make_four(alloc: Global, snaps: &mut Book) -> Result<bool, Fail> {
    let rows: [(&[u8], Row<'_>); 4] = [
        (b"s4", (&[("b", "d")], 9, 3)),
        (b"s1", (&[("a", "c"), ("p", "t")], 5, 1)),
        (b"s2", (&[("a", "m")], 7, 0)),
        (b"s3", (&[("m", "n"), ("n", "p")], 5, 2)),
    ];
    let mut made = true;
    for (name, row) in rows {
        made = made && make(alloc, snaps, name, row)?.is_none();
    }
    Ok(made)
}

/// The states before and after two loads cut out ranges; the second meets all.
fn goes_through_states(alloc: Global, snaps: &mut Book) -> Result<bool, Fail> {
    let made = make_four(alloc, snaps)? && marks_are(snaps, &[5, 9])?;
    let turned = turn(snaps, b"s2") && turn(snaps, b"s4") && marks_are(snaps, &[5])?;
    excise(alloc, snaps, "a", "m", b"l1")?;
    let first = are(
        snaps,
        &[
            ("s1", Want::Excised("l1")),
            ("s2", Want::FileOnly),
            ("s3", Want::Pinned(2)),
            ("s4", Want::FileOnly),
        ],
    );
    excise(alloc, snaps, "a", "z", b"l2")?;
    let second = are(
        snaps,
        &[
            ("s1", Want::Excised("l1")),
            ("s2", Want::FileOnly),
            ("s3", Want::Excised("l2")),
            ("s4", Want::FileOnly),
        ],
    );
    Ok(made && turned && first && second && marks_are(snaps, &[])?)
}

/// Snapshots are let go, and a name is used again.
fn goes_and_comes(alloc: Global, snaps: &mut Book) -> Result<bool, Fail> {
    let held = drop_one(snaps, b"s2") == Some(7) && drop_one(snaps, b"s1").is_none();
    let gone = are(
        snaps,
        &[
            ("s1", Want::Gone),
            ("s2", Want::Gone),
            ("s3", Want::Excised("l2")),
        ],
    );
    let again = make(alloc, snaps, b"s1", (&[("a", "c")], 12, 4))?.is_none();
    Ok(held && gone && again && are(snaps, &[("s1", Want::Pinned(4))]) && snaps.list().len() == 3)
}

#[test]
fn a_snapshot_is_pinned_turns_or_is_excised_and_goes(rt: HostRuntime) -> Result<(), Fail> {
    let mut snaps: Book = Snaps::new(rt.alloc());
    let right = goes_through_states(rt.alloc(), &mut snaps)?
        && goes_and_comes(rt.alloc(), &mut snaps)?;
    assert!(rt; right);
    Ok(())
}

/// Ranges that touch make a snapshot, and ranges that overlap or fall don't. A name in use comes first.
fn tells_bad_ranges(alloc: Global, snaps: &mut Book) -> Result<bool, Fail> {
    let touching = make(alloc, snaps, b"s1", (&[("a", "c"), ("c", "e")], 5, 1))?;
    let overlapping = make(alloc, snaps, b"s2", (&[("a", "d"), ("c", "e")], 5, 1))?;
    let falling = make(alloc, snaps, b"s2", (&[("c", "e"), ("a", "b")], 5, 1))?;
    let used = make(alloc, snaps, b"s1", (&[("c", "e"), ("a", "b")], 5, 1))?;
    let bad = Some(SnapNo::BadRanges);
    Ok(
        touching.is_none()
            && overlapping == bad
            && falling == bad
            && used == Some(SnapNo::NameInUse),
    )
}

/// Makes as many as there may be, and looks at what comes beyond them.
fn fills(alloc: Global, snaps: &mut Book) -> Result<bool, Fail> {
    let mut made = true;
    for first in b'a'..b'i' {
        for second in b'a'..b'i' {
            made = made && make(alloc, snaps, &[first, second], (&[("a", "b")], 5, 1))?.is_none();
        }
    }
    let beyond = make(alloc, snaps, b"s", (&[("a", "b")], 5, 1))?;
    let bad = make(alloc, snaps, b"s", (&[("b", "c"), ("a", "b")], 5, 1))?;
    let used = make(alloc, snaps, b"hh", (&[("a", "b")], 5, 1))?;
    Ok(
        made && beyond == Some(SnapNo::TooMany)
            && bad == Some(SnapNo::BadRanges)
            && used == Some(SnapNo::NameInUse),
    )
}

#[test]
fn the_first_refusal_is_told(rt: HostRuntime) -> Result<(), Fail> {
    let mut snaps: Book = Snaps::new(rt.alloc());
    let ranges = tells_bad_ranges(rt.alloc(), &mut snaps)?;
    let gone = drop_one(&mut snaps, b"s1").is_none();
    let full = fills(rt.alloc(), &mut snaps)?;
    assert!(rt; ranges && gone && full && snaps.list().len() == 64);
    Ok(())
}

/// Makes, turns and lets go a snapshot so many times.
fn churn(alloc: Global, snaps: &mut Book, times: u64) -> Result<bool, Fail> {
    let mut right = true;
    for mark in 0..times {
        let made = make(alloc, snaps, b"s", (&[("a", "c"), ("e", "g")], mark, 1))?;
        right = right && made.is_none() && turn(snaps, b"s") && drop_one(snaps, b"s") == Some(mark);
    }
    Ok(right)
}

#[test]
fn ten_thousand_snapshots_come_and_go(rt: HostRuntime) -> Result<(), Fail> {
    let mut snaps: Book = Snaps::new(rt.alloc());
    let right = churn(rt.alloc(), &mut snaps, 10_000)?;
    assert!(rt; right && snaps.list().len() == 0 && snaps.capacity() <= 4);
    Ok(())
}
