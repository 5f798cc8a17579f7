//! Snapshots in a list, found by name.
ghost use Rattle.std.specs.Prelude.{◌≡◌, List, Some, true, map, IfOk};
ghost use Rattle.std.specs.List.{position, list_any};
ghost use Rattle.std.specs.Option.{option_copied};
ghost use Rattle.xdb_key.specs.Bounds.{meets};
ghost use Rattle.xdb_plain.specs.Snapshots.{are_rising, is_pinned};
ghost use Rattle.xdb_snap.specs.Listed.{AreListed, has_name, named, without, changed};
ghost use Rattle.xdb_snap.specs.Changes.{ticket_of, may_give, may_turn, without_ticket, turned, excised};
ghost use Rattle.xdb_snap.specs.Pinned.{pinned_marks};

use crate::Snap;
use std::alloc::{AllocError, Global};
use xdb_key::{KeyRange, Name, SnapState, compare, is_upto};

fn has_name<H, T>(snap: &Snap<H, T>, name: &Name) -> bool
    ensures { result ≡ has_name name.now snap.now }
{
    compare(snap.name.bytes(), name.bytes()).is_eq()
}

/// The place of the snapshot of the name.
pub fn place<H, T>(snaps: &[Snap<H, T>], name: &Name) -> Option<usize>
    ensures { result ≡ position (has_name name.now) snaps.now }
{
    snaps.iter().position(|snap| has_name(snap, name))
}

pub fn find<'a, H, T>(snaps: &'a [Snap<H, T>], name: &Name) -> Option<&'a Snap<H, T>>
    ensures { option_copied result ≡ named name.now snaps.now }
{
    snaps.iter().find(|snap| has_name(*snap, name))
}

/// Takes the snapshot of the name out.
pub fn take_out<H, T>(snaps: &mut Vec<Snap<H, T>>, name: &Name) -> Option<Snap<H, T>>
    requires { AreListed snaps.old.items }
    ensures removed { result ≡ named name.now snaps.old.items }
    ensures rest { snaps.new.items ≡ without name.now snaps.old.items }
{
    let at = place(snaps, name)?;
    Some(snaps.remove(at))
}

pub fn take_ticket<H: Drop, T: Drop>(snaps: &mut Vec<Snap<H, T>>, name: &Name) -> T
    requires listed { AreListed snaps.old.items }
    requires there { may_give (named name.now snaps.old.items) ≡ true }
    ensures ticket { Some result ≡ ticket_of (named name.now snaps.old.items) }
    ensures rest { snaps.new.items ≡ changed name.now without_ticket snaps.old.items }
{
    let Some(at) = place(snaps, name) else {
        unreachable!()
    };
    let snap = &mut snaps[at];
    let Some(ticket) = snap.ticket.take() else {
        unreachable!()
    };
    ticket
}

pub fn turn<H: Drop, T: Drop>(snaps: &mut Vec<Snap<H, T>>, name: &Name, hold: H)
    requires listed { AreListed snaps.old.items }
    requires there { may_turn (named name.now snaps.old.items) ≡ true }
    ensures { snaps.new.items ≡ changed name.now (turned hold) snaps.old.items }
{
    let Some(at) = place(snaps, name) else {
        unreachable!()
    };
    let snap = &mut snaps[at];
    snap.state = SnapState::FileOnly;
    snap.hold = Some(hold);
}

pub fn excise<H, T>(snaps: &mut Vec<Snap<H, T>>, span: &KeyRange, load: Name)
    ensures { snaps.new.items ≡ map (excised load span.now) snaps.old.items }
{
    for snap in snaps.iter_mut() {
        excise_one(snap, span, load);
    }
}

fn excise_one<H, T>(snap: &mut Snap<H, T>, span: &KeyRange, load: Name)
    ensures { snap.new ≡ excised load span.now snap.old }
{
    if is_pinned(&snap.state) && meets_any(span, snap.ranges.list()) {
        snap.state = SnapState::Excised { load };
    }
}

fn is_pinned(state: &SnapState) -> bool
    ensures { result ≡ is_pinned state.now }
{
    match state {
        SnapState::Pinned { .. } => true,
        SnapState::FileOnly | SnapState::Excised { .. } => false,
    }
}

fn meets_any(span: &KeyRange, ranges: &[KeyRange]) -> bool
    ensures { result ≡ list_any (meets span.now) ranges.now }
{
    ranges.iter().any(|range| span.meets(range))
}

/// Whether each range ends before the next begins, or where it begins.
pub fn are_rising(ranges: &[KeyRange]) -> bool
    ensures { result ≡ are_rising ranges.now }
{
    for at in 1..ranges.len() {
        if !is_upto(ranges[at - 1].hi().bytes(), ranges[at].lo().bytes()) {
            return false;
        }
    }
    true
}

/// The marks of the pinned snapshots, in the order of their making.
pub fn pinned_marks<H, T>(alloc: Global, snaps: &[Snap<H, T>]) -> Result<Vec<u64>, AllocError>
    ensures { IfOk result (λ marks. marks.items ≡ pinned_marks snaps.now) }
{
    let mut marks = Vec::new(alloc);
    for snap in snaps {
        if is_pinned(&snap.state) {
            marks.push(snap.mark)?;
        }
    }
    Ok(marks)
}
