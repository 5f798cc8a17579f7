ghost use Rattle.std.specs.Prelude.{◌≡◌, None, IsTrue};
ghost use Rattle.std.specs.List.{list_any};
ghost use Rattle.xdb_key.specs.Bounds.{meets};
ghost use Rattle.xdb_lists.specs.Keyed.{at_key};
ghost use Rattle.xdb_jobs.specs.Fencing.{found_fence};

use crate::{Fences, Job, Jobs};
use std::alloc::Global;
use std::test::Fail;
use xdb_key::{Bound, Key, KeyRange, Name, Op};
use xdb_plain::Items;

fn name(bytes: &[u8]) -> Result<Name, Fail> {
    match Name::new(bytes) {
        Some(name) => Ok(name),
        None => Err(Fail::from("no name")),
    }
}

fn range(alloc: Global, lo: &str, hi: &str) -> Result<KeyRange, Fail> {
    let lo = Bound::new(lo.as_bytes().to_vec(alloc)?)?;
    let hi = Bound::new(hi.as_bytes().to_vec(alloc)?)?;
    Ok(KeyRange::new(lo, hi)?)
}

fn is_new(jobs: &Jobs<u64>, num: u64) -> bool
    ensures { IsTrue result → at_key (λ j. j.num) num jobs.now ≡ None }
{
    jobs.get(num).is_none()
}

fn meets_any(hull: &KeyRange, others: &[KeyRange]) -> bool
    ensures { result ≡ list_any (meets hull.now) others.now }
{
    others.iter().any(|other| hull.meets(other))
}

/// Starts a job over these keys, where it may start.
fn start(alloc: Global, jobs: &mut Jobs<u64>, num: u64, lo: &str, hi: &str) -> Result<bool, Fail> {
    let hull = range(alloc, lo, hi)?;
    if !is_new(jobs, num) || meets_any(&hull, jobs.hulls()) {
        return Ok(false);
    }
    jobs.start(Job {
        num,
        hull,
        inputs: Items::new(Vec::new(alloc)),
        hold: num,
        cancelled: None,
    })?;
    Ok(true)
}

/// Starts three jobs, side by side.
fn start_three(alloc: Global, jobs: &mut Jobs<u64>) -> Result<bool, Fail> {
    Ok(
        start(alloc, jobs, 1, "a", "b")?
            && start(alloc, jobs, 2, "b", "d")?
            && start(alloc, jobs, 3, "d", "e")?,
    )
}

fn cancel(
    alloc: Global,
    jobs: &mut Jobs<u64>,
    lo: &str,
    hi: &str,
    load: &[u8],
) -> Result<(), Fail> {
    let load = name(load)?;
    let span = range(alloc, lo, hi)?;
    jobs.cancel(&span, load);
    Ok(())
}

fn is_cancelled_by(jobs: &Jobs<u64>, num: u64, load: &[u8]) -> bool {
    match jobs.get(num) {
        Some(job) => is_name(&job.cancelled, load),
        None => false,
    }
}

fn is_name(found: &Option<Name>, bytes: &[u8]) -> bool {
    match found {
        Some(name) => name.bytes() == bytes,
        None => false,
    }
}

fn goes_on(jobs: &Jobs<u64>, num: u64) -> bool {
    match jobs.get(num) {
        Some(job) => job.cancelled.is_none(),
        None => false,
    }
}

/// Ends the job, and says whether it was the one of this number.
fn ends(jobs: &mut Jobs<u64>, num: u64) -> bool {
    match jobs.finish(num) {
        Some(job) => job.num == num && job.hold == num,
        None => false,
    }
}

/// A span cancels the job that it meets and none that it only touches, and the first canceller stays.
fn cancels(alloc: Global, jobs: &mut Jobs<u64>) -> Result<bool, Fail> {
    let started = start_three(alloc, jobs)?;
    cancel(alloc, jobs, "b", "d", b"l1")?;
    let one = goes_on(jobs, 1) && is_cancelled_by(jobs, 2, b"l1") && goes_on(jobs, 3);
    cancel(alloc, jobs, "a", "e", b"l2")?;
    let all = is_cancelled_by(jobs, 1, b"l2") && is_cancelled_by(jobs, 2, b"l1");
    Ok(started && one && all && is_cancelled_by(jobs, 3, b"l2"))
}

/// A job that ends leaves the others, and one that doesn't run leaves all.
fn leaves(jobs: &mut Jobs<u64>) -> bool {
    let none = !ends(jobs, 7) && jobs.hulls().len() == 3;
    let middle = ends(jobs, 2) && !ends(jobs, 2) && jobs.get(2).is_none();
    none && middle && jobs.get(1).is_some() && jobs.get(3).is_some()
}

/// Starts and ends so many jobs beside the others, and tells the last that ended.
fn churn(alloc: Global, jobs: &mut Jobs<u64>, from: u64, last: u64) -> Result<u64, Fail> {
    let mut ended = 0;
    for num in from..=last {
        if start(alloc, jobs, num, "b", "d")? && ends(jobs, num) {
            ended = num;
        }
    }
    Ok(ended)
}

#[test]
fn jobs_are_cancelled_and_end(rt: HostRuntime) -> Result<(), Fail> {
    let mut jobs: Jobs<u64> = Jobs::new(rt.alloc());
    let right = cancels(rt.alloc(), &mut jobs)? && leaves(&mut jobs);
    let last = churn(rt.alloc(), &mut jobs, 4, 10_000)?;
    assert!(rt; right && last == 10_000 && jobs.hulls().len() == 2);
    Ok(())
}

fn is_free(fences: &Fences, load: Name) -> bool
    ensures { IsTrue result → found_fence load fences.now ≡ None }
{
    fences.get(load).is_none()
}

fn ranges(alloc: Global, bounds: &[(&str, &str)]) -> Result<Vec<KeyRange>, Fail> {
    let mut ranges = Vec::new(alloc);
    for (lo, hi) in bounds {
        ranges.push(range(alloc, lo, hi)?)?;
    }
    Ok(ranges)
}

/// Opens a fence, where the load has none.
fn open(
    alloc: Global,
    fences: &mut Fences,
    load: &[u8],
    bounds: &[(&str, &str)],
) -> Result<bool, Fail> {
    let load = name(load)?;
    if !is_free(fences, load) {
        return Ok(false);
    }
    fences.open(load, ranges(alloc, bounds)?)?;
    Ok(true)
}

fn close(fences: &mut Fences, load: &[u8]) -> Result<(), Fail> {
    fences.close(name(load)?);
    Ok(())
}

/// The first fence that meets the range.
fn met(alloc: Global, fences: &Fences, lo: &str, hi: &str) -> Result<Option<Name>, Fail> {
    let range = ranges(alloc, &[(lo, hi)])?;
    Ok(fences.first_meeting(&range))
}

/// Deletes of keys, and then of ranges.
fn deletes(alloc: Global, keys: &[&str], bounds: &[(&str, &str)]) -> Result<Vec<Op>, Fail> {
    let mut ops = Vec::new(alloc);
    for bytes in keys {
        let key = Key::new(bytes.as_bytes().to_vec(alloc)?)?;
        ops.push(Op::Del { key })?;
    }
    for (lo, hi) in bounds {
        let range = range(alloc, lo, hi)?;
        ops.push(Op::DelSpan { range })?;
    }
    Ok(ops)
}

/// The first fence that one of the deletes touches.
fn touched(
    alloc: Global,
    fences: &Fences,
    keys: &[&str],
    bounds: &[(&str, &str)],
) -> Result<Option<Name>, Fail> {
    let ops = deletes(alloc, keys, bounds)?;
    Ok(fences.first_touched(&ops))
}

fn open_three(alloc: Global, fences: &mut Fences) -> Result<bool, Fail> {
    Ok(
        open(alloc, fences, b"l1", &[("a", "c")])?
            && open(alloc, fences, b"l2", &[("b", "d"), ("x", "z")])?
            && open(alloc, fences, b"l3", &[("m", "n")])?,
    )
}

/// Of the fences that a range meets, or that operations touch, the first counts, in the order of opening.
fn first_counts(alloc: Global, fences: &Fences) -> Result<bool, Fail> {
    Ok(
        is_name(&met(alloc, fences, "b", "c")?, b"l1")
            && is_name(&met(alloc, fences, "c", "y")?, b"l2")
            && met(alloc, fences, "d", "m")?.is_none()
            && is_name(&touched(alloc, fences, &["m", "b"], &[])?, b"l1")
            && is_name(&touched(alloc, fences, &["e"], &[("k", "n")])?, b"l3")
            && touched(alloc, fences, &["z"], &[("d", "m")])?.is_none(),
    )
}

/// The fence in the middle is closed, and opened again behind the others.
fn goes_behind(alloc: Global, fences: &mut Fences) -> Result<bool, Fail> {
    close(fences, b"l2")?;
    close(fences, b"l9")?;
    let closed = met(alloc, fences, "c", "d")?.is_none() && fences.list().len() == 2;
    let others = is_name(&met(alloc, fences, "b", "n")?, b"l1");
    let again = open(alloc, fences, b"l2", &[("a", "z")])?;
    let front = is_name(&touched(alloc, fences, &["y", "m"], &[])?, b"l3");
    Ok(closed && others && again && front && is_name(&touched(alloc, fences, &["y"], &[])?, b"l2"))
}

/// Opens and closes a fence so many times beside the others, and counts the rounds that did.
fn turn(alloc: Global, fences: &mut Fences, rounds: u64) -> Result<u64, Fail> {
    let mut done = 0;
    for round in 1..=rounds {
        if open(alloc, fences, b"l4", &[("q", "r")])? {
            done = round;
        }
        close(fences, b"l4")?;
    }
    Ok(done)
}

#[test]
fn fences_are_met_and_touched(rt: HostRuntime) -> Result<(), Fail> {
    let mut fences = Fences::new(rt.alloc());
    let right = open_three(rt.alloc(), &mut fences)? && first_counts(rt.alloc(), &fences)?;
    let behind = goes_behind(rt.alloc(), &mut fences)?;
    let done = turn(rt.alloc(), &mut fences, 10_000)?;
    assert!(rt; right && behind && done == 10_000 && fences.list().len() == 3);
    Ok(())
}
