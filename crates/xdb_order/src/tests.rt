// What no clause says: that a result which the hand delivered is found by its desk. And that both ends cross threads.
ghost use Rattle.std.specs.Prelude.{◌≡◌, ◌+◌, ◌*◌};

use crate::laws::{what_was_home, what_was_put};
use crate::{Desk, Hand, Pending, Work, order};
use std::alloc::{AllocError, Global};
use std::marker::PhantomData;
use std::test::Fail;
use std::thread;
use std::thread::Threads;

struct Doubling;

impl Work for Doubling {
    type In = u32;

    type Out = u64;

    ghost fits = { λ given out. out ≡ 2 * given };
}

fn double(hand: Hand<Doubling>) {
    let out = 2 * u64::from(*hand.given());
    hand.deliver(out);
}

fn double_elsewhere(rt: &impl Threads, hand: Hand<Doubling>) -> Result<(), AllocError> {
    let worker = thread::spawn(rt, move || double(hand))?;
    worker.join(rt);
    Ok(())
}

// Whether the desk finds what was delivered in another thread, once.
fn crosses(
    rt: &impl Threads,
    (mut desk, hand): (Desk<Doubling>, Hand<Doubling>),
) -> Result<bool, AllocError> {
    let early = desk.collect().is_some();
    double_elsewhere(rt, hand)?;
    let given = *desk.given() == 21;
    Ok(!early && given && desk.collect() == Some(42) && desk.collect().is_none())
}

#[test]
fn result_crosses_threads(rt: HostRuntime) -> Result<(), Fail> {
    let right = crosses(&rt, order::<Doubling>(rt.alloc(), 21)?)?;
    assert!(rt; right);
    Ok(())
}

// Any order's ends may go to another thread, whatever the work.
fn both_cross<R: Threads + Sync, W: Work>(
    rt: &R,
    desk: Desk<W>,
    hand: Hand<W>,
) -> (Desk<W>, Hand<W>) {
    thread::join(rt, move || desk, move || hand)
}

// Looks while the hand delivers, and once more.
fn looks<R: Threads + Sync>(
    rt: &R,
    (mut desk, hand): (Desk<Doubling>, Hand<Doubling>),
) -> (Option<u64>, Option<u64>) {
    let (early, ()) = thread::join(rt, || desk.collect(), move || double(hand));
    (early, desk.collect())
}

#[test]
fn one_look_finds_it_in_any_schedule(rt: HostRuntime) -> Result<(), Fail> {
    let (desk, hand) = order::<Doubling>(rt.alloc(), 5)?;
    let (early, late) = looks(&rt, both_cross(&rt, desk, hand));
    assert!(rt; early.is_none() != late.is_none() && early.or(late) == Some(10));
    Ok(())
}

#[test]
fn an_unused_hand_delivers_nothing(rt: HostRuntime) -> Result<(), Fail> {
    let (mut desk, hand) = order::<Doubling>(rt.alloc(), 1)?;
    drop(hand);
    let nothing = desk.collect().is_none();
    assert!(rt; nothing);
    Ok(())
}

// Desks whose orders were all delivered: the numbers from 0 on, doubled.
fn delivered(alloc: Global, orders: u32) -> Result<Vec<Desk<Doubling>>, AllocError> {
    let mut desks = Vec::new(alloc);
    for given in 0..orders {
        let (desk, hand) = order::<Doubling>(alloc, given)?;
        double(hand);
        desks.push(desk)?;
    }
    Ok(desks)
}

// Whether each desk finds its own result, and no second one.
fn all_found(desks: &mut Vec<Desk<Doubling>>) -> bool {
    for desk in desks.iter_mut() {
        let want = 2 * u64::from(*desk.given());
        if desk.collect() != Some(want) || desk.collect().is_some() {
            return false;
        }
    }
    true
}

#[test]
fn four_thousand_orders_at_once(rt: HostRuntime) -> Result<(), Fail> {
    let mut desks = delivered(rt.alloc(), 4_000)?;
    let right = all_found(&mut desks) && desks.len() == 4_000;
    assert!(rt; right);
    Ok(())
}

#[test]
fn the_laws_hold_of_a_kind_of_work() {
    what_was_home::<Doubling>();
    what_was_put::<Doubling>();
}

// What is asked of a value of any type: its number, one higher.
#[derive(Drop)]
struct Parts<F> {
    number: u32,
    file: F,
}

#[derive(Drop)]
struct Answer<F> {
    number: u64,
    file: Option<F>,
}

struct Raising<F> {
    file: PhantomData<F>,
}

impl<F: Drop + Send + Sync> Work for Raising<F> {
    type In = Parts<F>;

    type Out = Answer<F>;

    ghost fits = { λ given out. out.number ≡ given.number + 1 };
}

fn raise<F: Drop + Send + Sync>(hand: Hand<Raising<F>>) {
    let number = u64::from(hand.given().number) + 1;
    hand.deliver(Answer { number, file: None });
}

// Finds what another thread delivered, by one look, and has it kept.
fn is_found<F: Drop + Send + Sync>(
    rt: &impl Threads,
    (desk, hand): (Desk<Raising<F>>, Hand<Raising<F>>),
) -> bool {
    let mut pending = Pending::new(desk);
    let early = pending.arrived() || pending.is_kept();
    thread::join(rt, move || raise(hand), || ());
    let given = pending.given().number == 6;
    let late = pending.arrived() && pending.arrived() && pending.is_kept();
    let number = pending.into_kept().map(|answer| answer.number);
    !early && given && late && number == Some(7)
}

#[test]
fn what_a_look_finds_is_kept_over_any_file(rt: HostRuntime) -> Result<(), Fail> {
    let right = is_found(&rt, order::<Raising<String>>(rt.alloc(), six(rt.alloc()))?);
    assert!(rt; right);
    Ok(())
}

fn six(alloc: Global) -> Parts<String> {
    Parts {
        number: 6,
        file: String::new(alloc),
    }
}

fn bring_raised<F: Drop + Send + Sync>(pending: &mut Pending<Raising<F>>, file: F) {
    let number = u64::from(pending.given().number) + 1;
    pending.bring(Answer {
        number,
        file: Some(file),
    });
}

fn has_file<F: Drop>(answer: Option<&Answer<F>>) -> bool {
    answer.is_some_and(|answer| answer.file.is_some())
}

// What is brought has a file, and what the hand delivers has none: the look for it leaves what is kept.
fn is_brought<F: Drop + Send + Sync>(
    (desk, hand): (Desk<Raising<F>>, Hand<Raising<F>>),
    file: F,
) -> bool {
    let mut pending = Pending::new(desk);
    bring_raised(&mut pending, file);
    raise(hand);
    let there = pending.is_kept() && pending.arrived();
    there && has_file(pending.kept()) && has_file(pending.into_kept().as_ref())
}

#[test]
fn what_is_brought_stays(rt: HostRuntime) -> Result<(), Fail> {
    let ends = order::<Raising<String>>(rt.alloc(), six(rt.alloc()))?;
    let right = is_brought(ends, String::new(rt.alloc()));
    assert!(rt; right);
    Ok(())
}
