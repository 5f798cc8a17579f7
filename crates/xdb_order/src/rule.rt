// The rule of a tray's table, and what its steps tell.
ghost use Rattle.xdb_order.specs.Desk.{fresh_story};
ghost use Rattle.xdb_order.specs.Slot.{known, desk_knows, Keeps};
ghost use Rattle.xdb_order.specs.Steps.{took, put, looked};
ghost use Rattle.xdb_order.specs.declared.known.Role.TheVariants.{Maker, Hand};

use crate::known::Known;
use crate::work::Work;
use atomic_table::{Play, Split, TableRule};
use std::marker::PhantomData;

/// What is at home in the slot fits the given, which is the table's key.
pub(crate) struct Tied<W> {
    work: PhantomData<W>,
}

impl<W: Work> TableRule<Option<W::Out>, Known<W::In, W::Out>, W::In> for Tied<W> {
    ghost holds = { Keeps W.fits };

    ghost first = { λ given. known given Maker };
}

/// The maker takes the slot.
pub(crate) struct Take;

impl<I, O> Play<Option<O>, Known<I, O>> for Take {
    ghost then = { λ _. took };
}

/// The maker's seat becomes the hand's, and the new one the desk's.
pub(crate) struct Part;

impl<I, O> Split<Known<I, O>> for Part {
    ghost left = { λ v. known v.given Hand };

    ghost right = { λ v. desk_knows v.given fresh_story };
}

/// The hand's exchange.
pub(crate) struct Put;

impl<I, O> Play<Option<O>, Known<I, O>> for Put {
    ghost then = { λ _. put };
}

/// The desk's exchange.
pub(crate) struct Look<W> {
    work: PhantomData<W>,
}

impl<W: Work> Play<Option<W::Out>, Known<W::In, W::Out>> for Look<W> {
    ghost then = { λ _. looked W.fits };
}
