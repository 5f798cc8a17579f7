// What both ends share: the given, and a table whose one slot takes the result. All steps on the table stand here.
ghost use Rattle.std.specs.Prelude.{◌≡◌, IfOk, IfSome, is_some};
ghost use Rattle.xdb_order.specs.Desk.{Looks, fresh_story};
ghost use Rattle.xdb_order.specs.Seats.{seat_story, HasPut, SitsAtDesk, SitsInHand};

use crate::known::Known;
use crate::rule::{Look, Part, Put, Take, Tied};
use crate::work::Work;
use atomic_table::{Seat, Table};
use std::alloc::{AllocError, Global};

/// The word while nothing is at home in the slot.
const EMPTY: u64 = 0;

/// The word while the result is at home there.
const FULL: u64 = 1;

const WORD: usize = 0;

const SLOT: usize = 0;

/// A seat at a tray's table.
pub(crate) type Place<W> = Seat<Option<<W as Work>::Out>, Known<<W as Work>::In, <W as Work>::Out>>;

#[derive(Drop)]
pub(crate) struct Tray<W: Work> {
    pub(crate) given: W::In,
    table: Table<Option<W::Out>, Known<W::In, W::Out>, W::In, Tied<W>, Global>,
    ghost one_word: { table.shared.table_id.words ≡ 1 },
}

impl<W: Work> Tray<W> {
    /// A tray with its two seats: the desk's, and the hand's, which has the slot with nothing in it.
    pub(crate) fn lay(
        alloc: Global,
        given: W::In,
    ) -> Result<(Tray<W>, Place<W>, Place<W>), AllocError>
        ensures given { IfOk result (λ laid. laid.0.given ≡ given) }
        ensures desk { IfOk result (λ laid. SitsAtDesk laid.0.table.shared.table_id given laid.1) }
        ensures fresh { IfOk result (λ laid. seat_story laid.1 ≡ fresh_story) }
        ensures hand { IfOk result (λ laid. SitsInHand laid.0.table.shared.table_id given laid.2) }
    {
        let (table, mut seat) = Table::<_, _, _, Tied<W>, _>::vacant(alloc, &[EMPTY], 1, &given)?;
        table.shared.load::<Take>(&mut seat, WORD);
        let desk = table.shared.split_seat::<Part>(&mut seat);
        Ok((Tray { given, table }, desk, seat))
    }

    /// The hand's exchange: the result for nothing.
    pub(crate) fn put(&self, seat: &mut Place<W>, out: W::Out)
        requires hand { SitsInHand self.now.table.shared.table_id self.now.given seat.old }
        requires fits { W.fits self.now.given out }
        ensures { HasPut self.now.given out seat.new }
    {
        let shared = &self.table.shared;
        shared.exchange(seat, SLOT, Some(out));
        shared.store::<Put>(seat, WORD, FULL);
    }

    /// The desk's exchange: nothing for whatever is at home in the slot.
    pub(crate) fn look(&self, seat: &mut Place<W>) -> Option<W::Out>
        requires { SitsAtDesk self.now.table.shared.table_id self.now.given seat.old }
        ensures desk { SitsAtDesk self.now.table.shared.table_id self.now.given seat.new }
        ensures fits { IfSome result (W.fits self.now.given) }
        ensures look { Looks (seat_story seat.old) (is_some result) (seat_story seat.new) }
    {
        let shared = &self.table.shared;
        let found = shared.compare_exchange::<Look<W>>(seat, WORD, FULL, EMPTY);
        if found != FULL {
            return None;
        }
        shared.exchange(seat, SLOT, None)
    }
}
