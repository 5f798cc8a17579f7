// The end that delivers.
use crate::tray::{Place, Tray};
use crate::work::Work;
use std::alloc::Global;
use std::marker::Model;
use std::sync::Arc;

/// The end of an order that goes to whoever does the work. Clauses see its given.
///
/// A hand that is dropped delivers nothing, and its desk looks in vain.
#[derive(Drop)]
pub struct Hand<W: Work> {
    pub(crate) tray: Arc<Tray<W>, Global>,
    pub(crate) seat: Place<W>,
}

impl<W: Work> Model for Hand<W> {
    ghost use Rattle.std.specs.Arc.{arc_value};
    ghost use Rattle.xdb_order.specs.Seats.{SitsInHand};

    ghost Value = { W.In };

    ghost view = { λ a. (arc_value a.tray).given };

    ghost invariant = { λ a.
        let tray = arc_value a.tray in SitsInHand tray.table.shared.table_id tray.given a.seat };
}

impl<W: Work> Hand<W> {
    ghost use Rattle.std.specs.Prelude.{◌≡◌};

    pub fn given(&self) -> &W::In
        ensures { result.now ≡ self.now }
    {
        &self.tray.given
    }

    /// Puts the result into the slot, where the desk's next look finds it. It takes no memory and never waits.
    pub fn deliver(self, out: W::Out)
        requires { W.fits self out }
    {
        let Hand { tray, mut seat } = self;
        tray.put(&mut seat, out);
    }
}
