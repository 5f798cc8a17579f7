// The end that collects.
use crate::tray::{Place, Tray};
use crate::work::Work;
use std::alloc::Global;
use std::marker::Model;
use std::sync::Arc;

/// The end of an order that stays with whoever ordered. Clauses see its given, and the story of its looks.
#[derive(Drop)]
pub struct Desk<W: Work> {
    pub(crate) tray: Arc<Tray<W>, Global>,
    pub(crate) seat: Place<W>,
}

impl<W: Work> Model for Desk<W> {
    ghost use Rattle.std.specs.Arc.{arc_value};
    ghost use Rattle.xdb_order.specs.Desk.{DeskView};
    ghost use Rattle.xdb_order.specs.Seats.{SitsAtDesk, seat_story};

    ghost Value = { DeskView W.In };

    ghost view = { λ a. record { given = (arc_value a.tray).given; story = seat_story a.seat } };

    ghost invariant = { λ a.
        let tray = arc_value a.tray in SitsAtDesk tray.table.shared.table_id tray.given a.seat };
}

impl<W: Work> Desk<W> {
    ghost use Rattle.std.specs.Prelude.{◌≡◌, IfSome, is_some};
    ghost use Rattle.xdb_order.specs.Desk.{Looks};

    pub fn given(&self) -> &W::In
        ensures { result.now ≡ self.now.given }
    {
        &self.tray.given
    }

    /// Takes the result out of the slot, if it is at home there. It takes no memory and never waits.
    pub fn collect(&mut self) -> Option<W::Out>
        ensures given { self.new.given ≡ self.old.given }
        ensures fits { IfSome result (W.fits self.old.given) }
        ensures look { Looks self.old.story (is_some result) self.new.story }
    {
        self.tray.look(&mut self.seat)
    }
}
