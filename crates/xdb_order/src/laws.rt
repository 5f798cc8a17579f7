//! What the exchanges of both ends mean: laws of the rule that every step keeps.
ghost use Rattle.std.specs.Prelude.{◌≡◌, true, false, Some};
ghost use mathlib.Core.Option.{some, none};
ghost use Rattle.xdb_order.specs.Desk.{Looks};
ghost use Rattle.xdb_order.specs.Slot.{DeskStep, HandStep};

use crate::work::Work;

/// A look that finds nothing is made while nothing is at home in the slot, and one that finds the result while it is.
pub fn what_was_home<W: Work>()
    ensures nothing { (step : DeskStep W.fits)
        → Looks step.before false step.after → step.home ≡ none }
    ensures result { (step : DeskStep W.fits)
        → Looks step.before true step.after → (out : W.Out) × (step.home ≡ some (Some out)) }
{}

/// What the hand has put into the slot is at home there after its exchange, and fits the given.
pub fn what_was_put<W: Work>()
    ensures result { (step : HandStep W.fits) → step.home ≡ some (Some step.out) }
    ensures fits { (step : HandStep W.fits) → W.fits step.given step.out }
{}
