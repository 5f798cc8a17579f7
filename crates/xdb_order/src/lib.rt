//! A work order: a result that another thread delivers, tied to what was given for it.
//!
//! `order` makes two ends of one slot. The desk stays with whoever ordered, and the hand goes to whoever does the work.
//! Both know the same given. The hand delivers one result, which fits the given; the desk looks for it, as often as it likes.
#![tactic(auto)]

ghost use Rattle.std.specs.Prelude.{◌≡◌, IfOk};
ghost use Rattle.xdb_order.specs.Desk.{fresh_desk};

use crate::tray::Tray;
use std::alloc::{AllocError, Global};
use std::sync::Arc;

mod desk;
mod hand;
mod known;
pub mod laws;
mod pending;
mod rule;
mod story;
#[cfg(test)]
mod tests;
mod tray;
mod work;

pub use desk::Desk;
pub use hand::Hand;
pub use pending::Pending;
pub use story::Story;
pub use work::Work;

/// There was no memory.
pub type Memory = AllocError;

/// At `Err` the given is dropped.
pub fn order<W: Work>(alloc: Global, given: W::In) -> Result<(Desk<W>, Hand<W>), Memory>
    ensures { IfOk result (λ ends. (ends.0 ≡ fresh_desk given) × (ends.1 ≡ given)) }
{
    let (tray, desk, hand) = Tray::lay(alloc, given)?;
    let theirs = Arc::new(alloc, tray)?;
    let ours = Arc::try_clone(&theirs)?;
    let desk = Desk {
        tray: ours,
        seat: desk,
    };
    let hand = Hand {
        tray: theirs,
        seat: hand,
    };
    Ok((desk, hand))
}
