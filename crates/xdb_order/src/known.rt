// What the seats at a tray's table know. No value of it is made.
use crate::story::Story;

/// What a seat is for. The first one is the maker's, and later the hand's; the second is the desk's.
pub(crate) enum Role<O> {
    Maker,
    /// The maker, once the slot is out with it.
    Holder,
    Hand,
    /// The hand, once it has put this result into the slot, when the desk had looked so often.
    Done(O, u64),
    Desk(Story),
}

pub(crate) struct Known<I, O> {
    pub(crate) given: I,
    pub(crate) role: Role<O>,
}
