use thiserror::Error;

/// Why bytes are no key or bound.
#[derive(Clone, Copy, Debug, PartialEq, Eq, Error)]
pub enum KeyNo {
    #[error("no bytes")]
    Empty,
    #[error("{len} bytes are too many")]
    TooLong { len: usize },
}

/// The start of a range isn't below its end.
#[derive(Clone, Copy, Debug, PartialEq, Eq, Error)]
#[error("the start isn't below the end")]
pub struct Inverted;

/// Why bytes are no number.
#[derive(Clone, Copy, Debug, PartialEq, Eq, Error)]
pub enum VarintNo {
    /// Nine bytes are there, and all of them have the high bit.
    #[error("the number is 2^63 or more")]
    TooLarge,
    /// The input ends before a byte without the high bit.
    #[error("the number is cut short")]
    Short,
    /// The last byte is 0 and isn't the only one.
    #[error("the number has a shorter spelling")]
    Overlong,
}
