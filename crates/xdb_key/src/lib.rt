//! Keys, bounds, ranges, values, operations and names, and their order.
#![tactic(auto)]

mod entry;
mod error;
mod key;
pub mod laws;
mod name;
mod op;
mod ops;
mod ordering;
mod range;
mod state;
mod value;
mod varint;

pub use entry::{Entry, Extent, Span};
pub use error::{Inverted, KeyNo, VarintNo};
pub use key::{Bound, Key};
pub use name::Name;
pub use op::{Kind, Op, disorder, string_len};
pub use ops::Ops;
pub use ordering::{compare, is_below, is_upto};
pub use range::{KeyRange, greater, lesser};
pub use state::SnapState;
pub use std::alloc::AllocError as Memory;
pub use value::Val;
pub use varint::{get_varint, put_varint, read_varint, varint_len};

/// The most bytes that a key has.
pub const MAX_KEY: usize = 1024;

/// The most bytes that a bound has: one more than a key.
pub const MAX_BOUND: usize = 1025;

/// The most bytes that a value has.
pub const MAX_VALUE: usize = 65_536;

#[cfg(test)]
mod tests;
