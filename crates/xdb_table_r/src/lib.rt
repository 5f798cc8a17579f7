//! Tables read from files: what a file holds, and views of it.
#![tactic(auto)]

mod cursor;
mod error;
mod footer;
mod handle;
pub mod laws;
mod part;
mod points;
mod reach;
mod read;
mod spans;
mod table;
mod view;
mod window;

pub use cursor::ViewCursor;
pub use error::TableNo;
pub use std::alloc::AllocError as Memory;
pub use table::TableFile;
pub use view::View;

#[cfg(test)]
mod tests;
