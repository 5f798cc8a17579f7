//! The outside, as the engine knows it: sources and sinks of bytes, files on devices, and a ledger of failures.
#![tactic(auto)]

mod device;
mod dir_device;
mod fault;
mod ledger;
mod mem_device;
mod mem_streams;
mod rig;
mod schedule;
mod std_streams;
mod store;
mod streams;
mod whole;

pub use device::{Device, FileRef, Reader};
pub use dir_device::{DirDevice, DirFile};
pub use fault::{DevNo, WorkCause, WorkFault};
pub use ledger::{FaultBook, FaultShare};
pub use mem_device::{MemDevice, SureDevice};
pub use mem_streams::{MemSink, MemSource};
pub use rig::Rig;
pub use std_streams::{StdSink, StdSource};
pub use store::MemFile;
pub use streams::{ShortWrite, Sink, Source, read_up_to, write_all};
pub use whole::read_whole;

#[cfg(test)]
mod tests;
