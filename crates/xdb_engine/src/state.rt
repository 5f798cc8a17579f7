//! The parts of an engine beside its history, by topic.
ghost use Rattle.std.specs.Prelude.{◌≡◌, []};
ghost use Rattle.xdb_mem.specs.Queue.{opening};
ghost use Rattle.xdb_engine.specs.Files.{first_set};

use crate::asks::Asks;
use std::alloc::Global;
use xdb_device::FileRef;
use xdb_mem::MemQueue;
use xdb_vset::VersionSet;

/// Numbers that are given in order.
#[derive(Debug, Drop)]
pub struct Numbers {
    /// The next sequence number.
    pub next: u64,
    /// The next file number.
    pub file: u64,
    /// How many questions were asked.
    pub asked: u64,
}

/// Each topic is a field.
#[derive(Drop)]
pub struct State<F: FileRef> {
    /// The groups of operations that aren't in a table yet.
    pub mem: MemQueue,
    pub numbers: Numbers,
    /// The open questions.
    pub asks: Asks<F>,
    /// The versions that are in use, and the files of their tables.
    pub files: VersionSet<F>,
}

impl<F: FileRef> State<F> {
    /// Nothing has happened yet.
    pub fn new(alloc: Global, next: u64, file: u64) -> Self
        ensures mem { result.mem ≡ opening }
        ensures next { result.numbers.next ≡ next }
        ensures file { result.numbers.file ≡ file }
        ensures asked { result.numbers.asked ≡ 0 }
        ensures asks { result.asks ≡ [] }
        ensures files { result.files ≡ first_set }
    {
        State {
            mem: MemQueue::new(alloc),
            numbers: Numbers {
                next,
                file,
                asked: 0,
            },
            asks: Asks::new(alloc),
            files: VersionSet::new(alloc),
        }
    }
}
