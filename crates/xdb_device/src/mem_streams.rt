// A source and a sink in memory, whose calls fail as they are told.
ghost use Rattle.std.specs.Prelude.{◌≡◌, ◌++◌, ◌≤◌, ◌↔◌, [], Some, length, min, take, drop, IfOk, OnErr, IsTrue, IsErrOf};
ghost use Rattle.xdb_device.specs.Schedule.{fails_next, after_call};

use crate::schedule::Schedule;
use crate::{DevNo, Sink, Source};
use std::alloc::Global;
use std::marker::Model;

/// A source of bytes in memory. A pull hands out as many bytes as it may.
#[derive(Debug, Drop)]
pub struct MemSource {
    bytes: Vec<u8>,
    at: usize,
    schedule: Schedule,
}

impl Model for MemSource {
    ghost use Rattle.std.specs.Prelude.{◌≤◌, drop, vec_len};
    ghost use Rattle.xdb_device.specs.MemStreams.{Feed};

    ghost Value = { Feed };

    ghost view = { λ s. record { left = drop s.at s.bytes.items; calls = s.schedule } };

    ghost invariant = { λ s. s.at ≤ vec_len s.bytes };
}

impl MemSource {
    ghost use Rattle.std.specs.Prelude.{◌≡◌};

    /// Its calls are numbered from 1; those that `fails` names fail, and no others.
    pub fn new(bytes: Vec<u8>, fails: Vec<u64>) -> Self
        ensures left { result.left ≡ bytes.items }
        ensures calls { result.calls ≡ record { fails = fails.items; count = 0; faults = 0 } }
    {
        MemSource {
            bytes,
            at: 0,
            schedule: Schedule::new(fails),
        }
    }
}

impl Source for MemSource {
    ghost use Rattle.std.specs.Prelude.{Some};

    ghost faults = { λ s. s.calls.faults };

    ghost left = { λ s. Some s.left };

    fn pull(&mut self, out: &mut Vec<u8>, most: usize) -> Result<usize, DevNo>
        requires { 1 ≤ most }
        ensures exact { IsErrOf result DevNo.Failed ↔ IsTrue (fails_next self.old.calls) }
        ensures counted { self.new.calls ≡ after_call self.old.calls }

        ensures count { IfOk result (λ n. n ≡ min most (length self.old.left)) }
        ensures added { IfOk result (λ n. out.new.items ≡ out.old.items ++ take n self.old.left) }
        ensures taken { IfOk result (λ n. self.new.left ≡ drop n self.old.left) }

        ensures err { OnErr result ((out.new.items ≡ out.old.items) × (self.new.left ≡ self.old.left)) }
    {
        if self.schedule.fails() {
            return Err(DevNo::Failed);
        }
        let rest = &self.bytes[self.at..];
        let count = most.min(rest.len());
        out.extend_from_slice(&rest[..count])?;
        self.at += count;
        Ok(count)
    }
}

/// A sink of bytes in memory. A push takes as many bytes as it may, up to a number that is fixed.
#[derive(Debug, Drop)]
pub struct MemSink {
    bytes: Vec<u8>,
    most: usize,
    schedule: Schedule,
}

impl Model for MemSink {
    ghost use Rattle.std.specs.Prelude.{◌≤◌};
    ghost use Rattle.xdb_device.specs.MemStreams.{Intake};

    ghost Value = { Intake };

    ghost view = { λ s. record { written = s.bytes.items; most = s.most; calls = s.schedule } };

    ghost invariant = { λ s. 1 ≤ s.most };
}

impl MemSink {
    ghost use Rattle.std.specs.Prelude.{◌≡◌, ◌≤◌, []};

    /// A push takes at most `most` bytes. Its calls are numbered from 1; those that `fails` names
    /// fail, and no others.
    pub fn new(alloc: Global, most: usize, fails: Vec<u64>) -> Self
        requires { 1 ≤ most }
        ensures written { result.written ≡ [] }
        ensures most { result.most ≡ most }
        ensures calls { result.calls ≡ record { fails = fails.items; count = 0; faults = 0 } }
    {
        MemSink {
            bytes: Vec::new(alloc),
            most,
            schedule: Schedule::new(fails),
        }
    }

    /// The bytes that were written.
    pub fn bytes(&self) -> &[u8]
        ensures { result.now ≡ self.now.written }
    {
        &self.bytes
    }
}

impl Sink for MemSink {
    ghost use Rattle.std.specs.Prelude.{Some};

    ghost faults = { λ s. s.calls.faults };

    ghost written = { λ s. Some s.written };

    fn push(&mut self, bytes: &[u8]) -> Result<usize, DevNo>
        requires { 1 ≤ length bytes.now }
        ensures exact { IsErrOf result DevNo.Failed ↔ IsTrue (fails_next self.old.calls) }
        ensures counted { self.new.calls ≡ after_call self.old.calls }
        ensures most { self.new.most ≡ self.old.most }

        ensures count { IfOk result (λ n. (1 ≤ n) × (n ≡ min self.old.most (length bytes.now))) }
        ensures appended { IfOk result (λ n. self.new.written ≡ self.old.written ++ take n bytes.now) }

        ensures err { OnErr result (self.new.written ≡ self.old.written) }
    {
        if self.schedule.fails() {
            return Err(DevNo::Failed);
        }
        let count = self.most.min(bytes.len());
        self.bytes.extend_from_slice(&bytes[..count])?;
        Ok(count)
    }
}
