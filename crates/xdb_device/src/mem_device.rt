// Devices that keep their files in memory.
ghost use Rattle.std.specs.Prelude.{◌≡◌, ◌++◌, ◌+◌, ◌≤◌, ◌⊎◌, ◌↔◌, length, take, drop, IfOk, OnOk, OnErr, IsErr, IsErrOf, IsTrue};
ghost use Rattle.xdb_device.specs.Schedule.{fails_next, after_call};
ghost use Rattle.xdb_device.specs.Store.{listed, made, taken_out, FailsOrKeepsNothing};

use crate::schedule::Schedule;
use crate::store::{MemFile, Store};
use crate::{DevNo, Device, Reader};
use std::alloc::{AllocError, Global};
use std::marker::Model;

/// A device in memory, whose calls fail as it is told. The calls of `read_at`, `create` and
/// `remove` are numbered together, from 1.
#[derive(Drop)]
pub struct MemDevice {
    store: Store,
    schedule: Schedule,
}

impl Model for MemDevice {
    ghost use Rattle.xdb_device.specs.Store.{Faulty, faulty_code};

    ghost Value = { Faulty };

    ghost coded = { faulty_code };

    ghost view = { λ d. record { kept = d.store; calls = d.schedule } };
}

impl MemDevice {
    ghost use Rattle.std.specs.Prelude.{◌≡◌};
    ghost use Rattle.xdb_device.specs.Store.{nothing};

    /// The calls that `fails` names fail, and no others.
    pub fn new(alloc: Global, fails: Vec<u64>) -> Self
        ensures kept { result.kept ≡ nothing }
        ensures calls { result.calls ≡ record { fails = fails.items; count = 0; faults = 0 } }
    {
        MemDevice {
            store: Store::new(alloc),
            schedule: Schedule::new(fails),
        }
    }

    /// The numbers with which `create` was called.
    pub fn created(&self) -> &[u64]
        ensures { result.now ≡ self.now.kept.creations }
    {
        self.store.created()
    }

    /// The numbers for which `remove` answered Ok.
    pub fn removed(&self) -> &[u64]
        ensures { result.now ≡ self.now.kept.removals }
    {
        self.store.removed()
    }

    /// How many calls there were, up to the greatest u64.
    pub fn calls(&self) -> u64
        ensures { result ≡ self.now.calls.count }
    {
        self.schedule.count()
    }
}

// Adds bytes of a file.
fn add_from(file: &MemFile, off: u64, len: u32, out: &mut Vec<u8>) -> Result<(), AllocError>
    requires { off + len ≤ length file.now }
    ensures ok { OnOk result (out.new.items ≡ out.old.items ++ take len (drop off file.now)) }
    ensures err { OnErr result (out.new.items ≡ out.old.items) }
{
    let start = off as usize;
    out.extend_from_slice(&file.bytes()[start..start + len as usize])
}

impl Reader for MemDevice {
    ghost use Rattle.std.specs.Prelude.{[]};
    ghost use Rattle.std.proofs.Common.{refl};
    ghost use Rattle.xdb_device.specs.Store.{told_of};

    type File = MemFile;

    ghost faults = { λ d. d.calls.faults };

    ghost misses = { λ d. d.calls.faults };

    ghost frame = { λ _. [] };

    ghost told = { λ d. told_of d.kept };

    ghost told_beside = { λ d none. refl };

    fn read_at(
        &mut self,
        file: &MemFile,
        off: u64,
        len: u32,
        out: &mut Vec<u8>,
    ) -> Result<(), DevNo>
        requires { off + len ≤ length file.now }
        ensures exact { IsErrOf result DevNo.Failed ↔ IsTrue (fails_next self.old.calls) }
        ensures counted { self.new.calls ≡ after_call self.old.calls }
        ensures kept { self.new.kept ≡ self.old.kept }

        ensures read { OnOk result (out.new.items ≡ out.old.items ++ take len (drop off file.now)) }
        ensures err { OnErr result (out.new.items ≡ out.old.items) }
    {
        if self.schedule.fails() {
            return Err(DevNo::Failed);
        }
        Ok(add_from(file, off, len, out)?)
    }
}

impl Device for MemDevice {
    // The number is listed before the call fails, so a call that is to fail may want memory instead.
    fn create(&mut self, num: u64, bytes: &[u8]) -> Result<MemFile, DevNo>
        ensures failed { IsErrOf result DevNo.Failed → IsTrue (fails_next self.old.calls) }
        ensures exact { IsTrue (fails_next self.old.calls) → IsErr result }
        ensures exact_kept { IsTrue (fails_next self.old.calls) → FailsOrKeepsNothing result self.old.kept self.new.kept }
        ensures counted { self.new.calls ≡ after_call self.old.calls }

        ensures file { IfOk result (λ file. file ≡ bytes.now) }
        ensures kept { OnOk result (self.new.kept ≡ made num bytes.now self.old.kept) }
        ensures kept_failed { IsErrOf result DevNo.Failed → self.new.kept ≡ listed num self.old.kept }
        ensures kept_memory { OnErr result ((self.new.kept ≡ self.old.kept) ⊎ (self.new.kept ≡ listed num self.old.kept)) }
    {
        let fails = self.schedule.fails();
        self.store.list(num)?;
        if fails {
            return Err(DevNo::Failed);
        }
        Ok(self.store.put(num, bytes)?)
    }

    fn remove(&mut self, num: u64) -> Result<(), DevNo>
        ensures exact { IsErrOf result DevNo.Failed ↔ IsTrue (fails_next self.old.calls) }
        ensures counted { self.new.calls ≡ after_call self.old.calls }

        ensures kept { OnOk result (self.new.kept ≡ taken_out num self.old.kept) }
        ensures kept_err { OnErr result (self.new.kept ≡ self.old.kept) }
    {
        if self.schedule.fails() {
            return Err(DevNo::Failed);
        }
        Ok(self.store.take_out(num)?)
    }
}

/// A device in memory that never fails.
#[derive(Drop)]
pub struct SureDevice {
    store: Store,
}

impl Model for SureDevice {
    ghost use Rattle.xdb_device.specs.Store.{Kept, kept_code};

    ghost Value = { Kept };

    ghost coded = { kept_code };

    ghost view = { λ d. d.store };
}

impl SureDevice {
    ghost use Rattle.std.specs.Prelude.{◌≡◌};
    ghost use Rattle.xdb_device.specs.Store.{nothing};

    pub fn new(alloc: Global) -> Self
        ensures { result ≡ nothing }
    {
        SureDevice {
            store: Store::new(alloc),
        }
    }
}

impl Reader for SureDevice {
    ghost use Rattle.std.specs.Prelude.{[]};
    ghost use Rattle.std.proofs.Common.{refl};
    ghost use Rattle.xdb_device.specs.Store.{told_of};

    type File = MemFile;

    ghost faults = { λ _. 0 };

    ghost misses = { λ _. 0 };

    ghost frame = { λ _. [] };

    ghost told = { told_of };

    ghost told_beside = { λ d none. refl };

    fn read_at(
        &mut self,
        file: &MemFile,
        off: u64,
        len: u32,
        out: &mut Vec<u8>,
    ) -> Result<(), DevNo>
        requires { off + len ≤ length file.now }
        ensures sure { IsErrOf result DevNo.Failed → ⊥ }
        ensures kept { self.new ≡ self.old }

        ensures read { OnOk result (out.new.items ≡ out.old.items ++ take len (drop off file.now)) }
        ensures err { OnErr result (out.new.items ≡ out.old.items) }
    {
        Ok(add_from(file, off, len, out)?)
    }
}

impl Device for SureDevice {
    fn create(&mut self, num: u64, bytes: &[u8]) -> Result<MemFile, DevNo>
        ensures sure { IsErrOf result DevNo.Failed → ⊥ }
        ensures file { IfOk result (λ file. file ≡ bytes.now) }
        ensures kept { OnOk result (self.new ≡ made num bytes.now self.old) }
        ensures kept_memory { OnErr result ((self.new ≡ self.old) ⊎ (self.new ≡ listed num self.old)) }
    {
        self.store.list(num)?;
        Ok(self.store.put(num, bytes)?)
    }

    fn remove(&mut self, num: u64) -> Result<(), DevNo>
        ensures sure { IsErrOf result DevNo.Failed → ⊥ }
        ensures kept { OnOk result (self.new ≡ taken_out num self.old) }
        ensures kept_err { OnErr result (self.new ≡ self.old) }
    {
        Ok(self.store.take_out(num)?)
    }
}
