// A reader or a device with a share of the ledger.
ghost use Rattle.std.specs.Prelude.{◌≡◌, ◌-◌, ◌^◌, ◌≤◌, min};
ghost use Rattle.xdb_device.specs.Faults.{raised};

use crate::{DevNo, Device, FaultBook, FaultShare, Reader};
use std::sync::ledger::Ledger;

/// A reader or a device, with the share of the ledger that its failures are booked on.
#[derive(Drop)]
pub struct Rig<'a, R: Reader, L: Ledger> {
    dev: &'a mut R,
    share: FaultShare<L>,
    risen: u64,
    removal: Option<(u64, Result<(), DevNo>)>,
    pub ghost within: { min share (2 ^ 64 - 1) ≤ risen },
}

impl<'a, R: Reader, L: Ledger> Rig<'a, R, L> {
    ghost use Rattle.std.specs.Prelude.{◌≡◌, ◌≤◌, None};
    ghost use Rattle.std.specs.Option.{option_copied};
    ghost use Rattle.xdb_device.specs.Rig.{device_of, amount_of, spent_of, risen_of, removal_of};

    pub fn new(dev: &'a mut R, share: FaultShare<L>) -> Self
        requires { share ≡ 0 }
        ensures same_reference { (device_of result).ghost_name ≡ dev.entry.ghost_name }
        ensures device { (device_of result).now ≡ dev.entry.now }
        ensures amount { amount_of result ≡ 0 }
        ensures risen { risen_of result ≡ 0 }
        ensures removal { removal_of result ≡ None }
    {
        Rig {
            dev,
            share,
            risen: 0,
            removal: None,
        }
    }

    /// How many calls through the rig answered `Failed`, up to the greatest u64.
    pub fn risen(&self) -> u64
        ensures { result ≡ risen_of self.now }
    {
        self.risen
    }

    /// How many of them were booked, up to the greatest u64.
    pub fn spent(&self) -> u64
        ensures value { result ≡ spent_of self.now }
        ensures within { result ≤ risen_of self.now }
    {
        self.share.spent()
    }

    /// The last `remove` through the rig, and its answer.
    pub fn removal(&self) -> Option<&(u64, Result<(), DevNo>)>
        ensures { option_copied result ≡ removal_of self.now }
    {
        self.removal.as_ref()
    }

    pub fn into_share(self) -> FaultShare<L>
        ensures share { result ≡ amount_of self.entry }
        ensures device { self.exit.0.now ≡ (device_of self.entry).now }
    {
        let Rig {
            dev: _,
            share,
            risen: _,
            removal: _,
        } = self;
        share
    }
}

// One more failure, where the answer is one.
fn raise<T>(risen: &mut u64, answer: &Result<T, DevNo>)
    ensures { risen.new ≡ raised answer.now risen.old }
{
    if let Err(DevNo::Failed) = answer {
        *risen = risen.saturating_add(1);
    }
}

impl<'a, R: Reader, L: Ledger> Reader for Rig<'a, R, L> {
    ghost use Rattle.std.specs.Prelude.{◌≡◌, ◌+◌, ◌≤◌, OnOk, OnErr, IsErrOf};
    ghost use Rattle.xdb_device.specs.Counted.{Counted};
    ghost use Rattle.xdb_device.specs.Faults.{raised};
    ghost use Rattle.xdb_device.specs.Files.{AddsFrom};
    ghost use Rattle.xdb_device.specs.Streams.{Grew};
    ghost use Rattle.xdb_device.specs.Rig.{device_of, faults_of, risen_of, frame_of, rig_told, removal_of};

    type File = R::File;

    ghost faults = { faults_of };

    ghost misses = { risen_of };

    ghost frame = { frame_of };

    ghost told = { rig_told };

    ghost told_beside = { λ r given_up. R.told_beside (device_of r).now given_up };

    fn read_at(
        &mut self,
        file: &R::File,
        off: u64,
        len: u32,
        out: &mut Vec<u8>,
    ) -> Result<(), DevNo>
        requires { off + len ≤ R.File.size file.now }
        ensures counted { Counted faults_of risen_of frame_of self.old self.new (IsErrOf result DevNo.Failed) }
        ensures risen { risen_of self.new ≡ raised result (risen_of self.old) }
        ensures told { rig_told self.new ≡ rig_told self.old }
        ensures removal { removal_of self.new ≡ removal_of self.old }

        ensures grew { OnOk result (Grew len out.old.items out.new.items) }
        ensures read { OnOk result (AddsFrom (R.File.bytes file.now) off len out.old.items out.new.items) }

        ensures err { OnErr result (out.new.items ≡ out.old.items) }
    {
        let answer = self.dev.read_at(file, off, len, out);
        raise(&mut self.risen, &answer);
        answer
    }
}

impl<'a, R: Device, L: Ledger> Device for Rig<'a, R, L> {
    ghost use Rattle.std.specs.Prelude.{◌≡◌, IfOk, IfSome, IsErrOf, Some, length};
    ghost use Rattle.xdb_device.specs.Counted.{Counted};
    ghost use Rattle.xdb_device.specs.Faults.{raised};
    ghost use Rattle.xdb_device.specs.Told.{Created, Removed};
    ghost use Rattle.xdb_device.specs.Rig.{faults_of, risen_of, frame_of, rig_told, removal_of};

    fn create(&mut self, num: u64, bytes: &[u8]) -> Result<R::File, DevNo>
        ensures counted { Counted faults_of risen_of frame_of self.old self.new (IsErrOf result DevNo.Failed) }
        ensures risen { risen_of self.new ≡ raised result (risen_of self.old) }
        ensures told { Created num bytes.now result (rig_told self.old) (rig_told self.new) }
        ensures removal { removal_of self.new ≡ removal_of self.old }

        ensures size { IfOk result (λ file. R.File.size file ≡ length bytes.now) }
        ensures bytes { IfOk result (λ file. IfSome (R.File.bytes file) (λ told. told ≡ bytes.now)) }
    {
        let answer = self.dev.create(num, bytes);
        raise(&mut self.risen, &answer);
        answer
    }

    fn remove(&mut self, num: u64) -> Result<(), DevNo>
        ensures counted { Counted faults_of risen_of frame_of self.old self.new (IsErrOf result DevNo.Failed) }
        ensures risen { risen_of self.new ≡ raised result (risen_of self.old) }
        ensures told { Removed num result (rig_told self.old) (rig_told self.new) }
        ensures removal { removal_of self.new ≡ Some (num, result) }
    {
        let answer = self.dev.remove(num);
        raise(&mut self.risen, &answer);
        self.removal = Some((num, answer));
        answer
    }
}

impl<L: Ledger> FaultBook<L> {
    ghost use Rattle.std.specs.Prelude.{◌≡◌, ◌+◌};
    ghost use Rattle.xdb_device.specs.Faults.{Rose};
    ghost use Rattle.xdb_device.specs.Rig.{device_of, amount_of, spent_of, risen_of, removal_of};

    /// Books one of the rig's failures.
    pub fn charge<R: Reader>(&mut self, rig: &mut Rig<'_, R, L>)
        requires unspent { Rose (spent_of rig.old) (risen_of rig.old) }
        ensures book { self.new ≡ self.old + 1 }
        ensures amount { amount_of rig.new ≡ amount_of rig.old + 1 }
        ensures risen { risen_of rig.new ≡ risen_of rig.old }
        ensures removal { removal_of rig.new ≡ removal_of rig.old }
        ensures same_reference { (device_of rig.new).ghost_name ≡ (device_of rig.old).ghost_name }
        ensures device { (device_of rig.new).now ≡ (device_of rig.old).now }
    {
        self.add(&mut rig.share);
    }
}
