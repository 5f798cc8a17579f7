// Files, readers and devices.
ghost use Rattle.std.specs.Prelude.{◌≡◌, ◌+◌, ◌≤◌, ℕ, Option, IsSome, IfSome, Some, List, length, IfOk, OnOk, OnErr, IsErrOf};
ghost use Rattle.xdb_device.specs.Counted.{Counted};
ghost use Rattle.xdb_device.specs.Files.{AddsFrom};
ghost use Rattle.xdb_device.specs.Streams.{Grew};
ghost use Rattle.xdb_device.specs.Told.{Told, Created, Removed};

use crate::DevNo;
use std::alloc::AllocError;

/// A file that stands on a device. Its bytes never change.
pub trait FileRef: Sized + Drop + Send + Sync {
    ghost size: { Self → ℕ };

    /// The bytes, where the file tells them.
    ghost bytes: { Self → Option (List ℕ) };

    /// The same file once more.
    fn share(&self) -> Result<Self, AllocError>
        ensures size { IfOk result (λ file. size file ≡ size self.now) }
        ensures bytes { IfOk result (λ file. bytes file ≡ bytes self.now) };

    fn len(&self) -> u64
        ensures { result ≡ size self.now };

    ghost told_size: { (file : Self) (told : List ℕ) → bytes file ≡ Some told → length told ≡ size file };
}

/// What reads files.
pub trait Reader {
    type File: FileRef;

    /// How often it failed. It never falls, and stands still at the greatest u64.
    ghost faults: { Self → ℕ };

    /// How many of its failures were answered here. A reader over another one has its own.
    ghost misses: { Self → ℕ };

    /// What no call changes.
    ghost frame: { Self → List ℕ };

    ghost told: { Self → Told };

    /// Adds `len` bytes of the file, from `off` on.
    fn read_at(
        &mut self,
        file: &Self::File,
        off: u64,
        len: u32,
        out: &mut Vec<u8>,
    ) -> Result<(), DevNo>
        requires { off + len ≤ Self.File.size file.now }
        ensures counted { Counted faults misses frame self.old self.new (IsErrOf result DevNo.Failed) }
        ensures told { told self.new ≡ told self.old }

        ensures grew { OnOk result (Grew len out.old.items out.new.items) }
        ensures read { OnOk result (AddsFrom (Self.File.bytes file.now) off len out.old.items out.new.items) }

        ensures err { OnErr result (out.new.items ≡ out.old.items) };

    /// What is given up is told only beside what was created.
    ghost told_beside: { (reader : Self) → IsSome (told reader).given_up → IsSome (told reader).creations };
}

/// What makes and removes files, each under a number.
pub trait Device: Reader {
    /// After an error the file may stand in part: its number is to be removed.
    fn create(&mut self, num: u64, bytes: &[u8]) -> Result<Self::File, DevNo>
        ensures counted { Counted Self.faults Self.misses Self.frame self.old self.new (IsErrOf result DevNo.Failed) }
        ensures told { Created num bytes.now result (Self.told self.old) (Self.told self.new) }

        ensures size { IfOk result (λ file. Self.File.size file ≡ length bytes.now) }
        ensures bytes { IfOk result (λ file. IfSome (Self.File.bytes file) (λ told. told ≡ bytes.now)) };

    /// Removes a file. A number that isn't there is removed too.
    fn remove(&mut self, num: u64) -> Result<(), DevNo>
        ensures counted { Counted Self.faults Self.misses Self.frame self.old self.new (IsErrOf result DevNo.Failed) }
        ensures told { Removed num result (Self.told self.old) (Self.told self.new) };
}
