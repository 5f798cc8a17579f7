// Files in memory.
ghost use Rattle.std.specs.Prelude.{◌≡◌, ◌++◌, ◌+◌, ◌≤◌, [], ◌∷◌, length, IfOk, OnOk, OnErr, IsErrOf};
ghost use Rattle.std.specs.FinMap as map;
ghost use Rattle.xdb_device.specs.Files.{AddsFrom};
ghost use Rattle.xdb_device.specs.Streams.{Grew};

use crate::FileRef;
use std::alloc::{AllocError, Global};
use std::collections::BTreeMap;
use std::marker::Model;
use std::sync::Arc;

/// A file in memory. It carries its bytes, so any device reads it.
#[derive(Drop)]
pub struct MemFile {
    bytes: Arc<Vec<u8>>,
}

impl Model for MemFile {
    ghost use Rattle.std.specs.Prelude.{List, ℕ};
    ghost use Rattle.std.specs.Arc.{arc_value};

    ghost Value = { List ℕ };

    ghost view = { λ f. (arc_value f.bytes).items };
}

impl MemFile {
    ghost use Rattle.std.specs.Prelude.{◌≡◌, IfOk};

    pub(crate) fn new(alloc: Global, bytes: &[u8]) -> Result<Self, AllocError>
        ensures { IfOk result (λ file. file ≡ bytes.now) }
    {
        let bytes = Arc::new(alloc, bytes.to_vec(alloc)?)?;
        Ok(MemFile { bytes })
    }

    pub(crate) fn bytes(&self) -> &[u8]
        ensures { result.now ≡ self.now }
    {
        &self.bytes
    }
}

impl FileRef for MemFile {
    ghost use Rattle.std.specs.Prelude.{Some, length, unwrap_or};
    ghost use Rattle.std.proofs.Common.{ap, sym};

    ghost size = { length };

    ghost bytes = { Some };

    fn share(&self) -> Result<Self, AllocError>
        ensures { IfOk result (λ file. file ≡ self.now) }
    {
        let bytes = Arc::try_clone(&self.bytes)?;
        Ok(MemFile { bytes })
    }

    fn len(&self) -> u64 {
        self.bytes().len() as u64
    }

    ghost told_size = { λ file told same. ap (λ known. length (unwrap_or known file)) (sym same) };
}

// The files of a device, and the numbers that it tells.
#[derive(Drop)]
pub(crate) struct Store {
    alloc: Global,
    created: Vec<u64>,
    removed: Vec<u64>,
    held: BTreeMap<u64, MemFile>,
}

impl Model for Store {
    ghost use Rattle.std.specs.FinMap as map;
    ghost use Rattle.xdb_device.specs.Store.{Kept, kept_code};

    ghost Value = { Kept };

    ghost coded = { kept_code };

    ghost view = { λ s. record { creations = s.created.items; removals = s.removed.items; holds = map.from_entries s.held.entries } };
}

impl Store {
    ghost use Rattle.std.specs.Prelude.{◌≡◌, IfOk, OnOk, OnErr};
    ghost use Rattle.std.specs.FinMap as map;
    ghost use Rattle.xdb_device.specs.Store.{nothing, listed, taken_out};

    pub(crate) fn new(alloc: Global) -> Self
        ensures { result ≡ nothing }
    {
        Store {
            alloc,
            created: Vec::new(alloc),
            removed: Vec::new(alloc),
            held: BTreeMap::new(alloc),
        }
    }

    pub(crate) fn created(&self) -> &[u64]
        ensures { result.now ≡ self.now.creations }
    {
        &self.created
    }

    pub(crate) fn removed(&self) -> &[u64]
        ensures { result.now ≡ self.now.removals }
    {
        &self.removed
    }

    // Lists a number among those that were created.
    pub(crate) fn list(&mut self, num: u64) -> Result<(), AllocError>
        ensures ok { OnOk result (self.new ≡ listed num self.old) }
        ensures err { OnErr result (self.new ≡ self.old) }
    {
        self.created.push(num)?;
        Ok(())
    }

    // Holds these bytes under the number.
    pub(crate) fn put(&mut self, num: u64, bytes: &[u8]) -> Result<MemFile, AllocError>
        ensures file { IfOk result (λ file. file ≡ bytes.now) }
        ensures ok { OnOk result (self.new ≡ record self.old { holds = map.insert self.old.holds num bytes.now }) }
        ensures err { OnErr result (self.new ≡ self.old) }
    {
        let file = MemFile::new(self.alloc, bytes)?;
        self.held.insert(num, file.share()?)?;
        Ok(file)
    }

    // Holds nothing under the number, and lists it among those that were removed.
    pub(crate) fn take_out(&mut self, num: u64) -> Result<(), AllocError>
        ensures ok { OnOk result (self.new ≡ taken_out num self.old) }
        ensures err { OnErr result (self.new ≡ self.old) }
    {
        self.removed.push(num)?;
        self.held.remove(&num);
        Ok(())
    }
}
