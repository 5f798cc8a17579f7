ghost use Rattle.std.specs.Prelude.{◌≡◌, ◌↔◌, ℕ, List, [], IsTrue, IfOk};

use smallvec::SmallVec;
use std::alloc::{AllocError, Global};
use std::marker::Model;

/// The bytes of a value. Up to 16 stand in the value itself.
#[derive(Debug, Drop)]
pub struct Val {
    bytes: SmallVec<u8, 16>,
}

impl Model for Val {
    ghost Value = { List ℕ };

    ghost view = { λ v. v.bytes.items };
}

impl Val {
    pub fn new(bytes: Vec<u8>) -> Self
        ensures { result ≡ bytes.items }
    {
        Val {
            bytes: SmallVec::from_vec(bytes),
        }
    }

    /// The value of no bytes. It takes no memory.
    pub fn empty(alloc: Global) -> Self
        ensures { result ≡ [] }
    {
        Val {
            bytes: SmallVec::new(alloc),
        }
    }

    pub fn bytes(&self) -> &[u8]
        ensures { result.now ≡ self.now }
    {
        self.bytes.as_slice()
    }

    pub fn copy(&self) -> Result<Self, AllocError>
        ensures { IfOk result (λ value. value ≡ self.now) }
    {
        let bytes = SmallVec::from_slice(*self.bytes.allocator(), self.bytes.as_slice())?;
        Ok(Val { bytes })
    }

    pub fn same(&self, other: &Val) -> bool
        ensures { IsTrue result ↔ (self.now ≡ other.now) }
    {
        self.bytes.as_slice() == other.bytes.as_slice()
    }
}
