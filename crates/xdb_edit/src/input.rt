ghost use Rattle.std.specs.Prelude.{◌≡◌, ◌-◌, ◌≤◌, length};

use crate::EditBad;
use std::alloc::Global;

/// The input of a reader: its length, and the allocator for what is read.
#[derive(Clone, Copy, Debug)]
pub struct Input {
    pub alloc: Global,
    pub len: usize,
}

impl Input {
    /// The defect of a field, where these bytes are left at its start.
    pub fn bad_field(self, left: &[u8]) -> EditBad
        requires { length left.now ≤ self.len }
        ensures { result ≡ EditBad.BadField (self.len - length left.now) }
    {
        EditBad::BadField {
            at: self.len - left.len(),
        }
    }
}
