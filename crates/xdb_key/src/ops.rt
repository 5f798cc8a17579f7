ghost use Rattle.std.specs.Prelude.{◌≡◌, List, IfOk};
ghost use Rattle.xdb_key.specs.declared.op.Op.{Op};

use crate::Op;
use std::alloc::AllocError;
use std::marker::Model;

/// Operations in the order in which they act.
#[derive(Debug, Drop)]
pub struct Ops {
    ops: Vec<Op>,
}

impl Model for Ops {
    ghost Value = { List Op };

    ghost view = { λ a. a.ops.items };
}

impl Ops {
    pub fn new(ops: Vec<Op>) -> Self
        ensures { result ≡ ops.items }
    {
        Ops { ops }
    }

    pub fn list(&self) -> &[Op]
        ensures { result.now ≡ self.now }
    {
        &self.ops
    }

    /// Gives the operations back, without memory.
    pub fn into_list(self) -> Vec<Op>
        ensures { result.items ≡ self }
    {
        self.ops
    }

    pub fn copy(&self) -> Result<Self, AllocError>
        ensures { IfOk result (λ ops. ops ≡ self.now) }
    {
        let mut ops = Vec::with_capacity(*self.ops.allocator(), self.ops.len())?;
        for op in &self.ops {
            ops.push(op.copy()?)?;
        }
        Ok(Ops { ops })
    }
}
