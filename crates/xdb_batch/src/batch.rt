ghost use Rattle.std.specs.Prelude.{◌≡◌, ◌+◌, ◌≤◌, ◌^◌, ℕ, List, [], ◌∷◌, ◌++◌, length, Ok, IfOk, OnOk, OnErr, IfSome, IfNone, IsOk, IsOkUnless};
ghost use Rattle.xdb_key.specs.declared.op.Op.{Op};
ghost use Rattle.xdb_batch.specs.Adding.{refusal, refusal_of};
ghost use Rattle.xdb_batch.specs.Reading.{Answers, batch_at};
ghost use Rattle.xdb_batch.specs.Spelling.{AreOps, IsBatch, batch_bytes};

use crate::adding::{added_len, total_len};
use crate::reading::read_batch;
use crate::writing::write_batch;
use crate::{BatchBad, BatchNo, HEADER};
use std::alloc::{AllocError, Global};
use std::marker::Model;
use xdb_key::{Key, KeyRange, Op, Ops, Val};

/// Operations that take effect together, in their order.
#[derive(Debug, Drop)]
pub struct Batch {
    ops: Vec<Op>,
    /// How many bytes the batch takes.
    len: usize,
}

impl Model for Batch {
    ghost use Rattle.std.specs.Prelude.{List};
    ghost use Rattle.xdb_key.specs.declared.op.Op.{Op};
    ghost use Rattle.xdb_batch.specs.Spelling.{IsKept};

    ghost Value = { List Op };

    ghost view = { λ b. b.ops.items };

    ghost invariant = { λ b. IsKept b.ops.items b.len };
}

impl Batch {
    /// A batch of no operations. It takes no memory.
    pub fn new(alloc: Global) -> Self
        ensures { result ≡ [] }
    {
        Batch {
            ops: Vec::new(alloc),
            len: HEADER,
        }
    }

    /// The batch of these operations, without memory.
    pub fn from_ops(ops: Vec<Op>) -> Result<Self, BatchNo>
        ensures made { IfOk result (λ batch. batch ≡ ops.items) }
        ensures refused { IfSome (refusal_of ops.items) (λ no. result ≡ Err no) }
        ensures succeeds { IfNone (refusal_of ops.items) (IsOk result) }
    {
        let len = total_len(&ops)?;
        Ok(Batch { ops, len })
    }

    pub fn ops(&self) -> &[Op]
        ensures ops { result.now ≡ self.now }
        ensures limits { AreOps self.now }
    {
        &self.ops
    }

    /// Gives the operations, without memory.
    pub fn into_ops(self) -> Ops
        ensures ops { result ≡ self }
        ensures limits { AreOps self }
    {
        Ops::new(self.ops)
    }

    /// Sets the key to the value.
    pub fn set(&mut self, key: Key, value: Vec<u8>) -> Result<(), BatchNo>
        ensures added { OnOk result (self.new ≡ self.old ++ Op.Set key value.items ∷ []) }
        ensures unchanged { OnErr result (self.new ≡ self.old) }
        ensures refused { IfSome (refusal self.old (Op.Set key value.items)) (λ no. result ≡ Err no) }
        ensures succeeds { IfNone (refusal self.old (Op.Set key value.items)) (IsOkUnless result BatchNo.Memory) }
    {
        let value = Val::new(value);
        self.push(Op::Set { key, value })
    }

    /// Deletes the key.
    pub fn del(&mut self, key: Key) -> Result<(), BatchNo>
        ensures added { OnOk result (self.new ≡ self.old ++ Op.Del key ∷ []) }
        ensures unchanged { OnErr result (self.new ≡ self.old) }
        ensures refused { IfSome (refusal self.old (Op.Del key)) (λ no. result ≡ Err no) }
        ensures succeeds { IfNone (refusal self.old (Op.Del key)) (IsOkUnless result BatchNo.Memory) }
    {
        self.push(Op::Del { key })
    }

    /// Deletes each key of the range.
    pub fn del_span(&mut self, range: KeyRange) -> Result<(), BatchNo>
        ensures added { OnOk result (self.new ≡ self.old ++ Op.DelSpan range ∷ []) }
        ensures unchanged { OnErr result (self.new ≡ self.old) }
        ensures refused { IfSome (refusal self.old (Op.DelSpan range)) (λ no. result ≡ Err no) }
        ensures succeeds { IfNone (refusal self.old (Op.DelSpan range)) (IsOkUnless result BatchNo.Memory) }
    {
        self.push(Op::DelSpan { range })
    }

    fn push(&mut self, op: Op) -> Result<(), BatchNo>
        ensures added { OnOk result (self.new ≡ self.old ++ op ∷ []) }
        ensures unchanged { OnErr result (self.new ≡ self.old) }
        ensures refused { IfSome (refusal self.old op) (λ no. result ≡ Err no) }
        ensures succeeds { IfNone (refusal self.old op) (IsOkUnless result BatchNo.Memory) }
    {
        let len = added_len(self.ops.len(), self.len, &op)?;
        self.ops.push(op)?;
        self.len += len;
        Ok(())
    }

    /// The batch as bytes, where its operations are numbered from `first` on.
    pub fn bytes(&self, first: u64) -> Result<Vec<u8>, AllocError>
        requires some { 1 ≤ length self.now }
        requires from { 1 ≤ first }
        requires upto { first + length self.now ≤ 2 ^ 56 }
        ensures written { IfOk result (λ bytes. bytes.items ≡ batch_bytes first self.now) }
        ensures again { IfOk result (λ bytes. batch_at bytes.items ≡ Ok (first, self.now)) }
    {
        write_batch(*self.ops.allocator(), self.len, first, &self.ops)
    }

    /// Reads a batch with its first number.
    pub fn from_bytes(alloc: Global, bytes: &[u8]) -> Result<(u64, Batch), BatchBad>
        // What is read is spelled so.
        ensures found { IfOk result (λ x. IsBatch x.0 x.1 × (bytes.now ≡ batch_bytes x.0 x.1)) }
        // What is spelled so is read, unless memory runs out.
        ensures only { (first : ℕ) (ops : List Op) → IsBatch first ops → bytes.now ≡ batch_bytes first ops → Answers (λ x. x) result (Ok (first, ops)) }
        // The refusal is the first defect from the left.
        ensures exact { Answers (λ x. x) result (batch_at bytes.now) }
    {
        let (first, ops) = read_batch(alloc, bytes)?;
        let len = bytes.len();
        Ok((first, Batch { ops, len }))
    }
}
