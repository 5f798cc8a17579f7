//! The entries and range tombstones of a batch whose operations are numbered one after the other.
ghost use Rattle.std.specs.Prelude.{◌≡◌, ◌+◌, ◌<◌, ◌≤◌, ◌^◌, ◌++◌, length, IfOk, OnOk};
ghost use Rattle.std.specs.Option.{option_to_list};
ghost use Rattle.xdb_mem.specs.Numbered.{numbered, point_at, span_at, points, spans};

use std::alloc::{AllocError, Global};
use xdb_key::{Entry, Op, Span};

/// The sets and deletes, in their order.
pub fn entries(alloc: Global, first: u64, ops: &[Op]) -> Result<Vec<Entry>, AllocError>
    requires { first + length ops.now ≤ 2 ^ 56 }
    ensures { IfOk result (λ made. made.items ≡ points (numbered first ops.now)) }
{
    let mut out = Vec::new(alloc);
    let mut seq = first;
    for op in ops {
        add_entry(&mut out, seq, op)?;
        seq += 1;
    }
    Ok(out)
}

fn add_entry(out: &mut Vec<Entry>, seq: u64, op: &Op) -> Result<(), AllocError>
    requires { seq < 2 ^ 56 }
    ensures { OnOk result (out.new.items ≡ out.old.items ++ option_to_list (point_at seq op.now)) }
{
    match op {
        Op::Set { key, value } => {
            out.push(Entry::set(key.copy()?, seq, value.copy()?)?)?;
        }
        Op::Del { key } => {
            out.push(Entry::del(key.copy()?, seq)?)?;
        }
        Op::DelSpan { .. } => {}
    }
    Ok(())
}

/// The range deletes, in their order.
pub fn spans(alloc: Global, first: u64, ops: &[Op]) -> Result<Vec<Span>, AllocError>
    requires { first + length ops.now ≤ 2 ^ 56 }
    ensures { IfOk result (λ made. made.items ≡ spans (numbered first ops.now)) }
{
    let mut out = Vec::new(alloc);
    let mut seq = first;
    for op in ops {
        add_span(&mut out, seq, op)?;
        seq += 1;
    }
    Ok(out)
}

fn add_span(out: &mut Vec<Span>, seq: u64, op: &Op) -> Result<(), AllocError>
    requires { seq < 2 ^ 56 }
    ensures { OnOk result (out.new.items ≡ out.old.items ++ option_to_list (span_at seq op.now)) }
{
    if let Op::DelSpan { range } = op {
        out.push(Span::new(range.copy()?, seq))?;
    }
    Ok(())
}
