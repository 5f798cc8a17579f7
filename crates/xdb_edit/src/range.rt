//! Fields that are the two bounds of a range, each a string.
ghost use Rattle.std.specs.Prelude.{◌≡◌, ◌-◌, ◌<◌, ◌≤◌, ◌++◌, length, IfOk, OnOk};
ghost use Rattle.xdb_edit.specs.Spelling.{string, range_bytes};
ghost use Rattle.xdb_edit.specs.Reading.{Gives, bound_at, range_at};

use crate::input::Input;
use crate::{EditBad, number};
use std::alloc::AllocError;
use xdb_key::{Bound, KeyRange, MAX_BOUND, put_varint};

#[tactic(auto, unfolding(crate::specs::Reading::range_at))]
pub fn read(input: Input, bytes: &[u8]) -> Result<(KeyRange, &[u8]), EditBad>
    requires { length bytes.now ≤ input.len }
    ensures gives { Gives (λ x. (x.0, x.1.now)) result (range_at input.len bytes.now) }
    ensures shorter { IfOk result (λ x. length x.1.now < length bytes.now) }
{
    let (lo, second) = read_bound(input, bytes)?;
    let (hi, rest) = read_bound(input, second)?;
    match KeyRange::new(lo, hi) {
        Ok(range) => Ok((range, rest)),
        Err(_) => Err(input.bad_field(second)),
    }
}

#[tactic(auto, unfolding(crate::specs::Reading::bound_at, crate::specs::Reading::number_at))]
fn read_bound(input: Input, bytes: &[u8]) -> Result<(Bound, &[u8]), EditBad>
    requires { length bytes.now ≤ input.len }
    ensures gives { Gives (λ x. (x.0, x.1.now)) result (bound_at input.len bytes.now) }
    ensures shorter { IfOk result (λ x. length x.1.now < length bytes.now) }
{
    let (len, rest) = number::read(input, bytes)?;
    if len < 1 || len > MAX_BOUND as u64 {
        return Err(input.bad_field(bytes));
    }
    let len = len as usize;
    if rest.len() < len {
        return Err(EditBad::Short { at: input.len });
    }
    let (bound, rest) = rest.split_at(len);
    match Bound::new(Vec::from_slice(input.alloc, bound)?) {
        Ok(bound) => Ok((bound, rest)),
        Err(_) => unreachable!(),
    }
}

pub fn put(out: &mut Vec<u8>, range: &KeyRange) -> Result<(), AllocError>
    ensures { OnOk result (out.new.items ≡ out.old.items ++ range_bytes range.now) }
{
    put_bound(out, range.lo())?;
    put_bound(out, range.hi())
}

fn put_bound(out: &mut Vec<u8>, bound: &Bound) -> Result<(), AllocError>
    ensures { OnOk result (out.new.items ≡ out.old.items ++ string bound.now) }
{
    put_varint(out, bound.bytes().len() as u64)?;
    out.extend_from_slice(bound.bytes())
}
