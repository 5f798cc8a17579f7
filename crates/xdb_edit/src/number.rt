//! Fields that are a number.
ghost use Rattle.std.specs.Prelude.{◌≡◌, ◌-◌, ◌^◌, ◌<◌, ◌≤◌, ◌++◌, length, IfOk, OnOk};
ghost use Rattle.xdb_key.specs.Varint.{varint, varint_at};
ghost use Rattle.xdb_edit.specs.Reading.{Gives, as_field};

use crate::EditBad;
use crate::input::Input;
use std::alloc::AllocError;
use xdb_key::{VarintNo, put_varint, read_varint};

pub fn read(input: Input, bytes: &[u8]) -> Result<(u64, &[u8]), EditBad>
    requires { length bytes.now ≤ input.len }
    ensures gives { Gives (λ x. (x.0, x.1.now)) result (as_field input.len (input.len - length bytes.now) (varint_at bytes.now)) }
    ensures shorter { IfOk result (λ x. length x.1.now < length bytes.now) }
{
    match read_varint(bytes) {
        Ok(read) => Ok(read),
        Err(VarintNo::Short) => Err(EditBad::Short { at: input.len }),
        Err(VarintNo::TooLarge | VarintNo::Overlong) => Err(input.bad_field(bytes)),
    }
}

pub fn put(out: &mut Vec<u8>, n: u64) -> Result<(), AllocError>
    requires { n < 2 ^ 63 }
    ensures { OnOk result (out.new.items ≡ out.old.items ++ varint n) }
{
    put_varint(out, n)
}
