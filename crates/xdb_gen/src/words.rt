//! Keys, names and values that are made of numbers.
ghost use Rattle.std.specs.Prelude.{◌≡◌, ◌<◌, ◌+◌, ◌%◌, ◌∷◌, IfOk};
ghost use Rattle.std.specs.Fmt.{decimal};
ghost use Rattle.xdb_gen.specs.Commands.{key_of, key_range, load_name, snap_name, put_value};

use itoa::Buffer;
use std::alloc::{AllocError, Global};
use xdb_key::{Bound, Key, KeyRange, Name, Val};

/// The key of the last four digits of the number.
pub fn key(alloc: Global, number: u32) -> Result<Key, AllocError>
    ensures { IfOk result (λ key. key ≡ key_of number) }
{
    let bytes = key_bytes(alloc, number)?;
    let Ok(key) = Key::new(bytes) else {
        unreachable!()
    };
    Ok(key)
}

/// The keys from that of a number on, and below that of another.
pub fn key_range(alloc: Global, from: u32, to: u32) -> Result<KeyRange, AllocError>
    requires rising { from < to }
    requires small { to < 10000 }
    ensures { IfOk result (λ range. range ≡ key_range from to) }
{
    let lo = bound(alloc, from)?;
    let hi = bound(alloc, to)?;
    let Ok(range) = KeyRange::new(lo, hi) else {
        unreachable!()
    };
    Ok(range)
}

fn bound(alloc: Global, number: u32) -> Result<Bound, AllocError>
    ensures { IfOk result (λ bound. bound ≡ key_of number) }
{
    let bytes = key_bytes(alloc, number)?;
    let Ok(bound) = Bound::new(bytes) else {
        unreachable!()
    };
    Ok(bound)
}

fn key_bytes(alloc: Global, number: u32) -> Result<Vec<u8>, AllocError>
    ensures { IfOk result (λ bytes. bytes.items ≡ key_of number) }
{
    let bytes = [
        b'k',
        last_digit(number / 1000),
        last_digit(number / 100),
        last_digit(number / 10),
        last_digit(number),
    ];
    Vec::from_slice(alloc, &bytes)
}

fn last_digit(number: u32) -> u8
    ensures { result ≡ 48 + number % 10 }
{
    b'0' + (number % 10) as u8
}

/// The value that is put by the operation of this number.
pub fn value(alloc: Global, operation: u32) -> Result<Val, AllocError>
    ensures { IfOk result (λ value. value ≡ put_value operation) }
{
    let bytes = lettered(alloc, b'v', operation)?;
    Ok(Val::new(bytes))
}

/// The name of the load that is opened by the operation of this number.
pub fn load_name(alloc: Global, operation: u32) -> Result<Name, AllocError>
    ensures { IfOk result (λ name. name ≡ load_name operation) }
{
    let bytes = lettered(alloc, b'l', operation)?;
    let Some(name) = Name::new(&bytes) else {
        unreachable!()
    };
    Ok(name)
}

/// The name of the snapshot that is made by the operation of this number.
pub fn snap_name(alloc: Global, operation: u32) -> Result<Name, AllocError>
    ensures { IfOk result (λ name. name ≡ snap_name operation) }
{
    let bytes = lettered(alloc, b's', operation)?;
    let Some(name) = Name::new(&bytes) else {
        unreachable!()
    };
    Ok(name)
}

/// A letter and a number.
fn lettered(alloc: Global, letter: u8, number: u32) -> Result<Vec<u8>, AllocError>
    ensures { IfOk result (λ bytes. bytes.items ≡ letter ∷ decimal number) }
{
    let mut digits = Buffer::new();
    // A letter and at most ten digits.
    let mut bytes = Vec::with_capacity(alloc, 11)?;
    bytes.push(letter)?;
    bytes.extend_from_slice(digits.format(number).as_bytes())?;
    Ok(bytes)
}
