//! Numbers in groups of 7 bits, the least first, as in LevelDB's coding and protocol buffers (LEB128).
ghost use Rattle.std.specs.Prelude.{◌≡◌, ◌+◌, ◌*◌, ◌^◌, ◌<◌, ◌≤◌, ◌++◌, ℕ, List, length, take, drop, Result, Ok, IfOk, OnOk, OnErr};
ghost use Rattle.xdb_key.specs.Reading.{Gives};
ghost use Rattle.xdb_key.specs.Varint.{groups_of, varint, varint_len, more_at, varint_at};

use crate::VarintNo;
use std::alloc::AllocError;

/// The most bytes that a number takes.
const MOST: usize = 9;

/// Appends the one spelling of the number.
pub fn put_varint(out: &mut Vec<u8>, n: u64) -> Result<(), AllocError>
    requires { n < 2 ^ 63 }
    ensures ok { OnOk result (out.new.items ≡ out.old.items ++ varint n) }
    ensures err { OnErr result (out.new.items ≡ out.old.items) }
{
    let mut groups = [0u8; MOST];
    let len = spell(&mut groups, n);
    out.extend_from_slice(&groups[..len])
}

fn spell(groups: &mut [u8; 9], n: u64) -> usize
    requires { n < 2 ^ 63 }
    ensures within { result ≤ 9 }
    ensures spelled { take result groups.new ≡ varint n }
{
    let mut len = 0;
    let mut rest = n;
    while rest >= 128 {
        groups[len] = (128 + rest % 128) as u8;
        rest /= 128;
        len += 1;
    }
    groups[len] = rest as u8;
    len + 1
}

/// How many bytes the number's spelling takes.
pub fn varint_len(n: u64) -> usize
    ensures { result ≡ varint_len n }
{
    match n {
        n if n < 1 << 7 => 1,
        n if n < 1 << 14 => 2,
        n if n < 1 << 21 => 3,
        n if n < 1 << 28 => 4,
        n if n < 1 << 35 => 5,
        n if n < 1 << 42 => 6,
        n if n < 1 << 49 => 7,
        n if n < 1 << 56 => 8,
        _ => 9,
    }
}

/// Reads the number at a place, and answers it with the place after it.
pub fn get_varint(bytes: &[u8], at: usize) -> Result<(u64, usize), VarintNo>
    ensures gives { Gives (λ x. (x.0, drop x.1 bytes.now)) result (varint_at (drop at bytes.now)) }
    ensures small { IfOk result (λ x. x.0 < 2 ^ 63) }
    ensures within { IfOk result (λ x. (at < x.1) × (x.1 ≤ length bytes.now)) }
{
    if at > bytes.len() {
        return Err(VarintNo::Short);
    }
    let (_, rest) = bytes.split_at(at);
    let (n, rest) = read_varint(rest)?;
    Ok((n, bytes.len() - rest.len()))
}

/// Reads the number at the front, and answers it with the bytes after it.
#[tactic(auto, unfolding(crate::specs::Varint::varint_at))]
pub fn read_varint(bytes: &[u8]) -> Result<(u64, &[u8]), VarintNo>
    ensures gives { Gives (λ x. (x.0, x.1.now)) result (varint_at bytes.now) }
    ensures small { IfOk result (λ x. x.0 < 2 ^ 63) }
    ensures shorter { IfOk result (λ x. length x.1.now < length bytes.now) }
{
    match bytes {
        [] => Err(VarintNo::Short),
        [low, rest @ ..] if *low < 128 => Ok((u64::from(*low), rest)),
        [low, rest @ ..] => {
            let (high, rest) = read_more(rest, 8)?;
            Ok((u64::from(*low - 128) + 128 * high, rest))
        }
    }
}

/// The groups behind a byte with the high bit, of which there may be `most`.
fn read_more(bytes: &[u8], most: u32) -> Result<(u64, &[u8]), VarintNo>
    requires { most ≤ 8 }
    ensures gives { Gives (λ x. (x.0, x.1.now)) result (more_at most bytes.now) }
    ensures small { IfOk result (λ x. x.0 < 128 ^ most) }
    ensures shorter { IfOk result (λ x. length x.1.now < length bytes.now) }
{
    if most == 0 {
        return Err(VarintNo::TooLarge);
    }
    match bytes {
        [] => Err(VarintNo::Short),
        [0, ..] => Err(VarintNo::Overlong),
        [low, rest @ ..] if *low < 128 => Ok((u64::from(*low), rest)),
        [low, rest @ ..] => {
            let (high, rest) = read_more(rest, most - 1)?;
            Ok((u64::from(*low - 128) + 128 * high, rest))
        }
    }
}
