//! How bytes, numbers and names are spelled as words.
ghost use Rattle.std.specs.Prelude.{◌≡◌, ◌<◌, ◌++◌, ◌∷◌, OnOk, OnErr};
ghost use Rattle.std.specs.Fmt.{decimal};
ghost use Rattle.xdb_text.specs.Kept.{Kept};
ghost use Rattle.xdb_plain.specs.Printed.{spaced};
ghost use Rattle.xdb_plain.specs.Words.{byte_word, string_word, range_words, at_words, number_words, name_words, hex_digit, is_plain};

use itoa::Buffer;
use std::alloc::AllocError;
use xdb_key::{KeyRange, Name};

/// A word, with a space before it.
pub fn push_word(out: &mut Vec<u8>, word: &[u8]) -> Result<(), AllocError>
    ensures printed { OnOk result (out.new.items ≡ out.old.items ++ 32 ∷ word.now) }
    ensures kept { OnErr result (Kept out.old.items out.new.items) }
{
    out.push(b' ')?;
    out.extend_from_slice(word)
}

/// Bytes as a word, with a space before it.
pub fn push_string(out: &mut Vec<u8>, bytes: &[u8]) -> Result<(), AllocError>
    ensures printed { OnOk result (out.new.items ≡ out.old.items ++ 32 ∷ string_word bytes.now) }
    ensures kept { OnErr result (Kept out.old.items out.new.items) }
{
    push_behind(out, b' ', bytes)
}

/// A number as a word, with a space before it.
pub fn push_number(out: &mut Vec<u8>, number: u64) -> Result<(), AllocError>
    ensures printed { OnOk result (out.new.items ≡ out.old.items ++ 32 ∷ decimal number) }
    ensures kept { OnErr result (Kept out.old.items out.new.items) }
{
    out.push(b' ')?;
    push_decimal(out, number)
}

/// A verb and a number.
pub fn push_numbered(out: &mut Vec<u8>, verb: &[u8], number: u64) -> Result<(), AllocError>
    ensures printed { OnOk result (out.new.items ≡ out.old.items ++ spaced (number_words verb.now number)) }
    ensures kept { OnErr result (Kept out.old.items out.new.items) }
{
    push_word(out, verb)?;
    push_number(out, number)
}

/// A verb and a name.
pub fn push_named(out: &mut Vec<u8>, verb: &[u8], name: Name) -> Result<(), AllocError>
    ensures printed { OnOk result (out.new.items ≡ out.old.items ++ spaced (name_words verb.now name)) }
    ensures kept { OnErr result (Kept out.old.items out.new.items) }
{
    push_word(out, verb)?;
    push_word(out, name.bytes())
}

/// The two bounds of a range.
pub fn push_range(out: &mut Vec<u8>, range: &KeyRange) -> Result<(), AllocError>
    ensures printed { OnOk result (out.new.items ≡ out.old.items ++ spaced (range_words range.now)) }
    ensures kept { OnErr result (Kept out.old.items out.new.items) }
{
    push_string(out, range.lo().bytes())?;
    push_string(out, range.hi().bytes())
}

/// The snapshot that is spoken of, where it is one.
pub fn push_at(out: &mut Vec<u8>, at: Option<Name>) -> Result<(), AllocError>
    ensures printed { OnOk result (out.new.items ≡ out.old.items ++ spaced (at_words at)) }
    ensures kept { OnErr result (Kept out.old.items out.new.items) }
{
    match at {
        Some(snap) => push_named(out, b"at", snap),
        None => Ok(()),
    }
}

pub fn push_decimal(out: &mut Vec<u8>, number: u64) -> Result<(), AllocError>
    ensures printed { OnOk result (out.new.items ≡ out.old.items ++ decimal number) }
    ensures kept { OnErr result (Kept out.old.items out.new.items) }
{
    let mut digits = Buffer::new();
    out.extend_from_slice(digits.format(number).as_bytes())
}

/// Bytes as a word: no bytes are two quotes.
fn push_spelled(out: &mut Vec<u8>, bytes: &[u8]) -> Result<(), AllocError>
    ensures printed { OnOk result (out.new.items ≡ out.old.items ++ string_word bytes.now) }
    ensures kept { OnErr result (Kept out.old.items out.new.items) }
{
    if bytes.is_empty() {
        return out.extend_from_slice(b"\"\"");
    }
    for byte in bytes {
        push_byte(out, *byte)?;
    }
    Ok(())
}

/// A byte, and then bytes as a word.
pub fn push_behind(out: &mut Vec<u8>, mark: u8, bytes: &[u8]) -> Result<(), AllocError>
    ensures printed { OnOk result (out.new.items ≡ out.old.items ++ mark ∷ string_word bytes.now) }
    ensures kept { OnErr result (Kept out.old.items out.new.items) }
{
    out.push(mark)?;
    push_spelled(out, bytes)
}

fn push_byte(out: &mut Vec<u8>, byte: u8) -> Result<(), AllocError>
    ensures printed { OnOk result (out.new.items ≡ out.old.items ++ byte_word byte) }
    ensures kept { OnErr result (Kept out.old.items out.new.items) }
{
    if is_plain(byte) {
        out.push(byte)?;
        return Ok(());
    }
    out.extend_from_slice(&[b'%', hex_digit(byte / 16), hex_digit(byte % 16)])
}

/// Whether the byte stands for itself in a string word: letters, digits and `_`, `-`, `.`, `/`.
/// Every other byte is spelled as `%` and two hexadecimal digits in lower case.
pub fn is_plain(byte: u8) -> bool
    ensures { result ≡ is_plain byte }
{
    (b'a' <= byte && byte <= b'z')
        || (b'A' <= byte && byte <= b'Z')
        || (b'-' <= byte && byte <= b'9')
        || byte == b'_'
}

fn hex_digit(digit: u8) -> u8
    requires { digit < 16 }
    ensures { result ≡ hex_digit digit }
{
    if digit < 10 { b'0' + digit } else { 87 + digit }
}
