//! Words that spell bytes: keys, bounds and values.
ghost use Rattle.std.specs.Prelude.{◌≡◌, ◌≢◌, ◌<◌, ◌≤◌, ◌++◌, ℕ, List, [], true, false, length, codes, MatchOption, IfOk};
ghost use Rattle.std.specs.List.{list_all};
ghost use Rattle.xdb_plain.specs.Words.{is_plain, byte_word, hex_digit};
ghost use Rattle.xdb_script.specs.Answers.{Answers};
ghost use Rattle.xdb_script.specs.Fields.{is_spelling, unspelled, string_read, key_read, bound_read, value_read};

use crate::error::LineNo;
use crate::{Why, verbs};
use std::alloc::{AllocError, Global};
use xdb_key::{Bound, Key, MAX_BOUND, MAX_KEY, MAX_VALUE, Val};

pub fn read_key(alloc: Global, word: &[u8]) -> Result<Key, LineNo>
    ensures { Answers (λ key. key) result (key_read word.now) }
{
    let bytes = read_string(alloc, 1, MAX_KEY, word)?;
    Ok(Key::new(bytes).unwrap())
}

pub fn read_bound(alloc: Global, word: &[u8]) -> Result<Bound, LineNo>
    ensures { Answers (λ bound. bound) result (bound_read word.now) }
{
    let bytes = read_string(alloc, 1, MAX_BOUND, word)?;
    Ok(Bound::new(bytes).unwrap())
}

pub fn read_value(alloc: Global, word: &[u8]) -> Result<Val, LineNo>
    ensures { Answers (λ value. value) result (value_read word.now) }
{
    let bytes = read_string(alloc, 0, MAX_VALUE, word)?;
    Ok(Val::new(bytes))
}

/// The bytes that the word spells, at least and at most so many.
fn read_string(alloc: Global, least: usize, most: usize, word: &[u8]) -> Result<Vec<u8>, LineNo>
    ensures answers { Answers (λ bytes. bytes.items) result (string_read least most word.now) }
    ensures within { IfOk result (λ bytes. (least ≤ length bytes.items) × (length bytes.items ≤ most)) }
{
    let Some(bytes) = unspell(alloc, word)? else {
        return Err(LineNo::Bad(Why::Token));
    };
    if bytes.len() < least || most < bytes.len() {
        return Err(LineNo::Bad(Why::Length));
    }
    Ok(bytes)
}

/// The bytes that the word is the one spelling of.
fn unspell(alloc: Global, word: &[u8]) -> Result<Option<Vec<u8>>, AllocError>
    ensures { IfOk result (λ read. MatchOption read (is_spelling word.now ≡ false) (λ bytes. (is_spelling word.now ≡ true) × (bytes.items ≡ unspelled word.now))) }
{
    if verbs::is_word(word, b"\"\"") {
        return Ok(Some(Vec::new(alloc)));
    }
    if word.is_empty() {
        return Ok(None);
    }
    if are_plain(word) {
        return Ok(Some(Vec::from_slice(alloc, word)?));
    }
    unspell_letters(alloc, word)
}

/// Whether each byte stands for itself, as in most words.
fn are_plain(word: &[u8]) -> bool
    ensures { result ≡ list_all is_plain word.now }
{
    word.iter().all(|byte| is_plain(*byte))
}

/// The same where the word isn't `""`: it has the letters of one byte after the other.
fn unspell_letters(alloc: Global, word: &[u8]) -> Result<Option<Vec<u8>>, AllocError>
    requires some { word.now ≢ [] }
    requires letters { word.now ≢ codes "\"\"" }
    ensures { IfOk result (λ read. MatchOption read (is_spelling word.now ≡ false) (λ bytes. (is_spelling word.now ≡ true) × (bytes.items ≡ unspelled word.now))) }
{
    let mut bytes = Vec::with_capacity(alloc, word.len())?;
    let mut rest = word;
    while !rest.is_empty() {
        let Some((byte, after)) = first_byte(rest) else {
            return Ok(None);
        };
        bytes.push(byte)?;
        rest = after;
    }
    Ok(Some(bytes))
}

/// The byte whose letters stand in front, and what stands behind them.
fn first_byte(word: &[u8]) -> Option<(u8, &[u8])>
    ensures { MatchOption result ((b : ℕ) (after : List ℕ) → b < 256 → word.now ≡ byte_word b ++ after → ⊥) (λ first. (word.now ≡ byte_word first.0 ++ first.1.now) × (length first.1.now < length word.now)) }
{
    match word {
        [b'%', high, low, after @ ..] => {
            let byte = 16 * digit(*high)? + digit(*low)?;
            if is_plain(byte) {
                return None;
            }
            Some((byte, after))
        }
        [byte, after @ ..] if is_plain(*byte) => Some((*byte, after)),
        _ => None,
    }
}

/// The digit below 16 that the letter stands for.
fn digit(letter: u8) -> Option<u8>
    ensures { MatchOption result ((d : ℕ) → d < 16 → letter ≡ hex_digit d → ⊥) (λ d. (d < 16) × (letter ≡ hex_digit d)) }
{
    match letter {
        b'0'..=b'9' => Some(letter - b'0'),
        b'a'..=b'f' => Some(letter - b'a' + 10),
        _ => None,
    }
}

/// Whether the byte stands for itself.
fn is_plain(byte: u8) -> bool
    ensures { result ≡ is_plain byte }
{
    (b'a' <= byte && byte <= b'z')
        || (b'A' <= byte && byte <= b'Z')
        || (b'-' <= byte && byte <= b'9')
        || byte == b'_'
}
