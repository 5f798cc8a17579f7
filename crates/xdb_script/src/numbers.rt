//! Words that are numbers or names.
ghost use Rattle.std.specs.Prelude.{◌≡◌, ◌<◌, ◌≤◌, ◌^◌, ℕ, Ok, Err, MatchOption, IfOk, IfSome};
ghost use Rattle.std.specs.Fmt.{decimal};
ghost use Rattle.xdb_script.specs.Answers.{Answers};
ghost use Rattle.xdb_script.specs.Fields.{number_read, name_read, begins_decimal};

use crate::Why;
use crate::error::LineNo;
use xdb_key::Name;

/// The number that the word is, at least and at most so great.
pub fn read_number(least: u64, most: u64, word: &[u8]) -> Result<u64, LineNo>
    ensures answers { Answers (λ n. n) result (number_read least most word.now) }
    ensures within { IfOk result (λ n. (least ≤ n) × (n ≤ most)) }
{
    number_in(least, most, word).ok_or(LineNo::Bad(Why::Number))
}

/// The same where it isn't an error yet that the word is none.
pub fn number_in(least: u64, most: u64, word: &[u8]) -> Option<u64>
    ensures number { MatchOption result (number_read least most word.now ≡ Err Why.Number) (λ n. number_read least most word.now ≡ Ok n) }
    ensures within { IfSome result (λ n. (least ≤ n) × (n ≤ most)) }
{
    match decimal_value(word) {
        Some(number) if least <= number && number <= most => Some(number),
        _ => None,
    }
}

/// The number whose decimal the word is.
fn decimal_value(word: &[u8]) -> Option<u64>
    ensures { MatchOption result ((n : ℕ) → n < 2 ^ 64 → word.now ≡ decimal n → ⊥) (λ n. (n < 2 ^ 64) × (word.now ≡ decimal n)) }
{
    if !begins_decimal(word) {
        return None;
    }
    let Ok(text) = str::from_utf8(word) else {
        return None;
    };
    text.parse().ok()
}

/// Whether the word begins as a decimal does, which has no leading zero.
fn begins_decimal(word: &[u8]) -> bool
    ensures { result ≡ begins_decimal word.now }
{
    match word {
        [] => false,
        [first, others @ ..] => {
            (b'1' <= *first && *first <= b'9') || (*first == b'0' && others.is_empty())
        }
    }
}

pub fn read_name(word: &[u8]) -> Result<Name, LineNo>
    ensures { Answers (λ name. name) result (name_read word.now) }
{
    Name::new(word).ok_or(LineNo::Bad(Why::Name))
}
