//! Names and numbers, as they are spelled.
ghost use Rattle.std.specs.Prelude.{◌≡◌, ◌≢◌, ℕ, ◌<◌, ◌^◌, ◌≤◌, ◌↔◌, IsTrue, MatchOption, decimal, false};
ghost use Rattle.tower_syntax.specs.Spelling.{is_name, begins_with_letter, goes_on, is_reserved};

use itoa::Buffer;

/// The words that are no names.
const RESERVED: [&str; 11] = [
    "bool", "u8", "u16", "u32", "u64", "i8", "i16", "i32", "i64", "true", "false",
];

/// Whether the bytes are a name: a lower-case letter, then lower-case letters, digits and single `_` between these, and
/// no reserved word. The length does not matter.
pub fn is_name(text: &[u8]) -> bool
    ensures { result ≡ is_name text.now }
{
    begins_with_letter(text) && !is_reserved(text)
}

fn begins_with_letter(text: &[u8]) -> bool
    ensures { result ≡ begins_with_letter text.now }
{
    match text {
        [] => false,
        [first, rest @ ..] => first.is_ascii_lowercase() && goes_on(rest),
    }
}

fn goes_on(text: &[u8]) -> bool
    ensures { result ≡ goes_on false text.now }
{
    let mut after_underscore = false;
    for byte in text {
        let byte = *byte;
        let is_letter = byte.is_ascii_lowercase() || byte.is_ascii_digit();
        let is_underscore = byte == b'_';
        if !is_letter && (!is_underscore || after_underscore) {
            return false;
        }
        after_underscore = is_underscore;
    }
    !after_underscore
}

fn is_reserved(text: &[u8]) -> bool
    ensures { result ≡ is_reserved text.now }
{
    matches!(
        text,
        b"bool"
            | b"u8"
            | b"u16"
            | b"u32"
            | b"u64"
            | b"i8"
            | b"i16"
            | b"i32"
            | b"i64"
            | b"true"
            | b"false"
    )
}

/// The number below 2 ^ 64 of which the bytes are the decimal text: digits that do not begin with 0, or just `0`.
pub fn natural(text: &[u8]) -> Option<u64>
    ensures { MatchOption result ((n : ℕ) → n < 2 ^ 64 → text.now ≢ decimal n) (λ n. text.now ≡ decimal n) }
{
    let Ok(digits) = std::str::from_utf8(text) else {
        return None;
    };
    let Ok(number) = digits.parse::<u64>() else {
        return None;
    };
    let mut buffer = Buffer::new();
    if buffer.format(number).as_bytes() == text {
        Some(number)
    } else {
        None
    }
}

/// The number from `low` to `high` of which the bytes are the decimal text.
pub fn natural_within(low: u64, high: u64, text: &[u8]) -> Option<u64>
    ensures within { MatchOption result ((n : ℕ) → low ≤ n → n ≤ high → text.now ≢ decimal n) (λ n. text.now ≡ decimal n) }
    ensures above { MatchOption result (Unit {0}) (λ n. low ≤ n) }
    ensures below { MatchOption result (Unit {0}) (λ n. n ≤ high) }
{
    let number = natural(text)?;
    if low <= number && number <= high {
        Some(number)
    } else {
        None
    }
}
