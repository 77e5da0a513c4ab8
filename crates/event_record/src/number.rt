//! Numbers and truths, as they are spelled.
ghost use Rattle.std.specs.Prelude.{◌≡◌, ◌≤◌, ◌^◌, ◌-◌, MatchOption, FitsSigned};
ghost use Rattle.tower_reader.specs.Words.{number_in, negated, unsigned, literal_in};
ghost use Rattle.event_record.specs.Numbers.{are_digits, is_positive, is_negative, is_number};
ghost use Rattle.event_record.specs.Written.{is_literal};

use tower_syntax::spelling::natural_within;

fn number_within(low: u64, high: u64, text: &[u8]) -> Option<u64>
    ensures value { result ≡ number_in low high text.now }
    ensures below { MatchOption result (Unit {0}) (λ n. n ≤ high) }
{
    natural_within(low, high, text)
}

/// The number from `low` to `high` of which the bytes are the decimal text.
pub(crate) fn number_in(low: u32, high: u32, text: &[u8]) -> Option<u32>
    ensures value { result ≡ number_in low high text.now }
    ensures below { MatchOption result (Unit {0}) (λ n. n ≤ high) }
{
    match number_within(u64::from(low), u64::from(high), text) {
        Some(number) => Some(number as u32),
        None => None,
    }
}

fn negated(digits: &[u8]) -> Option<i128>
    ensures { result ≡ negated (number_in 1 (2 ^ 63) digits.now) }
{
    match number_within(1, 1 << 63, digits) {
        Some(number) => Some(-i128::from(number)),
        None => None,
    }
}

fn unsigned(digits: &[u8]) -> Option<i128>
    ensures { result ≡ unsigned (number_in 0 (2 ^ 64 - 1) digits.now) }
{
    match number_within(0, u64::MAX, digits) {
        Some(number) => Some(i128::from(number)),
        None => None,
    }
}

/// The number of 64 bits, with a sign or without one, of which the bytes are the text.
pub(crate) fn literal_in(text: &[u8]) -> Option<i128>
    ensures { result ≡ literal_in text.now }
{
    match text {
        [] => None,
        [first, rest @ ..] => {
            if *first == b'-' {
                negated(rest)
            } else {
                unsigned(text)
            }
        }
    }
}

fn are_digits(text: &[u8]) -> bool
    ensures { result ≡ are_digits text.now }
{
    for byte in text {
        if !byte.is_ascii_digit() {
            return false;
        }
    }
    true
}

fn is_positive(text: &[u8]) -> bool
    ensures { result ≡ is_positive text.now }
{
    match text {
        [] => false,
        [first, rest @ ..] => b'1' <= *first && *first <= b'9' && are_digits(rest),
    }
}

fn is_negative(text: &[u8]) -> bool
    ensures { result ≡ is_negative text.now }
{
    match text {
        [] => false,
        [first, rest @ ..] => *first == b'-' && is_positive(rest),
    }
}

/// Whether the bytes are a number, of any size.
fn is_number(text: &[u8]) -> bool
    ensures { result ≡ is_number text.now }
{
    text == b"0".as_slice() || is_positive(text) || is_negative(text)
}

/// Whether the bytes are a number or a truth.
pub(crate) fn is_literal(text: &[u8]) -> bool
    ensures { result ≡ is_literal text.now }
{
    is_number(text) || text == b"true".as_slice() || text == b"false".as_slice()
}
