//! The words of scalars and truths, and numbers.
ghost use Rattle.std.specs.Prelude.{◌≡◌, ◌≤◌, ◌^◌, ◌-◌, MatchOption};
ghost use Rattle.tower_reader.specs.Words.{scalar_named, truth_named, number_in, negated, unsigned, literal_in};

use tower_syntax::spelling::natural_within;
use tower_types::Scalar;

/// The scalar with this word.
pub(crate) fn scalar_named(text: &[u8]) -> Option<Scalar>
    ensures { result ≡ scalar_named text.now }
{
    match text {
        b"bool" => Some(Scalar::Bool),
        b"u8" => Some(Scalar::U8),
        b"u16" => Some(Scalar::U16),
        b"u32" => Some(Scalar::U32),
        b"u64" => Some(Scalar::U64),
        b"i8" => Some(Scalar::I8),
        b"i16" => Some(Scalar::I16),
        b"i32" => Some(Scalar::I32),
        b"i64" => Some(Scalar::I64),
        _ => None,
    }
}

/// The truth with this word.
pub(crate) fn truth_named(text: &[u8]) -> Option<bool>
    ensures { result ≡ truth_named text.now }
{
    match text {
        b"true" => Some(true),
        b"false" => Some(false),
        _ => None,
    }
}

fn number_within(low: u64, high: u64, text: &[u8]) -> Option<u64>
    ensures value { result ≡ number_in low high text.now }
    ensures below { MatchOption result (Unit {0}) (λ n. n ≤ high) }
{
    natural_within(low, high, text)
}

/// The number from `low` to `high` of which the bytes are the decimal text.
pub(crate) fn number_in(low: u32, high: u32, text: &[u8]) -> Option<u32>
    ensures { result ≡ number_in low high text.now }
{
    match number_within(u64::from(low), u64::from(high), text) {
        Some(number) => Some(number as u32),
        None => None,
    }
}

fn negated(digits: &[u8]) -> Option<i128>
    ensures { result ≡ negated (number_in 1 (2 ^ 63) digits.now) }
{
    match number_within(1, 1 << 63, digits) {
        Some(number) => Some(-i128::from(number)),
        None => None,
    }
}

fn unsigned(digits: &[u8]) -> Option<i128>
    ensures { result ≡ unsigned (number_in 0 (2 ^ 64 - 1) digits.now) }
{
    match number_within(0, u64::MAX, digits) {
        Some(number) => Some(i128::from(number)),
        None => None,
    }
}

/// The number of a literal of which the bytes are the text.
pub(crate) fn literal_in(text: &[u8]) -> Option<i128>
    ensures { result ≡ literal_in text.now }
{
    match text {
        [] => None,
        [first, rest @ ..] => {
            if *first == b'-' {
                negated(rest)
            } else {
                unsigned(text)
            }
        }
    }
}
