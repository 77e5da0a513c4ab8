//! Words that are numbers, operations and types.
ghost use Rattle.std.specs.Prelude.{◌≡◌, ◌≤◌, ◌^◌, ◌-◌, MatchOption, IfOk};
ghost use Rattle.task_listing.specs.Numbers.{is_blank, has_blank, is_word, are_digits, is_positive, is_negative, is_number};
ghost use Rattle.task_listing.specs.Answers.{number_in, negated, unsigned, literal_in, count_up_to, count, priority, operand, literal};
ghost use Rattle.task_listing.specs.Answers.{unary_named, binary_named, scalar_named, index_type, type};

use crate::fault::ListKind;
use tower_syntax::spelling::natural_within;
use tower_types::{BinOp, Scalar, UnOp};

/// The greatest number of words, and of monitors, outputs, tasks, and buffers and instructions of a task.
const COUNT_LIMIT: u32 = 1_048_576;

fn is_blank(byte: u8) -> bool
    ensures { result ≡ is_blank byte }
{
    byte == 0x20 || byte == 0x09 || byte == 0x0A || byte == 0x0D
}

fn has_blank(text: &[u8]) -> bool
    ensures { result ≡ has_blank text.now }
{
    for byte in text {
        if is_blank(*byte) {
            return true;
        }
    }
    false
}

fn is_word(text: &[u8]) -> bool
    ensures { result ≡ is_word text.now }
{
    !text.is_empty() && !has_blank(text)
}

fn are_digits(text: &[u8]) -> bool
    ensures { result ≡ are_digits text.now }
{
    for byte in text {
        if !byte.is_ascii_digit() {
            return false;
        }
    }
    true
}

fn is_positive(text: &[u8]) -> bool
    ensures { result ≡ is_positive text.now }
{
    match text {
        [] => false,
        [first, rest @ ..] => b'1' <= *first && *first <= b'9' && are_digits(rest),
    }
}

fn is_negative(text: &[u8]) -> bool
    ensures { result ≡ is_negative text.now }
{
    match text {
        [] => false,
        [first, rest @ ..] => *first == b'-' && is_positive(rest),
    }
}

/// Whether the bytes are a number, of any size.
fn is_number(text: &[u8]) -> bool
    ensures { result ≡ is_number text.now }
{
    text == b"0".as_slice() || is_positive(text) || is_negative(text)
}

fn number_within(low: u64, high: u64, text: &[u8]) -> Option<u64>
    ensures value { result ≡ number_in low high text.now }
    ensures below { MatchOption result (Unit {0}) (λ n. n ≤ high) }
{
    natural_within(low, high, text)
}

/// The number from `low` to `high` of which the bytes are the decimal text.
fn number_in(low: u32, high: u32, text: &[u8]) -> Option<u32>
    ensures value { result ≡ number_in low high text.now }
    ensures below { MatchOption result (Unit {0}) (λ n. n ≤ high) }
{
    match number_within(u64::from(low), u64::from(high), text) {
        Some(number) => Some(number as u32),
        None => None,
    }
}

fn negated(digits: &[u8]) -> Option<i128>
    ensures { result ≡ negated (number_in 1 (2 ^ 63) digits.now) }
{
    match number_within(1, 1 << 63, digits) {
        Some(number) => Some(-i128::from(number)),
        None => None,
    }
}

fn unsigned(digits: &[u8]) -> Option<i128>
    ensures { result ≡ unsigned (number_in 0 (2 ^ 64 - 1) digits.now) }
{
    match number_within(0, u64::MAX, digits) {
        Some(number) => Some(i128::from(number)),
        None => None,
    }
}

fn literal_in(text: &[u8]) -> Option<i128>
    ensures { result ≡ literal_in text.now }
{
    match text {
        [] => None,
        [first, rest @ ..] => {
            if *first == b'-' {
                negated(rest)
            } else {
                unsigned(text)
            }
        }
    }
}

fn count_up_to(most: u32, word: &[u8]) -> Result<u32, ListKind>
    ensures value { result ≡ count_up_to most word.now }
    ensures few { IfOk result (λ n. n ≤ most) }
{
    if !is_word(word) {
        return Err(ListKind::Line);
    }
    match number_in(0, most, word) {
        Some(number) => Ok(number),
        None => Err(ListKind::Number),
    }
}

/// The number of a word that counts words or lines.
pub(crate) fn count(word: &[u8]) -> Result<u32, ListKind>
    ensures { result ≡ count word.now }
{
    count_up_to(COUNT_LIMIT, word)
}

/// The priority of a task.
pub(crate) fn priority(word: &[u8]) -> Result<u8, ListKind>
    ensures { result ≡ priority word.now }
{
    match count_up_to(255, word) {
        Ok(number) => Ok(number as u8),
        Err(kind) => Err(kind),
    }
}

/// The operand of an instruction, or `None` where the number is none that an instruction has.
pub(crate) fn operand(word: &[u8]) -> Result<Option<u32>, ListKind>
    ensures { result ≡ operand word.now }
{
    if !is_word(word) {
        return Err(ListKind::Line);
    }
    if !is_number(word) {
        return Err(ListKind::Number);
    }
    Ok(number_in(0, u32::MAX, word))
}

/// A number that is pushed, or `None` where it is out of range.
pub(crate) fn literal(word: &[u8]) -> Result<Option<i128>, ListKind>
    ensures { result ≡ literal word.now }
{
    if !is_word(word) {
        return Err(ListKind::Line);
    }
    if !is_number(word) {
        return Err(ListKind::Number);
    }
    Ok(literal_in(word))
}

/// The operation on one number with this word.
pub(crate) fn unary_named(word: &[u8]) -> Option<UnOp>
    ensures { result ≡ unary_named word.now }
{
    match word {
        b"not" => Some(UnOp::Not),
        b"neg" => Some(UnOp::Neg),
        _ => None,
    }
}

/// The operation on two numbers with this word.
pub(crate) fn binary_named(word: &[u8]) -> Option<BinOp>
    ensures { result ≡ binary_named word.now }
{
    match word {
        b"+" => Some(BinOp::Add),
        b"-" => Some(BinOp::Sub),
        b"*" => Some(BinOp::Mul),
        b"/" => Some(BinOp::Div),
        b"%" => Some(BinOp::Rem),
        b"&" => Some(BinOp::And),
        b"|" => Some(BinOp::Or),
        b"^" => Some(BinOp::Xor),
        b"=" => Some(BinOp::Eq),
        b"<" => Some(BinOp::Less),
        b"<=" => Some(BinOp::LessEq),
        b"and" => Some(BinOp::Both),
        b"or" => Some(BinOp::Either),
        _ => None,
    }
}

fn scalar_named(word: &[u8]) -> Option<Scalar>
    ensures { result ≡ scalar_named word.now }
{
    match word {
        b"bool" => Some(Scalar::Bool),
        b"u8" => Some(Scalar::U8),
        b"u16" => Some(Scalar::U16),
        b"u32" => Some(Scalar::U32),
        b"u64" => Some(Scalar::U64),
        b"i8" => Some(Scalar::I8),
        b"i16" => Some(Scalar::I16),
        b"i32" => Some(Scalar::I32),
        b"i64" => Some(Scalar::I64),
        _ => None,
    }
}

/// The type of a word that begins with `ix:`.
fn index_type(word: &[u8]) -> Result<Scalar, ListKind>
    ensures { result ≡ index_type word.now }
{
    match word {
        [b'i', b'x', b':', rest @ ..] => {
            if !is_word(word) {
                return Err(ListKind::Line);
            }
            match number_in(1, 65_536, rest) {
                Some(number) => Ok(Scalar::Ix(number)),
                None => Err(ListKind::Number),
            }
        }
        _ => Err(ListKind::Line),
    }
}

/// The type with this word.
pub(crate) fn type_named(word: &[u8]) -> Result<Scalar, ListKind>
    ensures { result ≡ type word.now }
{
    match scalar_named(word) {
        Some(scalar) => Ok(scalar),
        None => index_type(word),
    }
}
