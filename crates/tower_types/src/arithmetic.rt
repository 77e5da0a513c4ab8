//! Arithmetic on the numbers of a scalar: done on whole numbers, and wrapped once. None of it takes memory.

ghost use Rattle.std.specs.Prelude.{◌≡◌, ◌^◌, pos, ◌+ℤ◌, ◌-ℤ◌, ◌*ℤ◌, neg_ℤ, ◌≤ℤ◌, IsTrue};
ghost use Rattle.tower_types.specs.Value.{fits_scalar, has_numbers};
ghost use Rattle.tower_types.specs.Arithmetic.{wrap_signed, wrap_to, quotient, remainder, binary_of, unary_of, binary_scalar, applies, applies_one, is_number, is_unsigned};

use crate::{BinOp, Scalar, UnOp};

/// The number wrapped to the scalar, which is no `Bool` and has a number.
pub fn wrap(t: Scalar, n: i128) -> i128
    requires number { IsTrue (is_number t) }
    requires some { IsTrue (has_numbers t) }
    ensures value { result ≡ wrap_to t n }
    ensures fits { IsTrue (fits_scalar t result) }
{
    match t {
        Scalar::Bool => n,
        Scalar::U8 => n.rem_euclid(1 << 8),
        Scalar::U16 => n.rem_euclid(1 << 16),
        Scalar::U32 => n.rem_euclid(1 << 32),
        Scalar::U64 => n.rem_euclid(1 << 64),
        Scalar::I8 => signed(n, 1 << 7),
        Scalar::I16 => signed(n, 1 << 15),
        Scalar::I32 => signed(n, 1 << 31),
        Scalar::I64 => signed(n, 1 << 63),
        Scalar::Ix(len) => n.rem_euclid(i128::from(len)),
    }
}

/// The number from `-half` to below `half` that differs from `n` by a multiple of `2 * half`.
fn signed(n: i128, half: i128) -> i128
    requires low { pos 1 ≤ℤ half }
    requires high { half ≤ℤ pos (2 ^ 63) }
    ensures { result ≡ wrap_signed half n }
{
    let r = n.rem_euclid(half + half);
    if r < half { r } else { r - (half + half) }
}

/// One operation on two numbers of a scalar that has it.
pub fn binary(op: BinOp, t: Scalar, a: i128, b: i128) -> i128
    requires applies { IsTrue (applies op t) }
    requires first { IsTrue (fits_scalar t a) }
    requires second { IsTrue (fits_scalar t b) }
    ensures value { result ≡ binary_of op t a b }
    ensures fits { IsTrue (fits_scalar (binary_scalar op t) result) }
{
    match op {
        BinOp::Add => {
            let n = a + b;
            wrap(t, n)
        }
        BinOp::Sub => {
            let n = a - b;
            wrap(t, n)
        }
        BinOp::Mul => product(t, a, b),
        BinOp::Div => {
            let n = quotient(a, b);
            wrap(t, n)
        }
        BinOp::Rem => {
            let n = remainder(a, b);
            wrap(t, n)
        }
        BinOp::And => {
            let n = a & b;
            wrap(t, n)
        }
        BinOp::Or => {
            let n = a | b;
            wrap(t, n)
        }
        BinOp::Xor => {
            let n = a ^ b;
            wrap(t, n)
        }
        BinOp::Eq => i128::from(a == b),
        BinOp::Less => i128::from(a < b),
        BinOp::LessEq => i128::from(a <= b),
        BinOp::Both => i128::from(a != 0 && b != 0),
        BinOp::Either => i128::from(a != 0 || b != 0),
    }
}

/// One operation on a number of a scalar that has it.
pub fn unary(op: UnOp, t: Scalar, a: i128) -> i128
    requires applies { IsTrue (applies_one op t) }
    requires first { IsTrue (fits_scalar t a) }
    ensures value { result ≡ unary_of op t a }
    ensures fits { IsTrue (fits_scalar t result) }
{
    match op {
        UnOp::Not => i128::from(a == 0),
        UnOp::Neg => {
            let n = -a;
            wrap(t, n)
        }
    }
}

/// The product, wrapped. That of two `u64` does not fit an `i128`.
fn product(t: Scalar, a: i128, b: i128) -> i128
    requires number { IsTrue (is_number t) }
    requires first { IsTrue (fits_scalar t a) }
    requires second { IsTrue (fits_scalar t b) }
    ensures value { result ≡ wrap_to t (a *ℤ b) }
    ensures fits { IsTrue (fits_scalar t result) }
{
    match t {
        Scalar::U64 => (a as u128 * b as u128 % (1 << 64)) as i128,
        _ => {
            let n = a * b;
            wrap(t, n)
        }
    }
}

/// Toward zero, and 0 at a zero divisor.
fn quotient(a: i128, b: i128) -> i128
    requires { neg_ℤ (pos (2 ^ 64)) ≤ℤ a }
    ensures { result ≡ quotient a b }
{
    if b == 0 { 0 } else { a / b }
}

/// What the quotient leaves of `a`, and `a` at a zero divisor.
fn remainder(a: i128, b: i128) -> i128
    requires { neg_ℤ (pos (2 ^ 64)) ≤ℤ a }
    ensures { result ≡ remainder a b }
{
    if b == 0 { a } else { a % b }
}

/// Whether the scalar has the operation.
pub fn applies(op: BinOp, t: Scalar) -> bool
    ensures { result ≡ applies op t }
{
    match op {
        BinOp::And | BinOp::Or | BinOp::Xor => is_unsigned(t),
        BinOp::Eq => true,
        BinOp::Both | BinOp::Either => !is_number(t),
        _ => is_number(t),
    }
}

/// Whether the scalar has the operation.
pub fn applies_one(op: UnOp, t: Scalar) -> bool
    ensures { result ≡ applies_one op t }
{
    match op {
        UnOp::Not => !is_number(t),
        UnOp::Neg => is_number(t),
    }
}

/// The scalar of the operation's result.
pub fn binary_scalar(op: BinOp, t: Scalar) -> Scalar
    ensures { result ≡ binary_scalar op t }
{
    match op {
        BinOp::Eq | BinOp::Less | BinOp::LessEq | BinOp::Both | BinOp::Either => Scalar::Bool,
        _ => t,
    }
}

/// Whether the scalar is any but `Bool`.
pub fn is_number(t: Scalar) -> bool
    ensures { result ≡ is_number t }
{
    t != Scalar::Bool
}

/// Whether the scalar is one of `U8` to `U64`.
pub fn is_unsigned(t: Scalar) -> bool
    ensures { result ≡ is_unsigned t }
{
    matches!(t, Scalar::U8 | Scalar::U16 | Scalar::U32 | Scalar::U64)
}
