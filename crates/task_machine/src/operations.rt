ghost use Rattle.std.specs.Prelude.{◌≡◌, ◌&&◌};
ghost use Rattle.tower_types.specs.Value.{least, above, fits_scalar};
ghost use Rattle.tower_types.specs.Arithmetic.{applies, applies_one, is_number, is_unsigned};

use tower_types::{BinOp, Scalar, UnOp};

/// Has the scalar this operation.
fn applies(op: BinOp, t: Scalar) -> bool
    ensures { result ≡ applies op t }
{
    match op {
        BinOp::And | BinOp::Or | BinOp::Xor => is_unsigned(t),
        BinOp::Eq => true,
        BinOp::Both | BinOp::Either => !is_number(t),
        BinOp::Add
        | BinOp::Sub
        | BinOp::Mul
        | BinOp::Div
        | BinOp::Rem
        | BinOp::Less
        | BinOp::LessEq => is_number(t),
    }
}

fn applies_one(op: UnOp, t: Scalar) -> bool
    ensures { result ≡ applies_one op t }
{
    match op {
        UnOp::Not => !is_number(t),
        UnOp::Neg => is_number(t),
    }
}

/// Has the scalar this operation, and is the number one of the scalar's.
pub fn applies_to(op: UnOp, t: Scalar, a: i128) -> bool
    ensures { result ≡ (applies_one op t && fits_scalar t a) }
{
    applies_one(op, t) && fits_scalar(t, a)
}

/// The same of two numbers.
pub fn applies_to_both(op: BinOp, t: Scalar, a: i128, b: i128) -> bool
    ensures { result ≡ (applies op t && (fits_scalar t a && fits_scalar t b)) }
{
    applies(op, t) && fits_both(t, a, b)
}

fn fits_both(t: Scalar, a: i128, b: i128) -> bool
    ensures { result ≡ (fits_scalar t a && fits_scalar t b) }
{
    fits_scalar(t, a) && fits_scalar(t, b)
}

/// Is the number one of the scalar's.
fn fits_scalar(t: Scalar, n: i128) -> bool
    ensures { result ≡ fits_scalar t n }
{
    least(t) <= n && n < above(t)
}

fn is_number(t: Scalar) -> bool
    ensures { result ≡ is_number t }
{
    match t {
        Scalar::Bool => false,
        Scalar::U8 | Scalar::U16 | Scalar::U32 | Scalar::U64 => true,
        Scalar::I8 | Scalar::I16 | Scalar::I32 | Scalar::I64 | Scalar::Ix(_) => true,
    }
}

fn is_unsigned(t: Scalar) -> bool
    ensures { result ≡ is_unsigned t }
{
    match t {
        Scalar::U8 | Scalar::U16 | Scalar::U32 | Scalar::U64 => true,
        Scalar::Bool | Scalar::I8 | Scalar::I16 | Scalar::I32 | Scalar::I64 | Scalar::Ix(_) =>
            false,
    }
}

fn least(t: Scalar) -> i128
    ensures { result ≡ least t }
{
    match t {
        Scalar::I8 => -128,
        Scalar::I16 => -32768,
        Scalar::I32 => -2147483648,
        Scalar::I64 => -9223372036854775808,
        Scalar::Bool | Scalar::U8 | Scalar::U16 | Scalar::U32 | Scalar::U64 | Scalar::Ix(_) => 0,
    }
}

/// The number above the greatest.
fn above(t: Scalar) -> i128
    ensures { result ≡ above t }
{
    match t {
        Scalar::Bool => 2,
        Scalar::U8 => 256,
        Scalar::U16 => 65536,
        Scalar::U32 => 4294967296,
        Scalar::U64 => 18446744073709551616,
        Scalar::I8 => 128,
        Scalar::I16 => 32768,
        Scalar::I32 => 2147483648,
        Scalar::I64 => 9223372036854775808,
        Scalar::Ix(len) => i128::from(len),
    }
}
