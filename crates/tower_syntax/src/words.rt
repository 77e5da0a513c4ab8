//! The words that stand for scalars, operations and truths.

ghost use Rattle.std.specs.Prelude.{◌≡◌};
ghost use Rattle.tower_syntax.specs.Words.{scalar_word, binary_word, unary_word, truth_word, tower_word};

use tower_types::{BinOp, Scalar, UnOp};

/// The word of a scalar. That of `(ix n)` is the head of its list.
pub fn scalar_word(scalar: Scalar) -> &'static str
    ensures { result.now ≡ scalar_word scalar }
{
    match scalar {
        Scalar::Bool => "bool",
        Scalar::U8 => "u8",
        Scalar::U16 => "u16",
        Scalar::U32 => "u32",
        Scalar::U64 => "u64",
        Scalar::I8 => "i8",
        Scalar::I16 => "i16",
        Scalar::I32 => "i32",
        Scalar::I64 => "i64",
        Scalar::Ix(_) => "ix",
    }
}

pub fn binary_word(op: BinOp) -> &'static str
    ensures { result.now ≡ binary_word op }
{
    match op {
        BinOp::Add => "+",
        BinOp::Sub => "-",
        BinOp::Mul => "*",
        BinOp::Div => "/",
        BinOp::Rem => "%",
        BinOp::And => "&",
        BinOp::Or => "|",
        BinOp::Xor => "^",
        BinOp::Eq => "=",
        BinOp::Less => "<",
        BinOp::LessEq => "<=",
        BinOp::Both => "and",
        BinOp::Either => "or",
    }
}

pub fn unary_word(op: UnOp) -> &'static str
    ensures { result.now ≡ unary_word op }
{
    match op {
        UnOp::Not => "not",
        UnOp::Neg => "neg",
    }
}

/// `true` or `false`.
pub fn truth_word(yes: bool) -> &'static str
    ensures { result.now ≡ truth_word yes }
{
    if yes { "true" } else { "false" }
}

/// The head of a file, by its version.
pub fn tower_word(version: u8) -> &'static str
    ensures { result.now ≡ tower_word version }
{
    if version == 2 { "tower2" } else { "tower" }
}
