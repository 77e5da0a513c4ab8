//! Types, values and arithmetic: what every other crate of towerc speaks of.
#![tactic(auto)]

mod arithmetic;
mod fitting;
mod flattening;
mod laws;
mod memory;
mod records;
mod scalar;
mod text;
mod ty;
mod value;
mod width;

pub use arithmetic::{
    applies, applies_one, binary, binary_scalar, is_number, is_unsigned, unary, wrap,
};
pub use fitting::{fits, fits_scalar, has_numbers};
pub use flattening::{flatten, unflatten};
pub use laws::{
    dividing, operations_keep_ranges, values_have_numbers, worked_arithmetic, worked_types,
    wrapping, zero_values,
};
pub use memory::NoMemory;
pub use records::Records;
pub use scalar::{BinOp, Scalar, UnOp};
pub use text::{Name, Text};
pub use ty::Ty;
pub use value::Value;
pub use width::{depth, words};

#[cfg(test)]
mod tests;
