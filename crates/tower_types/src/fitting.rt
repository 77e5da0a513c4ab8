//! Whether a value has the shape of a type, with each number in its range. None of it takes memory.

ghost use Rattle.std.specs.Prelude.{◌≡◌, All, length};
ghost use Rattle.tower_types.specs.Ty.{many, table_of, shape_of, shape_of_fields};
ghost use Rattle.tower_types.specs.Value.{least, above, fits_scalar, has_numbers, fits};
ghost use Rattle.tower_types.specs.View.{ty_of, fields_of, value_of};
ghost use Rattle.tower_types.specs.Records.{IsTypeAmong};

use crate::{Name, Records, Scalar, Ty, Value};

/// Whether the number is one of the scalar.
pub fn fits_scalar(t: Scalar, n: i128) -> bool
    ensures { result ≡ fits_scalar t n }
{
    least(t) <= n && n < above(t)
}

/// Whether some number is one of the scalar: it is no `Ix(0)`.
pub fn has_numbers(t: Scalar) -> bool
    ensures { result ≡ has_numbers t }
{
    t != Scalar::Ix(0)
}

/// The least number of the scalar.
fn least(t: Scalar) -> i128
    ensures { result ≡ least t }
{
    match t {
        Scalar::I8 => -(1 << 7),
        Scalar::I16 => -(1 << 15),
        Scalar::I32 => -(1 << 31),
        Scalar::I64 => -(1 << 63),
        _ => 0,
    }
}

/// The number above the greatest of the scalar.
fn above(t: Scalar) -> i128
    ensures { result ≡ above t }
{
    match t {
        Scalar::Bool => 2,
        Scalar::U8 => 1 << 8,
        Scalar::U16 => 1 << 16,
        Scalar::U32 => 1 << 32,
        Scalar::U64 => 1 << 64,
        Scalar::I8 => 1 << 7,
        Scalar::I16 => 1 << 15,
        Scalar::I32 => 1 << 31,
        Scalar::I64 => 1 << 63,
        Scalar::Ix(len) => i128::from(len),
    }
}

/// Whether the value has the type: its shape, with each number in the range of its scalar.
pub fn fits(records: &Records, t: &Ty, v: &Value) -> bool
    requires { IsTypeAmong (length records.now) (ty_of t.now) }
    ensures { result ≡ fits (shape_of records.now (ty_of t.now)) (value_of v.now) }
{
    value_fits(v, records, t)
}

#[cycle(fits)]
fn value_fits(v: &Value, records: &Records, t: &Ty) -> bool
    requires { IsTypeAmong (length records.now) (ty_of t.now) }
    ensures { result ≡ fits (shape_of records.now (ty_of t.now)) (value_of v.now) }
{
    match t {
        Ty::Scalar(s) => match v {
            Value::Word(n) => fits_scalar(*s, *n),
            Value::Parts(_) => false,
        },
        Ty::Array(len, element) => array_fits(v, records, *len, element.get()),
        Ty::Rec(r) => record_fits(v, records, records.fields(*r)),
    }
}

/// Whether the value is a list of `len` values of the type.
#[cycle(fits)]
fn array_fits(v: &Value, records: &Records, len: u32, t: &Ty) -> bool
    requires { IsTypeAmong (length records.now) (ty_of t.now) }
    ensures { result ≡ fits (many len (shape_of records.now (ty_of t.now))) (value_of v.now) }
{
    let Value::Parts(parts) = v else {
        return false;
    };
    let parts = parts.as_slice();
    if parts.len() != len as usize {
        return false;
    }
    for part in parts {
        if !value_fits(part, records, t) {
            return false;
        }
    }
    true
}

/// Whether the value is a list of one value of each field's type.
#[cycle(fits)]
fn record_fits(v: &Value, records: &Records, fields: &[(Name, Ty)]) -> bool
    requires { All (λ f. IsTypeAmong (length records.now) f.1) (fields_of fields.now) }
    ensures { result ≡
        fits (shape_of_fields (table_of records.now) (fields_of fields.now)) (value_of v.now) }
{
    let Value::Parts(parts) = v else {
        return false;
    };
    let parts = parts.as_slice();
    if parts.len() != fields.len() {
        return false;
    }
    for (i, part) in parts.iter().enumerate() {
        let (_, t) = &fields[i];
        if !value_fits(part, records, t) {
            return false;
        }
    }
    true
}
