//! Values as the list of their numbers, and back.

ghost use Rattle.std.specs.Prelude.{◌≡◌, ◌+◌, ◌*◌, ◌≤◌, ◌++◌, drop, length, map, All, IsTrue, IfOk, OnOk};
ghost use Rattle.tower_types.specs.Ty.{many, table_of, shape_of, shape_of_fields, words, depth};
ghost use Rattle.tower_types.specs.Value.{flat, flat_all, value_depth, fits, scalars, fit_words, value_from};
ghost use Rattle.tower_types.specs.View.{ty_of, fields_of, value_of, all_values_of};
ghost use Rattle.tower_types.specs.Records.{IsTypeAmong};

use crate::{Name, NoMemory, Records, Ty, Value};
use sqlite_items::Items;
use std::alloc::Global;

/// The numbers of a value that is at most 32 deep, in order.
pub fn flatten(alloc: Global, v: &Value) -> Result<Vec<i128>, NoMemory>
    requires { value_depth (value_of v.now) ≤ 32 }
    ensures { IfOk result (λ numbers. numbers.items ≡ flat (value_of v.now)) }
{
    let mut numbers = Vec::new(alloc);
    append_numbers(&mut numbers, v)?;
    Ok(numbers)
}

#[cycle(flatten)]
fn append_numbers(numbers: &mut Vec<i128>, v: &Value) -> Result<(), NoMemory>
    ensures { OnOk result (numbers.new.items ≡ numbers.old.items ++ flat (value_of v.now)) }
{
    match v {
        Value::Word(n) => {
            numbers.push(*n)?;
            Ok(())
        }
        Value::Parts(parts) => append_all(numbers, parts.as_slice()),
    }
}

#[cycle(flatten)]
fn append_all(numbers: &mut Vec<i128>, parts: &[Value]) -> Result<(), NoMemory>
    ensures { OnOk result (numbers.new.items ≡ numbers.old.items ++ flat_all (all_values_of parts.now)) }
{
    for part in parts {
        append_numbers(numbers, part)?;
    }
    Ok(())
}

/// The value of the type that has these numbers, of which there are as many as the type has words,
/// each in the range of its scalar.
pub fn unflatten(
    alloc: Global,
    records: &Records,
    t: &Ty,
    numbers: &[i128],
) -> Result<Value, NoMemory>
    requires known { IsTypeAmong (length records.now) (ty_of t.now) }
    requires shallow { depth (shape_of records.now (ty_of t.now)) ≤ 32 }
    requires fit { IsTrue (fit_words (scalars (shape_of records.now (ty_of t.now))) numbers.now) }
    ensures fits { IfOk result (λ v. IsTrue (fits (shape_of records.now (ty_of t.now)) (value_of v))) }
    ensures numbers { IfOk result (λ v. flat (value_of v) ≡ numbers.now) }
{
    let mut at = 0;
    read_value(alloc, records, t, numbers, &mut at)
}

/// The value of the type that is made of the numbers from `at` on, which is moved behind them.
#[cycle(read)]
fn read_value(
    alloc: Global,
    records: &Records,
    t: &Ty,
    numbers: &[i128],
    at: &mut usize,
) -> Result<Value, NoMemory>
    requires known { IsTypeAmong (length records.now) (ty_of t.now) }
    requires room { at.old + words (shape_of records.now (ty_of t.now)) ≤ length numbers.now }
    ensures value { IfOk result (λ v.
        value_of v ≡ value_from (shape_of records.now (ty_of t.now)) (drop at.old numbers.now)) }
    ensures past { OnOk result (at.new ≡ at.old + words (shape_of records.now (ty_of t.now))) }
{
    match t {
        Ty::Scalar(_) => {
            let number = numbers[*at];
            *at += 1;
            Ok(Value::Word(number))
        }
        Ty::Array(len, element) => read_array(alloc, records, *len, element.get(), numbers, at),
        Ty::Rec(r) => read_record(alloc, records, records.fields(*r), numbers, at),
    }
}

#[cycle(read)]
fn read_array(
    alloc: Global,
    records: &Records,
    len: u32,
    t: &Ty,
    numbers: &[i128],
    at: &mut usize,
) -> Result<Value, NoMemory>
    requires known { IsTypeAmong (length records.now) (ty_of t.now) }
    requires room { at.old + len * words (shape_of records.now (ty_of t.now)) ≤ length numbers.now }
    ensures value { IfOk result (λ v.
        value_of v ≡ value_from (many len (shape_of records.now (ty_of t.now))) (drop at.old numbers.now)) }
    ensures past { OnOk result (at.new ≡ at.old + len * words (shape_of records.now (ty_of t.now))) }
{
    let mut parts = Items::new(alloc);
    for _i in 0..len {
        let part = read_value(alloc, records, t, numbers, at)?;
        parts.push(part)?;
    }
    Ok(Value::Parts(parts))
}

#[cycle(read)]
fn read_record(
    alloc: Global,
    records: &Records,
    fields: &[(Name, Ty)],
    numbers: &[i128],
    at: &mut usize,
) -> Result<Value, NoMemory>
    requires known { All (λ f. IsTypeAmong (length records.now) f.1) (fields_of fields.now) }
    requires room { at.old + words (shape_of_fields (table_of records.now) (fields_of fields.now)) ≤ length numbers.now }
    ensures value { IfOk result (λ v.
        value_of v ≡ value_from (shape_of_fields (table_of records.now) (fields_of fields.now)) (drop at.old numbers.now)) }
    ensures past { OnOk result (at.new ≡ at.old + words (shape_of_fields (table_of records.now) (fields_of fields.now))) }
{
    let mut parts = Items::new(alloc);
    for (_, t) in fields {
        let part = read_value(alloc, records, t, numbers, at)?;
        parts.push(part)?;
    }
    Ok(Value::Parts(parts))
}
