//! Values as they are printed, from their trees.
ghost use Rattle.std.specs.Prelude.{◌≡◌, ◌<◌, ◌≤◌, [], ◌∷◌, ◌++◌, length, map, All};
ghost use Rattle.tower_types.specs.Ty.{NamesBelow, shape_of, shapes_of, depth};
ghost use Rattle.tower_types.specs.View.{ty_of, fields_of, value_of, all_values_of};
ghost use Rattle.tower_types.specs.Value.{num};
ghost use Rattle.tower_report.specs.Bytes.{spaced, line};
ghost use Rattle.tower_report.specs.Puts.{Puts, answer_of};
ghost use Rattle.tower_report.specs.ValueText.{shapes_in, shapes_depth, value_text, texts_of_values, each_text, parts_of};

use crate::pieces::{Written, answer, put_head, put_number, put_piece, put_separator};
use tower_io::{Put, Sink};
use tower_types::{Name, Records, Ty, Value};

/// Puts the value of a type that is this one.
pub fn put_value<O: Sink>(out: &mut O, records: &Records, t: &Ty, v: &Value) -> Put
    requires known { NamesBelow (length records.now) (ty_of t.now) }
    requires shallow { depth (shape_of records.now (ty_of t.now)) ≤ 32 }
    ensures { Puts O.written O.faults out.old out.new (value_text (shape_of records.now (ty_of t.now)) (value_of v.now)) result }
{
    answer(put_typed_value(out, records, t, v))
}

/// Puts a line of words, of which the last is this value of a type.
pub(crate) fn put_value_line<O: Sink>(
    out: &mut O,
    words: &[&[u8]],
    records: &Records,
    t: &Ty,
    v: &Value,
) -> Written
    requires some { 0 < length words.now }
    requires known { NamesBelow (length records.now) (ty_of t.now) }
    requires shallow { depth (shape_of records.now (ty_of t.now)) ≤ 32 }
    ensures { let text = value_text (shape_of records.now (ty_of t.now)) (value_of v.now) in
        Puts O.written O.faults out.old out.new (line (map (λ w. w.now) words.now ++ text ∷ [])) (answer_of result) }
{
    put_head(out, words)?;
    put_typed_value(out, records, t, v)?;
    put_piece(out, b"\n")?;
    Ok(())
}

/// Puts this value of a type.
#[cycle(values)]
pub(crate) fn put_typed_value<O: Sink>(out: &mut O, records: &Records, t: &Ty, v: &Value) -> Written
    requires known { NamesBelow (length records.now) (ty_of t.now) }
    requires shallow { depth (shape_of records.now (ty_of t.now)) ≤ 32 }
    ensures { Puts O.written O.faults out.old out.new (value_text (shape_of records.now (ty_of t.now)) (value_of v.now)) (answer_of result) }
{
    match t {
        Ty::Scalar(s) => put_number(out, *s, number(v)),
        Ty::Array(_, element) => {
            let elements = parts(v);
            put_piece(out, b"(")?;
            put_element_values(out, records, element.get(), elements)?;
            put_piece(out, b")")?;
            Ok(())
        }
        Ty::Rec(r) => {
            let fields = records.fields(*r);
            let values = parts(v);
            put_piece(out, b"(")?;
            put_field_values(out, records, fields, values)?;
            put_piece(out, b")")?;
            Ok(())
        }
    }
}

/// Puts the elements of an array.
#[cycle(values)]
fn put_element_values<O: Sink>(out: &mut O, records: &Records, t: &Ty, values: &[Value]) -> Written
    requires known { NamesBelow (length records.now) (ty_of t.now) }
    requires shallow { depth (shape_of records.now (ty_of t.now)) ≤ 31 }
    ensures { let s = shape_of records.now (ty_of t.now) in
        Puts O.written O.faults out.old out.new (spaced (each_text (value_text s) (all_values_of values.now))) (answer_of result) }
{
    for (i, value) in values.iter().enumerate() {
        put_separator(out, i)?;
        put_typed_value(out, records, t, value)?;
    }
    Ok(())
}

/// Puts the fields of a record, of which there are as many as values.
#[cycle(values)]
fn put_field_values<O: Sink>(
    out: &mut O,
    records: &Records,
    fields: &[(Name, Ty)],
    values: &[Value],
) -> Written
    requires known { All (λ f. NamesBelow (length records.now) f.1) (fields_of fields.now) }
    requires shallow { shapes_depth (shapes_in records.now (fields_of fields.now)) ≤ 31 }
    ensures { Puts O.written O.faults out.old out.new (spaced (texts_of_values (shapes_of (shapes_in records.now (fields_of fields.now))) (all_values_of values.now))) (answer_of result) }
{
    let count = fields.len().min(values.len());
    for i in 0..count {
        let (_, t) = &fields[i];
        put_separator(out, i)?;
        put_typed_value(out, records, t, &values[i])?;
    }
    Ok(())
}

/// The number of a value, or 0 at a list of values.
fn number(v: &Value) -> i128
    ensures { result ≡ num (value_of v.now) }
{
    match v {
        Value::Word(n) => *n,
        Value::Parts(_) => 0,
    }
}

/// The parts of a value; a number has none.
pub(crate) fn parts(v: &Value) -> &[Value]
    ensures { all_values_of result.now ≡ parts_of (value_of v.now) }
{
    match v {
        Value::Word(_) => &[],
        Value::Parts(parts) => parts.as_slice(),
    }
}
