//! Values as they are printed, from their words.
ghost use Rattle.std.specs.Prelude.{◌≡◌, ◌*◌, ◌<◌, ◌≤◌, [], ◌∷◌, ◌++◌, length, map, All};
ghost use Rattle.tower_types.specs.Ty.{NamesBelow, shape_of, shapes_of, depth, words as words_in};
ghost use Rattle.tower_types.specs.View.{ty_of, fields_of};
ghost use Rattle.tower_report.specs.Bytes.{spaced, line};
ghost use Rattle.tower_report.specs.Puts.{Puts, answer_of};
ghost use Rattle.tower_report.specs.ValueText.{words_text, texts_of_words, cut, shapes_in, shapes_depth, shapes_words};

use crate::pieces::{Written, answer, put_head, put_number, put_piece, put_separator};
use tower_io::{Put, Sink};
use tower_types::{Name, Records, Ty};

/// Puts the value of a type that has these words.
pub fn put_words<O: Sink>(out: &mut O, records: &Records, t: &Ty, words: &[i128]) -> Put
    requires known { NamesBelow (length records.now) (ty_of t.now) }
    requires shallow { depth (shape_of records.now (ty_of t.now)) ≤ 32 }
    requires whole { length words.now ≡ words_in (shape_of records.now (ty_of t.now)) }
    ensures { Puts O.written O.faults out.old out.new (words_text (shape_of records.now (ty_of t.now)) words.now) result }
{
    answer(put_typed_words(out, records, t, words))
}

/// Puts a line of words, of which the last is the value of a type that has the words `value`.
pub(crate) fn put_words_line<O: Sink>(
    out: &mut O,
    words: &[&[u8]],
    records: &Records,
    t: &Ty,
    value: &[i128],
) -> Written
    requires some { 0 < length words.now }
    requires known { NamesBelow (length records.now) (ty_of t.now) }
    requires shallow { depth (shape_of records.now (ty_of t.now)) ≤ 32 }
    requires whole { length value.now ≡ words_in (shape_of records.now (ty_of t.now)) }
    ensures { let text = words_text (shape_of records.now (ty_of t.now)) value.now in
        Puts O.written O.faults out.old out.new (line (map (λ w. w.now) words.now ++ text ∷ [])) (answer_of result) }
{
    put_head(out, words)?;
    put_typed_words(out, records, t, value)?;
    put_piece(out, b"\n")?;
    Ok(())
}

/// Puts the value of a type that has these words.
#[cycle(words)]
pub(crate) fn put_typed_words<O: Sink>(
    out: &mut O,
    records: &Records,
    t: &Ty,
    words: &[i128],
) -> Written
    requires known { NamesBelow (length records.now) (ty_of t.now) }
    requires shallow { depth (shape_of records.now (ty_of t.now)) ≤ 32 }
    requires whole { length words.now ≡ words_in (shape_of records.now (ty_of t.now)) }
    ensures { Puts O.written O.faults out.old out.new (words_text (shape_of records.now (ty_of t.now)) words.now) (answer_of result) }
{
    match t {
        Ty::Scalar(s) => put_number(out, *s, words[0]),
        Ty::Array(len, element) => {
            put_piece(out, b"(")?;
            put_element_words(out, records, element.get(), *len, words)?;
            put_piece(out, b")")?;
            Ok(())
        }
        Ty::Rec(r) => {
            let fields = records.fields(*r);
            put_piece(out, b"(")?;
            put_field_words(out, records, fields, words)?;
            put_piece(out, b")")?;
            Ok(())
        }
    }
}

/// Puts the elements of an array that has these words.
#[cycle(words)]
fn put_element_words<O: Sink>(
    out: &mut O,
    records: &Records,
    t: &Ty,
    len: u32,
    words: &[i128],
) -> Written
    requires known { NamesBelow (length records.now) (ty_of t.now) }
    requires shallow { depth (shape_of records.now (ty_of t.now)) ≤ 31 }
    requires whole { length words.now ≡ len * words_in (shape_of records.now (ty_of t.now)) }
    ensures { let s = shape_of records.now (ty_of t.now) in
        Puts O.written O.faults out.old out.new (spaced (map (words_text s) (cut len (words_in s) words.now))) (answer_of result) }
{
    let width = tower_types::words(records, t) as usize;
    let mut rest = words;
    for i in 0..len {
        let (element, more) = rest.split_at(width);
        put_separator(out, i as usize)?;
        put_typed_words(out, records, t, element)?;
        rest = more;
    }
    Ok(())
}

/// Puts the fields of a record that has these words.
#[cycle(words)]
fn put_field_words<O: Sink>(
    out: &mut O,
    records: &Records,
    fields: &[(Name, Ty)],
    words: &[i128],
) -> Written
    requires known { All (λ f. NamesBelow (length records.now) f.1) (fields_of fields.now) }
    requires shallow { shapes_depth (shapes_in records.now (fields_of fields.now)) ≤ 31 }
    requires whole { length words.now ≡ shapes_words (shapes_in records.now (fields_of fields.now)) }
    ensures { Puts O.written O.faults out.old out.new (spaced (texts_of_words (shapes_of (shapes_in records.now (fields_of fields.now))) words.now)) (answer_of result) }
{
    let mut rest = words;
    for (i, (_, t)) in fields.iter().enumerate() {
        let width = tower_types::words(records, t) as usize;
        let (field, more) = rest.split_at(width);
        put_separator(out, i)?;
        put_typed_words(out, records, t, field)?;
        rest = more;
    }
    Ok(())
}
