//! A file's tree as one line. The functions that take `out` append to it; after an error it is of no use, and is
//! dropped.

ghost use Rattle.std.specs.Prelude.{◌≡◌, [], ◌∷◌, ◌++◌, codes, map, OnOk, IfOk, string_bytes};
ghost use Rattle.tower_syntax.specs.RawView.{raw_type_of, raw_place_of, raw_expr_of, raw_stmt_of, all_raw_stmts_of, raw_field_of, raw_hpart_of, raw_part_of, raw_item_of, raw_of, id_of};
ghost use Rattle.tower_syntax.specs.Form.{atom, row, text, spaced, all_spaced};
ghost use Rattle.tower_syntax.specs.Printed.{name_form, number_form, signed_form, scalar_form, size_forms, type_form, place_form, expr_form, stmt_form, stmt_forms, field_form, hpart_form, part_form, depth_forms, item_form, raw_form};
ghost use Rattle.tower_syntax.specs.Words as spelled;
ghost use Rattle.tower_syntax.specs.Printable.{IsPrintable};

use crate::raw::{
    Id, Raw, RawExpr, RawField, RawHpart, RawItem, RawPart, RawPlace, RawStmt, RawType,
};
use crate::words::{binary_word, scalar_word, tower_word, truth_word, unary_word};
use itoa::Buffer;
use std::alloc::Global;
use tower_types::{NoMemory, Scalar, Text};

/// A blank and an atom.
fn put_atom(out: &mut Vec<u8>, word: &[u8]) -> Result<(), NoMemory>
    ensures { OnOk result (out.new.items ≡ out.old.items ++ spaced (atom word.now)) }
{
    out.extend_from_slice(b" ")?;
    out.extend_from_slice(word)?;
    Ok(())
}

/// A blank and the beginning of a list.
fn open(out: &mut Vec<u8>, head: &str) -> Result<(), NoMemory>
    ensures { OnOk result (out.new.items ≡ out.old.items ++ codes " (" ++ head.now) }
{
    out.extend_from_slice(b" (")?;
    out.extend_from_slice(head.as_bytes())?;
    Ok(())
}

/// The end of a list.
fn close(out: &mut Vec<u8>) -> Result<(), NoMemory>
    ensures { OnOk result (out.new.items ≡ out.old.items ++ codes ")") }
{
    out.extend_from_slice(b")")?;
    Ok(())
}

fn put_name(out: &mut Vec<u8>, id: &Id) -> Result<(), NoMemory>
    ensures { OnOk result (out.new.items ≡ out.old.items ++ spaced (name_form (id_of id.now))) }
{
    put_atom(out, id.name.bytes())?;
    Ok(())
}

fn put_number(out: &mut Vec<u8>, n: u32) -> Result<(), NoMemory>
    ensures { OnOk result (out.new.items ≡ out.old.items ++ spaced (number_form n)) }
{
    let mut buffer = Buffer::new();
    put_atom(out, buffer.format(n).as_bytes())?;
    Ok(())
}

fn put_signed(out: &mut Vec<u8>, n: i128) -> Result<(), NoMemory>
    ensures { OnOk result (out.new.items ≡ out.old.items ++ spaced (signed_form n)) }
{
    let mut buffer = Buffer::new();
    put_atom(out, buffer.format(n).as_bytes())?;
    Ok(())
}

fn put_scalar(out: &mut Vec<u8>, scalar: Scalar) -> Result<(), NoMemory>
    ensures { OnOk result (out.new.items ≡ out.old.items ++ spaced (scalar_form scalar)) }
{
    out.extend_from_slice(b" ")?;
    append_scalar(out, scalar)?;
    Ok(())
}

/// A scalar with no blank before it.
fn append_scalar(out: &mut Vec<u8>, scalar: Scalar) -> Result<(), NoMemory>
    ensures { OnOk result (out.new.items ≡ out.old.items ++ text (scalar_form scalar)) }
{
    if let Scalar::Ix(n) = scalar {
        out.extend_from_slice(b"(ix")?;
        put_number(out, n)?;
        close(out)?;
    } else {
        out.extend_from_slice(scalar_word(scalar).as_bytes())?;
    }
    Ok(())
}

fn put_type(out: &mut Vec<u8>, ty: &RawType) -> Result<(), NoMemory>
    ensures { OnOk result (out.new.items ≡ out.old.items ++ spaced (type_form (raw_type_of ty.now))) }
{
    match ty {
        RawType::Word { scalar, .. } => put_scalar(out, *scalar)?,
        RawType::Rec(name) => put_name(out, name)?,
        RawType::Array { len, item, .. } => {
            open(out, "array")?;
            put_number(out, *len)?;
            put_type(out, item.get())?;
            close(out)?;
        }
    }
    Ok(())
}

fn put_literal(out: &mut Vec<u8>, scalar: Scalar, value: i128) -> Result<(), NoMemory>
    ensures { OnOk result (out.new.items
        ≡ out.old.items ++ spaced (row (spelled.scalar_word scalar) (size_forms scalar ++ signed_form value ∷ []))) }
{
    open(out, scalar_word(scalar))?;
    if let Scalar::Ix(n) = scalar {
        put_number(out, n)?;
    }
    put_signed(out, value)?;
    close(out)?;
    Ok(())
}

#[cycle(value)]
fn put_place(out: &mut Vec<u8>, place: &RawPlace) -> Result<(), NoMemory>
    ensures { OnOk result (out.new.items ≡ out.old.items ++ spaced (place_form (raw_place_of place.now))) }
{
    match place {
        RawPlace::Root(name) => put_name(out, name)?,
        RawPlace::Get { base, field, .. } => {
            open(out, "get")?;
            put_place(out, base.get())?;
            put_name(out, field)?;
            close(out)?;
        }
        RawPlace::At { base, index, .. } => {
            open(out, "at")?;
            put_place(out, base.get())?;
            put_expr(out, index.get())?;
            close(out)?;
        }
    }
    Ok(())
}

#[cycle(value)]
fn put_expr(out: &mut Vec<u8>, expr: &RawExpr) -> Result<(), NoMemory>
    ensures { OnOk result (out.new.items ≡ out.old.items ++ spaced (expr_form (raw_expr_of expr.now))) }
{
    match expr {
        RawExpr::Truth { yes, .. } => put_atom(out, truth_word(*yes).as_bytes())?,
        RawExpr::Read(place) => put_place(out, place)?,
        RawExpr::Lit { scalar, value, .. } => put_literal(out, *scalar, *value)?,
        RawExpr::Un { op, a, .. } => {
            open(out, unary_word(*op))?;
            put_expr(out, a.get())?;
            close(out)?;
        }
        RawExpr::Bin { op, a, b, .. } => {
            open(out, binary_word(*op))?;
            put_expr(out, a.get())?;
            put_expr(out, b.get())?;
            close(out)?;
        }
        RawExpr::Cond { test, yes, no, .. } => {
            open(out, "cond")?;
            put_expr(out, test.get())?;
            put_expr(out, yes.get())?;
            put_expr(out, no.get())?;
            close(out)?;
        }
        RawExpr::Cast { ty, a, .. } => {
            open(out, "cast")?;
            put_type(out, ty)?;
            put_expr(out, a.get())?;
            close(out)?;
        }
    }
    Ok(())
}

/// A list of a name and a type.
fn put_named_type(out: &mut Vec<u8>, head: &str, name: &Id, ty: &RawType) -> Result<(), NoMemory>
    ensures { OnOk result (out.new.items
        ≡ out.old.items ++ spaced (row head.now
        (name_form (id_of name.now) ∷ type_form (raw_type_of ty.now) ∷ []))) }
{
    open(out, head)?;
    put_name(out, name)?;
    put_type(out, ty)?;
    close(out)?;
    Ok(())
}

/// A list of a name and an expression.
fn put_named_expr(out: &mut Vec<u8>, head: &str, name: &Id, expr: &RawExpr) -> Result<(), NoMemory>
    ensures { OnOk result (out.new.items
        ≡ out.old.items ++ spaced (row head.now
        (name_form (id_of name.now) ∷ expr_form (raw_expr_of expr.now) ∷ []))) }
{
    open(out, head)?;
    put_name(out, name)?;
    put_expr(out, expr)?;
    close(out)?;
    Ok(())
}

#[cycle(statements)]
fn put_stmts(out: &mut Vec<u8>, stmts: &[RawStmt]) -> Result<(), NoMemory>
    ensures { OnOk result (out.new.items
        ≡ out.old.items ++ all_spaced (stmt_forms (all_raw_stmts_of stmts.now))) }
{
    for stmt in stmts {
        put_stmt(out, stmt)?;
    }
    Ok(())
}

#[cycle(statements)]
fn put_stmt(out: &mut Vec<u8>, stmt: &RawStmt) -> Result<(), NoMemory>
    ensures { OnOk result (out.new.items ≡ out.old.items ++ spaced (stmt_form (raw_stmt_of stmt.now))) }
{
    match stmt {
        RawStmt::Bind { name, value, .. } => put_named_expr(out, "let", name, value)?,
        RawStmt::Local { name, ty, .. } => put_named_type(out, "local", name, ty)?,
        RawStmt::Set { place, value, .. } => {
            open(out, "set")?;
            put_place(out, place)?;
            put_expr(out, value)?;
            close(out)?;
        }
        RawStmt::Copy { to, from, .. } => {
            open(out, "copy")?;
            put_place(out, to)?;
            put_place(out, from)?;
            close(out)?;
        }
        RawStmt::Branch { test, yes, no, .. } => {
            open(out, "if")?;
            put_expr(out, test)?;
            put_block(out, "then", yes.as_slice())?;
            put_block(out, "else", no.as_slice())?;
            close(out)?;
        }
        RawStmt::Loop {
            name,
            times,
            body,
            ..
        } => put_loop(out, name, *times, body.as_slice())?,
        RawStmt::Emit { emitter, value, .. } => put_named_expr(out, "emit", emitter, value)?,
    }
    Ok(())
}

#[cycle(statements)]
fn put_loop(out: &mut Vec<u8>, name: &Id, times: u32, body: &[RawStmt]) -> Result<(), NoMemory>
    ensures { OnOk result (out.new.items
        ≡ out.old.items ++ spaced (row (codes "for")
        (name_form (id_of name.now) ∷ number_form times ∷ stmt_forms (all_raw_stmts_of body.now)))) }
{
    open(out, "for")?;
    put_name(out, name)?;
    put_number(out, times)?;
    put_stmts(out, body)?;
    close(out)?;
    Ok(())
}

/// A list of statements with a head.
#[cycle(statements)]
fn put_block(out: &mut Vec<u8>, head: &str, stmts: &[RawStmt]) -> Result<(), NoMemory>
    ensures { OnOk result (out.new.items
        ≡ out.old.items ++ spaced (row head.now (stmt_forms (all_raw_stmts_of stmts.now)))) }
{
    open(out, head)?;
    put_stmts(out, stmts)?;
    close(out)?;
    Ok(())
}

fn put_field(out: &mut Vec<u8>, field: &RawField) -> Result<(), NoMemory>
    ensures { OnOk result (out.new.items ≡ out.old.items ++ spaced (field_form (raw_field_of field.now))) }
{
    put_named_type(out, "field", &field.name, &field.ty)?;
    Ok(())
}

fn put_fields(out: &mut Vec<u8>, fields: &[RawField]) -> Result<(), NoMemory>
    ensures { OnOk result (out.new.items
        ≡ out.old.items ++ all_spaced (map field_form (map raw_field_of fields.now))) }
{
    for field in fields {
        put_field(out, field)?;
    }
    Ok(())
}

fn put_callback(out: &mut Vec<u8>, name: &Id, stmts: &[RawStmt]) -> Result<(), NoMemory>
    ensures { OnOk result (out.new.items
        ≡ out.old.items ++ spaced (row (codes "callback")
        (name_form (id_of name.now) ∷ stmt_forms (all_raw_stmts_of stmts.now)))) }
{
    open(out, "callback")?;
    put_name(out, name)?;
    put_stmts(out, stmts)?;
    close(out)?;
    Ok(())
}

fn put_hpart(out: &mut Vec<u8>, part: &RawHpart) -> Result<(), NoMemory>
    ensures { OnOk result (out.new.items ≡ out.old.items ++ spaced (hpart_form (raw_hpart_of part.now))) }
{
    match part {
        RawHpart::Emitter {
            name,
            channel,
            bound,
            ..
        } => {
            open(out, "emitter")?;
            put_name(out, name)?;
            put_name(out, channel)?;
            put_number(out, *bound)?;
            close(out)?;
        }
        RawHpart::Callback { name, stmts, .. } => put_callback(out, name, stmts.as_slice())?,
    }
    Ok(())
}

fn put_hparts(out: &mut Vec<u8>, parts: &[RawHpart]) -> Result<(), NoMemory>
    ensures { OnOk result (out.new.items
        ≡ out.old.items ++ all_spaced (map hpart_form (map raw_hpart_of parts.now))) }
{
    for part in parts {
        put_hpart(out, part)?;
    }
    Ok(())
}

fn put_part(out: &mut Vec<u8>, part: &RawPart) -> Result<(), NoMemory>
    ensures { OnOk result (out.new.items ≡ out.old.items ++ spaced (part_form (raw_part_of part.now))) }
{
    match part {
        RawPart::State { name, ty, .. } => put_named_type(out, "state", name, ty)?,
        RawPart::Handler {
            name,
            on,
            parts,
            ..
        } => {
            open(out, "handler")?;
            put_name(out, name)?;
            put_name(out, on)?;
            put_hparts(out, parts.as_slice())?;
            close(out)?;
        }
    }
    Ok(())
}

fn put_parts(out: &mut Vec<u8>, parts: &[RawPart]) -> Result<(), NoMemory>
    ensures { OnOk result (out.new.items
        ≡ out.old.items ++ all_spaced (map part_form (map raw_part_of parts.now))) }
{
    for part in parts {
        put_part(out, part)?;
    }
    Ok(())
}

fn put_output(out: &mut Vec<u8>, name: &Id, channel: &Id) -> Result<(), NoMemory>
    ensures { OnOk result (out.new.items
        ≡ out.old.items ++ spaced (row (codes "output")
        (name_form (id_of name.now) ∷ name_form (id_of channel.now) ∷ []))) }
{
    open(out, "output")?;
    put_name(out, name)?;
    put_name(out, channel)?;
    close(out)?;
    Ok(())
}

fn put_record(out: &mut Vec<u8>, name: &Id, fields: &[RawField]) -> Result<(), NoMemory>
    ensures { OnOk result (out.new.items
        ≡ out.old.items ++ spaced (row (codes "record")
        (name_form (id_of name.now) ∷ map field_form (map raw_field_of fields.now)))) }
{
    open(out, "record")?;
    put_name(out, name)?;
    put_fields(out, fields)?;
    close(out)?;
    Ok(())
}

fn put_monitor(out: &mut Vec<u8>, name: &Id, parts: &[RawPart]) -> Result<(), NoMemory>
    ensures { OnOk result (out.new.items
        ≡ out.old.items ++ spaced (row (codes "monitor")
        (name_form (id_of name.now) ∷ map part_form (map raw_part_of parts.now)))) }
{
    open(out, "monitor")?;
    put_name(out, name)?;
    put_parts(out, parts)?;
    close(out)?;
    Ok(())
}

/// A priority, and the depth of the queue where it has one.
fn put_queue(out: &mut Vec<u8>, priority: u8, depth: Option<u32>) -> Result<(), NoMemory>
    ensures { OnOk result (out.new.items
        ≡ out.old.items ++ all_spaced (number_form priority ∷ depth_forms depth)) }
{
    put_number(out, u32::from(priority))?;
    if let Some(n) = depth {
        put_number(out, n)?;
    }
    Ok(())
}

fn put_item(out: &mut Vec<u8>, item: &RawItem) -> Result<(), NoMemory>
    ensures { OnOk result (out.new.items ≡ out.old.items ++ spaced (item_form (raw_item_of item.now))) }
{
    match item {
        RawItem::Record { name, fields, .. } => put_record(out, name, fields.as_slice())?,
        RawItem::Init { name, priority, .. } => {
            open(out, "init")?;
            put_name(out, name)?;
            put_number(out, u32::from(*priority))?;
            close(out)?;
        }
        RawItem::Period {
            name,
            ms,
            priority,
            depth,
            ..
        } => {
            open(out, "period")?;
            put_name(out, name)?;
            put_number(out, *ms)?;
            put_queue(out, *priority, *depth)?;
            close(out)?;
        }
        RawItem::Signal {
            name,
            message,
            priority,
            depth,
            ..
        } => {
            open(out, "signal")?;
            put_name(out, name)?;
            put_type(out, message)?;
            put_queue(out, *priority, *depth)?;
            close(out)?;
        }
        RawItem::Channel { name, message, .. } => put_named_type(out, "channel", name, message)?,
        RawItem::Output { name, channel, .. } => put_output(out, name, channel)?,
        RawItem::Monitor { name, parts, .. } => put_monitor(out, name, parts.as_slice())?,
    }
    Ok(())
}

fn put_items(out: &mut Vec<u8>, items: &[RawItem]) -> Result<(), NoMemory>
    ensures { OnOk result (out.new.items
        ≡ out.old.items ++ all_spaced (map item_form (map raw_item_of items.now))) }
{
    for item in items {
        put_item(out, item)?;
    }
    Ok(())
}

/// The text of a scalar as a file has it, `u8` or `(ix 4)`.
pub fn scalar_text(alloc: Global, scalar: Scalar) -> Result<Text, NoMemory>
    ensures { IfOk result (λ t. t ≡ text (scalar_form scalar)) }
{
    let mut out = Vec::new(alloc);
    append_scalar(&mut out, scalar)?;
    Text::new(alloc, out.as_slice())
}

/// The bytes of the line.
fn line_of(alloc: Global, raw: &Raw) -> Result<Vec<u8>, NoMemory>
    ensures { IfOk result (λ bytes. bytes.items ≡ text (raw_form (raw_of raw.now))) }
{
    let mut out = Vec::from_slice(alloc, b"(")?;
    out.extend_from_slice(tower_word(raw.version).as_bytes())?;
    put_name(&mut out, &raw.name)?;
    put_items(&mut out, raw.items.as_slice())?;
    close(&mut out)?;
    Ok(out)
}

/// The file as one line: lists with one blank between their children, and no byte behind the last bracket.
pub fn print(alloc: Global, raw: &Raw) -> Result<String, NoMemory>
    requires { IsPrintable (raw_of raw.now) }
    ensures { IfOk result (λ line. string_bytes line ≡ text (raw_form (raw_of raw.now))) }
{
    let bytes = line_of(alloc, raw)?;
    match String::from_utf8(bytes) {
        Ok(line) => Ok(line),
        Err(_) => unreachable!(),
    }
}

#[cfg(test)]
mod tests;
