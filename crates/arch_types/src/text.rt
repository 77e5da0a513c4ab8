//! The text of a type. The functions that take `out` append to it; after an error it is of no use, and is dropped.
ghost use Rattle.std.specs.Prelude.{◌≡◌, [], ◌++◌, slice_index_or, OnOk, IfOk};
ghost use Rattle.tower_types.specs.View.{ty_of};
ghost use Rattle.tower_syntax.specs.Form.{text};
ghost use Rattle.tower_syntax.specs.Printed.{number_form};
ghost use Rattle.arch_types.specs.Wanted.{type_text};
ghost use Rattle.arch_types.specs.Seen.{type_in};

use crate::lent::TypeRef;
use itoa::Buffer;
use std::alloc::Global;
use tower_syntax::scalar_text;
use tower_types::{Name, NoMemory, Text, Ty};

fn put_number(out: &mut Vec<u8>, n: u32) -> Result<(), NoMemory>
    ensures { OnOk result (out.new.items ≡ out.old.items ++ text (number_form n)) }
{
    let mut buffer = Buffer::new();
    out.extend_from_slice(buffer.format(n).as_bytes())?;
    Ok(())
}

fn put_name(out: &mut Vec<u8>, names: &[Name], r: u32) -> Result<(), NoMemory>
    ensures { OnOk result (out.new.items ≡ out.old.items ++ slice_index_or names.now r []) }
{
    match names.get(r as usize) {
        Some(name) => out.extend_from_slice(name.bytes())?,
        None => {}
    }
    Ok(())
}

fn put_type(alloc: Global, out: &mut Vec<u8>, names: &[Name], ty: &Ty) -> Result<(), NoMemory>
    ensures { OnOk result (out.new.items ≡ out.old.items ++ type_text names.now (ty_of ty.now)) }
{
    match ty {
        Ty::Scalar(scalar) => {
            let word = scalar_text(alloc, *scalar)?;
            out.extend_from_slice(word.bytes())?;
        }
        Ty::Array(len, element) => {
            out.extend_from_slice(b"(array ")?;
            put_number(out, *len)?;
            out.extend_from_slice(b" ")?;
            put_type(alloc, out, names, element.get())?;
            out.extend_from_slice(b")")?;
        }
        Ty::Rec(r) => put_name(out, names, *r)?,
    }
    Ok(())
}

/// The text of a type as a file has it. The names are those of the records.
pub fn type_text(alloc: Global, names: &[Name], ty: TypeRef) -> Result<Text, NoMemory>
    ensures { IfOk result (λ shown. shown ≡ type_text names.now (type_in ty.entry)) }
{
    let ty = ty.copy(alloc)?;
    let mut out = Vec::new(alloc);
    put_type(alloc, &mut out, names, &ty)?;
    Text::new(alloc, out.as_slice())
}
