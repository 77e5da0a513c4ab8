//! The zero values of types.
ghost use Rattle.std.specs.Prelude.{◌≡◌, All, IfOk, length, map, replicate};
ghost use Rattle.tower_types.specs.Records.{IsTypeAmong};
ghost use Rattle.tower_types.specs.Ty.{shape_of, table_of};
ghost use Rattle.tower_types.specs.Value.{zero_of};
ghost use Rattle.tower_types.specs.View.{ty_of, fields_of};
ghost use Rattle.tower_meaning.specs.Body.{zeros_of_fields};
ghost use Rattle.atomic_state.specs.TreeView.{tree_of};

use crate::tree::Tree;
use std::alloc::Global;
use tower_types::{Name, NoMemory, Records, Ty};

/// The zero value of a type.
#[cycle(zero)]
fn zero(alloc: Global, records: &Records, t: &Ty) -> Result<Tree, NoMemory>
    requires { IsTypeAmong (length records.now) (ty_of t.now) }
    ensures { IfOk result (λ z. tree_of z ≡ zero_of (shape_of records.now (ty_of t.now))) }
{
    match t {
        Ty::Scalar(_) => Ok(Tree::Word(0)),
        Ty::Array(len, element) => {
            let parts = zero_elements(alloc, records, *len, element.get())?;
            Ok(Tree::Parts(parts))
        }
        Ty::Rec(r) => {
            let parts = zero_fields(alloc, records, records.fields(*r))?;
            Ok(Tree::Parts(parts))
        }
    }
}

#[cycle(zero)]
fn zero_elements(alloc: Global, records: &Records, len: u32, t: &Ty) -> Result<Vec<Tree>, NoMemory>
    requires { IsTypeAmong (length records.now) (ty_of t.now) }
    ensures { IfOk result (λ zs. map tree_of zs.items ≡ replicate len (zero_of (shape_of records.now (ty_of t.now)))) }
{
    let mut zeros = Vec::new(alloc);
    for _i in 0..len {
        let part = zero(alloc, records, t)?;
        zeros.push(part)?;
    }
    Ok(zeros)
}

/// The zero value of each field.
#[cycle(zero)]
pub fn zero_fields(
    alloc: Global,
    records: &Records,
    fields: &[(Name, Ty)],
) -> Result<Vec<Tree>, NoMemory>
    requires { All (λ f. IsTypeAmong (length records.now) f.1) (fields_of fields.now) }
    ensures { IfOk result (λ zs. map tree_of zs.items ≡ zeros_of_fields (table_of records.now) (fields_of fields.now)) }
{
    let mut zeros = Vec::new(alloc);
    for (_, t) in fields {
        let part = zero(alloc, records, t)?;
        zeros.push(part)?;
    }
    Ok(zeros)
}
