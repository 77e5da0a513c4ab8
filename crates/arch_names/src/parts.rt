//! The parts of records and monitors with their names looked up.
ghost use Rattle.std.specs.Prelude.{◌≡◌, ◌⊎◌, [], ◌∷◌, ◌++◌, map, Some, IfOk, IfErr};
ghost use Rattle.tower_syntax.specs.RawView.{id_of, raw_field_of, raw_hpart_of, raw_part_of, raw_item_of, all_raw_stmts_of};
ghost use Rattle.tower_syntax.specs.NamedView.{named_field_of, named_hpart_of, named_part_of, named_item_of, all_named_stmts_of};
ghost use Rattle.arch_names.specs.Names.{find};
ghost use Rattle.arch_names.specs.Sets.{each, fields_of, states_of};
ghost use Rattle.arch_names.specs.Sites.{around_of, around, in_scope, no_names, new_name, entry, all_sites, hpart_sites, part_sites, field_sites, item_sites};
ghost use Rattle.arch_names.specs.Linked.{linked_all, linked_hpart, linked_part, linked_field, linked_item};
ghost use Rattle.arch_names.specs.Walk.{meant, IsMade, IsFault};

use crate::exprs::name_type;
use crate::fault::{NameFault, Sort};
use crate::names::{Declared, Names, Scope, Thing};
use crate::sets::{emitter_names, field_names, state_names};
use crate::stmts::name_stmts;
use crate::uses::{bound_once, declared_once, refer};
use sqlite_items::Items;
use std::alloc::Global;
use tower_syntax::{
    Id, NamedField, NamedHpart, NamedItem, NamedPart, NamedStmt, RawField, RawHpart, RawItem,
    RawPart, RawStmt, Target,
};

fn name_field(
    alloc: Global,
    file: &Names<Thing>,
    record_at: u32,
    names: &Names<()>,
    field: &RawField,
) -> Result<NamedField, NameFault>
    ensures ok { IfOk result (IsMade (field_sites (find file.now) record_at (find names.now) (raw_field_of field.now)) named_field_of (linked_field meant (find file.now) record_at (raw_field_of field.now))) }
    ensures err { IfErr result (IsFault (field_sites (find file.now) record_at (find names.now) (raw_field_of field.now))) }
{
    declared_once(names, &field.name)?;
    let ty = name_type(alloc, file, Some(record_at), &field.ty)?;
    let name = field.name.copy(alloc)?;
    Ok(NamedField {
        at: field.at,
        name,
        ty,
    })
}

fn each_field(
    alloc: Global,
    file: &Names<Thing>,
    record_at: u32,
    names: &Names<()>,
    fields: &[RawField],
) -> Result<Items<NamedField>, NameFault>
    ensures ok { let fs = map raw_field_of fields.now in IfOk result (IsMade (each (field_sites (find file.now) record_at (find names.now)) fs) (map named_field_of) (map (linked_field meant (find file.now) record_at) fs)) }
    ensures err { IfErr result (IsFault (each (field_sites (find file.now) record_at (find names.now)) (map raw_field_of fields.now))) }
{
    let mut made = Items::new(alloc);
    for field in fields {
        let field = name_field(alloc, file, record_at, names, field)?;
        made.push(field)?;
    }
    Ok(made)
}

/// The fields of a record, which is declared at an offset.
pub fn name_fields(
    alloc: Global,
    file: &Names<Thing>,
    record_at: u32,
    fields: &[RawField],
) -> Result<Items<NamedField>, NameFault>
    ensures ok { let fs = map raw_field_of fields.now in IfOk result (IsMade (each (field_sites (find file.now) record_at (find (fields_of fs))) fs) (map named_field_of) (map (linked_field meant (find file.now) record_at) fs)) }
    ensures err { let fs = map raw_field_of fields.now in IfErr result (IsFault (each (field_sites (find file.now) record_at (find (fields_of fs))) fs)) }
{
    let names = field_names(alloc, fields)?;
    let made = each_field(alloc, file, record_at, &names, fields)?;
    Ok(made)
}

/// A callback's statements. Its own name is in scope throughout.
fn name_body(
    alloc: Global,
    file: &Names<Thing>,
    states: &Names<Target>,
    emitters: &Names<Target>,
    id: &Id,
    stmts: &[RawStmt],
) -> Result<Items<NamedStmt>, NameFault>
    ensures ok { let a = around_of (find file.now) (find states.now) (find emitters.now) in IfOk result (IsMade (new_name (in_scope (find states.now) no_names) (id_of id.now) ∷ all_sites a (entry (id_of id.now)) (all_raw_stmts_of stmts.now)) all_named_stmts_of (linked_all meant a (entry (id_of id.now)) (all_raw_stmts_of stmts.now))) }
    ensures err { let a = around_of (find file.now) (find states.now) (find emitters.now) in IfErr result (IsFault (new_name (in_scope (find states.now) no_names) (id_of id.now) ∷ all_sites a (entry (id_of id.now)) (all_raw_stmts_of stmts.now))) }
{
    let mut scope = Scope {
        names: Names::new(alloc),
        binders: 0,
    };
    bound_once(states, &scope, id)?;
    let declared = Declared {
        at: id.at,
        what: Target::Param,
    };
    scope.names.declare(alloc, &id.name, declared)?;
    let made = name_stmts(alloc, file, states, emitters, &mut scope, stmts)?;
    Ok(made)
}

fn name_hpart(
    alloc: Global,
    file: &Names<Thing>,
    states: &Names<Target>,
    emitters: &Names<Target>,
    part: &RawHpart,
) -> Result<NamedHpart, NameFault>
    ensures ok { let a = around_of (find file.now) (find states.now) (find emitters.now) in IfOk result (IsMade (hpart_sites a (raw_hpart_of part.now)) named_hpart_of (linked_hpart meant a (raw_hpart_of part.now))) }
    ensures err { let a = around_of (find file.now) (find states.now) (find emitters.now) in IfErr result (IsFault (hpart_sites a (raw_hpart_of part.now))) }
{
    match part {
        RawHpart::Emitter {
            at,
            name,
            channel,
            bound,
        } => {
            declared_once(emitters, name)?;
            let channel = refer(file, Sort::Channel, channel)?;
            let name = name.copy(alloc)?;
            Ok(NamedHpart::Emitter {
                at: *at,
                name,
                channel,
                bound: *bound,
            })
        }
        RawHpart::Callback { at, name, stmts } => {
            let stmts = name_body(alloc, file, states, emitters, name, stmts.as_slice())?;
            let name = name.copy(alloc)?;
            Ok(NamedHpart::Callback {
                at: *at,
                name,
                stmts,
            })
        }
    }
}

fn each_hpart(
    alloc: Global,
    file: &Names<Thing>,
    states: &Names<Target>,
    emitters: &Names<Target>,
    parts: &[RawHpart],
) -> Result<Items<NamedHpart>, NameFault>
    ensures ok { let hs = map raw_hpart_of parts.now in let a = around_of (find file.now) (find states.now) (find emitters.now) in IfOk result (IsMade (each (hpart_sites a) hs) (map named_hpart_of) (map (linked_hpart meant a) hs)) }
    ensures err { IfErr result (IsFault (each (hpart_sites (around_of (find file.now) (find states.now) (find emitters.now))) (map raw_hpart_of parts.now))) }
{
    let mut made = Items::new(alloc);
    for part in parts {
        let part = name_hpart(alloc, file, states, emitters, part)?;
        made.push(part)?;
    }
    Ok(made)
}

/// The parts of a handler.
fn name_hparts(
    alloc: Global,
    file: &Names<Thing>,
    states: &Names<Target>,
    parts: &[RawHpart],
) -> Result<Items<NamedHpart>, NameFault>
    ensures ok { let hs = map raw_hpart_of parts.now in let a = around (find file.now) (find states.now) hs in IfOk result (IsMade (each (hpart_sites a) hs) (map named_hpart_of) (map (linked_hpart meant a) hs)) }
    ensures err { let hs = map raw_hpart_of parts.now in IfErr result (IsFault (each (hpart_sites (around (find file.now) (find states.now) hs)) hs)) }
{
    let emitters = emitter_names(alloc, parts)?;
    let made = each_hpart(alloc, file, states, &emitters, parts)?;
    Ok(made)
}

fn name_part(
    alloc: Global,
    file: &Names<Thing>,
    states: &Names<Target>,
    part: &RawPart,
) -> Result<NamedPart, NameFault>
    ensures ok { IfOk result (IsMade (part_sites (find file.now) (find states.now) (raw_part_of part.now)) named_part_of (linked_part meant (find file.now) (find states.now) (raw_part_of part.now))) }
    ensures err { IfErr result (IsFault (part_sites (find file.now) (find states.now) (raw_part_of part.now))) }
{
    match part {
        RawPart::State { at, name, ty } => {
            declared_once(states, name)?;
            let ty = name_type(alloc, file, None, ty)?;
            let name = name.copy(alloc)?;
            Ok(NamedPart::State { at: *at, name, ty })
        }
        RawPart::Handler {
            at,
            name,
            on,
            parts,
        } => {
            declared_once(file, name)?;
            let on = refer(file, Sort::SourceOrChannel, on)?;
            let parts = name_hparts(alloc, file, states, parts.as_slice())?;
            let name = name.copy(alloc)?;
            Ok(NamedPart::Handler {
                at: *at,
                name,
                on,
                parts,
            })
        }
    }
}

fn each_part(
    alloc: Global,
    file: &Names<Thing>,
    states: &Names<Target>,
    parts: &[RawPart],
) -> Result<Items<NamedPart>, NameFault>
    ensures ok { let ps = map raw_part_of parts.now in IfOk result (IsMade (each (part_sites (find file.now) (find states.now)) ps) (map named_part_of) (map (linked_part meant (find file.now) (find states.now)) ps)) }
    ensures err { IfErr result (IsFault (each (part_sites (find file.now) (find states.now)) (map raw_part_of parts.now))) }
{
    let mut made = Items::new(alloc);
    for part in parts {
        let part = name_part(alloc, file, states, part)?;
        made.push(part)?;
    }
    Ok(made)
}

/// The parts of a monitor.
pub fn name_parts(
    alloc: Global,
    file: &Names<Thing>,
    parts: &[RawPart],
) -> Result<Items<NamedPart>, NameFault>
    ensures ok { let ps = map raw_part_of parts.now in IfOk result (IsMade (each (part_sites (find file.now) (find (states_of ps))) ps) (map named_part_of) (map (linked_part meant (find file.now) (find (states_of ps))) ps)) }
    ensures err { let ps = map raw_part_of parts.now in IfErr result (IsFault (each (part_sites (find file.now) (find (states_of ps))) ps)) }
{
    let states = state_names(alloc, parts)?;
    let made = each_part(alloc, file, &states, parts)?;
    Ok(made)
}
