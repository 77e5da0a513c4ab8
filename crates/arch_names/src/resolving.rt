//! The names of a whole file.
ghost use Rattle.std.specs.Prelude.{◌≡◌, ◌⊎◌, OnOk, IfOk, IfErr};
ghost use Rattle.tower_syntax.specs.RawView.{raw_of};
ghost use Rattle.tower_syntax.specs.NamedView.{named_of};
ghost use Rattle.arch_names.specs.Sites.{sites};
ghost use Rattle.arch_names.specs.Linked.{linked};
ghost use Rattle.arch_names.specs.Walk.{meant, IsMade, IsFault};
ghost use Rattle.arch_names.specs.Resolved.{Offences, IsLinked, IsClean, IsFirst};
ghost use Rattle.arch_names.specs.Written.{Ascends};
ghost use Rattle.arch_names.specs.declared.fault.NameFault.TheVariants.{NoMemory};

use crate::fault::NameFault;
use crate::items::name_items;
use crate::sets::file_names;
use std::alloc::Global;
use tower_syntax::{Named, Raw};

fn name_file(alloc: Global, raw: &Raw) -> Result<Named, NameFault>
    ensures ok { IfOk result (IsMade (sites (raw_of raw.now)) named_of (linked meant (raw_of raw.now))) }
    ensures err { IfErr result (IsFault (sites (raw_of raw.now))) }
{
    let file = file_names(alloc, raw.items.as_slice())?;
    let items = name_items(alloc, &file, raw.items.as_slice())?;
    let name = raw.name.copy(alloc)?;
    Ok(Named {
        at: raw.at,
        version: raw.version,
        name,
        items,
    })
}

/// The file with each used name linked to what it refers to, or the first fault of its names.
pub fn resolve(alloc: Global, raw: &Raw) -> Result<Named, NameFault>
    // There is no offence, and each use has the link that it means.
    ensures clean { OnOk result (IsClean (Offences (raw_of raw.now))) }
    ensures linked { IfOk result (λ named. IsLinked (raw_of raw.now) (named_of named)) }

    // A fault is an offence, and the one with the least offset where the names stand in text order.
    ensures fault { IfErr result (λ f. (f ≡ NoMemory) ⊎ Offences (raw_of raw.now) f) }
    ensures first { Ascends (raw_of raw.now) → IfErr result (λ f. (f ≡ NoMemory) ⊎ IsFirst (Offences (raw_of raw.now)) f) }
{
    let named = name_file(alloc, raw)?;
    Ok(named)
}
