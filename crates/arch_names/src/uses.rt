//! What a used name refers to, and whether a declared one is new.
ghost use Rattle.std.specs.Prelude.{◌≡◌, [], ◌∷◌, None, OnOk, IfOk, IfErr};
ghost use Rattle.tower_syntax.specs.RawView.{id_of};
ghost use Rattle.tower_syntax.specs.NamedView.{link_of};
ghost use Rattle.arch_names.specs.Names.{find};
ghost use Rattle.arch_names.specs.Site.{refers, part_type, picks};
ghost use Rattle.arch_names.specs.Sites.{own, new_name, in_scope};
ghost use Rattle.arch_names.specs.Linked.{link};
ghost use Rattle.arch_names.specs.Walk.{first, meant, IsMade, IsFault};

use crate::fault::{NameFault, Sort};
use crate::names::{Declared, Names, Scope, Thing};
use tower_syntax::{Id, Link, Target};
use tower_types::Name;

/// The use of a name of the file's set where this sort is wanted.
pub fn refer(file: &Names<Thing>, want: Sort, used: &Id) -> Result<Link, NameFault>
    ensures ok { let s = refers want (find file.now used.now.name) (id_of used.now) in IfOk result (IsMade (s ∷ []) link_of (link meant s)) }
    ensures err { IfErr result (IsFault (refers want (find file.now used.now.name) (id_of used.now) ∷ [])) }
{
    let Some(found) = file.get(&used.name) else {
        return Err(NameFault::Unknown { at: used.at });
    };
    match found.what.serves(want) {
        Some(target) => Ok(Link {
            at: used.at,
            target,
        }),
        None => Err(NameFault::Kind {
            at: used.at,
            want,
            found: found.what.sort(),
        }),
    }
}

/// The use of a record in a field of the record that is declared at an offset.
pub fn refer_before(file: &Names<Thing>, record_at: u32, used: &Id) -> Result<Link, NameFault>
    ensures ok { let s = part_type record_at (find file.now used.now.name) (id_of used.now) in IfOk result (IsMade (s ∷ []) link_of (link meant s)) }
    ensures err { IfErr result (IsFault (part_type record_at (find file.now used.now.name) (id_of used.now) ∷ [])) }
{
    let Some(found) = file.get(&used.name) else {
        return Err(NameFault::Unknown { at: used.at });
    };
    if found.at >= record_at {
        return Err(NameFault::Unknown { at: used.at });
    }
    match found.what.serves(Sort::Record) {
        Some(target) => Ok(Link {
            at: used.at,
            target,
        }),
        None => Err(NameFault::Unknown { at: used.at }),
    }
}

/// The use of a name that was found, or not.
pub fn pick(found: Option<Declared<Target>>, used: &Id) -> Result<Link, NameFault>
    ensures ok { let s = picks found (id_of used.now) in IfOk result (IsMade (s ∷ []) link_of (link meant s)) }
    ensures err { IfErr result (IsFault (picks found (id_of used.now) ∷ [])) }
{
    match found {
        Some(found) => Ok(Link {
            at: used.at,
            target: found.what,
        }),
        None => Err(NameFault::Unknown { at: used.at }),
    }
}

/// The state or the name in scope that is called so.
pub fn known(states: &Names<Target>, scope: &Scope, name: &Name) -> Option<Declared<Target>>
    ensures { result ≡ in_scope (find states.now) scope.now name.now }
{
    match states.get(name) {
        Some(state) => Some(state),
        None => scope.names.get(name),
    }
}

/// Whether a declaration of a set is the first of its name.
pub fn declared_once<T: Copy>(names: &Names<T>, id: &Id) -> Result<(), NameFault>
    ensures ok { OnOk result (first (own (find names.now) (id_of id.now) ∷ []) ≡ None) }
    ensures err { IfErr result (IsFault (own (find names.now) (id_of id.now) ∷ [])) }
{
    let Some(first) = names.get(&id.name) else {
        return Ok(());
    };
    if first.at == id.at {
        return Ok(());
    }
    Err(NameFault::Twice {
        at: id.at,
        first: first.at,
    })
}

/// Whether a name that a callback binds is new there.
pub fn bound_once(states: &Names<Target>, scope: &Scope, id: &Id) -> Result<(), NameFault>
    ensures ok { OnOk result (first (new_name (in_scope (find states.now) scope.now) (id_of id.now) ∷ []) ≡ None) }
    ensures absent { OnOk result (find scope.now.names id.now.name ≡ None) }
    ensures err { IfErr result (IsFault (new_name (in_scope (find states.now) scope.now) (id_of id.now) ∷ [])) }
{
    match known(states, scope, &id.name) {
        Some(other) => Err(NameFault::Twice {
            at: id.at,
            first: other.at,
        }),
        None => Ok(()),
    }
}
