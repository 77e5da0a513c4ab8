//! What a file declares, with the fields of its records by their names.
ghost use Rattle.std.specs.Prelude.{◌≡◌, ◌++◌, ◌∷◌, [], map, IfOk, OnOk};
ghost use Rattle.std.specs.Option.{option_map};
ghost use Rattle.tower_types.specs.View.{fields_of};
ghost use Rattle.tower_syntax.specs.View.{arch_of};
ghost use Rattle.arch_types.specs.Places.{find, place_in};
ghost use Rattle.arch_types.specs.Typing.{field_in, field_of};
ghost use Rattle.arch_types.specs.Seen.{type_in};

use crate::lent::TypeRef;
use crate::listeners::next;
use sqlite_items::Items;
use std::alloc::Global;
use std::collections::BTreeMap;
use std::marker::Model;
use tower_syntax::ArchParts;
use tower_types::{Name, NoMemory, Records, Ty};

/// The names of a record's fields, each with the place of the first field of that name. They stand in a tree, so that
/// no choice of names makes a look-up slow.
#[derive(Drop)]
struct FieldPlaces {
    places: BTreeMap<Vec<u8>, u32>,
}

impl Model for FieldPlaces {
    ghost use Rattle.std.specs.Prelude.{map};
    ghost use Rattle.arch_types.specs.Places.{Places, coded_places};

    ghost Value = { Places };

    ghost coded = { coded_places };

    ghost view = { λ n. map (λ e. (e.0.items, e.1)) n.places.entries };
}

impl FieldPlaces {
    fn new(alloc: Global) -> FieldPlaces
        ensures { result ≡ [] }
    {
        FieldPlaces {
            places: BTreeMap::new(alloc),
        }
    }

    fn get(&self, name: &Name) -> Option<u32>
        ensures { result ≡ find self.now name.now }
    {
        self.places.get(name.bytes()).copied()
    }

    /// Gives a name a place. One that it has already stays.
    fn add(&mut self, alloc: Global, name: &Name, place: u32) -> Result<(), NoMemory>
        ensures { OnOk result (find self.new ≡ find (self.old ++ (name.now, place) ∷ [])) }
    {
        if self.places.contains_key(name.bytes()) {
            return Ok(());
        }
        let key = Vec::from_slice(alloc, name.bytes())?;
        self.places.insert(key, place)?;
        Ok(())
    }
}

/// The places of a record's fields.
fn field_places(alloc: Global, fields: &[(Name, Ty)]) -> Result<FieldPlaces, NoMemory>
    ensures { IfOk result (λ made. find made ≡ place_in (fields_of fields.now)) }
{
    let mut made = FieldPlaces::new(alloc);
    let mut k: u32 = 0;
    for (name, _) in fields {
        let after = next(k)?;
        made.add(alloc, name, k)?;
        k = after;
    }
    Ok(made)
}

/// The places of the fields of each record.
fn all_places(alloc: Global, records: &Records) -> Result<Items<FieldPlaces>, NoMemory>
    ensures { IfOk result (λ made. map find made ≡ map place_in records.now) }
{
    let mut made = Items::new(alloc);
    for r in 0..records.len() {
        let places = field_places(alloc, records.fields(r as u32))?;
        made.push(places)?;
    }
    Ok(made)
}

/// The first field of a name with its place, where the places of these fields are at hand.
fn field_at<'a>(
    fields: &'a [(Name, Ty)],
    places: &FieldPlaces,
    name: &Name,
) -> Option<(u32, TypeRef<'a>)>
    requires { find places.now ≡ place_in (fields_of fields.now) }
    ensures { option_map (λ f. (f.0, type_in f.1)) result ≡ field_in (fields_of fields.now) name.now }
{
    let k = match places.get(name) {
        Some(k) => k,
        None => return None,
    };
    match fields.get(k as usize) {
        Some((_, ty)) => Some((k, TypeRef::of(ty))),
        None => None,
    }
}

/// What a file declares, as callbacks see it.
#[derive(Drop)]
pub struct System<'a> {
    parts: &'a ArchParts,
    places: Items<FieldPlaces>,
}

impl<'a> Model for System<'a> {
    ghost use Rattle.std.specs.Prelude.{◌≡◌, map};
    ghost use Rattle.tower_syntax.specs.Arch.{Arch};
    ghost use Rattle.tower_syntax.specs.Codes.{coded_arch};
    ghost use Rattle.tower_syntax.specs.View.{arch_of};
    ghost use Rattle.arch_types.specs.Places.{find, place_in};

    ghost Value = { Arch };

    ghost coded = { coded_arch };

    ghost view = { λ s. arch_of s.parts.now };

    ghost invariant = { λ s. map find s.places ≡ map place_in s.parts.now.records };
}

impl<'a> System<'a> {
    /// Goes through the fields of all records once.
    pub fn new(alloc: Global, parts: &'a ArchParts) -> Result<System<'a>, NoMemory>
        ensures { IfOk result (λ s. s ≡ arch_of parts.now) }
    {
        let places = all_places(alloc, &parts.records)?;
        Ok(System { parts, places })
    }

    /// What the file declares.
    pub fn parts(&self) -> &'a ArchParts
        ensures { arch_of result.now ≡ self.now }
    {
        self.parts
    }

    /// The first field of a name in a record, with its place.
    pub fn field(&self, r: u32, name: &Name) -> Option<(u32, TypeRef<'a>)>
        ensures { option_map (λ f. (f.0, type_in f.1)) result ≡ field_of self.now.records r name.now }
    {
        let records = &self.parts.records;
        if (r as usize) >= records.len() {
            return None;
        }
        match self.places.get(r as usize) {
            Some(places) => field_at(records.fields(r), places, name),
            None => None,
        }
    }
}
