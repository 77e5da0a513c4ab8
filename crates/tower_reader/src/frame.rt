//! A list that is partly read.
ghost use Rattle.std.specs.Prelude.{◌≡◌, ◌+◌, ◌++◌, [], ◌∷◌, false, IfOk, IsOk, OnOk, vec_len};
ghost use Rattle.tower_reader.specs.Machine.{IsLean, IsFile, is_clean, opened, bottom, slot, headed, merged, kept, kept_part, counted, taken_in, entered, closed};
ghost use Rattle.tower_reader.specs.Part.{build};

use crate::atom::{atom_found, atom_part};
use crate::build::build;
use crate::found::Found;
use crate::part::Part;
use crate::table::{Place, Row, atoms_at, count_fits, place_at, row_of};
use std::alloc::Global;
use tower_types::NoMemory;

/// What is known of a list's head.
#[derive(Clone, Copy)]
pub(crate) enum Heading {
    /// Nothing: no node has come.
    Fresh,
    Known(Row),
    /// It is none of the place.
    Unknown,
}

/// A list that is unclosed, with what was found in its children so far.
#[derive(Drop)]
pub(crate) struct Frame {
    place: Place,
    at: u32,
    heading: Heading,
    /// How many children came behind the head, up to 255, which is more than any row has places.
    count: u8,
    /// The parts that the children are, as long as nothing was found in them.
    parts: Vec<Part>,
    found: Found,
    ghost lean: { IsLean found (vec_len parts) },
}

fn headed(row: Option<Row>) -> Heading
    ensures { result ≡ headed row }
{
    match row {
        Some(row) => Heading::Known(row),
        None => Heading::Unknown,
    }
}

impl Frame {
    ghost use Rattle.tower_reader.specs.View.{seen, all_seen, frame_of};

    pub fn opened(alloc: Global, place: Place, at: u32) -> Frame
        ensures { frame_of result ≡ opened place at }
    {
        Frame {
            place,
            at,
            heading: Heading::Fresh,
            count: 0,
            parts: Vec::new(alloc),
            found: Found::clean(),
        }
    }

    /// The file.
    pub fn bottom(alloc: Global) -> Frame
        ensures { frame_of result ≡ bottom }
    {
        Frame {
            place: Place::Nowhere,
            at: 0,
            heading: Heading::Known(Row::File),
            count: 0,
            parts: Vec::new(alloc),
            found: Found::clean(),
        }
    }

    /// The place of the next child.
    pub fn slot(&self) -> Place
        ensures { result ≡ slot (frame_of self.now) }
    {
        match self.heading {
            Heading::Known(row) => place_at(row, usize::from(self.count)),
            _ => Place::Nowhere,
        }
    }

    /// Takes a child of a row. No part is kept once something was found.
    fn add(&mut self, alloc: Global, part: Part, found: Found) -> Result<(), NoMemory>
        ensures place { OnOk result ((self.new.place ≡ self.old.place) × (self.new.at ≡ self.old.at) × (self.new.heading ≡ self.old.heading)) }
        ensures count { OnOk result (self.new.count ≡ counted (self.old.count + 1)) }
        ensures parts { OnOk result (all_seen self.new.parts.items ≡ kept (merged self.old.found found) (all_seen self.old.parts.items ++ seen part ∷ [])) }
        ensures found { OnOk result (self.new.found ≡ merged self.old.found found) }
        ensures told { is_clean found ≡ false → IsOk result }
    {
        self.count = self.count.saturating_add(1);
        self.found = self.found.merged(found);
        if self.found.is_clean() {
            self.parts.push(part)?;
        } else {
            part.discard();
            self.parts = Vec::new(alloc);
        }
        Ok(())
    }

    /// Takes a child that is whole. It takes no memory where something was found in it.
    pub fn take_in(&mut self, alloc: Global, part: Part, found: Found) -> Result<(), NoMemory>
        ensures taken { OnOk result (frame_of self.new ≡ taken_in (seen part) found (frame_of self.old)) }
        ensures told { is_clean found ≡ false → IsOk result }
    {
        match self.heading {
            Heading::Known(_) => self.add(alloc, part, found),
            _ => {
                part.discard();
                self.heading = Heading::Unknown;
                Ok(())
            }
        }
    }

    /// Takes an atom: the head, or a child. In the file it takes no memory, since no atom may stand there.
    pub fn enter(&mut self, alloc: Global, at: u32, text: &[u8]) -> Result<(), NoMemory>
        ensures entered { OnOk result (frame_of self.new ≡ entered at text.now (frame_of self.old)) }
        ensures told { IsFile (frame_of self.old) → IsOk result }
    {
        match self.heading {
            Heading::Fresh => {
                self.heading = headed(row_of(self.place, text));
                Ok(())
            }
            Heading::Known(_) => {
                let atoms = atoms_at(self.slot());
                let found = atom_found(atoms, at, text);
                let part = atom_part(alloc, atoms, at, text)?;
                self.take_in(alloc, part, found)
            }
            Heading::Unknown => Ok(()),
        }
    }

    /// What the list is, now that it is closed.
    pub fn closed(self, alloc: Global) -> Result<(Part, Found), NoMemory>
        ensures part { IfOk result (λ r. seen r.0 ≡ (closed (frame_of self)).0) }
        ensures found { IfOk result (λ r. r.1 ≡ (closed (frame_of self)).1) }
    {
        match self.heading {
            Heading::Known(row) if count_fits(row, usize::from(self.count)) => {
                self.built(alloc, row)
            }
            _ => Ok((Part::Nothing, Found::form_alone(self.at))),
        }
    }

    /// The part that the row makes of the list, where nothing was found in it.
    fn built(self, alloc: Global, row: Row) -> Result<(Part, Found), NoMemory>
        ensures part { IfOk result (λ r. seen r.0 ≡ kept_part self.found (build row self.at (all_seen self.parts.items))) }
        ensures found { IfOk result (λ r. r.1 ≡ self.found) }
    {
        let Frame {
            at,
            parts,
            found,
            ..
        } = self;
        if found.is_clean() {
            let part = build(alloc, row, at, parts)?;
            Ok((part, found))
        } else {
            Ok((Part::Nothing, found))
        }
    }

    /// The parts that are kept, and what was found.
    pub fn into_parts(self) -> (Vec<Part>, Found)
        ensures parts { all_seen result.0.items ≡ (frame_of self).parts }
        ensures found { result.1 ≡ (frame_of self).found }
    {
        let Frame { parts, found, .. } = self;
        (parts, found)
    }
}
