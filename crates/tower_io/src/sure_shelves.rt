//! A shelf in memory that never fails.
ghost use Rattle.std.specs.Prelude.{◌≡◌, ◌≢◌, ◌≤◌, ◌++◌, [], Some, map, take, drop, length, IsSome};
ghost use Rattle.tower_io.specs.Shelves.{Takes, OnGot, OnNotGot, OnBegun, OnBeginNoMemory};

use crate::answers::{Begin, Next};
use crate::shelves::Shelf;
use crate::texts::Texts;
use std::alloc::Global;
use std::marker::Model;

/// Texts by name in memory, of which none is ever refused: an absent name is an empty text.
///
/// Where a name stands more than once, the first entry is its text.
#[derive(Drop)]
pub struct SureShelf {
    texts: Texts,
}

impl Model for SureShelf {
    ghost use Rattle.tower_io.specs.Texts.{Library};

    ghost Value = { Library };

    ghost view = { λ a. a.texts };
}

impl SureShelf {
    ghost use Rattle.tower_io.specs.Readings.{entry_of};
    ghost use Rattle.tower_io.specs.Texts.{shut};

    /// A shelf with these files, on which no text is open. It takes no memory.
    pub fn new(files: Vec<(String, Vec<u8>)>) -> SureShelf
        ensures { result ≡ shut (map entry_of files.items) }
    {
        SureShelf {
            texts: Texts::new(files),
        }
    }
}

impl Shelf for SureShelf {
    ghost use Rattle.std.specs.Prelude.{Some, []};
    ghost use Rattle.tower_io.specs.SureShelves.{sure_next_of};
    ghost use Rattle.tower_io.specs.Texts.{shut, begun, sure_text_of};

    ghost held = { λ s name. Some (sure_text_of s.entries name) };

    ghost opened = { λ s. s.opened };

    ghost left = { λ s. Some s.left };

    ghost blamed = { λ _. [] };

    ghost faults = { λ _. 0 };

    fn faults(&self) -> u64 {
        0
    }

    fn blamed(&self) -> &str {
        ""
    }

    /// Copies the name, and never fails.
    fn begin(&mut self, alloc: Global, name: &str) -> Begin
        ensures sure { result ≢ Begin.Failed }
        ensures begun { OnBegun result
            (self.new ≡ begun self.old.entries name.now (sure_text_of self.old.entries name.now)) }
        ensures no_memory { OnBeginNoMemory result (self.new ≡ shut self.old.entries) }
    {
        self.texts.close();
        let Ok(name) = String::from_str(alloc, name) else {
            return Begin::NoMemory;
        };
        self.texts.open(name);
        Begin::Begun
    }

    fn next(&mut self, room: &mut [u8]) -> Next
        requires has_open { IsSome self.old.opened }
        requires some_room { 1 ≤ length room.old }
        requires piece { length room.old ≤ 4096 }
        ensures answer { result ≡ (sure_next_of self.old (length room.old)).0 }
        ensures after { self.new ≡ (sure_next_of self.old (length room.old)).1 }
        ensures bytes { OnGot result (λ n. room.new ≡ take n self.old.left ++ drop n room.old) }
        ensures untouched { OnNotGot result (room.new ≡ room.old) }

        ensures some { OnGot result (λ n. 1 ≤ n) }
        ensures takes { OnGot result (λ n. Takes (Some self.old.left) (Some self.new.left) (take n room.new)) }
    {
        let most = room.len();
        match self.texts.take(room, most) {
            0 => {
                self.texts.close();
                Next::End
            }
            n => Next::Got(n),
        }
    }
}
