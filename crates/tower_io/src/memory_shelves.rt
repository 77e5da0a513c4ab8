//! A shelf in memory, whose calls fail by their numbers.
ghost use Rattle.std.specs.Prelude.{◌≡◌, ◌≤◌, ◌++◌, [], map, take, drop, length, unwrap_or, IsSome};
ghost use Rattle.tower_io.specs.Shelves.{Takes, OnGot, OnNotGot, OnBeginNoMemory, UnlessBeginNoMemory};

use crate::answers::{Begin, Next};
use crate::shelves::Shelf;
use crate::texts::Texts;
use std::alloc::Global;
use std::marker::Model;

/// Texts by name in memory, with the numbers of the calls that are to fail.
///
/// The calls of `begin` and `next` are counted together, from 0; a `begin` that answers `NoMemory` is
/// counted too. The calls whose numbers are given fail, unless they answer `NoMemory`, and so does a
/// `begin` of an absent name. No other call fails. Where a name stands more than once, the first entry
/// is its text.
#[derive(Drop)]
pub struct MemShelf {
    texts: Texts,
    fails: Vec<u64>,
    calls: u64,
    piece: usize,
    blamed: Option<String>,
    faults: u64,
}

impl Model for MemShelf {
    ghost use Rattle.std.specs.Prelude.{◌≤◌};
    ghost use Rattle.tower_io.specs.MemoryShelves.{MemoryShelf};

    ghost Value = { MemoryShelf };

    ghost use Rattle.tower_io.specs.Names.{name_or_empty};

    ghost view = { λ a. record {
      library = a.texts;
      fails = a.fails.items;
      calls = a.calls;
      piece = a.piece;
      blamed = name_or_empty a.blamed;
      faults = a.faults;
    } };

    ghost invariant = { λ a. 1 ≤ a.piece };
}

impl MemShelf {
    ghost use Rattle.tower_io.specs.MemoryShelves.{fresh, is_to_fail, counted, faulted};
    ghost use Rattle.tower_io.specs.Readings.{entry_of};

    /// A shelf with these files, on which no text is open and no call was made. It takes no memory.
    pub fn new(files: Vec<(String, Vec<u8>)>, fails: Vec<u64>) -> MemShelf
        ensures { result ≡ fresh (map entry_of files.items) fails.items }
    {
        MemShelf {
            texts: Texts::new(files),
            fails,
            calls: 0,
            piece: usize::MAX,
            blamed: None,
            faults: 0,
        }
    }

    /// Lets each later `next` give at most so many bytes. It takes no memory.
    pub fn cut(&mut self, most: usize)
        requires { 1 ≤ most }
        ensures { self.new ≡ record self.old { piece = most } }
    {
        self.piece = most;
    }

    // Counts a call, and says whether it is one of those that are to fail.
    fn count(&mut self) -> bool
        ensures is_to_fail { result ≡ is_to_fail self.old }
        ensures counted { self.new ≡ counted self.old }
    {
        let is_to_fail = self.fails.contains(&self.calls);
        self.calls = self.calls.saturating_add(1);
        is_to_fail
    }

    // Gives up the open text, and blames its name for one more fault.
    fn fail(&mut self)
        ensures never_falls { self.old.faults ≤ self.new.faults }
        ensures faulted { self.new ≡ faulted self.old (unwrap_or self.old.library.opened []) }
    {
        self.blamed = self.texts.close();
        self.faults = self.faults.saturating_add(1);
    }
}

impl Shelf for MemShelf {
    ghost use Rattle.std.specs.Prelude.{Some};
    ghost use Rattle.tower_io.specs.MemoryShelves.{closed, counted, begin_of, next_of};
    ghost use Rattle.tower_io.specs.Texts.{text_of};

    ghost held = { λ s name. text_of s.library.entries name };

    ghost opened = { λ s. s.library.opened };

    ghost left = { λ s. Some s.library.left };

    ghost blamed = { λ s. s.blamed };

    ghost faults = { λ s. s.faults };

    fn faults(&self) -> u64 {
        self.faults
    }

    fn blamed(&self) -> &str {
        match &self.blamed {
            None => "",
            Some(name) => name.as_str(),
        }
    }

    /// Copies the name first, and answers `NoMemory` where it cannot. Each call is counted, whatever it
    /// answers.
    fn begin(&mut self, alloc: Global, name: &str) -> Begin
        ensures answer { UnlessBeginNoMemory result (result ≡ (begin_of self.old name.now).0) }
        ensures after { UnlessBeginNoMemory result (self.new ≡ (begin_of self.old name.now).1) }
        ensures no_memory { OnBeginNoMemory result (self.new ≡ counted (closed self.old)) }
        ensures never_falls { self.old.faults ≤ self.new.faults }
    {
        self.texts.close();
        let is_to_fail = self.count();
        let Ok(name) = String::from_str(alloc, name) else {
            return Begin::NoMemory;
        };
        let is_there = self.texts.open(name);
        if is_to_fail || !is_there {
            self.fail();
            return Begin::Failed;
        }
        Begin::Begun
    }

    fn next(&mut self, room: &mut [u8]) -> Next
        requires has_open { IsSome self.old.library.opened }
        requires some_room { 1 ≤ length room.old }
        requires piece { length room.old ≤ 4096 }
        ensures answer { result ≡ (next_of self.old (length room.old)).0 }
        ensures after { self.new ≡ (next_of self.old (length room.old)).1 }
        ensures bytes { OnGot result (λ n. room.new ≡ take n self.old.library.left ++ drop n room.old) }
        ensures untouched { OnNotGot result (room.new ≡ room.old) }

        ensures some { OnGot result (λ n. 1 ≤ n) }
        ensures takes { OnGot result (λ n.
            Takes (Some self.old.library.left) (Some self.new.library.left) (take n room.new)) }
        ensures never_falls { self.old.faults ≤ self.new.faults }
    {
        if self.count() {
            self.fail();
            return Next::Failed;
        }
        match self.texts.take(room, self.piece) {
            0 => {
                self.texts.close();
                Next::End
            }
            n => Next::Got(n),
        }
    }
}
