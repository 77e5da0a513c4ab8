//! A shelf over the file system: the trusted edge on the side of what is read.
ghost use Rattle.std.specs.Prelude.{◌≡◌, ◌≤◌, [], None, string_bytes};

use crate::answers::{Begin, Next};
use crate::shelves::Shelf;
use std::alloc::Global;
use std::fs;
use std::io::Read;
use std::marker::Model;
use std::rt::Files;

/// An open file, and a copy of the name with which it was begun.
#[derive(Drop)]
struct Opened<F> {
    name: String,
    file: F,
}

/// The files of a runtime, by path. It tells no content.
#[derive(Drop)]
pub struct FileShelf<'a, R: Files> {
    rt: &'a R,
    opened: Option<Opened<R::File>>,
    blamed: Option<String>,
    faults: u64,
}

impl<'a, R: Files> Model for FileShelf<'a, R> {
    ghost use Rattle.tower_io.specs.FileShelves.{FileState};

    ghost Value = { FileState };

    ghost use Rattle.std.specs.Prelude.{string_bytes};
    ghost use Rattle.std.specs.Option.{option_map};
    ghost use Rattle.tower_io.specs.Names.{name_or_empty};

    ghost view = { λ a. record {
      opened = option_map (λ o. string_bytes o.name) a.opened;
      blamed = name_or_empty a.blamed;
      faults = a.faults;
    } };
}

impl<'a, R: Files> FileShelf<'a, R> {
    ghost use Rattle.tower_io.specs.FileShelves.{faulted};

    /// The files that the runtime reaches. No file is open, and there was no fault. It takes no memory.
    pub fn new(rt: &'a R) -> FileShelf<'a, R>
        ensures { result ≡ record { opened = None; blamed = []; faults = 0 } }
    {
        FileShelf {
            rt,
            opened: None,
            blamed: None,
            faults: 0,
        }
    }

    // Counts one more fault, and blames the name for it.
    fn fail(&mut self, name: String)
        ensures faulted { self.new ≡ faulted self.old (string_bytes name) }
        ensures never_falls { self.old.faults ≤ self.new.faults }
    {
        self.blamed = Some(name);
        self.faults = self.faults.saturating_add(1);
    }
}

impl<'a, R: Files> Shelf for FileShelf<'a, R> {
    ghost use Rattle.std.specs.Prelude.{None};

    ghost held = { λ _ _. None };

    ghost opened = { λ s. s.opened };

    ghost left = { λ _. None };

    ghost blamed = { λ s. s.blamed };

    ghost faults = { λ s. s.faults };

    fn faults(&self) -> u64 {
        self.faults
    }

    fn blamed(&self) -> &str {
        match &self.blamed {
            None => "",
            Some(name) => name.as_str(),
        }
    }

    /// Copies the name first, and then opens the file. An absent name fails here.
    fn begin(&mut self, alloc: Global, name: &str) -> Begin {
        self.opened = None;
        let Ok(name) = String::from_str(alloc, name) else {
            return Begin::NoMemory;
        };
        match fs::open(self.rt, name.as_str()) {
            Ok(file) => {
                self.opened = Some(Opened { name, file });
                Begin::Begun
            }
            Err(_) => {
                self.fail(name);
                Begin::Failed
            }
        }
    }

    /// Reads once. A read of no bytes is the end.
    fn next(&mut self, room: &mut [u8]) -> Next {
        let Some(mut opened) = self.opened.take() else {
            unreachable!()
        };
        let mut piece = [0u8; 4096];
        match opened.file.read(&mut piece[..room.len()]) {
            Ok(0) => Next::End,
            Ok(n) => {
                room[..n].copy_from_slice(&piece[..n]);
                self.opened = Some(opened);
                Next::Got(n)
            }
            Err(_) => {
                self.fail(opened.name);
                Next::Failed
            }
        }
    }
}
