//! The listing of each example, read back.
use crate::told::told;
use std::alloc::{AllocError, Global};
use std::io;
use std::rt::Files;
use tower_io::{FileShelf, MemSink, Shelf};
use tower_top::{Status, tower};

/// The files. They lie in the folder in which the program runs.
const FILES: [&str; 8] = [
    "burst.tower",
    "clock.tower",
    "dia.tower",
    "flight.tower",
    "inv.tower",
    "nav.tower",
    "share.tower",
    "two.tower",
];

/// How many bytes a listing may have here.
const ROOM: usize = 1_000_000;

/// The words `towerc compile FILE`.
fn words(alloc: Global, file: &str) -> Result<Vec<String>, AllocError> {
    let mut words = Vec::new(alloc);
    words.push(String::from_str(alloc, "towerc")?)?;
    words.push(String::from_str(alloc, "compile")?)?;
    words.push(String::from_str(alloc, file)?)?;
    Ok(words)
}

/// What is told of what `compile` writes of a file.
fn told_of<F: Shelf>(alloc: Global, file: &str, shelf: &mut F) -> Result<String, AllocError> {
    let mut out = MemSink::new(alloc, ROOM, Vec::new(alloc))?;
    let mut err = MemSink::new(alloc, ROOM, Vec::new(alloc))?;
    let words = words(alloc, file)?;
    match tower(alloc, words.as_slice(), shelf, &mut out, &mut err) {
        Status::Done => told(alloc, out.bytes()),
        _ => String::from_str(alloc, "not compiled"),
    }
}

/// Tells of the listing of each file.
pub fn tell<R: Print + Files + AllocGlobal>(rt: &R) -> io::Result<()> {
    let alloc = rt.alloc();
    let mut shelf = FileShelf::new(rt);
    for file in FILES {
        let found = told_of(alloc, file, &mut shelf)?;
        println!(rt; "{file} {found}")?;
    }
    Ok(())
}
