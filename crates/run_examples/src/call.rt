//! A call of the program, with what it wrote.

use std::alloc::{AllocError, Global};
use tower_io::{MemSink, Shelf};
use tower_top::{Status, tower};

/// The most bytes that a call of the table writes.
const ROOM: usize = 1_000_000;

/// What came of a call, and what it wrote on `out` and on `err`.
#[derive(Drop)]
pub struct Answer {
    pub status: Status,
    pub out: Vec<u8>,
    pub err: Vec<u8>,
}

/// The words of a line.
fn words(alloc: Global, line: &str) -> Result<Vec<String>, AllocError> {
    let mut words = Vec::new(alloc);
    for word in line.split(' ') {
        words.push(String::from_str(alloc, word)?)?;
    }
    Ok(words)
}

/// A sink of which the put with this number fails.
fn sink(alloc: Global, number: u64) -> Result<MemSink, AllocError> {
    MemSink::new(alloc, ROOM, Vec::from_slice(alloc, &[number])?)
}

/// Carries out the words of a line, where the put with this number on `out` or on `err` fails.
pub fn call_failing<F: Shelf>(
    alloc: Global,
    line: &str,
    shelf: &mut F,
    number: u64,
) -> Result<Answer, AllocError> {
    let words = words(alloc, line)?;
    let mut out = sink(alloc, number)?;
    let mut err = sink(alloc, number)?;
    let status = tower(alloc, words.as_slice(), shelf, &mut out, &mut err);
    let out = Vec::from_slice(alloc, out.bytes())?;
    let err = Vec::from_slice(alloc, err.bytes())?;
    Ok(Answer { status, out, err })
}

/// Carries out the words of a line.
pub fn call<F: Shelf>(alloc: Global, line: &str, shelf: &mut F) -> Result<Answer, AllocError> {
    call_failing(alloc, line, shelf, u64::MAX)
}
