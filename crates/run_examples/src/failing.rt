//! Runs of which a read or a put fails.

use crate::call::{Answer, call, call_failing};
use crate::shown::{Shown, show};
use std::alloc::{AllocError, Global};
use std::io::{self, Print};
use tower_io::MemShelf;
use tower_top::Status;

/// More reads and puts than the runs have.
const MOST: u64 = 100;

/// The texts of the shelf, by their names.
const TEXTS: [(&str, &str); 4] = [
    (
        "clock",
        "(tower clock (period beat 10 5) (monitor count (state n u32) (handler tick beat (callback t (set n (+ n (u32 1)))))))",
    ),
    ("ticks", "tick 25"),
    ("turns", "ev 10\nidle"),
    ("many", "tick 16000"),
];

/// A run that reads three texts.
const READS: &str = "towerc run clock --record ticks --choices turns";

/// A run that writes more than a page, and a call that writes a line on `err`.
const PUTS: [&str; 2] = [
    "towerc run clock --record many",
    "towerc run clock --record turns",
];

/// A shelf with the texts, of which the call with this number fails.
fn shelf(alloc: Global, number: u64) -> Result<MemShelf, AllocError> {
    let mut files = Vec::new(alloc);
    for (name, text) in TEXTS {
        files.push((
            String::from_str(alloc, name)?,
            Vec::from_slice(alloc, text.as_bytes())?,
        ))?;
    }
    Ok(MemShelf::new(files, Vec::from_slice(alloc, &[number])?))
}

/// What is shown of the run of which a read fails, and whether it is done.
fn shown_failing(alloc: Global, number: u64) -> Result<(String, bool), AllocError> {
    let mut shelf = shelf(alloc, number)?;
    let answer = call(alloc, READS, &mut shelf)?;
    if answer.status == Status::Done {
        return Ok((String::from_str(alloc, "status 0\n")?, true));
    }
    Ok((show(alloc, &answer, Shown::Whole)?, false))
}

/// With the first call of the shelf failing, the second and so on: what is shown then, up to the first run that is done.
pub fn tell_reads<R: Print>(rt: &R, alloc: Global) -> io::Result<()> {
    println!(rt; "$ {READS}, where read 0, 1, 2 .. fails")?;
    for number in 0..MOST {
        let (now, is_done) = shown_failing(alloc, number)?;
        print!(rt; "{now}")?;
        if is_done {
            return Ok(());
        }
    }
    Ok(())
}

/// What a call is whose put with a number fails.
#[derive(Clone, Copy)]
enum Failing {
    /// It has the status of a failed write, and wrote a first part of what is due.
    Partly,
    /// It has no put with this number, and wrote what is due.
    Wholly,
    Otherwise,
}

/// The call whose put with this number fails, beside the one in which none fails.
fn failing_at(
    alloc: Global,
    line: &str,
    number: u64,
    whole: &Answer,
) -> Result<Failing, AllocError> {
    let mut shelf = shelf(alloc, u64::MAX)?;
    let answer = call_failing(alloc, line, &mut shelf, number)?;
    if answer.status == whole.status {
        return Ok(if is_same(&answer, whole) {
            Failing::Wholly
        } else {
            Failing::Otherwise
        });
    }
    Ok(if answer.status == Status::WriteFault && is_part(&answer, whole) {
        Failing::Partly
    } else {
        Failing::Otherwise
    })
}

/// Whether two calls wrote the same.
fn is_same(answer: &Answer, whole: &Answer) -> bool {
    answer.out.as_slice() == whole.out.as_slice() && answer.err.as_slice() == whole.err.as_slice()
}

/// Whether a call wrote a first part of what another wrote.
fn is_part(answer: &Answer, whole: &Answer) -> bool {
    whole.out.as_slice().starts_with(answer.out.as_slice())
        && whole.err.as_slice().starts_with(answer.err.as_slice())
}

/// Whether each put that fails, one after another, ends a call with a first part of what is due and the status of a
/// failed write, up to the first call that has no such put.
fn fails_in_turn(alloc: Global, line: &str) -> Result<bool, AllocError> {
    let mut shelf = shelf(alloc, u64::MAX)?;
    let whole = call(alloc, line, &mut shelf)?;
    for number in 0..MOST {
        match failing_at(alloc, line, number, &whole)? {
            Failing::Partly => {}
            Failing::Wholly => return Ok(0 < number),
            Failing::Otherwise => return Ok(false),
        }
    }
    Ok(false)
}

/// Where each put fails in turn.
pub fn tell_puts<R: Print>(rt: &R, alloc: Global) -> io::Result<()> {
    for line in PUTS {
        let fails = fails_in_turn(alloc, line)?;
        println!(rt; "$ {line}, where put 0, 1, 2 .. fails\na first part and status 4: {fails}")?;
    }
    Ok(())
}
