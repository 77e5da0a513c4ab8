//! Runs with each limit of instructions.

use crate::call::{Answer, call};
use crate::shown::{Shown, count_in, show};
use std::alloc::{AllocError, Global};
use std::io::{self, Print};
use tower_io::Shelf;
use tower_top::Status;

/// More instructions than the run of `EACH` has.
const MOST: u64 = 1000;

/// The run that is stopped after each of its instructions.
const EACH: &str = "towerc run nav.tower --record nav.record";

/// The run that is stopped before its last instruction.
const LAST: &str = "towerc run clock.tower --record clock.record";

/// A call with a limit of instructions.
fn call_within<F: Shelf>(
    alloc: Global,
    line: &str,
    limit: u64,
    shelf: &mut F,
) -> Result<Answer, AllocError> {
    let line = format!(in alloc; "{line} --steps {limit}")?;
    call(alloc, line.as_str(), shelf)
}

/// What is shown with a limit, and whether the run is done.
fn shown_within<F: Shelf>(
    alloc: Global,
    limit: u64,
    shelf: &mut F,
) -> Result<(String, bool), AllocError> {
    let answer = call_within(alloc, EACH, limit, shelf)?;
    let is_done = answer.status == Status::Done;
    Ok((show(alloc, &answer, Shown::Marks)?, is_done))
}

/// With the limits 0, 1, 2 and so on: what is shown, where it is not what was shown for the limit before, up to the
/// first run that is done.
pub fn tell_each<R: Print, F: Shelf>(rt: &R, alloc: Global, shelf: &mut F) -> io::Result<()> {
    println!(rt; "$ {EACH} --steps 0, 1, 2 ..")?;
    let mut before = String::new(alloc);
    for limit in 0..MOST {
        let (now, is_done) = shown_within(alloc, limit, shelf)?;
        if now.as_str() != before.as_str() {
            print!(rt; "{now}")?;
        }
        if is_done {
            return Ok(());
        }
        before = now;
    }
    Ok(())
}

/// The status with a limit, and whether the text is this one.
fn ends_within<F: Shelf>(
    alloc: Global,
    limit: u64,
    shelf: &mut F,
    text: &[u8],
) -> Result<(u8, bool), AllocError> {
    let answer = call_within(alloc, LAST, limit, shelf)?;
    Ok((answer.status.code(), answer.out.as_slice() == text))
}

/// With exactly as many instructions as the run has, and with one fewer.
pub fn tell_the_last<R: Print, F: Shelf>(rt: &R, alloc: Global, shelf: &mut F) -> io::Result<()> {
    let whole = call(alloc, LAST, shelf)?;
    let count = count_in(whole.out.as_slice());
    let (done, same) = ends_within(alloc, count, shelf, whole.out.as_slice())?;
    let (stopped, _) = ends_within(alloc, count.saturating_sub(1), shelf, &[])?;
    println!(rt; "$ {LAST} --steps c, with its count c\nthe same text: {same}\nstatus {done}")?;
    println!(rt; "$ {LAST} --steps c - 1\nstatus {stopped}")
}
