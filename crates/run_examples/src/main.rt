//! Runs the examples, and writes what each call shows.
#![tactic(auto)]

mod call;
mod calls;
mod failing;
mod limits;
mod shown;

use call::call;
use calls::CALLS;
use shown::{Shown, show};
use std::alloc::{AllocError, Global};
use std::io;
use tower_io::{FileShelf, Shelf};

/// What is shown of the call of a line.
fn shown_of<F: Shelf>(
    alloc: Global,
    line: &str,
    how: Shown,
    shelf: &mut F,
) -> Result<String, AllocError> {
    let answer = call(alloc, line, shelf)?;
    show(alloc, &answer, how)
}

/// Each line of the table, in a shelf of the files that lie in the folder in which the program runs.
fn main(rt: HostRuntime) -> io::Result<()> {
    let alloc = rt.alloc();
    let mut shelf = FileShelf::new(&rt);
    for (line, how) in CALLS {
        let shown = shown_of(alloc, line, how, &mut shelf)?;
        print!(rt; "$ {line}\n{shown}")?;
    }
    limits::tell_each(&rt, alloc, &mut shelf)?;
    limits::tell_the_last(&rt, alloc, &mut shelf)?;
    failing::tell_reads(&rt, alloc)?;
    failing::tell_puts(&rt, alloc)
}
