//! Writes what `towerc check` tells of each example, of files at a limit and above it, and of files with several faults.
#![tactic(auto)]

use std::alloc::{AllocError, Global};
use std::process::ExitCode;
use tower_io::{FileShelf, Put, Shelf, Sink, WriteSink};
use tower_top::{Status, tower};

/// The files. They lie in the folder in which the program runs.
const FILES: [&str; 38] = [
    "burst.tower",
    "clock.tower",
    "dia.tower",
    "flight.tower",
    "inv.tower",
    "nav.tower",
    "share.tower",
    "two.tower",
    "name_of_64.tower",
    "name_of_65.tower",
    "signals_64.tower",
    "signals_65.tower",
    "arrays_31.tower",
    "arrays_32.tower",
    "words_4096.tower",
    "words_4098.tower",
    "length_4097.tower",
    "height_24.tower",
    "height_25.tower",
    "bound_4.tower",
    "bound_3.tower",
    "bound_2.tower",
    "bound_0.tower",
    "work.tower",
    "chain_100.tower",
    "chain_101.tower",
    "words_4097.tower",
    "memory_1048576.tower",
    "memory_1048577.tower",
    "code_1000000.tower",
    "code_1000002.tower",
    "work_1000000000.tower",
    "work_1000000002.tower",
    "type_before_bound.tower",
    "bound_before_cycle.tower",
    "cycle_before_size.tower",
    "sources_before_depth.tower",
    "size_before_work.tower",
];

/// The words `towerc check FILE`.
fn words(alloc: Global, file: &str) -> Result<Vec<String>, AllocError> {
    let mut words = Vec::new(alloc);
    words.push(String::from_str(alloc, "towerc")?)?;
    words.push(String::from_str(alloc, "check")?)?;
    words.push(String::from_str(alloc, file)?)?;
    Ok(words)
}

/// Writes the line of a file's name.
fn put_name<O: Sink>(out: &mut O, file: &str) -> Put {
    match out.put(file.as_bytes()) {
        Put::Done => out.put(b"\n"),
        Put::Failed => Put::Failed,
    }
}

/// Writes the file's name, and what is told of it.
fn check<F: Shelf, O: Sink, E: Sink>(
    alloc: Global,
    file: &str,
    shelf: &mut F,
    out: &mut O,
    err: &mut E,
) -> Status {
    let Ok(words) = words(alloc, file) else {
        return Status::NoMemory;
    };
    match put_name(out, file) {
        Put::Done => tower(alloc, words.as_slice(), shelf, out, err),
        Put::Failed => Status::WriteFault,
    }
}

/// Both sinks are standard output, so that a fault shows among the texts. Any status but `Done` and `Refused` ends it.
fn main(rt: HostRuntime) -> ExitCode {
    let mut shelf = FileShelf::new(&rt);
    let mut out = WriteSink::new(rt.stdout());
    let mut err = WriteSink::new(rt.stdout());
    for file in FILES {
        let status = check(rt.alloc(), file, &mut shelf, &mut out, &mut err);
        if status != Status::Done && status != Status::Refused {
            return ExitCode::from(status.code());
        }
    }
    ExitCode::from(Status::Done.code())
}
