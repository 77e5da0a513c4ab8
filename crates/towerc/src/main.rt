//! The program `towerc`: the top call over the files and the streams of the machine that it runs on.
#![tactic(auto)]

use std::process::ExitCode;
use std::rt::Env;
use std::{env, io};
use tower_io::{FileShelf, WriteSink};
use tower_top::tower;

/// The exit status where the runtime does not give the words. The top call never answers it.
const NO_WORDS: u8 = 9;

/// The words of the command line.
fn words<R: Env + AllocGlobal>(rt: &R) -> io::Result<Vec<String>> {
    let mut words = Vec::new(rt.alloc());
    for word in env::args(rt)? {
        words.push(word)?;
    }
    Ok(words)
}

fn main(rt: HostRuntime) -> ExitCode {
    let Ok(words) = words(&rt) else {
        return ExitCode::from(NO_WORDS);
    };
    let mut shelf = FileShelf::new(&rt);
    let mut out = WriteSink::new(rt.stdout());
    let mut err = WriteSink::new(rt.stderr());
    let status = tower(rt.alloc(), words.as_slice(), &mut shelf, &mut out, &mut err);
    ExitCode::from(status.code())
}
