//! Texts at each limit, and one above it.
use crate::told::told;
use std::alloc::{AllocError, Global};
use std::io;

/// Listings of one task with one instruction, at a limit and above it.
const TEXTS: [&str; 12] = [
    "tower-listing 1\nmonitors 1\nmonitor 1048575\noutputs 0\ntasks 1\ntask 0 1 1 0 1\nRET\nend\n",
    "tower-listing 1\nmonitors 1\nmonitor 1048576\noutputs 0\ntasks 1\ntask 0 1 1 0 1\nRET\nend\n",
    "tower-listing 1\nmonitors 1\nmonitor 1048577\noutputs 0\ntasks 1\ntask 0 1 1 0 1\nRET\nend\n",
    "tower-listing 1\nmonitors 0\noutputs 1\noutput 1048576\ntasks 0\nend\n",
    "tower-listing 1\nmonitors 0\noutputs 1\noutput 1048577\ntasks 0\nend\n",
    "tower-listing 1\nmonitors 0\noutputs 0\ntasks 1\ntask 255 1048576 0 1 1\nbuffer 1024 1024\nRET\nend\n",
    "tower-listing 1\nmonitors 0\noutputs 0\ntasks 1\ntask 255 1 0 1 1\nbuffer 1024 1025\nRET\nend\n",
    "tower-listing 1\nmonitors 0\noutputs 0\ntasks 1\ntask 256 1 0 1 1\nbuffer 1024 1024\nRET\nend\n",
    "tower-listing 1\nmonitors 0\noutputs 0\ntasks 1\ntask 0 1048577 0 0 1\nRET\nend\n",
    "tower-listing 1\nmonitors 0\noutputs 0\ntasks 1\ntask 0 1 0 1 1\nbuffer 0 1\nRET\nend\n",
    "tower-listing 1\nmonitors 0\noutputs 0\ntasks 1048576\n",
    "tower-listing 1\nmonitors 0\noutputs 0\ntasks 1048577\n",
];

/// Numbers of instructions: the most that a listing may have, one more, and more than a task may have.
const INSTRUCTIONS: [usize; 3] = [1_000_000, 1_000_001, 1_048_577];

/// Numbers of bytes: the most that a text may have, and one more.
const BYTES: [usize; 2] = [67_108_864, 67_108_865];

/// The listing of a task with so many instructions.
fn long_listing(alloc: Global, count: usize) -> Result<Vec<u8>, AllocError> {
    let head = format!(in alloc;
        "tower-listing 1\nmonitors 0\noutputs 0\ntasks 1\ntask 0 1 0 0 {count}\n"
    )?;
    let mut text = Vec::from_slice(alloc, head.as_bytes())?;
    for _ in 0..count {
        text.extend_from_slice(b"RET\n")?;
    }
    text.extend_from_slice(b"end\n")?;
    Ok(text)
}

/// Tells of each text.
pub fn tell<R: Print + AllocGlobal>(rt: &R) -> io::Result<()> {
    let alloc = rt.alloc();
    for text in TEXTS {
        let found = told(alloc, text.as_bytes())?;
        println!(rt; "{found}")?;
    }
    for count in INSTRUCTIONS {
        let found = told(alloc, long_listing(alloc, count)?.as_slice())?;
        println!(rt; "{count} {found}")?;
    }
    for count in BYTES {
        let found = told(alloc, vec![in alloc; b'x'; count]?.as_slice())?;
        println!(rt; "{count} {found}")?;
    }
    Ok(())
}
