//! The listing of a counter, whole and damaged.
use crate::told::told;
use std::alloc::Global;
use std::io;

const HEAD: &str = "tower-listing 1\nmonitors 1\nmonitor 1\noutputs 0\ntasks 1\n";

const TASK: &str = "task 5 1 1 0 10\n";

const CODE: &str =
    "TAKE 0\nLOCK 0\nPUSH 0\nPUSH 0\nLDM 0 0 1\nPUSH 1\nBIN + u32\nSTM 0 0 1\nUNLOCK 0\n";

/// What stands behind the ninth instruction.
const ENDS: [&str; 44] = [
    "JMP 0\nend\n",
    "JMP 0\nend",
    "JMP 0\n",
    "",
    "JMP 0\n\n",
    "JMP 0\nen",
    "JMP 0\nend\nx",
    "JMP 0\nend\n\n",
    "JMP 0\nend\nend\n",
    "JMP 9\nend\n",
    "JMP 10\nend\n",
    "JMP -1\nend\n",
    "JMP 99999999999999999999999999\nend\n",
    "JMP 00\nend\n",
    "JMP +1\nend\n",
    "JMP x\nend\n",
    "JMP\nend\n",
    "JMP 0 \nend\n",
    " JMP 0\nend\n",
    "JMP  0\nend\n",
    "JMP\t0\nend\n",
    "JMP 0\r\nend\n",
    "jmp 0\nend\n",
    "LOC",
    "LOCK 1\nend\n",
    "LD 0\nend\n",
    "LD 1\nend\n",
    "LDX 0 0\nend\n",
    "LDX 0 1\nend\n",
    "STM 0 1 1\nend\n",
    "OUT 0 0\nend\n",
    "BCNT 0\nend\n",
    "CAST ix:1\nend\n",
    "CAST ix:65537\nend\n",
    "CAST ix:\nend\n",
    "CAST ix:x\nend\n",
    "CAST bool\nend\n",
    "UN neg bool\nend\n",
    "BIN ++ ix:\nend\n",
    "PUSH 18446744073709551615\nend\n",
    "PUSH 18446744073709551616\nend\n",
    "PUSH -9223372036854775808\nend\n",
    "PUSH -9223372036854775809\nend\n",
    "PUSH -0\nend\n",
];

/// Two faults in one text: a line for the task, and what stands behind the ninth instruction.
const PAIRS: [(&str, &str); 10] = [
    ("task 5 1 1 0 10\n", "JMP 10\nend"),
    ("task 5 1 1 0 10\n", "JMP 10\nen\n"),
    ("task 5 1 1 0 10\n", "JMP 10\nend\nx"),
    ("task 5 1 1 0 10\n", "JMP x\nen\n"),
    ("task 05  1 0 10\n", "JMP 0\nend\n"),
    ("task 05 1 1 0 10\n", "JMP\nend\n"),
    ("task 5 0 1 0 10\n", "JMP 10\nend\n"),
    ("task 5 1 1048576 0 10\n", "JMP 10\nend\n"),
    ("task 5 1 1048577 0 10\n", "JMP 10\nend\n"),
    ("task 5 1 1 0 11\n", "JMP 10\nend\n"),
];

/// Tells of each text, by its number.
pub fn tell<R: Print + AllocGlobal>(rt: &R) -> io::Result<()> {
    let alloc = rt.alloc();
    for end in ENDS {
        let text = format!(in alloc; "{HEAD}{TASK}{CODE}{end}")?;
        let found = told(alloc, text.as_bytes())?;
        println!(rt; "{found}")?;
    }
    for (task, end) in PAIRS {
        let text = format!(in alloc; "{HEAD}{task}{CODE}{end}")?;
        let found = told(alloc, text.as_bytes())?;
        println!(rt; "{found}")?;
    }
    Ok(())
}
