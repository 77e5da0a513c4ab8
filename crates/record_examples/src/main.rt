//! Writes what is told of records, choices and orders that are damaged or stand at a limit.
//!
//! The file `list` names them, one a line, and each name ends with the reader of the file. All lie in the folder in
//! which the program runs, with `small.tower`, the system that the records and orders are for. The line `long` stands for
//! long texts, which are made here.
#![tactic(auto)]

use arch_checks::{Checked, check};
use event_record::{
    ChoiceFault, ChoiceKind, OrderFault, OrderKind, RecordFault, RecordKind, read_choices,
    read_order, read_record,
};
use std::alloc::{AllocError, Global};
use std::io;
use tower_io::{Fetch, FileShelf, fetch};

/// How many bytes are read of a file at most.
const MOST: usize = 16_777_216;

fn record_kind(kind: RecordKind) -> &'static str {
    match kind {
        RecordKind::Long => "long",
        RecordKind::Line => "line",
        RecordKind::Name => "name",
        RecordKind::Value => "value",
        RecordKind::Many => "many",
    }
}

fn choice_kind(kind: ChoiceKind) -> &'static str {
    match kind {
        ChoiceKind::Long => "long",
        ChoiceKind::Line => "line",
        ChoiceKind::Many => "many",
    }
}

fn order_kind(kind: OrderKind) -> &'static str {
    match kind {
        OrderKind::Long => "long",
        OrderKind::Line => "line",
        OrderKind::Name => "name",
    }
}

fn tell_record<R: Print + AllocGlobal>(
    rt: &R,
    arch: &Checked,
    name: &str,
    text: &[u8],
) -> io::Result<()> {
    match read_record(rt.alloc(), arch, text) {
        Ok(events) => println!(rt; "{name}: {}", events.entries.len()),
        Err(RecordFault::At { line, kind }) => {
            println!(rt; "{name}: {line} {}", record_kind(kind))
        }
        Err(RecordFault::NoMemory) => println!(rt; "{name}: no memory"),
    }
}

fn tell_choices<R: Print + AllocGlobal>(rt: &R, name: &str, text: &[u8]) -> io::Result<()> {
    match read_choices(rt.alloc(), text) {
        Ok(choices) => println!(rt; "{name}: {}", choices.len()),
        Err(ChoiceFault::At { line, kind }) => {
            println!(rt; "{name}: {line} {}", choice_kind(kind))
        }
        Err(ChoiceFault::NoMemory) => println!(rt; "{name}: no memory"),
    }
}

fn tell_order<R: Print + AllocGlobal>(
    rt: &R,
    arch: &Checked,
    name: &str,
    text: &[u8],
) -> io::Result<()> {
    match read_order(rt.alloc(), arch, text) {
        Ok(marks) => println!(rt; "{name}: {}", marks.len()),
        Err(OrderFault::At { line, kind }) => {
            println!(rt; "{name}: {line} {}", order_kind(kind))
        }
        Err(OrderFault::NoMemory) => println!(rt; "{name}: no memory"),
    }
}

/// The bytes of a file.
fn bytes_of(alloc: Global, shelf: &mut FileShelf<HostRuntime>, name: &str) -> Option<Vec<u8>> {
    let mut text = Vec::new(alloc);
    match fetch(alloc, shelf, name, MOST, &mut text) {
        Fetch::Done => Some(text),
        _ => None,
    }
}

/// What the reader that the name ends with tells of the text.
fn tell(rt: &HostRuntime, arch: &Checked, name: &str, text: &[u8]) -> io::Result<()> {
    if name.ends_with(".record") {
        tell_record(rt, arch, name, text)
    } else if name.ends_with(".choices") {
        tell_choices(rt, name, text)
    } else {
        tell_order(rt, arch, name, text)
    }
}

/// What is told of each file of the list.
fn tell_each(
    rt: &HostRuntime,
    shelf: &mut FileShelf<HostRuntime>,
    arch: &Checked,
    list: &str,
) -> io::Result<()> {
    for name in list.lines() {
        if name == "long" {
            tell_long(rt, arch)?;
            continue;
        }
        match bytes_of(rt.alloc(), shelf, name) {
            Some(text) => tell(rt, arch, name, text.as_slice())?,
            None => println!(rt; "{name}: not read")?,
        }
    }
    Ok(())
}

/// So many times the same bytes, between two texts.
fn repeated(
    alloc: Global,
    front: &[u8],
    each: &[u8],
    times: u32,
    end: &[u8],
) -> Result<Vec<u8>, AllocError> {
    let mut text = Vec::new(alloc);
    text.extend_from_slice(front)?;
    for _i in 0..times {
        text.extend_from_slice(each)?;
    }
    text.extend_from_slice(end)?;
    Ok(text)
}

/// What is told of so many times the same line.
fn tell_lines(
    rt: &HostRuntime,
    arch: &Checked,
    name: &str,
    line: &[u8],
    times: u32,
) -> io::Result<()> {
    match repeated(rt.alloc(), b"", line, times, b"") {
        Ok(text) => tell(rt, arch, name, text.as_slice()),
        Err(_) => println!(rt; "{name}: not made"),
    }
}

/// What is told of 16,777,216 blanks and an end.
fn tell_bytes(rt: &HostRuntime, arch: &Checked, name: &str, end: &[u8]) -> io::Result<()> {
    match repeated(rt.alloc(), b"", &[b'\n'; 64], 262_144, end) {
        Ok(text) => tell(rt, arch, name, text.as_slice()),
        Err(_) => println!(rt; "{name}: not made"),
    }
}

/// What is told of a value of so many numbers for an array of 4,096.
fn tell_numbers(rt: &HostRuntime, arch: &Checked, name: &str, times: u32) -> io::Result<()> {
    match repeated(rt.alloc(), b"sig big (", b"1 ", times, b")") {
        Ok(text) => tell(rt, arch, name, text.as_slice()),
        Err(_) => println!(rt; "{name}: not made"),
    }
}

/// What is told of texts at the limits, and of the next longer ones.
fn tell_long(rt: &HostRuntime, arch: &Checked) -> io::Result<()> {
    tell_lines(rt, arch, "the_most_ticks.record", b"tick\n", 1_000_000)?;
    tell_lines(rt, arch, "one_tick_more.record", b"tick\n", 1_000_001)?;
    tell_lines(rt, arch, "the_most_choices.choices", b"idle\n", 1_000_000)?;
    tell_lines(rt, arch, "one_choice_more.choices", b"idle\n", 1_000_001)?;
    tell_lines(rt, arch, "a_million_and_one.order", b"a\n", 1_000_001)?;
    tell_numbers(rt, arch, "4095_numbers.record", 4095)?;
    tell_numbers(rt, arch, "4096_numbers.record", 4096)?;
    tell_numbers(rt, arch, "4097_numbers.record", 4097)?;
    tell_bytes(rt, arch, "the_most_bytes.record", b"")?;
    tell_bytes(rt, arch, "one_byte_more.record", b"\n")?;
    tell_bytes(rt, arch, "the_most_bytes.choices", b"")?;
    tell_bytes(rt, arch, "one_byte_more.choices", b"\n")?;
    tell_bytes(rt, arch, "the_most_bytes.order", b"")?;
    tell_bytes(rt, arch, "one_byte_more.order", b"\n")
}

/// What is told of each text that the list names.
fn tell_listed(
    rt: &HostRuntime,
    shelf: &mut FileShelf<HostRuntime>,
    arch: &Checked,
) -> io::Result<()> {
    let Some(list) = bytes_of(rt.alloc(), shelf, "list") else {
        return println!(rt; "the list is not read");
    };
    match str::from_utf8(list.as_slice()) {
        Ok(list) => tell_each(rt, shelf, arch, list),
        Err(_) => println!(rt; "the list is no text"),
    }
}

/// The system that the records and orders are for.
fn system(rt: &HostRuntime, shelf: &mut FileShelf<HostRuntime>) -> Option<Checked> {
    let text = bytes_of(rt.alloc(), shelf, "small.tower")?;
    match check(rt.alloc(), text.as_slice()) {
        Ok(arch) => Some(arch),
        Err(_) => None,
    }
}

fn main(rt: HostRuntime) -> io::Result<()> {
    let mut shelf = FileShelf::new(&rt);
    match system(&rt, &mut shelf) {
        Some(arch) => tell_listed(&rt, &mut shelf, &arch),
        None => println!(&rt; "the system is refused"),
    }
}
