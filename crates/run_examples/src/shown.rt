//! What is shown of a call.

use crate::call::Answer;
use std::alloc::{AllocError, Global};

/// How the text of a run is shown.
#[derive(Clone, Copy)]
pub enum Shown {
    /// As it is.
    Whole,
    /// Without the counts of instructions: those in front of the marks, and those of `count` and of each core. Of the
    /// count of waits only whether it is 0.
    Marks,
    /// With the number of the marks in place of them, and without the count.
    Number,
}

/// A line of a run.
#[derive(Clone, Copy)]
enum Line<'a> {
    Mark(&'a str),
    Count(&'a str),
    Core(&'a str),
    Waits,
    Other,
}

/// The core of the words behind `core`: the first of them.
fn core_of(words: &str) -> &str {
    match words.split_once(' ') {
        Some((core, _)) => core,
        None => words,
    }
}

/// A mark stands behind a number.
fn line_of(line: &str) -> Line<'_> {
    let Some((first, rest)) = line.split_once(' ') else {
        return Line::Other;
    };
    if first == "count" {
        Line::Count(rest)
    } else if first == "core" {
        Line::Core(core_of(rest))
    } else if first == "waits" && rest != "0" {
        Line::Waits
    } else if first.parse::<u64>().is_ok() {
        Line::Mark(rest)
    } else {
        Line::Other
    }
}

/// A line without its count of instructions.
fn uncounted(alloc: Global, line: &str) -> Result<String, AllocError> {
    match line_of(line) {
        Line::Mark(mark) => String::from_str(alloc, mark),
        Line::Count(_) => String::from_str(alloc, "count *"),
        Line::Core(core) => format!(in alloc; "core {core} *"),
        Line::Waits => String::from_str(alloc, "waits, at least 1"),
        Line::Other => String::from_str(alloc, line),
    }
}

/// The text with its marks, but with no count of instructions.
fn with_marks(alloc: Global, text: &str) -> Result<String, AllocError> {
    let mut shown = String::new(alloc);
    for line in text.lines() {
        let line = uncounted(alloc, line)?;
        shown.push_str(line.as_str())?;
        shown.push('\n')?;
    }
    Ok(shown)
}

/// The number of the marks of a text.
fn marks_in(text: &str) -> u64 {
    let mut marks = 0u64;
    for line in text.lines() {
        if let Line::Mark(_) = line_of(line) {
            marks = marks.saturating_add(1);
        }
    }
    marks
}

/// The lines that are no marks.
fn without_marks(alloc: Global, text: &str) -> Result<String, AllocError> {
    let mut shown = String::new(alloc);
    for line in text.lines() {
        if let Line::Mark(_) = line_of(line) {
            continue;
        }
        let line = uncounted(alloc, line)?;
        shown.push_str(line.as_str())?;
        shown.push('\n')?;
    }
    Ok(shown)
}

/// What is shown of the text of a run.
fn show_run(alloc: Global, text: &str, how: Shown) -> Result<String, AllocError> {
    match how {
        Shown::Whole => String::from_str(alloc, text),
        Shown::Marks => with_marks(alloc, text),
        Shown::Number => {
            let others = without_marks(alloc, text)?;
            let marks = marks_in(text);
            format!(in alloc; "marks {marks}\n{others}")
        }
    }
}

/// A text that was written; it is ASCII.
fn written(text: &[u8]) -> &str {
    match str::from_utf8(text) {
        Ok(text) => text,
        Err(_) => "no text\n",
    }
}

/// What is shown of a call: what it wrote on `out` and on `err`, and its status.
pub fn show(alloc: Global, answer: &Answer, how: Shown) -> Result<String, AllocError> {
    let out = show_run(alloc, written(answer.out.as_slice()), how)?;
    let err = written(answer.err.as_slice());
    let status = answer.status.code();
    format!(in alloc; "{out}{err}status {status}\n")
}

/// The number of instructions that the text of a run tells; 0 where it tells none.
pub fn count_in(text: &[u8]) -> u64 {
    for line in written(text).lines() {
        if let Line::Count(number) = line_of(line) {
            return number.parse::<u64>().unwrap_or(0);
        }
    }
    0
}
