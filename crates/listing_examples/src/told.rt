//! What is told of a text.
use std::alloc::{AllocError, Global};
use task_listing::{ListFault, ListKind, read, write};

/// The word of a kind of fault.
fn word(kind: ListKind) -> &'static str {
    match kind {
        ListKind::Long => "long",
        ListKind::Line => "line",
        ListKind::Number => "number",
        ListKind::Short => "short",
        ListKind::After => "after",
        ListKind::Place => "place",
        ListKind::Limit => "limit",
    }
}

/// Whether a text is read, and its program is written as the same text again; or the fault.
fn read_back(alloc: Global, text: &[u8]) -> Result<bool, ListFault> {
    let program = read(alloc, text)?;
    match write(alloc, &program) {
        Ok(bytes) => Ok(bytes.as_slice() == text),
        Err(_) => Err(ListFault::NoMemory),
    }
}

/// `listing`, where the text is one and is written as the same text again, or its fault.
pub fn told(alloc: Global, text: &[u8]) -> Result<String, AllocError> {
    match read_back(alloc, text) {
        Ok(true) => String::from_str(alloc, "listing"),
        Ok(false) => String::from_str(alloc, "changed"),
        Err(ListFault::NoMemory) => String::from_str(alloc, "no memory"),
        Err(ListFault::At { line, kind }) => {
            let word = word(kind);
            format!(in alloc; "{word} {line}")
        }
    }
}
