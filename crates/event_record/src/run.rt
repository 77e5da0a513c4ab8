//! Runs of bytes of one sort.
ghost use Rattle.std.specs.Prelude.{◌≡◌, ◌≤◌, length};
ghost use Rattle.std.specs.List.{prefix_len};
ghost use Rattle.event_record.specs.Lines.{is_blank};
ghost use Rattle.event_record.specs.Tokens.{class_of};
ghost use Rattle.event_record.specs.Runs.{is_of};

/// What a byte of a value's text is.
#[derive(Clone, Copy, PartialEq, Eq)]
pub(crate) enum Class {
    Blank,
    Left,
    Right,
    /// A byte of an atom.
    Atom,
    /// A byte that no value may hold.
    Stray,
}

/// A sort of bytes.
#[derive(Clone, Copy)]
pub(crate) enum Sort {
    /// Any byte but LF.
    Line,
    /// Any byte but a blank.
    Word,
    Blank,
    /// A byte of an atom.
    Atom,
}

fn is_blank(byte: u8) -> bool
    ensures { result ≡ is_blank byte }
{
    byte == 0x20 || byte == 0x09 || byte == 0x0A || byte == 0x0D
}

pub(crate) fn class_of(byte: u8) -> Class
    ensures { result ≡ class_of byte }
{
    match byte {
        0x20 | 0x09 | 0x0A | 0x0D => Class::Blank,
        b'(' => Class::Left,
        b')' => Class::Right,
        b';' => Class::Stray,
        0x21..=0x7E => Class::Atom,
        _ => Class::Stray,
    }
}

#[inline(always)]
fn is_of(sort: Sort, byte: u8) -> bool
    ensures { result ≡ is_of sort byte }
{
    match sort {
        Sort::Line => byte != 0x0A,
        Sort::Word => !is_blank(byte),
        Sort::Blank => is_blank(byte),
        Sort::Atom => class_of(byte) == Class::Atom,
    }
}

/// How many bytes of the sort a text begins with.
#[inline]
pub(crate) fn run_len(sort: Sort, text: &[u8]) -> usize
    ensures len { result ≡ prefix_len (is_of sort) text.now }
    ensures within { result ≤ length text.now }
{
    for (i, byte) in text.iter().enumerate() {
        if !is_of(sort, *byte) {
            return i;
        }
    }
    text.len()
}
