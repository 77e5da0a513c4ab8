//! What a byte of a text is.
ghost use Rattle.std.specs.Prelude.{◌≡◌};
ghost use Rattle.tower_sexp.specs.Marks.{class_of, class_in};

/// What a byte is, by itself and by whether it comes in a comment.
#[derive(Clone, Copy, Debug, PartialEq, Eq)]
pub(crate) enum Class {
    Blank,
    Left,
    Right,
    /// A byte of a comment: the `;` that begins it, or one before the next LF.
    Comment,
    /// A byte of an atom.
    Atom,
    /// A byte that nothing may hold outside a comment.
    Stray,
}

const LF: u8 = 0x0A;

fn class_of(byte: u8) -> Class
    ensures { result ≡ class_of byte }
{
    match byte {
        0x20 | 0x09 | 0x0A | 0x0D => Class::Blank,
        b'(' => Class::Left,
        b')' => Class::Right,
        b';' => Class::Comment,
        0x21..=0x7E => Class::Atom,
        _ => Class::Stray,
    }
}

/// The class of a byte, where `comment` says whether the byte before it is one of a comment.
pub(crate) fn class_in(comment: bool, byte: u8) -> Class
    ensures { result ≡ class_in comment byte }
{
    if !comment {
        class_of(byte)
    } else if byte == LF {
        Class::Blank
    } else {
        Class::Comment
    }
}
