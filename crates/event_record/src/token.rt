//! The tokens of a value's text.
ghost use Rattle.std.specs.Prelude.{◌≡◌, length, true};
ghost use Rattle.event_record.specs.Tokens.{tokens, is_at_atom};
ghost use Rattle.event_record.specs.FirstToken.{Comes, IsShorter};

use crate::run::{Class, Sort, class_of, run_len};

/// The first token of a text, and what stands behind it.
#[derive(Clone, Copy)]
pub(crate) enum Ahead<'a> {
    End,
    Left(&'a [u8]),
    Right(&'a [u8]),
    Atom(&'a [u8], &'a [u8]),
    /// A byte that no value may hold.
    Stray,
}

/// The atom that a text begins with.
fn atom(text: &[u8]) -> Ahead<'_>
    requires { is_at_atom text.now ≡ true }
    ensures comes { Comes (tokens text.now) result }
    ensures shorter { IsShorter (length text.now) result }
{
    let len = run_len(Sort::Atom, text);
    Ahead::Atom(&text[..len], &text[len..])
}

/// The first token of a text.
pub(crate) fn first_token(text: &[u8]) -> Ahead<'_>
    ensures comes { Comes (tokens text.now) result }
    ensures shorter { IsShorter (length text.now) result }
{
    let mut rest = text;
    while let [first, behind @ ..] = rest {
        match class_of(*first) {
            Class::Blank => rest = behind,
            Class::Left => return Ahead::Left(behind),
            Class::Right => return Ahead::Right(behind),
            Class::Stray => return Ahead::Stray,
            Class::Atom => return atom(rest),
        }
    }
    Ahead::End
}
