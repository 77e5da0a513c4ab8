//! The lines of a text, and the words of a line.
ghost use Rattle.std.specs.Prelude.{◌≡◌, ◌≢◌, ◌<◌, ◌≤◌, [], ◌∷◌, length, MatchOption};
ghost use Rattle.event_record.specs.Lines.{lines, words, behind_word, begins_with};
ghost use Rattle.event_record.specs.FewWords.{HasFew};

use crate::run::{Sort, run_len};

/// How many bytes a text may have.
pub(crate) const BYTE_LIMIT: usize = 16_777_216;

/// The first line of a text, and the lines behind it.
pub(crate) fn split_line(text: &[u8]) -> (&[u8], &[u8])
    requires { text.now ≢ [] }
    ensures lines { lines text.now ≡ result.0.now ∷ lines result.1.now }
    ensures shorter { length result.1.now < length text.now }
{
    let end = run_len(Sort::Line, text);
    let line = &text[..end];
    if end == text.len() {
        return (line, &[]);
    }
    let next = end + 1;
    (line, &text[next..])
}

/// The first word of a line, and what stands behind it.
pub(crate) fn split_word(line: &[u8]) -> Option<(&[u8], &[u8])>
    ensures words { MatchOption result (words line.now ≡ []) (λ r. words line.now ≡ r.0.now ∷ words r.1.now) }
    ensures behind { MatchOption result (Unit {0}) (λ r. r.1.now ≡ behind_word line.now) }
{
    let blanks = run_len(Sort::Blank, line);
    if blanks == line.len() {
        return None;
    }
    let text = &line[blanks..];
    let len = run_len(Sort::Word, text);
    Some((&text[..len], &text[len..]))
}

/// The words of a text, where they are at most two.
#[derive(Clone, Copy)]
pub(crate) enum Few<'a> {
    None,
    One(&'a [u8]),
    Two(&'a [u8], &'a [u8]),
    More,
}

/// The words of a text.
pub(crate) fn few_words(text: &[u8]) -> Few<'_>
    ensures { HasFew (words text.now) result }
{
    let Some((first, rest)) = split_word(text) else {
        return Few::None;
    };
    let Some((second, rest)) = split_word(rest) else {
        return Few::One(first);
    };
    match split_word(rest) {
        None => Few::Two(first, second),
        Some(_) => Few::More,
    }
}

/// Whether a word begins a comment.
pub(crate) fn is_comment(word: &[u8]) -> bool
    ensures { result ≡ begins_with 0x3B word.now }
{
    match word {
        [] => false,
        [first, ..] => *first == b';',
    }
}
