//! The words of a line.
ghost use Rattle.std.specs.Prelude.{◌≡◌, ◌<◌, ◌≤◌, [], ◌∷◌, length, MatchOption};
ghost use Rattle.std.specs.List.{prefix_len};
ghost use Rattle.task_listing.specs.Lines.{words, whole_lines, behind_lines};
ghost use Rattle.task_listing.specs.FewWords.{listed, is_other};

/// The words of a line, where they are few.
#[derive(Clone, Copy)]
pub(crate) enum Words<'a> {
    One(&'a [u8]),
    Two(&'a [u8], &'a [u8]),
    Three(&'a [u8], &'a [u8], &'a [u8]),
    Four(&'a [u8], &'a [u8], &'a [u8], &'a [u8]),
    Five(&'a [u8], &'a [u8], &'a [u8], &'a [u8], &'a [u8]),
    Six(&'a [u8], &'a [u8], &'a [u8], &'a [u8], &'a [u8], &'a [u8]),
    Seven(&'a [u8], &'a [u8], &'a [u8], &'a [u8], &'a [u8], &'a [u8], &'a [u8]),
    /// Seven words, and what stands behind the blank after them.
    More(&'a [u8], &'a [u8], &'a [u8], &'a [u8], &'a [u8], &'a [u8], &'a [u8], &'a [u8]),
}

/// How many bytes a text begins with that are not this one.
pub(crate) fn len_before(byte: u8, text: &[u8]) -> usize
    ensures len { result ≡ prefix_len (is_other byte) text.now }
    ensures within { result ≤ length text.now }
{
    for (i, other) in text.iter().enumerate() {
        if *other == byte {
            return i;
        }
    }
    text.len()
}

/// The first word of a line, and what stands behind the blank after it.
fn split_word(line: &[u8]) -> (&[u8], Option<&[u8]>)
    ensures { MatchOption result.1 (words line.now ≡ result.0.now ∷ []) (λ rest. words line.now ≡ result.0.now ∷ words rest.now) }
{
    let len = len_before(b' ', line);
    let word = &line[..len];
    if len == line.len() {
        return (word, None);
    }
    let next = len + 1;
    (word, Some(&line[next..]))
}

/// The first whole line of a text, without its LF, and what stands behind it.
pub(crate) fn split_line(text: &[u8]) -> Option<(&[u8], &[u8])>
    ensures lines { MatchOption result (whole_lines text.now ≡ []) (λ r. whole_lines text.now ≡ r.0.now ∷ whole_lines r.1.now) }
    ensures behind { MatchOption result (behind_lines text.now ≡ text.now) (λ r. behind_lines text.now ≡ behind_lines r.1.now) }
    ensures shorter { MatchOption result (Unit {0}) (λ r. length r.1.now < length text.now) }
{
    let len = len_before(b'\n', text);
    if len == text.len() {
        return None;
    }
    let next = len + 1;
    Some((&text[..len], &text[next..]))
}

/// The words of a line.
pub(crate) fn line_words(line: &[u8]) -> Words<'_>
    ensures { words line.now ≡ listed result }
{
    let (a, rest) = split_word(line);
    let Some(rest) = rest else {
        return Words::One(a);
    };
    let (b, rest) = split_word(rest);
    let Some(rest) = rest else {
        return Words::Two(a, b);
    };
    let (c, rest) = split_word(rest);
    let Some(rest) = rest else {
        return Words::Three(a, b, c);
    };
    let (d, rest) = split_word(rest);
    let Some(rest) = rest else {
        return Words::Four(a, b, c, d);
    };
    let (e, rest) = split_word(rest);
    let Some(rest) = rest else {
        return Words::Five(a, b, c, d, e);
    };
    let (f, rest) = split_word(rest);
    let Some(rest) = rest else {
        return Words::Six(a, b, c, d, e, f);
    };
    let (g, rest) = split_word(rest);
    match rest {
        None => Words::Seven(a, b, c, d, e, f, g),
        Some(rest) => Words::More(a, b, c, d, e, f, g, rest),
    }
}
