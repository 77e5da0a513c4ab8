//! Pieces of a text, put one after another until one fails.
ghost use Rattle.std.specs.Prelude.{◌≡◌, [], ◌∷◌, map};
ghost use Rattle.tower_report.specs.Bytes.{spaced, line, head, separator};
ghost use Rattle.tower_report.specs.ValueText.{number_text};
ghost use Rattle.tower_report.specs.Puts.{Puts, answer_of};

use itoa::Buffer;
use tower_io::{Put, Sink};
use tower_types::Scalar;

/// A put failed. What comes after it is not put.
#[derive(Clone, Copy, Debug, PartialEq, Eq)]
pub(crate) struct PutFailed;

/// Whether a whole text was put.
pub(crate) type Written = Result<(), PutFailed>;

/// The answer of a call that was written with `?`.
pub(crate) fn answer(written: Written) -> Put
    ensures { result ≡ answer_of written }
{
    match written {
        Ok(()) => Put::Done,
        Err(PutFailed) => Put::Failed,
    }
}

/// Puts a piece.
pub(crate) fn put_piece<O: Sink>(out: &mut O, piece: &[u8]) -> Written
    ensures { Puts O.written O.faults out.old out.new piece.now (answer_of result) }
{
    match out.put(piece) {
        Put::Done => Ok(()),
        Put::Failed => Err(PutFailed),
    }
}

/// Puts a number of a scalar: `true` or `false` at a `Bool`, and otherwise a plain decimal.
pub(crate) fn put_number<O: Sink>(out: &mut O, t: Scalar, n: i128) -> Written
    ensures { Puts O.written O.faults out.old out.new (number_text t n) (answer_of result) }
{
    match t {
        Scalar::Bool => {
            let truth = if n == 0 { "false" } else { "true" };
            put_piece(out, truth.as_bytes())
        }
        _ => {
            let mut buffer = Buffer::new();
            put_piece(out, buffer.format(n).as_bytes())
        }
    }
}

/// Puts the blank that stands before each item of a list but the first.
pub(crate) fn put_separator<O: Sink>(out: &mut O, index: usize) -> Written
    ensures { Puts O.written O.faults out.old out.new (separator index) (answer_of result) }
{
    if index == 0 {
        return Ok(());
    }
    put_piece(out, b" ")
}

/// Puts words with one blank between.
pub(crate) fn put_spaced<O: Sink>(out: &mut O, words: &[&[u8]]) -> Written
    ensures { Puts O.written O.faults out.old out.new (spaced (map (λ w. w.now) words.now)) (answer_of result) }
{
    for (i, word) in words.iter().enumerate() {
        put_separator(out, i)?;
        put_piece(out, word)?;
    }
    Ok(())
}

/// Puts a line of words.
pub(crate) fn put_line<O: Sink>(out: &mut O, words: &[&[u8]]) -> Written
    ensures { Puts O.written O.faults out.old out.new (line (map (λ w. w.now) words.now)) (answer_of result) }
{
    put_spaced(out, words)?;
    put_piece(out, b"\n")?;
    Ok(())
}

/// Puts the words at the head of a line, each with a blank after it.
pub(crate) fn put_head<O: Sink>(out: &mut O, words: &[&[u8]]) -> Written
    ensures { Puts O.written O.faults out.old out.new (head (map (λ w. w.now) words.now)) (answer_of result) }
{
    put_spaced(out, words)?;
    put_piece(out, b" ")?;
    Ok(())
}
