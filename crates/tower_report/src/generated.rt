//! The text that tells of a generated system and of its run.
ghost use Rattle.std.specs.Prelude.{◌≡◌};
ghost use Rattle.tower_report.specs.GeneratedText.{number_line, weights_text, marks_text, numbers_text, generated_text};
ghost use Rattle.tower_report.specs.Puts.{Puts, answer_of};

use crate::ends::put_end;
use crate::pieces::{PutFailed, Written, put_line};
use itoa::Buffer;
use tower_io::{Put, Sink};

/// A generated system: its number, the cost of each of its sources, its other weights, and of its run the numbers of marks
/// `s`, `r` and `o` and that of instructions.
#[derive(Clone, Copy, Debug, PartialEq, Eq)]
pub struct Generated {
    pub number: u64,
    pub cost: u64,
    pub memory: u64,
    pub code: u64,
    pub starts: u64,
    pub runs: u64,
    pub outs: u64,
    pub count: u64,
}

/// Puts a line of a word and a number.
fn put_number_line<O: Sink>(out: &mut O, word: &[u8], n: u64) -> Written
    ensures { Puts O.written O.faults out.old out.new (number_line word.now n) (answer_of result) }
{
    let mut buffer = Buffer::new();
    let number = buffer.format(n).as_bytes();
    put_line(out, &[word, number])
}

/// Puts the number of the system and its weights.
fn put_weights<O: Sink>(out: &mut O, generated: &Generated) -> Written
    ensures { Puts O.written O.faults out.old out.new (weights_text generated.now) (answer_of result) }
{
    put_number_line(out, b"gen", generated.number)?;
    put_number_line(out, b"cost", generated.cost)?;
    put_number_line(out, b"memory", generated.memory)?;
    put_number_line(out, b"code", generated.code)?;
    Ok(())
}

/// Puts the numbers of marks.
fn put_marks<O: Sink>(out: &mut O, generated: &Generated) -> Written
    ensures { Puts O.written O.faults out.old out.new (marks_text generated.now) (answer_of result) }
{
    put_number_line(out, b"starts", generated.starts)?;
    put_number_line(out, b"runs", generated.runs)?;
    put_number_line(out, b"outs", generated.outs)?;
    Ok(())
}

/// Puts all but the last line.
fn put_numbers<O: Sink>(out: &mut O, generated: &Generated) -> Written
    ensures { Puts O.written O.faults out.old out.new (numbers_text generated.now) (answer_of result) }
{
    put_weights(out, generated)?;
    put_marks(out, generated)?;
    put_number_line(out, b"count", generated.count)?;
    Ok(())
}

/// Puts the text of a generated system and of its run, which came to its end.
pub fn put_generated<O: Sink>(out: &mut O, generated: &Generated) -> Put
    ensures { Puts O.written O.faults out.old out.new (generated_text generated.now) result }
{
    match put_numbers(out, generated) {
        Ok(()) => put_end(out, false),
        Err(PutFailed) => Put::Failed,
    }
}
