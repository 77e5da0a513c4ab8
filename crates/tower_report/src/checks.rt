//! The text that tells of an accepted file.
ghost use Rattle.std.specs.Prelude.{◌≡◌, ◌<◌, [], ◌∷◌, length, decimal};
ghost use Rattle.tower_report.specs.Bytes.{line};
ghost use Rattle.tower_report.specs.CheckText.{check_text, counts_line, cost_line, costs_text};
ghost use Rattle.tower_report.specs.Puts.{Puts, answer_of};

use crate::pieces::{Written, answer, put_line};
use arch_checks::Checked;
use itoa::Buffer;
use tower_io::{Put, Sink};
use tower_syntax::Arch;

/// Puts a line of a word and a number.
fn put_weight<O: Sink>(out: &mut O, word: &[u8], n: u64) -> Written
    ensures { Puts O.written O.faults out.old out.new (line (word.now ∷ decimal n ∷ [])) (answer_of result) }
{
    let mut buffer = Buffer::new();
    let number = buffer.format(n).as_bytes();
    put_line(out, &[word, number])
}

/// Puts how many there are of each part.
fn put_counts<O: Sink>(out: &mut O, arch: &Arch) -> Written
    ensures { Puts O.written O.faults out.old out.new (counts_line arch.now) (answer_of result) }
{
    let mut records = Buffer::new();
    let mut sources = Buffer::new();
    let mut channels = Buffer::new();
    let mut outputs = Buffer::new();
    let mut monitors = Buffer::new();
    let mut handlers = Buffer::new();
    put_line(
        out,
        &[
            b"records",
            records.format(arch.records().len()).as_bytes(),
            b"sources",
            sources.format(arch.sources().len()).as_bytes(),
            b"channels",
            channels.format(arch.channels().len()).as_bytes(),
            b"outputs",
            outputs.format(arch.outputs().len()).as_bytes(),
            b"monitors",
            monitors.format(arch.monitors().len()).as_bytes(),
            b"handlers",
            handlers.format(arch.handlers().len()).as_bytes(),
        ],
    )
}

/// Puts the cost of a source.
fn put_cost<O: Sink>(out: &mut O, checked: &Checked, s: u32) -> Written
    requires { s < length checked.now.sources }
    ensures { Puts O.written O.faults out.old out.new (cost_line checked.now s) (answer_of result) }
{
    let mut buffer = Buffer::new();
    let number = buffer.format(checked.cost(s)).as_bytes();
    put_line(
        out,
        &[b"cost", checked.arch().source(s).name.bytes(), number],
    )
}

/// Puts the cost of each source.
fn put_costs<O: Sink>(out: &mut O, checked: &Checked) -> Written
    ensures { Puts O.written O.faults out.old out.new (costs_text checked.now) (answer_of result) }
{
    for s in 0..checked.arch().sources().len() {
        put_cost(out, checked, s as u32)?;
    }
    Ok(())
}

fn put_all<O: Sink>(out: &mut O, checked: &Checked) -> Written
    ensures { Puts O.written O.faults out.old out.new (check_text checked.now) (answer_of result) }
{
    put_line(out, &[b"tower", checked.arch().name().bytes()])?;
    put_counts(out, checked.arch())?;
    put_costs(out, checked)?;
    put_weight(out, b"memory", checked.memory())?;
    put_weight(out, b"code", checked.code())?;
    put_line(out, &[b"ok"])?;
    Ok(())
}

/// Puts the text of an accepted file: its name, how many there are of each part, and its weights.
pub fn put_check<O: Sink>(out: &mut O, checked: &Checked) -> Put
    ensures { Puts O.written O.faults out.old out.new (check_text checked.now) result }
{
    answer(put_all(out, checked))
}
