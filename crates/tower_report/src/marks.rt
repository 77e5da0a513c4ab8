//! The lines of a step.
ghost use Rattle.std.specs.Prelude.{◌≡◌, ◌<◌, ◌≤◌, length};
ghost use Rattle.tower_types.specs.Ty.{depth, words as words_in};
ghost use Rattle.arch_checks.specs.Offences.{source_name};
ghost use Rattle.tower_report.specs.MarkText.{IsMarkOf, mark_line, out_line, output_shape};
ghost use Rattle.tower_report.specs.Puts.{Puts};

use crate::pieces::{answer, put_line};
use crate::words::put_words_line;
use itoa::Buffer;
use tower_io::{Put, Sink};
use tower_syntax::{Arch, Mark};

/// Puts the line of a mark that was made when `n` instructions were executed, that of the mark included.
pub fn put_mark<O: Sink>(out: &mut O, arch: &Arch, n: u64, mark: Mark) -> Put
    requires { IsMarkOf arch.now mark }
    ensures { Puts O.written O.faults out.old out.new (mark_line arch.now n mark) result }
{
    let mut buffer = Buffer::new();
    let number = buffer.format(n).as_bytes();
    let written = match mark {
        Mark::Arrive => put_line(out, &[number, b"a"]),
        Mark::Start(x) => put_line(out, &[number, b"s", source_name(arch, x)]),
        Mark::Run(x) => put_line(out, &[number, b"r", source_name(arch, x)]),
        Mark::Out(x) => put_line(out, &[number, b"o", source_name(arch, x)]),
    };
    answer(written)
}

fn source_name(arch: &Arch, x: u32) -> &[u8]
    requires { x < length arch.now.sources }
    ensures { result.now ≡ source_name arch.now x }
{
    arch.source(x).name.bytes()
}

/// Puts the line of a message on output `o`, of which these are the words.
pub fn put_out<O: Sink>(out: &mut O, arch: &Arch, o: u32, words: &[i128]) -> Put
    requires exists { o < length arch.now.outputs }
    requires shallow { depth (output_shape arch.now o) ≤ 32 }
    requires whole { length words.now ≡ words_in (output_shape arch.now o) }
    ensures { Puts O.written O.faults out.old out.new (out_line arch.now (o, words.now)) result }
{
    let output = arch.output(o);
    let message = &arch.channel(output.channel).message;
    answer(put_words_line(
        out,
        &[b"out", output.name.bytes()],
        arch.records(),
        message,
        words,
    ))
}
