//! The lines at the end of a run.
ghost use Rattle.std.specs.Prelude.{◌≡◌, ◌<◌, ◌≤◌, length, All};
ghost use Rattle.tower_types.specs.Ty.{NamesBelow};
ghost use Rattle.tower_types.specs.View.{fields_of};
ghost use Rattle.tower_syntax.specs.Weights.{states_of};
ghost use Rattle.tower_report.specs.EndText.{monitor_text, states_text, lost_text, count_line, waits_line, core_line, last_line};
ghost use Rattle.tower_report.specs.ValueText.{shapes_in, shapes_depth, shapes_words};
ghost use Rattle.tower_report.specs.Puts.{Puts, answer_of};

use crate::pieces::{Written, answer, put_line};
use crate::words::put_words_line;
use itoa::Buffer;
use tower_io::{Put, Sink};
use tower_syntax::Arch;
use tower_types::{Name, Records, Ty};

/// Puts the line of monitor `m`, which is locked.
pub fn put_held<O: Sink>(out: &mut O, arch: &Arch, m: u32) -> Put
    requires { m < length arch.now.monitors }
    ensures { Puts O.written O.faults out.old out.new (monitor_text arch.now m None) result }
{
    answer(put_line(out, &[b"held", arch.monitor(m).name.bytes()]))
}

/// Puts the line of each state of monitor `m`, which has these words.
pub fn put_states<O: Sink>(out: &mut O, arch: &Arch, m: u32, words: &[i128]) -> Put
    requires exists { m < length arch.now.monitors }
    requires shallow { shapes_depth (shapes_in arch.now.records (states_of arch.now m)) ≤ 32 }
    requires whole { length words.now ≡ shapes_words (shapes_in arch.now.records (states_of arch.now m)) }
    ensures { Puts O.written O.faults out.old out.new (monitor_text arch.now m (Some words.now)) result }
{
    let monitor = arch.monitor(m);
    answer(put_state_lines(
        out,
        arch.records(),
        &monitor.name,
        monitor.states.as_slice(),
        words,
    ))
}

fn put_state_lines<O: Sink>(
    out: &mut O,
    records: &Records,
    monitor: &Name,
    states: &[(Name, Ty)],
    words: &[i128],
) -> Written
    requires known { All (λ f. NamesBelow (length records.now) f.1) (fields_of states.now) }
    requires shallow { shapes_depth (shapes_in records.now (fields_of states.now)) ≤ 32 }
    requires whole { length words.now ≡ shapes_words (shapes_in records.now (fields_of states.now)) }
    ensures { Puts O.written O.faults out.old out.new (states_text records.now monitor.now (fields_of states.now) words.now) (answer_of result) }
{
    let mut rest = words;
    for (name, t) in states {
        let width = tower_types::words(records, t) as usize;
        let (state, more) = rest.split_at(width);
        put_words_line(
            out,
            &[b"state", monitor.bytes(), name.bytes()],
            records,
            t,
            state,
        )?;
        rest = more;
    }
    Ok(())
}

/// Puts the number of messages that source `x` has lost, if it is a period or signal of a file of version 2.
pub fn put_lost<O: Sink>(out: &mut O, arch: &Arch, x: u32, n: u64) -> Put
    requires { x < length arch.now.sources }
    ensures { Puts O.written O.faults out.old out.new (lost_text arch.now x n) result }
{
    let source = arch.source(x);
    if source.depth.is_none() {
        return Put::Done;
    }
    let mut buffer = Buffer::new();
    let number = buffer.format(n).as_bytes();
    answer(put_line(out, &[b"lost", source.name.bytes(), number]))
}

/// Puts the number of instructions of the run.
pub fn put_count<O: Sink>(out: &mut O, n: u64) -> Put
    ensures { Puts O.written O.faults out.old out.new (count_line n) result }
{
    let mut buffer = Buffer::new();
    let number = buffer.format(n).as_bytes();
    answer(put_line(out, &[b"count", number]))
}

/// Puts the number of instructions before which the rule named a waiting task.
pub fn put_waits<O: Sink>(out: &mut O, n: u64) -> Put
    ensures { Puts O.written O.faults out.old out.new (waits_line n) result }
{
    let mut buffer = Buffer::new();
    let number = buffer.format(n).as_bytes();
    answer(put_line(out, &[b"waits", number]))
}

/// Puts the number of instructions on a core.
pub fn put_core<O: Sink>(out: &mut O, core: u32, n: u64) -> Put
    ensures { Puts O.written O.faults out.old out.new (core_line core n) result }
{
    let mut core_buffer = Buffer::new();
    let core = core_buffer.format(core).as_bytes();
    let mut buffer = Buffer::new();
    let number = buffer.format(n).as_bytes();
    answer(put_line(out, &[b"core", core, number]))
}

/// Puts the last line: whether the run was stopped.
pub fn put_end<O: Sink>(out: &mut O, stopped: bool) -> Put
    ensures { Puts O.written O.faults out.old out.new (last_line stopped) result }
{
    let end = if stopped { "stopped" } else { "done" };
    answer(put_line(out, &[end.as_bytes()]))
}
