//! The lines of a replay.
ghost use Rattle.std.specs.Prelude.{◌≡◌, ◌<◌, ◌≤◌, length, All};
ghost use Rattle.tower_types.specs.Ty.{NamesBelow, shapes_of, depth};
ghost use Rattle.tower_types.specs.View.{fields_of, value_of, all_values_of};
ghost use Rattle.tower_syntax.specs.Weights.{states_of};
ghost use Rattle.arch_checks.specs.Offences.{source_name};
ghost use Rattle.tower_report.specs.EndText.{state_lines};
ghost use Rattle.tower_report.specs.MarkText.{output_shape};
ghost use Rattle.tower_report.specs.ReplayText.{message_line, monitor_value_text, waiting_line, pending_line, misfit_line};
ghost use Rattle.tower_report.specs.ValueText.{shapes_in, shapes_depth, texts_of_values};
ghost use Rattle.tower_report.specs.Puts.{Puts, answer_of};

use crate::pieces::{Written, answer, put_line};
use crate::values::{parts, put_value_line};
use itoa::Buffer;
use tower_io::{Put, Sink};
use tower_syntax::Arch;
use tower_types::{Name, Records, Ty, Value};

/// Puts the line of a message on output `o`.
pub fn put_message<O: Sink>(out: &mut O, arch: &Arch, o: u32, message: &Value) -> Put
    requires exists { o < length arch.now.outputs }
    requires shallow { depth (output_shape arch.now o) ≤ 32 }
    ensures { Puts O.written O.faults out.old out.new (message_line arch.now (o, value_of message.now)) result }
{
    let output = arch.output(o);
    let t = &arch.channel(output.channel).message;
    answer(put_value_line(
        out,
        &[b"out", output.name.bytes()],
        arch.records(),
        t,
        message,
    ))
}

/// Puts the line of each state of monitor `m`, which has this value.
pub fn put_state_values<O: Sink>(out: &mut O, arch: &Arch, m: u32, v: &Value) -> Put
    requires exists { m < length arch.now.monitors }
    requires shallow { shapes_depth (shapes_in arch.now.records (states_of arch.now m)) ≤ 32 }
    ensures { Puts O.written O.faults out.old out.new (monitor_value_text arch.now m (value_of v.now)) result }
{
    let monitor = arch.monitor(m);
    answer(put_value_lines(
        out,
        arch.records(),
        &monitor.name,
        monitor.states.as_slice(),
        parts(v),
    ))
}

fn put_value_lines<O: Sink>(
    out: &mut O,
    records: &Records,
    monitor: &Name,
    states: &[(Name, Ty)],
    values: &[Value],
) -> Written
    requires known { All (λ f. NamesBelow (length records.now) f.1) (fields_of states.now) }
    requires shallow { shapes_depth (shapes_in records.now (fields_of states.now)) ≤ 32 }
    ensures { let texts = texts_of_values (shapes_of (shapes_in records.now (fields_of states.now))) (all_values_of values.now) in
        Puts O.written O.faults out.old out.new (state_lines monitor.now (fields_of states.now) texts) (answer_of result) }
{
    let count = states.len().min(values.len());
    for i in 0..count {
        let (name, t) = &states[i];
        put_value_line(
            out,
            &[b"state", monitor.bytes(), name.bytes()],
            records,
            t,
            &values[i],
        )?;
    }
    Ok(())
}

/// Puts how many messages wait at source `x`.
pub fn put_waiting<O: Sink>(out: &mut O, arch: &Arch, x: u32, n: u64) -> Put
    requires { x < length arch.now.sources }
    ensures { Puts O.written O.faults out.old out.new (waiting_line (source_name arch.now x) n) result }
{
    let mut buffer = Buffer::new();
    let number = buffer.format(n).as_bytes();
    answer(put_line(out, &[b"waiting", arch.source(x).name.bytes(), number]))
}

/// Puts how many items are pending at source `x`.
pub fn put_pending<O: Sink>(out: &mut O, arch: &Arch, x: u32, n: u64) -> Put
    requires { x < length arch.now.sources }
    ensures { Puts O.written O.faults out.old out.new (pending_line (source_name arch.now x) n) result }
{
    let mut buffer = Buffer::new();
    let number = buffer.format(n).as_bytes();
    answer(put_line(out, &[b"pending", arch.source(x).name.bytes(), number]))
}

/// Puts the last line of a replay whose mark number `k` does not fit.
pub fn put_misfit<O: Sink>(out: &mut O, k: u64) -> Put
    ensures { Puts O.written O.faults out.old out.new (misfit_line k) result }
{
    let mut buffer = Buffer::new();
    let number = buffer.format(k).as_bytes();
    answer(put_line(out, &[b"misfit", number]))
}
