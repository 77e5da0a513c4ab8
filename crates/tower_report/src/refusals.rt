//! The lines of a call that gives no text, but for that of a file's fault.
ghost use Rattle.tower_report.specs.Puts.{Puts};
ghost use Rattle.tower_report.specs.RefusalText.{usage_line, unread_line, bad_line};

use crate::pieces::{answer, put_line};
use itoa::Buffer;
use tower_io::{Put, Sink};

/// Puts the line that tells how the program is used.
pub fn put_usage<E: Sink>(err: &mut E) -> Put
    ensures { Puts E.written E.faults err.old err.new usage_line result }
{
    answer(put_line(err, &[b"usage: towerc COMMAND FILE [OPTIONS]"]))
}

/// Puts the line that tells that the text of this name could not be read.
pub fn put_unread<E: Sink>(err: &mut E, name: &str) -> Put
    ensures { Puts E.written E.faults err.old err.new (unread_line name.now) result }
{
    let name = name.as_bytes();
    answer(put_line(err, &[b"cannot read", name]))
}

/// Puts the line of a fault of an input that is no file of the language: at which line or offset it is, and its kind.
pub fn put_bad<E: Sink>(err: &mut E, input: &str, at: u32, kind: &str) -> Put
    ensures { Puts E.written E.faults err.old err.new (bad_line input.now at kind.now) result }
{
    let mut buffer = Buffer::new();
    let number = buffer.format(at).as_bytes();
    answer(put_line(err, &[b"bad", input.as_bytes(), number, kind.as_bytes()]))
}
