//! A text that goes out in one piece.
ghost use Rattle.tower_report.specs.Puts.{Puts};

use tower_io::{Put, Sink};

/// Puts the bytes as one piece.
pub fn put_whole<O: Sink>(out: &mut O, bytes: &[u8]) -> Put
    ensures { Puts O.written O.faults out.old out.new bytes.now result }
{
    out.put(bytes)
}
