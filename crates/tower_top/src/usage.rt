//! Words that give no command.
ghost use Rattle.tower_top.specs.Calls.{ShelfTold, SinkTold, still, sink_change};
ghost use Rattle.tower_top.specs.Endings.{Ends};
ghost use Rattle.tower_top.specs.Requests.{no_command};

use crate::status::{Status, after};
use tower_io::Sink;
use tower_report::put_usage;

/// Tells how the program is used.
pub fn usage<E: Sink>(err: &mut E) -> Status
    ensures { (shelf : ShelfTold) → (out : SinkTold) →
        Ends no_command (record { shelf = still shelf; out = still out; err = sink_change E.written E.faults err.old err.new }) result }
{
    after(put_usage(err), Status::Usage)
}
