//! The subscribers of a source or channel.

ghost use Rattle.std.specs.Prelude.{◌≡◌, IfOk};
ghost use Rattle.tower_syntax.specs.Graph.{subs, same_on};
ghost use Rattle.channel_graph.specs.Listening.{attached, Exists};

use std::alloc::Global;
use tower_syntax::{Arch, Listener, On};
use tower_types::NoMemory;

/// Whether the two are one source or one channel.
pub(crate) fn is_same(a: On, b: On) -> bool
    ensures { result ≡ same_on a b }
{
    match a {
        On::Source(s) => match b {
            On::Source(t) => s == t,
            On::Channel(_) => false,
        },
        On::Channel(c) => match b {
            On::Source(_) => false,
            On::Channel(d) => c == d,
        },
    }
}

/// The source or channel that a handler or output names.
pub(crate) fn attachment(arch: &Arch, listener: Listener) -> On
    requires { Exists arch.now listener }
    ensures { result ≡ attached arch.now listener }
{
    match listener {
        Listener::Handler(h) => arch.handler(h).on,
        Listener::Output(o) => On::Channel(arch.output(o).channel),
    }
}

/// The handlers and outputs that name a source or channel, in file order.
pub fn subscribers(alloc: Global, arch: &Arch, on: On) -> Result<Vec<Listener>, NoMemory>
    ensures { IfOk result (λ found. found.items ≡ subs arch.now on) }
{
    let mut found = Vec::new(alloc);
    for listener in arch.listeners() {
        if is_same(attachment(arch, *listener), on) {
            found.push(*listener)?;
        }
    }
    Ok(found)
}
