//! The subscribers of all channels.

ghost use Rattle.std.specs.Prelude.{◌≡◌, [], length, IfOk, OnOk};
ghost use Rattle.tower_syntax.specs.WellNumbered.{IsWellNumbered, IsNumberedOn};
ghost use Rattle.channel_graph.specs.Listening.{Exists, attached};
ghost use Rattle.emit_code.specs.Heard.{AreHeard, AreHeardAmong, IsWithin, HearsMore};

use sqlite_items::Items;
use std::alloc::Global;
use tower_syntax::{Arch, Listener, On};
use tower_types::NoMemory;

/// The source or channel that a handler or output names.
fn attachment(arch: &Arch, listener: Listener) -> On
    requires { Exists arch.now listener }
    ensures on { result ≡ attached arch.now listener }
    ensures numbered { IsNumberedOn arch.now result }
{
    match listener {
        Listener::Handler(h) => arch.handler(h).on,
        Listener::Output(o) => On::Channel(arch.output(o).channel),
    }
}

/// Adds a listener to those of the channel that it is on.
fn join(heard: &mut Vec<Items<Listener>>, on: On, listener: Listener) -> Result<(), NoMemory>
    requires { IsWithin (length heard.old.items) on }
    ensures { OnOk result (HearsMore heard.old.items on listener heard.new.items) }
{
    if let On::Channel(c) = on {
        heard[c as usize].push(listener)?;
    }
    Ok(())
}

/// For each channel, no listener.
fn silence(alloc: Global, arch: &Arch) -> Result<Vec<Items<Listener>>, NoMemory>
    ensures heard { IfOk result (λ heard. AreHeardAmong arch.now [] heard.items) }
    ensures numbered { IsWellNumbered arch.now }
{
    let mut heard = Vec::new(alloc);
    for _c in 0..arch.channels().len() {
        heard.push(Items::new(alloc))?;
    }
    Ok(heard)
}

/// For each channel, the outputs and handlers on it, in file order.
pub fn channel_subscribers(alloc: Global, arch: &Arch) -> Result<Vec<Items<Listener>>, NoMemory>
    ensures heard { IfOk result (λ heard. AreHeard arch.now heard.items) }
    ensures numbered { IsWellNumbered arch.now }
{
    let mut heard = silence(alloc, arch)?;
    for listener in arch.listeners() {
        join(&mut heard, attachment(arch, *listener), *listener)?;
    }
    Ok(heard)
}
