ghost use Rattle.std.specs.Prelude.{◌≡◌, ◌<◌, length, map, slice_get, Some};
ghost use Rattle.tower_syntax.specs.View.{arch_of, source_of, channel_of, output_of, monitor_of, handler_of};
ghost use Rattle.tower_types.specs.View.{ty_of, fields_of};
ghost use Rattle.tower_syntax.specs.WellNumbered.{IsWellNumbered, IsNumberedSource, IsNumberedType, AreNumberedFields, IsNumberedHandler};

use crate::body::Body;
use sqlite_items::Items;
use std::marker::Model;
use tower_types::{Name, Records, Ty};

/// What makes a source start: the system's initialisation, a period in ms, or a signal from outside.
#[derive(Clone, Copy, Debug, PartialEq, Eq)]
pub enum SourceKind {
    Init,
    Period(u32),
    Signal,
}

/// What a handler is attached to.
#[derive(Clone, Copy, Debug, PartialEq, Eq)]
pub enum On {
    Source(u32),
    Channel(u32),
}

/// An output or a handler, by its number. A file lists them as they stand in the text.
#[derive(Clone, Copy, Debug, PartialEq, Eq)]
pub enum Listener {
    Output(u32),
    Handler(u32),
}

/// A source. `depth` is how many of its messages can wait, and is `Some` exactly at a period or signal of a
/// file of version 2.
#[derive(Drop)]
pub struct Source {
    pub name: Name,
    pub kind: SourceKind,
    pub priority: u8,
    pub message: Ty,
    pub depth: Option<u32>,
}

#[derive(Drop)]
pub struct Channel {
    pub name: Name,
    pub message: Ty,
}

#[derive(Drop)]
pub struct Output {
    pub name: Name,
    pub channel: u32,
}

#[derive(Drop)]
pub struct Monitor {
    pub name: Name,
    pub states: Items<(Name, Ty)>,
}

/// An emitter: its channel, and how many messages one message of the handler may put on it.
#[derive(Drop)]
pub struct Emitter {
    pub name: Name,
    pub channel: u32,
    pub bound: u32,
}

#[derive(Drop)]
pub struct Handler {
    pub name: Name,
    pub monitor: u32,
    pub on: On,
    pub emitters: Items<Emitter>,
    pub callbacks: Items<Body>,
}

/// The parts of a system, each list in file order. Numbers are places in these lists.
#[derive(Drop)]
pub struct ArchParts {
    pub version: u8,
    pub name: Name,
    pub records: Records,
    pub record_names: Items<Name>,
    pub sources: Items<Source>,
    pub channels: Items<Channel>,
    pub outputs: Items<Output>,
    pub monitors: Items<Monitor>,
    pub handlers: Items<Handler>,
    pub listeners: Items<Listener>,
}

/// A system whose numbers all name something that exists, and which is nowhere nested more than 256 deep.
#[derive(Drop)]
pub struct Arch {
    parts: ArchParts,
}

impl Model for Arch {
    ghost use Rattle.tower_syntax.specs.Arch.{Arch};
    ghost use Rattle.tower_syntax.specs.Codes.{coded_arch};

    ghost Value = { Arch };

    ghost coded = { coded_arch };

    ghost use Rattle.tower_syntax.specs.View.{arch_of};
    ghost use Rattle.tower_syntax.specs.WellNumbered.{IsWellNumbered};

    ghost view = { λ a. arch_of a.parts };

    ghost invariant = { λ a. IsWellNumbered (arch_of a.parts) };
}

impl Arch {
    pub fn new(parts: ArchParts) -> Arch
        requires { IsWellNumbered (arch_of parts) }
        ensures { result ≡ arch_of parts }
    {
        Arch { parts }
    }

    /// The version of the text that it was read from: 1 or 2.
    pub fn version(&self) -> u8
        ensures value { result ≡ self.now.version }
        ensures numbered { IsWellNumbered self.now }
    {
        self.parts.version
    }

    pub fn name(&self) -> &Name
        ensures { result.now ≡ self.now.name }
    {
        &self.parts.name
    }

    pub fn records(&self) -> &Records
        ensures value { result.now ≡ self.now.records }
        ensures numbered { IsWellNumbered self.now }
    {
        &self.parts.records
    }

    /// The names of the records, in the order of the records.
    pub fn record_names(&self) -> &[Name]
        ensures value { result.now ≡ self.now.record_names }
        ensures numbered { IsWellNumbered self.now }
    {
        self.parts.record_names.as_slice()
    }

    pub fn sources(&self) -> &[Source]
        ensures value { map source_of result.now ≡ self.now.sources }
        ensures numbered { IsWellNumbered self.now }
    {
        self.parts.sources.as_slice()
    }

    pub fn channels(&self) -> &[Channel]
        ensures value { map channel_of result.now ≡ self.now.channels }
        ensures numbered { IsWellNumbered self.now }
    {
        self.parts.channels.as_slice()
    }

    pub fn outputs(&self) -> &[Output]
        ensures value { map output_of result.now ≡ self.now.outputs }
        ensures numbered { IsWellNumbered self.now }
    {
        self.parts.outputs.as_slice()
    }

    pub fn monitors(&self) -> &[Monitor]
        ensures value { map monitor_of result.now ≡ self.now.monitors }
        ensures numbered { IsWellNumbered self.now }
    {
        self.parts.monitors.as_slice()
    }

    pub fn handlers(&self) -> &[Handler]
        ensures value { map handler_of result.now ≡ self.now.handlers }
        ensures numbered { IsWellNumbered self.now }
    {
        self.parts.handlers.as_slice()
    }

    /// Every output and every handler, in file order.
    pub fn listeners(&self) -> &[Listener]
        ensures value { result.now ≡ self.now.listeners }
        ensures numbered { IsWellNumbered self.now }
    {
        self.parts.listeners.as_slice()
    }

    /// Source `s`.
    pub fn source(&self, s: u32) -> &Source
        requires { s < length self.now.sources }
        ensures value { slice_get self.now.sources s ≡ Some (source_of result.now) }
        ensures numbered { IsNumberedSource self.now (source_of result.now) }
    {
        &self.sources()[s as usize]
    }

    /// Channel `c`.
    pub fn channel(&self, c: u32) -> &Channel
        requires { c < length self.now.channels }
        ensures value { slice_get self.now.channels c ≡ Some (channel_of result.now) }
        ensures numbered { IsNumberedType (length self.now.records) (ty_of result.now.message) }
    {
        &self.channels()[c as usize]
    }

    /// Output `o`.
    pub fn output(&self, o: u32) -> &Output
        requires { o < length self.now.outputs }
        ensures value { slice_get self.now.outputs o ≡ Some (output_of result.now) }
        ensures numbered { result.now.channel < length self.now.channels }
    {
        &self.outputs()[o as usize]
    }

    /// Monitor `m`.
    pub fn monitor(&self, m: u32) -> &Monitor
        requires { m < length self.now.monitors }
        ensures value { slice_get self.now.monitors m ≡ Some (monitor_of result.now) }
        ensures numbered { AreNumberedFields (length self.now.records) (fields_of result.now.states) }
    {
        &self.monitors()[m as usize]
    }

    /// Handler `h`.
    pub fn handler(&self, h: u32) -> &Handler
        requires { h < length self.now.handlers }
        ensures value { slice_get self.now.handlers h ≡ Some (handler_of result.now) }
        ensures numbered { IsNumberedHandler self.now (handler_of result.now) }
    {
        &self.handlers()[h as usize]
    }
}
