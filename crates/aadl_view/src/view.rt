//! The architecture of a system: names, types, kinds, links, bounds and touched monitors, without states and bodies.
ghost use Rattle.std.specs.Prelude.{◌≡◌, map};
ghost use Rattle.tower_syntax.specs.View.{channel_of};
ghost use Rattle.aadl_view.specs.Parts.{arch_view_of, source_view_of, listener_view_of};
ghost use Rattle.aadl_view.specs.WellFormed.{IsView};

use sqlite_items::Items;
use std::marker::Model;
use tower_syntax::{Channel, Emitter, On, SourceKind};
use tower_types::{Name, Records, Ty};

/// A source. `touches` are the numbers of the monitors of the handlers that it reaches, ascending. `depth` is how many
/// of its messages can wait, and is `Some` exactly at a period or signal of version 2.
#[derive(Drop)]
pub struct SourceView {
    pub name: Name,
    pub kind: SourceKind,
    pub priority: u8,
    pub message: Ty,
    pub depth: Option<u32>,
    pub touches: Items<u32>,
}

/// A handler: its monitor, what it is attached to, and its emitters.
#[derive(Drop)]
pub struct HandlerView {
    pub name: Name,
    pub monitor: u32,
    pub on: On,
    pub emitters: Items<Emitter>,
}

/// An output with its channel, or a handler.
#[derive(Drop)]
pub enum ListenerView {
    Output(Name, u32),
    Handler(HandlerView),
}

/// The parts of an architecture, each list in file order. Numbers are places in these lists.
#[derive(Drop)]
pub struct ViewParts {
    pub version: u8,
    pub name: Name,
    pub records: Records,
    pub record_names: Items<Name>,
    pub sources: Items<SourceView>,
    pub channels: Items<Channel>,
    pub listeners: Items<ListenerView>,
    pub monitors: Items<Name>,
}

/// The architecture of a system: its names are valid and distinct, its numbers in range, its types known and written at
/// most 32 deep.
#[derive(Drop)]
pub struct ArchView {
    parts: ViewParts,
}

impl Model for ArchView {
    ghost use Rattle.aadl_view.specs.View.{ArchView};
    ghost use Rattle.aadl_view.specs.Codes.{coded_arch_view};

    ghost Value = { ArchView };

    ghost coded = { coded_arch_view };

    ghost use Rattle.aadl_view.specs.Parts.{arch_view_of};
    ghost use Rattle.aadl_view.specs.WellFormed.{IsView};

    ghost view = { λ v. arch_view_of v.parts };

    ghost invariant = { λ v. IsView (arch_view_of v.parts) };
}

impl ArchView {
    /// The architecture of these parts.
    pub fn new(parts: ViewParts) -> ArchView
        requires { IsView (arch_view_of parts) }
        ensures { result ≡ arch_view_of parts }
    {
        ArchView { parts }
    }

    /// The version of the file that it is of: 1 or 2.
    pub fn version(&self) -> u8
        ensures value { result ≡ self.now.version }
        ensures kept { IsView self.now }
    {
        self.parts.version
    }

    pub fn name(&self) -> &Name
        ensures { result.now ≡ self.now.name }
    {
        &self.parts.name
    }

    pub fn records(&self) -> &Records
        ensures value { result.now ≡ self.now.records }
        ensures kept { IsView self.now }
    {
        &self.parts.records
    }

    /// The names of the records, in the order of the records.
    pub fn record_names(&self) -> &[Name]
        ensures value { result.now ≡ self.now.record_names }
        ensures kept { IsView self.now }
    {
        self.parts.record_names.as_slice()
    }

    pub fn sources(&self) -> &[SourceView]
        ensures value { map source_view_of result.now ≡ self.now.sources }
        ensures kept { IsView self.now }
    {
        self.parts.sources.as_slice()
    }

    pub fn channels(&self) -> &[Channel]
        ensures value { map channel_of result.now ≡ self.now.channels }
        ensures kept { IsView self.now }
    {
        self.parts.channels.as_slice()
    }

    /// Every output and every handler, in file order.
    pub fn listeners(&self) -> &[ListenerView]
        ensures value { map listener_view_of result.now ≡ self.now.listeners }
        ensures kept { IsView self.now }
    {
        self.parts.listeners.as_slice()
    }

    /// The names of the monitors.
    pub fn monitors(&self) -> &[Name]
        ensures value { result.now ≡ self.now.monitors }
        ensures kept { IsView self.now }
    {
        self.parts.monitors.as_slice()
    }
}
