//! Where the names of a callback stand.

ghost use Rattle.std.specs.Prelude.{◌≡◌, ◌<◌, ◌+◌, length, slice_get, IfOk};
ghost use Rattle.tower_types.specs.Ty.{words};
ghost use Rattle.tower_syntax.specs.Arch.{Arch as System, Handler as HandlerTree, Body as BodyTree};
ghost use Rattle.tower_syntax.specs.View.{handler_of, body_of};
ghost use Rattle.tower_syntax.specs.Weights.{shape_at, root_shape};
ghost use Rattle.channel_graph.specs.Site.{Site, IsSite};
ghost use Rattle.stmt_code.specs.Layout.{layout_of, binder_at, scratch_at, root_base};
ghost use Rattle.stmt_code.specs.Body.{message_of};
ghost use Rattle.stmt_code.specs.Seen.{base_of, message_seen};

use crate::measured::{Measured, Starts};
use crate::moved::{Base, SentMessage};
use crate::part::Part;
use channel_graph::Scope;
use std::marker::Model;
use task_code::Frame;
use tower_syntax::{Body, Handler, Root};
use tower_types::NoMemory;

/// A callback with its handler's frame. Contracts see where its names stand.
#[derive(Drop)]
pub(crate) struct Layout<'a> {
    scope: Scope<'a>,
    records: &'a [Starts],
    states: &'a Starts,
    monitor: u32,
    param: u32,
    binders: &'a [u32],
    temps: u32,
    scratch: &'a [u32],
    first_buffer: u32,
}

impl<'a> Model for Layout<'a> {
    ghost use Rattle.stmt_code.specs.Layout.{Layout};
    ghost use Rattle.stmt_code.specs.Codes.{coded_layout};

    ghost Value = { Layout };

    ghost coded = { coded_layout };

    ghost use Rattle.channel_graph.specs.Site.{scope_at};
    ghost use Rattle.stmt_code.specs.Measured.{HasStarts};

    ghost view = { λ l. record {
      scope = scope_at l.scope;
      monitor = l.monitor;
      param = l.param;
      binders = l.binders.now;
      temps = l.temps;
      scratch = l.scratch.now;
      first_buffer = l.first_buffer;
    } };

    ghost invariant = { λ l. HasStarts l.scope l.records.now l.states.now };
}

impl<'a> Layout<'a> {
    /// The callback `i` of a handler.
    pub(crate) fn new(
        arch: &Measured<'a>,
        h: &'a Handler,
        body: &'a Body,
        frame: &'a Frame,
        i: usize,
    ) -> Layout<'a>
        requires { let site : Site = record { arch = arch.now; handler = handler_of h.now; body = body_of body.now } in IsSite site }
        ensures { result ≡ layout_of arch.now (handler_of h.now) frame.now i (body_of body.now) }
    {
        let binders = match frame.binders.as_slice().get(i) {
            Some(addresses) => addresses.as_slice(),
            None => &[],
        };
        Layout {
            scope: Scope::new(arch.arch(), h, body),
            records: arch.records(),
            states: arch.states(h.monitor),
            monitor: h.monitor,
            param: frame.param,
            binders,
            temps: frame.temps,
            scratch: frame.scratch.as_slice(),
            first_buffer: frame.first_buffer,
        }
    }

    /// The first of the two words for moving indices.
    pub(crate) fn temps(&self) -> u32
        ensures { result ≡ self.now.temps }
    {
        self.temps
    }

    /// The second of the two words for moving indices.
    pub(crate) fn second_temp(&self) -> Result<u32, NoMemory>
        ensures { IfOk result (λ n. n ≡ self.now.temps + 1) }
    {
        let next = self.temps.checked_add(1).ok_or(NoMemory)?;
        Ok(next)
    }

    /// The address of a name that the callback binds.
    pub(crate) fn binder(&self, b: u32) -> u32
        ensures { result ≡ binder_at self.now b }
    {
        match self.binders.get(b as usize) {
            Some(address) => *address,
            None => 0,
        }
    }

    /// The type that a place begins at.
    pub(crate) fn root(&self, root: Root) -> Part<'a>
        ensures { result ≡ root_shape self.now.scope root }
    {
        Part::root(&self.scope, self.records, root)
    }

    /// The words of a name that the callback binds.
    pub(crate) fn binder_words(&self, b: u32) -> Result<u32, NoMemory>
        ensures { IfOk result (λ n. n ≡ words (shape_at self.now.scope.binders b)) }
    {
        self.root(Root::Binder(b)).words()
    }

    /// The words that a place begins at.
    pub(crate) fn base(&self, root: Root) -> Base
        ensures { base_of result ≡ root_base self.now root }
    {
        match root {
            Root::Param => Base::Private(self.param),
            Root::Binder(b) => Base::Private(self.binder(b)),
            Root::State(k) => Base::Monitor(self.monitor, self.states.at(k)),
        }
    }

    /// The address of the emitter's scratch words.
    fn scratch(&self, k: u32) -> u32
        ensures { result ≡ scratch_at self.now k }
    {
        match self.scratch.get(k as usize) {
            Some(address) => *address,
            None => 0,
        }
    }

    /// A message of an emitter.
    pub(crate) fn message(&self, k: u32) -> Result<SentMessage, NoMemory>
        ensures { IfOk result (λ m. message_seen m ≡ message_of self.now k) }
    {
        let buffer = self.first_buffer.checked_add(k).ok_or(NoMemory)?;
        let width = Part::message(&self.scope, self.records, k).words()?;
        Ok(SentMessage {
            scratch: self.scratch(k),
            buffer,
            width,
        })
    }
}
