//! The atomic state: what has happened after some marks.
ghost use Rattle.std.specs.Prelude.{◌≡◌, ◌<◌, IfOk, Some, length, map, slice_get, slice_index, slice_index_or, []};
ghost use Rattle.tower_types.specs.View.{value_of};
ghost use Rattle.tower_syntax.specs.Typed.{IsTyped};
ghost use Rattle.tower_syntax.specs.View.{events_of};
ghost use Rattle.tower_meaning.specs.Atomic.{Fit, act, start};
ghost use Rattle.tower_meaning.specs.System.{system_of};
ghost use Rattle.atomic_state.specs.Fitting.{IsStateOf};
ghost use Rattle.atomic_state.specs.StateView.{output_of};
ghost use Rattle.atomic_state.specs.Step.{Steps};
ghost use Rattle.atomic_state.specs.TreeView.{tree_of};

use crate::marks::{arrive, begin, put, run};
use crate::parts::{AtomicStep, Parts};
use crate::start::first_parts;
use crate::tree::Tree;
use std::alloc::Global;
use std::marker::Model;
use tower_syntax::{Arch, Events, Mark};
use tower_types::{NoMemory, Value};

/// The state of a system's atomic meaning: each monitor's value, each source's queue and pending items, the outputs so
/// far, how many messages each source has lost, and the place in the event record.
#[derive(Drop)]
pub struct AtomicState {
    parts: Parts,
}

impl Model for AtomicState {
    ghost use Rattle.std.specs.Coded.{codes};
    ghost use Rattle.tower_types.specs.Codes.{coded_value};
    ghost use Rattle.tower_syntax.specs.contracts.arch.Listener as listener;
    ghost use Rattle.atomic_state.specs.Kept.{Kept};

    ghost Value = { Kept };

    ghost coded = { Prim.hlevel (codes, coded_value, listener.the_row.coded) };

    ghost use Rattle.atomic_state.specs.StateView.{kept_of};

    ghost view = { λ s. kept_of s.parts };
}

impl AtomicState {
    /// The state before any mark.
    pub fn new(alloc: Global, arch: &Arch, events: &Events) -> Result<AtomicState, NoMemory>
        requires typed { IsTyped arch.now }
        requires fit { Fit arch.now (events_of events.now) }
        ensures start { IfOk result (λ s. s.state ≡ start (system_of arch.now)) }
        ensures made { IfOk result (λ s. IsStateOf arch.now (events_of events.now) s) }
    {
        let parts = first_parts(alloc, arch, events)?;
        Ok(AtomicState { parts })
    }

    /// Does what a mark says, if it has a step. After `Misfit` and `NoMemory` the state is as before.
    pub fn step(&mut self, alloc: Global, arch: &Arch, events: &Events, mark: Mark) -> AtomicStep
        requires { IsStateOf arch.now (events_of events.now) self.old }
        ensures step { Steps self.old.state (act (system_of arch.now) (events_of events.now) self.old.state mark) result self.new.state }
        ensures made { IsStateOf arch.now (events_of events.now) self.new }
    {
        match mark {
            Mark::Arrive => arrive(alloc, events, &mut self.parts),
            Mark::Start(x) => begin(alloc, arch, events, &mut self.parts, x),
            Mark::Run(x) => run(alloc, arch, &mut self.parts, x),
            Mark::Out(x) => put(&mut self.parts, x),
        }
    }

    /// The value of monitor `m`.
    pub fn monitor(&self, m: u32) -> &Tree
        requires { m < length self.now.state.monitors }
        ensures { slice_get self.now.state.monitors m ≡ Some (tree_of result.now) }
    {
        &self.parts.monitors[m as usize]
    }

    /// The outputs so far, each by its number, with its message.
    pub fn outputs(&self) -> &[(u32, Value)]
        ensures { map output_of result.now ≡ self.now.state.outputs }
    {
        self.parts.outputs.as_slice()
    }

    /// How many messages wait for source `x`.
    pub fn waiting(&self, x: u32) -> u64
        requires { x < length self.now.state.queues }
        ensures { result ≡ length (slice_index_or self.now.state.queues x []) }
    {
        self.parts.queues[x as usize].waiting.len() as u64
    }

    /// How many items are pending at source `x`.
    pub fn pending(&self, x: u32) -> u64
        requires { x < length self.now.state.pending }
        ensures { result ≡ length (slice_index_or self.now.state.pending x []) }
    {
        self.parts.pending[x as usize].len() as u64
    }

    /// How many messages source `x` has lost.
    pub fn lost(&self, x: u32) -> u64
        requires { x < length self.now.state.lost }
        ensures { result ≡ slice_index self.now.state.lost x }
    {
        self.parts.queues[x as usize].lost
    }
}
