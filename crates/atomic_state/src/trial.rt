//! Marks, one after another from the start.
ghost use Rattle.std.specs.Prelude.{◌≡◌, IfOk};
ghost use Rattle.tower_syntax.specs.Typed.{IsTyped};
ghost use Rattle.tower_syntax.specs.View.{events_of};
ghost use Rattle.tower_meaning.specs.Atomic.{Fit};
ghost use Rattle.tower_meaning.specs.Replayed.{replayed};
ghost use Rattle.tower_meaning.specs.System.{system_of};
ghost use Rattle.atomic_state.specs.Fitting.{IsStateOf};

use crate::parts::AtomicStep;
use crate::state::AtomicState;
use std::alloc::Global;
use tower_syntax::{Arch, Events, Mark};
use tower_types::NoMemory;

/// What marks have come to: the state that they lead to, or that before the first mark that does not fit, with the
/// number of this mark, counted from 1.
#[derive(Drop)]
pub struct Verdict {
    pub state: AtomicState,
    pub misfit: Option<u64>,
}

/// Tries marks, one after another from the start, up to the first that does not fit.
pub fn replay(
    alloc: Global,
    arch: &Arch,
    events: &Events,
    marks: &[Mark],
) -> Result<Verdict, NoMemory>
    requires typed { IsTyped arch.now }
    requires fit { Fit arch.now (events_of events.now) }
    ensures replayed { IfOk result (λ r. replayed (system_of arch.now) (events_of events.now) marks.now ≡ record { state = r.state.state; misfit = r.misfit }) }
    ensures made { IfOk result (λ r. IsStateOf arch.now (events_of events.now) r.state) }
{
    let mut state = AtomicState::new(alloc, arch, events)?;
    for k in 0..marks.len() {
        match state.step(alloc, arch, events, marks[k]) {
            AtomicStep::Done => {}
            AtomicStep::Misfit => {
                let misfit = Some(k as u64 + 1);
                return Ok(Verdict { state, misfit });
            }
            AtomicStep::NoMemory => return Err(NoMemory),
        }
    }
    Ok(Verdict {
        state,
        misfit: None,
    })
}
