//! The checks of a file, in their order.
ghost use Rattle.std.specs.Prelude.{◌≡◌, ◌⊎◌, ℕ, List, IfOk, IfErr};
ghost use Rattle.tower_syntax.specs.RawView.{raw_of};
ghost use Rattle.tower_reader.specs.Spelled.{Spells};
ghost use Rattle.arch_checks.specs.Offences.{IsFault, IsAccepted};

use crate::checked::Checked;
use crate::fault::Fault;
use crate::graph::{check_bounds, check_cycle, check_work};
use crate::sizes::check_sizes;
use arch_names::resolve;
use arch_types::check_types;
use std::alloc::Global;
use tower_reader::read_raw;
use tower_syntax::Raw;

/// The system of a file that was read, or its first fault.
pub fn check_raw(alloc: Global, raw: &Raw) -> Result<Checked, Fault>
    // Some text spells the file.
    requires spelled { (bs : List ℕ) × Spells bs (raw_of raw.now) }

    // Each text that does is accepted, or has this fault.
    ensures ok { (bs : List ℕ) → Spells bs (raw_of raw.now) → IfOk result (IsAccepted bs) }
    ensures fault { (bs : List ℕ) → Spells bs (raw_of raw.now) → IfErr result (λ f. (f ≡ Fault.NoMemory) ⊎ IsFault bs f) }
{
    let named = resolve(alloc, raw)?;
    let arch = check_types(alloc, &named)?;
    check_bounds(alloc, &arch)?;
    check_cycle(alloc, &arch)?;
    check_sizes(alloc, &arch)?;
    let costs = check_work(alloc, &arch)?;
    let checked = Checked::new(alloc, arch, costs)?;
    Ok(checked)
}

/// The system of a text, or its first fault. Each text has exactly one of these, so all else that can be answered is want
/// of memory.
pub fn check(alloc: Global, bytes: &[u8]) -> Result<Checked, Fault>
    ensures ok { IfOk result (IsAccepted bytes.now) }
    ensures fault { IfErr result (λ f. (f ≡ Fault.NoMemory) ⊎ IsFault bytes.now f) }
{
    let raw = read_raw(alloc, bytes)?;
    check_raw(alloc, &raw)
}
