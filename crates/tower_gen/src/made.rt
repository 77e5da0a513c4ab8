//! What is made of a number.
ghost use Rattle.std.specs.Prelude.{IfOk};
ghost use Rattle.tower_syntax.specs.Form.{text};
ghost use Rattle.tower_syntax.specs.Printed.{raw_form};
ghost use Rattle.tower_syntax.specs.Printable.{IsPrintable};
ghost use Rattle.tower_syntax.specs.RawView.{raw_of};
ghost use Rattle.arch_checks.specs.Offences.{IsAccepted};
ghost use Rattle.tower_gen.specs.Made.{IsMadeOf, drawn_of};
ghost use Rattle.tower_gen.specs.System.{system};

use crate::draws::choices;
use crate::file::file;
use rand_pcg::Lcg64Xsh32;
use std::alloc::Global;
use tower_syntax::{Choice, Raw};
use tower_types::NoMemory;

/// A file, with a run for it: so many ticks, which are the whole record, and the choices.
#[derive(Drop)]
pub struct Made {
    /// The file. Its version is 1, and all its offsets are 0.
    pub raw: Raw,
    pub ticks: u32,
    pub choices: Vec<Choice>,
}

/// The large system of a number, with 100 ticks and 400 choices. For each number the file can be printed, and its line is
/// accepted.
pub fn make_system(alloc: Global, n: u64) -> Result<Made, NoMemory>
    ensures made { IfOk result (IsMadeOf n) }
    ensures printable { IfOk result (λ m. IsPrintable (raw_of m.raw)) }
    ensures accepted { IfOk result (λ m. IsAccepted (text (raw_form (raw_of m.raw))) (system (drawn_of n))) }
{
    let mut generator = Lcg64Xsh32::new(n, 0);
    let raw = file(alloc, &mut generator)?;
    let choices = choices(alloc, &mut generator)?;
    Ok(Made {
        raw,
        ticks: 100,
        choices,
    })
}
