//! The program of a listing.
ghost use Rattle.std.specs.Prelude.{◌≡◌, IfOk, IfErr, Ok};
ghost use Rattle.task_listing.specs.Faults.{IsFaultless, IsTold};
ghost use Rattle.task_listing.specs.Judging.{State, verdict};
ghost use Rattle.task_listing.specs.Listing.{listing};
ghost use Rattle.task_listing.specs.Laws.{ReadsBack};
ghost use Rattle.task_listing.specs.Reading.{Judges, program_of};

use crate::fault::ListFault;
use crate::reading::Reader;
use std::alloc::Global;
use task_code::Program;

fn read_lines(alloc: Global, text: &[u8]) -> Result<Program, ListFault>
    ensures program { IfOk result (λ p. (s : State) × (verdict text.now ≡ Ok s) × (p ≡ program_of s)) }
    ensures fault { IfErr result (λ f. Judges (verdict text.now) f) }
{
    let mut reader = Reader::read(alloc, text)?;
    Ok(reader.program())
}

/// The program of which the text is the listing, or the first fault of the text. So what `write` gives is read as the
/// program again, where it has at most 67,108,864 bytes. It takes memory for the program.
pub fn read(alloc: Global, text: &[u8]) -> Result<Program, ListFault>
    ensures program { IfOk result (λ p. text.now ≡ listing p) }
    ensures none { IfOk result (λ _. IsFaultless text.now) }
    ensures fault { IfErr result (IsTold text.now) }
    ensures back { ReadsBack text.now result }
{
    read_lines(alloc, text)
}
