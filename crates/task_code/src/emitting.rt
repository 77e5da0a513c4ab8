ghost use Rattle.std.specs.Prelude.{◌≡◌, ◌+◌, ◌*◌, ◌≤◌, ◌++◌, length, OnOk, OnErr};
ghost use Rattle.task_code.specs.Grows.{Keeps};
ghost use Rattle.task_code.specs.Piece.{listed};
ghost use Rattle.task_code.specs.Emission.{emission};

use crate::code::Code;
use crate::program::Instr;
use tower_types::NoMemory;

/// Adds the instructions of an emission, or some of them.
fn add_emission(code: &mut Code, scratch: u32, buffer: u32, width: u32) -> Result<(), NoMemory>
    ensures ok { OnOk result (code.new ≡ code.old ++ listed (emission scratch buffer width)) }
    ensures keeps { Keeps code.old code.new }
{
    for j in 0..width {
        let address = scratch.checked_add(j).ok_or(NoMemory)?;
        code.push(Instr::Push(i128::from(j)))?;
        code.push(Instr::Ld(address))?;
        code.push(Instr::Bput(buffer))?;
    }
    code.push(Instr::Badd(buffer))?;
    Ok(())
}

/// Adds the instructions that move a message of `width` words, which stands in the private words from `scratch` on,
/// into buffer `buffer` as its next message. An address that is no `u32` is told as want of memory.
pub fn emission(code: &mut Code, scratch: u32, buffer: u32, width: u32) -> Result<(), NoMemory>
    ensures ok { OnOk result (code.new ≡ code.old ++ listed (emission scratch buffer width)) }
    ensures few { OnOk result (length code.new ≤ length code.old + (8 + 8 * width)) }
    ensures err { OnErr result (code.new ≡ code.old) }
{
    let start = code.place();
    match add_emission(code, scratch, buffer, width) {
        Ok(()) => Ok(()),
        Err(fault) => {
            code.shorten(start);
            Err(fault)
        }
    }
}
