ghost use Rattle.std.specs.Prelude.{◌≡◌, ◌<◌, [], ◌∷◌, ◌++◌, length, take, slice_set, IfOk, OnOk, OnErr};
ghost use Rattle.task_code.specs.Grows.{Keeps};

use crate::program::Instr;
use sqlite_items::Items;
use std::alloc::Global;
use std::marker::Model;
use tower_types::NoMemory;

/// Code that is being put together: fewer than 2^32 instructions, so that each place in it fits a `u32`, and so does
/// the place behind it. Contracts see the list.
#[derive(Debug, Drop)]
pub struct Code {
    instrs: Vec<Instr>,
}

impl Model for Code {
    ghost use Rattle.std.specs.Prelude.{List, length, ◌<◌, ◌^◌};
    ghost use Rattle.task_code.specs.declared.program.Instr.{Instr};

    ghost Value = { List Instr };

    ghost view = { λ c. c.instrs.items };

    ghost invariant = { λ c. length c.instrs.items < 2 ^ 32 };
}

impl Code {
    /// No instruction. It takes no memory.
    pub fn new(alloc: Global) -> Code
        ensures { result ≡ [] }
    {
        Code {
            instrs: Vec::new(alloc),
        }
    }

    /// The place of the next instruction, counted from 0.
    pub fn place(&self) -> u32
        ensures { result ≡ length self.now }
    {
        self.instrs.len() as u32
    }

    /// Adds an instruction. Without room for it, or where there are 2^32 - 1, the code is as before.
    pub fn push(&mut self, instr: Instr) -> Result<(), NoMemory>
        ensures ok { OnOk result (self.new ≡ self.old ++ instr ∷ []) }
        ensures err { OnErr result (self.new ≡ self.old) }
        ensures keeps { Keeps self.old self.new }
    {
        if self.instrs.len() >= u32::MAX as usize {
            return Err(NoMemory);
        }
        self.instrs.push(instr)?;
        Ok(())
    }

    /// Leaves room for a jump whose target is not known yet, and answers its place. Without room the code is as before.
    pub fn hold(&mut self) -> Result<u32, NoMemory>
        ensures ok { IfOk result (λ at. (at ≡ length self.old) × (self.new ≡ self.old ++ Instr.Jmp 0 ∷ [])) }
        ensures err { OnErr result (self.new ≡ self.old) }
        ensures keeps { Keeps self.old self.new }
    {
        let at = self.place();
        self.push(Instr::Jmp(0))?;
        Ok(at)
    }

    /// Writes the instruction at place `at` anew.
    pub fn patch(&mut self, at: u32, instr: Instr)
        requires { at < length self.old }
        ensures { self.new ≡ slice_set self.old at instr }
    {
        self.instrs[at as usize] = instr;
    }

    /// Takes back all but the first `to` instructions.
    pub fn shorten(&mut self, to: u32)
        ensures { self.new ≡ take to self.old }
    {
        self.instrs.truncate(to as usize);
    }

    /// The instructions.
    pub fn instrs(self) -> Items<Instr>
        ensures { result ≡ self }
    {
        let Code { instrs } = self;
        Items::from_vec(instrs)
    }
}
