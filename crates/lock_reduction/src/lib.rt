//! The law of reduction: tasks that are right alone are right with all of them together.
#![tactic(auto)]

ghost use Rattle.tower_syntax.specs.Typed.{IsTyped};
ghost use Rattle.tower_syntax.specs.WellNumbered.{IsWellNumbered};
ghost use Rattle.task_code.specs.Program.{Program as ProgramLists};
ghost use Rattle.task_alone.specs.Setting.{Setting, KeepsTypes, IsFor};
ghost use Rattle.task_alone.specs.Alone.{RunsAlone};
ghost use Rattle.lock_reduction.specs.Sound.{IsSound};
ghost use Rattle.lock_reduction.specs.Shaped.{Shaped};
ghost use Rattle.lock_reduction.specs.Reduce.{Alone, Sound};

pub mod laws;

use task_code::Program;
use tower_syntax::Arch;

/// The law over any meaning that keeps types, and any program.
pub fn reduction_law()
    ensures { (s : Setting) (p : ProgramLists) → KeepsTypes s → IsFor s p → RunsAlone s p → IsSound s p }
{}

/// A program of a typed system's shape, each task of which is right alone, is sound. It does no work: the
/// contract is the law.
pub fn reduce(program: &Program, arch: &Arch)
    requires numbered { IsWellNumbered arch.now }
    requires typed { IsTyped arch.now }
    requires shaped { Shaped arch.now program.now }
    requires alone { Alone arch.now program.now }
    ensures { Sound arch.now program.now }
{}
