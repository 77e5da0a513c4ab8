//! The instructions of expressions.

ghost use Rattle.std.specs.Prelude.{◌≡◌, ◌++◌, ◌<◌, ◌+◌, ◌||◌, length, slice_set, OnOk};
ghost use Rattle.tower_syntax.specs.Tree.{Steps};
ghost use Rattle.tower_syntax.specs.View.{expr_of, place_of};
ghost use Rattle.channel_graph.specs.Stepped.{step_of};
ghost use Rattle.channel_graph.specs.Scoped.{part_shape};
ghost use Rattle.task_code.specs.Grows.{Keeps};
ghost use Rattle.task_code.specs.Piece.{listed};
ghost use Rattle.stmt_code.specs.Body.{expr_code, index_code, steps_code, scaled};
ghost use Rattle.stmt_code.specs.Seen.{step_moves};

use crate::layout::Layout;
use crate::part::Part;
use crate::place::{is_moving, locate, moves_after};
use task_code::{Code, Instr};
use tower_syntax::{Expr, Place, PlaceStep};
use tower_types::{BinOp, NoMemory, Scalar};

/// Makes the jumps of a choice: where the test at `test` fails, to behind that at `jump`; and from there to the end.
pub(crate) fn join(code: &mut Code, test: u32, jump: u32)
    requires test { test < length code.old }
    requires jump { jump < length code.old }
    ensures { code.new ≡ slice_set (slice_set code.old test (Instr.Jz (jump + 1))) jump (Instr.Jmp (length code.old)) }
{
    let end = code.place();
    code.patch(test, Instr::Jz(jump + 1));
    code.patch(jump, Instr::Jmp(end));
}

/// Adds what makes an index a number of words, or some of it.
fn add_scaled(code: &mut Code, width: u32) -> Result<(), NoMemory>
    ensures ok { OnOk result (code.new ≡ code.old ++ listed (scaled width)) }
    ensures keeps { Keeps code.old code.new }
{
    if width != 1 {
        code.push(Instr::Push(i128::from(width)))?;
        code.push(Instr::Bin(BinOp::Mul, Scalar::U64))?;
    }
    Ok(())
}

/// Adds the instructions of an expression, or some of them.
#[cycle(exprs)]
pub(crate) fn add_expr(e: &Expr, layout: &Layout<'_>, code: &mut Code) -> Result<(), NoMemory>
    ensures ok { OnOk result (code.new ≡ code.old ++ listed (expr_code layout.now (length code.old) (expr_of e.now))) }
    ensures keeps { Keeps code.old code.new }
{
    match e {
        Expr::Lit(_, n) => code.push(Instr::Push(*n)),
        Expr::Read(p) => {
            add_index(p, layout, code)?;
            locate(layout, p, 0)?.add_read(code)?;
            Ok(())
        }
        Expr::Un(op, t, a) => {
            add_expr(a.get(), layout, code)?;
            code.push(Instr::Un(*op, *t))?;
            Ok(())
        }
        Expr::Bin(op, t, a, b) => {
            add_expr(a.get(), layout, code)?;
            add_expr(b.get(), layout, code)?;
            code.push(Instr::Bin(*op, *t))?;
            Ok(())
        }
        Expr::Cond(c, a, b) => {
            add_expr(c.get(), layout, code)?;
            let test = code.hold()?;
            add_expr(a.get(), layout, code)?;
            let jump = code.hold()?;
            add_expr(b.get(), layout, code)?;
            join(code, test, jump);
            Ok(())
        }
        Expr::Cast(t, a) => {
            add_expr(a.get(), layout, code)?;
            code.push(Instr::Cast(*t))?;
            Ok(())
        }
    }
}

/// Adds what leaves the moving part of a place's offset, or some of it.
#[cycle(exprs)]
pub(crate) fn add_index(p: &Place, layout: &Layout<'_>, code: &mut Code) -> Result<(), NoMemory>
    ensures ok { OnOk result (code.new ≡ code.old ++ listed (index_code layout.now (length code.old) (place_of p.now))) }
    ensures keeps { Keeps code.old code.new }
{
    let mut part = layout.root(p.root);
    let mut begun = false;
    for step in p.steps.as_slice() {
        add_step(step, &part, begun, layout, code)?;
        begun = moves_after(step, begun);
        part = part.step(step);
    }
    Ok(())
}

/// Adds what a step adds to the moving part of an offset, or some of it.
#[cycle(exprs)]
fn add_step(
    step: &PlaceStep,
    whole: &Part<'_>,
    begun: bool,
    layout: &Layout<'_>,
    code: &mut Code,
) -> Result<(), NoMemory>
    ensures ok { OnOk result ((rest : Steps) →
        code.new ++ listed (steps_code layout.now (length code.new) (step_moves step.now || begun) (part_shape step.now whole.now) rest)
        ≡ code.old ++ listed (steps_code layout.now (length code.old) begun whole.now (step_of step.now rest))) }
    ensures keeps { Keeps code.old code.new }
{
    match step {
        PlaceStep::Field(_) => Ok(()),
        PlaceStep::At(e) => {
            if is_moving(e) {
                add_expr(e, layout, code)?;
                let width = whole.step(step).words()?;
                add_scaled(code, width)?;
                if begun {
                    code.push(Instr::Bin(BinOp::Add, Scalar::U64))?;
                }
            }
            Ok(())
        }
    }
}
