//! Where the words of a place stand.

ghost use Rattle.std.specs.Prelude.{◌≡◌, ◌+◌, ◌||◌, ℕ, IfOk};
ghost use Rattle.tower_syntax.specs.Tree.{Steps};
ghost use Rattle.tower_syntax.specs.View.{expr_of, place_of};
ghost use Rattle.tower_types.specs.Ty.{words, Shape};
ghost use Rattle.channel_graph.specs.Stepped.{step_of};
ghost use Rattle.tower_syntax.specs.Weights.{place_shape};
ghost use Rattle.channel_graph.specs.Scoped.{part_shape};
ghost use Rattle.stmt_code.specs.Layout.{given_index, given_offset, is_moving, fixed_offset};
ghost use Rattle.stmt_code.specs.Body.{moved};
ghost use Rattle.stmt_code.specs.Seen.{moved_of, step_moves};

use crate::layout::Layout;
use crate::moved::Moved;
use crate::part::Part;
use tower_syntax::{Expr, Place, PlaceStep};
use tower_types::NoMemory;

/// Whether an index is none that the text gives.
pub(crate) fn is_moving(e: &Expr) -> bool
    ensures { result ≡ is_moving (given_index (expr_of e.now)) }
{
    match e {
        Expr::Lit(_, n) => *n < 0,
        Expr::Read(_) => true,
        Expr::Un(_, _, _) => true,
        Expr::Bin(_, _, _, _) => true,
        Expr::Cond(_, _, _) => true,
        Expr::Cast(_, _) => true,
    }
}

/// How many words the elements before an index have, where the text gives it.
fn given_offset(e: &Expr, width: u32) -> Result<u32, NoMemory>
    ensures { IfOk result (λ n. n ≡ given_offset (given_index (expr_of e.now)) width) }
{
    match e {
        Expr::Lit(_, n) if *n >= 0 => {
            let k = u32::try_from(*n).ok().ok_or(NoMemory)?;
            let offset = k.checked_mul(width).ok_or(NoMemory)?;
            Ok(offset)
        }
        _ => Ok(0),
    }
}

/// What a step adds to the part of a place's offset that the text gives.
fn step_offset(step: &PlaceStep, whole: &Part<'_>) -> Result<u32, NoMemory>
    ensures { IfOk result (λ n. (rest : Steps) → fixed_offset whole.now (step_of step.now rest) ≡ n + fixed_offset (part_shape step.now whole.now) rest) }
{
    match step {
        PlaceStep::Field(k) => Ok(whole.field_start(*k)),
        PlaceStep::At(e) => {
            let width = whole.step(step).words()?;
            given_offset(e, width)
        }
    }
}

/// Whether a step is an index that moves.
fn step_moves(step: &PlaceStep) -> bool
    ensures { result ≡ step_moves step.now }
{
    match step {
        PlaceStep::Field(_) => false,
        PlaceStep::At(e) => is_moving(e),
    }
}

/// Whether a step is an index that moves, or one before it was.
pub(crate) fn moves_after(step: &PlaceStep, before: bool) -> bool
    ensures { result ≡ (step_moves step.now || before) }
{
    step_moves(step) || before
}

/// Where the words of a place stand, with the private word that keeps its index.
pub(crate) fn locate(layout: &Layout<'_>, p: &Place, index: u32) -> Result<Moved, NoMemory>
    ensures { IfOk result (λ m. moved_of m ≡ moved layout.now (place_of p.now) index) }
{
    let mut part = layout.root(p.root);
    let whole = part.words()?;
    let mut offset: u32 = 0;
    let mut moving = false;
    for step in p.steps.as_slice() {
        let more = step_offset(step, &part)?;
        offset = offset.checked_add(more).ok_or(NoMemory)?;
        moving = moves_after(step, moving);
        part = part.step(step);
    }
    let base = layout.base(p.root).plus(offset)?;
    Ok(Moved {
        moving,
        base,
        span: whole.saturating_sub(offset),
        index,
    })
}

/// The words of a place.
pub(crate) fn place_words(layout: &Layout<'_>, p: &Place) -> Result<u32, NoMemory>
    ensures { IfOk result (λ n. n ≡ words (place_shape layout.now.scope (place_of p.now))) }
{
    let mut part = layout.root(p.root);
    for step in p.steps.as_slice() {
        part = part.step(step);
    }
    part.words()
}
