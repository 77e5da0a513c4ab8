//! What expressions and places weigh, or 2^64 - 1 where they weigh more. None of it takes memory.

ghost use Rattle.std.specs.Prelude.{◌≡◌, ◌+◌};
ghost use Rattle.tower_types.specs.Records.{saturated};
ghost use Rattle.tower_syntax.specs.Tree.{Steps};
ghost use Rattle.tower_syntax.specs.View.{expr_of, place_of};
ghost use Rattle.tower_syntax.specs.Weights.{expr_weight, place_weight, steps_weight};
ghost use Rattle.channel_graph.specs.Stepped.{step_of, step_weight, all_steps_weight};

use tower_syntax::{Expr, Place, PlaceStep};

/// What an expression weighs.
#[cycle(weighed)]
pub(crate) fn expr_weight(e: &Expr) -> u64
    ensures { result ≡ saturated (expr_weight (expr_of e.now)) }
{
    match e {
        Expr::Lit(_, _) => 2,
        Expr::Read(p) => place_weight(p).saturating_add(4),
        Expr::Un(_, _, a) => expr_weight(a.get()).saturating_add(2),
        Expr::Bin(_, _, a, b) => {
            let first = expr_weight(a.get());
            let second = expr_weight(b.get());
            first.saturating_add(second).saturating_add(2)
        }
        Expr::Cond(c, a, b) => {
            let test = expr_weight(c.get());
            let first = expr_weight(a.get());
            let second = expr_weight(b.get());
            test.saturating_add(first)
                .saturating_add(second)
                .saturating_add(4)
        }
        Expr::Cast(_, a) => expr_weight(a.get()).saturating_add(2),
    }
}

/// What a place weighs.
#[cycle(weighed)]
pub(crate) fn place_weight(p: &Place) -> u64
    ensures { result ≡ saturated (place_weight (place_of p.now)) }
{
    steps_weight(p.steps.as_slice()).saturating_add(4)
}

/// What the steps of a place weigh.
#[cycle(weighed)]
fn steps_weight(steps: &[PlaceStep]) -> u64
    ensures { result ≡ saturated (all_steps_weight steps.now) }
{
    let mut total: u64 = 0;
    for step in steps {
        total = total.saturating_add(step_weight(step));
    }
    total
}

/// What one step weighs.
#[cycle(weighed)]
fn step_weight(step: &PlaceStep) -> u64
    ensures weight { result ≡ saturated (step_weight step.now) }
    ensures splits { (rest : Steps) → steps_weight (step_of step.now rest) ≡ step_weight step.now + steps_weight rest }
{
    match step {
        PlaceStep::Field(_) => 4,
        PlaceStep::At(e) => expr_weight(e).saturating_add(8),
    }
}
