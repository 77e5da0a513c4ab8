//! How high expressions and places are, as far as a 32-bit number tells.
ghost use Rattle.std.specs.Prelude.{◌≡◌};
ghost use Rattle.tower_syntax.specs.NamedView.{named_expr_of, named_place_of};
ghost use Rattle.arch_types.specs.Body.{height, place_height, told};

use tower_syntax::{NamedExpr, NamedPlace};

#[cycle(heights)]
pub fn place_height(place: &NamedPlace) -> u32
    ensures { result ≡ told (place_height (named_place_of place.now)) }
{
    match place {
        NamedPlace::Root(_) => 1,
        NamedPlace::Get { base, .. } => place_height(base.get()).saturating_add(1),
        NamedPlace::At { base, index, .. } => {
            let whole = place_height(base.get());
            let number = height(index.get());
            whole.max(number).saturating_add(1)
        }
    }
}

#[cycle(heights)]
pub fn height(expr: &NamedExpr) -> u32
    ensures { result ≡ told (height (named_expr_of expr.now)) }
{
    match expr {
        NamedExpr::Truth { .. } | NamedExpr::Lit { .. } => 1,
        NamedExpr::Read(place) => place_height(place),
        NamedExpr::Un { a, .. } | NamedExpr::Cast { a, .. } => height(a.get()).saturating_add(1),
        NamedExpr::Bin { a, b, .. } => {
            let first = height(a.get());
            let second = height(b.get());
            first.max(second).saturating_add(1)
        }
        NamedExpr::Cond { test, yes, no, .. } => {
            let first = height(test.get());
            let second = height(yes.get());
            let third = height(no.get());
            first.max(second).max(third).saturating_add(1)
        }
    }
}
