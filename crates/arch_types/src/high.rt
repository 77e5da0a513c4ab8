//! Expressions and places that are too high, and which of two faults comes first.
ghost use Rattle.std.specs.Prelude.{◌≡◌};
ghost use Rattle.tower_syntax.specs.NamedView.{named_expr_of, named_place_of};
ghost use Rattle.arch_types.specs.Walk.{deep, too_high, high_expr, high_place, earlier, first_high};
ghost use Rattle.arch_types.specs.declared.fault.TypeFault.TheVariants.{NoMemory};

use crate::fault::TypeFault;
use crate::heights::{height, place_height};
use tower_syntax::{NamedExpr, NamedPlace};

/// How high an outermost expression or place of a statement may be.
const HEIGHT_LIMIT: u32 = 24;

/// An expression or place that is too high.
#[derive(Clone, Copy, Debug, PartialEq, Eq)]
pub struct High {
    pub at: u32,
    pub depth: u32,
}

impl High {
    pub fn fault(self) -> TypeFault
        ensures { result ≡ deep self }
    {
        TypeFault::Deep {
            at: self.at,
            depth: self.depth,
        }
    }
}

fn too_high(at: u32, depth: u32) -> Option<High>
    ensures { result ≡ too_high at depth }
{
    if depth > HEIGHT_LIMIT {
        Some(High { at, depth })
    } else {
        None
    }
}

pub fn high_expr(expr: &NamedExpr) -> Option<High>
    ensures { result ≡ high_expr (named_expr_of expr.now) }
{
    let at = expr.at();
    let depth = height(expr);
    too_high(at, depth)
}

pub fn high_place(place: &NamedPlace) -> Option<High>
    ensures { result ≡ high_place (named_place_of place.now) }
{
    let at = place.at();
    let depth = place_height(place);
    too_high(at, depth)
}

/// The first of what was found to be too high, and a fault that was found behind it.
pub fn earlier(high: Option<High>, fault: TypeFault) -> TypeFault
    ensures value { result ≡ earlier high fault }
    ensures memory { fault ≡ NoMemory → result ≡ NoMemory }
{
    if let TypeFault::NoMemory = fault {
        return TypeFault::NoMemory;
    }
    match high {
        Some(high) => high.fault(),
        None => fault,
    }
}

/// The first of two that are too high.
pub fn first_high(first: Option<High>, second: Option<High>) -> Option<High>
    ensures { result ≡ first_high first second }
{
    match first {
        Some(high) => Some(high),
        None => second,
    }
}
