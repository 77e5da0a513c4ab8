//! What statements and handlers weigh, or 2^64 - 1 where they weigh more. None of it takes memory.

ghost use Rattle.std.specs.Prelude.{◌≡◌, ◌+◌, ℕ};
ghost use Rattle.tower_types.specs.Ty.{Shape, words};
ghost use Rattle.tower_types.specs.View.{ty_of};
ghost use Rattle.tower_types.specs.Records.{saturated};
ghost use Rattle.tower_syntax.specs.Arch.{Arch as System};
ghost use Rattle.tower_syntax.specs.View.{expr_of, stmt_of, all_stmts_of, handler_of};
ghost use Rattle.tower_syntax.specs.Weights.{move, moved_weight, shape_at, stmt_weight, stmts_weight, bodies_weight, section_by};
ghost use Rattle.tower_syntax.specs.WellNumbered.{IsNumberedHandler};
ghost use Rattle.channel_graph.specs.Site.{scope_at};
ghost use Rattle.channel_graph.specs.Scoped.{is_one, shape_by};
ghost use Rattle.channel_graph.specs.Counting.{counting_of};

use crate::scope::Scope;
use crate::size::type_words;
use crate::weight::{expr_weight, place_weight};
use tower_syntax::{Arch, Expr, Handler, Stmt};
use tower_types::Ty;

/// How a branch counts its two lists, and a loop its turns: as instructions are executed, or as they stand in the code.
#[derive(Clone, Copy, Debug, PartialEq, Eq)]
pub(crate) enum Count {
    Executed,
    Standing,
}

impl Count {
    /// What both lists of a branch weigh together.
    fn either(self, first: u64, second: u64) -> u64
        ensures { (a b : ℕ) → first ≡ saturated a → second ≡ saturated b
            → result ≡ saturated ((counting_of self).either a b) }
    {
        match self {
            Count::Executed => first.max(second),
            Count::Standing => first.saturating_add(second),
        }
    }

    /// What a loop weighs.
    fn repeated(self, turns: u32, body: u64) -> u64
        ensures { (n : ℕ) → body ≡ saturated n → result ≡ saturated ((counting_of self).repeated turns n) }
    {
        match self {
            Count::Executed => {
                let turn = body.saturating_add(16);
                turn.saturating_mul(u64::from(turns)).saturating_add(16)
            }
            Count::Standing => body.saturating_add(32),
        }
    }
}

/// What it weighs to move some words.
pub(crate) fn move_weight(words: u64) -> u64
    ensures { (n : ℕ) → words ≡ saturated n → result ≡ saturated (move n) }
{
    words.saturating_mul(24).saturating_add(40)
}

/// Whether a type is a scalar.
fn is_scalar(ty: &Ty) -> bool
    ensures { (arch : System) → result ≡ is_one (shape_by arch (ty_of ty.now)) }
{
    match ty {
        Ty::Scalar(_) => true,
        Ty::Array(_, _) => false,
        Ty::Rec(_) => false,
    }
}

/// What it weighs to evaluate an expression that is moved: of a value that is no scalar only the place counts.
fn moved_weight(is_scalar: bool, e: &Expr) -> u64
    ensures { (s : Shape) → is_scalar ≡ is_one s → result ≡ saturated (moved_weight s (expr_of e.now)) }
{
    match e {
        Expr::Read(p) if !is_scalar => place_weight(p),
        _ => expr_weight(e),
    }
}

/// What it weighs to emit the value of an expression.
fn emit_weight(scope: &Scope<'_>, k: u32, e: &Expr) -> u64
    ensures { result ≡ saturated (moved_weight (shape_at (scope_at scope.now).emitters k) (expr_of e.now)
        + move (words (shape_at (scope_at scope.now).emitters k))) }
{
    match scope.emitter_type(k) {
        Some(ty) => {
            let words = type_words(scope.arch, ty);
            moved_weight(is_scalar(ty), e).saturating_add(move_weight(words))
        }
        None => moved_weight(false, e).saturating_add(move_weight(0)),
    }
}

/// What the statements weigh.
#[cycle(sections)]
fn stmts_weight(scope: &Scope<'_>, count: Count, stmts: &[Stmt]) -> u64
    ensures { result ≡ saturated (stmts_weight (counting_of count) (scope_at scope.now) (all_stmts_of stmts.now)) }
{
    let mut total: u64 = 0;
    for stmt in stmts {
        total = total.saturating_add(stmt_weight(scope, count, stmt));
    }
    total
}

/// What a statement weighs.
#[cycle(sections)]
fn stmt_weight(scope: &Scope<'_>, count: Count, stmt: &Stmt) -> u64
    ensures { result ≡ saturated (stmt_weight (counting_of count) (scope_at scope.now) (stmt_of stmt.now)) }
{
    match stmt {
        Stmt::Bind(_, e) => expr_weight(e).saturating_add(4),
        Stmt::Local(b) => scope.binder_words(*b).saturating_mul(24).saturating_add(8),
        Stmt::Set(p, e) => {
            let place = place_weight(p);
            place.saturating_add(expr_weight(e)).saturating_add(8)
        }
        Stmt::Copy(p, q) => {
            let places = place_weight(p).saturating_add(place_weight(q));
            places.saturating_add(move_weight(scope.place_words(p)))
        }
        Stmt::Branch(e, first, second) => {
            let a = stmts_weight(scope, count, first.as_slice());
            let b = stmts_weight(scope, count, second.as_slice());
            let test = expr_weight(e).saturating_add(8);
            test.saturating_add(count.either(a, b))
        }
        Stmt::Loop(_, turns, body) => {
            let once = stmts_weight(scope, count, body.as_slice());
            count.repeated(*turns, once)
        }
        Stmt::Emit(k, e) => emit_weight(scope, *k, e),
    }
}

/// What the callbacks of a handler weigh.
fn bodies_weight(arch: &Arch, h: &Handler, count: Count) -> u64
    requires { IsNumberedHandler arch.now (handler_of h.now) }
    ensures { result ≡ saturated (bodies_weight (counting_of count) arch.now (handler_of h.now)) }
{
    let mut total: u64 = 0;
    for body in h.callbacks.as_slice() {
        let scope = Scope {
            arch,
            handler: h,
            body,
        };
        total = total.saturating_add(stmts_weight(&scope, count, body.stmts.as_slice()));
    }
    total
}

/// What a handler weighs from its lock to its unlock.
pub(crate) fn section(arch: &Arch, h: &Handler, count: Count) -> u64
    requires { IsNumberedHandler arch.now (handler_of h.now) }
    ensures { result ≡ saturated (section_by (counting_of count) arch.now (handler_of h.now)) }
{
    let emitters = (h.emitters.len() as u64).saturating_mul(16);
    let bodies = bodies_weight(arch, h, count);
    bodies.saturating_add(emitters).saturating_add(64)
}
