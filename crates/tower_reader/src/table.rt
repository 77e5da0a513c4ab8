//! The table of forms.
ghost use Rattle.std.specs.Prelude.{◌≡◌};
ghost use Rattle.tower_reader.specs.Table.{rule, rule_of, rows, row_of, place_at, count_fits, atoms_at};

use tower_syntax::{binary_word, scalar_word, tower_word, unary_word};
use tower_types::{BinOp, Scalar, UnOp};

/// Where a node stands. Each number's range is a place.
#[derive(Clone, Copy)]
pub enum Place {
    /// Where no node may stand.
    Nowhere,
    Name,
    Use,
    Priority,
    Period,
    Depth,
    Bound,
    /// The n of `(ix n)`.
    Size,
    Times,
    Length,
    Literal,
    Tower,
    Item,
    /// An item of a file of version 2.
    Item2,
    Field,
    Part,
    Hpart,
    Type,
    Stmt,
    Then,
    Else,
    Place,
    Expr,
}

/// What atoms may stand at a place.
#[derive(Clone, Copy)]
pub enum Atoms {
    None,
    Name,
    /// A name, as a place of a value.
    Place,
    /// A name, or the word of a scalar.
    Type,
    /// A name, or `true` or `false`.
    Expr,
    /// A number from `low` to `high`.
    Number { low: u32, high: u32 },
    /// A number that a literal may have.
    Literal,
}

/// A row of the table.
#[derive(Clone, Copy)]
pub enum Row {
    /// The file: it has no head.
    File,
    Tower,
    /// A file of version 2.
    Tower2,
    Item(ItemRow),
    Part(PartRow),
    Stmt(StmtRow),
    Expr(ExprRow),
}

/// A row of an item of a file.
#[derive(Clone, Copy)]
pub enum ItemRow {
    Record,
    Init,
    Period,
    Period2,
    Signal,
    Signal2,
    Channel,
    Output,
    Monitor,
}

/// A row of a part of a record, monitor or handler, or of a type.
#[derive(Clone, Copy)]
pub enum PartRow {
    Field,
    State,
    Handler,
    Emitter,
    Callback,
    Ix,
    Array,
}

/// A row of a statement or of a part of one.
#[derive(Clone, Copy)]
pub enum StmtRow {
    Let,
    Local,
    Set,
    Copy,
    If,
    Then,
    Else,
    For,
    Emit,
}

/// A row of a place or an expression.
#[derive(Clone, Copy)]
pub enum ExprRow {
    Get,
    At,
    Lit(Scalar),
    LitIx,
    Bin(BinOp),
    Un(UnOp),
    Cond,
    Cast,
}

/// The head of a row, the places of the children behind it, and where there may be more of these, their place.
#[derive(Clone, Copy)]
struct RowRule {
    word: &'static str,
    places: &'static [Place],
    more: Option<Place>,
}

#[inline(always)]
const fn form(word: &'static str, places: &'static [Place]) -> RowRule
    ensures { rule_of result ≡ Rattle.tower_reader.specs.Table.form word.now places.now }
{
    RowRule {
        word,
        places,
        more: None,
    }
}

#[inline(always)]
const fn many(word: &'static str, places: &'static [Place], more: Place) -> RowRule
    ensures { rule_of result ≡ Rattle.tower_reader.specs.Table.many word.now places.now more }
{
    RowRule {
        word,
        places,
        more: Some(more),
    }
}

#[inline(always)]
fn item_rule(row: ItemRow) -> RowRule
    ensures { rule_of result ≡ rule (Row.Item row) }
{
    match row {
        ItemRow::Record => many("record", &[Place::Name, Place::Field], Place::Field),
        ItemRow::Init => form("init", &[Place::Name, Place::Priority]),
        ItemRow::Period => form("period", &[Place::Name, Place::Period, Place::Priority]),
        ItemRow::Period2 => form(
            "period",
            &[Place::Name, Place::Period, Place::Priority, Place::Depth],
        ),
        ItemRow::Signal => form("signal", &[Place::Name, Place::Type, Place::Priority]),
        ItemRow::Signal2 => form(
            "signal",
            &[Place::Name, Place::Type, Place::Priority, Place::Depth],
        ),
        ItemRow::Channel => form("channel", &[Place::Name, Place::Type]),
        ItemRow::Output => form("output", &[Place::Name, Place::Use]),
        ItemRow::Monitor => many("monitor", &[Place::Name], Place::Part),
    }
}

#[inline(always)]
fn part_rule(row: PartRow) -> RowRule
    ensures { rule_of result ≡ rule (Row.Part row) }
{
    match row {
        PartRow::Field => form("field", &[Place::Name, Place::Type]),
        PartRow::State => form("state", &[Place::Name, Place::Type]),
        PartRow::Handler => many("handler", &[Place::Name, Place::Use], Place::Hpart),
        PartRow::Emitter => form("emitter", &[Place::Name, Place::Use, Place::Bound]),
        PartRow::Callback => many("callback", &[Place::Name], Place::Stmt),
        PartRow::Ix => form("ix", &[Place::Size]),
        PartRow::Array => form("array", &[Place::Length, Place::Type]),
    }
}

#[inline(always)]
fn stmt_rule(row: StmtRow) -> RowRule
    ensures { rule_of result ≡ rule (Row.Stmt row) }
{
    match row {
        StmtRow::Let => form("let", &[Place::Name, Place::Expr]),
        StmtRow::Local => form("local", &[Place::Name, Place::Type]),
        StmtRow::Set => form("set", &[Place::Place, Place::Expr]),
        StmtRow::Copy => form("copy", &[Place::Place, Place::Place]),
        StmtRow::If => form("if", &[Place::Expr, Place::Then, Place::Else]),
        StmtRow::Then => many("then", &[], Place::Stmt),
        StmtRow::Else => many("else", &[], Place::Stmt),
        StmtRow::For => many("for", &[Place::Name, Place::Times], Place::Stmt),
        StmtRow::Emit => form("emit", &[Place::Use, Place::Expr]),
    }
}

#[inline(always)]
fn expr_rule(row: ExprRow) -> RowRule
    ensures { rule_of result ≡ rule (Row.Expr row) }
{
    match row {
        ExprRow::Get => form("get", &[Place::Place, Place::Use]),
        ExprRow::At => form("at", &[Place::Place, Place::Expr]),
        ExprRow::Lit(scalar) => form(scalar_word(scalar), &[Place::Literal]),
        ExprRow::LitIx => form("ix", &[Place::Size, Place::Literal]),
        ExprRow::Bin(op) => form(binary_word(op), &[Place::Expr, Place::Expr]),
        ExprRow::Un(op) => form(unary_word(op), &[Place::Expr]),
        ExprRow::Cond => form("cond", &[Place::Expr, Place::Expr, Place::Expr]),
        ExprRow::Cast => form("cast", &[Place::Type, Place::Expr]),
    }
}

#[inline(always)]
fn rule(row: Row) -> RowRule
    ensures { rule_of result ≡ rule row }
{
    match row {
        Row::File => many("", &[Place::Tower], Place::Nowhere),
        Row::Tower => many(tower_word(1), &[Place::Name], Place::Item),
        Row::Tower2 => many(tower_word(2), &[Place::Name], Place::Item2),
        Row::Item(row) => item_rule(row),
        Row::Part(row) => part_rule(row),
        Row::Stmt(row) => stmt_rule(row),
        Row::Expr(row) => expr_rule(row),
    }
}

const ITEMS: [Row; 7] = [
    Row::Item(ItemRow::Record),
    Row::Item(ItemRow::Init),
    Row::Item(ItemRow::Period),
    Row::Item(ItemRow::Signal),
    Row::Item(ItemRow::Channel),
    Row::Item(ItemRow::Output),
    Row::Item(ItemRow::Monitor),
];

const ITEMS2: [Row; 7] = [
    Row::Item(ItemRow::Record),
    Row::Item(ItemRow::Init),
    Row::Item(ItemRow::Period2),
    Row::Item(ItemRow::Signal2),
    Row::Item(ItemRow::Channel),
    Row::Item(ItemRow::Output),
    Row::Item(ItemRow::Monitor),
];

const STMTS: [Row; 7] = [
    Row::Stmt(StmtRow::Let),
    Row::Stmt(StmtRow::Local),
    Row::Stmt(StmtRow::Set),
    Row::Stmt(StmtRow::Copy),
    Row::Stmt(StmtRow::If),
    Row::Stmt(StmtRow::For),
    Row::Stmt(StmtRow::Emit),
];

const EXPRS: [Row; 28] = [
    Row::Expr(ExprRow::Get),
    Row::Expr(ExprRow::At),
    Row::Expr(ExprRow::Lit(Scalar::U8)),
    Row::Expr(ExprRow::Lit(Scalar::U16)),
    Row::Expr(ExprRow::Lit(Scalar::U32)),
    Row::Expr(ExprRow::Lit(Scalar::U64)),
    Row::Expr(ExprRow::Lit(Scalar::I8)),
    Row::Expr(ExprRow::Lit(Scalar::I16)),
    Row::Expr(ExprRow::Lit(Scalar::I32)),
    Row::Expr(ExprRow::Lit(Scalar::I64)),
    Row::Expr(ExprRow::LitIx),
    Row::Expr(ExprRow::Bin(BinOp::Add)),
    Row::Expr(ExprRow::Bin(BinOp::Sub)),
    Row::Expr(ExprRow::Bin(BinOp::Mul)),
    Row::Expr(ExprRow::Bin(BinOp::Div)),
    Row::Expr(ExprRow::Bin(BinOp::Rem)),
    Row::Expr(ExprRow::Bin(BinOp::And)),
    Row::Expr(ExprRow::Bin(BinOp::Or)),
    Row::Expr(ExprRow::Bin(BinOp::Xor)),
    Row::Expr(ExprRow::Bin(BinOp::Eq)),
    Row::Expr(ExprRow::Bin(BinOp::Less)),
    Row::Expr(ExprRow::Bin(BinOp::LessEq)),
    Row::Expr(ExprRow::Bin(BinOp::Both)),
    Row::Expr(ExprRow::Bin(BinOp::Either)),
    Row::Expr(ExprRow::Un(UnOp::Not)),
    Row::Expr(ExprRow::Un(UnOp::Neg)),
    Row::Expr(ExprRow::Cond),
    Row::Expr(ExprRow::Cast),
];

fn rows(place: Place) -> &'static [Row]
    ensures { result.now ≡ rows place }
{
    match place {
        Place::Tower => &[Row::Tower, Row::Tower2],
        Place::Item => &ITEMS,
        Place::Item2 => &ITEMS2,
        Place::Field => &[Row::Part(PartRow::Field)],
        Place::Part => &[Row::Part(PartRow::State), Row::Part(PartRow::Handler)],
        Place::Hpart => &[Row::Part(PartRow::Emitter), Row::Part(PartRow::Callback)],
        Place::Type => &[Row::Part(PartRow::Ix), Row::Part(PartRow::Array)],
        Place::Stmt => &STMTS,
        Place::Then => &[Row::Stmt(StmtRow::Then)],
        Place::Else => &[Row::Stmt(StmtRow::Else)],
        Place::Place => &[Row::Expr(ExprRow::Get), Row::Expr(ExprRow::At)],
        Place::Expr => &EXPRS,
        _ => &[],
    }
}

/// The row of a place with this head.
pub(crate) fn row_of(place: Place, word: &[u8]) -> Option<Row>
    ensures { result ≡ row_of place word.now }
{
    for row in rows(place) {
        let head = rule(*row).word;
        if head.as_bytes() == word {
            return Some(*row);
        }
    }
    None
}

/// The place of a row's child, the head not counted.
pub(crate) fn place_at(row: Row, i: usize) -> Place
    ensures { result ≡ place_at row i }
{
    let rule = rule(row);
    if i < rule.places.len() {
        rule.places[i]
    } else {
        rule.more.unwrap_or(Place::Nowhere)
    }
}

/// Whether a row may have so many children, the head not counted.
pub(crate) fn count_fits(row: Row, n: usize) -> bool
    ensures { result ≡ count_fits row n }
{
    let rule = rule(row);
    let least = rule.places.len();
    least <= n && (n <= least || rule.more.is_some())
}

/// The atoms of a place.
pub(crate) fn atoms_at(place: Place) -> Atoms
    ensures { result ≡ atoms_at place }
{
    match place {
        Place::Name | Place::Use => Atoms::Name,
        Place::Place => Atoms::Place,
        Place::Type => Atoms::Type,
        Place::Expr => Atoms::Expr,
        Place::Priority => Atoms::Number { low: 0, high: 255 },
        Place::Period => Atoms::Number {
            low: 1,
            high: 1_000_000,
        },
        Place::Depth => Atoms::Number { low: 1, high: 64 },
        Place::Bound => Atoms::Number {
            low: 0,
            high: 65_536,
        },
        Place::Size | Place::Times => Atoms::Number {
            low: 1,
            high: 65_536,
        },
        Place::Length => Atoms::Number { low: 1, high: 4096 },
        Place::Literal => Atoms::Literal,
        _ => Atoms::None,
    }
}
