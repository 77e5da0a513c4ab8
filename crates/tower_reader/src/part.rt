//! What a node is read as.
ghost use Rattle.std.specs.Prelude.{◌≡◌, MatchOption, pos, None, Some};
ghost use Rattle.tower_syntax.specs.RawTree.{rec, root, read, no_stmts};
ghost use Rattle.tower_syntax.specs.RawView.{id_of, raw_type_of, raw_place_of, raw_expr_of, raw_stmt_of, all_raw_stmts_of, raw_field_of, raw_hpart_of, raw_part_of, raw_item_of, raw_of};
ghost use Rattle.tower_reader.specs.Part.{no_id, no_raw, as_name, as_number, as_literal, as_type, as_place, as_expr, as_block, block_at, as_tower, if_stmt, if_field, if_hpart, if_part, if_item};
ghost use Rattle.tower_reader.specs.View.{seen};

use sqlite_items::Items;
use std::alloc::Global;
use std::vec::IntoIter;
use tower_syntax::{
    Id, Raw, RawExpr, RawField, RawHpart, RawItem, RawPart, RawPlace, RawStmt, RawType,
};

/// What a node is read as, and nothing where it has no row.
#[derive(Drop)]
pub(crate) enum Part {
    Nothing,
    Number(u32),
    Literal(i128),
    Name(Id),
    Type(RawType),
    Place(RawPlace),
    Expr(RawExpr),
    Stmt(RawStmt),
    Block(Block),
    Field(RawField),
    Hpart(RawHpart),
    Part(RawPart),
    Item(RawItem),
    Tower(Raw),
}

/// A list `then` or `else`.
#[derive(Drop)]
pub(crate) struct Block {
    pub at: u32,
    pub stmts: Items<RawStmt>,
}

/// The parts of a row's children that are still to be taken.
pub(crate) type Children = IntoIter<Part, Global>;

fn ignore<T: Drop, U>(_value: T) -> Option<U>
    ensures { result ≡ None }
{
    None
}

/// The value that is made of the wanted variants. The others are named, and the value of each is given away whole: what
/// is left of a part that was taken apart would be dropped variant by variant at each way out.
macro_rules! taken {
    ($part:expr; $($wanted:pat => $value:expr),+; $($other:ident),*) => {
        match $part {
            $($wanted => Some($value),)+
            $(Part::$other(value) => ignore(value),)*
            Part::Nothing => None,
        }
    };
}

impl Part {
    /// Drops the part, by taking it apart.
    pub fn discard(self) {
        let _number = self.into_number();
    }

    pub fn into_name(self) -> Option<Id>
        ensures { MatchOption result (as_name (seen self) ≡ no_id) (λ x. as_name (seen self) ≡ id_of x) }
    {
        taken!(self; Part::Name(id) => id; Number, Literal, Type, Place, Expr, Stmt, Block, Field, Hpart, Part, Item, Tower)
    }

    pub fn into_number(self) -> Option<u32>
        ensures { MatchOption result (as_number (seen self) ≡ 0) (λ x. as_number (seen self) ≡ x) }
    {
        taken!(self; Part::Number(n) => n; Literal, Name, Type, Place, Expr, Stmt, Block, Field, Hpart, Part, Item, Tower)
    }

    pub fn into_literal(self) -> Option<i128>
        ensures { MatchOption result (as_literal (seen self) ≡ pos 0) (λ x. as_literal (seen self) ≡ x) }
    {
        taken!(self; Part::Literal(n) => n; Number, Name, Type, Place, Expr, Stmt, Block, Field, Hpart, Part, Item, Tower)
    }

    pub fn into_type(self) -> Option<RawType>
        ensures { MatchOption result (as_type (seen self) ≡ rec no_id) (λ x. as_type (seen self) ≡ raw_type_of x) }
    {
        taken!(self; Part::Type(ty) => ty; Number, Literal, Name, Place, Expr, Stmt, Block, Field, Hpart, Part, Item, Tower)
    }

    pub fn into_place(self) -> Option<RawPlace>
        ensures { MatchOption result (as_place (seen self) ≡ root no_id) (λ x. as_place (seen self) ≡ raw_place_of x) }
    {
        taken!(self; Part::Place(place) => place; Number, Literal, Name, Type, Expr, Stmt, Block, Field, Hpart, Part, Item, Tower)
    }

    /// An expression; a place is read.
    pub fn into_expr(self) -> Option<RawExpr>
        ensures { MatchOption result (as_expr (seen self) ≡ read (root no_id)) (λ x. as_expr (seen self) ≡ raw_expr_of x) }
    {
        taken!(self; Part::Expr(expr) => expr, Part::Place(place) => RawExpr::Read(place); Number, Literal, Name, Type, Stmt, Block, Field, Hpart, Part, Item, Tower)
    }

    pub fn into_tower(self) -> Option<Raw>
        ensures { MatchOption result (as_tower (seen self) ≡ no_raw) (λ x. as_tower (seen self) ≡ raw_of x) }
    {
        taken!(self; Part::Tower(raw) => raw; Number, Literal, Name, Type, Place, Expr, Stmt, Block, Field, Hpart, Part, Item)
    }

    pub fn into_block(self) -> Option<Block>
        ensures at { MatchOption result (block_at (seen self) ≡ 0) (λ x. block_at (seen self) ≡ x.at) }
        ensures stmts { MatchOption result (as_block (seen self) ≡ no_stmts) (λ x. as_block (seen self) ≡ all_raw_stmts_of x.stmts) }
    {
        taken!(self; Part::Block(block) => block; Number, Literal, Name, Type, Place, Expr, Stmt, Field, Hpart, Part, Item, Tower)
    }

    pub fn into_stmt(self) -> Option<RawStmt>
        ensures { MatchOption result (if_stmt (seen self) ≡ None) (λ x. if_stmt (seen self) ≡ Some (raw_stmt_of x)) }
    {
        taken!(self; Part::Stmt(stmt) => stmt; Number, Literal, Name, Type, Place, Expr, Block, Field, Hpart, Part, Item, Tower)
    }

    pub fn into_field(self) -> Option<RawField>
        ensures { MatchOption result (if_field (seen self) ≡ None) (λ x. if_field (seen self) ≡ Some (raw_field_of x)) }
    {
        taken!(self; Part::Field(field) => field; Number, Literal, Name, Type, Place, Expr, Stmt, Block, Hpart, Part, Item, Tower)
    }

    pub fn into_hpart(self) -> Option<RawHpart>
        ensures { MatchOption result (if_hpart (seen self) ≡ None) (λ x. if_hpart (seen self) ≡ Some (raw_hpart_of x)) }
    {
        taken!(self; Part::Hpart(hpart) => hpart; Number, Literal, Name, Type, Place, Expr, Stmt, Block, Field, Part, Item, Tower)
    }

    pub fn into_part(self) -> Option<RawPart>
        ensures { MatchOption result (if_part (seen self) ≡ None) (λ x. if_part (seen self) ≡ Some (raw_part_of x)) }
    {
        taken!(self; Part::Part(part) => part; Number, Literal, Name, Type, Place, Expr, Stmt, Block, Field, Hpart, Item, Tower)
    }

    pub fn into_item(self) -> Option<RawItem>
        ensures { MatchOption result (if_item (seen self) ≡ None) (λ x. if_item (seen self) ≡ Some (raw_item_of x)) }
    {
        taken!(self; Part::Item(item) => item; Number, Literal, Name, Type, Place, Expr, Stmt, Block, Field, Hpart, Part, Tower)
    }
}
