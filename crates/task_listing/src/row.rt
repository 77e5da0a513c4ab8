//! How each instruction is spelled, one a row.
ghost use Rattle.std.specs.Prelude.{◌≡◌, ◌∷◌};
ghost use Rattle.task_listing.specs.Spelling.{words_of, letters};
ghost use Rattle.task_listing.specs.Rows.{operand_words};

use task_code::Instr;
use tower_types::{BinOp, Scalar, UnOp};

/// What stands behind an instruction's word.
#[derive(Clone, Copy)]
pub(crate) enum Operands {
    None,
    Literal(i128),
    One(u32),
    Two(u32, u32),
    Three(u32, u32, u32),
    Unary(UnOp, Scalar),
    Binary(BinOp, Scalar),
    Type(Scalar),
}

/// The word of an instruction, and what stands behind it.
#[derive(Clone, Copy)]
pub(crate) struct Row {
    pub(crate) word: &'static str,
    pub(crate) operands: Operands,
}

impl Row {
    /// The row of an instruction.
    pub(crate) fn of(instr: Instr) -> Row
        ensures { words_of instr ≡ letters result.word.now ∷ operand_words result.operands }
    {
        match instr {
            Instr::Push(n) => Row {
                word: "PUSH",
                operands: Operands::Literal(n),
            },
            Instr::Drop => Row {
                word: "DROP",
                operands: Operands::None,
            },
            Instr::Dup => Row {
                word: "DUP",
                operands: Operands::None,
            },
            Instr::Ld(a) => Row {
                word: "LD",
                operands: Operands::One(a),
            },
            Instr::St(a) => Row {
                word: "ST",
                operands: Operands::One(a),
            },
            Instr::Ldx(a, n) => Row {
                word: "LDX",
                operands: Operands::Two(a, n),
            },
            Instr::Stx(a, n) => Row {
                word: "STX",
                operands: Operands::Two(a, n),
            },
            Instr::Ldm(m, a, n) => Row {
                word: "LDM",
                operands: Operands::Three(m, a, n),
            },
            Instr::Stm(m, a, n) => Row {
                word: "STM",
                operands: Operands::Three(m, a, n),
            },
            Instr::Un(op, t) => Row {
                word: "UN",
                operands: Operands::Unary(op, t),
            },
            Instr::Bin(op, t) => Row {
                word: "BIN",
                operands: Operands::Binary(op, t),
            },
            Instr::Cast(t) => Row {
                word: "CAST",
                operands: Operands::Type(t),
            },
            Instr::Jmp(to) => Row {
                word: "JMP",
                operands: Operands::One(to),
            },
            Instr::Jz(to) => Row {
                word: "JZ",
                operands: Operands::One(to),
            },
            Instr::Call(to) => Row {
                word: "CALL",
                operands: Operands::One(to),
            },
            Instr::Ret => Row {
                word: "RET",
                operands: Operands::None,
            },
            Instr::Take(a) => Row {
                word: "TAKE",
                operands: Operands::One(a),
            },
            Instr::Lock(m) => Row {
                word: "LOCK",
                operands: Operands::One(m),
            },
            Instr::Unlock(m) => Row {
                word: "UNLOCK",
                operands: Operands::One(m),
            },
            Instr::Out(o, a) => Row {
                word: "OUT",
                operands: Operands::Two(o, a),
            },
            Instr::Bclr(b) => Row {
                word: "BCLR",
                operands: Operands::One(b),
            },
            Instr::Bput(b) => Row {
                word: "BPUT",
                operands: Operands::One(b),
            },
            Instr::Badd(b) => Row {
                word: "BADD",
                operands: Operands::One(b),
            },
            Instr::Bget(b) => Row {
                word: "BGET",
                operands: Operands::One(b),
            },
            Instr::Bcnt(b) => Row {
                word: "BCNT",
                operands: Operands::One(b),
            },
        }
    }
}
