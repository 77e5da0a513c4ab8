//! The lines of instructions, read.
ghost use Rattle.std.specs.Prelude.{◌≡◌, [], ◌∷◌};
ghost use Rattle.task_listing.specs.FewWords.{listed};
ghost use Rattle.task_listing.specs.Answers.{both, plain_named, plain_instr, one_named, one_instr, two_named, two_instr, three_named, three_instr};
ghost use Rattle.task_listing.specs.Answers.{with_one, with_two, with_three, push, one_line, two_line, three_line, instr_line};
ghost use Rattle.task_listing.specs.Answers.{literal_line, cast_line, unary_line, binary_line, plain_line};

use crate::fault::ListKind;
use crate::number::{binary_named, literal, operand, type_named, unary_named};
use crate::words::Words;
use task_code::Instr;

/// The instructions with no operand.
#[derive(Clone, Copy)]
pub(crate) enum Plain {
    Drop,
    Dup,
    Ret,
}

/// The instructions with one number, which is an address, a place or the number of a monitor or buffer.
#[derive(Clone, Copy)]
pub(crate) enum WithOne {
    Ld,
    St,
    Jmp,
    Jz,
    Call,
    Take,
    Lock,
    Unlock,
    Bclr,
    Bput,
    Badd,
    Bget,
    Bcnt,
}

/// The instructions with two numbers.
#[derive(Clone, Copy)]
pub(crate) enum WithTwo {
    Ldx,
    Stx,
    Out,
}

/// The instructions with three numbers.
#[derive(Clone, Copy)]
pub(crate) enum WithThree {
    Ldm,
    Stm,
}

fn plain_named(word: &[u8]) -> Option<Plain>
    ensures { result ≡ plain_named word.now }
{
    match word {
        b"DROP" => Some(Plain::Drop),
        b"DUP" => Some(Plain::Dup),
        b"RET" => Some(Plain::Ret),
        _ => None,
    }
}

fn plain_instr(operation: Plain) -> Instr
    ensures { result ≡ plain_instr operation }
{
    match operation {
        Plain::Drop => Instr::Drop,
        Plain::Dup => Instr::Dup,
        Plain::Ret => Instr::Ret,
    }
}

fn one_named(word: &[u8]) -> Option<WithOne>
    ensures { result ≡ one_named word.now }
{
    match word {
        b"LD" => Some(WithOne::Ld),
        b"ST" => Some(WithOne::St),
        b"JMP" => Some(WithOne::Jmp),
        b"JZ" => Some(WithOne::Jz),
        b"CALL" => Some(WithOne::Call),
        b"TAKE" => Some(WithOne::Take),
        b"LOCK" => Some(WithOne::Lock),
        b"UNLOCK" => Some(WithOne::Unlock),
        b"BCLR" => Some(WithOne::Bclr),
        b"BPUT" => Some(WithOne::Bput),
        b"BADD" => Some(WithOne::Badd),
        b"BGET" => Some(WithOne::Bget),
        b"BCNT" => Some(WithOne::Bcnt),
        _ => None,
    }
}

fn one_instr(operation: WithOne, a: u32) -> Instr
    ensures { result ≡ one_instr operation a }
{
    match operation {
        WithOne::Ld => Instr::Ld(a),
        WithOne::St => Instr::St(a),
        WithOne::Jmp => Instr::Jmp(a),
        WithOne::Jz => Instr::Jz(a),
        WithOne::Call => Instr::Call(a),
        WithOne::Take => Instr::Take(a),
        WithOne::Lock => Instr::Lock(a),
        WithOne::Unlock => Instr::Unlock(a),
        WithOne::Bclr => Instr::Bclr(a),
        WithOne::Bput => Instr::Bput(a),
        WithOne::Badd => Instr::Badd(a),
        WithOne::Bget => Instr::Bget(a),
        WithOne::Bcnt => Instr::Bcnt(a),
    }
}

fn two_named(word: &[u8]) -> Option<WithTwo>
    ensures { result ≡ two_named word.now }
{
    match word {
        b"LDX" => Some(WithTwo::Ldx),
        b"STX" => Some(WithTwo::Stx),
        b"OUT" => Some(WithTwo::Out),
        _ => None,
    }
}

fn two_instr(operation: WithTwo, a: u32, b: u32) -> Instr
    ensures { result ≡ two_instr operation a b }
{
    match operation {
        WithTwo::Ldx => Instr::Ldx(a, b),
        WithTwo::Stx => Instr::Stx(a, b),
        WithTwo::Out => Instr::Out(a, b),
    }
}

fn three_named(word: &[u8]) -> Option<WithThree>
    ensures { result ≡ three_named word.now }
{
    match word {
        b"LDM" => Some(WithThree::Ldm),
        b"STM" => Some(WithThree::Stm),
        _ => None,
    }
}

fn three_instr(operation: WithThree, a: u32, b: u32, c: u32) -> Instr
    ensures { result ≡ three_instr operation a b c }
{
    match operation {
        WithThree::Ldm => Instr::Ldm(a, b, c),
        WithThree::Stm => Instr::Stm(a, b, c),
    }
}

fn with_one(operation: WithOne, operand: Option<u32>) -> Option<Instr>
    ensures { result ≡ with_one operation operand }
{
    match operand {
        Some(a) => Some(one_instr(operation, a)),
        None => None,
    }
}

fn with_two(operation: WithTwo, operands: (Option<u32>, Option<u32>)) -> Option<Instr>
    ensures { result ≡ with_two operation operands }
{
    match operands {
        (Some(a), Some(b)) => Some(two_instr(operation, a, b)),
        (Some(_), None) => None,
        (None, _) => None,
    }
}

type ThreeOperands = (Option<u32>, (Option<u32>, Option<u32>));

fn with_three(operation: WithThree, operands: ThreeOperands) -> Option<Instr>
    ensures { result ≡ with_three operation operands }
{
    match operands {
        (Some(a), (Some(b), Some(c))) => Some(three_instr(operation, a, b, c)),
        (Some(_), (Some(_), None)) => None,
        (Some(_), (None, _)) => None,
        (None, _) => None,
    }
}

/// Both answers, or how a line with both is wrong: `Line` goes before `Number`.
pub(crate) fn both<A: Drop, B: Drop>(
    a: Result<A, ListKind>,
    b: Result<B, ListKind>,
) -> Result<(A, B), ListKind>
    ensures { result ≡ both a b }
{
    match (a, b) {
        (Ok(a), Ok(b)) => Ok((a, b)),
        (Ok(_), Err(kind)) => Err(kind),
        (Err(kind), Ok(_)) => Err(kind),
        (Err(kind), Err(other)) => match kind {
            ListKind::Number => Err(other),
            _ => Err(kind),
        },
    }
}

fn one_line(word: &[u8], a: &[u8]) -> Result<Option<Instr>, ListKind>
    ensures { result ≡ one_line word.now a.now }
{
    let Some(operation) = one_named(word) else {
        return Err(ListKind::Line);
    };
    let a = operand(a)?;
    Ok(with_one(operation, a))
}

fn two_line(word: &[u8], a: &[u8], b: &[u8]) -> Result<Option<Instr>, ListKind>
    ensures { result ≡ two_line word.now a.now b.now }
{
    let Some(operation) = two_named(word) else {
        return Err(ListKind::Line);
    };
    let operands = both(operand(a), operand(b))?;
    Ok(with_two(operation, operands))
}

fn literal_line(a: &[u8]) -> Result<Option<Instr>, ListKind>
    ensures { result ≡ literal_line a.now }
{
    match literal(a)? {
        Some(number) => Ok(Some(Instr::Push(number))),
        None => Ok(None),
    }
}

fn cast_line(a: &[u8]) -> Result<Option<Instr>, ListKind>
    ensures { result ≡ cast_line a.now }
{
    let scalar = type_named(a)?;
    Ok(Some(Instr::Cast(scalar)))
}

fn unary_line(a: &[u8], b: &[u8]) -> Result<Option<Instr>, ListKind>
    ensures { result ≡ unary_line a.now b.now }
{
    let Some(operation) = unary_named(a) else {
        return Err(ListKind::Line);
    };
    let scalar = type_named(b)?;
    Ok(Some(Instr::Un(operation, scalar)))
}

fn binary_line(a: &[u8], b: &[u8]) -> Result<Option<Instr>, ListKind>
    ensures { result ≡ binary_line a.now b.now }
{
    let Some(operation) = binary_named(a) else {
        return Err(ListKind::Line);
    };
    let scalar = type_named(b)?;
    Ok(Some(Instr::Bin(operation, scalar)))
}

fn plain_line(word: &[u8]) -> Result<Option<Instr>, ListKind>
    ensures { result ≡ plain_line word.now }
{
    match plain_named(word) {
        Some(operation) => Ok(Some(plain_instr(operation))),
        None => Err(ListKind::Line),
    }
}

fn three_line(word: &[u8], a: &[u8], b: &[u8], c: &[u8]) -> Result<Option<Instr>, ListKind>
    ensures { result ≡ three_line word.now a.now b.now c.now }
{
    let Some(operation) = three_named(word) else {
        return Err(ListKind::Line);
    };
    let operands = both(operand(a), both(operand(b), operand(c)))?;
    Ok(with_three(operation, operands))
}

fn two_words(word: &[u8], a: &[u8]) -> Result<Option<Instr>, ListKind>
    ensures { result ≡ instr_line (word.now ∷ a.now ∷ []) }
{
    if word == b"PUSH".as_slice() {
        literal_line(a)
    } else if word == b"CAST".as_slice() {
        cast_line(a)
    } else {
        one_line(word, a)
    }
}

fn three_words(word: &[u8], a: &[u8], b: &[u8]) -> Result<Option<Instr>, ListKind>
    ensures { result ≡ instr_line (word.now ∷ a.now ∷ b.now ∷ []) }
{
    if word == b"UN".as_slice() {
        unary_line(a, b)
    } else if word == b"BIN".as_slice() {
        binary_line(a, b)
    } else {
        two_line(word, a, b)
    }
}

/// The instruction of a line, or `None` where an operand is none that an instruction has.
pub(crate) fn instr_line(words: Words<'_>) -> Result<Option<Instr>, ListKind>
    ensures { result ≡ instr_line (listed words.entry) }
{
    match words {
        Words::One(word) => plain_line(word),
        Words::Two(word, a) => two_words(word, a),
        Words::Three(word, a, b) => three_words(word, a, b),
        Words::Four(word, a, b, c) => three_line(word, a, b, c),
        _ => Err(ListKind::Line),
    }
}
