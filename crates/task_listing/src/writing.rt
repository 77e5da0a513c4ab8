//! Writes the listing of a program.
ghost use Rattle.std.specs.Prelude.{◌≡◌, ◌++◌, IfOk, OnOk, codes};
ghost use Rattle.task_listing.specs.Lines.{texts};
ghost use Rattle.task_listing.specs.Spelling.{natural, letters, scalar, with_numbers, written};
ghost use Rattle.task_listing.specs.Listing.{listing, counted, number_text, buffer_text, instr_text, task_text};
ghost use Rattle.task_listing.specs.Writing.{after_blank, spaced};
ghost use Rattle.task_listing.specs.Rows.{operand_words};

use crate::row::{Operands, Row};
use itoa::Buffer as Digits;
use sqlite_items::Items;
use std::alloc::Global;
use task_code::{Buffer, Instr, Program, Task};
use tower_syntax::{binary_word, scalar_word, unary_word};
use tower_types::{NoMemory, Scalar};

/// The listing of a program. It takes memory for the text alone.
pub fn write(alloc: Global, program: &Program) -> Result<Items<u8>, NoMemory>
    ensures { IfOk result (λ bytes. bytes ≡ listing program.now) }
{
    let mut out = Vec::new(alloc);
    put(&mut out, b"tower-listing 1\n")?;
    put_counted(&mut out, "monitors", "monitor", program.monitors())?;
    put_counted(&mut out, "outputs", "output", program.outputs())?;
    put_tasks(&mut out, program.tasks())?;
    put(&mut out, b"end\n")?;
    Ok(Items::from_vec(out))
}

fn put(out: &mut Vec<u8>, bytes: &[u8]) -> Result<(), NoMemory>
    ensures { OnOk result (out.new.items ≡ out.old.items ++ bytes.now) }
{
    out.extend_from_slice(bytes)?;
    Ok(())
}

/// Puts a blank and a number.
fn put_number(out: &mut Vec<u8>, n: u64) -> Result<(), NoMemory>
    ensures { OnOk result (out.new.items ≡ out.old.items ++ after_blank (natural n)) }
{
    let mut digits = Digits::new();
    out.push(b' ')?;
    put(out, digits.format(n).as_bytes())?;
    Ok(())
}

/// Puts a blank and a type.
fn put_type(out: &mut Vec<u8>, t: Scalar) -> Result<(), NoMemory>
    ensures { OnOk result (out.new.items ≡ out.old.items ++ after_blank (scalar t)) }
{
    out.push(b' ')?;
    match t {
        Scalar::Ix(n) => {
            let mut digits = Digits::new();
            put(out, b"ix:")?;
            put(out, digits.format(n).as_bytes())?;
        }
        _ => put(out, scalar_word(t).as_bytes())?,
    }
    Ok(())
}

/// Puts a blank and a word.
fn put_word(out: &mut Vec<u8>, word: &str) -> Result<(), NoMemory>
    ensures { OnOk result (out.new.items ≡ out.old.items ++ after_blank (letters word.now)) }
{
    out.push(b' ')?;
    put(out, word.as_bytes())?;
    Ok(())
}

/// Puts a line of a word and numbers.
fn put_numbers(out: &mut Vec<u8>, word: &str, numbers: &[u64]) -> Result<(), NoMemory>
    ensures { OnOk result (out.new.items ≡ out.old.items ++ written (with_numbers word.now numbers.now)) }
{
    put(out, word.as_bytes())?;
    for number in numbers {
        put_number(out, *number)?;
    }
    out.push(b'\n')?;
    Ok(())
}

/// Puts the number of numbers, and a line for each.
fn put_counted(out: &mut Vec<u8>, head: &str, word: &str, numbers: &[u32]) -> Result<(), NoMemory>
    ensures { OnOk result (out.new.items ≡ out.old.items ++ counted head.now (number_text word.now) numbers.now) }
{
    put_numbers(out, head, &[numbers.len() as u64])?;
    for number in numbers {
        put_numbers(out, word, &[u64::from(*number)])?;
    }
    Ok(())
}

/// Puts what stands behind an instruction's word.
fn put_operands(out: &mut Vec<u8>, operands: Operands) -> Result<(), NoMemory>
    ensures { OnOk result (out.new.items ≡ out.old.items ++ spaced (operand_words operands)) }
{
    match operands {
        Operands::None => {}
        Operands::Literal(n) => {
            let mut digits = Digits::new();
            put_word(out, digits.format(n))?;
        }
        Operands::One(a) => put_number(out, u64::from(a))?,
        Operands::Two(a, b) => {
            put_number(out, u64::from(a))?;
            put_number(out, u64::from(b))?;
        }
        Operands::Three(a, b, c) => {
            put_number(out, u64::from(a))?;
            put_number(out, u64::from(b))?;
            put_number(out, u64::from(c))?;
        }
        Operands::Unary(op, t) => {
            put_word(out, unary_word(op))?;
            put_type(out, t)?;
        }
        Operands::Binary(op, t) => {
            put_word(out, binary_word(op))?;
            put_type(out, t)?;
        }
        Operands::Type(t) => put_type(out, t)?,
    }
    Ok(())
}

/// Puts the line of an instruction.
fn put_instr(out: &mut Vec<u8>, instr: Instr) -> Result<(), NoMemory>
    ensures { OnOk result (out.new.items ≡ out.old.items ++ instr_text instr) }
{
    let row = Row::of(instr);
    put(out, row.word.as_bytes())?;
    put_operands(out, row.operands)?;
    out.push(b'\n')?;
    Ok(())
}

fn put_buffer(out: &mut Vec<u8>, buffer: Buffer) -> Result<(), NoMemory>
    ensures { OnOk result (out.new.items ≡ out.old.items ++ buffer_text buffer) }
{
    put_numbers(
        out,
        "buffer",
        &[u64::from(buffer.width), u64::from(buffer.bound)],
    )?;
    Ok(())
}

fn put_buffers(out: &mut Vec<u8>, buffers: &[Buffer]) -> Result<(), NoMemory>
    ensures { OnOk result (out.new.items ≡ out.old.items ++ texts buffer_text buffers.now) }
{
    for buffer in buffers {
        put_buffer(out, *buffer)?;
    }
    Ok(())
}

fn put_code(out: &mut Vec<u8>, code: &[Instr]) -> Result<(), NoMemory>
    ensures { OnOk result (out.new.items ≡ out.old.items ++ texts instr_text code.now) }
{
    for instr in code {
        put_instr(out, *instr)?;
    }
    Ok(())
}

fn put_task(out: &mut Vec<u8>, task: &Task) -> Result<(), NoMemory>
    ensures { OnOk result (out.new.items ≡ out.old.items ++ task_text task.now) }
{
    let head = [
        u64::from(task.priority),
        u64::from(task.message),
        u64::from(task.room),
        task.buffers.len() as u64,
        task.code.len() as u64,
    ];
    put_numbers(out, "task", &head)?;
    put_buffers(out, task.buffers.as_slice())?;
    put_code(out, task.code.as_slice())?;
    Ok(())
}

/// Puts the number of tasks, and the lines of each.
fn put_tasks(out: &mut Vec<u8>, tasks: &[Task]) -> Result<(), NoMemory>
    ensures { OnOk result (out.new.items ≡ out.old.items ++ counted (codes "tasks") task_text tasks.now) }
{
    put_numbers(out, "tasks", &[tasks.len() as u64])?;
    for task in tasks {
        put_task(out, task)?;
    }
    Ok(())
}
