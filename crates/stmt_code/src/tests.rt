use crate::{Measured, StartTable, frame_of, place_body};
use arch_checks::check;
use std::alloc::Global;
use std::test::Fail;
use task_code::{Code, Instr};
use tower_types::{BinOp, Scalar};

/// Whether the code of the first handler's section, with its words from 0 on, is this.
fn has_section(alloc: Global, text: &[u8], wanted: &[Instr]) -> Result<bool, Fail> {
    let checked = check(alloc, text)?;
    if checked.arch().handlers().is_empty() {
        return Ok(false);
    }
    let table = StartTable::new(alloc, &checked)?;
    let measured = Measured::new(&checked, &table);
    let frame = frame_of(alloc, &measured, 0, 0, 0)?;
    let mut code = Code::new(alloc);
    place_body(&measured, 0, &frame, &mut code)?;
    let instrs = code.instrs();
    Ok(instrs.as_slice() == wanted)
}

#[test]
fn counts_beats(rt: HostRuntime) -> Result<(), Fail> {
    let text =
        b"(tower clock (period beat 10 5) (monitor count (state n u32) (handler tick beat (callback t (set n (+ n (u32 1)))))))";
    let wanted = [
        Instr::Lock(0),
        Instr::Push(0),
        Instr::Push(0),
        Instr::Ldm(0, 0, 1),
        Instr::Push(1),
        Instr::Bin(BinOp::Add, Scalar::U32),
        Instr::Stm(0, 0, 1),
        Instr::Unlock(0),
    ];
    assert!(rt; has_section(rt.alloc(), text, &wanted)?);
    Ok(())
}

#[test]
fn keeps_places(rt: HostRuntime) -> Result<(), Fail> {
    let text =
        b"(tower nav (record fix (field lat i32) (field lon i32)) (signal gps fix 3) (monitor log (state ring (array 4 fix)) (state pos (ix 4)) (handler keep gps (callback f (local tmp fix) (copy tmp f) (copy (at ring pos) tmp) (set pos (+ pos (ix 4 1)))))))";
    let wanted = [
        Instr::Lock(0),
        Instr::Push(0),
        Instr::St(2),
        Instr::Push(0),
        Instr::St(3),
        Instr::Ld(0),
        Instr::St(2),
        Instr::Ld(1),
        Instr::St(3),
        Instr::Push(0),
        Instr::Ldm(0, 8, 1),
        Instr::Push(2),
        Instr::Bin(BinOp::Mul, Scalar::U64),
        Instr::St(4),
        Instr::Ld(4),
        Instr::Ld(2),
        Instr::Stm(0, 0, 8),
        Instr::Ld(4),
        Instr::Ld(3),
        Instr::Stm(0, 1, 7),
        Instr::Push(0),
        Instr::Push(0),
        Instr::Ldm(0, 8, 1),
        Instr::Push(1),
        Instr::Bin(BinOp::Add, Scalar::Ix(4)),
        Instr::Stm(0, 8, 1),
        Instr::Unlock(0),
    ];
    assert!(rt; has_section(rt.alloc(), text, &wanted)?);
    Ok(())
}

#[test]
fn emits_in_turns(rt: HostRuntime) -> Result<(), Fail> {
    let text =
        b"(tower t (signal s u8 1) (channel c u8) (output o c) (monitor m (handler h s (emitter e c 8) (callback v (for i 4 (if (< v (u8 9)) (then (emit e v)) (else (emit e (u8 1)))))))))";
    let wanted = [
        Instr::Lock(0),
        Instr::Bclr(0),
        Instr::Push(0),
        Instr::St(1),
        Instr::Ld(1),
        Instr::Push(4),
        Instr::Bin(BinOp::Less, Scalar::U64),
        Instr::Jz(28),
        Instr::Ld(0),
        Instr::Push(9),
        Instr::Bin(BinOp::Less, Scalar::U8),
        Instr::Jz(17),
        Instr::Push(0),
        Instr::Ld(0),
        Instr::Bput(0),
        Instr::Badd(0),
        Instr::Jmp(23),
        Instr::Push(1),
        Instr::St(5),
        Instr::Push(0),
        Instr::Ld(5),
        Instr::Bput(0),
        Instr::Badd(0),
        Instr::Ld(1),
        Instr::Push(1),
        Instr::Bin(BinOp::Add, Scalar::U64),
        Instr::St(1),
        Instr::Jmp(4),
        Instr::Unlock(0),
    ];
    assert!(rt; has_section(rt.alloc(), text, &wanted)?);
    Ok(())
}
