//! Texts with their faults and trees, as the format gives them.
ghost use Rattle.std.specs.Prelude.{◌<◌};

use crate::{Fed, ReadFault, Reader, read_raw};
use std::alloc::Global;
use std::process::Abort;
use std::test::Fail;
use tower_syntax::Raw;

const LONG_NAME: &[u8] =
    b"(tower aaaaaaaaaabbbbbbbbbbccccccccccddddddddddeeeeeeeeeeffffffffffggggg)";

/// Texts with a fault.
const FAULTY: [(&[u8], ReadFault); 25] = [
    (b"(tower a", ReadFault::Unclosed { at: 0 }),
    (b"(tower a))", ReadFault::Unopened { at: 9 }),
    (b"(tower \xC3\xA9)", ReadFault::Byte { at: 7 }),
    (b"", ReadFault::Empty),
    (
        b"(tower a (period p 99999999999999999999 1))",
        ReadFault::Number { at: 19 },
    ),
    (b"(tower a (tick 1))", ReadFault::Form { at: 9 }),
    (LONG_NAME, ReadFault::Length { at: 7 }),
    (
        b"(tower a (channel c (array 4097 u8)))",
        ReadFault::Number { at: 27 },
    ),
    // Depths stand in version 2 alone.
    (
        b"(tower2 a (signal s u8 1 0))",
        ReadFault::Number { at: 25 },
    ),
    (b"(tower a (signal s u8 1 2))", ReadFault::Form { at: 9 }),
    (b"(tower2 a (signal s u8 1))", ReadFault::Form { at: 10 }),
    // A form comes before a number.
    (b"(tower a (init b 256) x)", ReadFault::Form { at: 22 }),
    // A second node at the top, and lists without a head.
    (b"(tower a) (tower b)", ReadFault::Form { at: 10 }),
    (b"()", ReadFault::Form { at: 0 }),
    (b"((tower) a)", ReadFault::Form { at: 0 }),
    (b"tower", ReadFault::Form { at: 0 }),
    (b"(tower a_)", ReadFault::Form { at: 7 }),
    (b"() () ()", ReadFault::Form { at: 0 }),
    (b"(tower a) () ()", ReadFault::Form { at: 10 }),
    // What was found in a list without a row is not told.
    (b"(tower a (init b 256 (c)) (d))", ReadFault::Form { at: 9 }),
    // The fields of a record.
    (b"(tower a (record r))", ReadFault::Form { at: 9 }),
    (
        b"(tower a (record (field f u8)))",
        ReadFault::Form { at: 9 },
    ),
    (
        b"(tower a (record (field f u8) (field g u8)))",
        ReadFault::Form { at: 17 },
    ),
    // No numbers.
    (b"(tower a (init b 00))", ReadFault::Number { at: 17 }),
    (b"(tower a (init b -0))", ReadFault::Number { at: 17 }),
];

const CLOCK: &[u8] =
    b"(tower clock (period beat 10 5) (monitor count (state n u32) (handler tick beat (callback t (set n (+ n (u32 1)))))))";

/// A text, read in pieces of the size.
fn read_pieces(alloc: Global, text: &[u8], size: usize) -> Result<Raw, ReadFault>
    requires { 0 < size }
{
    let mut reader = Reader::new(alloc)?;
    for piece in text.chunks(size) {
        if reader.feed(piece) == Fed::NoMemory {
            return Err(ReadFault::NoMemory);
        }
    }
    reader.finish()
}

/// The fault of a text, read whole and in pieces.
fn is_faulty(rt: &impl Abort, alloc: Global, text: &[u8], fault: ReadFault) {
    let expected = Some(fault);
    assert!(rt; read_raw(alloc, text).err() == expected, "in {text:?}");
    assert!(rt;
        read_pieces(alloc, text, 1).err() == expected,
        "in {text:?}"
    );
    assert!(rt;
        read_pieces(alloc, text, 3).err() == expected,
        "in {text:?}"
    );
}

#[test]
fn faults(rt: HostRuntime) {
    for (text, fault) in FAULTY {
        is_faulty(&rt, rt.alloc(), text, fault);
    }
}

#[test]
fn limits(rt: HostRuntime) -> Result<(), Fail> {
    let alloc = rt.alloc();
    let mut text = vec![in alloc; b' '; 1_048_576]?;
    is_faulty(&rt, alloc, text.as_slice(), ReadFault::Empty);
    text.push(b' ')?;
    is_faulty(
        &rt,
        alloc,
        text.as_slice(),
        ReadFault::Long { limit: 1_048_576 },
    );
    let mut nest = vec![in alloc; b'('; 256]?;
    is_faulty(&rt, alloc, nest.as_slice(), ReadFault::Unclosed { at: 255 });
    nest.push(b'(')?;
    is_faulty(&rt, alloc, nest.as_slice(), ReadFault::Nest { at: 256 });
    Ok(())
}

/// Each front of a file is unclosed, but the empty one.
#[test]
fn fronts(rt: HostRuntime) {
    for end in 1..CLOCK.len() {
        let text = &CLOCK[..end];
        let fault = read_raw(rt.alloc(), text).err();
        assert!(rt;
            matches!(fault, Some(ReadFault::Unclosed { .. })),
            "in {text:?}"
        );
        assert!(rt;
            read_pieces(rt.alloc(), text, 1).err() == fault,
            "in {text:?}"
        );
    }
}

/// More children than are counted: a list that has as many places, and one that has any number of them.
#[test]
fn children(rt: HostRuntime) -> Result<(), Fail> {
    let alloc = rt.alloc();
    let mut text = Vec::new(alloc);
    text.extend_from_slice(b"(tower a (init b 1")?;
    for _ in 0..256 {
        text.extend_from_slice(b" c")?;
    }
    text.extend_from_slice(b"))")?;
    is_faulty(&rt, alloc, text.as_slice(), ReadFault::Form { at: 9 });
    text.clear();
    text.extend_from_slice(b"(tower a")?;
    for _ in 0..300 {
        text.extend_from_slice(b" (init b 1)")?;
    }
    text.push(b')')?;
    let items = read_pieces(alloc, text.as_slice(), 4096).map(|raw| raw.items.len());
    assert!(rt; items == Ok(300));
    Ok(())
}

/// A reader that failed stays so.
#[test]
fn memory(rt: HostRuntime) {
    let Ok(mut reader) = Reader::new(rt.alloc()) else {
        return;
    };
    let mut failed = false;
    for byte in CLOCK.chunks(1) {
        match reader.feed(byte) {
            Fed::Taken => assert!(rt; !failed),
            Fed::NoMemory => {
                failed = true;
                assert!(rt; reader.feed(b"") == Fed::NoMemory);
            }
        }
    }
    let answer = reader.finish();
    assert!(rt; !failed || answer.err() == Some(ReadFault::NoMemory));
}

/// Where an allocation fails, the tree is the same or memory is wanting.
#[test]
fn trees(rt: HostRuntime) {
    match read_raw(rt.alloc(), CLOCK) {
        Ok(raw) => assert!(rt; raw.version == 1 && raw.items.len() == 2),
        Err(fault) => assert!(rt; fault == ReadFault::NoMemory),
    }
    match read_pieces(rt.alloc(), b"(tower2 a (signal s u8 1 2))", 1) {
        Ok(raw) => assert!(rt; raw.version == 2 && raw.items.len() == 1),
        Err(fault) => assert!(rt; fault == ReadFault::NoMemory),
    }
}
