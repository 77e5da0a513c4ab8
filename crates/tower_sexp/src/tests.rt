//! Texts with their faults, nodes and tokens, as the format gives them.
use crate::{Fed, Lexer, Node, SexpFault, Token, read};
use std::alloc::{AllocError, Global};
use std::process::Abort;
use std::test::Fail;

/// Texts with a fault.
const FAULTY: [(&[u8], SexpFault); 22] = [
    (b"(tower a", SexpFault::Unclosed { at: 0 }),
    (b"(tower a))", SexpFault::Unopened { at: 9 }),
    (b"(tower \xC3\xA9)", SexpFault::Byte { at: 7 }),
    (b"", SexpFault::Empty),
    (b" \t\r\n ", SexpFault::Empty),
    // A comment ends before LF only, and may hold any bytes.
    (b"; (a\r)\xFF\x00", SexpFault::Empty),
    (b";a\r\n;b", SexpFault::Empty),
    (b";a\r(\n)", SexpFault::Unopened { at: 5 }),
    (b"(;)", SexpFault::Unclosed { at: 0 }),
    // A bracket ends an atom.
    (b"a)", SexpFault::Unopened { at: 1 }),
    (b"a(", SexpFault::Unclosed { at: 1 }),
    // The least offset of the first three kinds, before the others.
    (b")\xFF", SexpFault::Unopened { at: 0 }),
    (b"\xFF)", SexpFault::Byte { at: 0 }),
    (b"(()))(\xFF", SexpFault::Unopened { at: 4 }),
    (b"((a b\x7F", SexpFault::Byte { at: 5 }),
    // The innermost list that is unclosed.
    (b"((a)(b", SexpFault::Unclosed { at: 4 }),
    (b"((a)b", SexpFault::Unclosed { at: 0 }),
    // The bytes around those of atoms.
    (b"(a\x7F)", SexpFault::Byte { at: 2 }),
    (b"(a\x0B)", SexpFault::Byte { at: 2 }),
    (b"(a\x1F)", SexpFault::Byte { at: 2 }),
    (b"(a\x00)", SexpFault::Byte { at: 2 }),
    (b"(a\x80)", SexpFault::Byte { at: 2 }),
];

/// Texts with no fault, and their nodes.
const SOUND: [(&[u8], &[u8]); 8] = [
    (b"a", b"00:a"),
    (b"(tower a)", b"00(01:tower07:a)"),
    (b"()", b"00()"),
    (b"a;b\nc", b"00:a04:c"),
    (b"a;b)\r(\xFF\nc;", b"00:a08:c"),
    (b"((a b)c)d", b"00(01(02:a04:b)06:c)08:d"),
    (b"!~\"'|\t-1\rx", b"00:!~\"'|06:-109:x"),
    (b"(a(b(c)))", b"00(01:a02(03:b04(05:c)))"),
];

/// Texts, and what each byte of them puts and the end, with a stroke before each.
const FED: [(&[u8], &[u8]); 6] = [
    (b"ab (c)", b"|||00:ab|03(||04:c05)|"),
    (b"a b", b"||00:a||02:b"),
    (b"a;b\nc", b"||00:a||||04:c"),
    (b"ab)c", b"|||||"),
    (b"a \xFFb ", b"||00:a||||"),
    (b"(a", b"|00(||"),
];

fn put_offset(out: &mut Vec<u8>, at: u32) -> Result<(), AllocError> {
    out.push(b'0' + (at / 10 % 10) as u8)?;
    out.push(b'0' + (at % 10) as u8)?;
    Ok(())
}

fn put_atom(out: &mut Vec<u8>, at: u32, text: &[u8]) -> Result<(), AllocError> {
    put_offset(out, at)?;
    out.push(b':')?;
    out.extend_from_slice(text)
}

fn put_nodes(out: &mut Vec<u8>, nodes: &[Node]) -> Result<(), AllocError> {
    for node in nodes {
        match node {
            Node::Atom { at, text } => put_atom(out, *at, text.as_slice())?,
            Node::List { at, items } => {
                put_offset(out, *at)?;
                out.push(b'(')?;
                put_nodes(out, items.as_slice())?;
                out.push(b')')?;
            }
        }
    }
    Ok(())
}

fn put_tokens(out: &mut Vec<u8>, tokens: &[Token]) -> Result<(), AllocError> {
    for token in tokens {
        match token {
            Token::Atom { at, text } => put_atom(out, *at, text.as_slice())?,
            Token::Left { at } => {
                put_offset(out, *at)?;
                out.push(b'(')?;
            }
            Token::Right { at } => {
                put_offset(out, *at)?;
                out.push(b')')?;
            }
        }
    }
    Ok(())
}

/// What each byte puts and the end, and the answer at the end.
fn feed_all(
    rt: &impl Abort,
    alloc: Global,
    text: &[u8],
    shown: &mut Vec<u8>,
) -> Result<Result<(), SexpFault>, AllocError> {
    let mut lexer = Lexer::new(alloc);
    for (i, byte) in text.iter().enumerate() {
        let mut out = Vec::new(alloc);
        assert!(rt; lexer.taken() < 1000);
        let fed = lexer.feed(*byte, &mut out);
        if fed == Fed::NoMemory {
            return Err(AllocError);
        }
        assert!(rt; usize::try_from(lexer.taken()) == Ok(i + 1));
        shown.push(b'|')?;
        put_tokens(shown, out.as_slice())?;
    }
    let mut out = Vec::new(alloc);
    let answer = lexer.finish(&mut out);
    shown.push(b'|')?;
    put_tokens(shown, out.as_slice())?;
    Ok(answer)
}

/// The fault of a text, read whole and byte by byte.
fn is_faulty(
    rt: &impl Abort,
    alloc: Global,
    text: &[u8],
    fault: SexpFault,
) -> Result<(), AllocError> {
    assert!(rt; text.len() < 1000);
    assert!(rt; read(alloc, text).err() == Some(fault), "in {text:?}");
    let mut shown = Vec::new(alloc);
    assert!(rt;
        feed_all(rt, alloc, text, &mut shown)?.err() == Some(fault),
        "in {text:?}"
    );
    Ok(())
}

#[test]
fn faults(rt: HostRuntime) -> Result<(), Fail> {
    for (text, fault) in FAULTY {
        is_faulty(&rt, rt.alloc(), text, fault)?;
    }
    Ok(())
}

#[test]
fn nests(rt: HostRuntime) -> Result<(), Fail> {
    let alloc = rt.alloc();
    let mut text = vec![in alloc; b'('; 256]?;
    is_faulty(&rt, alloc, text.as_slice(), SexpFault::Unclosed { at: 255 })?;
    text.push(b'(')?;
    is_faulty(&rt, alloc, text.as_slice(), SexpFault::Nest { at: 256 })?;
    text.push(0xFF)?;
    is_faulty(&rt, alloc, text.as_slice(), SexpFault::Nest { at: 256 })?;
    text.truncate(256);
    text.extend_from_slice(b")()")?;
    is_faulty(&rt, alloc, text.as_slice(), SexpFault::Unclosed { at: 254 })?;
    text.extend_from_slice(b"((")?;
    is_faulty(&rt, alloc, text.as_slice(), SexpFault::Nest { at: 260 }).map_err(Fail::from)
}

#[test]
fn nodes(rt: HostRuntime) -> Result<(), Fail> {
    let alloc = rt.alloc();
    for (text, shown) in SOUND {
        assert!(rt; text.len() < 1000);
        let mut out = Vec::new(alloc);
        match read(alloc, text) {
            Ok(nodes) => put_nodes(&mut out, nodes.as_slice())?,
            Err(_) => assert!(rt; false, "in {text:?}"),
        }
        assert!(rt; out.as_slice() == shown, "{out:?} in {text:?}");
    }
    Ok(())
}

#[test]
fn tokens(rt: HostRuntime) -> Result<(), Fail> {
    let alloc = rt.alloc();
    for (text, shown) in FED {
        let mut out = Vec::new(alloc);
        let _ = feed_all(&rt, alloc, text, &mut out)?;
        assert!(rt; out.as_slice() == shown, "{out:?} in {text:?}");
    }
    Ok(())
}

/// Where an allocation fails, the nodes are the same or memory is wanting, and a lexer that failed stays so.
#[test]
fn memory(rt: HostRuntime) -> Result<(), Fail> {
    let alloc = rt.alloc();
    let text = b"(tower a) (b c)".as_slice();
    match read(alloc, text) {
        Ok(nodes) => assert!(rt; nodes.len() == 2),
        Err(fault) => assert!(rt; fault == SexpFault::NoMemory),
    }
    let mut lexer = Lexer::new(alloc);
    let mut out = Vec::new(alloc);
    let mut failed = false;
    for byte in text {
        let (taken, put) = (lexer.taken(), out.len());
        assert!(rt; taken < 1000);
        match lexer.feed(*byte, &mut out) {
            Fed::Taken => assert!(rt; !failed),
            Fed::NoMemory => {
                failed = true;
                assert!(rt; lexer.taken() == taken && out.len() == put);
            }
        }
    }
    match lexer.finish(&mut out) {
        Ok(()) => assert!(rt; !failed && out.len() == 8),
        Err(fault) => assert!(rt; failed && fault == SexpFault::NoMemory),
    }
    Ok(())
}
