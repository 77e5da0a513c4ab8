use crate::{
    Fetch, FileShelf, MemShelf, MemSink, Put, Shelf, Sink, SureShelf, SureSink, WriteSink, fetch,
};
use std::alloc::{AllocError, Global};
use std::fs;
use std::test::Fail;

// A shelf that holds this text under `a`, and another one under `a` after it.
fn one_text(alloc: Global, text: &[u8], fails: &[u64]) -> Result<MemShelf, AllocError> {
    let mut files = Vec::new(alloc);
    files.push((
        String::from_str(alloc, "b")?,
        Vec::from_slice(alloc, b"none")?,
    ))?;
    files.push((String::from_str(alloc, "a")?, Vec::from_slice(alloc, text)?))?;
    files.push((
        String::from_str(alloc, "a")?,
        Vec::from_slice(alloc, b"second")?,
    ))?;
    Ok(MemShelf::new(files, Vec::from_slice(alloc, fails)?))
}

#[test]
fn fetches_around_the_limit(rt: HostRuntime) -> Result<(), Fail> {
    let alloc = rt.alloc();
    for (text, answer, want) in [
        ("", Fetch::Done, ""),
        ("p", Fetch::Done, "p"),
        ("pqr", Fetch::Done, "pqr"),
        ("pqrs", Fetch::Long, "pqrs"),
        ("pqrst", Fetch::Long, "pqrs"),
        ("pqrstuvw", Fetch::Long, "pqrs"),
    ] {
        for cut in [1, 3, 4096] {
            let mut shelf = one_text(alloc, text.as_bytes(), &[])?;
            shelf.cut(cut);
            let mut out = Vec::from_slice(alloc, b"old")?;
            assert_eq!(rt;
                fetch(alloc, &mut shelf, "a", 3, &mut out),
                answer,
                "{text} by {cut}"
            );
            assert_eq!(rt; out.as_slice(), want.as_bytes(), "{text} by {cut}");
            assert_eq!(rt; shelf.faults(), 0);
        }
    }
    Ok(())
}

// With pieces of one byte the calls are a `begin`, three pieces, and the end.
#[test]
fn each_call_of_a_shelf_fails_in_turn(rt: HostRuntime) -> Result<(), Fail> {
    let alloc = rt.alloc();
    for number in 0..6u64 {
        let mut shelf = one_text(alloc, b"pqr", &[number])?;
        shelf.cut(1);
        let mut out = Vec::from_slice(alloc, b"old")?;
        let answer = fetch(alloc, &mut shelf, "a", 10, &mut out);
        if number < 5 {
            assert_eq!(rt; answer, Fetch::Failed, "{number}");
            assert_eq!(rt; out.len(), 0, "{number}");
            assert_eq!(rt; shelf.blamed(), "a", "{number}");
            assert_eq!(rt; shelf.faults(), 1, "{number}");
        } else {
            assert_eq!(rt; answer, Fetch::Done);
            assert_eq!(rt; out.as_slice(), b"pqr".as_slice());
            assert_eq!(rt; shelf.blamed(), "");
        }
        // A shelf goes on after a fault, and an absent name is one.
        if number < 5 {
            assert_eq!(rt; fetch(alloc, &mut shelf, "a", 10, &mut out), Fetch::Done);
            assert_eq!(rt; out.as_slice(), b"pqr".as_slice());
            assert_eq!(rt; shelf.blamed(), "a");
            assert_eq!(rt; fetch(alloc, &mut shelf, "c", 10, &mut out), Fetch::Failed);
            assert_eq!(rt; shelf.blamed(), "c");
            assert_eq!(rt; shelf.faults(), 2);
        }
    }
    Ok(())
}

// Puts of `abc`, of nothing, of `defg` and of `hi`, where six bytes fit.
#[test]
fn each_put_fails_in_turn(rt: HostRuntime) -> Result<(), Fail> {
    let alloc = rt.alloc();
    for (fails, want, faults) in [
        ([9, 9], "abcdef", 2),
        ([0, 9], "adefgh", 2),
        ([1, 9], "abcdef", 2),
        ([2, 9], "abcdhi", 1),
        ([3, 9], "abcdef", 2),
        ([0, 2], "adehi", 2),
        ([2, 3], "abcdh", 2),
    ] {
        let mut sink = MemSink::new(alloc, 6, Vec::from_slice(alloc, &fails)?)?;
        for piece in ["abc", "", "defg", "hi"] {
            let answer = sink.put(piece.as_bytes());
            assert!(rt; !piece.is_empty() || answer == Put::Done);
        }
        assert_eq!(rt; sink.bytes(), want.as_bytes(), "{want}");
        assert_eq!(rt; sink.faults(), faults, "{want}");
    }
    Ok(())
}

#[test]
fn sure_objects_never_fail(rt: HostRuntime) -> Result<(), Fail> {
    let alloc = rt.alloc();
    let mut files = Vec::new(alloc);
    files.push((
        String::from_str(alloc, "a")?,
        Vec::from_slice(alloc, b"pqr")?,
    ))?;
    let mut shelf = SureShelf::new(files);
    let mut out = Vec::new(alloc);
    for (name, want) in [("a", "pqr"), ("b", "")] {
        assert_eq!(rt;
            fetch(alloc, &mut shelf, name, 3, &mut out),
            Fetch::Done,
            "{name}"
        );
        assert_eq!(rt; out.as_slice(), want.as_bytes(), "{name}");
    }
    let mut sink = SureSink::new();
    for piece in ["abc", "", "de"] {
        assert_eq!(rt; sink.put(piece.as_bytes()), Put::Done);
    }
    assert_eq!(rt; sink.count(), 5);
    Ok(())
}

// A text of more than one piece, an absent name, and a folder, which opens and is not read.
#[test]
fn reads_real_files(rt: HostRuntime) -> Result<(), Fail> {
    let alloc = rt.alloc();
    let mut text = Vec::new(alloc);
    for i in 0..5000u32 {
        text.push((i % 251) as u8)?;
    }
    fs::write(&rt, "held.bin", text.as_slice())?;
    let mut shelf = FileShelf::new(&rt);
    let mut out = Vec::new(alloc);
    assert_eq!(rt;
        fetch(alloc, &mut shelf, "held.bin", 5000, &mut out),
        Fetch::Done
    );
    assert_eq!(rt; out.as_slice(), text.as_slice());
    assert_eq!(rt;
        fetch(alloc, &mut shelf, "held.bin", 4999, &mut out),
        Fetch::Long
    );
    assert_eq!(rt; out.as_slice(), text.as_slice());
    assert_eq!(rt; shelf.faults(), 0);
    for (name, faults) in [("absent.bin", 1), (".", 2)] {
        assert_eq!(rt;
            fetch(alloc, &mut shelf, name, 5000, &mut out),
            Fetch::Failed,
            "{name}"
        );
        assert_eq!(rt; out.len(), 0, "{name}");
        assert_eq!(rt; shelf.blamed(), name);
        assert_eq!(rt; shelf.faults(), faults, "{name}");
    }
    fs::remove_file(&rt, "held.bin")?;
    Ok(())
}

// A file that takes bytes, and the same file opened to be read alone, which takes none.
#[test]
fn writes_a_real_file(rt: HostRuntime) -> Result<(), Fail> {
    let alloc = rt.alloc();
    let mut sink = WriteSink::new(fs::create(&rt, "written.txt")?);
    for piece in ["abc", "", "de\n"] {
        assert_eq!(rt; sink.put(piece.as_bytes()), Put::Done);
    }
    assert_eq!(rt; sink.faults(), 0);
    let mut refusing = WriteSink::new(fs::open(&rt, "written.txt")?);
    assert_eq!(rt; refusing.put(b"f"), Put::Failed);
    assert_eq!(rt; refusing.put(b""), Put::Done);
    assert_eq!(rt; refusing.faults(), 1);
    assert_eq!(rt; fs::read_to_string(&rt, "written.txt")?.as_str(), "abcde\n");
    fs::remove_file(&rt, "written.txt")?;
    Ok(())
}
