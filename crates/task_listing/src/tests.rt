//! A listing of ten instructions, whole and damaged.
use crate::{ListFault, ListKind, read};

const HEAD: &str = "tower-listing 1\nmonitors 1\nmonitor 1\noutputs 0\ntasks 1\ntask 5 1 1 0 10\n";

const CODE: &str =
    "TAKE 0\nLOCK 0\nPUSH 0\nPUSH 0\nLDM 0 0 1\nPUSH 1\nBIN + u32\nSTM 0 0 1\nUNLOCK 0\n";

#[test]
fn damaged(rt: HostRuntime) -> Result<(), std::test::Fail> {
    let rows = [
        ("JMP 0\nend\n", 99, ListKind::Long),
        ("JMP 0\nend", 18, ListKind::Short),
        ("JMP 0\n", 17, ListKind::Short),
        ("", 16, ListKind::Short),
        ("JMP 0\n\n", 17, ListKind::Line),
        ("JMP 0\nend\nx", 18, ListKind::After),
        ("JMP 0\nend\n\n", 18, ListKind::After),
        ("JMP 10\nend\n", 16, ListKind::Place),
        ("JMP -1\nend\n", 16, ListKind::Place),
        ("JMP 99999999999999999999999999\nend\n", 16, ListKind::Place),
        ("JMP 00\nend\n", 16, ListKind::Number),
        ("JMP 0 \nend\n", 16, ListKind::Line),
        ("JMP\t0\nend\n", 16, ListKind::Line),
        ("CAST bool\nend\n", 16, ListKind::Place),
        ("CAST ix:0\nend\n", 16, ListKind::Number),
        ("CAST ix:65536\nend\n", 99, ListKind::Long),
        ("CAST ix:65537\nend\n", 16, ListKind::Number),
        ("BIN + ix:\nend\n", 16, ListKind::Number),
        ("BIN ++ ix:\nend\n", 16, ListKind::Line),
        ("PUSH 18446744073709551615\nend\n", 99, ListKind::Long),
        ("PUSH 18446744073709551616\nend\n", 16, ListKind::Place),
        ("PUSH -9223372036854775808\nend\n", 99, ListKind::Long),
        ("PUSH -9223372036854775809\nend\n", 16, ListKind::Place),
        ("PUSH -0\nend\n", 16, ListKind::Number),
        ("JMP 10\nen", 17, ListKind::Line),
        ("JMP 10\nend", 18, ListKind::Short),
        ("ST 0\nend\n", 99, ListKind::Long),
        ("ST 1\nend\n", 16, ListKind::Place),
        ("LDX 0 0\nend\n", 16, ListKind::Place),
        ("BADD 0\nend\n", 16, ListKind::Place),
    ];
    for (end, line, kind) in rows {
        let text = format!(in rt.alloc(); "{HEAD}{CODE}{end}")?;
        match read(rt.alloc(), text.as_bytes()) {
            Ok(_) => assert_eq!(rt; line, 99, "{end}"),
            Err(ListFault::NoMemory) => assert!(rt; false),
            Err(
                ListFault::At {
                    line: at,
                    kind: found,
                },
            ) => {
                assert_eq!(rt; at, line, "{end}");
                assert_eq!(rt; found, kind, "{end}");
            }
        }
    }
    Ok(())
}
