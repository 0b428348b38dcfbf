// Executables with a text of declarations behind them.

use super::{FIRST_TO_8, Given, answer};
use std::alloc::Global;
use std::test::Fail;
use ucos_top::Status;

// 32 bits, RISC-V, one program header at 52; no section headers.
const PLAIN: &[u8] =
    b"\x7fELF\x01\x01\x01\0\0\0\0\0\0\0\0\0\x02\0\xf3\0\x01\0\0\0\0\0\0\0\x34\0\0\0\0\0\0\0\0\0\0\0\x34\0\x20\0\x01\0\0\0\0\0\0\0";

// The same with three section headers at 148.
const WITH_SECTIONS: &[u8] =
    b"\x7fELF\x01\x01\x01\0\0\0\0\0\0\0\0\0\x02\0\xf3\0\x01\0\0\0\0\0\0\0\x34\0\0\0\x94\0\0\0\0\0\0\0\x34\0\x20\0\x01\0\x28\0\x03\0\0\0";

// 28 bytes at 84 of the file for address 0: the code of the first case.
const SEGMENT: &[u8] =
    b"\x01\0\0\0\x54\0\0\0\0\0\0\0\0\0\0\0\x1c\0\0\0\x1c\0\0\0\x05\0\0\0\x04\0\0\0";

const CODE: &[u8] =
    b"\x13\x05\0\0\x93\x08\x10\0\x73\0\0\0\x13\x05\0\0\x93\x08\x70\0\x73\0\0\0\x6f\xf0\x9f\xfe";

// An empty symbol and the global `go` of value 0 in section 1, at 112; the strings at 144.
const SYMBOLS: &[u8] =
    b"\0\0\0\0\0\0\0\0\0\0\0\0\0\0\0\0\x01\0\0\0\0\0\0\0\0\0\0\0\x10\0\x01\0\0go\0";

const NO_SECTION: &[u8] = &[0; 40];

const SYMBOL_TABLE: &[u8] =
    b"\0\0\0\0\x02\0\0\0\0\0\0\0\0\0\0\0\x70\0\0\0\x20\0\0\0\x02\0\0\0\x01\0\0\0\x04\0\0\0\x10\0\0\0";

const STRINGS: &[u8] =
    b"\0\0\0\0\x03\0\0\0\0\0\0\0\0\0\0\0\x90\0\0\0\x04\0\0\0\0\0\0\0\0\0\0\0\x01\0\0\0\0\0\0\0";

const FIRST_DECLARED: &str = ".sem s, 0\n.task a, 0, 10, 0, 0, 0x140000\n";

const GO_DECLARED: &str = ".sem s, 0\n.task a, go, 10, 0, 0, 0x140000\n";

// Texts behind the executable without symbols, and the line that refuses each.
const REFUSED: [(&str, &str); 12] = [
    ("", "refused 0 I1\n"),
    ("?", "refused 1 L1\n"),
    (".sem s, 0x1ffffffff\n", "refused 1 L2\n"),
    (".sem s, 0\n.code\n", "refused 2 A1\n"),
    ("\nnop 1\n", "refused 2 A1\n"),
    ("x: add q\n", "refused 1 A1\n"),
    (".word\n", "refused 1 A1\n"),
    ("li: .sem s\n", "refused 1 A2\n"),
    (".equ OSSemPost, 1\n", "refused 1 A5\n"),
    (GO_DECLARED, "refused 2 A6\n"),
    (
        "go: .sem s, 0\n.task a, go, 10, 0, 0, 0x140000\n",
        "refused 1 A8\n",
    ),
    (
        ".task a, 1, 10, 0, 0, 0x140000\n.inject\nx\n",
        "refused 1 I3\n",
    ),
];

// Changes of the executable with a symbol by their places, a text behind it, and the first line of its
// listing or what refuses it.
const CHANGED: [(&[(usize, u8)], &str, &str); 13] = [
    (&[], GO_DECLARED, "task 0 a 0 10 0 0 1310720"),
    (&[(132, 4)], GO_DECLARED, "task 0 a 4 10 0 0 1310720"),
    (
        &[(112, 1), (116, 8), (124, 0x10), (126, 1)],
        GO_DECLARED,
        "task 0 a 8 10 0 0 1310720",
    ),
    (
        &[],
        ".equ go, 12\n.sem s, 0\n.task a, go, 10, 0, 0, 0x140000\n",
        "task 0 a 12 10 0 0 1310720",
    ),
    (&[(140, 0)], GO_DECLARED, "refused 2 A6"),
    (&[(132, 1)], GO_DECLARED, "refused 2 I3"),
    (&[(62, 0x10)], GO_DECLARED, "refused 2 I3"),
    (&[(18, 62)], GO_DECLARED, "refused 0 E1"),
    (&[(44, 2), (32, 0)], "?", "refused 0 E2"),
    (&[(72, 27)], "?", "refused 0 E3"),
    (&[(224, 8)], GO_DECLARED, "refused 0 E5"),
    (&[(147, b'x')], GO_DECLARED, "refused 0 E5"),
    (&[(4, 2), (224, 8)], GO_DECLARED, "refused 0 E1"),
];

fn joined(alloc: Global, parts: &[&[u8]]) -> Result<Vec<u8>, Fail> {
    let mut bytes = Vec::new(alloc);
    for part in parts {
        bytes.extend_from_slice(part)?;
    }
    Ok(bytes)
}

fn with_symbol(alloc: Global, text: &str) -> Result<Vec<u8>, Fail> {
    joined(
        alloc,
        &[
            WITH_SECTIONS,
            SEGMENT,
            CODE,
            SYMBOLS,
            NO_SECTION,
            SYMBOL_TABLE,
            STRINGS,
            text.as_bytes(),
        ],
    )
}

// By the number of an address and by the name of a symbol, the first case runs as its text does.
#[test]
fn an_executable_runs(rt: HostRuntime) -> Result<(), Fail> {
    let alloc = rt.alloc();
    let plain = joined(alloc, &[PLAIN, SEGMENT, CODE, FIRST_DECLARED.as_bytes()])?;
    let named = with_symbol(alloc, GO_DECLARED)?;
    for input in [plain, named] {
        let (status, held) = answer(alloc, &Given::new("run direct 8", &input))?;
        assert_eq!(rt; status, Status::Done);
        assert_eq!(rt; held.as_slice(), FIRST_TO_8.as_bytes());
    }
    Ok(())
}

#[test]
fn a_text_behind_an_executable_is_refused_at_its_line(rt: HostRuntime) -> Result<(), Fail> {
    let alloc = rt.alloc();
    for (text, line) in REFUSED {
        let input = joined(alloc, &[PLAIN, SEGMENT, CODE, text.as_bytes()])?;
        let (status, held) = answer(alloc, &Given::new("list", &input))?;
        assert_eq!(rt; status, Status::Refused, "{text}");
        assert_eq!(rt; held.as_slice(), line.as_bytes(), "{text}");
    }
    Ok(())
}

#[test]
fn changes_of_an_executable_are_listed_or_refused(rt: HostRuntime) -> Result<(), Fail> {
    let alloc = rt.alloc();
    for (changes, text, want) in CHANGED {
        let mut input = with_symbol(alloc, text)?;
        for (at, byte) in changes {
            if let Some(place) = input.get_mut(*at) {
                *place = *byte;
            }
        }
        let (_, held) = answer(alloc, &Given::new("list", &input))?;
        assert!(rt; held.as_slice().starts_with(want.as_bytes()), "{want}");
    }
    Ok(())
}

// The lines of interrupts and looks stand behind `.inject`, as in every text.
#[test]
fn an_executable_has_looks(rt: HostRuntime) -> Result<(), Fail> {
    let alloc = rt.alloc();
    let text =
        ".sem s, 0\n.task a, go, 10, 0, 0, 0x140000\n.vector 3, 1, go, 0x138000\n.inject\nlook 1, s\n";
    let mut input = with_symbol(alloc, text)?;
    let (_, held) = answer(alloc, &Given::new("run direct 2", &input))?;
    assert_eq!(rt;
        held.as_slice(),
        b"0 0 start a\n1 1 look s fwd back\n2 2 end\n".as_slice()
    );
    input.extend_from_slice(b"task 1, 4\n")?;
    let (_, held) = answer(alloc, &Given::new("run direct 2", &input))?;
    assert_eq!(rt; held.as_slice(), b"refused 6 J2\n".as_slice());
    Ok(())
}
