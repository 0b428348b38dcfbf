// Executables with one segment and one symbol, and with two segments; and what each change of a byte
// comes to. Places count from the start of the file.

use crate::ElfCause::{self, *};
use crate::{ElfApp, ElfError, read_elf};
use app_image::Symbol;
use std::alloc::Global;
use std::test::Fail;

// 32 bits, RISC-V, one program header at 52; three section headers at 148.
const HEADER: &[u8] =
    b"\x7fELF\x01\x01\x01\0\0\0\0\0\0\0\0\0\x02\0\xf3\0\x01\0\0\0\0\0\0\0\x34\0\0\0\x94\0\0\0\0\0\0\0\x34\0\x20\0\x01\0\x28\0\x03\0\0\0";

// 32 bits, RISC-V, one or two program headers at 52; no section headers.
const ONE: &[u8] =
    b"\x7fELF\x01\x01\x01\0\0\0\0\0\0\0\0\0\x02\0\xf3\0\x01\0\0\0\0\0\0\0\x34\0\0\0\0\0\0\0\0\0\0\0\x34\0\x20\0\x01\0\0\0\0\0\0\0";

const TWO: &[u8] =
    b"\x7fELF\x01\x01\x01\0\0\0\0\0\0\0\0\0\x02\0\xf3\0\x01\0\0\0\0\0\0\0\x34\0\0\0\0\0\0\0\0\0\0\0\x34\0\x20\0\x02\0\0\0\0\0\0\0";

// 28 bytes at 84 of the file for address 0; at 116 for the addresses 0 and 28.
const SEGMENT: &[u8] =
    b"\x01\0\0\0\x54\0\0\0\0\0\0\0\0\0\0\0\x1c\0\0\0\x1c\0\0\0\x05\0\0\0\x04\0\0\0";

const FIRST: &[u8] =
    b"\x01\0\0\0\x74\0\0\0\0\0\0\0\0\0\0\0\x1c\0\0\0\x1c\0\0\0\x05\0\0\0\x04\0\0\0";

const SECOND: &[u8] =
    b"\x01\0\0\0\x74\0\0\0\x1c\0\0\0\0\0\0\0\x1c\0\0\0\x1c\0\0\0\x05\0\0\0\x04\0\0\0";

const CODE: &[u8] =
    b"\x13\x05\0\0\x93\x08\x10\0\x73\0\0\0\x13\x05\0\0\x93\x08\x70\0\x73\0\0\0\x6f\xf0\x9f\xfe";

const WORDS: &[u32] = &[
    0x0000_0513,
    0x0010_0893,
    0x0000_0073,
    0x0000_0513,
    0x0070_0893,
    0x0000_0073,
    0xfe9f_f06f,
];

// An empty symbol and the global `go` of value 0 in section 1, at 112; the strings at 144.
const SYMBOLS: &[u8] =
    b"\0\0\0\0\0\0\0\0\0\0\0\0\0\0\0\0\x01\0\0\0\0\0\0\0\0\0\0\0\x10\0\x01\0\0go\0";

const NO_SECTION: &[u8] = &[0; 40];

const SYMBOL_TABLE: &[u8] =
    b"\0\0\0\0\x02\0\0\0\0\0\0\0\0\0\0\0\x70\0\0\0\x20\0\0\0\x02\0\0\0\x01\0\0\0\x04\0\0\0\x10\0\0\0";

const STRINGS: &[u8] =
    b"\0\0\0\0\x03\0\0\0\0\0\0\0\0\0\0\0\x90\0\0\0\x04\0\0\0\0\0\0\0\0\0\0\0\x01\0\0\0\0\0\0\0";

fn joined(alloc: Global, parts: &[&[u8]]) -> Result<Vec<u8>, Fail> {
    let mut bytes = Vec::new(alloc);
    for part in parts {
        bytes.extend_from_slice(part)?;
    }
    Ok(bytes)
}

fn with_symbols(alloc: Global) -> Result<Vec<u8>, Fail> {
    joined(
        alloc,
        &[
            HEADER,
            SEGMENT,
            CODE,
            SYMBOLS,
            NO_SECTION,
            SYMBOL_TABLE,
            STRINGS,
        ],
    )
}

// Changes bytes by their places.
fn change(bytes: &mut [u8], changes: &[(usize, u8)]) {
    for (at, byte) in changes {
        if *at < bytes.len() {
            bytes[*at] = *byte;
        }
    }
}

fn read(alloc: Global, bytes: &[u8]) -> Result<ElfApp, ElfError> {
    if bytes.len() > 1000 {
        return Err(ElfError::NoMemory);
    }
    read_elf(alloc, bytes)
}

#[test]
fn one_segment_is_the_code(rt: HostRuntime) -> Result<(), Fail> {
    let alloc = rt.alloc();
    let bytes = joined(alloc, &[ONE, SEGMENT, CODE, b".sem s, 0\n"])?;
    let Ok(app) = read(alloc, &bytes) else {
        return Err(Fail::from("refused"));
    };
    assert_eq!(rt; app.code.as_slice(), WORDS);
    assert_eq!(rt; app.ram.len(), 0);
    assert_eq!(rt; app.symbols.len(), 0);
    assert_eq!(rt; app.used, 112);
    Ok(())
}

// At 0x100000, with three bytes more in memory than in the file.
#[test]
fn a_segment_in_ram_has_a_tail_of_zeros(rt: HostRuntime) -> Result<(), Fail> {
    let alloc = rt.alloc();
    let mut bytes = joined(alloc, &[ONE, SEGMENT, CODE, b"\xff\xff\xff"])?;
    change(bytes.as_mut_slice(), &[(62, 0x10), (72, 31)]);
    let Ok(app) = read(alloc, &bytes) else {
        return Err(Fail::from("refused"));
    };
    assert_eq!(rt; app.code.len(), 0);
    assert_eq!(rt; app.ram.len(), 8);
    assert_eq!(rt; app.ram[6], 0xfe9f_f06f);
    assert_eq!(rt; app.ram[7], 0);
    Ok(())
}

#[test]
fn segments_may_touch_and_not_overlap(rt: HostRuntime) -> Result<(), Fail> {
    let alloc = rt.alloc();
    let mut bytes = joined(alloc, &[TWO, FIRST, SECOND, CODE])?;
    let Ok(app) = read(alloc, &bytes) else {
        return Err(Fail::from("refused"));
    };
    assert_eq!(rt; app.code.len(), 14);
    assert_eq!(rt; app.code[7], 0x0000_0513);
    for start in [27, 1, 0] {
        change(bytes.as_mut_slice(), &[(92, start)]);
        assert_eq!(rt; read(alloc, &bytes).err(), Some(ElfError::Bad(Overlap)));
    }
    Ok(())
}

// Each row has changes, and the value of `go`, if it is a symbol.
#[test]
fn symbols_are_those_that_others_see(rt: HostRuntime) -> Result<(), Fail> {
    let alloc = rt.alloc();
    let twice: &[(usize, u8)] = &[(112, 1), (116, 5), (124, 0x10), (126, 1)];
    for (value, changes) in [
        (Some(0), [].as_slice()),
        (Some(0), [(140, 0x22)].as_slice()),
        (None, [(140, 0)].as_slice()),
        (None, [(140, 0x30)].as_slice()),
        (None, [(142, 0)].as_slice()),
        (None, [(145, b'1')].as_slice()),
        (None, [(128, 3)].as_slice()),
        (Some(5), twice),
    ] {
        let mut bytes = with_symbols(alloc)?;
        change(bytes.as_mut_slice(), changes);
        let Ok(app) = read(alloc, &bytes) else {
            return Err(Fail::from("refused"));
        };
        let go = value.map(|value| Symbol {
            start: 145,
            len: 2,
            value,
        });
        assert_eq!(rt; app.symbols.first().copied(), go);
        assert!(rt; app.symbols.len() <= 1);
        assert_eq!(rt; app.used, 268);
    }
    Ok(())
}

#[test]
fn each_cause_is_named(rt: HostRuntime) -> Result<(), Fail> {
    let alloc = rt.alloc();
    let rows: [(ElfCause, &[(usize, u8)]); 22] = [
        (Header, &[(4, 2)]),
        (Header, &[(5, 2)]),
        (Header, &[(6, 0)]),
        (Header, &[(16, 3)]),
        (Header, &[(18, 62)]),
        (Header, &[(20, 2)]),
        (Header, &[(42, 33)]),
        (Header, &[(46, 41)]),
        (Header, &[(46, 41), (28, 0xff)]),
        (Range, &[(29, 1)]),
        (Range, &[(32, 0x95)]),
        (Range, &[(56, 0xf1)]),
        (Range, &[(208, 0xa0)]),
        (Range, &[(56, 0xf1), (62, 1)]),
        (Place, &[(72, 27)]),
        (Place, &[(62, 1)]),
        (Place, &[(62, 1), (224, 8)]),
        (SymbolTable, &[(224, 8)]),
        (SymbolTable, &[(208, 31)]),
        (SymbolTable, &[(212, 0)]),
        (SymbolTable, &[(212, 3)]),
        (SymbolTable, &[(147, b'x')]),
    ];
    for (cause, changes) in rows {
        let mut bytes = with_symbols(alloc)?;
        change(bytes.as_mut_slice(), changes);
        assert_eq!(rt; read(alloc, &bytes).err(), Some(ElfError::Bad(cause)));
    }
    assert_eq!(rt; read(alloc, &ONE[..51]).err(), Some(ElfError::Bad(Header)));
    Ok(())
}
