// The image of the first case in both versions, and a row for each cause. Images go by the 160 bytes
// behind the first four; places count from the start of the image.

ghost use Rattle.std.specs.Prelude.{IfOk};
ghost use Rattle.app_image.specs.Raw.{IsMade};

use crate::{ImageCause, ImageError, RawImage, check, read_image, write_image};
use outside::MemSink;
use std::alloc::Global;
use std::test::Fail;

// Version 2, seven code words, one task, one object.
const COUNTS_2: &[u8] = b"\x02\0\0\0\x07\0\0\0\0\0\0\0\x01\0\x01\0\0\0\0\0";

const COUNTS_1: &[u8] = b"\x01\0\0\0\x07\0\0\0\0\0\0\0\x01\0\x01\0\0\0\0\0";

// The settings of version 1, each with its default.
const SETTINGS: &[u8] =
    b"\0\x01\0\0\x10\0\0\0\x40\0\0\0\x0a\0\0\0\x01\0\0\0\x0a\0\0\0\x01\0\0\0\x3e\0\0\0\0\0\x14\0";

const INSERT: &[u8] = b"\0\0\0\0";

// Task `a` at entry 0 with priority 10, semaphore `s` with count 0, and the code.
const TASK: &[u8] = b"a\0\0\0\0\0\0\0\0\0\0\0\0\0\0\0\0\0\0\0\0\0\x14\0\x0a\0\0\0\0\0\0\0\0\0\0\0";

const OBJECT: &[u8] = b"s\0\0\0\0\0\0\0\0\0\0\0\0\0\0\0\x01\0\0\0\0\0\0\0\0\0\0\0\0\0\0\0\0\0\0\0";

const CODE: &[u8] =
    b"\x13\x05\0\0\x93\x08\x10\0\x73\0\0\0\x13\x05\0\0\x93\x08\x70\0\x73\0\0\0\x6f\xf0\x9f\xfe";

// Room for a second vector.
const ROOM: &[u8] = &[0; 24];

fn joined(alloc: Global, parts: &[&[u8]]) -> Result<Vec<u8>, Fail> {
    let mut bytes = Vec::new(alloc);
    for part in parts {
        bytes.extend_from_slice(part)?;
    }
    Ok(bytes)
}

// Reads the four first bytes and these behind them.
fn read(alloc: Global, rest: &[u8]) -> Result<(RawImage, usize), ImageError>
    ensures { IfOk result (λ p. IsMade p.0) }
{
    let mut bytes = Vec::new(alloc);
    if bytes.extend_from_slice(b"UC3I").is_err() || bytes.extend_from_slice(rest).is_err() {
        return Err(ImageError::NoMemory);
    }
    read_image(alloc, &bytes)
}

// What is wrong with the image in these bytes, if anything is.
fn fault(alloc: Global, rest: &[u8]) -> Option<ImageError> {
    match read(alloc, rest) {
        Ok((raw, _)) => check(raw).err(),
        Err(error) => Some(error),
    }
}

#[test]
fn both_versions_of_the_first_image_read_and_version_2_is_written(
    rt: HostRuntime,
) -> Result<(), Fail> {
    let alloc = rt.alloc();
    let whole = joined(
        alloc,
        &[b"UC3I", COUNTS_2, SETTINGS, INSERT, TASK, OBJECT, CODE],
    )?;
    let second = joined(alloc, &[COUNTS_2, SETTINGS, INSERT, TASK, OBJECT, CODE])?;
    let first = joined(alloc, &[COUNTS_1, SETTINGS, TASK, OBJECT, CODE])?;
    for (bytes, len, settings) in [(second, 164, 10), (first, 160, 9)] {
        let Ok((raw, used)) = read(alloc, &bytes) else {
            return Err(Fail::from("no image"));
        };
        assert_eq!(rt; used, len);
        assert_eq!(rt; raw.config.len(), settings);
        let Ok(image) = check(raw) else {
            return Err(Fail::from("refused"));
        };
        assert_eq!(rt; image.tasks().len(), 1);
        assert_eq!(rt; image.code().len(), 7);
        assert_eq!(rt; image.config().isr_limit, 256);
        assert_eq!(rt; image.config().insert, 0);
        let Ok(mut sink) = MemSink::new(alloc, 200, Vec::new(alloc)) else {
            return Err(Fail::from("no memory"));
        };
        assert!(rt; write_image(&image, &mut sink).is_ok());
        assert_eq!(rt; sink.bytes(), whole.as_slice());
    }
    Ok(())
}

// Changes bytes of the image, by their places in it.
fn change(bytes: &mut [u8], changes: &[(usize, u8)]) {
    for (at, byte) in changes {
        if *at >= 4 && *at - 4 < bytes.len() {
            bytes[*at - 4] = *byte;
        }
    }
}

// The image with room behind it.
fn roomy(alloc: Global) -> Result<Vec<u8>, Fail> {
    joined(
        alloc,
        &[COUNTS_2, SETTINGS, INSERT, TASK, OBJECT, CODE, ROOM],
    )
}

#[test]
fn each_cause_is_named(rt: HostRuntime) -> Result<(), Fail> {
    let alloc = rt.alloc();
    for (cause, changes) in [
        (ImageCause::NoTask, [(8, 0), (16, 0), (18, 0)].as_slice()),
        (ImageCause::TaskPriority, [(88, 0)].as_slice()),
        (ImageCause::TaskPriority, [(88, 63), (80, 2)].as_slice()),
        (ImageCause::CodeAddress, [(80, 28)].as_slice()),
        (ImageCause::CodeAddress, [(80, 2)].as_slice()),
        (ImageCause::StackPointer, [(84, 4)].as_slice()),
        (ImageCause::Quantum, [(94, 1)].as_slice()),
        (ImageCause::TaskQueueSize, [(96, 1), (97, 4)].as_slice()),
        (ImageCause::QueueSize, [(116, 2)].as_slice()),
        (ImageCause::TimerTime, [(116, 5)].as_slice()),
        (ImageCause::SettingRange, [(25, 0)].as_slice()),
        (ImageCause::BadName, [(64, 49)].as_slice()),
        (ImageCause::BadName, [(64, 0)].as_slice()),
        (ImageCause::BadName, [(66, 97)].as_slice()),
        (ImageCause::BadName, [(100, 97)].as_slice()),
        (ImageCause::BadName, [(116, 7), (124, 1)].as_slice()),
        (ImageCause::Layout, [(4, 3)].as_slice()),
        (ImageCause::Layout, [(6, 1)].as_slice()),
        (ImageCause::Layout, [(22, 1)].as_slice()),
        (ImageCause::Layout, [(16, 61)].as_slice()),
        (ImageCause::Layout, [(124, 1)].as_slice()),
        (ImageCause::Layout, [(10, 1)].as_slice()),
        (ImageCause::Layout, [(4, 3), (64, 49)].as_slice()),
    ] {
        let mut bytes = roomy(alloc)?;
        change(bytes.as_mut_slice(), changes);
        assert_eq!(rt; fault(alloc, &bytes), Some(ImageError::At(0, cause)));
    }
    Ok(())
}

// Vector 3 of level 1 at entry 0 stands in place of four code words, a second one behind it.
#[test]
fn vectors_are_checked(rt: HostRuntime) -> Result<(), Fail> {
    let alloc = rt.alloc();
    for (cause, changes) in [
        (ImageCause::VectorNumber, [(136, 32)].as_slice()),
        (ImageCause::VectorTwice, [(152, 3)].as_slice()),
        (ImageCause::VectorLevel, [(140, 0)].as_slice()),
        (ImageCause::VectorLevel, [(156, 8)].as_slice()),
        (ImageCause::StackPointer, [(150, 0)].as_slice()),
    ] {
        let mut bytes = roomy(alloc)?;
        change(
            bytes.as_mut_slice(),
            &[
                (8, 3),
                (20, 2),
                (136, 3),
                (137, 0),
                (140, 1),
                (141, 0),
                (142, 0),
                (144, 0),
            ],
        );
        change(
            bytes.as_mut_slice(),
            &[
                (148, 0),
                (149, 0),
                (150, 0x14),
                (152, 4),
                (153, 0),
                (154, 0),
                (156, 1),
            ],
        );
        change(
            bytes.as_mut_slice(),
            &[(160, 0), (161, 0), (162, 0), (163, 0), (166, 0x14)],
        );
        assert_eq!(rt; fault(alloc, &bytes), None);
        change(bytes.as_mut_slice(), changes);
        assert_eq!(rt; fault(alloc, &bytes), Some(ImageError::At(0, cause)));
    }
    Ok(())
}

// The same bytes with one short at their end.
#[test]
fn one_byte_short_is_no_layout(rt: HostRuntime) -> Result<(), Fail> {
    let alloc = rt.alloc();
    let mut short = joined(alloc, &[COUNTS_2, SETTINGS, INSERT, TASK, OBJECT, CODE])?;
    assert_eq!(rt; fault(alloc, &short), None);
    let _ = short.pop();
    assert_eq!(rt;
        fault(alloc, &short),
        Some(ImageError::At(0, ImageCause::Layout))
    );
    Ok(())
}
