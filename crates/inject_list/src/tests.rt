// Texts of injections and what they give, or the line and the cause of their refusal.

use crate::InjectCause::*;
use crate::Moment::{Step, Task};
use crate::Seen::{Obj, Ready};
use crate::{InjectCause, InjectError, InjectList, Injection, Look, Moment, read};
use app_image::{Image, check, read_image};
use kern_base::{ObjId, Prio};
use std::alloc::Global;
use std::test::Fail;
use text_lex::{TEXT_LIMIT, tokens};

// Behind the first four bytes: version 2, one code word, one task, three objects, two vectors.
const HEADER: &[u8] = b"\x02\0\0\0\x01\0\0\0\0\0\0\0\x01\0\x03\0\x02\0\0\0";

const SETTINGS: &[u8] =
    b"\0\x01\0\0\x10\0\0\0\x40\0\0\0\x0a\0\0\0\x01\0\0\0\x0a\0\0\0\x01\0\0\0\x3e\0\0\0\0\0\x14\0\0\0\0\0";

// Task `a`, one-shot timer `k`, mutex `m` and semaphore `s`.
const TASK: &[u8] = b"a\0\0\0\0\0\0\0\0\0\0\0\0\0\0\0\0\0\0\0\0\0\x14\0\x0a\0\0\0\0\0\0\0\0\0\0\0";

const TIMER: &[u8] =
    b"k\0\0\0\0\0\0\0\0\0\0\0\0\0\0\0\x05\0\0\0\x01\0\0\0\0\0\0\0\xff\xff\xff\xff\0\0\0\0";

const MUTEX: &[u8] = b"m\0\0\0\0\0\0\0\0\0\0\0\0\0\0\0\x04\0\0\0\0\0\0\0\0\0\0\0\0\0\0\0\0\0\0\0";

const SEMAPHORE: &[u8] =
    b"s\0\0\0\0\0\0\0\0\0\0\0\0\0\0\0\x01\0\0\0\0\0\0\0\0\0\0\0\0\0\0\0\0\0\0\0";

const VECTOR_3: &[u8] = b"\x03\0\0\0\x02\0\0\0\0\0\0\0\0\0\x14\0";

const VECTOR_0: &[u8] = b"\0\0\0\0\x01\0\0\0\0\0\0\0\0\0\x14\0";

const CODE: &[u8] = b"\x13\0\0\0";

// The image behind its first four bytes.
fn rest_of_image(alloc: Global) -> Result<Vec<u8>, Fail> {
    let mut bytes = Vec::new(alloc);
    for part in [
        HEADER, SETTINGS, TASK, TIMER, MUTEX, SEMAPHORE, VECTOR_3, VECTOR_0, CODE,
    ] {
        bytes.extend_from_slice(part)?;
    }
    Ok(bytes)
}

fn image(alloc: Global) -> Result<Image, Fail> {
    let rest = rest_of_image(alloc)?;
    let mut bytes = Vec::new(alloc);
    bytes.extend_from_slice(b"UC3I")?;
    bytes.extend_from_slice(&rest)?;
    let Ok((raw, _)) = read_image(alloc, &bytes) else {
        return Err(Fail::from("no image"));
    };
    let Ok(image) = check(raw) else {
        return Err(Fail::from("no valid image"));
    };
    Ok(image)
}

fn list_of(alloc: Global, text: &[u8]) -> Result<Result<InjectList, InjectError>, Fail> {
    if text.len() > TEXT_LIMIT {
        return Err(Fail::from("a long text"));
    }
    let found = tokens(alloc, text)?;
    let image = image(alloc)?;
    Ok(read(alloc, text, &found, &image))
}

// The line and the cause, if the text is refused.
fn refusal_of(alloc: Global, text: &[u8]) -> Result<Option<(u32, InjectCause)>, Fail> {
    match list_of(alloc, text)? {
        Ok(_) => Ok(None),
        Err(InjectError::At(line, cause)) => Ok(Some((line, cause))),
        Err(InjectError::NoMemory) => Err(Fail::from("no memory")),
    }
}

fn injection(moment: Moment, vector: u8, words: [u32; 4], count: u8) -> Injection {
    Injection {
        moment,
        vector,
        words,
        count,
    }
}

#[test]
fn each_form_is_read(rt: HostRuntime) -> Result<(), Fail> {
    let alloc = rt.alloc();
    let text =
        b"task 6, 3\n\n # none\nstep -0,0,-1, 0x10,4294967295, 7\nlook 28, s\nlook 0, 63\nstep 4294967295, 3\ntask 1000000, 3, 9";
    let list = list_of(alloc, text)??;
    assert_eq!(rt;
        list.injections.as_slice(),
        [
            injection(Task(6), 3, [0, 0, 0, 0], 0),
            injection(Step(0), 0, [4294967295, 16, 4294967295, 7], 4),
            injection(Step(4294967295), 3, [0, 0, 0, 0], 0),
            injection(Task(1000000), 3, [9, 0, 0, 0], 1),
        ]
        .as_slice()
    );
    assert_eq!(rt;
        list.looks.as_slice(),
        [
            Look {
                at: 28,
                what: Obj(ObjId(2)),
            },
            Look {
                at: 0,
                what: Ready(Prio(63)),
            },
        ]
        .as_slice()
    );
    let list = list_of(alloc, b"")??;
    assert!(rt; list.injections.is_empty() && list.looks.is_empty());
    Ok(())
}

#[test]
fn the_first_line_with_a_cause_is_refused(rt: HostRuntime) -> Result<(), Fail> {
    for (text, line, cause) in [
        (b"\n\ntask 6".as_slice(), 3, WrongForm),
        (b"task 6, 3, 1,\n", 1, WrongForm),
        (b"task 6, 3, s\n", 1, WrongForm),
        (b"task -1, 3\n", 1, WrongForm),
        (b"task 1 3\n", 1, WrongForm),
        (b".task 1, 3\n", 1, WrongForm),
        (b"wait 1, 3\n", 1, WrongForm),
        (b"look 1, -1\n", 1, WrongForm),
        (b"look 1, s, s\n", 1, WrongForm),
        (b"task 6, 3\ntask 2000000, 4, 1, 2, 3, 4, 5\n", 2, NoVector),
        (b"step 1, 259\n", 1, NoVector),
        (b"task 2000000, 3, 1, 2, 3, 4, 5\ntask 6\n", 1, TooManyWords),
        (b"look 1, m\nlook 1, k\n", 2, NoList),
        (b"look 1, a\n", 1, NoList),
        (b"look 1, 64\n", 1, NoList),
        (b"look 1, 319\n", 1, NoList),
        (b"step 1000001, 3\ntask 1000001, 3\n", 2, LateMoment),
    ] {
        assert_eq!(rt; refusal_of(rt.alloc(), text)?, Some((line, cause)));
    }
    Ok(())
}

// The last entry that there may be, and what is refused behind it.
#[test]
fn so_many_entries_are_read_and_no_more(rt: HostRuntime) -> Result<(), Fail> {
    let alloc = rt.alloc();
    let mut full = Vec::new(alloc);
    for _ in 0..16383 {
        full.extend_from_slice(b"look 0, 63\n")?;
    }
    full.extend_from_slice(b"step 1, 3\n")?;
    assert_eq!(rt; refusal_of(alloc, &full)?, None);
    for (last, line, cause) in [
        (b"look 1, 64\n".as_slice(), 16385, TooMany),
        (b"\n\ntask 1000001, 3\n", 16387, TooMany),
        (b"step 1, 4\n", 16385, NoVector),
        (b"step 1, 3, 1, 2, 3, 4, 5\n", 16385, TooManyWords),
        (b"task 1\n", 16385, WrongForm),
    ] {
        let mut text = Vec::new(alloc);
        text.extend_from_slice(&full)?;
        text.extend_from_slice(last)?;
        assert_eq!(rt; refusal_of(alloc, &text)?, Some((line, cause)));
    }
    Ok(())
}
