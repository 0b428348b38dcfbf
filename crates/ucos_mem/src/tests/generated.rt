// Generated cases.

use super::{Given, answer};
use std::test::Fail;
use ucos_top::Status;

// How every generated case begins.
const FRONT: &str = ".code\nrx: os OSQPost\nret\ntk: os OSTimeTick\nret\nctl: li a0, inq\n";

// Nothing is read: the first read would fail.
#[test]
fn a_case_is_generated_for_a_seed(rt: HostRuntime) -> Result<(), Fail> {
    for (words, end) in [
        (
            "gen 18446744073709551615 3",
            ".vector 2, 2, rx, 0x13F800\n.inject\ntask 48, 2, 0, 677, 4, 0\ntask 82, 1\ntask 127, 2, 0, 47, 4, 0\n",
        ),
        (
            "gen 00000000000000000007 00002",
            ".vector 2, 2, rx, 0x13F800\n.inject\ntask 58, 2, 0, 753, 4, 0\ntask 93, 2, 0, 219, 4, 0\n",
        ),
    ] {
        let given = Given {
            read_fails: 1,
            ..Given::new(words, b"")
        };
        let (status, held) = answer(rt.alloc(), &given)?;
        assert_eq!(rt; status, Status::Done, "{words}");
        assert!(rt; held.as_slice().starts_with(FRONT.as_bytes()), "{words}");
        assert!(rt; held.as_slice().ends_with(end.as_bytes()), "{words}");
    }
    Ok(())
}

// Each write fails in turn, after no byte and after one: the lines before it are written, and so much of it.
#[test]
fn a_failing_write_leaves_whole_lines_and_a_part(rt: HostRuntime) -> Result<(), Fail> {
    let alloc = rt.alloc();
    let (_, whole) = answer(alloc, &Given::new("gen 7 2", b""))?;
    for call in 1..53 {
        for bytes in [0, 1] {
            let given = Given {
                write_fails: (call, bytes),
                ..Given::new("gen 7 2", b"")
            };
            let (status, held) = answer(alloc, &given)?;
            assert_eq!(rt; status, Status::WriteFault, "write {call}");
            assert!(rt;
                whole.as_slice().starts_with(held.as_slice()),
                "write {call}"
            );
            let lines = held.iter().filter(|byte| **byte == b'\n').count();
            assert_eq!(rt; lines as u64, call - 1, "write {call}");
            let whole_lines = held.is_empty() || held.as_slice().ends_with(b"\n");
            assert_eq!(rt; whole_lines, bytes == 0, "write {call}");
        }
    }
    Ok(())
}

// A line of a text, by its number from 0.
fn line_of(text: &[u8], number: usize) -> Option<&[u8]> {
    text.split(|byte| *byte == b'\n').nth(number)
}

// The part of a line behind its raw steps.
fn counts_in(line: &[u8]) -> Option<&[u8]> {
    let place = line
        .windows(7)
        .position(|part| part == b" calls ".as_slice())?;
    line.get(place..)
}

// Whether a summary begins with this line, and tells as many calls, switches and lines of both runs, and that all premises
// are held.
fn is_even(text: &[u8], first: &[u8]) -> bool {
    let direct = line_of(text, 1).unwrap_or(&[]);
    let deferred = line_of(text, 2).unwrap_or(&[]);
    line_of(text, 0) == Some(first)
        && direct.starts_with(b"direct raw ")
        && deferred.starts_with(b"deferred raw ")
        && counts_in(direct) == counts_in(deferred)
        && text.ends_with(b"\nP1 held\nP2 held\nP3 held\nP4 held\n")
}

// Nothing is read: the first read would fail.
#[test]
fn both_runs_of_a_generated_case_are_counted(rt: HostRuntime) -> Result<(), Fail> {
    for (words, first) in [
        ("soak 1 100", "soak 1 100 n 4100"),
        ("soak 0007 0001", "soak 7 1 n 140"),
    ] {
        let given = Given {
            read_fails: 1,
            ..Given::new(words, b"")
        };
        let (status, held) = answer(rt.alloc(), &given)?;
        assert_eq!(rt; status, Status::Done, "{words}");
        assert!(rt; is_even(held.as_slice(), first.as_bytes()), "{words}");
    }
    Ok(())
}
