// What the program answers on texts with injections.

use super::{Given, answer, handler_with};
use std::test::Fail;
use ucos_top::Status;

// The run of the handler with a post to a waiting task, as the idle task runs.
const POST_TO_11: &str = "0 0 start a
3 3 call a OSSemPend 0 0 0
9 3 wait a OSSemPend
9 3 sw a idle
12 6 irq 3 2
15 6 post 3 OSSemPost 0 0 OS_ERR_NONE 0
16 6 exit 3 ret
16 6 sw idle a
17 6 ret a OSSemPend OS_ERR_NONE 0
22 11 end
";

// A handler of a higher level enters over another; one of a lower level waits for its exit.
const LEVELS: &str = ".code
go: j go
p: os OSSemPend
j p
m: nop
nop
ret
v: os OSSemPost
ret
.sem s, 0
.task a, go, 10, 0, 0, 0x140000
.task b, p, 5, 0, 0, 0x13E000
.vector 1, 1, m, 0x13D000
.vector 2, 2, m, 0x13C000
.vector 3, 3, v, 0x13B000
.inject
step 9, 1
step 10, 3
step 11, 2
";

const LEVELS_TO_4: &str = "0 0 start b
1 1 call b OSSemPend 0 0 0
7 1 wait b OSSemPend
7 1 sw b a
9 3 irq 1 1
10 3 irq 3 3
11 3 post 3 OSSemPost 0 0 OS_ERR_NONE 0
12 3 exit 3 ret
13 3 irq 2 2
15 3 exit 2 ret
17 3 exit 1 ret
17 3 sw a b
18 3 ret b OSSemPend OS_ERR_NONE 0
19 4 end
";

// A post to a semaphore at its highest count.
pub(super) const OVERFLOW: &str = ".code
go: j go
v: os OSSemPost
ret
.sem s, 4294967295
.task a, go, 10, 0, 0, 0x140000
.vector 3, 2, v, 0x13F000
.inject
task 1, 3
";

const OVERFLOW_TO_2: &str = "0 0 start a
1 1 irq 3 2
2 1 post 3 OSSemPost 0 0 OS_ERR_SEM_OVF 0
3 1 exit 3 ret
5 2 end
";

// A handler of each level, each over the one before.
const SEVEN: &str = ".code
go: j go
m: nop
nop
ret
.task a, go, 10, 0, 0, 0x140000
.vector 1, 1, m, 0x13F000
.vector 2, 2, m, 0x13F000
.vector 3, 3, m, 0x13F000
.vector 4, 4, m, 0x13F000
.vector 5, 5, m, 0x13F000
.vector 6, 6, m, 0x13F000
.vector 7, 7, m, 0x13F000
.inject
step 1, 1
step 2, 2
step 3, 3
step 4, 4
step 5, 5
step 6, 6
step 7, 7
";

const SEVEN_TO_2: &str = "0 0 start a
1 1 irq 1 1
2 1 irq 2 2
3 1 irq 3 3
4 1 irq 4 4
5 1 irq 5 5
6 1 irq 6 6
7 1 irq 7 7
9 1 exit 7 ret
11 1 exit 6 ret
13 1 exit 5 ret
15 1 exit 4 ret
17 1 exit 3 ret
19 1 exit 2 ret
21 1 exit 1 ret
23 2 end
";

// A handler that calls what it may not, posts with bad arguments and to a waiting task, and ends by a
// trap.
const ANSWERS: &str = ".code
go: os OSSemPend
j go
v: li a7, 99
ecall
li a1, 5
os OSSemPend
li a0, 7
li a1, 0
os OSSemPost
li a0, 0
li a1, 1
os OSSemPost
li a0, 0
li a1, 0
os OSSemPost
ebreak
.sem s, 0
.task a, go, 10, 0, 0, 0x140000
.vector 3, 2, v, 0x13F000
.inject
task 3, 3, 0, 2
";

const ANSWERS_TO_6: &str = "0 0 start a
1 1 call a OSSemPend 0 0 0
7 1 wait a OSSemPend
7 1 sw a idle
9 3 irq 3 2
10 3 icall 3 99 ERR_CALL_UNKNOWN
13 3 icall 3 OSSemPend OS_ERR_PEND_ISR
17 3 post 3 OSSemPost 7 0 OS_ERR_OBJ_TYPE 0
21 3 post 3 OSSemPost 0 1 OS_ERR_OPT_INVALID 0
25 3 post 3 OSSemPost 0 0 OS_ERR_NONE 0
26 3 exit 3 trap break 80
26 3 sw idle a
27 3 ret a OSSemPend OS_ERR_NONE 0
30 6 end
";

// A handler that never returns, and stores, and one that stores outside RAM.
const ENDS: &str = ".code
x: j x
v: sw a0, 0(a1)
j v
.config isr_limit, 3
.sem s, 0
.task a, x, 10, 0, 0, 0x140000
.vector 3, 2, v, 0x13F000
.inject
task 2, 3, 9, 0x100000
task 2, 3, 0xffffffff
";

const ENDS_TO_4: &str = "0 0 start a
2 2 irq 3 2
2 2 st isr 3 1048576 4 9
4 2 st isr 3 1048576 4 9
5 2 exit 3 limit
5 2 irq 3 2
5 2 exit 3 trap store 4
8 4 end
";

// What stands behind `.inject`, and what a run to no task step prints.
const BEHIND_INJECT: [(&str, &str); 22] = [
    ("", "0 0 end\n"),
    ("\n \t\r\n# task 6, 3\n", "0 0 end\n"),
    ("task 6, 3", "0 0 end\n"),
    ("task 1000000, 3", "0 0 end\n"),
    ("step 1000001, 3", "0 0 end\n"),
    ("task 0, 3, -1, 0xffffffff, 0, 1", "0 0 end\n"),
    ("task 6", "refused 14 J1\n"),
    ("task -1, 3", "refused 14 J1\n"),
    ("look: 6, s", "refused 14 J1\n"),
    ("look 6, s, 1", "refused 14 J1\n"),
    ("\n# one\n\nx\ny\n", "refused 17 J1\n"),
    ("task 6, 3\n\nlook 6, s\ntask 6\n", "refused 17 J1\n"),
    ("task 6, 4", "refused 14 J2\n"),
    ("task 1000001, 4, 1, 2, 3, 4, 5", "refused 14 J2\n"),
    ("task 6, 3, 1, 2, 3, 4, 5", "refused 14 J3\n"),
    ("look 6, a", "refused 14 J5\n"),
    ("look 6, 64", "refused 14 J5\n"),
    ("task 1000001, 3", "refused 14 J6\n"),
    ("look 6, s", "0 0 end\n"),
    ("look 0, 63", "0 0 end\n"),
    ("task 6, 3\n\nlook 6, s\nlook 7, s\n", "0 0 end\n"),
    ("task 6, 3 @", "refused 14 L1\n"),
];

#[test]
fn interrupts_enter_at_their_moments(rt: HostRuntime) -> Result<(), Fail> {
    for (words, text, written) in [
        ("run direct 4", LEVELS, LEVELS_TO_4),
        ("run direct 2", OVERFLOW, OVERFLOW_TO_2),
        ("run direct 2", SEVEN, SEVEN_TO_2),
        ("run deferred 2", SEVEN, SEVEN_TO_2),
        ("run direct 6", ANSWERS, ANSWERS_TO_6),
        ("run direct 4", ENDS, ENDS_TO_4),
    ] {
        let (status, held) = answer(rt.alloc(), &Given::new(words, text.as_bytes()))?;
        assert_eq!(rt; status, Status::Done, "{words} on {text}");
        assert_eq!(rt; held.as_slice(), written.as_bytes(), "{words} on {text}");
    }
    Ok(())
}

// The same lines stand behind a text and behind its binary image.
#[test]
fn injections_stand_behind_a_text_or_an_image(rt: HostRuntime) -> Result<(), Fail> {
    let alloc = rt.alloc();
    let text = handler_with(alloc, "task 6, 3\n")?;
    let (status, held) = answer(alloc, &Given::new("run direct 11", &text))?;
    assert_eq!(rt; status, Status::Done);
    assert_eq!(rt; held.as_slice(), POST_TO_11.as_bytes());
    let (status, mut image) = answer(alloc, &Given::new("image", &text))?;
    assert_eq!(rt; status, Status::Done);
    image.extend_from_slice(b"task 6, 3")?;
    let (status, held) = answer(alloc, &Given::new("run direct 11", &image))?;
    assert_eq!(rt; status, Status::Done);
    assert_eq!(rt; held.as_slice(), POST_TO_11.as_bytes());
    Ok(())
}

#[test]
fn injections_are_read_or_refused_at_their_line(rt: HostRuntime) -> Result<(), Fail> {
    let alloc = rt.alloc();
    for (behind, want) in BEHIND_INJECT {
        let text = handler_with(alloc, behind)?;
        let (_, held) = answer(alloc, &Given::new("run direct 0", &text))?;
        assert_eq!(rt; held.as_slice(), want.as_bytes(), "{behind}");
    }
    Ok(())
}

// There may be 16,384 injections, on the lines from 14 on.
#[test]
fn an_injection_too_many_is_refused_at_its_line(rt: HostRuntime) -> Result<(), Fail> {
    let alloc = rt.alloc();
    let mut text = handler_with(alloc, "")?;
    for _ in 0..16_384 {
        text.extend_from_slice(b"task 6, 3\n")?;
    }
    let (status, held) = answer(alloc, &Given::new("run direct 0", &text))?;
    assert_eq!(rt; status, Status::Done);
    assert_eq!(rt; held.as_slice(), b"0 0 end\n".as_slice());
    text.extend_from_slice(b"look 6, a\n")?;
    let (status, held) = answer(alloc, &Given::new("run direct 0", &text))?;
    assert_eq!(rt; status, Status::Refused);
    assert_eq!(rt; held.as_slice(), b"refused 16398 J4\n".as_slice());
    Ok(())
}
