// Both task histories of a case, and the premises under which they are equal.

use super::{Given, answer};
use std::alloc::Global;
use std::test::Fail;
use ucos_top::Status;

// A handler posts to a semaphore for which a task waits, and the two methods give one history.
const POSTS: &str = ".code
go: os OSSemPend
j go
x: j x
v: os OSSemPost
ret
.sem s, 0
.task a, go, 10, 0, 0, 0x140000
.task b, x, 10, 0, 0, 0x13E000
.task c, x, 10, 0, 0, 0x13D000
.vector 3, 2, v, 0x13F000
.inject
task 3, 3
";

pub(super) const POSTS_TO_4: &str = "method direct
0 start a
1 call a OSSemPend 0 0 0
1 wait a OSSemPend
1 sw a b
3 irq 3 2
4 end
method deferred
0 start a
1 call a OSSemPend 0 0 0
1 wait a OSSemPend
1 sw a b
3 irq 3 2
4 end
P1 held
P2 held
P3 held
P4 held
raw 13 21
";

// The same, a write each: the line of an event and its switch line are one.
const WRITES: [&str; 17] = [
    "method direct\n",
    "0 start a\n",
    "1 call a OSSemPend 0 0 0\n",
    "1 wait a OSSemPend\n1 sw a b\n",
    "3 irq 3 2\n",
    "4 end\n",
    "method deferred\n",
    "0 start a\n",
    "1 call a OSSemPend 0 0 0\n",
    "1 wait a OSSemPend\n1 sw a b\n",
    "3 irq 3 2\n",
    "4 end\n",
    "P1 held\n",
    "P2 held\n",
    "P3 held\n",
    "P4 held\n",
    "raw 13 21\n",
];

// A handler branches by the answer of its post.
const READS: &str = ".code
go: nop
j go
v: os OSSemPost
bnez a0, y
y: ret
.sem s, 0
.task a, go, 10, 0, 0, 0x140000
.vector 3, 2, v, 0x13F000
.inject
task 1, 3
";

const READS_TO_2: &str = "method direct
0 start a
1 irq 3 2
2 end
method deferred
0 start a
1 irq 3 2
2 end
P1 held
P2 held
P3 broken 3
P4 held
raw 6 9
";

// It writes the register before it branches.
const WRITES_FIRST: &str = ".code
go: nop
j go
v: os OSSemPost
li a0, 0
bnez a0, y
y: ret
.sem s, 0
.task a, go, 10, 0, 0, 0x140000
.vector 3, 2, v, 0x13F000
.inject
task 1, 3
";

const WRITES_FIRST_TO_2: &str = "method direct
0 start a
1 irq 3 2
2 end
method deferred
0 start a
1 irq 3 2
2 end
P1 held
P2 held
P3 held
P4 held
raw 7 10
";

// A third post finds the queue full; its first argument is what the post before it answered.
const BURST: &str = ".code
go: j go
v: os OSSemPost
os OSSemPost
os OSSemPost
ret
.sem s, 0
.config defer_size, 2
.task a, go, 10, 0, 0, 0x140000
.vector 3, 2, v, 0x13F000
.inject
task 1, 3
";

const BURST_TO_3: &str = "method direct
0 start a
1 irq 3 2
3 end
method deferred
0 start a
1 irq 3 2
3 end
P1 held
P2 held
P3 broken 4
P4 broken 6
raw 10 16
";

// An interrupt enters at a raw step.
const BY_STEP: &str = ".code
go: j go
v: ret
.task a, go, 10, 0, 0, 0x140000
.vector 3, 2, v, 0x13F000
.inject
step 2, 3
";

const BY_STEP_TO_3: &str = "method direct
0 start a
2 irq 3 2
3 end
method deferred
0 start a
2 irq 3 2
3 end
P1 broken 2
P2 held
P3 held
P4 held
raw 4 4
";

// With the literal insertion rule a take readies a task of the interrupted priority, and that task runs first.
const LITERAL: &str = ".code
go: os OSSemPend
j go
x: j x
v: os OSSemPost
ret
.sem s, 0
.config insert, 1
.task a, go, 10, 0, 0, 0x140000
.task b, x, 10, 0, 0, 0x13E000
.task c, x, 10, 0, 0, 0x13D000
.vector 3, 2, v, 0x13F000
.inject
task 3, 3
";

pub(super) const LITERAL_TO_4: &str = "method direct
0 start a
1 call a OSSemPend 0 0 0
1 wait a OSSemPend
1 sw a b
3 irq 3 2
4 end
method deferred
0 start a
1 call a OSSemPend 0 0 0
1 wait a OSSemPend
1 sw a b
3 irq 3 2
3 sw b a
3 ret a OSSemPend OS_ERR_NONE 0
4 end
P1 held
P2 held
P3 held
P4 held
P5 broken 19
raw 13 21
";

#[test]
fn both_methods_are_compared(rt: HostRuntime) -> Result<(), Fail> {
    for (words, text, status, written) in [
        ("both 4", POSTS, Status::Done, POSTS_TO_4),
        ("both 2", READS, Status::Broken, READS_TO_2),
        ("both 2", WRITES_FIRST, Status::Done, WRITES_FIRST_TO_2),
        ("both 3", BURST, Status::Broken, BURST_TO_3),
        ("both 3", BY_STEP, Status::Broken, BY_STEP_TO_3),
        ("both 4", LITERAL, Status::Broken, LITERAL_TO_4),
        ("both 4", "x", Status::Refused, "refused 1 A1\n"),
    ] {
        let (got, held) = answer(rt.alloc(), &Given::new(words, text.as_bytes()))?;
        assert_eq!(rt; got, status, "{words} on {text}");
        assert_eq!(rt; held.as_slice(), written.as_bytes(), "{words} on {text}");
    }
    Ok(())
}

// The first writes, and then so many bytes of the next one.
fn written(alloc: Global, writes: usize, bytes: usize) -> Result<Vec<u8>, Fail> {
    let mut all = Vec::new(alloc);
    for text in WRITES.iter().take(writes) {
        all.extend_from_slice(text.as_bytes())?;
    }
    if let Some(text) = WRITES.get(writes) {
        let front = text.as_bytes().get(..bytes).unwrap_or(&[]);
        all.extend_from_slice(front)?;
    }
    Ok(all)
}

// Each write fails in turn, after no byte, after one and after all but one: that much more is written, and no more.
#[test]
fn a_failing_write_leaves_a_prefix(rt: HostRuntime) -> Result<(), Fail> {
    let alloc = rt.alloc();
    let all = written(alloc, WRITES.len(), 0)?;
    assert_eq!(rt; all.as_slice(), POSTS_TO_4.as_bytes());
    for (i, write) in WRITES.iter().enumerate() {
        for bytes in [0, 1, write.len().saturating_sub(1)] {
            let given = Given {
                write_fails: (i as u64 + 1, bytes),
                ..Given::new("both 4", POSTS.as_bytes())
            };
            let (got, held) = answer(alloc, &given)?;
            let left = written(alloc, i, bytes)?;
            assert_eq!(rt; got, Status::WriteFault, "write {i}");
            assert_eq!(rt; held.as_slice(), left.as_slice(), "write {i}");
        }
    }
    Ok(())
}

// Each read fails in turn, of pieces of 16 bytes: nothing is written. The last read finds the end.
#[test]
fn a_failing_read_writes_nothing(rt: HostRuntime) -> Result<(), Fail> {
    let reads = POSTS.len() as u64 / 16 + 2;
    for call in 1..reads + 1 {
        let given = Given {
            read_fails: call,
            ..Given::new("both 4", POSTS.as_bytes())
        };
        let (got, held) = answer(rt.alloc(), &given)?;
        assert_eq!(rt; got, Status::ReadFault, "read {call}");
        assert!(rt; held.is_empty(), "read {call}");
    }
    let given = Given {
        read_fails: reads + 1,
        ..Given::new("both 4", POSTS.as_bytes())
    };
    let (got, _) = answer(rt.alloc(), &given)?;
    assert_eq!(rt; got, Status::Done);
    Ok(())
}
