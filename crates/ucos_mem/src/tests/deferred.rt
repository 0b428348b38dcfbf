// What the program prints where posts go through the queue.

use super::interrupts::OVERFLOW;
use super::{Given, answer, handler_with};
use std::test::Fail;
use ucos_top::Status;

// A post to a waiting task is performed by the handler.
const POST_TO_11: &str = "0 0 start a
3 3 call a OSSemPend 0 0 0
9 3 wait a OSSemPend
9 3 sw a idle
12 6 irq 3 2
15 6 post 3 OSSemPost 0 0 OS_ERR_NONE 0
16 6 exit 3 ret
24 6 take OSSemPost 0 0 OS_ERR_NONE 0
24 6 sw idle a
25 6 ret a OSSemPend OS_ERR_NONE 0
30 11 end
";

// Three posts in one burst, over a queue of two: the third is lost.
const BURST: &str = ".code
go: nop
j go
v: os OSSemPost
li a0, 0
li a1, 0
os OSSemPost
li a0, 0
li a1, 0
os OSSemPost
ret
.sem s, 0
.config defer_size, 2
.task a, go, 10, 0, 0, 0x140000
.vector 3, 2, v, 0x13F000
.inject
task 1, 3
";

const BURST_TO_3: &str = "0 0 start a
1 1 irq 3 2
2 1 post 3 OSSemPost 0 0 OS_ERR_NONE 0
6 1 post 3 OSSemPost 0 0 OS_ERR_NONE 0
10 1 post 3 OSSemPost 0 0 OS_ERR_INT_Q_FULL 0
11 1 exit 3 ret
14 1 take OSSemPost 0 0 OS_ERR_NONE 1
17 1 take OSSemPost 0 0 OS_ERR_NONE 2
20 3 end
";

// A post keeps its place in the queue until its take is at its end: two posts of the second interrupt, which comes at
// each raw step from the first one on.
const PLACE: &str = ".code
go: j go
v: os OSSemPost
ret
w: os OSSemPost
li a0, 0
li a1, 0
os OSSemPost
ret
.sem s, 0
.config defer_size, 2
.task a, go, 10, 0, 0, 0x140000
.vector 3, 2, v, 0x13F000
.vector 4, 3, w, 0x13E000
.inject
task 1, 3
";

const PLACE_TO_2: [(&str, &str); 6] = [
    (
        "step 2, 4\n",
        "0 0 start a
1 1 irq 3 2
2 1 irq 4 3
3 1 post 4 OSSemPost 0 0 OS_ERR_NONE 0
7 1 post 4 OSSemPost 0 0 OS_ERR_NONE 0
8 1 exit 4 ret
9 1 post 3 OSSemPost 0 0 OS_ERR_INT_Q_FULL 0
10 1 exit 3 ret
13 1 take OSSemPost 0 0 OS_ERR_NONE 1
16 1 take OSSemPost 0 0 OS_ERR_NONE 2
18 2 end
",
    ),
    (
        "step 3, 4\n",
        "0 0 start a
1 1 irq 3 2
2 1 post 3 OSSemPost 0 0 OS_ERR_NONE 0
3 1 irq 4 3
4 1 post 4 OSSemPost 0 0 OS_ERR_NONE 0
8 1 post 4 OSSemPost 0 0 OS_ERR_INT_Q_FULL 0
9 1 exit 4 ret
10 1 exit 3 ret
13 1 take OSSemPost 0 0 OS_ERR_NONE 1
16 1 take OSSemPost 0 0 OS_ERR_NONE 2
18 2 end
",
    ),
    (
        "step 4, 4\n",
        "0 0 start a
1 1 irq 3 2
2 1 post 3 OSSemPost 0 0 OS_ERR_NONE 0
3 1 exit 3 ret
4 1 irq 4 3
5 1 post 4 OSSemPost 0 0 OS_ERR_NONE 0
9 1 post 4 OSSemPost 0 0 OS_ERR_INT_Q_FULL 0
10 1 exit 4 ret
13 1 take OSSemPost 0 0 OS_ERR_NONE 1
16 1 take OSSemPost 0 0 OS_ERR_NONE 2
18 2 end
",
    ),
    (
        "step 5, 4\n",
        "0 0 start a
1 1 irq 3 2
2 1 post 3 OSSemPost 0 0 OS_ERR_NONE 0
3 1 exit 3 ret
5 1 irq 4 3
6 1 post 4 OSSemPost 0 0 OS_ERR_NONE 0
10 1 post 4 OSSemPost 0 0 OS_ERR_INT_Q_FULL 0
11 1 exit 4 ret
13 1 take OSSemPost 0 0 OS_ERR_NONE 1
16 1 take OSSemPost 0 0 OS_ERR_NONE 2
18 2 end
",
    ),
    (
        "step 6, 4\n",
        "0 0 start a
1 1 irq 3 2
2 1 post 3 OSSemPost 0 0 OS_ERR_NONE 0
3 1 exit 3 ret
6 1 irq 4 3
7 1 post 4 OSSemPost 0 0 OS_ERR_NONE 0
11 1 post 4 OSSemPost 0 0 OS_ERR_INT_Q_FULL 0
12 1 exit 4 ret
13 1 take OSSemPost 0 0 OS_ERR_NONE 1
16 1 take OSSemPost 0 0 OS_ERR_NONE 2
18 2 end
",
    ),
    (
        "step 7, 4\n",
        "0 0 start a
1 1 irq 3 2
2 1 post 3 OSSemPost 0 0 OS_ERR_NONE 0
3 1 exit 3 ret
6 1 take OSSemPost 0 0 OS_ERR_NONE 1
7 1 irq 4 3
8 1 post 4 OSSemPost 0 0 OS_ERR_NONE 0
12 1 post 4 OSSemPost 0 0 OS_ERR_NONE 0
13 1 exit 4 ret
16 1 take OSSemPost 0 0 OS_ERR_NONE 2
19 1 take OSSemPost 0 0 OS_ERR_NONE 3
21 2 end
",
    ),
];

// A count that can not rise is told by the take, and not to the interrupt handler.
const OVERFLOW_TO_2: &str = "0 0 start a
1 1 irq 3 2
2 1 post 3 OSSemPost 0 0 OS_ERR_NONE 0
3 1 exit 3 ret
6 1 take OSSemPost 0 0 OS_ERR_SEM_OVF 0
8 2 end
";

#[test]
fn posts_are_performed_when_they_are_taken(rt: HostRuntime) -> Result<(), Fail> {
    let alloc = rt.alloc();
    let post = handler_with(alloc, "task 6, 3\n")?;
    let (status, held) = answer(alloc, &Given::new("run deferred 11", &post))?;
    assert_eq!(rt; status, Status::Done);
    assert_eq!(rt; held.as_slice(), POST_TO_11.as_bytes());
    for (words, text, written) in [
        ("run deferred 3", BURST, BURST_TO_3),
        ("run deferred 2", OVERFLOW, OVERFLOW_TO_2),
    ] {
        let (status, held) = answer(alloc, &Given::new(words, text.as_bytes()))?;
        assert_eq!(rt; status, Status::Done, "{words}");
        assert_eq!(rt; held.as_slice(), written.as_bytes(), "{words}");
    }
    Ok(())
}

#[test]
fn a_queue_of_two_fills_at_each_point_of_a_take(rt: HostRuntime) -> Result<(), Fail> {
    let alloc = rt.alloc();
    for (injection, written) in PLACE_TO_2 {
        let mut text = Vec::new(alloc);
        text.extend_from_slice(PLACE.as_bytes())?;
        text.extend_from_slice(injection.as_bytes())?;
        let (status, held) = answer(alloc, &Given::new("run deferred 2", &text))?;
        assert_eq!(rt; status, Status::Done, "{injection}");
        assert_eq!(rt; held.as_slice(), written.as_bytes(), "{injection}");
    }
    Ok(())
}
