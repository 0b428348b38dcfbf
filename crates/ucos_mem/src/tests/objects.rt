// What the program prints of queues, event flag groups, and the own semaphores and queues of tasks.

use super::{Given, answer};
use std::test::Fail;
use ucos_top::Status;

// Two tasks wait for event flags, one of them for flags that a first post does not set; the post
// costs a micro-step for each.
const WAITERS: &str = ".code
one: li a0, 0
li a1, 5
li a2, 0
li a3, 4
os OSFlagPend
j one
two: li a0, 0
li a1, 6
li a2, 0
li a3, 5
os OSFlagPend
j two
post: li a0, 0
li a1, 2
li a2, 0
os OSFlagPost
li a0, 0
li a1, 5
li a2, 0
os OSFlagPost
li a0, 0
li a1, 7
li a2, 1
os OSFlagPost
j post
.flags f, 0
.task a, one, 10, 0, 0, 0x140000
.task b, two, 11, 0, 0, 0x13e000
.task c, post, 20, 0, 0, 0x13d000
";

const WAITERS_TO_40: &str = "0 0 start a
5 5 call a OSFlagPend 0 5 0 4
11 5 wait a OSFlagPend
11 5 sw a b
17 11 call b OSFlagPend 0 6 0 5
24 11 wait b OSFlagPend
24 11 sw b c
29 16 call c OSFlagPost 0 2 0
38 16 ret c OSFlagPost OS_ERR_NONE 2
38 16 sw c b
39 17 ret b OSFlagPend OS_ERR_NONE 2
46 24 call b OSFlagPend 0 6 0 5
53 24 wait b OSFlagPend
53 24 sw b c
58 29 call c OSFlagPost 0 5 0
72 29 ret c OSFlagPost OS_ERR_NONE 5
72 29 sw c a
73 30 ret a OSFlagPend OS_ERR_NONE 5
80 37 call a OSFlagPend 0 5 0 4
86 37 wait a OSFlagPend
86 37 sw a b
87 38 ret b OSFlagPend OS_ERR_NONE 4
89 40 end
";

// A pool of one message: a queue that is not full is told of the pool, a full one of itself; one
// that gives its message back serves another at once.
const POOL: &str = ".code
go: li a0, small
li a1, 7
li a2, 1
li a3, 0
os OSQPost
li a0, small
li a3, 0
os OSQPost
li a0, wide
li a3, 0
os OSQPost
li a0, a
li a1, 8
li a3, 0
os OSTaskQPost
li a0, small
li a1, 0
li a2, 1
os OSQPend
li a0, a
li a1, 9
li a2, 3
li a3, 1
os OSTaskQPost
li a0, 0
li a1, 1
os OSTaskQPend
li a0, wide
li a1, 0
li a2, 1
os OSQPend
j go
.queue small, 1
.queue wide, 2
.task a, go, 10, 0, 2, 0x140000
.config pool, 1
";

const POOL_TO_50: &str = "0 0 start a
5 5 call a OSQPost 0 7 1 0
7 5 ret a OSQPost OS_ERR_NONE 0
11 9 call a OSQPost 0 0 1 0
13 9 ret a OSQPost OS_ERR_Q_MAX 0
17 13 call a OSQPost 1 0 1 0
19 13 ret a OSQPost OS_ERR_MSG_POOL_EMPTY 0
24 18 call a OSTaskQPost 0 8 1 0
26 18 ret a OSTaskQPost OS_ERR_MSG_POOL_EMPTY 0
31 23 call a OSQPend 0 0 1
33 23 ret a OSQPend OS_ERR_NONE 7 1
39 29 call a OSTaskQPost 0 9 3 1
41 29 ret a OSTaskQPost OS_ERR_NONE 0
45 33 call a OSTaskQPend 0 1
47 33 ret a OSTaskQPend OS_ERR_NONE 9 3
52 38 call a OSQPend 1 0 1
54 38 ret a OSQPend OS_ERR_PEND_WOULD_BLOCK 0 0
61 45 call a OSQPost 0 7 1 0
63 45 ret a OSQPost OS_ERR_NONE 0
67 49 call a OSQPost 0 0 1 0
69 49 ret a OSQPost OS_ERR_Q_MAX 0
70 50 end
";

// Messages first in and first out, and as the first where a post says so; all that wait get one
// message.
const ORDER: &str = ".code
take: li a0, q
li a1, 0
li a2, 0
os OSQPend
j take
give: li a0, q
li a1, 1
li a2, 10
li a3, 2
os OSQPost
li a0, q
li a1, 2
li a2, 20
li a3, 0
os OSQPost
li a0, r
li a1, 3
li a3, 0
os OSQPost
li a0, r
li a1, 4
li a3, 1
os OSQPost
li a0, r
li a1, 0
li a2, 1
os OSQPend
li a0, r
li a1, 0
li a2, 1
os OSQPend
j give
.queue q, 2
.queue r, 2
.task a, take, 10, 0, 0, 0x140000
.task b, take, 11, 0, 0, 0x13e000
.task c, give, 20, 0, 0, 0x13d000
";

const ORDER_TO_60: &str = "0 0 start a
4 4 call a OSQPend 0 0 0
10 4 wait a OSQPend
10 4 sw a b
15 9 call b OSQPend 0 0 0
22 9 wait b OSQPend
22 9 sw b c
28 15 call c OSQPost 0 1 10 2
40 15 ret c OSQPost OS_ERR_NONE 0
40 15 sw c a
41 16 ret a OSQPend OS_ERR_NONE 1 10
47 22 call a OSQPend 0 0 0
53 22 wait a OSQPend
53 22 sw a b
54 23 ret b OSQPend OS_ERR_NONE 1 10
60 29 call b OSQPend 0 0 0
67 29 wait b OSQPend
67 29 sw b c
73 35 call c OSQPost 0 2 20 0
80 35 ret c OSQPost OS_ERR_NONE 0
80 35 sw c a
81 36 ret a OSQPend OS_ERR_NONE 2 20
87 42 call a OSQPend 0 0 0
93 42 wait a OSQPend
93 42 sw a c
98 47 call c OSQPost 1 3 20 0
100 47 ret c OSQPost OS_ERR_NONE 0
105 52 call c OSQPost 1 4 20 1
107 52 ret c OSQPost OS_ERR_NONE 0
112 57 call c OSQPend 1 0 1
114 57 ret c OSQPend OS_ERR_NONE 4 20
117 60 end
";

// A task's own semaphore counts where it does not wait, and a post to one that waits wakes it;
// options, and tasks that there are not.
const OWN: &str = ".code
go: li a0, 1
li a1, 0
os OSTaskSemPost
li a0, 0
li a1, 1
os OSTaskSemPend
li a0, 0
li a1, 0
os OSTaskSemPend
j go
two: li a0, 0
li a1, 0
os OSTaskSemPend
li a0, -1
li a1, 0
os OSTaskSemPost
li a0, 0
li a1, 0
os OSTaskSemPost
li a0, 2
os OSTaskSemPost
li a0, 0
li a1, 7
os OSTaskSemPost
j two
.task a, go, 10, 0, 0, 0x140000
.task b, two, 11, 0, 0, 0x13e000
";

const OWN_TO_45: &str = "0 0 start a
3 3 call a OSTaskSemPost 1 0
5 3 ret a OSTaskSemPost OS_ERR_NONE 1
9 7 call a OSTaskSemPend 0 1
11 7 ret a OSTaskSemPend OS_ERR_PEND_WOULD_BLOCK 0
15 11 call a OSTaskSemPend 0 0
19 11 wait a OSTaskSemPend
19 11 sw a b
23 15 call b OSTaskSemPend 0 0
25 15 ret b OSTaskSemPend OS_ERR_NONE 0
29 19 call b OSTaskSemPost 4294967295 0
31 19 ret b OSTaskSemPost OS_ERR_NONE 1
35 23 call b OSTaskSemPost 0 0
40 23 ret b OSTaskSemPost OS_ERR_NONE 0
40 23 sw b a
41 24 ret a OSTaskSemPend OS_ERR_NONE 0
46 29 call a OSTaskSemPost 1 0
48 29 ret a OSTaskSemPost OS_ERR_NONE 2
52 33 call a OSTaskSemPend 0 1
54 33 ret a OSTaskSemPend OS_ERR_PEND_WOULD_BLOCK 0
58 37 call a OSTaskSemPend 0 0
62 37 wait a OSTaskSemPend
62 37 sw a b
65 40 call b OSTaskSemPost 2 0
67 40 ret b OSTaskSemPost OS_ERR_TASK_INVALID 0
71 44 call b OSTaskSemPost 0 7
73 44 ret b OSTaskSemPost OS_ERR_OPT_INVALID 0
74 45 end
";

// An interrupt handler posts to each kind of object, may wait for none, and names an object of
// another kind.
const ISR: &str = ".code
go: li a0, q
li a1, 0
li a2, 0
os OSQPend
li a0, f
li a1, 1
li a2, 0
li a3, 4
os OSFlagPend
li a0, 0
li a1, 0
os OSTaskSemPend
li a0, 0
li a1, 0
os OSTaskQPend
j go
v: li a0, q
li a1, 5
li a2, 6
li a3, 0
os OSQPost
li a0, f
li a1, 1
li a2, 0
os OSFlagPost
li a0, a
li a1, 0
os OSTaskSemPost
li a0, a
li a1, 7
li a2, 8
li a3, 0
os OSTaskQPost
li a0, q
os OSQPend
li a0, f
os OSFlagPend
os OSTaskSemPend
os OSTaskQPend
li a0, f
li a3, 0
os OSQPost
ret
.queue q, 2
.flags f, 0
.task a, go, 10, 0, 2, 0x140000
.vector 3, 2, v, 0x13F000
.inject
task 5, 3
";

const ISR_DIRECT_TO_24: &str = "0 0 start a
4 4 call a OSQPend 0 0 0
10 4 wait a OSQPend
10 4 sw a idle
11 5 irq 3 2
16 5 post 3 OSQPost 0 5 6 0 OS_ERR_NONE 0
21 5 post 3 OSFlagPost 1 1 0 OS_ERR_NONE 1
25 5 post 3 OSTaskSemPost 0 0 OS_ERR_NONE 1
31 5 post 3 OSTaskQPost 0 7 8 0 OS_ERR_NONE 0
34 5 icall 3 OSQPend OS_ERR_PEND_ISR
37 5 icall 3 OSFlagPend OS_ERR_PEND_ISR
39 5 icall 3 OSTaskSemPend OS_ERR_PEND_ISR
41 5 icall 3 OSTaskQPend OS_ERR_PEND_ISR
45 5 post 3 OSQPost 1 0 8 0 OS_ERR_OBJ_TYPE 0
46 5 exit 3 ret
46 5 sw idle a
47 5 ret a OSQPend OS_ERR_NONE 5 6
53 11 call a OSFlagPend 1 1 0 4
55 11 ret a OSFlagPend OS_ERR_NONE 1
59 15 call a OSTaskSemPend 0 0
61 15 ret a OSTaskSemPend OS_ERR_NONE 0
65 19 call a OSTaskQPend 0 0
67 19 ret a OSTaskQPend OS_ERR_NONE 7 8
72 24 end
";

const ISR_DEFERRED_TO_24: &str = "0 0 start a
4 4 call a OSQPend 0 0 0
10 4 wait a OSQPend
10 4 sw a idle
11 5 irq 3 2
16 5 post 3 OSQPost 0 5 6 0 OS_ERR_NONE 0
21 5 post 3 OSFlagPost 1 1 0 OS_ERR_NONE 0
25 5 post 3 OSTaskSemPost 0 0 OS_ERR_NONE 0
31 5 post 3 OSTaskQPost 0 7 8 0 OS_ERR_NONE 0
34 5 icall 3 OSQPend OS_ERR_PEND_ISR
37 5 icall 3 OSFlagPend OS_ERR_PEND_ISR
39 5 icall 3 OSTaskSemPend OS_ERR_PEND_ISR
41 5 icall 3 OSTaskQPend OS_ERR_PEND_ISR
45 5 post 3 OSQPost 1 0 8 0 OS_ERR_OBJ_TYPE 0
46 5 exit 3 ret
54 5 take OSQPost 0 5 6 0 OS_ERR_NONE 0
57 5 take OSFlagPost 1 1 0 OS_ERR_NONE 1
60 5 take OSTaskSemPost 0 0 OS_ERR_NONE 1
63 5 take OSTaskQPost 0 7 8 0 OS_ERR_NONE 0
63 5 sw idle a
64 5 ret a OSQPend OS_ERR_NONE 5 6
70 11 call a OSFlagPend 1 1 0 4
72 11 ret a OSFlagPend OS_ERR_NONE 1
76 15 call a OSTaskSemPend 0 0
78 15 ret a OSTaskSemPend OS_ERR_NONE 0
82 19 call a OSTaskQPend 0 0
84 19 ret a OSTaskQPend OS_ERR_NONE 7 8
89 24 end
";

#[test]
fn each_kind_of_object_is_posted_to_and_waited_for(rt: HostRuntime) -> Result<(), Fail> {
    for (words, text, written) in [
        ("run direct 40", WAITERS, WAITERS_TO_40),
        ("run direct 50", POOL, POOL_TO_50),
        ("run direct 60", ORDER, ORDER_TO_60),
        ("run direct 45", OWN, OWN_TO_45),
        ("run direct 24", ISR, ISR_DIRECT_TO_24),
        ("run deferred 24", ISR, ISR_DEFERRED_TO_24),
    ] {
        let (status, held) = answer(rt.alloc(), &Given::new(words, text.as_bytes()))?;
        assert_eq!(rt; status, Status::Done, "{words} on {text}");
        assert_eq!(rt; held.as_slice(), written.as_bytes(), "{words} on {text}");
    }
    Ok(())
}
